//! In which order lines are played, tasks wake and mutexes pass on: over lists of numbers that rise.
ghost use Rattle.std.specs.Prelude.{◌≡◌, ◌≢◌, ◌↔◌, ℕ, List, false, Option, slice_get};
ghost use Rattle.std.specs.List.{Contains, fold};
ghost use Rattle.std.specs.List.Sorted.{IsStrictlyIncreasing};
ghost use Rattle.evm_model.specs.Events.{broadcast};
ghost use Rattle.evm_model.specs.Passing.{hand_over, end_task};
ghost use Rattle.evm_model.specs.Pipes.{Pipe, play, receive, set_stall};
ghost use Rattle.evm_model.specs.Settle.{play_oob, play_in_band, run_best, run_in_band, settle_oob, turn_in_band};
ghost use Rattle.evm_model.specs.State.{State, Parts, on_pipe};
ghost use Rattle.evm_model.specs.Tasks.{set_state, leave_in_band};
ghost use Rattle.evm_model.specs.Waits.{wake};
ghost use Rattle.evm_model.specs.declared.boot.Boot.{Boot};
ghost use Rattle.evm_model.specs.declared.mutex.Mutex.{Mutex};
ghost use Rattle.evm_model.specs.declared.stage.Stage.{Stage};
ghost use Rattle.evm_model.specs.declared.task.Task.{Task};
ghost use Rattle.evm_model.specs.declared.task.TaskState.{TaskState};
ghost use Rattle.evm_model.specs.declared.task.Wait.{Wait};
ghost use Rattle.claims_machine.specs.Reached.{Reached};
ghost use Rattle.claims_machine.specs.Waiting.{FirstByFirst};

/// After every boot whose numbers are inside their limits, with an image loaded or none, and every list of events the lines
/// of each wire and of each log rise, and those of the logs still do where a Step has received a line by either stage. A
/// stage that isn't stalled plays the lines of its log one after another.
pub fn lines_are_played_in_rising_order()
    ensures rise { (boot : Boot) (s : State) (c : ℕ) (pipe : Pipe) → Reached boot s → slice_get s.board.parts.pipes c ≡ Option.Some pipe →
        IsStrictlyIncreasing pipe.wire × IsStrictlyIncreasing pipe.oob.lines × IsStrictlyIncreasing pipe.in_band.lines }
    ensures received { (boot : Boot) (s : State) (stage : Stage) (c l : ℕ) (pipe : Pipe) → Reached boot s → slice_get s.board.parts.pipes c ≡ Option.Some pipe →
        IsStrictlyIncreasing (receive stage l pipe).oob.lines × IsStrictlyIncreasing (receive stage l pipe).in_band.lines }
    ensures oob { (was : Option ℕ) (c : ℕ) (k : Parts) (pipe : Pipe) → slice_get k.pipes c ≡ Option.Some pipe → pipe.oob.stalled ≡ false →
        settle_oob was c k ≡ run_best c (fold (λ x l. play_oob was c l x) k pipe.oob.lines) }
    ensures in_band { (c : ℕ) (k : Parts) (pipe : Pipe) → slice_get k.pipes c ≡ Option.Some pipe → pipe.in_band.stalled ≡ false →
        turn_in_band c k ≡ run_in_band c (fold (λ x l. play_in_band c l x) k pipe.in_band.lines) }
{
    law_rules::rules_hold();
    law_runs::goes_in_order(); // the clauses rise and plays
}

/// A line that is played in-band on a processor wakes the tasks of that processor that wait for it, one after another, in
/// rising order of their numbers; each call answers 0.
pub fn waiters_of_a_line_wake_by_number()
    ensures { (c l : ℕ) (k : Parts) → (waiters : List ℕ) × (IsStrictlyIncreasing waiters
        × ((t : ℕ) → Contains waiters t ↔ ((task : Task) × ((slice_get k.tasks t ≡ Option.Some task) × (task.state ≡ TaskState.Waits (Wait.Line l)) × (task.cpu ≡ c))))
        × (play_in_band c l k ≡ fold (λ x t. wake t 0 x) (on_pipe c (play Stage.InBand l) k) waiters)) }
{
    law_runs::goes_in_order(); // the clause wakes
}

/// A task that ends passes the mutexes that it owns on, one after another, in rising order of their numbers.
pub fn a_task_that_ends_passes_its_mutexes_by_number()
    ensures { (c t : ℕ) (state : TaskState) (k : Parts) → (owned : List ℕ) × (IsStrictlyIncreasing owned
        × ((m : ℕ) → Contains owned m ↔ ((mutex : Mutex) × ((slice_get k.mutexes m ≡ Option.Some mutex) × (mutex.owner ≡ Option.Some t))))
        × (end_task c t state k ≡ set_state t state (leave_in_band c (on_pipe c (set_stall Stage.InBand false) (fold (λ x m. hand_over m x) k owned))))) }
{
    law_runs::goes_in_order(); // the clause passes
}

/// A broadcast of an event that has a mutex ends the waits of all tasks that wait for the event, and of no others: one after
/// another each that is the first of those left, by rank, then by stamp, reacquires the mutex, with the answer 0. Nobody waits
/// for the event afterwards.
pub fn a_broadcast_leaves_no_waiter()
    ensures { (e m : ℕ) (k : Parts) → slice_get k.events e ≡ Option.Some (Option.Some m) → (waiters : List ℕ)
        × ((t : ℕ) → Contains waiters t ↔ ((task : Task) × ((slice_get k.tasks t ≡ Option.Some task) × (task.state ≡ TaskState.Waits (Wait.Event e)))))
        × FirstByFirst e k waiters (broadcast e k).0
        × ((t : ℕ) (task : Task) → slice_get (broadcast e k).0.tasks t ≡ Option.Some task → task.state ≢ TaskState.Waits (Wait.Event e)) }
{}
