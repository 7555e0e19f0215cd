//! How a task waits and wakes: on which stage, with which stamp, and with which deadline.
ghost use Rattle.std.specs.Prelude.{◌≡◌, ◌≢◌, ◌+◌, ◌-◌, ◌<◌, ◌≤◌, ◌⊎◌, ℕ, false, Option, Result, slice_get};
ghost use Rattle.evm_model.specs.InBandCalls.{yield_now};
ghost use Rattle.evm_model.specs.OobCalls.{yield_oob};
ghost use Rattle.evm_model.specs.Pipes.{Pipe};
ghost use Rattle.evm_model.specs.Replay.{apply};
ghost use Rattle.evm_model.specs.Settle.{spend};
ghost use Rattle.evm_model.specs.State.{Parts, State};
ghost use Rattle.evm_model.specs.Waits.{wake};
ghost use Rattle.evm_model.specs.declared.boot.Boot.{Boot};
ghost use Rattle.evm_model.specs.declared.event.Answer.{Answer};
ghost use Rattle.evm_model.specs.declared.event.Event.TheVariants as Event;
ghost use Rattle.evm_model.specs.declared.mutex.Mutex.{Mutex};
ghost use Rattle.evm_model.specs.declared.task.Class.{Class};
ghost use Rattle.evm_model.specs.declared.task.Task.{Task};
ghost use Rattle.evm_model.specs.declared.task.TaskState.{TaskState};
ghost use Rattle.evm_model.specs.declared.task.Wait.{Wait};
ghost use Rattle.claims_machine.specs.Reached.{Reached};

/// A task of the weak class that owns no mutex wakes in-band, whatever it waited for. One of another class, or one that owns a
/// mutex, wakes on the stage on which it waited: in-band from a line, and else out-of-band. It has a fresh stamp and no
/// deadline.
pub fn a_weak_task_wakes_in_band()
    ensures weak { (t value : ℕ) (k : Parts) (task : Task) (wait : Wait) → slice_get k.tasks t ≡ Option.Some task →
        task.state ≡ TaskState.Waits wait → task.class ≡ Class.Weak →
        ((m : ℕ) (mutex : Mutex) → slice_get k.mutexes m ≡ Option.Some mutex → mutex.owner ≢ Option.Some t) →
        slice_get (wake t value k).tasks t ≡ Option.Some (record task { state = TaskState.InReady; deadline = 0; stamp = k.stamps }) }
    ensures others { (t value : ℕ) (k : Parts) (task : Task) (wait : Wait) → slice_get k.tasks t ≡ Option.Some task →
        task.state ≡ TaskState.Waits wait → ((l : ℕ) → wait ≢ Wait.Line l) →
        (task.class ≢ Class.Weak) ⊎ ((m : ℕ) × ((mutex : Mutex) × ((slice_get k.mutexes m ≡ Option.Some mutex) × (mutex.owner ≡ Option.Some t)))) →
        slice_get (wake t value k).tasks t ≡ Option.Some (record task { state = TaskState.OobReady; deadline = 0; stamp = k.stamps }) }
    ensures line { (t value l : ℕ) (k : Parts) (task : Task) → slice_get k.tasks t ≡ Option.Some task →
        task.state ≡ TaskState.Waits (Wait.Line l) →
        slice_get (wake t value k).tasks t ≡ Option.Some (record task { state = TaskState.InReady; deadline = 0; stamp = k.stamps }) }
{}

/// After every boot whose numbers are inside their limits, with devices and an image loaded or none, and every list of events:
/// a task that waits for a line or a timer has no deadline.
pub fn a_wait_for_a_line_or_a_timer_has_no_deadline()
    ensures line { (boot : Boot) (s : State) (t l : ℕ) (task : Task) → Reached boot s → slice_get s.board.parts.tasks t ≡ Option.Some task →
        task.state ≡ TaskState.Waits (Wait.Line l) → task.deadline ≡ 0 }
    ensures timer { (boot : Boot) (s : State) (t n : ℕ) (task : Task) → Reached boot s → slice_get s.board.parts.tasks t ≡ Option.Some task →
        task.state ≡ TaskState.Waits (Wait.Timer n) → task.deadline ≡ 0 }
{
    law_rules::rules_hold();
}

/// Likewise: a task that waits after an accepted Step, and before it did not or for something else, has a stamp that is not
/// below the next one of before, which is above all that were given. So it is the last of its rank.
pub fn a_wait_begins_with_a_fresh_stamp()
    ensures { (boot : Boot) (old new : State) (answer : Answer) (c t : ℕ) (task after : Task) (wait : Wait) → Reached boot old →
        apply old (Event.Step c) ≡ Result.Ok (new, answer) → slice_get old.board.parts.tasks t ≡ Option.Some task →
        slice_get new.board.parts.tasks t ≡ Option.Some after → after.state ≡ TaskState.Waits wait → task.state ≢ TaskState.Waits wait →
        old.board.parts.stamps ≤ after.stamp }
{
    law_rules::rules_hold();
}

/// A yield gives its task the next stamp and changes nothing else of it: of either kernel, and in-band where that stage isn't
/// stalled. So does the last tick of a slice, which gives a whole slice of 4 too; another tick takes one of the slice.
pub fn a_yield_and_a_spent_slice_give_a_fresh_stamp()
    ensures yields { (c t : ℕ) (k : Parts) (task : Task) (pipe : Pipe) → slice_get k.tasks t ≡ Option.Some task →
        slice_get k.pipes c ≡ Option.Some pipe → pipe.in_band.stalled ≡ false →
        (slice_get (yield_now c t k).0.tasks t ≡ Option.Some (record task { stamp = k.stamps })) × ((yield_now c t k).0.stamps ≡ k.stamps + 1) }
    ensures yields_oob { (t : ℕ) (k : Parts) (task : Task) → slice_get k.tasks t ≡ Option.Some task →
        (slice_get (yield_oob t k).0.tasks t ≡ Option.Some (record task { stamp = k.stamps })) × ((yield_oob t k).0.stamps ≡ k.stamps + 1) }
    ensures spends_last { (t : ℕ) (k : Parts) (task : Task) → slice_get k.tasks t ≡ Option.Some task → task.state ≡ TaskState.OobReady →
        task.class ≡ Class.RoundRobin → task.slice ≤ 1 →
        (slice_get (spend (Option.Some t) k).tasks t ≡ Option.Some (record task { slice = 4; stamp = k.stamps })) × ((spend (Option.Some t) k).stamps ≡ k.stamps + 1) }
    ensures spends_one { (t : ℕ) (k : Parts) (task : Task) → slice_get k.tasks t ≡ Option.Some task → task.state ≡ TaskState.OobReady →
        task.class ≡ Class.RoundRobin → 1 < task.slice →
        slice_get (spend (Option.Some t) k).tasks t ≡ Option.Some (record task { slice = task.slice - 1 }) }
{}
