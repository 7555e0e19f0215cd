//! Nothing overflows and nothing grows: sizes stay, and counts are far below what their types hold.
ghost use Rattle.std.specs.Prelude.{◌≡◌, ◌<◌, ◌≤◌, ◌^◌, ℕ, List, [], Option, false, slice_get, length, count_by};
ghost use Rattle.evm_exec.specs.declared.hart.Hart.{Hart};
ghost use Rattle.evm_exec.specs.declared.hart.TheConstants.{REGISTERS};
ghost use Rattle.evm_lines.specs.declared.TheConstants.{LINES};
ghost use Rattle.evm_model.specs.Good.{is_tick};
ghost use Rattle.evm_model.specs.Pipes.{Pipe};
ghost use Rattle.evm_model.specs.Replay.{bad_boot, start, replay};
ghost use Rattle.evm_model.specs.State.{State, Board};
ghost use Rattle.evm_model.specs.declared.boot.Boot.{Boot};
ghost use Rattle.evm_model.specs.declared.counts.Counts.{Counts};
ghost use Rattle.evm_model.specs.Event.{Event};
ghost use Rattle.evm_model.specs.declared.limits.TheConstants.{DEVICE_LIMIT, TASK_LIMIT};
ghost use Rattle.evm_model.specs.declared.mutex.Mutex.{Mutex};
ghost use Rattle.claims_machine.specs.Reached.{AreSmall, Ran, Reached};

/// Whatever happens to a machine, it has as many processors, pipes and bytes of RAM afterwards, at least as many tasks and
/// harts, and the boot numbers that it had; where there were 64 tasks at the most there are, and where each had a
/// hart each has one; where each task had 32 registers and an x0 of zero, each has so still.
pub fn sizes_never_change()
    ensures boot { (s : State) (events : List Event) → (replay s events).boot ≡ s.boot }
    ensures processors { (s : State) (events : List Event) →
        length (replay s events).board.parts.processors ≡ length s.board.parts.processors }
    ensures pipes { (s : State) (events : List Event) →
        length (replay s events).board.parts.pipes ≡ length s.board.parts.pipes }
    ensures ram { (s : State) (events : List Event) →
        length (replay s events).board.memory.ram ≡ length s.board.memory.ram }
    ensures tasks { (s : State) (events : List Event) →
        length s.board.parts.tasks ≤ length (replay s events).board.parts.tasks }
    ensures harts { (s : State) (events : List Event) →
        length s.board.parts.harts ≤ length (replay s events).board.parts.harts }
    ensures few_tasks { (s : State) (events : List Event) →
        length s.board.parts.tasks ≤ TASK_LIMIT → length (replay s events).board.parts.tasks ≤ TASK_LIMIT }
    ensures a_hart_each { (s : State) (events : List Event) →
        length s.board.parts.harts ≡ length s.board.parts.tasks →
        length (replay s events).board.parts.harts ≡ length (replay s events).board.parts.tasks }
    ensures registers { (s : State) (events : List Event) →
        ((t : ℕ) (hart : Hart) → slice_get s.board.parts.harts t ≡ Option.Some hart →
        (length hart.regs ≡ REGISTERS) × (slice_get hart.regs 0 ≡ Option.Some 0)) →
        (t : ℕ) (hart : Hart) → slice_get (replay s events).board.parts.harts t ≡ Option.Some hart →
        (length hart.regs ≡ REGISTERS) × (slice_get hart.regs 0 ≡ Option.Some 0) }
{
    law_runs::sizes_stay();
}

/// After every boot, with an image loaded or none, and every list of events there are as many processors, pipes and
/// bytes of RAM as the boot numbers say, and 1 to 64 tasks with a hart each, whose 32 registers begin with an x0 of zero.
pub fn a_machine_is_as_it_was_booted()
    ensures boot { (boot : Boot) (s : State) → Ran boot s → s.boot ≡ boot }
    ensures processors { (boot : Boot) (s : State) → Ran boot s → length s.board.parts.processors ≡ boot.cpus }
    ensures pipes { (boot : Boot) (s : State) → Ran boot s → length s.board.parts.pipes ≡ boot.cpus }
    ensures ram { (boot : Boot) (s : State) → Ran boot s → length s.board.memory.ram ≡ boot.ram }
    ensures tasks { (boot : Boot) (s : State) → Ran boot s →
        (1 ≤ length s.board.parts.tasks) × (length s.board.parts.tasks ≤ TASK_LIMIT) }
    ensures harts { (boot : Boot) (s : State) → Ran boot s → length s.board.parts.harts ≡ length s.board.parts.tasks }
    ensures registers { (boot : Boot) (s : State) (t : ℕ) (hart : Hart) → Ran boot s →
        slice_get s.board.parts.harts t ≡ Option.Some hart → length hart.regs ≡ REGISTERS }
    ensures x0 { (boot : Boot) (s : State) (t : ℕ) (hart : Hart) → Ran boot s →
        slice_get s.board.parts.harts t ≡ Option.Some hart → slice_get hart.regs 0 ≡ Option.Some 0 }
{
    law_runs::stays_as_booted();
}

/// After every boot whose numbers are inside their limits, with an image loaded or none, and every list of events
/// the journal is within its capacity, and the ticks, every count of each of the 64 lines and how often each mutex is
/// locked are below 2^29, so none has wrapped. The next stamp, which is above all that were given, is below 2^35.
pub fn counts_never_wrap()
    ensures journal { (boot : Boot) (s : State) → bad_boot boot ≡ false → Ran boot s → length s.journal ≤ boot.capacity }
    ensures ticks { (boot : Boot) (s : State) → bad_boot boot ≡ false → Ran boot s → s.board.parts.ticks < 2 ^ 29 }
    ensures counts { (boot : Boot) (s : State) → bad_boot boot ≡ false → Ran boot s → (c l : ℕ) (pipe : Pipe) (n : Counts) →
        slice_get s.board.parts.pipes c ≡ Option.Some pipe → slice_get pipe.counts l ≡ Option.Some n → AreSmall n }
    ensures lines { (boot : Boot) (s : State) → bad_boot boot ≡ false → Ran boot s → (c : ℕ) (pipe : Pipe) →
        slice_get s.board.parts.pipes c ≡ Option.Some pipe → length pipe.counts ≡ LINES }
    // whatever is in RAM, in the tasks and in at most 8 devices at first, where nothing was counted yet
    ensures counts_fresh { (boot : Boot) (board : Board) (events : List Event) → bad_boot boot ≡ false →
        board.parts.pipes ≡ (start [] boot).board.parts.pipes → board.parts.ticks ≡ 0 → length board.memory.devices ≤ DEVICE_LIMIT →
        (c l : ℕ) (pipe : Pipe) (n : Counts) →
        slice_get (replay (record (start [] boot) { board = board }) events).board.parts.pipes c ≡ Option.Some pipe →
        slice_get pipe.counts l ≡ Option.Some n → AreSmall n }
    ensures holds { (boot : Boot) (s : State) → bad_boot boot ≡ false → Ran boot s → (m : ℕ) (mutex : Mutex) →
        slice_get s.board.parts.mutexes m ≡ Option.Some mutex → mutex.count < 2 ^ 29 }
    // .. and with words that each device may have, and an entry at a multiple of 4
    ensures stamps { (boot : Boot) (s : State) → Reached boot s → s.board.parts.stamps < 2 ^ 35 }
{
    law_runs::counts_fit();
    law_runs::stays_as_booted();
    law_rules::rules_hold(); // the field stamps
}

/// After every boot whose numbers are inside their limits, with an image loaded or none, and every list of events the
/// clock has ticked as often as the journal has a Tick, which is less than 2^29 times; likewise whatever is in RAM, in
/// the tasks and in at most 8 devices at first, where nothing was counted yet.
pub fn the_clock_is_its_ticks()
    ensures ran { (boot : Boot) (s : State) → bad_boot boot ≡ false → Ran boot s →
        s.board.parts.ticks ≡ count_by is_tick s.journal }
    ensures fresh { (boot : Boot) (board : Board) (events : List Event) → bad_boot boot ≡ false →
        board.parts.pipes ≡ (start [] boot).board.parts.pipes → board.parts.ticks ≡ 0 → length board.memory.devices ≤ DEVICE_LIMIT →
        (replay (record (start [] boot) { board = board }) events).board.parts.ticks
        ≡ count_by is_tick (replay (record (start [] boot) { board = board }) events).journal }
    ensures few { (boot : Boot) (s : State) → bad_boot boot ≡ false → Ran boot s → s.board.parts.ticks < 2 ^ 29 }
{
    law_runs::counts_fit(); // the fields ticks and few_ticks
}
