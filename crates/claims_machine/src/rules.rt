//! Which task a processor runs, and what is pending in its logs: the rules that hold after every event.
ghost use Rattle.std.specs.Prelude.{◌≡◌, ◌≢◌, ◌%◌, ◌<◌, ◌≤◌, ◌++◌, ◌⊎◌, ℕ, List, [], ◌∷◌, true, false, Option, Result, slice_get, length};
ghost use Rattle.evm_exec.specs.Registers.{with_register};
ghost use Rattle.evm_exec.specs.declared.hart.Hart.{Hart};
ghost use Rattle.evm_exec.specs.declared.outcome.Effect.{Effect};
ghost use Rattle.evm_lines.specs.Lines.{has_line};
ghost use Rattle.evm_model.specs.Commands.{is_set};
ghost use Rattle.evm_model.specs.Instructions.{stop};
ghost use Rattle.evm_model.specs.Pipes.{Pipe};
ghost use Rattle.evm_model.specs.Ranks.{best};
ghost use Rattle.evm_model.specs.Replay.{apply};
ghost use Rattle.evm_model.specs.Settle.{current, is_oob, settle_and_nudge};
ghost use Rattle.evm_model.specs.State.{State, on_hart, on_processor};
ghost use Rattle.evm_model.specs.Watch.{watch};
ghost use Rattle.evm_model.specs.declared.limits.TheConstants.{SEMAPHORE_LIMIT};
ghost use Rattle.evm_model.specs.declared.boot.Boot.{Boot};
ghost use Rattle.evm_model.specs.declared.event.Answer.{Answer};
ghost use Rattle.evm_model.specs.declared.event.Event.TheVariants as Event;
ghost use Rattle.evm_model.specs.declared.processor.Processor.{Processor};
ghost use Rattle.evm_model.specs.declared.task.Task.{Task};
ghost use Rattle.evm_model.specs.declared.task.TaskState.{TaskState};
ghost use Rattle.claims_machine.specs.Reached.{Reached};
ghost use Rattle.claims_machine.specs.About.{IsAbout};

/// After every boot whose numbers are inside their limits, with an image loaded or none, and every list of events: a
/// processor that isn't stalled out-of-band and has no line 1 on its wire runs its best task, where one is ready
/// out-of-band there, and an in-band task only where none is. A current task that isn't out-of-band is the in-band
/// current one.
pub fn a_processor_runs_its_best_task()
    ensures best { (boot : Boot) (s : State) (c t : ℕ) (pipe : Pipe) (p : Processor) → Reached boot s →
        slice_get s.board.parts.pipes c ≡ Option.Some pipe → slice_get s.board.parts.processors c ≡ Option.Some p →
        pipe.oob.stalled ≡ false → has_line pipe.wire 1 ≡ false →
        best c s.board.parts.mutexes s.board.parts.tasks ≡ Option.Some t → p.current ≡ Option.Some t }
    ensures none_ready { (boot : Boot) (s : State) (c : ℕ) (pipe : Pipe) (p : Processor) → Reached boot s →
        slice_get s.board.parts.pipes c ≡ Option.Some pipe → slice_get s.board.parts.processors c ≡ Option.Some p →
        pipe.oob.stalled ≡ false → has_line pipe.wire 1 ≡ false →
        is_oob p.current s.board.parts.tasks ≡ false → best c s.board.parts.mutexes s.board.parts.tasks ≡ Option.None }
    ensures in_band { (boot : Boot) (s : State) (c : ℕ) (pipe : Pipe) (p : Processor) → Reached boot s →
        slice_get s.board.parts.pipes c ≡ Option.Some pipe → slice_get s.board.parts.processors c ≡ Option.Some p →
        is_oob p.current s.board.parts.tasks ≡ false → p.current ≡ p.in_band_task }
{
    law_rules::rules_hold();
}

/// Likewise: an out-of-band log isn't empty only while that stage is stalled, an in-band log only while that stage is
/// stalled or an out-of-band task is current.
pub fn nothing_waits_in_an_open_log()
    ensures oob { (boot : Boot) (s : State) (c : ℕ) (pipe : Pipe) (p : Processor) → Reached boot s →
        slice_get s.board.parts.pipes c ≡ Option.Some pipe → slice_get s.board.parts.processors c ≡ Option.Some p →
        pipe.oob.stalled ≡ false → pipe.oob.lines ≡ [] }
    ensures in_band { (boot : Boot) (s : State) (c : ℕ) (pipe : Pipe) (p : Processor) → Reached boot s →
        slice_get s.board.parts.pipes c ≡ Option.Some pipe → slice_get s.board.parts.processors c ≡ Option.Some p →
        pipe.in_band.stalled ≡ false → is_oob p.current s.board.parts.tasks ≡ false → pipe.in_band.lines ≡ [] }
{
    law_rules::rules_hold();
}

/// Likewise: out-of-band is stalled only where an out-of-band task is current, in-band only where there is an in-band
/// current task.
pub fn a_stage_is_stalled_by_its_task()
    ensures oob { (boot : Boot) (s : State) (c : ℕ) (pipe : Pipe) (p : Processor) → Reached boot s →
        slice_get s.board.parts.pipes c ≡ Option.Some pipe → slice_get s.board.parts.processors c ≡ Option.Some p →
        pipe.oob.stalled ≡ true → is_oob p.current s.board.parts.tasks ≡ true }
    ensures in_band { (boot : Boot) (s : State) (c : ℕ) (pipe : Pipe) (p : Processor) → Reached boot s →
        slice_get s.board.parts.pipes c ≡ Option.Some pipe → slice_get s.board.parts.processors c ≡ Option.Some p →
        pipe.in_band.stalled ≡ true → p.in_band_task ≢ Option.None }
{
    law_rules::rules_hold();
}

/// Likewise: where a processor has a current task and nothing on its wire, registers and pcs may change and it settles
/// nothing and tells nobody: nor where its skip bit, which `go` had set, goes off by this; nor where it hits a break and is
/// stopped.
pub fn a_private_row_settles_nothing()
    ensures registers { (boot : Boot) (s : State) (c t : ℕ) (pipe : Pipe) (p : Processor) (harts : List Hart) → Reached boot s →
        slice_get s.board.parts.pipes c ≡ Option.Some pipe → slice_get s.board.parts.processors c ≡ Option.Some p →
        pipe.wire ≡ [] → p.current ≡ Option.Some t →
        settle_and_nudge (Option.Some t) c (record s.board.parts { harts = harts }) ≡ record s.board.parts { harts = harts } }
    ensures passes { (boot : Boot) (s : State) (c t : ℕ) (pipe : Pipe) (p : Processor) (harts : List Hart) → Reached boot s →
        slice_get s.board.parts.pipes c ≡ Option.Some pipe → slice_get s.board.parts.processors c ≡ Option.Some p →
        pipe.wire ≡ [] → p.current ≡ Option.Some t →
        settle_and_nudge (Option.Some t) c (record (on_processor c (λ p. record p { skip = false }) s.board.parts) { harts = harts }) ≡ record (on_processor c (λ p. record p { skip = false }) s.board.parts) { harts = harts } }
    ensures stops { (boot : Boot) (s : State) (c t : ℕ) (pipe : Pipe) (p : Processor) (harts : List Hart) → Reached boot s →
        slice_get s.board.parts.pipes c ≡ Option.Some pipe → slice_get s.board.parts.processors c ≡ Option.Some p →
        pipe.wire ≡ [] → p.current ≡ Option.Some t →
        settle_and_nudge (Option.Some t) c (stop c (record (on_processor c (λ p. record p { skip = false }) s.board.parts) { harts = harts })) ≡ stop c (record (on_processor c (λ p. record p { skip = false }) s.board.parts) { harts = harts }) }
{
    law_rules::rules_hold();
    law_rules::rows_settle_nothing();
}

/// Likewise: what the watchdog has counted on a processor is 0 without a watchdog, 0 where no out-of-band task is current
/// there, and less than its ticks.
pub fn a_watchdog_counts_below_its_limit()
    ensures off { (boot : Boot) (s : State) (c : ℕ) → Reached boot s → s.boot.watchdog ≡ 0 → watch c s.board.parts ≡ 0 }
    ensures away { (boot : Boot) (s : State) (c : ℕ) → Reached boot s →
        is_oob (current c s.board.parts) s.board.parts.tasks ≡ false → watch c s.board.parts ≡ 0 }
    ensures below { (boot : Boot) (s : State) (c : ℕ) → Reached boot s → s.boot.watchdog ≢ 0 → watch c s.board.parts < s.boot.watchdog }
{
    law_rules::rules_hold();
}

/// Likewise: no two tasks have one stamp, and each stamp is less than the next that will be given; so of any set of tasks
/// one goes first.
pub fn no_two_tasks_have_one_stamp()
    ensures differ { (boot : Boot) (s : State) (t u : ℕ) (task other : Task) → Reached boot s →
        slice_get s.board.parts.tasks t ≡ Option.Some task → slice_get s.board.parts.tasks u ≡ Option.Some other →
        task.stamp ≡ other.stamp → t ≡ u }
    ensures below { (boot : Boot) (s : State) (t : ℕ) (task : Task) → Reached boot s →
        slice_get s.board.parts.tasks t ≡ Option.Some task → task.stamp < s.board.parts.stamps }
{
    law_rules::rules_hold();
}

/// Likewise: the current task of a processor is there, is of that processor and is ready, on whatever stage; the in-band
/// current one is there, of that processor and ready in-band; each task is of a processor that is there.
pub fn a_current_task_is_ready_at_home()
    ensures current { (boot : Boot) (s : State) (c t : ℕ) (p : Processor) → Reached boot s →
        slice_get s.board.parts.processors c ≡ Option.Some p → p.current ≡ Option.Some t →
        (task : Task) × ((slice_get s.board.parts.tasks t ≡ Option.Some task) × (task.cpu ≡ c)
        × ((task.state ≡ TaskState.InReady) ⊎ (task.state ≡ TaskState.OobReady))) }
    ensures in_band { (boot : Boot) (s : State) (c t : ℕ) (p : Processor) → Reached boot s →
        slice_get s.board.parts.processors c ≡ Option.Some p → p.in_band_task ≡ Option.Some t →
        (task : Task) × ((slice_get s.board.parts.tasks t ≡ Option.Some task) × (task.cpu ≡ c)
        × (task.state ≡ TaskState.InReady)) }
    ensures homes { (boot : Boot) (s : State) (t : ℕ) (task : Task) → Reached boot s →
        slice_get s.board.parts.tasks t ≡ Option.Some task → task.cpu < length s.board.parts.processors }
{
    law_rules::rules_hold();
}

/// Likewise: each pc is a multiple of 4.
pub fn each_pc_is_a_multiple_of_4()
    ensures { (boot : Boot) (s : State) (t : ℕ) (hart : Hart) → Reached boot s →
        slice_get s.board.parts.harts t ≡ Option.Some hart → hart.pc % 4 ≡ 0 }
{
    law_rules::rules_hold();
}

/// Likewise: there are 32 semaphores at the most, and none counts above 2147483647.
pub fn each_semaphore_is_within_its_bound()
    ensures few { (boot : Boot) (s : State) → Reached boot s → length s.board.parts.semaphores ≤ SEMAPHORE_LIMIT }
    ensures bounded { (boot : Boot) (s : State) (semaphore count : ℕ) → Reached boot s →
        slice_get s.board.parts.semaphores semaphore ≡ Option.Some count → count ≤ 2147483647 }
{
    law_rules::rules_hold();
}

/// Likewise, where the journal has room: a Step of a processor that goes and has nothing on its wire, whose current task is
/// about to give a register a value and go on at a pc, is accepted, answers Ran, gives the register the value and the task
/// the pc, and turns the skip bit off; nothing else of the machine changes but the journal. No breakpoint stands at the
/// task's pc, or the skip bit passes it.
pub fn a_private_row_changes_one_hart()
    ensures { (boot : Boot) (s : State) (c t rd value pc : ℕ) (hart : Hart) (pipe : Pipe) (p : Processor) → Reached boot s →
        length s.journal < s.boot.capacity →
        slice_get s.board.parts.processors c ≡ Option.Some p → p.stopped ≡ false →
        slice_get s.board.parts.pipes c ≡ Option.Some pipe → pipe.wire ≡ [] →
        (is_set s.board.breakpoints hart.pc ≡ false) ⊎ (p.skip ≡ true) →
        IsAbout p.current t hart (Effect.Next rd value pc) s.board.parts.harts s.board.memory →
        apply s (Event.Step c) ≡ Result.Ok (
          record s {
            journal = s.journal ++ Event.Step c ∷ [];
            board = record s.board { parts = on_hart t (λ hart. record hart { regs = with_register hart.regs rd value; pc = pc }) (on_processor c (λ p. record p { skip = false }) s.board.parts) };
          },
          Answer.Ran t,
        ) }
{
    law_rules::rules_hold();
    law_rules::private_rows_change_one_hart();
}

/// Likewise: a Step that receives a line receives one of its processor's wire, and the least.
pub fn a_step_receives_the_least_line()
    ensures { (boot : Boot) (s new : State) (c l : ℕ) (pipe : Pipe) → Reached boot s → apply s (Event.Step c) ≡ Result.Ok (new, Answer.Received l) →
        slice_get s.board.parts.pipes c ≡ Option.Some pipe →
        (has_line pipe.wire l ≡ true) × ((m : ℕ) → has_line pipe.wire m ≡ true → l ≤ m) }
{
    law_rules::rules_hold();
    law_runs::steps_receive_least();
}
