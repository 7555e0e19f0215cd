//! What a Step and a single step change, and what they leave.
ghost use Rattle.std.specs.Prelude.{◌≡◌, ℕ, true, false, Option, Result, slice_get};
ghost use Rattle.evm_model.specs.Replay.{apply};
ghost use Rattle.evm_model.specs.Settle.{current};
ghost use Rattle.evm_model.specs.State.{State};
ghost use Rattle.evm_model.specs.declared.boot.Boot.{Boot};
ghost use Rattle.evm_model.specs.declared.event.Answer.{Answer};
ghost use Rattle.evm_model.specs.declared.event.Event.TheVariants as Event;
ghost use Rattle.evm_model.specs.declared.processor.Processor.{Processor};
ghost use Rattle.claims_machine.specs.Reached.{Reached};
ghost use Rattle.claims_machine.specs.Steps.{StepChangesOnly};

/// After every boot whose numbers are inside their limits, with an image loaded or none, and every list of events: an accepted
/// Step of a processor leaves the clock, the breakpoints and the other processors as they are; on other pipes at most line 1
/// is raised; RAM changes only where the instruction at the current task's pc is a store; the console has one byte more at
/// the most. Each task but the current one, which may have given it another class by call 34, stands, or wakes: by a line
/// that was played, its deadline, a timer, a line's action, a mutex of the current task, or since the current task calls for
/// it (`WaitEndsBy`); or it waited for an event, and waits for the event's mutex. One task is added at the most. Only mutexes
/// change that were free or the current task's, and one is added at the most. What the watchdog counts changes for this
/// processor alone. Where a line is on the wire no task acts: the current one too stands, wakes or waits again by a line,
/// spends its slice, or goes in-band by the watchdog; and no mutex changes but such as were free and are locked once by a
/// task that waited for an event. Each semaphore, flag group, event, timer and action of a line stands
/// but where a call of the current task names it, a line's action does, or the timer was due; one of each is added at the
/// most. Each field of `StepChangesOnly` is one of these.
pub fn a_step_changes_only()
    ensures { (boot : Boot) (old new : State) (answer : Answer) (c : ℕ) → Reached boot old → apply old (Event.Step c) ≡ Result.Ok (new, answer) →
        StepChangesOnly (current c old.board.parts) c old.board new.board }
{
    law_rules::rules_hold();
    law_runs::events_change_only(); // of a Step
}

/// Likewise: an accepted single step changes what a Step may change, and nothing else; its processor is stopped afterwards.
pub fn a_single_step_changes_only()
    ensures changes { (boot : Boot) (old new : State) (answer : Answer) (c : ℕ) → Reached boot old → apply old (Event.StepI c) ≡ Result.Ok (new, answer) →
        StepChangesOnly (current c old.board.parts) c old.board new.board }
    ensures stops { (boot : Boot) (old new : State) (answer : Answer) (c : ℕ) (p : Processor) → Reached boot old → apply old (Event.StepI c) ≡ Result.Ok (new, answer) →
        slice_get new.board.parts.processors c ≡ Option.Some p → (p.stopped ≡ true) × (p.skip ≡ false) }
{
    law_rules::rules_hold();
    law_runs::events_change_only(); // of a single step
}
