//! Notices: who gets them, what makes none, and how many there are.
ghost use Rattle.std.specs.Prelude.{◌≡◌, ◌≢◌, ◌<◌, ◌≤◌, ◌⊎◌, ℕ, Option, Result, slice_get, length};
ghost use Rattle.std.specs.Int.{bit_at};
ghost use Rattle.evm_exec.specs.Registers.{register_of};
ghost use Rattle.evm_exec.specs.declared.hart.Hart.{Hart};
ghost use Rattle.evm_exec.specs.declared.outcome.Effect.{Effect};
ghost use Rattle.evm_model.specs.Event.{Event as OfEvent};
ghost use Rattle.evm_model.specs.Replay.{apply};
ghost use Rattle.evm_model.specs.Settle.{current};
ghost use Rattle.evm_model.specs.State.{State};
ghost use Rattle.evm_model.specs.declared.boot.Boot.{Boot};
ghost use Rattle.evm_model.specs.declared.event.Answer.{Answer};
ghost use Rattle.evm_model.specs.declared.event.Event.TheVariants as Event;
ghost use Rattle.evm_model.specs.declared.limits.TheConstants.{NOTICE_LIMIT};
ghost use Rattle.evm_model.specs.declared.notice.NoticeKind.{NoticeKind};
ghost use Rattle.evm_model.specs.declared.task.Task.{Task};
ghost use Rattle.evm_model.specs.declared.task.TaskState.{TaskState};
ghost use Rattle.claims_machine.specs.About.{IsAbout};
ghost use Rattle.claims_machine.specs.Noticed.{AddsAlarm, HasNotice, NoticeBy, OneNotice};
ghost use Rattle.claims_machine.specs.Reached.{Reached};

/// After every boot whose numbers are inside their limits, with devices and an image loaded or none, and every list of events:
/// an accepted Step leaves the notices, or makes one for the task that was current. Either it was out-of-band and asks for
/// such by its mode: 1 and 2 where a call or a fault takes it in-band, 3 where its lock or trylock answers -35, 4 where its
/// unlock answers -1 (`NoticeBy`). Or there is a watchdog, which makes 5 whatever the mode says. An ECALL of another number
/// than 0 to 14 and 36 to 38 makes none but the watchdog's: neither 33, which goes in-band, nor one after whose answer a weak
/// task returns in-band.
pub fn a_step_makes_one_notice_at_most()
    ensures one { (boot : Boot) (old new : State) (answer : Answer) (c : ℕ) → Reached boot old → apply old (Event.Step c) ≡ Result.Ok (new, answer) →
        OneNotice (current c old.board.parts) c old.board.memory old.board.parts new.board.parts.notices }
    ensures none { (boot : Boot) (old new : State) (answer : Answer) (c task : ℕ) (hart : Hart) → Reached boot old → apply old (Event.Step c) ≡ Result.Ok (new, answer) →
        IsAbout (current c old.board.parts) task hart Effect.Call old.board.parts.harts old.board.memory →
        14 < register_of hart.regs 17 → register_of hart.regs 17 ≢ 36 → register_of hart.regs 17 ≢ 37 → register_of hart.regs 17 ≢ 38 →
        (new.board.parts.notices ≡ old.board.parts.notices) ⊎ AddsAlarm (current c old.board.parts) old.board.parts new.board.parts.notices }
{
    law_rules::rules_hold();
    law_runs::events_change_only(); // of a Step
}

/// Likewise: where a Step runs the task that was current, and that task is out-of-band, asks for such by its mode, and gives a
/// reason (a call or a fault takes it in-band, its lock or trylock answers -35, its unlock answers -1), the task has its
/// notice: the last one, of that kind, at that tick.
pub fn a_task_that_asks_has_its_notice()
    ensures { (boot : Boot) (old new : State) (c t bit : ℕ) (kind : NoticeKind) (task : Task) → Reached boot old → apply old (Event.Step c) ≡ Result.Ok (new, Answer.Ran t) →
        slice_get old.board.parts.tasks t ≡ Option.Some task → task.state ≡ TaskState.OobReady → bit_at task.mode.bits bit ≡ 1 →
        NoticeBy (current c old.board.parts) c t old.board.memory old.board.parts kind bit →
        HasNotice (record { tick = old.board.parts.ticks; task = t; kind = kind }) old.board.parts.notices new.board.parts.notices }
{
    law_rules::rules_hold();
    law_runs::events_change_only(); // of a Step
}

/// Every accepted event but a Step and a single step leaves the notices.
pub fn no_other_event_makes_a_notice()
    ensures { (old new : State) (event : OfEvent) (answer : Answer) → apply old event ≡ Result.Ok (new, answer) →
        ((c : ℕ) → (event ≢ Event.Step c) × (event ≢ Event.StepI c)) →
        new.board.parts.notices ≡ old.board.parts.notices }
{
    law_runs::events_change_only();
}

/// After every boot whose numbers are inside their limits, with devices and an image loaded or none, and every list of events:
/// at most 64 notices are kept, and at most as many were made as the journal has events.
pub fn notices_are_few()
    ensures { (boot : Boot) (s : State) → Reached boot s →
        (length s.board.parts.notices.kept ≤ NOTICE_LIMIT) × (s.board.parts.notices.total ≤ length s.journal) }
{
    law_rules::rules_hold(); // the field notices
}
