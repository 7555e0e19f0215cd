ghost use Rattle.std.specs.Prelude.{◌≡◌, ◌≤◌, Some, false};
ghost use Rattle.evm_model.specs.Bounds.{COUNT_LIMIT, PER_CALL, STAMPS_PER_EVENT, HasRoom, HasStamps};
ghost use Rattle.evm_model.specs.Calls.{call};
ghost use Rattle.evm_model.specs.Instructions.{fault, stop, finish};
ghost use Rattle.evm_model.specs.Settle.{settle_and_nudge};
ghost use Rattle.evm_model.specs.State.{on_parts};
ghost use Rattle.evm_board.specs.Steps.{IsRunning};
ghost use Rattle.evm_board.specs.Stops.{follow};
ghost use Rattle.law_rules.specs.Few.{AreFew};

use crate::board::Board;
use crate::quiet::stop_quietly;
use evm_calls::call::call;
use evm_dev::Device;
use evm_model::{Answer, Fault, NoticeKind, TaskState};
use evm_quiet::Stop;
use evm_settle::{Parts, settle_and_nudge};

// A fault sends an out-of-band task in-band, with a notice, and ends another.
fn fault(parts: &mut Parts, c: u8, t: u8, reason: Fault)
    requires stamps { HasStamps PER_CALL parts.old }
    requires notices { parts.old.notices.total ≤ COUNT_LIMIT }
    ensures { parts.new ≡ fault c t reason parts.old }
{
    if parts.tasks.is_oob(Some(t)) {
        parts.demote(c, t);
        parts.notify(NoticeKind::DemotedByFault, t);
    } else {
        parts.end_task(c, t, TaskState::Faulted(reason));
    }
}

/// A task's instruction faults, and its processor settles.
#[tactic(auto, using(crate::proofs::Rooms::fault_stamps))]
pub(crate) fn fault_and_settle(parts: &mut Parts, c: u8, t: u8, reason: Fault)
    requires room { HasRoom STAMPS_PER_EVENT parts.old }
    requires few { AreFew parts.old }
    ensures { parts.new ≡ settle_and_nudge (Some t) c (fault c t reason parts.old) }
{
    fault(parts, c, t, reason);
    settle_and_nudge(parts, Some(t), c);
}

// A task calls a kernel, and its processor settles.
#[inline(never)]
#[tactic(auto, using(crate::proofs::Rooms::calls))]
fn call_and_settle(parts: &mut Parts, c: u8, t: u8)
    requires room { HasRoom STAMPS_PER_EVENT parts.old }
    requires few { AreFew parts.old }
    ensures { parts.new ≡ settle_and_nudge (Some t) c (call c t parts.old) }
{
    call(parts, c, t);
    settle_and_nudge(parts, Some(t), c);
}

/// Stops a processor.
#[tactic(auto, unfolding(evm_model::specs::Instructions::stop))]
pub(crate) fn stop(parts: &mut Parts, c: u8)
    ensures { parts.new ≡ stop c parts.old }
{
    parts.stop(c);
}

impl<D: Device> Board<D> {
    /// Goes on where a processor's run stopped, and answers as that Step does. What follows each reason is decided here alone.
    #[inline(never)]
    #[tactic(auto, unfolding(evm_model::specs::Instructions::finish))]
    fn follow_any(&mut self, c: u8, t: u8, why: &Stop) -> Answer
        requires { IsRunning false c t self.old }
        ensures { (self.new, result) ≡ follow why.now c t self.old }
    {
        match *why {
            Stop::Breakpoint => {
                stop(&mut self.parts, c);
                return Answer::Hit;
            }
            Stop::Call => call_and_settle(&mut self.parts, c, t),
            Stop::Break => stop_quietly(&mut self.parts, c, t),
            Stop::Fault(reason) => fault_and_settle(&mut self.parts, c, t, reason),
            Stop::Load { op, rd, address } => self.finish_load(c, t, op, rd, address),
            Stop::Store {
                width,
                address,
                value,
            } => self.finish_store(c, t, width, address, value),
        }
        Answer::Ran(t)
    }

    /// As `follow_any`. A call, the most frequent reason, is looked for first.
    #[inline(always)]
    #[tactic(auto, unfolding(evm_model::specs::Instructions::finish))]
    pub(crate) fn follow(&mut self, c: u8, t: u8, why: &Stop) -> Answer
        requires { IsRunning false c t self.old }
        ensures { (self.new, result) ≡ follow why.now c t self.old }
    {
        if let Stop::Call = *why {
            call_and_settle(&mut self.parts, c, t);
            return Answer::Ran(t);
        }
        self.follow_any(c, t, why)
    }
}
