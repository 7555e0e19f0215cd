//! The watchdog.

ghost use Rattle.std.specs.Prelude.{◌≡◌, ◌≤◌, ◌+◌, ◌*◌};
ghost use Rattle.evm_model.specs.Bounds.{COUNT_LIMIT, HasStamps};
ghost use Rattle.evm_model.specs.Current.{differs};
ghost use Rattle.evm_model.specs.Ranks.{may_run_oob};
ghost use Rattle.evm_model.specs.State.{on_watch};
ghost use Rattle.evm_model.specs.Watch.{overrun, rest_watch, watch_was};

use crate::parts::Parts;
use evm_model::{NoticeKind, TaskState};

/// Whether a processor that should run the first task runs another, or none.
pub fn is_other(best: Option<u8>, current: Option<u8>) -> bool
    ensures { result ≡ differs best current }
{
    match (best, current) {
        (None, _) => false,
        (Some(_), None) => true,
        (Some(a), Some(b)) => a != b,
    }
}

impl Parts {
    // Whether a task is ready out-of-band on a processor.
    fn may_run_oob(&self, c: u8, t: u8) -> bool
        ensures { result ≡ may_run_oob c self.now.tasks t }
    {
        match self.tasks.get(t) {
            None => false,
            Some(task) => task.state == TaskState::OobReady && task.cpu == c,
        }
    }

    /// Nothing is counted on a processor any more.
    pub fn rest(&mut self, c: u8)
        ensures { self.new ≡ on_watch c (λ _. 0) self.old }
    {
        self.watches.rest(c);
    }

    // A task goes in-band, with a notice, and nothing is counted on its processor. Apart, as this is rare.
    #[inline(never)]
    #[tactic(auto, unfolding(evm_model::specs::Watch::overrun, evm_model::specs::Tasks::restamp, evm_model::specs::Tasks::set_state))]
    fn overrun(&mut self, c: u8, t: u8)
        requires room { HasStamps 1 self.old }
        requires notices { self.old.notices.total ≤ COUNT_LIMIT }
        ensures row { self.new ≡ overrun c t self.old }
        ensures stamps { self.new.stamps ≤ self.old.stamps + 1 }
        ensures notices { self.new.notices.total ≤ self.old.notices.total + 1 }
    {
        self.rest(c);
        self.requeue(t, TaskState::InReady);
        self.notify(NoticeKind::Overran, t);
    }

    /// A tick for the task that was current on a processor, if it is ready out-of-band there and there is a watchdog: at the last
    /// one it goes in-band.
    #[tactic(auto, unfolding(evm_model::specs::Watch::watch_was))]
    pub fn watch_was(&mut self, task: Option<u8>, c: u8)
        requires room { HasStamps 1 self.old }
        requires notices { self.old.notices.total ≤ COUNT_LIMIT }
        ensures row { self.new ≡ watch_was task c self.old }
        ensures stamps { self.new.stamps ≤ self.old.stamps + 1 }
        ensures notices { self.new.notices.total ≤ self.old.notices.total + 1 }
    {
        let limit = self.profile.watchdog;
        let Some(t) = task else {
            return;
        };
        if limit == 0 || !self.may_run_oob(c, t) {
            return;
        }
        if self.watches.get(c) >= limit - 1 {
            self.overrun(c, t);
        } else {
            self.watches.count(c);
        }
    }

    /// Nothing is counted on a processor any more, unless an out-of-band task was current and is.
    #[tactic(auto, unfolding(evm_model::specs::Watch::rest_watch))]
    pub fn rest_watch(&mut self, was: Option<u8>, c: u8)
        ensures { self.new ≡ rest_watch was c self.old }
    {
        let current = self.current(c);
        if !self.tasks.is_oob(current) || is_other(current, was) {
            self.rest(c);
        }
    }
}
