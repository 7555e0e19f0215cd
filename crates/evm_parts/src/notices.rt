//! The notices of the health monitor.

ghost use Rattle.std.specs.Prelude.{◌≡◌, ◌≤◌, ◌+◌};
ghost use Rattle.evm_model.specs.Bounds.{COUNT_LIMIT};
ghost use Rattle.evm_model.specs.Notices.{notify};

use crate::parts::Parts;
use evm_health::asks_for;
use evm_model::{Notice, NoticeKind};

impl Parts {
    /// A task gets a notice, unless it would have to ask for it and doesn't.
    #[tactic(auto, unfolding(evm_model::specs::Notices::notify, evm_model::specs::Notices::keep))]
    pub fn notify(&mut self, kind: NoticeKind, t: u8)
        requires room { self.old.notices.total ≤ COUNT_LIMIT }
        ensures row { self.new ≡ notify kind t self.old }
        ensures stamps { self.new.stamps ≡ self.old.stamps }
        ensures total { self.new.notices.total ≤ self.old.notices.total + 1 }
    {
        let Some(task) = self.tasks.get(t) else {
            return;
        };
        if asks_for(kind, task) {
            let tick = self.ticks;
            self.notices.push(Notice {
                tick,
                task: t,
                kind,
            });
        }
    }
}
