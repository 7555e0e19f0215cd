//! How waits end by their deadlines.

ghost use Rattle.std.specs.Prelude.{◌≡◌, ◌≤◌, ◌+◌};
ghost use Rattle.evm_model.specs.Bounds.{HasStamps};
ghost use Rattle.evm_model.specs.Deadlines.{end_wait, end_waits, next_due};

use crate::parts::Parts;
use evm_model::{Errno, TASK_LIMIT, TaskState, Wait};

impl Parts {
    // Of the tasks of a processor whose deadlines have come the one of least deadline, then of least number.
    #[tactic(auto, unfolding(evm_model::specs::Deadlines::next_due))]
    fn next_due(&mut self, c: u8) -> Option<u8>
        ensures same { self.new ≡ self.old }
        ensures due { result ≡ next_due c self.old }
    {
        let now = self.ticks;
        self.tasks.next_due(c, now)
    }

    // The wait of a task ends by its deadline: a sleep is answered 0, any other wait -110. One for an event ends in a wait
    // for its mutex, if that isn't free.
    #[tactic(auto, unfolding(evm_model::specs::Deadlines::end_wait))]
    fn end_wait(&mut self, t: u8)
        requires room { HasStamps 1 self.old }
        ensures row { self.new ≡ end_wait t self.old }
        ensures stamps { self.new.stamps ≤ self.old.stamps + 1 }
    {
        let Some(task) = self.tasks.get(t) else {
            return;
        };
        let TaskState::Waits(wait) = task.state else {
            return;
        };
        match wait {
            Wait::Sleep => self.wake(t, 0),
            Wait::Event(e) => self.reacquire(e, t, Errno::TimedOut.answer()),
            _ => self.wake(t, Errno::TimedOut.answer()),
        }
    }

    /// The waits of a processor's tasks whose deadlines have come end, one after another.
    #[tactic(auto, using(crate::proofs::Rounds::rounds), unfolding(evm_model::specs::Deadlines::end_waits))]
    pub fn end_waits(&mut self, c: u8)
        requires room { HasStamps TASK_LIMIT self.old }
        ensures row { self.new ≡ end_waits c self.old }
        ensures stamps { self.new.stamps ≤ self.old.stamps + TASK_LIMIT }
    {
        'ending: for round in 0..self.tasks.count() {
            let Some(t) = self.next_due(c) else {
                return;
            };
            self.end_wait(t);
        }
    }
}
