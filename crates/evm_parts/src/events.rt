//! What rows do to an event, and to the tasks that wait for it.

ghost use Rattle.std.specs.Prelude.{◌≡◌, ◌<◌, ◌≤◌, ◌+◌, false, Some, None, length};
ghost use Rattle.evm_model.specs.Bounds.{HasStamps};
ghost use Rattle.evm_model.specs.Events.{add_event, bound, reacquire, signal_first, signal_rounds};
ghost use Rattle.evm_model.specs.State.{on_event};
ghost use Rattle.evm_model.specs.Waits.{first_waiter};
ghost use Rattle.evm_model.specs.declared.task.Wait.TheVariants.{Event as For};

use crate::parts::Parts;
use evm_model::{EVENT_LIMIT, TASK_LIMIT, Wait};

impl Parts {
    /// One event more.
    #[tactic(auto, unfolding(evm_model::specs::Events::add_event))]
    pub fn add_event(&mut self)
        requires { length self.old.events < EVENT_LIMIT }
        ensures row { self.new ≡ add_event self.old }
    {
        self.events.create();
    }

    /// The mutex of the tasks that wait for an event.
    pub fn bound(&self, e: u8) -> Option<u8>
        ensures { result ≡ bound e self.now }
    {
        self.events.bound(e)
    }

    /// The tasks that wait for an event name this mutex.
    pub fn bind_event(&mut self, e: u8, m: u8)
        ensures row { self.new ≡ on_event e (λ _. Some m) self.old }
        ensures stamps { self.new.stamps ≡ self.old.stamps }
    {
        self.events.bind(e, m);
    }

    /// A task waits for an event no more: it owns the mutex and wakes, or waits for it where another task owns it, without
    /// a deadline. Its call is answered this.
    #[tactic(auto, unfolding(evm_model::specs::Events::reacquire))]
    pub fn reacquire(&mut self, e: u8, t: u8, answer: u64)
        requires room { HasStamps 1 self.old }
        ensures row { self.new ≡ reacquire e t answer self.old }
        ensures stamps { self.new.stamps ≤ self.old.stamps + 1 }
    {
        let Some(m) = self.bound(e) else {
            return;
        };
        match self.mutexes.owner(m) {
            None => {
                self.hold_mutex(t, m, 1);
                self.wake(t, answer);
            }
            Some(_) => self.begin_wait(t, Wait::Reacquire { mutex: m, answer }, 0),
        }
    }

    /// The first task that waits for an event waits for it no more, if one does; answers whether one did.
    #[tactic(auto, unfolding(evm_model::specs::Events::signal_first))]
    pub fn signal_first(&mut self, e: u8) -> bool
        requires room { HasStamps 1 self.old }
        ensures row { self.new ≡ signal_first e self.old }
        ensures stamps { self.new.stamps ≤ self.old.stamps + 1 }
        ensures none { result ≡ false → first_waiter (For e) self.old ≡ None }
    {
        let Some(t) = self.first_waiter(Wait::Event(e)) else {
            return false;
        };
        self.reacquire(e, t, 0);
        true
    }

    /// All tasks that wait for an event wait for it no more, one after another.
    #[tactic(auto, using(crate::proofs::Signals::signals))]
    pub fn signal_all(&mut self, e: u8)
        requires room { HasStamps TASK_LIMIT self.old }
        ensures row { self.new ≡ signal_rounds e (length self.old.tasks) self.old }
    {
        'signalling: for round in 0..self.tasks.count() {
            if !self.signal_first(e) {
                return;
            }
        }
    }
}
