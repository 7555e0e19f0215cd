//! What rows do to a timer, and how timers expire.

ghost use Rattle.std.specs.Prelude.{◌≡◌, ◌<◌, ◌≤◌, ◌+◌, length};
ghost use Rattle.evm_model.specs.Bounds.{COUNT_LIMIT, HasStamps};
ghost use Rattle.evm_model.specs.State.{on_timer};
ghost use Rattle.evm_model.specs.Timers.{add_timer, expire, expire_timers, expire_to, set_timer, taken};
ghost use Rattle.evm_model.specs.Waits.{first_waiter};
ghost use Rattle.evm_model.specs.declared.task.Wait.TheVariants.{Timer as For};
ghost use Rattle.evm_tick.specs.Spans.{IsSpan};

use crate::parts::Parts;
use evm_model::{TIMER_LIMIT, TIMER_SPAN_LIMIT, Timer, Wait};
use evm_tick::{expired, is_due, taken};

impl Parts {
    /// One timer more.
    #[tactic(auto, unfolding(evm_model::specs::Timers::add_timer))]
    pub fn add_timer(&mut self)
        requires { length self.old.timers < TIMER_LIMIT }
        ensures row { self.new ≡ add_timer self.old }
    {
        self.timers.create();
    }

    /// A timer is a processor's, and expires first at a tick, or never if that is 0, then every period.
    pub fn set_timer(&mut self, c: u8, n: u8, first: u64, period: u64)
        requires { period ≤ TIMER_SPAN_LIMIT }
        ensures row { self.new ≡ on_timer n (λ _. set_timer c first period) self.old }
    {
        self.timers.set(n, c, first, period);
    }

    /// The expiries of a timer are taken.
    pub fn take_expiries(&mut self, n: u8)
        ensures row { self.new ≡ on_timer n taken self.old }
    {
        if let Some(timer) = self.timers.get(n) {
            self.timers.put(n, taken(timer));
        }
    }

    // A timer is this one.
    fn put_timer(&mut self, n: u8, timer: Timer)
        requires { IsSpan timer }
        ensures row { self.new ≡ on_timer n (λ _. timer) self.old }
        ensures stamps { self.new.stamps ≡ self.old.stamps }
    {
        self.timers.put(n, timer);
    }

    // A timer that has expired: the first task that waits for it wakes with all its expiries; if there is none, they are
    // kept.
    fn expire_to(&mut self, n: u8, timer: Timer)
        requires span { IsSpan timer }
        requires room { HasStamps 1 self.old }
        ensures row { self.new ≡ expire_to (first_waiter (For n) self.old) n timer self.old }
        ensures stamps { self.new.stamps ≤ self.old.stamps + 1 }
        ensures ticks { self.new.ticks ≡ self.old.ticks }
    {
        match self.first_waiter(Wait::Timer(n)) {
            None => self.put_timer(n, timer),
            Some(t) => {
                self.put_timer(n, taken(timer));
                self.wake(t, timer.expiries);
            }
        }
    }

    // A timer expires if it is the processor's and due.
    #[tactic(auto, unfolding(evm_model::specs::Timers::expire))]
    fn expire(&mut self, c: u8, n: u8)
        requires clock { self.old.ticks ≤ COUNT_LIMIT }
        requires room { HasStamps 1 self.old }
        ensures row { self.new ≡ expire c n self.old }
        ensures stamps { self.new.stamps ≤ self.old.stamps + 1 }
        ensures ticks { self.new.ticks ≡ self.old.ticks }
    {
        let Some(timer) = self.timers.get(n) else {
            return;
        };
        if is_due(c, self.ticks, timer) {
            self.expire_to(n, expired(self.ticks, timer));
        }
    }

    /// The timers of a processor that are due expire, by number. No timer is looked at while none at all is due.
    #[tactic(auto, using(crate::proofs::Expiries::expiries), unfolding(evm_model::specs::Timers::expire_timers))]
    pub fn expire_timers(&mut self, c: u8)
        requires room { HasStamps TIMER_LIMIT self.old }
        requires clock { self.old.ticks ≤ COUNT_LIMIT }
        ensures row { self.new ≡ expire_timers c self.old }
        ensures stamps { self.new.stamps ≤ self.old.stamps + TIMER_LIMIT }
    {
        if self.timers.is_quiet(self.ticks) {
            return;
        }
        'expiring: for n in 0..self.timers.count() {
            self.expire(c, n);
        }
        self.timers.look_again();
    }
}
