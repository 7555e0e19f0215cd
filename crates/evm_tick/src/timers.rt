ghost use Rattle.std.specs.Prelude.{◌≡◌, ◌<◌, ◌≤◌, [], ◌∷◌, ◌++◌, true, length, slice_get, IfSome};
ghost use Rattle.evm_model.specs.Lists.{change};
ghost use Rattle.evm_model.specs.Timers.{idle_timer, set_timer};
ghost use Rattle.evm_tick.specs.Spans.{IsQuiet, IsSpan, due_at, AreFrom, bound_with_tick};

use arrayvec::ArrayVec;
use evm_model::{TIMER_LIMIT, TIMER_SPAN_LIMIT, Timer};
use evm_room::copy_list;
use std::marker::Model;

/// The timers, in the order of their numbers.
#[derive(Debug, Drop)]
pub struct Timers {
    timers: ArrayVec<Timer, TIMER_LIMIT>,
    // no timer is due earlier
    earliest: u64,
}

impl Model for Timers {
    ghost use Rattle.std.specs.Prelude.{List};
    ghost use Rattle.evm_model.specs.declared.timer.Timer.{Timer};

    ghost Value = { List Timer };

    ghost use Rattle.evm_tick.specs.Spans.{AreSpans};

    ghost invariant = { λ t. AreSpans t.earliest t.timers.items };

    ghost view = { λ t. t.timers.items };
}

// The bound of the ticks at which timers are due with one more; 0 is none.
fn bound_with_tick(bound: u64, due: u64) -> u64
    ensures { result ≡ bound_with_tick bound due }
{
    if due != 0 && due < bound { due } else { bound }
}

// A timer that is off.
fn idle_timer() -> Timer
    ensures { result ≡ idle_timer }
{
    Timer {
        cpu: 0,
        due: 0,
        period: 0,
        expiries: 0,
    }
}

impl Timers {
    /// None, with room for all.
    #[tactic(auto, using(crate::proofs::Spans::none))]
    pub fn new() -> Timers
        ensures { result ≡ [] }
    {
        Timers {
            timers: ArrayVec::new(),
            earliest: u64::MAX,
        }
    }

    /// The timers are those of another list. Takes no memory.
    pub fn copy_from(&mut self, other: &Timers)
        ensures { self.new ≡ other.now }
    {
        copy_list(&mut self.timers, &other.timers);
        self.earliest = other.earliest;
    }

    /// One timer more, the last; it is off.
    pub fn create(&mut self)
        requires { length self.old < TIMER_LIMIT }
        ensures { self.new ≡ self.old ++ idle_timer ∷ [] }
    {
        self.timers.push(idle_timer());
    }

    /// How many there are, 32 at the most.
    pub fn count(&self) -> u8
        ensures count { result ≡ length self.now }
        ensures limit { result ≤ TIMER_LIMIT }
    {
        self.timers.len() as u8
    }

    /// Timer n.
    pub fn get(&self, n: u8) -> Option<Timer>
        ensures row { result ≡ slice_get self.now n }
        ensures span { IfSome result IsSpan }
    {
        self.timers.as_slice().get(n as usize).copied()
    }

    /// Timer n is this one.
    pub fn put(&mut self, n: u8, timer: Timer)
        requires { IsSpan timer }
        ensures { self.new ≡ change (λ _. timer) self.old n }
    {
        if let Some(entry) = self.timers.get_mut(n as usize) {
            *entry = timer;
            self.earliest = bound_with_tick(self.earliest, timer.due);
        }
    }

    /// Timer n is a processor's, and expires first at a tick, or never if that is 0, then every period.
    #[tactic(auto, using(crate::proofs::Spans::fresh))]
    pub fn set(&mut self, n: u8, cpu: u8, first: u64, period: u64)
        requires { period ≤ TIMER_SPAN_LIMIT }
        ensures { self.new ≡ change (λ _. set_timer cpu first period) self.old n }
    {
        let timer = Timer {
            cpu,
            due: first,
            period,
            expiries: 0,
        };
        self.put(n, timer);
    }

    /// Whether no timer at all is due. It need not be seen where one was due not long ago.
    #[tactic(auto, using(crate::proofs::Spans::quiet))]
    pub fn is_quiet(&self, now: u64) -> bool
        ensures { result ≡ true → IsQuiet now self.now }
    {
        now < self.earliest
    }

    // The tick at which timer n is due, 0 where it is off.
    fn due(&self, n: u8) -> u64
        ensures { result ≡ due_at self.now n }
    {
        match self.timers.as_slice().get(n as usize) {
            None => 0,
            Some(timer) => timer.due,
        }
    }

    // The least of the ticks at which timers are due.
    #[tactic(auto, using(crate::proofs::Spans::scans))]
    fn least_due(&self) -> u64
        ensures { AreFrom result self.now }
    {
        let mut least = u64::MAX;
        for n in 0..self.count() {
            least = bound_with_tick(least, self.due(n));
        }
        least
    }

    /// Looks again when the next of them is due.
    pub fn look_again(&mut self)
        ensures { self.new ≡ self.old }
    {
        self.earliest = self.least_due();
    }
}
