//! Timers.

ghost use Rattle.std.specs.Prelude.{◌≡◌};
ghost use Rattle.evm_model.specs.Bounds.{PER_CALL, HasRoom};
ghost use Rattle.evm_model.specs.Timers.{new_timer, timer_set, timer_wait};

use crate::refused::refused;
use crate::waits::wait_unless;
use evm_model::{Errno, Outcome, TIMER_LIMIT, TIMER_SPAN_LIMIT, Wait};
use evm_parts::Parts;

/// Call 13: creates a timer that is off and returns its number. Returns -12 if there are 32 timers.
#[tactic(auto, unfolding(evm_model::specs::Timers::new_timer))]
pub fn new_timer(parts: &mut Parts) -> Outcome
    ensures { (parts.new, result) ≡ new_timer parts.old }
{
    let number = parts.timers.count();
    if number as usize >= TIMER_LIMIT {
        return refused(Errno::NoNumber);
    }
    parts.add_timer();
    Outcome::Returns(u64::from(number))
}

/// Call 48: sets a timer of this processor to expire at tick `first`, and then every `period` ticks, or once if that is 0;
/// a first tick of 0 turns it off. Its expiries become 0; a task that waits for it still waits. Returns 0, or -22 if there
/// is no such timer, or `first` or `period` is above 9,223,372,036,854,775,807.
#[tactic(auto, unfolding(evm_model::specs::Timers::timer_set))]
pub fn timer_set(parts: &mut Parts, c: u8, timer: u64, first: u64, period: u64) -> Outcome
    ensures { (parts.new, result) ≡ timer_set c timer first period parts.old }
{
    if timer >= u64::from(parts.timers.count()) {
        return refused(Errno::Invalid);
    }
    if first > TIMER_SPAN_LIMIT || period > TIMER_SPAN_LIMIT {
        return refused(Errno::Invalid);
    }
    parts.set_timer(c, timer as u8, first, period);
    Outcome::Returns(0)
}

/// Call 49: returns the number of expiries that no task has taken yet, and sets it to 0. Waits while it is 0.
/// Returns -22 if there is no such timer; -11 if it hasn't expired and is off; -1 if it would wait while the out-of-band
/// stage is stalled.
#[tactic(auto, unfolding(evm_model::specs::Timers::timer_wait))]
pub fn timer_wait(parts: &mut Parts, c: u8, t: u8, timer: u64) -> Outcome
    requires room { HasRoom PER_CALL parts.old }
    ensures { (parts.new, result) ≡ timer_wait c t timer parts.old }
{
    if timer >= u64::from(parts.timers.count()) {
        return refused(Errno::Invalid);
    }
    let n = timer as u8;
    let Some(timer) = parts.timers.get(n) else {
        return refused(Errno::Invalid);
    };
    if timer.expiries > 0 {
        parts.take_expiries(n);
        return Outcome::Returns(timer.expiries);
    }
    if timer.due == 0 {
        return refused(Errno::TryAgain);
    }
    wait_unless(parts, c, t, Wait::Timer(n), None, 0)
}
