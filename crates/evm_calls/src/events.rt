//! Events.

ghost use Rattle.std.specs.Prelude.{◌≡◌};
ghost use Rattle.evm_model.specs.Bounds.{PER_CALL, HasRoom};
ghost use Rattle.evm_model.specs.Events.{begin_event_wait, broadcast, event_wait, has_other, holding_refusal, holds_alone, new_event, signal};
ghost use Rattle.evm_model.specs.Boosts.{is_number};

use crate::refused::refused;
use crate::waits::wait_refusal;
use evm_model::{EVENT_LIMIT, Errno, Mutex, Outcome, Stage, Wait};
use evm_parts::Parts;

/// Call 11: creates an event and returns its number. Returns -12 if there are 32 events.
#[tactic(auto, unfolding(evm_model::specs::Events::new_event))]
pub fn new_event(parts: &mut Parts) -> Outcome
    ensures { (parts.new, result) ≡ new_event parts.old }
{
    let number = parts.events.count();
    if number as usize >= EVENT_LIMIT {
        return refused(Errno::NoNumber);
    }
    parts.add_event();
    Outcome::Returns(u64::from(number))
}

fn is_number(number: Option<u8>, n: u8) -> bool
    ensures { result ≡ is_number number n }
{
    match number {
        None => false,
        Some(m) => m == n,
    }
}

// Whether tasks wait for an event with another mutex.
fn has_other(parts: &Parts, e: u8, m: u8) -> bool
    ensures { result ≡ has_other e m parts.now }
{
    match parts.first_waiter(Wait::Event(e)) {
        None => false,
        Some(_) => !is_number(parts.bound(e), m),
    }
}

// Whether the task owns a mutex, which it locked once, and no other.
fn holds_alone(parts: &Parts, t: u8, m: u8, mutex: Mutex) -> bool
    ensures { result ≡ holds_alone t m mutex parts.now }
{
    is_number(mutex.owner, t) && mutex.count == 1 && !parts.owns_other(t, m)
}

fn holding_refusal(parts: &Parts, t: u8, m: u8, mutex: Mutex) -> Option<Errno>
    ensures { result ≡ holding_refusal t m mutex parts.now }
{
    if holds_alone(parts, t, m, mutex) {
        None
    } else {
        Some(Errno::NotPermitted)
    }
}

// The mutex passes on, and the task waits.
#[tactic(auto, unfolding(evm_model::specs::Events::begin_event_wait))]
fn begin_event_wait(parts: &mut Parts, t: u8, e: u8, m: u8, deadline: u64)
    requires room { HasRoom PER_CALL parts.old }
    ensures { parts.new ≡ begin_event_wait t e m deadline parts.old }
{
    parts.bind_event(e, m);
    parts.hand_over(m);
    parts.begin_wait(t, Wait::Event(e), deadline);
}

/// Call 42: unlocks the mutex and waits for the event, until `deadline` in ticks if that isn't 0. Returns 0 after a signal
/// and -110 after the deadline, once the task owns the mutex again. Returns at once: -22 if there is no such event or
/// mutex, or tasks wait for the event with another mutex; -1 while the out-of-band stage is stalled, or unless the task
/// owns this mutex, locked once, and no other; -110 if the deadline has come.
#[tactic(auto, unfolding(evm_model::specs::Events::event_wait))]
pub fn event_wait(parts: &mut Parts, c: u8, t: u8, event: u64, mutex: u64, deadline: u64) -> Outcome
    requires room { HasRoom PER_CALL parts.old }
    ensures { (parts.new, result) ≡ event_wait c t event mutex deadline parts.old }
{
    if event >= u64::from(parts.events.count()) || mutex >= u64::from(parts.mutexes.count()) {
        return refused(Errno::Invalid);
    }
    let e = event as u8;
    let m = mutex as u8;
    let Some(mutex) = parts.mutexes.get(m) else {
        return refused(Errno::Invalid);
    };
    if has_other(parts, e, m) {
        return refused(Errno::Invalid);
    }
    let own = holding_refusal(parts, t, m, mutex);
    if let Some(error) = wait_refusal(parts, c, Stage::OutOfBand, own, deadline) {
        return refused(error);
    }
    begin_event_wait(parts, t, e, m, deadline);
    Outcome::Blocks
}

/// Call 43: ends the wait of the first task that waits for the event; it takes its mutex, or waits for it. Returns 0, or
/// -22 if there is no such event.
#[tactic(auto, unfolding(evm_model::specs::Events::signal))]
pub fn signal(parts: &mut Parts, event: u64) -> Outcome
    requires room { HasRoom PER_CALL parts.old }
    ensures { (parts.new, result) ≡ signal event parts.old }
{
    if event >= u64::from(parts.events.count()) {
        return refused(Errno::Invalid);
    }
    let _found = parts.signal_first(event as u8);
    Outcome::Returns(0)
}

/// Call 44: ends the waits of all tasks that wait for the event, the first first; each takes its mutex, or waits for it.
/// Returns 0, or -22 if there is no such event.
#[tactic(auto, unfolding(evm_model::specs::Events::broadcast))]
pub fn broadcast(parts: &mut Parts, event: u64) -> Outcome
    requires room { HasRoom PER_CALL parts.old }
    ensures { (parts.new, result) ≡ broadcast event parts.old }
{
    if event >= u64::from(parts.events.count()) {
        return refused(Errno::Invalid);
    }
    parts.signal_all(event as u8);
    Outcome::Returns(0)
}
