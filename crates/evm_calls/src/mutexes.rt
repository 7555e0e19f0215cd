//! Mutexes.

ghost use Rattle.std.specs.Prelude.{◌≡◌, ◌≤◌, true, slice_get};
ghost use Rattle.evm_model.specs.Bounds.{COUNT_LIMIT, PER_CALL, HasRoom};
ghost use Rattle.evm_model.specs.Locks.{cycle_refusal, new_mutex, mutex_of, with_ceiling, lock, lock_again, lock_known, lock_other, try_known, try_lock, unlock, unlock_known, unlock_once};
ghost use Rattle.evm_model.specs.Mutexes.{free_mutex};
ghost use Rattle.evm_model.specs.Notices.{is_refused, notify_refused};

use crate::refused::refused;
use crate::waits::wait_unless;
use evm_model::{Errno, MUTEX_LIMIT, Mutex, NoticeKind, Outcome, PRIORITY_LIMIT, Protocol, Wait};
use evm_parts::Parts;

fn free_mutex(recursive: bool, protocol: Protocol) -> Mutex
    ensures { result ≡ free_mutex recursive protocol }
{
    Mutex {
        recursive,
        protocol,
        owner: None,
        count: 0,
    }
}

// A ceiling is a priority from 1 on.
fn with_ceiling(recursive: bool, priority: u64) -> Option<Mutex>
    ensures { result ≡ with_ceiling recursive priority }
{
    if priority < 1 || priority > u64::from(PRIORITY_LIMIT) {
        return None;
    }
    Some(free_mutex(recursive, Protocol::Ceiling(priority as u8)))
}

// The mutex of a kind: 1 and 3 are recursive, 2 and 3 have a ceiling.
fn mutex_of(kind: u64, priority: u64) -> Option<Mutex>
    ensures { result ≡ mutex_of kind priority }
{
    match kind {
        0 => Some(free_mutex(false, Protocol::Inheritance)),
        1 => Some(free_mutex(true, Protocol::Inheritance)),
        2 => with_ceiling(false, priority),
        3 => with_ceiling(true, priority),
        _ => None,
    }
}

/// Call 9: creates a mutex and returns its number. Kinds 0 and 1 inherit priority, 2 and 3 have the ceiling `priority` (1
/// to 99); odd kinds are recursive. Returns -22 if the kind or the ceiling is invalid, -12 if there are 32 mutexes.
#[tactic(auto, unfolding(evm_model::specs::Locks::new_mutex))]
pub fn new_mutex(parts: &mut Parts, kind: u64, priority: u64) -> Outcome
    ensures { (parts.new, result) ≡ new_mutex kind priority parts.old }
{
    let Some(mutex) = mutex_of(kind, priority) else {
        return refused(Errno::Invalid);
    };
    let number = parts.mutexes.count();
    if number as usize >= MUTEX_LIMIT {
        return refused(Errno::NoNumber);
    }
    parts.add_mutex(mutex);
    Outcome::Returns(u64::from(number))
}

// The task gets a notice if its call is refused with this error.
fn notify_refused(
    parts: &mut Parts,
    t: u8,
    error: Errno,
    kind: NoticeKind,
    outcome: Outcome,
) -> Outcome
    requires room { is_refused error outcome ≡ true → parts.old.notices.total ≤ COUNT_LIMIT }
    ensures { (parts.new, result) ≡ notify_refused error kind t (parts.old, outcome) }
{
    match outcome {
        Outcome::Returns(value) if value == error.answer() => parts.notify(kind, t),
        _ => {}
    }
    outcome
}

// The task has a mutex of its own once more, where that is recursive.
#[tactic(auto, unfolding(evm_model::specs::Locks::lock_again))]
fn lock_again(parts: &mut Parts, t: u8, m: u8, mutex: Mutex) -> Outcome
    requires room { mutex.count ≤ COUNT_LIMIT }
    ensures { (parts.new, result) ≡ lock_again t m mutex parts.old }
{
    if !mutex.recursive {
        return refused(Errno::Deadlock);
    }
    parts.hold_mutex(t, m, mutex.count + 1);
    Outcome::Returns(0)
}

// The owner u waits for the task by some chain: the wait would never end.
fn cycle_refusal(parts: &Parts, t: u8, u: u8) -> Option<Errno>
    ensures { result ≡ cycle_refusal t u parts.now }
{
    if parts.reaches(t, u) {
        Some(Errno::Deadlock)
    } else {
        None
    }
}

// The task waits for a mutex of task u's.
#[tactic(auto, unfolding(evm_model::specs::Locks::lock_other))]
fn lock_other(parts: &mut Parts, c: u8, t: u8, m: u8, u: u8, deadline: u64) -> Outcome
    requires room { HasRoom PER_CALL parts.old }
    ensures { (parts.new, result) ≡ lock_other c t m u deadline parts.old }
{
    let own = cycle_refusal(parts, t, u);
    wait_unless(parts, c, t, Wait::Lock(m), own, deadline)
}

// The task has a mutex, or waits until it has it, unless it is refused.
fn take_or_wait(parts: &mut Parts, c: u8, t: u8, mutex: u64, deadline: u64) -> Outcome
    requires room { HasRoom PER_CALL parts.old }
    ensures { (parts.new, result) ≡ lock_known (slice_get parts.old.mutexes mutex) c t mutex deadline parts.old }
{
    if mutex >= u64::from(parts.mutexes.count()) {
        return refused(Errno::Invalid);
    }
    let m = mutex as u8;
    let Some(mutex) = parts.mutexes.get(m) else {
        return refused(Errno::Invalid);
    };
    match mutex.owner {
        None => {
            parts.take_mutex(t, m);
            Outcome::Returns(0)
        }
        Some(u) if u == t => lock_again(parts, t, m, mutex),
        Some(u) => lock_other(parts, c, t, m, u, deadline),
    }
}

/// Call 36: locks the mutex. Waits if another task owns it, until `deadline` in ticks if that isn't 0. Returns 0; -22 if
/// there is no such mutex; -35 if the task owns it and it isn't recursive. If it would wait: -1 while the out-of-band stage
/// is stalled, -35 if the owner waits for the task, through any chain, -110 if the deadline has come, at the call or later.
/// -35 makes a notice.
#[tactic(auto, unfolding(evm_model::specs::Locks::lock))]
pub fn lock(parts: &mut Parts, c: u8, t: u8, mutex: u64, deadline: u64) -> Outcome
    requires room { HasRoom PER_CALL parts.old }
    ensures { (parts.new, result) ≡ lock c t mutex deadline parts.old }
{
    let outcome = take_or_wait(parts, c, t, mutex, deadline);
    notify_refused(parts, t, Errno::Deadlock, NoticeKind::Deadlock, outcome)
}

// The task has a mutex, if it need not wait for it.
fn take_at_once(parts: &mut Parts, t: u8, mutex: u64) -> Outcome
    requires room { HasRoom PER_CALL parts.old }
    ensures { (parts.new, result) ≡ try_known (slice_get parts.old.mutexes mutex) t mutex parts.old }
{
    if mutex >= u64::from(parts.mutexes.count()) {
        return refused(Errno::Invalid);
    }
    let m = mutex as u8;
    let Some(mutex) = parts.mutexes.get(m) else {
        return refused(Errno::Invalid);
    };
    match mutex.owner {
        None => {
            parts.take_mutex(t, m);
            Outcome::Returns(0)
        }
        Some(u) if u == t => lock_again(parts, t, m, mutex),
        Some(_) => refused(Errno::Busy),
    }
}

/// Call 37: locks the mutex if it is free, or recursive and the task's own. Returns 0; -22 if there is no such mutex; -16
/// if another task owns it; -35, with a notice, if the task owns it and it isn't recursive.
#[tactic(auto, unfolding(evm_model::specs::Locks::try_lock))]
pub fn try_lock(parts: &mut Parts, t: u8, mutex: u64) -> Outcome
    requires room { HasRoom PER_CALL parts.old }
    ensures { (parts.new, result) ≡ try_lock t mutex parts.old }
{
    let outcome = take_at_once(parts, t, mutex);
    notify_refused(parts, t, Errno::Deadlock, NoticeKind::Deadlock, outcome)
}

// The task has its mutex once less; the last time it passes on.
#[tactic(auto, unfolding(evm_model::specs::Locks::unlock_once))]
fn unlock_once(parts: &mut Parts, t: u8, m: u8, mutex: Mutex)
    requires room { HasRoom PER_CALL parts.old }
    ensures { parts.new ≡ unlock_once t m mutex parts.old }
{
    if mutex.count <= 1 {
        parts.hand_over(m);
    } else {
        parts.hold_mutex(t, m, mutex.count - 1);
    }
}

// The task gives its mutex back, once.
fn give_back(parts: &mut Parts, t: u8, mutex: u64) -> Outcome
    requires room { HasRoom PER_CALL parts.old }
    ensures { (parts.new, result) ≡ unlock_known (slice_get parts.old.mutexes mutex) t mutex parts.old }
{
    if u64::from(parts.mutexes.count()) <= mutex {
        return refused(Errno::Invalid);
    }
    let m = mutex as u8;
    let Some(mutex) = parts.mutexes.get(m) else {
        return refused(Errno::Invalid);
    };
    if !parts.mutexes.is_owner(m, t) {
        return refused(Errno::NotPermitted);
    }
    unlock_once(parts, t, m, mutex);
    Outcome::Returns(0)
}

/// Call 38: unlocks the mutex once. At the last time the first task that waits for it becomes its owner. Returns 0; -22 if
/// there is no such mutex; -1, with a notice, if the task doesn't own it.
#[tactic(auto, using(crate::proofs::Notices::unlocked), unfolding(evm_model::specs::Locks::unlock))]
pub fn unlock(parts: &mut Parts, t: u8, mutex: u64) -> Outcome
    requires room { HasRoom PER_CALL parts.old }
    ensures { (parts.new, result) ≡ unlock t mutex parts.old }
{
    let outcome = give_back(parts, t, mutex);
    notify_refused(parts, t, Errno::NotPermitted, NoticeKind::NotOwner, outcome)
}
