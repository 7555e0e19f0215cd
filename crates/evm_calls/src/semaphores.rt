//! Semaphores.

ghost use Rattle.std.specs.Prelude.{◌≡◌};
ghost use Rattle.evm_model.specs.Bounds.{PER_CALL, HasRoom};
ghost use Rattle.evm_model.specs.Semaphores.{new_semaphore, sem_get, sem_try_get, sem_put};

use crate::refused::refused;
use crate::waits::wait_unless;
use evm_model::{Errno, Outcome, SEMAPHORE_COUNT_LIMIT, SEMAPHORE_LIMIT, Wait};
use evm_parts::Parts;

/// Call 10: creates a semaphore and returns its number. Returns -22 if `count` is above 2,147,483,647, -12 if there are 32
/// semaphores.
#[tactic(auto, unfolding(evm_model::specs::Semaphores::new_semaphore))]
pub fn new_semaphore(parts: &mut Parts, count: u64) -> Outcome
    ensures { (parts.new, result) ≡ new_semaphore count parts.old }
{
    if count > u64::from(SEMAPHORE_COUNT_LIMIT) {
        return refused(Errno::Invalid);
    }
    let number = parts.semaphores.count();
    if number as usize >= SEMAPHORE_LIMIT {
        return refused(Errno::NoNumber);
    }
    parts.add_semaphore(count as u32);
    Outcome::Returns(u64::from(number))
}

/// Call 39: takes one from the count of the semaphore. Waits while it is 0, until `deadline` in ticks if that isn't 0.
/// Returns 0; -22 if there is no such semaphore; if it would wait, -1 while the out-of-band stage is stalled, and -110 if
/// the deadline has come, at the call or later.
#[tactic(auto, unfolding(evm_model::specs::Semaphores::sem_get))]
pub fn sem_get(parts: &mut Parts, c: u8, t: u8, semaphore: u64, deadline: u64) -> Outcome
    requires room { HasRoom PER_CALL parts.old }
    ensures { (parts.new, result) ≡ sem_get c t semaphore deadline parts.old }
{
    if semaphore >= u64::from(parts.semaphores.count()) {
        return refused(Errno::Invalid);
    }
    let s = semaphore as u8;
    match parts.semaphores.get(s) {
        None => refused(Errno::Invalid),
        Some(0) => wait_unless(parts, c, t, Wait::Semaphore(s), None, deadline),
        Some(_) => {
            parts.take_semaphore(s);
            Outcome::Returns(0)
        }
    }
}

/// Call 40: takes one from the count of the semaphore. Returns 0; -22 if there is no such semaphore; -11 if its count is 0.
#[tactic(auto, unfolding(evm_model::specs::Semaphores::sem_try_get))]
pub fn sem_try_get(parts: &mut Parts, semaphore: u64) -> Outcome
    ensures { (parts.new, result) ≡ sem_try_get semaphore parts.old }
{
    if semaphore >= u64::from(parts.semaphores.count()) {
        return refused(Errno::Invalid);
    }
    let s = semaphore as u8;
    match parts.semaphores.get(s) {
        None => refused(Errno::Invalid),
        Some(0) => refused(Errno::TryAgain),
        Some(_) => {
            parts.take_semaphore(s);
            Outcome::Returns(0)
        }
    }
}

/// Call 41, on either stage: wakes the first task that waits for the semaphore, or adds one to its count. Returns 0, or -22
/// if there is no such semaphore, or nobody waits and its count is 2,147,483,647.
#[tactic(auto, unfolding(evm_model::specs::Semaphores::sem_put))]
pub fn sem_put(parts: &mut Parts, semaphore: u64) -> Outcome
    requires room { HasRoom PER_CALL parts.old }
    ensures { (parts.new, result) ≡ sem_put semaphore parts.old }
{
    if semaphore >= u64::from(parts.semaphores.count()) {
        return refused(Errno::Invalid);
    }
    parts.sem_put(semaphore as u8)
}
