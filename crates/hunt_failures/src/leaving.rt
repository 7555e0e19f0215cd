//! Mutexes that a task leaves to another as it ends.

ghost use Rattle.std.specs.Prelude.{◌≡◌, ℕ, ◌≤◌, true, MatchOption, Option, length, slice_get};
ghost use Rattle.evm_model.specs.declared.limits.TheConstants.{MUTEX_LIMIT};
ghost use Rattle.hunt_failures.specs.Eves.{listed_owner};
ghost use Rattle.hunt_failures.specs.Failures.{ended_at, is_left, live_owner};

use crate::failure::{Failure, owner_of};
use arrayvec::ArrayVec;
use evm_core::Machine;
use evm_devs::AnyDevice;
use evm_model::{MUTEX_LIMIT, TaskState};

/// Of each mutex the task that has it, and has not ended.
pub(crate) type Owners = ArrayVec<Option<u8>, MUTEX_LIMIT>;

// Whether a task has ended.
fn has_ended(machine: &Machine<AnyDevice>, t: u8) -> bool
    ensures { result ≡ ended_at t machine.now }
{
    match machine.task(t) {
        None => false,
        Some(task) => match task.state {
            TaskState::Exit | TaskState::Faulted(_) => true,
            _ => false,
        },
    }
}

// The task that has a mutex, if it has not ended.
fn live_owner(machine: &Machine<AnyDevice>, m: u8) -> Option<u8>
    ensures { result ≡ live_owner m machine.now }
{
    let Some(t) = owner_of(machine, m) else {
        return None;
    };
    if has_ended(machine, t) { None } else { Some(t) }
}

/// Of each mutex the task that has it, and has not ended.
pub(crate) fn owners_of(machine: &Machine<AnyDevice>) -> Owners
    ensures { (m : ℕ) → listed_owner (slice_get result.items m) ≡ live_owner m machine.now }
{
    let mut owners = ArrayVec::new();
    'mutexes: for m in 0..machine.mutex_count() {
        owners.push(live_owner(machine, m));
    }
    owners
}

// Whether a task has ended, and another has this mutex.
fn is_left(machine: &Machine<AnyDevice>, t: u8, m: u8) -> bool
    ensures { result ≡ is_left t m machine.now }
{
    if !has_ended(machine, t) {
        return false;
    }
    match owner_of(machine, m) {
        None => false,
        Some(heir) => heir != t,
    }
}

// The failure of a mutex that had this owner.
fn left_by(machine: &Machine<AnyDevice>, m: u8, owner: Option<u8>) -> Option<Failure>
    ensures { MatchOption result ((t : ℕ) → owner ≡ Option.Some t → is_left t m machine.now ≡ true → ⊥) (λ failure. (t : ℕ) × (failure ≡ Failure.Abandoned t m) × (owner ≡ Option.Some t) × (is_left t m machine.now ≡ true)) }
{
    let Some(t) = owner else {
        return None;
    };
    if is_left(machine, t, m) {
        Some(Failure::Abandoned(t, m))
    } else {
        None
    }
}

// The owner of a mutex in a list.
fn listed_owner(owners: &[Option<u8>], m: u8) -> Option<u8>
    ensures { result ≡ listed_owner (slice_get owners.now m) }
{
    match owners.get(usize::from(m)) {
        Some(owner) => *owner,
        None => None,
    }
}

/// The failure of the first mutex whose owner has ended, and that another task has.
pub(crate) fn abandoned(machine: &Machine<AnyDevice>, owners: &[Option<u8>]) -> Option<Failure>
    requires few { length owners.now ≤ MUTEX_LIMIT }
    ensures { MatchOption result ((t m : ℕ) → listed_owner (slice_get owners.now m) ≡ Option.Some t → is_left t m machine.now ≡ true → ⊥) (λ failure. (t : ℕ) × (m : ℕ) × (failure ≡ Failure.Abandoned t m) × (listed_owner (slice_get owners.now m) ≡ Option.Some t) × (is_left t m machine.now ≡ true)) }
{
    'mutexes: for m in 0..owners.len() as u8 {
        match left_by(machine, m, listed_owner(owners, m)) {
            Some(failure) => return Some(failure),
            None => {}
        }
    }
    None
}
