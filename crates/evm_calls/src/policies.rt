//! The class and the priority of a task, and its mode bits.

ghost use Rattle.std.specs.Prelude.{◌≡◌, ◌≤◌, IfSome};
ghost use Rattle.evm_model.specs.InBandCalls.{attach_task, detach};
ghost use Rattle.evm_model.specs.OobCalls.{set_sched, set_mode};
ghost use Rattle.evm_model.specs.Policies.{class_of, least_priority, policy_of};

use crate::refused::refused;
use evm_model::{Class, Errno, MODE_LIMIT, Outcome, PRIORITY_LIMIT};
use evm_parts::Parts;

fn class_of(number: u64) -> Option<Class>
    ensures { result ≡ class_of number }
{
    match number {
        1 => Some(Class::Fifo),
        2 => Some(Class::RoundRobin),
        3 => Some(Class::Weak),
        _ => None,
    }
}

fn least_priority(class: Class) -> u64
    ensures { result ≡ least_priority class }
{
    match class {
        Class::Weak => 0,
        _ => 1,
    }
}

/// Returns the class of a number with a priority: 1 is first in first out and 2 round robin, with priorities 1 to 99; 3 is
/// weak, with 0 to 99. Returns None for others.
pub fn policy_of(class: u64, priority: u64) -> Option<Class>
    ensures row { result ≡ policy_of class priority }
    ensures range { IfSome result (λ _. priority ≤ PRIORITY_LIMIT) }
{
    let class = class_of(class)?;
    if priority < least_priority(class) || priority > u64::from(PRIORITY_LIMIT) {
        return None;
    }
    Some(class)
}

/// Call 7: gives the task a class, a priority and a whole slice. Returns 0; -22 if `policy_of` has no such class; -16 if
/// the task has a class.
#[tactic(auto, unfolding(evm_model::specs::InBandCalls::attach_task))]
pub fn attach(parts: &mut Parts, t: u8, class: u64, priority: u64) -> Outcome
    ensures { (parts.new, result) ≡ attach_task t class priority parts.old }
{
    let Some(wanted) = policy_of(class, priority) else {
        return refused(Errno::Invalid);
    };
    if parts.is_attached(t) {
        return refused(Errno::Busy);
    }
    parts.set_policy(t, wanted, priority as u8);
    Outcome::Returns(0)
}

/// Call 8: takes class, priority and mode bits from the task. Returns 0; -1 if it has no class; -16 if it owns a mutex.
#[tactic(auto, unfolding(evm_model::specs::InBandCalls::detach))]
pub fn detach(parts: &mut Parts, t: u8) -> Outcome
    ensures { (parts.new, result) ≡ detach t parts.old }
{
    if !parts.is_attached(t) {
        return refused(Errno::NotPermitted);
    }
    if parts.owns_any(t) {
        return refused(Errno::Busy);
    }
    parts.clear_policy(t);
    Outcome::Returns(0)
}

/// Call 34: gives any task a class, a priority and a whole slice. Returns 0; -3 if there is no such task, it has ended, or
/// has no class; -22 if `policy_of` has no such class.
#[tactic(auto, unfolding(evm_model::specs::OobCalls::set_sched))]
pub fn set_sched(parts: &mut Parts, task: u64, class: u64, priority: u64) -> Outcome
    ensures { (parts.new, result) ≡ set_sched task class priority parts.old }
{
    if task >= u64::from(parts.tasks.count()) || !parts.tasks.is_scheduled(task as u8) {
        return refused(Errno::NoSuchTask);
    }
    let Some(class) = policy_of(class, priority) else {
        return refused(Errno::Invalid);
    };
    parts.set_policy(task as u8, class, priority as u8);
    Outcome::Returns(0)
}

/// Call 35: sets the task's mode bits, 1 (T_WOSS) and 2 (T_WOLI), and returns the old ones. Returns -22 if `bits` is above
/// 3.
#[tactic(auto, unfolding(evm_model::specs::OobCalls::set_mode))]
pub fn set_mode(parts: &mut Parts, t: u8, bits: u64) -> Outcome
    ensures { (parts.new, result) ≡ set_mode t bits parts.old }
{
    if bits > u64::from(MODE_LIMIT) {
        return refused(Errno::Invalid);
    }
    let old = parts.tasks.mode_bits(t);
    parts.set_mode_bits(t, bits as u8);
    Outcome::Returns(u64::from(old))
}
