//! Calls that are refused.

ghost use Rattle.std.specs.Prelude.{◌≡◌, ℕ, true, false, MatchOption, Option, slice_get};
ghost use Rattle.evm_model.specs.Current.{current};
ghost use Rattle.evm_model.specs.declared.errno.Errno.{Errno};
ghost use Rattle.hunt_failures.specs.Failures.{IsAtCall, call_in, error_in, is_answered, is_ecall};
ghost use Rattle.evm_ram.specs.Ram.{bytes_at};

use crate::failure::{Failure, current};
use crate::wanted::Errors;
use evm_core::Machine;
use evm_devs::AnyDevice;
use evm_exec::Hart;
use evm_model::{Call, Errno};

/// The register of answers, a0.
const A0: usize = 10;

/// The register of a call's number, a7.
const A7: usize = 17;

/// A task whose next instruction is an ECALL.
#[derive(Clone, Copy, Debug)]
pub(crate) struct Caller {
    pub(crate) task: u8,
    pub(crate) pc: u64,
    /// The call that it makes, by its number.
    pub(crate) call: Option<Call>,
}

/// Whether the word at an address is ECALL.
pub(crate) fn is_ecall(machine: &Machine<AnyDevice>, address: u64) -> bool
    ensures { result ≡ is_ecall (bytes_at machine.now.board.memory.ram address 4) }
{
    match machine.bytes(address, 4) {
        Some([a, b, c, d]) => *a == 0x73 && *b == 0 && *c == 0 && *d == 0,
        _ => false,
    }
}

/// The call whose number a task has in a7.
pub(crate) fn call_in(machine: &Machine<AnyDevice>, task: u8) -> Option<Call>
    ensures { result ≡ call_in (slice_get machine.now.board.parts.harts task) }
{
    match machine.hart(task) {
        None => None,
        Some(hart) => Call::of_number(hart.regs[A7]),
    }
}

/// The task that a processor runs, if its next instruction is an ECALL.
pub(crate) fn caller_on(machine: &Machine<AnyDevice>, cpu: u8) -> Option<Caller>
    ensures { MatchOption result ((t pc : ℕ) → current cpu machine.now.board.parts ≡ Option.Some t → IsAtCall t pc machine.now → ⊥) (λ caller. (current cpu machine.now.board.parts ≡ Option.Some caller.task) × IsAtCall caller.task caller.pc machine.now × (caller.call ≡ call_in (slice_get machine.now.board.parts.harts caller.task))) }
{
    let Some(task) = current(machine, cpu) else {
        return None;
    };
    let Some(hart) = machine.hart(task) else {
        return None;
    };
    let pc = hart.pc;
    if is_ecall(machine, pc) {
        Some(Caller {
            task,
            pc,
            call: call_in(machine, task),
        })
    } else {
        None
    }
}

// Whether a hart is behind an ECALL at this address, with this error.
fn is_answered(hart: &Hart, pc: u64, error: Errno) -> bool
    ensures { result ≡ is_answered pc error (Option.Some hart.now) }
{
    let at = hart.pc;
    let Some(behind) = pc.checked_add(4) else {
        return false;
    };
    at == behind && hart.regs[A0] == error.answer()
}

// Whether an error is looked for, and a hart is behind an ECALL with it.
fn is_wanted(hart: &Hart, pc: u64, errors: &Errors, error: Errno) -> bool
    ensures none { result ≡ false → error_in errors.now error ≡ true → is_answered pc error (Option.Some hart.now) ≡ true → ⊥ }
    ensures one { result ≡ true → is_answered pc error (Option.Some hart.now) ≡ true }
{
    if !errors.contains(error) {
        return false;
    }
    is_answered(hart, pc, error)
}

// The error that is looked for with which a hart is behind an ECALL.
fn error_of(hart: &Hart, pc: u64, errors: &Errors) -> Option<Errno>
    ensures { MatchOption result ((e : Errno) → error_in errors.now e ≡ true → is_answered pc e (Option.Some hart.now) ≡ true → ⊥) (λ e. is_answered pc e (Option.Some hart.now) ≡ true) }
{
    if is_wanted(hart, pc, errors, Errno::NotPermitted) {
        return Some(Errno::NotPermitted);
    }
    if is_wanted(hart, pc, errors, Errno::NoSuchTask) {
        return Some(Errno::NoSuchTask);
    }
    if is_wanted(hart, pc, errors, Errno::TryAgain) {
        return Some(Errno::TryAgain);
    }
    if is_wanted(hart, pc, errors, Errno::NoNumber) {
        return Some(Errno::NoNumber);
    }
    if is_wanted(hart, pc, errors, Errno::Busy) {
        return Some(Errno::Busy);
    }
    if is_wanted(hart, pc, errors, Errno::Invalid) {
        return Some(Errno::Invalid);
    }
    if is_wanted(hart, pc, errors, Errno::Deadlock) {
        return Some(Errno::Deadlock);
    }
    if is_wanted(hart, pc, errors, Errno::NoSuchCall) {
        return Some(Errno::NoSuchCall);
    }
    if is_wanted(hart, pc, errors, Errno::TimedOut) {
        return Some(Errno::TimedOut);
    }
    None
}

/// The failure of a task that was at a call, and that was refused it.
pub(crate) fn refused(
    machine: &Machine<AnyDevice>,
    caller: Caller,
    errors: &Errors,
) -> Option<Failure>
    ensures { MatchOption result ((e : Errno) → error_in errors.now e ≡ true → is_answered caller.pc e (slice_get machine.now.board.parts.harts caller.task) ≡ true → ⊥) (λ failure. (e : Errno) × (failure ≡ Failure.Refused caller.task e) × (is_answered caller.pc e (slice_get machine.now.board.parts.harts caller.task) ≡ true)) }
{
    let Some(hart) = machine.hart(caller.task) else {
        return None;
    };
    match error_of(&hart, caller.pc, errors) {
        Some(error) => Some(Failure::Refused(caller.task, error)),
        None => None,
    }
}
