//! Events of a machine, of which notes are made.

ghost use Rattle.std.specs.Prelude.{◌≡◌, OnOk, MatchResult, Option};
ghost use Rattle.evm_ram.specs.Ram.{bytes_at};
ghost use Rattle.evm_diagnostics.specs.evm_core.Steps.{steps};
ghost use Rattle.evm_serve.specs.Noting.{ahead_at, ahead_of, event_ahead, is_call_word, noted_steps, single_ahead};

use crate::notes::{Ahead, Notes};
use evm_dev::Device;
use evm_diagnostics::{Event, Machine, Refusal};
use evm_exec::Hart;

/// The bytes of ECALL.
pub(crate) const ECALL: &[u8] = b"\x73\0\0\0";

// Whether an ECALL stands at an address.
fn is_call<D: Device>(machine: &Machine<D>, address: u64) -> bool
    ensures { result ≡ is_call_word (bytes_at machine.now.board.memory.ram address 4) }
{
    match machine.bytes(address, 4) {
        None => false,
        Some(word) => word == ECALL,
    }
}

// The instruction that a task with this hart comes to.
fn task_ahead<D: Device>(machine: &Machine<D>, task: u8, hart: &Hart) -> Ahead
    ensures { result ≡ ahead_at task hart.now machine.now }
{
    let call = if is_call(machine, hart.pc) {
        Some(hart.regs[17])
    } else {
        None
    };
    Ahead {
        task,
        a0: hart.regs[10],
        call,
    }
}

// The instruction that the task of a processor comes to next.
fn ahead_of<D: Device>(machine: &Machine<D>, c: u8) -> Option<Ahead>
    ensures { result ≡ ahead_of c machine.now }
{
    let Some(processor) = machine.cpu(c) else {
        return None;
    };
    let Some(task) = processor.current else {
        return None;
    };
    match machine.hart(task) {
        None => None,
        Some(hart) => Some(task_ahead(machine, task, &hart)),
    }
}

/// Steps of a processor, each of which is noted.
///
/// # Errors
///
/// Why the first Step was refused that was.
pub(crate) fn noted_steps<D: Device>(
    machine: &mut Machine<D>,
    c: u8,
    count: u32,
    notes: &mut Notes,
) -> Result<(), Refusal>
    requires { notes.old.swallowed ≡ 0 }
    ensures made { MatchResult result (λ _. steps c count machine.old ≡ (machine.new, Option.None)) (λ refusal. steps c count machine.old ≡ (machine.new, Option.Some refusal)) }
    ensures noted { OnOk result (notes.new ≡ noted_steps c count machine.old notes.old) }
{
    let mut left = count;
    while left > 0 {
        let ahead = ahead_of(machine, c);
        let answer = machine.apply(Event::Step(c))?;
        notes.note_step(answer, ahead);
        left -= 1;
    }
    Ok(())
}

// The instruction that a step of a stopped processor does: none if a line on its wire comes first.
fn single_ahead<D: Device>(machine: &Machine<D>, c: u8) -> Option<Ahead>
    ensures { result ≡ single_ahead c machine.now }
{
    match machine.wire(c) {
        Some(wire) if wire.is_empty() => ahead_of(machine, c),
        _ => None,
    }
}

/// The instruction that an event does, if it is a step of a stopped processor.
pub(crate) fn event_ahead<D: Device>(machine: &Machine<D>, event: &Event) -> Option<Ahead>
    ensures { result ≡ event_ahead event.now machine.now }
{
    match event {
        Event::StepI(c) => single_ahead(machine, *c),
        _ => None,
    }
}
