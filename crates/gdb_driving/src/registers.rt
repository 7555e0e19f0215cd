//! Registers: 0 to 31, and 32 for the pc.

ghost use Rattle.std.specs.Prelude.{◌≡◌, ◌<◌, ◌≤◌, ◌++◌, ◌↔◌, drop, length, IfSome, IsNone, OnErr, OnOk};
ghost use Rattle.evm_exec.specs.Registers.{register_of};
ghost use Rattle.gdb_driving.specs.Shown.{hart_register, register_texts, registers_text};
ghost use Rattle.gdb_driving.specs.Kept.{KeepsJournal};
ghost use Rattle.gdb_driving.specs.Setting.{MakesEach, MakesAsked, register_change, leading_word, runner, registers_setting, register_setting};

use crate::bytes::push_word;
use crate::driving::event;
use evm_debug::{Event, Machine, Refusal};
use evm_dev::Device;
use evm_exec::{Hart, REGISTERS};
use evm_isa::Register;
use evm_room::Refused;

/// A register by its number; 0 where there is none.
pub fn register(hart: &Hart, r: u8) -> u64
    ensures { result ≡ hart_register hart.now r }
{
    if r == REGISTERS {
        return hart.pc;
    }
    match Register::new(r) {
        Some(register) => hart.register(register),
        None => 0,
    }
}

/// Appends the registers and the pc.
#[tactic(auto, using(crate::proofs::Lists::registers_none, crate::proofs::Lists::registers_more))]
pub fn push_registers(out: &mut Vec<u8>, hart: &Hart) -> Result<(), Refused>
    ensures ok { OnOk result (out.new.items ≡ out.old.items ++ registers_text hart.now) }
{
    for r in 0..REGISTERS + 1 {
        push_word(out, register(hart, r))?;
    }
    Ok(())
}

/// The number whose bytes are the first 8, and the other bytes.
pub fn word_at(bytes: &[u8]) -> Option<(u64, &[u8])>
    ensures some { IfSome result (λ found. (found.0 ≡ leading_word bytes.now) × (found.1.now ≡ drop 8 bytes.now)) }
    ensures none { IsNone result ↔ (length bytes.now < 8) }
{
    match bytes {
        [a, b, c, d, e, f, g, h, rest @ ..] => Some((
            u64::from_le_bytes([*a, *b, *c, *d, *e, *f, *g, *h]),
            rest,
        )),
        _ => None,
    }
}

/// The processor that runs a task.
///
/// # Errors
///
/// `NoTask` where none does.
pub fn processor_of<D: Device>(machine: &Machine<D>, t: u8) -> Result<u8, Refusal>
    ensures { result ≡ runner t machine.now.board.parts }
{
    let Some(task) = machine.task(t) else {
        return Err(Refusal::NoTask);
    };
    match machine.cpu(task.cpu) {
        Some(processor) if processor.current == Some(t) => Ok(task.cpu),
        _ => Err(Refusal::NoTask),
    }
}

/// Sets a register of the current task of a stopped processor. x0 stays 0.
///
/// # Errors
///
/// Why the event is refused; `BadRegister` for a number above 32. Nothing is changed then.
#[tactic(auto, using(crate::proofs::Kept::keeps_same))]
pub fn set_register<D: Device>(
    machine: &mut Machine<D>,
    c: u8,
    r: u64,
    value: u64,
) -> Result<(), Refusal>
    ensures made { MakesAsked (register_setting c r value) result machine.old machine.new }
    ensures kept { KeepsJournal machine.old machine.new }
    ensures unchanged { OnErr result (machine.new ≡ machine.old) }
{
    if r == 0 {
        return Ok(());
    }
    if r > 32 {
        return Err(Refusal::BadRegister);
    }
    let number = r as u8;
    let outcome = if number == REGISTERS {
        event(machine, Event::SetPc(c, value))
    } else {
        event(machine, Event::SetReg(c, number, value))
    };
    match outcome {
        Ok(_) => Ok(()),
        Err(refusal) => Err(refusal),
    }
}

// Sets a register that has another value.
#[tactic(auto, using(crate::proofs::Kept::keeps_same))]
fn change_register<D: Device>(
    machine: &mut Machine<D>,
    c: u8,
    hart: &Hart,
    r: u8,
    value: u64,
) -> Result<(), Refusal>
    requires { r ≤ REGISTERS }
    ensures made { MakesEach (register_change c hart.now r value) result machine.old machine.new }
    ensures kept { KeepsJournal machine.old machine.new }
    ensures unchanged { OnErr result (machine.new ≡ machine.old) }
{
    if register(hart, r) == value {
        Ok(())
    } else {
        set_register(machine, c, u64::from(r), value)
    }
}

/// Sets the registers of a task by the bytes of 33 numbers: those that have another value now.
///
/// # Errors
///
/// Why the first event was refused; those before it were made. `BadRegister` where there are not as many bytes, and then
/// nothing is changed.
#[tactic(auto, using(crate::proofs::Kept::keeps_same, crate::proofs::Kept::keeps_more))]
pub fn set_registers<D: Device>(
    machine: &mut Machine<D>,
    t: u8,
    bytes: &[u8],
) -> Result<(), Refusal>
    ensures made { MakesAsked (registers_setting t bytes.now machine.old.board.parts) result machine.old machine.new }
    ensures kept { KeepsJournal machine.old machine.new }
{
    if bytes.len() != 264 {
        return Err(Refusal::BadRegister);
    }
    let c = match processor_of(machine, t) {
        Ok(c) => c,
        Err(refusal) => return Err(refusal),
    };
    let Some(hart) = machine.hart(t) else {
        return Err(Refusal::NoTask);
    };
    let mut rest = bytes;
    for r in 0..REGISTERS + 1 {
        let Some((value, after)) = word_at(rest) else {
            return Err(Refusal::BadRegister);
        };
        match change_register(machine, c, &hart, r, value) {
            Ok(()) => rest = after,
            Err(refusal) => return Err(refusal),
        }
    }
    Ok(())
}
