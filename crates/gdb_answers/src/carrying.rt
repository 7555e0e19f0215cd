//! The events that a command asks for, which set registers and bytes.

ghost use Rattle.std.specs.Prelude.{◌≡◌, ◌≢◌, IfSome, OnErr, Option, length};
ghost use Rattle.gdb_answers.specs.Asking.{asked_by, counted_writing};
ghost use Rattle.gdb_answers.specs.Setting.{register_write};
ghost use Rattle.gdb_tape.specs.gdb_driving.Kept.{KeepsJournal};
ghost use Rattle.gdb_tape.specs.gdb_driving.Setting.{MakesAsked, registers_setting};
ghost use Rattle.gdb_tape.specs.Tape.{KeepsTape};
ghost use Rattle.evm_ram.specs.Ram.{bytes_at};

use crate::session::GdbSession;
use evm_dev::Device;
use gdb_packets::Command;
use gdb_tape::{Machine, Refusal, processor_of, set_register, set_registers, word_at, write};

// Sets a register of the task that is looked at.
#[tactic(auto, using(crate::proofs::Kept::keeps_same))]
fn write_register<D: Device>(
    machine: &mut Machine<D>,
    looked: u8,
    number: u64,
    bytes: &[u8],
) -> Result<(), Refusal>
    ensures made { MakesAsked (register_write looked number bytes.now machine.old.board.parts) result machine.old machine.new }
    ensures kept { KeepsJournal machine.old machine.new }
    ensures unchanged { OnErr result (machine.new ≡ machine.old) }
{
    let Some((value, rest)) = word_at(bytes) else {
        return Err(Refusal::BadRegister);
    };
    if !rest.is_empty() {
        return Err(Refusal::BadRegister);
    }
    match processor_of(machine, looked) {
        Ok(cpu) => set_register(machine, cpu, number, value),
        Err(refusal) => Err(refusal),
    }
}

// Writes bytes, if there are as many as was said.
#[tactic(auto, using(crate::proofs::Kept::keeps_same))]
fn write_counted<D: Device>(
    machine: &mut Machine<D>,
    address: u64,
    count: u64,
    bytes: &[u8],
) -> Result<(), Refusal>
    ensures made { MakesAsked (counted_writing address count bytes.now machine.old) result machine.old machine.new }
    ensures kept { KeepsJournal machine.old machine.new }
    ensures unchanged { OnErr result (machine.new ≡ machine.old) }
    ensures counted { length bytes.now ≢ count → machine.new ≡ machine.old }
    ensures outside { bytes_at machine.old.board.memory.ram address (length bytes.now) ≡ Option.None → machine.new ≡ machine.old }
{
    if bytes.len() as u64 != count {
        return Err(Refusal::BadAddress);
    }
    write(machine, address, bytes)
}

// Sets the registers of the task that is looked at. Events behind the place are dropped.
#[tactic(auto, using(gdb_tape::proofs::Keeping::keeps_changed))]
fn carry_registers(session: &mut GdbSession, bytes: &[u8]) -> Result<(), Refusal>
    ensures made { MakesAsked (registers_setting session.old.looked bytes.now session.old.tape.machine.board.parts) result session.old.tape.machine session.new.tape.machine }
    ensures kept { KeepsTape session.old.tape session.new.tape }
{
    let looked = session.looked;
    let outcome = set_registers(&mut session.tape.machine, looked, bytes);
    session.forget();
    outcome
}

// Sets a register of the task that is looked at. If it is set events behind the place are dropped.
#[tactic(auto, using(gdb_tape::proofs::Keeping::keeps_same, gdb_tape::proofs::Keeping::keeps_changed))]
fn carry_register(session: &mut GdbSession, number: u64, bytes: &[u8]) -> Result<(), Refusal>
    ensures made { MakesAsked (register_write session.old.looked number bytes.now session.old.tape.machine.board.parts) result session.old.tape.machine session.new.tape.machine }
    ensures kept { KeepsTape session.old.tape session.new.tape }
{
    let looked = session.looked;
    match write_register(&mut session.tape.machine, looked, number, bytes) {
        Ok(()) => {
            session.forget();
            Ok(())
        }
        Err(refusal) => Err(refusal),
    }
}

// Writes bytes, if there are as many as was said. If they are written events behind the place are dropped.
#[tactic(auto, using(gdb_tape::proofs::Keeping::keeps_same, gdb_tape::proofs::Keeping::keeps_changed))]
fn carry_bytes(
    session: &mut GdbSession,
    address: u64,
    count: u64,
    bytes: &[u8],
) -> Result<(), Refusal>
    ensures made { MakesAsked (counted_writing address count bytes.now session.old.tape.machine) result session.old.tape.machine session.new.tape.machine }
    ensures kept { KeepsTape session.old.tape session.new.tape }
{
    match write_counted(&mut session.tape.machine, address, count, bytes) {
        Ok(()) => {
            session.forget();
            Ok(())
        }
        Err(refusal) => Err(refusal),
    }
}

/// Makes the events that a command with these bytes asks for.
///
/// # Errors
///
/// Why the first event was refused that was, or what is wrong with the bytes.
#[tactic(auto, using(gdb_tape::proofs::Keeping::keeps_same))]
pub(crate) fn carry_out(
    session: &mut GdbSession,
    command: Command,
    bytes: &[u8],
) -> Result<(), Refusal>
    ensures made { IfSome (asked_by session.old.looked bytes.now session.old.tape.machine command) (λ events. MakesAsked events result session.old.tape.machine session.new.tape.machine) }
    ensures kept { KeepsTape session.old.tape session.new.tape }
{
    match command {
        Command::SetRegisters => carry_registers(session, bytes),
        Command::SetRegister(number) => carry_register(session, number, bytes),
        Command::WriteDigits(address, count) | Command::WriteBytes(address, count) => {
            carry_bytes(session, address, count, bytes)
        }
        _ => Ok(()),
    }
}
