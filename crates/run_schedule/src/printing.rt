//! What a program puts to its consoles, as it puts it.

ghost use Rattle.std.specs.Prelude.{◌≡◌, [], ◌∷◌, OnOk, Option};
ghost use Rattle.evm_model.specs.Current.{current};
ghost use Rattle.evm_model.specs.Event.{event_lent};
ghost use Rattle.evm_ram.specs.Ram.{bytes_at};
ghost use Rattle.hunt_failures.specs.Failures.{is_ecall};
ghost use Rattle.evm_streams.specs.Writes.{Took};
ghost use Rattle.run_schedule.specs.Console.{byte_of, device_printed, hart_puts, if_ran, more_printed, nothing_printed, puts_ahead, task_puts};

use crate::looking::is_oob;
use evm_core::{Answer, Machine};
use evm_devs::AnyDevice;
use evm_exec::Hart;
use evm_model::{Block, Event};
use evm_room::{NoMemory, grow};
use evm_streams::{Sink, WriteFault, write_all};
use std::alloc::Global;
use std::marker::Model;

/// The number of the call putc.
const PUTC: u64 = 1;

/// The device console.
const CONSOLE: u8 = 0;

// Whether the word at an address is ECALL.
fn is_ecall(machine: &Machine<AnyDevice>, address: u64) -> bool
    ensures { result ≡ is_ecall (bytes_at machine.now.board.memory.ram address 4) }
{
    match machine.bytes(address, 4) {
        Some([a, b, c, d]) => *a == 0x73 && *b == 0 && *c == 0 && *d == 0,
        _ => false,
    }
}

// The byte that a task with this hart puts by its next instruction, if that is a call.
fn byte_of_hart(machine: &Machine<AnyDevice>, t: u8, hart: &Hart) -> Option<u8>
    ensures { byte_of result ≡ hart_puts (Option.Some hart.now) t machine.now }
{
    if hart.regs[17] != PUTC {
        return None;
    }
    if !is_ecall(machine, hart.pc) {
        return None;
    }
    if is_oob(machine, t) {
        return None;
    }
    Some((hart.regs[10] % 256) as u8)
}

// The byte that the current task of a processor puts so.
fn byte_on(machine: &Machine<AnyDevice>, c: u8) -> Option<u8>
    ensures { byte_of result ≡ task_puts (current c machine.now.board.parts) machine.now }
{
    let Some(processor) = machine.cpu(c) else {
        return None;
    };
    let Some(t) = processor.current else {
        return None;
    };
    match machine.lent_hart(t) {
        None => None,
        Some(hart) => byte_of_hart(machine, t, hart),
    }
}

/// The byte that an event puts by a call, if it does an instruction.
pub(crate) fn byte_ahead(machine: &Machine<AnyDevice>, event: Event<&Block>) -> Option<u8>
    ensures { byte_of result ≡ puts_ahead (event_lent event.entry) machine.now }
{
    match event {
        Event::Step(c) => byte_on(machine, c),
        _ => None,
    }
}

/// What was put and is not yet told.
#[derive(Debug, Drop)]
pub(crate) struct Printer {
    text: Vec<u8>,
    device: usize,
    // whether the last byte that was put is no newline
    is_open: bool,
}

impl Model for Printer {
    ghost use Rattle.run_schedule.specs.Console.{Printed};

    ghost Value = { Printed };

    ghost view = { λ printer. record { text = printer.text.items; device = printer.device } };
}

impl Printer {
    /// Nothing was put.
    pub(crate) fn new(alloc: Global) -> Printer
        ensures { result ≡ nothing_printed }
    {
        Printer {
            text: Vec::new(alloc),
            device: 0,
            is_open: false,
        }
    }

    /// How many bytes are not yet told.
    pub(crate) fn len(&self) -> usize {
        self.text.len()
    }

    /// Whether the last line that was put has no end.
    pub(crate) fn is_open(&self) -> bool {
        self.is_open
    }

    // A byte more.
    fn push(&mut self, byte: u8) -> Result<(), NoMemory>
        ensures { OnOk result (self.new ≡ more_printed (byte ∷ []) self.old) }
    {
        let Ok(()) = grow(&mut self.text, 1) else {
            return Err(NoMemory);
        };
        self.is_open = byte != b'\n';
        self.text.push_reserved(byte);
        Ok(())
    }

    // The byte of a call whose event has answered.
    fn take_call(&mut self, byte: Option<u8>, answer: Answer) -> Result<(), NoMemory>
        ensures { OnOk result (self.new ≡ more_printed (if_ran answer (byte_of byte)) self.old) }
    {
        let Some(byte) = byte else {
            return Ok(());
        };
        match answer {
            Answer::Ran(_) => self.push(byte),
            _ => Ok(()),
        }
    }

    // The next word of the device, if it is there.
    fn take_device(&mut self, machine: &Machine<AnyDevice>) -> Result<(), NoMemory>
        ensures { OnOk result (self.new ≡ device_printed machine.now self.old) }
    {
        let Some(word) = machine.device_word(CONSOLE, self.device) else {
            return Ok(());
        };
        let Some(next) = self.device.checked_add(1) else {
            return Err(NoMemory);
        };
        self.push((word % 256) as u8)?;
        self.device = next;
        Ok(())
    }

    /// What an event has put that has answered: the byte of a call, and the next word of the device.
    pub(crate) fn take(
        &mut self,
        byte: Option<u8>,
        answer: Answer,
        machine: &Machine<AnyDevice>,
    ) -> Result<(), NoMemory>
        ensures { OnOk result (self.new ≡ device_printed machine.now (more_printed (if_ran answer (byte_of byte)) self.old)) }
    {
        self.take_call(byte, answer)?;
        self.take_device(machine)
    }

    /// Tells what is not yet told.
    pub(crate) fn tell<W: Sink>(&mut self, output: &mut W) -> Result<(), WriteFault>
        ensures took { OnOk result (Took W.takes output.old self.old.text output.new) }
        ensures told { OnOk result (self.new ≡ record self.old { text = [] }) }
    {
        write_all(output, &self.text)?;
        self.text.clear();
        Ok(())
    }
}
