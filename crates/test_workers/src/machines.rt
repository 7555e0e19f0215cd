//! The machine of a case, and the one that its journal leads to.

ghost use Rattle.std.specs.Prelude.{◌≡◌, IfSome};
ghost use Rattle.evm_model.specs.Replay.{IsReplayOf};

use crate::cases::{Plan, Program};
use evm_core::{Boot, Devices, Event, EventLine, Machine};
use evm_dev::Device;
use evm_devs::{AnyDevice, MailList, MailRing};
use evm_elf::{read_image, write_bytes};
use evm_ram::{BASE, Image};
use hunt_states::have_same_boards;
use std::alloc::Global;

/// `j .`
const LOOP: [u32; 1] = [0x0000_006f];

/// `li a1,0`, `la a0,both`, `li a2,1`, `li a7,3`, `ecall`, then `both: lui t0,0x10000`, `loop: addi t1,t1,1`, `sd t1,0(t0)`, `sd t1,0(t0)`,
/// `ld t2,0(t0)`, `j loop`.
const MAIL: [u32; 12] = [
    0x0000_0593,
    0x0000_0517,
    0x0145_0513,
    0x0010_0613,
    0x0030_0893,
    0x0000_0073,
    0x1000_02b7,
    0x0013_0313,
    0x0062_b023,
    0x0062_b023,
    0x0002_b383,
    0xff1f_f06f,
];

/// The most words of a mailbox.
const MAILBOX: usize = 16;

fn image_of(alloc: Global, words: &[u32]) -> Option<Image> {
    let mut bytes = Vec::new(alloc);
    for word in words {
        bytes.extend_from_slice(&word.to_le_bytes()).ok()?;
    }
    if bytes.len() > 1_000 {
        return None;
    }
    let file = write_bytes(alloc, bytes.as_slice()).ok()?;
    read_image(alloc, file.as_slice()).ok()
}

fn devices_of(alloc: Global, program: Program) -> Option<Devices<AnyDevice>> {
    let mut devices = Devices::new(alloc).ok()?;
    match program {
        Program::Loop => {}
        Program::MailRing => devices.push(AnyDevice::MailRing(MailRing::new(alloc).ok()?)),
        Program::MailList => devices.push(AnyDevice::MailList(MailList::new(alloc).ok()?)),
    }
    Some(devices)
}

fn program_image(alloc: Global, program: Program) -> Option<Image> {
    match program {
        Program::Loop => image_of(alloc, &LOOP),
        Program::MailRing | Program::MailList => image_of(alloc, &MAIL),
    }
}

/// A machine that has had no event, with its program.
pub(crate) fn machine_of(alloc: Global, plan: Plan) -> Option<Machine<AnyDevice>>
    ensures { IfSome result (λ m. IsReplayOf m m) }
{
    let image = program_image(alloc, plan.program)?;
    let devices = devices_of(alloc, plan.program)?;
    let boot = Boot::newest(u64::from(plan.cpus), 65_536, plan.capacity);
    let Ok(mut machine) = Machine::from_boot(alloc, boot, devices) else {
        return None;
    };
    match machine.load(&image) {
        Ok(()) => Some(machine),
        Err(_) => None,
    }
}

// Makes one line of a machine's journal on another: whether it is accepted.
fn repeat_line(machine: &Machine<AnyDevice>, i: usize, other: &mut Machine<AnyDevice>) -> bool {
    match machine.journal_line(i) {
        None => false,
        Some(EventLine::Steps(cpu, count)) => other.steps(cpu, count).is_ok(),
        Some(EventLine::One(event)) => other.apply(event).is_ok(),
    }
}

// Makes the events of a machine's journal on another: whether each is accepted.
fn repeat(machine: &Machine<AnyDevice>, other: &mut Machine<AnyDevice>) -> bool {
    for i in 0..machine.journal_line_count() {
        if !repeat_line(machine, i, other) {
            return false;
        }
    }
    true
}

// Takes a breakpoint at the first instruction away.
fn unbreak(machine: &mut Machine<AnyDevice>) -> bool {
    machine.apply(Event::Unbreak(BASE)).is_ok()
}

// Boards are compared without breakpoints, so one at the loop is taken away first.
fn are_alike(machine: &mut Machine<AnyDevice>, other: &mut Machine<AnyDevice>) -> bool {
    let breaks = machine.breakpoint_count();
    if other.event_count() != machine.event_count() || other.breakpoint_count() != breaks {
        return false;
    }
    if breaks == 1 && !(unbreak(machine) && unbreak(other)) {
        return false;
    }
    have_same_boards(machine, other)
}

// Whether the journal of a machine leads another to the same board.
fn leads_there(machine: &mut Machine<AnyDevice>, other: &mut Machine<AnyDevice>) -> bool {
    repeat(machine, other) && are_alike(machine, other)
}

// Whether the first of some devices has the words of the other machine's, and one at least.
fn has_words(devices: &[AnyDevice], other: &Machine<AnyDevice>) -> bool {
    let Some(device) = devices.first() else {
        return other.device_count() == 0;
    };
    for place in 0..=MAILBOX {
        if device.words(place) != other.device_word(0, place) {
            return false;
        }
    }
    device.words(0).is_some()
}

fn gives_back(machine: Machine<AnyDevice>, other: &Machine<AnyDevice>) -> bool {
    has_words(machine.into_devices().as_slice(), other)
}

/// Whether the journal of a machine of a plan leads to the same board, and the devices come back with the words that they have there.
/// False if memory is refused, or an event the second time.
pub(crate) fn is_replayed(alloc: Global, plan: Plan, mut machine: Machine<AnyDevice>) -> bool {
    match machine_of(alloc, plan) {
        None => false,
        Some(mut other) => {
            let leads = leads_there(&mut machine, &mut other);
            gives_back(machine, &other) && leads
        }
    }
}
