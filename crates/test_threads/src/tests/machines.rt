//! A machine in an endless loop, and the machine that its journal leads to.

ghost use Rattle.std.specs.Prelude.{◌≡◌, IfSome};
ghost use Rattle.evm_model.specs.Replay.{IsReplayOf};

use evm_core::{Boot, Devices, Event, EventLine, Machine};
use evm_devs::Pins;
use evm_elf::{read_image, write_bytes};
use evm_ram::BASE;
use hunt_states::have_same_boards;
use std::alloc::Global;

/// `j .`: jal x0, 0.
const LOOP: [u8; 4] = [0x6f, 0, 0, 0];

/// A machine that has had no event. Task 0 is on processor 0, in an endless loop; the others have no task.
pub(super) fn looping(alloc: Global, cpus: u64, capacity: u64) -> Option<Machine<Pins>>
    ensures { IfSome result (λ m. IsReplayOf m m) }
{
    let boot = Boot::newest(cpus, 65_536, capacity);
    let file = write_bytes(alloc, &LOOP).ok()?;
    let image = read_image(alloc, file.as_slice()).ok()?;
    let devices = Devices::new(alloc).ok()?;
    let mut machine = Machine::from_boot(alloc, boot, devices).ok()?;
    machine.load(&image).ok()?;
    Some(machine)
}

// Makes the events of a machine's journal on another; None if one is refused.
fn repeat(machine: &Machine<Pins>, other: &mut Machine<Pins>) -> Option<()> {
    for i in 0..machine.journal_line_count() {
        match machine.journal_line(i)? {
            EventLine::Steps(cpu, count) => other.steps(cpu, count).ok()?,
            EventLine::One(event) => {
                other.apply(event).ok()?;
            }
        }
    }
    Some(())
}

// Boards are compared without breakpoints, so one at the loop is taken away first.
fn are_alike(machine: &mut Machine<Pins>, other: &mut Machine<Pins>) -> Option<bool> {
    let breaks = machine.breakpoint_count();
    if other.event_count() != machine.event_count() || other.breakpoint_count() != breaks {
        return Some(false);
    }
    if breaks == 1 {
        machine.apply(Event::Unbreak(BASE)).ok()?;
        other.apply(Event::Unbreak(BASE)).ok()?;
    }
    Some(have_same_boards(machine, other))
}

fn leads_to(machine: &mut Machine<Pins>, other: &mut Machine<Pins>) -> Option<bool> {
    repeat(machine, other)?;
    are_alike(machine, other)
}

/// Whether the journal of such a machine leads to the same board; None if an event is refused the second time.
pub(super) fn leads_there(alloc: Global, machine: &mut Machine<Pins>) -> Option<bool> {
    let boot = machine.boot_numbers();
    let mut other = looping(alloc, boot.cpus, boot.capacity)?;
    leads_to(machine, &mut other)
}
