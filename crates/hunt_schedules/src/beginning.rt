//! The machine with which each run begins.

ghost use Rattle.std.specs.Prelude.{◌≡◌, IfOk, OnOk};
ghost use Rattle.evm_model.specs.Replay.{IsReplayOf};
ghost use Rattle.hunt_schedules.specs.Beginning.{Begins};

use evm_core::{Boot, Machine, Refusal};
use evm_devs::{AnyDevice, program_devices};
use evm_ram::Image;
use std::alloc::Global;

/// Why no run begins.
#[derive(Clone, Copy, Debug, PartialEq, Eq)]
pub enum BeginFault {
    /// Memory was refused.
    NoMemory,
    /// The numbers of the boot are outside their limits.
    BadSize,
    /// Memory of a segment of the image lies past RAM.
    PastRam,
}

fn fault_of(refusal: Refusal) -> BeginFault {
    match refusal {
        Refusal::NoMemory => BeginFault::NoMemory,
        Refusal::BadSize => BeginFault::BadSize,
        _ => BeginFault::PastRam,
    }
}

/// A machine that has had no event, with the devices of `evltool` and the image.
///
/// # Errors
///
/// Why there is none.
pub fn begin(alloc: Global, image: &Image, boot: &Boot) -> Result<Machine<AnyDevice>, BeginFault>
    ensures begins { IfOk result (λ machine. Begins image.now boot.now machine) }
    ensures fresh { IfOk result (λ machine. IsReplayOf machine machine) }
{
    let Ok(devices) = program_devices(alloc) else {
        return Err(BeginFault::NoMemory);
    };
    let mut machine = match Machine::from_boot(alloc, *boot, devices) {
        Ok(machine) => machine,
        Err(refusal) => return Err(fault_of(refusal)),
    };
    match machine.load(image) {
        Ok(()) => Ok(machine),
        Err(refusal) => Err(fault_of(refusal)),
    }
}

/// Takes a machine back to the state of another one that began with the same numbers.
///
/// # Errors
///
/// `BadSize` if the other began with other numbers, `NoMemory` if memory was refused. The machine is as it was then.
pub fn go_back(
    machine: &mut Machine<AnyDevice>,
    state: &Machine<AnyDevice>,
) -> Result<(), BeginFault>
    ensures { OnOk result (machine.new ≡ state.now) }
{
    match machine.copy_from(state) {
        Ok(()) => Ok(()),
        Err(refusal) => Err(fault_of(refusal)),
    }
}
