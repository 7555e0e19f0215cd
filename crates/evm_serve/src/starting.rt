//! The machine that a run begins with.

ghost use Rattle.evm_serve.specs.Starting.{Starts};

use crate::options::RunOptions;
use evm_dev::Device;
use evm_diagnostics::{Boot, Machine, Refusal};
use std::alloc::Global;

/// A machine with these numbers and the devices, and with the image in it, if there is one. Bad numbers are reported before
/// the refusal of the image; `NoMemory` means that an allocation was refused.
#[tactic(auto, using(crate::proofs::Memory::memory))]
pub(crate) fn start<D: Device>(
    alloc: Global,
    options: RunOptions<'_, D>,
    numbers: &Boot,
) -> Result<Machine<D>, Refusal>
    ensures { Starts options.entry numbers.now result }
{
    let RunOptions { image, devices } = options;
    let mut machine = Machine::from_boot(alloc, *numbers, devices)?;
    let Some(image) = image else {
        return Ok(machine);
    };
    machine.load(image)?;
    Ok(machine)
}
