//! The machine that a script boots.

ghost use Rattle.std.specs.Prelude.{◌≡◌, IfOk, Some};
ghost use Rattle.evm_serve.specs.Scripted.{booted_by};
ghost use Rattle.evm_diagnostics.specs.evm_debug.LineReading.{line_at};
ghost use Rattle.evm_diagnostics.specs.evm_debug.declared.line.Line.TheVariants as lines;

use crate::stop::ScriptStop;
use evm_dev::Device;
use evm_diagnostics::{Boot, Devices, Line, Machine, Refusal, read_line};
use evm_ram::Image;
use std::alloc::Global;

fn stop_of(refusal: Refusal) -> ScriptStop {
    match refusal {
        Refusal::NoMemory => ScriptStop::NoMemory,
        _ => ScriptStop::Refused(refusal),
    }
}

/// A machine with these numbers and devices, and with the image in it.
fn start<D: Device>(
    alloc: Global,
    image: &Image,
    devices: Devices<D>,
    numbers: &Boot,
) -> Result<Machine<D>, ScriptStop>
    ensures { IfOk result (λ machine. booted_by devices image.now (Some (lines.Boot numbers.now)) ≡ Some machine) }
{
    let mut machine = match Machine::from_boot(alloc, *numbers, devices) {
        Ok(machine) => machine,
        Err(refusal) => return Err(stop_of(refusal)),
    };
    match machine.load(image) {
        Ok(()) => Ok(machine),
        Err(refusal) => Err(stop_of(refusal)),
    }
}

/// The machine of a boot line.
pub(crate) fn boot<D: Device>(
    alloc: Global,
    image: &Image,
    devices: Devices<D>,
    line: &[u8],
) -> Result<Machine<D>, ScriptStop>
    ensures { IfOk result (λ machine. booted_by devices image.now (line_at line.now) ≡ Some machine) }
{
    match read_line(line) {
        Ok(Line::Boot(numbers)) => start(alloc, image, devices, &numbers),
        Ok(_) => Err(ScriptStop::NotBooted),
        Err(_) => Err(ScriptStop::Misspelt),
    }
}
