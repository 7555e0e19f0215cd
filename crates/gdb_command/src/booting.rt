//! The machine that a session begins with: by the lines of a script, or by default.

use evm_devs::AnyDevice;
use evm_host::{Sink, write_all};
use evm_ram::Image;
use evm_serve::InputFault;
use evm_streams::LineFault;
use gdb_answers::{
    Boot, CAPACITY_LIMIT, Line, LineEnd, Machine, Refusal, SIZE_LIMIT, begin, cut_line, read_line,
    run_line,
};
use std::alloc::Global;

/// The machine without a script.
pub(crate) fn default_boot() -> Boot {
    Boot::newest(2, SIZE_LIMIT, CAPACITY_LIMIT)
}

/// Why there is no machine.
#[derive(Clone, Copy, Debug)]
pub(crate) enum NotBooted {
    /// Memory was refused.
    NoMemory,
    /// A line of the script has a fault, or the machine refuses it. Of the default boot the line is 0.
    Fault(InputFault),
    /// The script has no boot line.
    NoBoot,
}

// Why the line of this number ends a script.
fn fault_of(number: u64, refusal: Refusal) -> NotBooted {
    match refusal {
        Refusal::NoMemory => NotBooted::NoMemory,
        _ => NotBooted::Fault(InputFault::Refused(number, None, refusal)),
    }
}

fn bad_line(number: u64, fault: LineFault) -> NotBooted {
    NotBooted::Fault(InputFault::BadLine(number, fault))
}

// A line before the boot line: whether it boots.
fn first_line(number: u64, line: &[u8]) -> Result<Option<Boot>, NotBooted> {
    match read_line(line) {
        Ok(Line::Blank) => Ok(None),
        Ok(Line::Boot(numbers)) => Ok(Some(numbers)),
        Ok(_) => Err(bad_line(number, LineFault::NotBooted)),
        Err(_) => Err(bad_line(number, LineFault::OutsideGrammar)),
    }
}

// A line behind the boot line.
fn next_line(
    number: u64,
    line: &[u8],
    machine: &mut Machine<AnyDevice>,
    text: &mut String,
) -> Result<(), NotBooted> {
    match run_line(machine, line, text) {
        Err(_) => Err(NotBooted::NoMemory),
        Ok(LineEnd::Done) => Ok(()),
        Ok(LineEnd::Bad) => Err(bad_line(number, LineFault::OutsideGrammar)),
        Ok(LineEnd::BootsAgain) => Err(bad_line(number, LineFault::BootedAgain)),
        Ok(LineEnd::Refused(refusal)) => Err(fault_of(number, refusal)),
    }
}

// The lines behind the boot line. A view that can't be written is lost.
fn run_rest<E: Sink>(
    alloc: Global,
    first: u64,
    script: &[u8],
    mut machine: Machine<AnyDevice>,
    errors: &mut E,
) -> Result<Machine<AnyDevice>, NotBooted> {
    let mut text = String::new(alloc);
    let mut rest = script;
    let mut number = first;
    'lines: while let Some((line, after)) = cut_line(rest) {
        text.clear();
        if let Err(fault) = next_line(number, line, &mut machine, &mut text) {
            return Err(fault);
        }
        let _ = write_all(errors, text.as_bytes());
        rest = after;
        number = number.saturating_add(1);
    }
    Ok(machine)
}

/// The machine that a script leaves.
pub(crate) fn run_script<E: Sink>(
    alloc: Global,
    script: &[u8],
    image: &Image,
    errors: &mut E,
) -> Result<Machine<AnyDevice>, NotBooted> {
    let mut rest = script;
    let mut number = 1u64;
    'lines: while let Some((line, after)) = cut_line(rest) {
        match first_line(number, line) {
            Err(fault) => return Err(fault),
            Ok(Some(numbers)) => {
                return match begin(alloc, image, numbers) {
                    Ok(machine) => {
                        run_rest(alloc, number.saturating_add(1), after, machine, errors)
                    }
                    Err(refusal) => Err(fault_of(number, refusal)),
                };
            }
            Ok(None) => {}
        }
        rest = after;
        number = number.saturating_add(1);
    }
    Err(NotBooted::NoBoot)
}
