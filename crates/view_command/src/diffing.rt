//! `diff`: where two journals part.

use crate::comparing::{Parting, are_like, first_parting};
use crate::drawing::ViewEnd;
use crate::naming::names_of;
use crate::paging::{Side, show_page};
use crate::reports::{Files, PROGRAM, STANDARD_OUTPUT, stopped};
use crate::showing::{Input, show_run};
use crate::telling::{Sides, alike_text, boots_text, parting_text};
use evm_devs::AnyDevice;
use evm_host::{Devices, Ending, System, World, ended, memory_refused, text_at, write_all};
use evm_room::Refused;
use evm_streams::Meter;
use std::alloc::Global;
use view_picture::{Boot, InputFault, Journal, JournalFaultKind, read_history};

/// The status where the journals part.
const APART: u8 = 1;

// Where journals part.
#[derive(Drop)]
enum Outcome {
    Alike(u64),
    Boots(Boot, Boot),
    Events(Parting),
}

type Read = (Boot, Journal);

// The boot numbers and the events of a journal's text, or the status.
fn history<S: System>(
    input: &Input<'_>,
    name: &str,
    text: &str,
    world: &mut World<S>,
) -> Result<Read, u8> {
    match read_history(input.alloc, text) {
        Ok(read) => Ok(read),
        Err(fault) => {
            let end = match fault.kind {
                JournalFaultKind::NoMemory => ViewEnd::NoMemory,
                _ => ViewEnd::AtFault(InputFault::NoJournal(fault)),
            };
            let files = Files {
                image: input.image,
                name,
                journal: text,
                out: STANDARD_OUTPUT,
            };
            Err(stopped(files, end, &mut world.errors))
        }
    }
}

fn compared(one: &Read, two: &Read) -> Outcome {
    if !are_like(one.0, two.0) {
        return Outcome::Boots(one.0, two.0);
    }
    match first_parting(&one.1, &two.1) {
        None => Outcome::Alike(one.1.len()),
        Some(parting) => Outcome::Events(parting),
    }
}

// The event where they part.
fn parts_of(outcome: &Outcome) -> Option<u64> {
    match outcome {
        Outcome::Alike(_) => None,
        Outcome::Boots(_, _) => Some(0),
        Outcome::Events(parting) => Some(parting.event),
    }
}

fn outcome_text(alloc: Global, names: Sides<'_>, outcome: &Outcome) -> Result<String, Refused> {
    match outcome {
        Outcome::Alike(events) => alike_text(alloc, *events),
        Outcome::Boots(one, two) => boots_text(alloc, names, one, two),
        Outcome::Events(parting) => parting_text(alloc, names, parting),
    }
}

// Writes where they part, unless a page says it or the picture is written there; returns 0, or the status of a failure.
fn tell<S: System>(input: &Input<'_>, other: &str, outcome: &Outcome, world: &mut World<S>) -> u8 {
    if !input.job.compares || input.job.out == Some(STANDARD_OUTPUT) {
        return 0;
    }
    let names = Sides {
        journal: input.job.journal,
        other,
    };
    let Ok(text) = outcome_text(input.alloc, names, outcome) else {
        return ended(PROGRAM, &Ending::NoMemory, &mut world.errors);
    };
    match write_all(&mut world.output, text.as_bytes()) {
        Ok(()) => 0,
        Err(fault) => ended(PROGRAM, &Ending::WriteFailed(fault), &mut world.errors),
    }
}

// Compares the journal with the text of another file, or returns the status.
fn outcome_of<S: System>(
    input: &Input<'_>,
    other: &str,
    text: &str,
    world: &mut World<S>,
) -> Result<Outcome, u8> {
    let one = history(input, input.job.journal, input.journal, world)?;
    let two = history(input, other, text, world)?;
    Ok(compared(&one, &two))
}

// Shows the run of the first, where a picture or characters are asked for; a page shows both.
fn show<S: System, M: Meter>(
    devices: Devices<AnyDevice>,
    input: &Input<'_>,
    other: Side<'_>,
    meter: &mut M,
    world: &mut World<S>,
) -> u8 {
    if !input.job.text && input.job.out.is_none() {
        return 0;
    }
    if input.job.is_page() {
        return show_page(devices, input, Some(other), meter, world);
    }
    show_run(devices, input, other.parts, meter, world)
}

// The status of a run that was shown with this status, beside another that it may part from.
fn status_of(input: &Input<'_>, outcome: &Outcome, shown: u8) -> u8 {
    match outcome {
        Outcome::Alike(_) => shown,
        _ if shown == 0 && input.job.compares => APART,
        _ => shown,
    }
}

/// Compares the journal with that of another file.
pub(crate) fn diff<S: System, M: Meter>(
    devices: Devices<AnyDevice>,
    input: &Input<'_>,
    other: &str,
    meter: &mut M,
    world: &mut World<S>,
) -> u8 {
    let text = match text_at(input.alloc, other, world) {
        Ok(text) => text,
        Err(status) => return status,
    };
    let outcome = match outcome_of(input, other, text.as_str(), world) {
        Ok(outcome) => outcome,
        Err(status) => return status,
    };
    let Ok(names) = names_of(input.alloc, input.image, text.as_str(), input.naming.image) else {
        return memory_refused(PROGRAM, world);
    };
    let told = tell(input, other, &outcome, world);
    if told != 0 {
        return told;
    }
    let side = Side {
        name: other,
        journal: text.as_str(),
        names: &names,
        parts: parts_of(&outcome),
    };
    let shown = show(devices, input, side, meter, world);
    status_of(input, &outcome, shown)
}
