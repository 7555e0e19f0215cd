//! A journal's run as a page, or two of them side by side.

ghost use Rattle.std.specs.Prelude.{◌≡◌, ◌≢◌, ◌++◌, IfErr, IfOk, List, OnOk, ℕ};
ghost use Rattle.std.specs.String.{string_bytes};
ghost use Rattle.view_command.specs.Viewing.{IsWritten, PagesRun};
ghost use Rattle.view_page.specs.Pages.{AddsRun, HoldsRun};

use crate::drawing::{ViewEnd, put};
use crate::reports::{Files, PROGRAM, STANDARD_OUTPUT, stopped};
use crate::showing::{Input, status};
use evm_devs::{AnyDevice, program_devices};
use evm_host::{Devices, Ending, Sink, System, World, ended, not_created};
use evm_streams::Meter;
use view_page::{About, ToldRun, page_head, push_journal, push_tail};
use view_picture::RunNames;

/// A journal whose run a page tells.
#[derive(Clone, Copy)]
pub(crate) struct Side<'a> {
    /// The name of its file.
    pub(crate) name: &'a str,
    /// Its text.
    pub(crate) journal: &'a str,
    /// The names of its tasks and objects.
    pub(crate) names: &'a RunNames,
    /// The event where it and another part.
    pub(crate) parts: Option<u64>,
}

// What the page says of a run.
fn run_of<'a>(input: &Input<'a>, side: Side<'a>) -> ToldRun<'a>
    ensures image { result.image.now ≡ input.now.image.now }
    ensures journal { result.journal.now ≡ side.entry.journal.now }
{
    let about = About {
        image: input.job.image,
        journal: side.name,
        program: input.naming.image,
        names: side.names,
        from: input.window.from,
        to: input.window.to,
        parts: side.parts,
    };
    ToldRun {
        about,
        image: input.image,
        journal: side.journal,
    }
}

// The files that a run is about.
fn files_of<'a>(input: &Input<'a>, side: Side<'a>) -> Files<'a> {
    Files {
        image: input.image,
        name: side.name,
        journal: side.journal,
        out: input.job.out.unwrap_or(STANDARD_OUTPUT),
    }
}

fn no_memory<E: Sink>(errors: &mut E) -> u8
    ensures { result ≡ 1 }
{
    ended(PROGRAM, &Ending::NoMemory, errors)
}

// Appends the run of a journal.
fn tell<M: Meter>(
    page: &mut String,
    devices: Devices<AnyDevice>,
    input: &Input<'_>,
    side: Side<'_>,
    meter: &mut M,
) -> Result<(), ViewEnd>
    ensures { OnOk result (AddsRun devices input.now.image.now side.entry.journal.now (string_bytes page.old) (string_bytes page.new)) }
{
    let run = run_of(input, side);
    let outcome = push_journal(input.alloc, page, devices, &run, meter);
    meter.ended();
    outcome?;
    Ok(())
}

// Appends the run of another journal, if there is one, on a machine with devices of its own, or returns the status.
#[tactic(auto, using(crate::proofs::Pages::added, crate::proofs::Pages::nothing, crate::proofs::Statuses::never_zero))]
fn tell_other<M: Meter, E: Sink>(
    page: &mut String,
    input: &Input<'_>,
    other: Option<Side<'_>>,
    meter: &mut M,
    errors: &mut E,
) -> Result<(), u8>
    ensures adds { OnOk result ((back : List ℕ) × (string_bytes page.new ≡ string_bytes page.old ++ back)) }
    ensures status { IfErr result (λ status. status ≢ 0) }
{
    let Some(other) = other else {
        return Ok(());
    };
    let Ok(devices) = program_devices(input.alloc) else {
        return Err(no_memory(errors));
    };
    match tell(page, devices, input, other, meter) {
        Ok(()) => Ok(()),
        Err(end) => Err(stopped(files_of(input, other), end, errors)),
    }
}

// What stands in a page behind its first run, or the status.
#[tactic(auto, using(crate::proofs::Pages::both))]
fn with_rest<M: Meter, E: Sink>(
    mut page: String,
    input: &Input<'_>,
    other: Option<Side<'_>>,
    meter: &mut M,
    errors: &mut E,
) -> Result<String, u8>
    ensures adds { IfOk result (λ whole. (back : List ℕ) × (string_bytes whole ≡ string_bytes page ++ back)) }
    ensures status { IfErr result (λ status. status ≢ 0) }
{
    tell_other(&mut page, input, other, meter, errors)?;
    match push_tail(&mut page) {
        Ok(()) => Ok(page),
        Err(_) => Err(no_memory(errors)),
    }
}

// The page of a run, and of another beside it, or the status.
#[tactic(auto, using(crate::proofs::Statuses::never_zero))]
fn page_of<M: Meter, E: Sink>(
    devices: Devices<AnyDevice>,
    input: &Input<'_>,
    sides: (Side<'_>, Option<Side<'_>>),
    meter: &mut M,
    errors: &mut E,
) -> Result<String, u8>
    ensures run { IfOk result (λ page. HoldsRun devices input.now.image.now sides.entry.0.journal.now (string_bytes page)) }
    ensures status { IfErr result (λ status. status ≢ 0) }
{
    let Ok(mut page) = page_head(input.alloc) else {
        return Err(no_memory(errors));
    };
    match tell(&mut page, devices, input, sides.0, meter) {
        Err(end) => Err(stopped(files_of(input, sides.0), end, errors)),
        Ok(()) => with_rest(page, input, sides.1, meter, errors),
    }
}

// Writes a page to OUT.
fn write_page<S: System>(files: Files<'_>, page: &str, world: &mut World<S>) -> u8
    ensures { result ≡ 0 → IsWritten S.creates S.Created.takes S.Output.takes page.now world.old world.new }
{
    if files.out == STANDARD_OUTPUT {
        let end = put(&mut world.output, page.as_bytes());
        return status(files, end, &mut world.errors);
    }
    match world.files.create(files.out) {
        Err(fault) => not_created(files.out, fault, &mut world.errors),
        Ok(mut file) => {
            let end = put(&mut file, page.as_bytes());
            status(files, end, &mut world.errors)
        }
    }
}

/// Replays the journal, and another if there is one, and writes the page of both.
pub(crate) fn show_page<S: System, M: Meter>(
    devices: Devices<AnyDevice>,
    input: &Input<'_>,
    other: Option<Side<'_>>,
    meter: &mut M,
    world: &mut World<S>,
) -> u8
    ensures { result ≡ 0 → PagesRun S.creates S.Created.takes S.Output.takes devices input.now.image.now input.now.journal.now world.old world.new }
{
    let side = Side {
        name: input.job.journal,
        journal: input.journal,
        names: input.naming.run,
        parts: match other {
            Some(other) => other.parts,
            None => None,
        },
    };
    match page_of(devices, input, (side, other), meter, &mut world.errors) {
        Ok(page) => write_page(files_of(input, side), page.as_str(), world),
        Err(status) => status,
    }
}
