//! A journal's run, shown as the words ask for.

ghost use Rattle.std.specs.Prelude.{◌≡◌, ◌≢◌, OnErr, false};
ghost use Rattle.view_command.specs.Viewing.{DrawsRun, IsDrawn};

use crate::drawing::{ViewEnd, ViewedRun, draw_to, timeline_of, write_to};
use crate::reports::{Files, STANDARD_OUTPUT, stopped};
use crate::words::Job;
use evm_devs::AnyDevice;
use evm_host::{Devices, Sink, System, World, not_created};
use evm_ram::Image;
use evm_streams::Meter;
use std::alloc::Global;
use view_picture::{Naming, Picture, Timeline, Window};

/// What is read of the files of a job.
#[derive(Clone, Copy)]
pub(crate) struct Input<'a> {
    pub(crate) alloc: Global,
    pub(crate) job: Job<'a>,
    pub(crate) image: &'a Image,
    pub(crate) naming: Naming<'a>,
    /// Which events of the run are shown.
    pub(crate) window: Window,
    /// The text of the journal.
    pub(crate) journal: &'a str,
}

/// The status of a run: 0 if it was shown.
#[tactic(auto, using(crate::proofs::Statuses::never_zero))]
pub(crate) fn status<E: Sink>(files: Files<'_>, end: Result<(), ViewEnd>, errors: &mut E) -> u8
    ensures { OnErr end (result ≢ 0) }
{
    match end {
        Ok(()) => 0,
        Err(end) => stopped(files, end, errors),
    }
}

// Draws a picture to OUT.
fn draw<S: System>(
    alloc: Global,
    files: Files<'_>,
    picture: &Picture<'_>,
    world: &mut World<S>,
) -> u8
    ensures { result ≡ 0 → IsDrawn S.creates S.Created.takes S.Output.takes files.entry.out.now picture.now.timeline.now world.old world.new }
{
    if files.out == STANDARD_OUTPUT {
        let end = draw_to(alloc, picture, &mut world.output);
        return status(files, end, &mut world.errors);
    }
    match world.files.create(files.out) {
        Err(fault) => not_created(files.out, fault, &mut world.errors),
        Ok(mut file) => {
            let end = draw_to(alloc, picture, &mut file);
            status(files, end, &mut world.errors)
        }
    }
}

// Shows a timeline: in characters, or as a picture.
fn show_timeline<S: System>(
    input: &Input<'_>,
    files: Files<'_>,
    timeline: &Timeline,
    parts: Option<u64>,
    world: &mut World<S>,
) -> u8
    ensures { input.now.job.text ≡ false → result ≡ 0 → IsDrawn S.creates S.Created.takes S.Output.takes files.entry.out.now timeline.now world.old world.new }
{
    let picture = Picture {
        timeline,
        naming: input.naming,
        parts,
        mutexes: input.job.mutexes,
    };
    if input.job.text {
        let end = write_to(input.alloc, &picture, &mut world.output);
        return status(files, end, &mut world.errors);
    }
    draw(input.alloc, files, &picture, world)
}

/// Replays the journal, and shows its run: in characters, or as a picture. The event where it and another part is marked.
pub(crate) fn show_run<S: System, M: Meter>(
    devices: Devices<AnyDevice>,
    input: &Input<'_>,
    parts: Option<u64>,
    meter: &mut M,
    world: &mut World<S>,
) -> u8
    ensures { input.now.job.text ≡ false → result ≡ 0 → DrawsRun S.creates S.Created.takes S.Output.takes devices input.now.image.now input.now.journal.now input.now.window world.old world.new }
{
    let job = input.job;
    let files = Files {
        image: input.image,
        name: job.journal,
        journal: input.journal,
        out: job.out.unwrap_or(STANDARD_OUTPUT),
    };
    let run = ViewedRun {
        image: input.image,
        journal: input.journal,
        window: input.window,
    };
    match timeline_of(input.alloc, &run, devices, meter) {
        Ok(timeline) => show_timeline(input, files, &timeline, parts, world),
        Err(end) => stopped(files, end, &mut world.errors),
    }
}
