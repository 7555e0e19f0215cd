//! `threads`: the image of a file run by worker threads.

ghost use Rattle.std.specs.Prelude.{◌≡◌};
ghost use Rattle.evm_command.specs.ThreadRuns.{ExplainsRun, RunsByThreads, RunsFileByThreads};

use crate::outcome::RunEnding;
use crate::workers::threads_to;
use evm_dev::Device;
use evm_host::{
    Devices, Message, OUTPUT, Sink, System, World, failed_write_message, image_at, report,
};
use evm_ram::Image;
use evm_shared::{BlankHistory, Blanks};
use std::alloc::Global;
use std::sync::Wait;
use std::sync::ledger::Blank;
use std::thread::Threads;

// The ledgers of a run, which has two workers.
fn blanks() -> Blanks
    ensures { (result.steps.parts ≡ 2) × (result.bells.parts ≡ 2) × (result.others.parts ≡ 2) }
{
    Blanks {
        steps: Blank::new(2),
        bells: Blank::new(2),
        others: Blank::new(2),
        history: BlankHistory::new(),
    }
}

// Reports why a run did not end well.
fn explain_run<E: Sink>(path: &str, ending: RunEnding, errors: &mut E)
    ensures { ExplainsRun E.takes path.now ending errors.old errors.new }
{
    match ending {
        RunEnding::Written => {}
        RunEnding::Incomplete => report(
            path,
            Message::Plain("the journal has no room for all turns"),
            errors,
        ),
        RunEnding::Lost => report(
            path,
            Message::Plain("a turn or a ring is missing, though the journal has room"),
            errors,
        ),
        RunEnding::ImageRefused => report(
            path,
            Message::Plain("memory of a segment ends past RAM of 1048576 bytes"),
            errors,
        ),
        RunEnding::NoMemory => report(path, Message::Plain("out of memory"), errors),
        RunEnding::WriteFailed(fault) => report(
            OUTPUT,
            Message::Plain(failed_write_message(fault.cause)),
            errors,
        ),
    }
}

// Runs an image by threads, with devices in the machine.
fn run_image<S: System, D: Device, R: Threads + Wait + Sync>(
    rt: &R,
    alloc: Global,
    devices: Devices<D>,
    path: &str,
    image: &Image,
    turns: u32,
    world: &mut World<S>,
) -> u8
    ensures { RunsByThreads S.Output.takes S.Errors.takes devices path.now turns image.now world.old world.new result }
{
    let ending = threads_to(
        rt,
        alloc,
        image,
        turns,
        devices,
        blanks(),
        &mut world.output,
    );
    explain_run(path, ending, &mut world.errors);
    ending.status()
}

/// Runs the image of a file by threads, with devices in the machine, for TURNS turns each.
pub(crate) fn run_by_threads<S: System, D: Device, R: Threads + Wait + Sync>(
    rt: &R,
    alloc: Global,
    devices: Devices<D>,
    path: &str,
    turns: u32,
    world: &mut World<S>,
) -> u8
    ensures { RunsFileByThreads S.opens S.Opened.gives S.Output.takes S.Errors.takes devices path.now turns world.old world.new result }
{
    match image_at(alloc, path, world) {
        Ok(image) => run_image(rt, alloc, devices, path, &image, turns, world),
        Err(status) => status,
    }
}
