//! An image run by worker threads.

ghost use Rattle.std.specs.Prelude.{◌≡◌};
ghost use Rattle.evm_command.specs.Workers.{Ends, IsOutcome, loaded_machine, run_boot};

use crate::outcome::{Outcome, RunEnding};
use crate::sharing::share;
use crate::writing::write;
use evm_dev::Device;
use evm_journal::{Boot, Devices, Machine};
use evm_model::CAPACITY_LIMIT;
use evm_ram::Image;
use evm_shared::Blanks;
use evm_streams::Sink;
use std::alloc::Global;
use std::marker::Brand;
use std::sync::Wait;
use std::thread::Threads;

// The numbers with which the machine boots.
fn run_boot() -> Boot
    ensures { result ≡ run_boot }
{
    Boot::newest(2, 1_048_576, CAPACITY_LIMIT)
}

// What a run comes to.
fn run<D: Device, R: Threads + Wait + Sync>(
    rt: &R,
    alloc: Global,
    image: &Image,
    turns: u32,
    devices: Devices<D>,
    blanks: Blanks,
) -> Outcome
    requires { (blanks.steps.parts ≡ 2) × (blanks.bells.parts ≡ 2) × (blanks.others.parts ≡ 2) }
    ensures { IsOutcome turns (loaded_machine devices image.now) result }
{
    let Ok(mut machine) = Machine::from_boot(alloc, run_boot(), devices) else {
        return Outcome::NoMemory;
    };
    match machine.load(image) {
        Err(_) => Outcome::ImageRefused,
        Ok(()) => share::<D, Brand, Brand, Brand, Brand, R>(rt, alloc, machine, turns, blanks),
    }
}

/// Boots 2 processors with 1,048,576 bytes of RAM and room for 1,048,576 events, loads an image, rings line 8 of both
/// processors, and runs a worker for each, in a thread of its own, for a number of turns. Then writes the text of the
/// journal; or `refused 2 6` where the image is not loaded, or `memory` where memory was refused. The ending says whether
/// all turns were made: then the journal has a Step at least of each turn of each worker, and a Bell of each line rung. If
/// not, it says whether the journal has room for fewer events than there are lines. A turn makes at most 65 Steps, 64 of
/// which were done ahead: the journal has room for 8,000 turns.
pub fn threads_to<W: Sink, D: Device, R: Threads + Wait + Sync>(
    rt: &R,
    alloc: Global,
    image: &Image,
    turns: u32,
    devices: Devices<D>,
    blanks: Blanks,
    out: &mut W,
) -> RunEnding
    requires { (blanks.steps.parts ≡ 2) × (blanks.bells.parts ≡ 2) × (blanks.others.parts ≡ 2) }
    ensures { Ends W.takes turns (loaded_machine devices image.now) out.old out.new result }
{
    let outcome = run(rt, alloc, image, turns, devices, blanks);
    write(&outcome, out)
}
