//! `replay`: a journal replayed on an image.

ghost use Rattle.evm_command.specs.Jobs.{ReplaysText, ReplaysJournal, Replays};

use evm_dev::Device;
use evm_host::{
    Devices, Input, RunOptions, System, World, ended_with, image_at, not_opened, not_read,
    read_utf8, replay_text,
};
use evm_ram::Image;
use std::alloc::Global;

// Replays the text of a journal with devices and an image.
fn replay_read<S: System, D: Device>(
    alloc: Global,
    devices: Devices<D>,
    image: &Image,
    journal: &str,
    text: &str,
    world: &mut World<S>,
) -> u8
    ensures { ReplaysText S.Output.takes S.Errors.takes devices journal.now image.now text.now world.old world.new result }
{
    let options = RunOptions {
        image: Some(image),
        devices,
    };
    let ending = replay_text(alloc, options, text, &mut world.output);
    let input = Input::Lines(Some(image), text.as_bytes());
    ended_with(input, journal, &ending, &mut world.errors)
}

// Replays the journal of a file with devices and an image.
fn replay_on<S: System, D: Device>(
    alloc: Global,
    devices: Devices<D>,
    image: &Image,
    journal: &str,
    world: &mut World<S>,
) -> u8
    ensures { ReplaysJournal S.opens S.Opened.gives S.Output.takes S.Errors.takes devices journal.now image.now world.old world.new result }
{
    let mut file = match world.files.open(journal) {
        Ok(file) => file,
        Err(fault) => return not_opened(journal, fault, &mut world.errors),
    };
    match read_utf8(alloc, &mut file) {
        Ok(text) => replay_read(alloc, devices, image, journal, text.as_str(), world),
        Err(stop) => not_read(stop, journal, world),
    }
}

/// Replays the journal of a file with devices and the image of another, which is opened and imported first.
pub(crate) fn replay<S: System, D: Device>(
    alloc: Global,
    devices: Devices<D>,
    image: &str,
    journal: &str,
    world: &mut World<S>,
) -> u8
    ensures { Replays S.opens S.Opened.gives S.Output.takes S.Errors.takes devices image.now journal.now world.old world.new result }
{
    match image_at(alloc, image, world) {
        Ok(image) => replay_on(alloc, devices, &image, journal, world),
        Err(status) => status,
    }
}
