//! The names of a journal's run.

use evm_devs::program_devices;
use evm_ram::Image;
use evm_room::NoMemory;
use std::alloc::Global;
use view_picture::{Names, RunNames};

/// The names of the tasks and objects of a journal's run.
///
/// # Errors
///
/// Memory was refused.
pub(crate) fn names_of(
    alloc: Global,
    image: &Image,
    journal: &str,
    names: &Names,
) -> Result<RunNames, NoMemory> {
    let devices = program_devices(alloc)?;
    RunNames::of_journal(alloc, image, devices, journal, names)
}
