//! The image and the text of the files that the words name.

ghost use Rattle.std.specs.Prelude.{MatchResult, Result};
ghost use Rattle.std.specs.String.{string_bytes};
ghost use Rattle.evm_host.specs.Asks.{ImportsBytes, Loads, LoadsText};

use crate::exit::{Input, ended_with, not_opened, not_read};
use crate::system::{System, World};
use evm_ram::Image;
use evm_serve::{import_bytes, read_all, read_utf8};
use std::alloc::Global;

// The image of the bytes of a file.
fn image_in<S: System>(
    alloc: Global,
    path: &str,
    file: &[u8],
    world: &mut World<S>,
) -> Result<Image, u8>
    ensures { ImportsBytes S.Output.takes S.Errors.takes path.now file.now world.old world.new result }
{
    match import_bytes(alloc, file, &mut world.output) {
        Ok(image) => Ok(image),
        Err(ending) => Err(ended_with(Input::File(file), path, &ending, &mut world.errors)),
    }
}

/// The image of a file.
///
/// # Errors
///
/// The status of the job, where the file can't be opened or read or has a fault.
pub fn image_at<S: System>(alloc: Global, path: &str, world: &mut World<S>) -> Result<Image, u8>
    ensures { Loads S.opens S.Opened.gives S.Output.takes S.Errors.takes path.now world.old world.new result }
{
    let mut file = match world.files.open(path) {
        Ok(file) => file,
        Err(fault) => return Err(not_opened(path, fault, &mut world.errors)),
    };
    match read_all(alloc, &mut file) {
        Ok(bytes) => image_in(alloc, path, bytes.as_slice(), world),
        Err(stop) => Err(not_read(stop, path, world)),
    }
}

/// The text of a file.
///
/// # Errors
///
/// The status of the job, where the file can't be opened or read, has more than 16,777,216 bytes or isn't UTF-8.
pub fn text_at<S: System>(alloc: Global, path: &str, world: &mut World<S>) -> Result<String, u8>
    ensures { MatchResult result (λ text. LoadsText S.opens S.Opened.gives S.Output.takes S.Errors.takes path.now world.old world.new (Result.Ok (string_bytes text))) (λ status. LoadsText S.opens S.Opened.gives S.Output.takes S.Errors.takes path.now world.old world.new (Result.Err status)) }
{
    let mut file = match world.files.open(path) {
        Ok(file) => file,
        Err(fault) => return Err(not_opened(path, fault, &mut world.errors)),
    };
    match read_utf8(alloc, &mut file) {
        Ok(text) => Ok(text),
        Err(stop) => Err(not_read(stop, path, world)),
    }
}
