//! What a run is given.

use evm_devs::Pins;
use evm_diagnostics::Devices;
use evm_elf::{PROGRAM_MAX, read_image, write_bytes};
use evm_ram::Image;
use evm_serve::RunOptions;
use std::alloc::Global;
use std::process::Abort;
use std::test::Fail;

/// The options of a run: an image or none, and no devices.
pub(crate) fn options<'a>(
    rt: &impl Abort,
    alloc: Global,
    image: Option<&'a Image>,
) -> RunOptions<'a, Pins> {
    let Ok(devices) = Devices::new(alloc) else {
        panic!(rt; "no memory for devices")
    };
    RunOptions { image, devices }
}

/// The file of a program of these bytes, at the start of RAM.
pub(crate) fn file_of(alloc: Global, bytes: &[u8]) -> Result<Vec<u8>, Fail> {
    if bytes.len() > PROGRAM_MAX {
        return Err(Fail::from("too many bytes"));
    }
    Ok(write_bytes(alloc, bytes)?)
}

/// The image of a program of no bytes.
pub(crate) fn no_image(alloc: Global) -> Result<Image, Fail> {
    let file = file_of(alloc, b"")?;
    Ok(read_image(alloc, file.as_slice())?)
}
