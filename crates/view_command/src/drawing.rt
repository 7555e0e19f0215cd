//! A journal's run as a document, written to a sink.

ghost use Rattle.std.specs.Prelude.{◌≡◌, IfOk, OnOk};
ghost use Rattle.evm_streams.specs.Writes.{Took};
ghost use Rattle.view_command.specs.Viewing.{IsPictured, TellsRun};

use evm_devs::AnyDevice;
use evm_ram::Image;
use evm_room::NoMemory;
use evm_streams::{Meter, Sink, WriteFault, write_all};
use std::alloc::Global;
use view_picture::{
    Devices, InputFault, Picture, Timeline, Walk, WalkStop, Window, drawn, gather, written,
};

/// Why a run is not shown.
#[derive(Clone, Copy, Debug)]
pub enum ViewEnd {
    /// The journal, its boot numbers, the image or an event was bad or refused.
    AtFault(InputFault),
    /// Memory was refused.
    NoMemory,
    /// A write failed.
    WriteFailed(WriteFault),
}

impl From<NoMemory> for ViewEnd {
    fn from(_: NoMemory) -> ViewEnd {
        ViewEnd::NoMemory
    }
}

impl From<WalkStop> for ViewEnd {
    fn from(stop: WalkStop) -> ViewEnd {
        match stop {
            WalkStop::AtFault(fault) => ViewEnd::AtFault(fault),
            WalkStop::NoMemory => ViewEnd::NoMemory,
        }
    }
}

/// A window of a journal's run: the image, the journal's text, and the events.
#[derive(Clone, Copy)]
pub struct ViewedRun<'a> {
    pub image: &'a Image,
    pub journal: &'a str,
    pub window: Window,
}

/// The timeline of a window of a journal's run, on a machine with the devices and the image.
///
/// # Errors
///
/// The first fault, as a replay reports it; or memory was refused.
pub fn timeline_of<M: Meter>(
    alloc: Global,
    run: &ViewedRun<'_>,
    devices: Devices<AnyDevice>,
    meter: &mut M,
) -> Result<Timeline, ViewEnd>
    ensures { IfOk result (TellsRun devices run.now.image.now run.now.journal.now run.now.window) }
{
    let mut walk = Walk::start(alloc, run.image, devices, run.journal)?;
    let gathered = gather(alloc, &mut walk, run.window, meter);
    meter.ended();
    let timeline = gathered?;
    Ok(timeline)
}

/// Writes a text to a sink.
pub(crate) fn put<W: Sink>(sink: &mut W, text: &[u8]) -> Result<(), ViewEnd>
    ensures { OnOk result (Took W.takes sink.old text.now sink.new) }
{
    match write_all(sink, text) {
        Ok(()) => Ok(()),
        Err(fault) => Err(ViewEnd::WriteFailed(fault)),
    }
}

/// Draws a picture, and writes it to a sink.
///
/// # Errors
///
/// Memory was refused, or a write failed.
pub fn draw_to<W: Sink>(alloc: Global, picture: &Picture<'_>, sink: &mut W) -> Result<(), ViewEnd>
    ensures { OnOk result (IsPictured W.takes picture.now.timeline.now sink.old sink.new) }
{
    match drawn(alloc, picture) {
        Ok(bytes) => put(sink, bytes.as_slice()),
        Err(_) => Err(ViewEnd::NoMemory),
    }
}

/// Writes a picture in characters to a sink.
///
/// # Errors
///
/// Memory was refused, or a write failed.
pub fn write_to<W: Sink>(
    alloc: Global,
    picture: &Picture<'_>,
    sink: &mut W,
) -> Result<(), ViewEnd> {
    match written(alloc, picture) {
        Ok(text) => put(sink, text.as_bytes()),
        Err(_) => Err(ViewEnd::NoMemory),
    }
}
