//! What a command line writes and answers, through the calls that `evltool` makes.

use evm_devs::{AnyDevice, Console, MailRing, Pins};
use evm_ram::Image;
use evm_serve::{
    Devices, Ending, ReadStop, RunOptions, assemble_to, import, read_utf8, replay_to, serve,
};
use std::alloc::Global;

/// What is written, and the status.
#[derive(Drop)]
pub(crate) struct Outcome {
    pub(crate) text: Vec<u8>,
    pub(crate) status: u8,
}

impl Outcome {
    fn new(text: Vec<u8>, ending: &Ending) -> Self {
        let status = ending.status();
        Outcome { text, status }
    }
}

/// The image file of a source, and what `asm` writes on standard output.
pub(crate) fn assembled(alloc: Global, source: &[u8]) -> (Vec<u8>, Outcome) {
    let mut file = Vec::new(alloc);
    let mut text = Vec::new(alloc);
    let mut reader = source;
    let ending = match read_utf8(alloc, &mut reader) {
        Ok(source) => assemble_to(alloc, source.as_str(), &mut file, &mut text),
        Err(ReadStop::Fault(fault)) => Ending::ReadFailed(fault),
        Err(ReadStop::NoMemory) => Ending::NoMemory,
    };
    (file, Outcome::new(text, &ending))
}

/// The image of a file, or how a run of it ends if it has none.
pub(crate) fn imported(alloc: Global, file: &[u8]) -> Result<Image, Outcome> {
    let mut text = Vec::new(alloc);
    let mut reader = file;
    match import(alloc, &mut reader, &mut text) {
        Ok(image) => Ok(image),
        Err(ending) => Err(Outcome::new(text, &ending)),
    }
}

/// The image of a source, or how assembling or reading it ends if it has none.
pub(crate) fn image_of(alloc: Global, source: &[u8]) -> Result<Image, Outcome> {
    let (file, report) = assembled(alloc, source);
    if report.status != 0 {
        return Err(report);
    }
    imported(alloc, file.as_slice())
}

// The devices of `evltool`: a console, a mailbox and pins. None where there is no memory for them.
fn devices_of(alloc: Global) -> Option<Devices<AnyDevice>> {
    let Ok(mut devices) = Devices::new(alloc) else {
        return None;
    };
    devices.push(AnyDevice::Console(Console::new(alloc).ok()?));
    devices.push(AnyDevice::MailRing(MailRing::new(alloc).ok()?));
    devices.push(AnyDevice::Pins(Pins::new()));
    Some(devices)
}

/// What a script writes.
pub(crate) fn served(alloc: Global, image: Option<&Image>, script: &[u8]) -> Outcome {
    let mut text = Vec::new(alloc);
    let Some(devices) = devices_of(alloc) else {
        return Outcome::new(text, &Ending::NoMemory);
    };
    let mut reader = script;
    let ending = serve(alloc, &mut reader, &mut text, RunOptions { image, devices });
    Outcome::new(text, &ending)
}

/// What a script writes with an image.
pub(crate) fn served_with(alloc: Global, image: Result<Image, Outcome>, script: &[u8]) -> Outcome {
    match image {
        Ok(image) => served(alloc, Some(&image), script),
        Err(outcome) => outcome,
    }
}

/// What the replay of a journal writes.
pub(crate) fn replayed(alloc: Global, image: &Image, journal: &[u8]) -> Outcome {
    let mut text = Vec::new(alloc);
    let Some(devices) = devices_of(alloc) else {
        return Outcome::new(text, &Ending::NoMemory);
    };
    let options = RunOptions {
        image: Some(image),
        devices,
    };
    let mut reader = journal;
    let ending = replay_to(alloc, options, &mut reader, &mut text);
    Outcome::new(text, &ending)
}

/// What the replay of a journal writes with an image.
pub(crate) fn replayed_with(
    alloc: Global,
    image: Result<Image, Outcome>,
    journal: &[u8],
) -> Outcome {
    match image {
        Ok(image) => replayed(alloc, &image, journal),
        Err(outcome) => outcome,
    }
}

/// What the replay of that writes which a script writes with an image.
pub(crate) fn saved_with(alloc: Global, image: Result<Image, Outcome>, script: &[u8]) -> Outcome {
    match image {
        Ok(image) => {
            let saved = served(alloc, Some(&image), script);
            replayed(alloc, &image, saved.text.as_slice())
        }
        Err(outcome) => outcome,
    }
}
