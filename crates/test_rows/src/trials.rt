//! Texts that are tried one after another: what is tried, what it writes and its status stand on one page.

use crate::engine::{Outcome, imported, replayed, served, served_with};
use crate::spelling::{patched, unescaped};
use evm_ram::Image;
use std::alloc::{AllocError, Global};
use std::io;

/// What a text is.
#[derive(Clone, Copy, Debug)]
pub(crate) enum Kind {
    Script,
    Journal,
}

fn tried(alloc: Global, kind: Kind, image: &Image, text: &[u8]) -> Outcome {
    match kind {
        Kind::Script => served(alloc, Some(image), text),
        Kind::Journal => replayed(alloc, image, text),
    }
}

// Appends what is tried, what it writes and its status.
fn push_trial(
    alloc: Global,
    page: &mut Vec<u8>,
    tried: &str,
    outcome: &Outcome,
) -> Result<(), AllocError> {
    let status = outcome.status;
    let head = format!(in alloc; "$ {tried}\n")?;
    let foot = format!(in alloc; "status {status}\n")?;
    page.extend_from_slice(head.as_bytes())?;
    page.extend_from_slice(outcome.text.as_slice())?;
    page.extend_from_slice(foot.as_bytes())
}

/// Tries each line as a text.
pub(crate) fn try_texts(
    alloc: Global,
    kind: Kind,
    image: &Image,
    lines: &str,
) -> io::Result<Vec<u8>> {
    let mut page = Vec::new(alloc);
    for line in lines.lines() {
        let text = unescaped(alloc, line)?;
        let outcome = tried(alloc, kind, image, text.as_bytes());
        push_trial(alloc, &mut page, line, &outcome)?;
    }
    Ok(page)
}

/// Replays a journal cut behind each of its bytes.
pub(crate) fn try_cuts(alloc: Global, image: &Image, journal: &[u8]) -> io::Result<Vec<u8>> {
    let mut page = Vec::new(alloc);
    for count in 0..=journal.len() {
        let outcome = replayed(alloc, image, &journal[..count]);
        let title = format!(in alloc; "{count} bytes")?;
        push_trial(alloc, &mut page, title.as_str(), &outcome)?;
    }
    Ok(page)
}

/// Runs a script with the image that each line makes of a file.
pub(crate) fn try_patches(
    alloc: Global,
    file: &[u8],
    lines: &str,
    script: &[u8],
) -> io::Result<Vec<u8>> {
    let mut page = Vec::new(alloc);
    for line in lines.lines() {
        let file = patched(alloc, file, line)?;
        let image = imported(alloc, file.as_slice());
        let outcome = served_with(alloc, image, script);
        push_trial(alloc, &mut page, line, &outcome)?;
    }
    Ok(page)
}
