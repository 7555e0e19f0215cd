//! The files of a folder of rows.

use crate::spelling::bytes_spelled;
use std::alloc::{AllocError, Global};
use std::rt::Files;
use std::{fs, io};

// The path of a file: the folder, the row's name, and what the file is.
fn path_of(alloc: Global, folder: &str, name: &str, kind: &str) -> Result<String, AllocError> {
    format!(in alloc; "{folder}/{name}.{kind}")
}

/// The bytes of a row's file.
pub(crate) fn bytes_of(
    rt: &(impl Files + AllocGlobal),
    folder: &str,
    name: &str,
    kind: &str,
) -> io::Result<Vec<u8>> {
    fs::read(rt, path_of(rt.alloc(), folder, name, kind)?)
}

/// The text of a row's file.
pub(crate) fn text_of(
    rt: &(impl Files + AllocGlobal),
    folder: &str,
    name: &str,
    kind: &str,
) -> io::Result<String> {
    fs::read_to_string(rt, path_of(rt.alloc(), folder, name, kind)?)
}

/// Whether a row has such a file.
pub(crate) fn has(
    rt: &(impl Files + AllocGlobal),
    folder: &str,
    name: &str,
    kind: &str,
) -> io::Result<bool> {
    fs::exists(rt, path_of(rt.alloc(), folder, name, kind)?)
}

/// The bytes that a row's file spells in hexadecimal digits, in the lines that are no comments.
pub(crate) fn spelled_bytes(
    rt: &(impl Files + AllocGlobal),
    folder: &str,
    name: &str,
) -> io::Result<Vec<u8>> {
    let text = text_of(rt, folder, name, "hex")?;
    let mut bytes = Vec::new(rt.alloc());
    for line in text.lines().filter(|line| !line.starts_with('#')) {
        let part = bytes_spelled(rt.alloc(), line)?;
        bytes.extend_from_slice(part.as_slice())?;
    }
    Ok(bytes)
}
