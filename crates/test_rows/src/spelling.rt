//! How the lines of a file spell texts and images.

use std::alloc::{AllocError, Global};
use std::io;

/// The bytes that hexadecimal digits spell.
pub(crate) fn bytes_spelled(alloc: Global, digits: &str) -> io::Result<Vec<u8>> {
    match hex::decode(alloc, digits) {
        Ok(bytes) => Ok(bytes),
        Err(_) => Err(io::ErrorKind::InvalidData.into()),
    }
}

/// The text that a line spells: `\n` is a newline, `\r` a carriage return and `\t` a tab.
pub(crate) fn unescaped(alloc: Global, line: &str) -> Result<String, AllocError> {
    let text = line.replace(alloc, "\\n", "\n")?;
    let text = text.replace(alloc, "\\r", "\r")?;
    text.replace(alloc, "\\t", "\t")
}

// Puts bytes into a file, from a place on.
fn put(file: &mut [u8], place: u8, bytes: &[u8]) {
    for (old, new) in file.iter_mut().skip(usize::from(place)).zip(bytes) {
        *old = *new;
    }
}

// Changes a file as a word says, `PLACE:BYTES` in hexadecimal digits.
fn patch(alloc: Global, file: &mut [u8], word: &str) -> io::Result<()> {
    let Some((place, bytes)) = word.split_once(':') else {
        return Err(io::ErrorKind::InvalidData.into());
    };
    let bytes = bytes_spelled(alloc, bytes)?;
    match *bytes_spelled(alloc, place)?.as_slice() {
        [place] => Ok(put(file, place, bytes.as_slice())),
        _ => Err(io::ErrorKind::InvalidData.into()),
    }
}

/// The file that a line makes of this one.
pub(crate) fn patched(alloc: Global, file: &[u8], line: &str) -> io::Result<Vec<u8>> {
    let mut file = Vec::from_slice(alloc, file)?;
    for word in line.split(' ') {
        patch(alloc, file.as_mut_slice(), word)?;
    }
    Ok(file)
}
