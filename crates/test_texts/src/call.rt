//! What a call is given.

use evm_text::{decimal_last, hexadecimal_last};
use std::alloc::Global;
use std::io::{self, ErrorKind};

/// What a call is given: the bytes of its file, none where it names none, and those of its argument.
#[derive(Drop)]
pub(crate) struct Call<'a> {
    pub(crate) alloc: Global,
    pub(crate) file: &'a [u8],
    pub(crate) argument: &'a [u8],
}

impl<'a> Call<'a> {
    /// The argument as text.
    pub(crate) fn text(&self) -> io::Result<&'a str> {
        text_of(self.argument)
    }

    /// A source: the file, where there is one, or else the argument.
    pub(crate) fn source(&self) -> io::Result<&'a str> {
        if self.file.is_empty() {
            text_of(self.argument)
        } else {
            text_of(self.file)
        }
    }

    /// The argument before the first bar, and behind it.
    pub(crate) fn halves(&self) -> io::Result<(&'a str, &'a str)> {
        self.text()?
            .split_once('|')
            .ok_or(ErrorKind::InvalidInput.into())
    }
}

/// Bytes as text.
pub(crate) fn text_of(bytes: &[u8]) -> io::Result<&str> {
    match str::from_utf8(bytes) {
        Ok(text) => Ok(text),
        Err(_) => Err(ErrorKind::InvalidData.into()),
    }
}

/// A decimal number.
pub(crate) fn decimal(word: &str) -> io::Result<u64> {
    decimal_last(word.as_bytes()).ok_or(ErrorKind::InvalidInput.into())
}

/// A hexadecimal number.
pub(crate) fn hexadecimal(word: &str) -> io::Result<u64> {
    hexadecimal_last(word.as_bytes()).ok_or(ErrorKind::InvalidInput.into())
}

/// A hexadecimal word of 32 bits.
pub(crate) fn word_of(word: &str) -> io::Result<u32> {
    u32::try_from(hexadecimal(word)?).map_err(|_| ErrorKind::InvalidInput.into())
}

/// The two sides of a word with this mark in it.
pub(crate) fn sides(mark: char, word: &str) -> io::Result<(&str, &str)> {
    word.split_once(mark).ok_or(ErrorKind::InvalidInput.into())
}

/// Memory that was refused, as a failure of the program.
pub(crate) fn given<T: Drop, E: Drop>(made: Result<T, E>) -> io::Result<T> {
    match made {
        Ok(made) => Ok(made),
        Err(_) => Err(ErrorKind::OutOfMemory.into()),
    }
}

fn digit(byte: u8) -> io::Result<u8> {
    match byte {
        b'0'..=b'9' => Ok(byte - b'0'),
        b'a'..=b'f' => Ok(byte - b'a' + 10),
        _ => Err(ErrorKind::InvalidInput.into()),
    }
}

// Appends what follows a backslash.
fn push_escape(bytes: &mut Vec<u8>, piece: &[u8]) -> io::Result<()> {
    let (byte, rest) = match piece {
        [b'n', rest @ ..] => (b'\n', rest),
        [b't', rest @ ..] => (b'\t', rest),
        [b'r', rest @ ..] => (b'\r', rest),
        [b'x', high, low, rest @ ..] => {
            let high = digit(*high)?.wrapping_mul(16);
            (high.wrapping_add(digit(*low)?), rest)
        }
        _ => return Err(ErrorKind::InvalidInput.into()),
    };
    bytes.push(byte)?;
    bytes.extend_from_slice(rest)?;
    Ok(())
}

/// The bytes that a text stands for.
pub(crate) fn unescaped(alloc: Global, text: &str) -> io::Result<Vec<u8>> {
    let mut bytes = Vec::new(alloc);
    let mut is_first = true;
    for piece in text.split('\\') {
        if is_first {
            bytes.extend_from_slice(piece.as_bytes())?;
            is_first = false;
        } else {
            push_escape(&mut bytes, piece.as_bytes())?;
        }
    }
    Ok(bytes)
}
