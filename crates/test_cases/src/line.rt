//! The lines of a session.

use gdb_packets::read_digits;
use std::alloc::Global;
use std::io;

/// What a line of a session says.
#[derive(Clone, Copy, Debug, PartialEq, Eq)]
pub(crate) enum Line<'a> {
    /// The next session begins.
    Session,
    /// GDB sends a packet.
    Packet(&'a str),
    /// GDB sends bytes.
    Bytes(&'a str),
    /// A packet answers.
    Answer(&'a str),
    /// Bytes answer.
    AnswerBytes(&'a str),
    /// A setting, or a line of a script.
    Setting(&'a str),
}

// What is behind a mark and a blank; nothing where the mark is all of the line.
fn behind<'a>(line: &'a str, mark: &str) -> Option<&'a str> {
    if line == mark {
        return Some("");
    }
    line.strip_prefix(mark)?.strip_prefix(" ")
}

/// What a line says.
pub(crate) fn line_of<'a>(line: &'a str) -> Line<'a> {
    if line.starts_with("session ") {
        return Line::Session;
    }
    if let Some(text) = behind(line, ">") {
        return Line::Packet(text);
    }
    if let Some(text) = behind(line, ">>") {
        return Line::Bytes(text);
    }
    if let Some(text) = behind(line, "<") {
        return Line::Answer(text);
    }
    match behind(line, "<<") {
        Some(text) => Line::AnswerBytes(text),
        None => Line::Setting(line),
    }
}

/// Appends the bytes that a text stands for.
pub(crate) fn push_said(alloc: Global, out: &mut Vec<u8>, text: &str) -> io::Result<()> {
    let mut is_first = true;
    for part in text.split("\\x") {
        if is_first {
            out.extend_from_slice(part.as_bytes())?;
        } else {
            push_escape(alloc, out, part.as_bytes())?;
        }
        is_first = false;
    }
    Ok(())
}

// Appends the byte of the two digits that come first, and what is behind them.
fn push_escape(alloc: Global, out: &mut Vec<u8>, part: &[u8]) -> io::Result<()> {
    if part.len() < 2 {
        return Err(io::ErrorKind::InvalidData.into());
    }
    let (digits, rest) = part.split_at(2);
    let mut byte = Vec::new(alloc);
    match read_digits(digits, &mut byte) {
        Ok(true) => {}
        Ok(false) => return Err(io::ErrorKind::InvalidData.into()),
        Err(_) => return Err(io::ErrorKind::OutOfMemory.into()),
    }
    out.extend_from_slice(byte.as_slice())?;
    out.extend_from_slice(rest)?;
    Ok(())
}

/// A text that stands for bytes.
pub(crate) fn said(alloc: Global, bytes: &[u8]) -> io::Result<String> {
    let mut text = String::new(alloc);
    for byte in bytes {
        if byte.is_ascii_graphic() || *byte == b' ' {
            text.push(char::from(*byte))?;
        } else {
            let digits = format!(in alloc; "\\x{byte:02x}")?;
            text.push_str(digits.as_str())?;
        }
    }
    Ok(text)
}
