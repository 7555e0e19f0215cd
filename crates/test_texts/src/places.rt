//! RAM and sets of interrupt lines.

use crate::call::{Call, decimal, given, hexadecimal, sides};
use crate::writing::{push, push_hex, push_some_hexadecimal, push_yes};
use evm_lines::{LINES, LineSet};
use evm_ram::{Ram, SIZE_LIMIT, Width};
use evm_text::pairs_last;
use std::io::{self, ErrorKind};

fn width_of(word: &str) -> io::Result<Width> {
    match word {
        "1" => Ok(Width::Byte),
        "2" => Ok(Width::Half),
        "4" => Ok(Width::Word),
        "8" => Ok(Width::Double),
        _ => Err(ErrorKind::InvalidInput.into()),
    }
}

fn push_done(out: &mut String, done: Option<()>) -> io::Result<()> {
    push(out, if done.is_some() { "done" } else { "none" })
}

// `ADDRESS WIDTH` of a read.
fn read(ram: &Ram, words: &str, out: &mut String) -> io::Result<()> {
    let (address, width) = sides(' ', words)?;
    push_some_hexadecimal(out, ram.read(hexadecimal(address)?, width_of(width)?))
}

// `ADDRESS WIDTH VALUE` of a write.
fn write(ram: &mut Ram, words: &str, out: &mut String) -> io::Result<()> {
    let (address, words) = sides(' ', words)?;
    let (width, value) = sides(' ', words)?;
    let done = ram.write(hexadecimal(address)?, width_of(width)?, hexadecimal(value)?);
    push_done(out, done)
}

// `ADDRESS BYTES` of a poke, whose bytes may be none.
fn poke(ram: &mut Ram, words: &str, out: &mut String) -> io::Result<()> {
    let (address, bytes) = sides(' ', words)?;
    let address = hexadecimal(address)?;
    match pairs_last(bytes.as_bytes()) {
        Some(bytes) => push_done(out, ram.poke(address, bytes.as_slice())),
        None => push_done(out, ram.poke(address, &[])),
    }
}

// `ADDRESS COUNT` of a look at bytes.
fn bytes(ram: &Ram, words: &str, out: &mut String) -> io::Result<()> {
    let (address, count) = sides(' ', words)?;
    match ram.bytes(hexadecimal(address)?, decimal(count)?) {
        Some(bytes) => {
            push(out, "bytes ")?;
            push_hex(out, bytes)
        }
        None => push(out, "none"),
    }
}

fn touch(ram: &mut Ram, words: &str, out: &mut String) -> io::Result<()> {
    let (kind, words) = sides(' ', words)?;
    match kind {
        "read" => read(ram, words, out),
        "write" => write(ram, words, out),
        "poke" => poke(ram, words, out),
        "bytes" => bytes(ram, words, out),
        "clear" => {
            ram.clear();
            push(out, "cleared")
        }
        _ => Err(ErrorKind::InvalidInput.into()),
    }
}

/// RAM of a size, before the first comma; behind each comma a read, a write, a poke, a look at bytes, or
/// `clear all`.
pub(crate) fn ram(call: &Call<'_>, out: &mut String) -> io::Result<()> {
    let (size, touches) = sides(',', call.text()?)?;
    let size = decimal(size)?;
    if size > SIZE_LIMIT {
        return Err(ErrorKind::InvalidInput.into());
    }
    let mut ram = given(Ram::new(call.alloc, size))?;
    let size = ram.size();
    write!(out, "{size}")?;
    for words in touches.split(',') {
        push(out, ", ")?;
        touch(&mut ram, words, out)?;
    }
    Ok(())
}

fn line_of(text: &str) -> io::Result<u8> {
    u8::try_from(decimal(text)?).map_err(|_| ErrorKind::InvalidInput.into())
}

fn change(set: &mut LineSet, mark: &str, line: u8) -> io::Result<()> {
    if line >= LINES {
        return Err(ErrorKind::InvalidInput.into());
    }
    match mark {
        "+" => set.insert(line),
        _ => set.remove(line),
    }
    Ok(())
}

// The word of a set, its first line, whether it is empty, and whether it has the line.
fn push_set(out: &mut String, set: LineSet, line: u8) -> io::Result<()> {
    let word = set.word();
    write!(out, "{word:x} ")?;
    match set.first() {
        Some(first) => write!(out, "{first} ")?,
        None => push(out, "none ")?,
    }
    push_yes(out, set.is_empty())?;
    push(out, " ")?;
    push_yes(out, set.contains(line))
}

/// A set of lines: `+N` adds a line, `-N` takes it out, `?N` asks. For each the word of the set, its first line, whether it is
/// empty, and whether it has the line.
pub(crate) fn line_set(call: &Call<'_>, out: &mut String) -> io::Result<()> {
    let mut set = LineSet::new();
    for word in call.text()?.split(' ') {
        push(out, if out.is_empty() { "" } else { ", " })?;
        let Some((mark, number)) = word.split_at_checked(1) else {
            return Err(ErrorKind::InvalidInput.into());
        };
        let line = line_of(number)?;
        if mark != "?" {
            change(&mut set, mark, line)?;
        }
        push_set(out, set, line)?;
    }
    Ok(())
}
