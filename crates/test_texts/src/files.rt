//! Files of programs: images and symbols. A file may be patched by the words of the argument: `AT=BYTE` writes a byte, in
//! hexadecimal, and `AT:NUMBER` the eight bytes of a number. The places are decimal.

use crate::call::{Call, decimal, given, hexadecimal, sides};
use crate::writing::{push, push_gap, push_hex, push_some, push_some_hexadecimal};
use evm_elf::{ElfFault, assemble, image_detail, read_image, write_bytes, write_image};
use evm_ram::Image;
use std::io::{self, ErrorKind};
use text_symbols::Symbols;

// Writes the first `size` bytes of a number at a place.
fn put(file: &mut Vec<u8>, at: u64, number: u64, size: usize) -> io::Result<()> {
    let bytes = number.to_le_bytes();
    let at = usize::try_from(at).map_err(|_| ErrorKind::InvalidInput)?;
    for (place, byte) in bytes.iter().take(size).enumerate() {
        let Some(old) = file.get_mut(at.saturating_add(place)) else {
            return Err(ErrorKind::InvalidInput.into());
        };
        *old = *byte;
    }
    Ok(())
}

fn patch(file: &mut Vec<u8>, word: &str) -> io::Result<()> {
    if let Some((at, byte)) = word.split_once('=') {
        return put(file, decimal(at)?, hexadecimal(byte)?, 1);
    }
    let (at, number) = sides(':', word)?;
    put(file, decimal(at)?, hexadecimal(number)?, 8)
}

// The file with its patches.
fn patched(call: &Call<'_>) -> io::Result<Vec<u8>> {
    let mut file = Vec::from_slice(call.alloc, call.file)?;
    for word in call.text()?.split(' ') {
        if !word.is_empty() {
            patch(&mut file, word)?;
        }
    }
    Ok(file)
}

fn push_image(out: &mut String, image: &Image) -> io::Result<()> {
    let entry = image.entry();
    write!(out, "entry {entry:x}")?;
    for segment in image.segments() {
        let address = segment.address();
        let size = segment.memsz();
        write!(out, ", {address:x} {size:x} ")?;
        push_hex(out, segment.bytes())?;
    }
    Ok(())
}

/// The image of a file: its entry, and of each segment the address, the size in memory and the bytes.
pub(crate) fn image(call: &Call<'_>, out: &mut String) -> io::Result<()> {
    match read_image(call.alloc, patched(call)?.as_slice()) {
        Ok(image) => push_image(out, &image),
        Err(fault) => Ok(write!(out, "{fault:?}")?),
    }
}

// The number of the fault, or 0.
fn fault_number(call: &Call<'_>, file: &[u8]) -> u8 {
    match read_image(call.alloc, file) {
        Ok(_) => 0,
        Err(fault) => fault.number(),
    }
}

/// The number of the fault of a file, or 0.
pub(crate) fn image_fault(call: &Call<'_>, out: &mut String) -> io::Result<()> {
    let number = fault_number(call, patched(call)?.as_slice());
    Ok(write!(out, "{number}")?)
}

// The fault of a file that has one.
fn fault_of(call: &Call<'_>, file: &[u8]) -> io::Result<ElfFault> {
    match read_image(call.alloc, file) {
        Ok(_) => Err(ErrorKind::InvalidData.into()),
        Err(fault) => Ok(fault),
    }
}

/// The message of the fault of a file, twice: by itself, and as the fault is shown.
pub(crate) fn image_told(call: &Call<'_>, out: &mut String) -> io::Result<()> {
    let fault = fault_of(call, patched(call)?.as_slice())?;
    push(out, fault.message())?;
    Ok(write!(out, "; {fault}")?)
}

/// What is behind the fault of a file.
pub(crate) fn image_behind(call: &Call<'_>, out: &mut String) -> io::Result<()> {
    let file = patched(call)?;
    let fault = fault_of(call, file.as_slice())?;
    push_some(out, image_detail(file.as_slice(), fault))
}

/// What to do about the fault of a file.
pub(crate) fn image_hint(call: &Call<'_>, out: &mut String) -> io::Result<()> {
    let file = patched(call)?;
    let fault = fault_of(call, file.as_slice())?;
    match image_detail(file.as_slice(), fault) {
        Some(detail) => push(out, detail.hint().unwrap_or("none")),
        None => push(out, "none"),
    }
}

/// The fault of each front of a file: from which length on it is which.
pub(crate) fn fronts(call: &Call<'_>, out: &mut String) -> io::Result<()> {
    let mut last = u8::MAX;
    for length in 0..=call.file.len() {
        let fault = fault_number(call, call.file.get(..length).unwrap_or(&[]));
        if fault != last {
            push_gap(out)?;
            write!(out, "{length}:{fault}")?;
            last = fault;
        }
    }
    Ok(())
}

/// The file of a source.
pub(crate) fn written(call: &Call<'_>, out: &mut String) -> io::Result<()> {
    match assemble(call.alloc, call.text()?) {
        Ok(program) => push_hex(out, given(write_image(call.alloc, &program))?.as_slice()),
        Err(fault) => Ok(write!(out, "{fault}")?),
    }
}

/// The file of some bytes.
pub(crate) fn written_bytes(call: &Call<'_>, out: &mut String) -> io::Result<()> {
    if call.argument.len() > 64 {
        return Err(ErrorKind::InvalidInput.into());
    }
    push_hex(
        out,
        given(write_bytes(call.alloc, call.argument))?.as_slice(),
    )
}

/// The symbols of a file: whether it has a table, and of each its name, value, size and kind.
pub(crate) fn symbols(call: &Call<'_>, out: &mut String) -> io::Result<()> {
    let known = given(Symbols::read(call.alloc, patched(call)?.as_slice()))?;
    let table = known.table();
    write!(out, "{table:?}")?;
    for symbol in known.symbols() {
        let name = symbol.name();
        let value = symbol.value();
        let size = symbol.size();
        let kind = symbol.kind();
        write!(out, ", {name} {value:x} {size} {kind:?}")?;
    }
    Ok(())
}

/// The name of an address, and how far it is behind it.
pub(crate) fn name_at(call: &Call<'_>, out: &mut String) -> io::Result<()> {
    let known = given(Symbols::read(call.alloc, call.file))?;
    match known.at(hexadecimal(call.text()?)?) {
        Some((name, offset)) => Ok(write!(out, "{name} {offset:x}")?),
        None => push(out, "none"),
    }
}

/// The address of a name.
pub(crate) fn address_named(call: &Call<'_>, out: &mut String) -> io::Result<()> {
    let known = given(Symbols::read(call.alloc, call.file))?;
    push_some_hexadecimal(out, known.address(call.text()?))
}
