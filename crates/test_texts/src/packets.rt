//! Packets of GDB, and bytes that are read whole.

use crate::call::{Call, decimal, given};
use crate::writing::{push, push_quoted, push_yes};
use evm_streams::read_utf8;
use gdb_packets::{PacketItem, push_digits, push_framed, read_digits, read_item};
use std::io;

/// The packet of a payload.
pub(crate) fn framed(call: &Call<'_>, out: &mut String) -> io::Result<()> {
    let mut bytes = Vec::new(call.alloc);
    given(push_framed(&mut bytes, call.argument))?;
    push_quoted(out, bytes.as_slice())
}

// What comes first in some bytes, its payload, and how many bytes follow it.
fn push_item(call: &Call<'_>, bytes: &[u8], out: &mut String) -> io::Result<()> {
    let mut payload = Vec::new(call.alloc);
    let Some((item, rest)) = given(read_item(bytes, &mut payload))? else {
        return push(out, "none");
    };
    write!(out, "{item:?}")?;
    if item == PacketItem::Packet {
        push(out, " ")?;
        push_quoted(out, payload.as_slice())?;
    }
    let count = rest.len();
    Ok(write!(out, " {count}")?)
}

/// What comes first in some bytes.
pub(crate) fn item(call: &Call<'_>, out: &mut String) -> io::Result<()> {
    push_item(call, call.argument, out)
}

/// What comes first where a packet begins whose body goes on for this many bytes.
pub(crate) fn long_item(call: &Call<'_>, out: &mut String) -> io::Result<()> {
    let mut bytes = Vec::new(call.alloc);
    bytes.push(b'$')?;
    for _ in 0..decimal(call.text()?)? {
        bytes.push(b'a')?;
    }
    push_item(call, bytes.as_slice(), out)
}

/// Bytes as digits of a packet.
pub(crate) fn digits(call: &Call<'_>, out: &mut String) -> io::Result<()> {
    let mut text = Vec::new(call.alloc);
    given(push_digits(&mut text, call.argument))?;
    push_quoted(out, text.as_slice())
}

/// Whether digits of a packet are bytes, and which.
pub(crate) fn digits_read(call: &Call<'_>, out: &mut String) -> io::Result<()> {
    let mut bytes = Vec::new(call.alloc);
    let is_whole = given(read_digits(call.argument, &mut bytes))?;
    push_yes(out, is_whole)?;
    if is_whole {
        push(out, " ")?;
        push_quoted(out, bytes.as_slice())?;
    }
    Ok(())
}

/// The text that bytes are, or why they are none.
pub(crate) fn utf8(call: &Call<'_>, out: &mut String) -> io::Result<()> {
    let mut reader = call.argument;
    match read_utf8(call.alloc, &mut reader) {
        Ok(text) => push_quoted(out, text.as_bytes()),
        Err(stop) => Ok(write!(out, "{stop:?}")?),
    }
}
