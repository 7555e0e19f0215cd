//! The packets that are written for what GDB sent.

ghost use Rattle.std.specs.Prelude.{◌≡◌, ◌<◌, ◌++◌, [], false, length, OnOk};
ghost use Rattle.std.specs.String.{string_bytes};
ghost use Rattle.gdb_packets.specs.Framing.{framed};
ghost use Rattle.gdb_answers.specs.Written.{EndsWith, Extends, acknowledgement};

use evm_room::{NoMemory, Refused};
use gdb_packets::{PacketItem, push_digits, push_framed};
use gdb_tape::{part_len, push_bytes};
use std::alloc::Global;

/// The answer to a command.
#[derive(Drop)]
pub(crate) struct Reply {
    /// The text that is shown to the user.
    pub(crate) told: String,
    /// The payload of the packet.
    pub(crate) payload: Vec<u8>,
}

/// The answer to a command, and the bytes that are written for it.
#[derive(Drop)]
pub(crate) struct Response {
    /// The answer.
    pub(crate) reply: Reply,
    /// The payload of a packet that shows a part of the text.
    pub(crate) shown: Vec<u8>,
    /// What is written, and what was written last.
    pub(crate) out: Vec<u8>,
}

/// An empty response.
pub(crate) fn new_response(alloc: Global) -> Response
    ensures { result.out.items ≡ [] }
{
    Response {
        reply: Reply {
            told: String::new(alloc),
            payload: Vec::new(alloc),
        },
        shown: Vec::new(alloc),
        out: Vec::new(alloc),
    }
}

// How many bytes of text one packet shows.
const SHOWN_LIMIT: usize = 1_024;

// Appends a packet that shows a part of a text: O and its digits.
#[tactic(auto, using(crate::proofs::Extending::extends_by))]
fn push_shown_part(text: &[u8], packet: &mut Vec<u8>, out: &mut Vec<u8>) -> Result<(), Refused>
    ensures extends { OnOk result (Extends out.old.items out.new.items) }
{
    packet.clear();
    push_bytes(packet, b"O")?;
    push_digits(packet, text)?;
    push_framed(out, packet.as_slice())
}

// Appends the packets that show a text.
#[tactic(auto, using(crate::proofs::Extending::extends_none, crate::proofs::Extending::extends_more))]
fn push_shown(text: &[u8], packet: &mut Vec<u8>, out: &mut Vec<u8>) -> Result<(), Refused>
    ensures extends { OnOk result (Extends out.old.items out.new.items) }
    ensures nothing { length text.now ≡ 0 → OnOk result (out.new.items ≡ out.old.items) }
{
    let mut rest = text;
    'packets: while !rest.is_empty() {
        let (first, after) = cut_text(rest);
        match push_shown_part(first, packet, out) {
            Ok(()) => rest = after,
            Err(refused) => return Err(refused),
        }
    }
    Ok(())
}

// The first bytes of a text, as many as one packet shows, and the others.
fn cut_text(text: &[u8]) -> (&[u8], &[u8])
    ensures shorter { 0 < length text.now → length result.1.now < length text.now }
{
    let end = part_len(text.len(), SHOWN_LIMIT);
    (&text[..end], &text[end..])
}

// Appends the packet of an answer, if GDB waits for one.
#[tactic(auto, using(crate::proofs::Extending::extends_none, crate::proofs::Extending::extends_by))]
fn push_answer(answer: &[u8], silent: bool, out: &mut Vec<u8>) -> Result<(), Refused>
    ensures extends { OnOk result (Extends out.old.items out.new.items) }
    ensures some { 0 < length answer.now → OnOk result (out.new.items ≡ out.old.items ++ framed answer.now) }
    ensures loud { silent ≡ false → OnOk result (out.new.items ≡ out.old.items ++ framed answer.now) }
{
    if silent && answer.is_empty() {
        return Ok(());
    }
    push_framed(out, answer)
}

/// Appends the packets of an answer: those that show a text, and the answer itself.
#[tactic(auto, using(crate::proofs::Extending::extends_more, crate::proofs::Extending::ends_with))]
pub(crate) fn push_packets(response: &mut Response, silent: bool) -> Result<(), NoMemory>
    ensures extends { OnOk result (Extends response.old.out.items response.new.out.items) }
    ensures alone { length (string_bytes response.old.reply.told) ≡ 0 → 0 < length response.old.reply.payload.items → OnOk result (response.new.out.items ≡ response.old.out.items ++ framed response.old.reply.payload.items) }
    ensures loud { silent ≡ false → OnOk result (EndsWith response.old.reply.payload.items response.old.out.items response.new.out.items) }
    ensures plain { length (string_bytes response.old.reply.told) ≡ 0 → silent ≡ false → OnOk result (response.new.out.items ≡ response.old.out.items ++ framed response.old.reply.payload.items) }
{
    match push_shown(
        response.reply.told.as_bytes(),
        &mut response.shown,
        &mut response.out,
    ) {
        Ok(()) => {}
        Err(_) => return Err(NoMemory),
    }
    match push_answer(response.reply.payload.as_slice(), silent, &mut response.out) {
        Ok(()) => Ok(()),
        Err(_) => Err(NoMemory),
    }
}

/// Appends the empty packet.
pub(crate) fn push_none(out: &mut Vec<u8>) -> Result<(), NoMemory>
    ensures ok { OnOk result (out.new.items ≡ out.old.items ++ framed []) }
{
    match push_framed(out, &[]) {
        Ok(()) => Ok(()),
        Err(_) => Err(NoMemory),
    }
}

/// Appends an acknowledgement, if packets are acknowledged.
pub(crate) fn push_sign(
    acknowledges: bool,
    item: PacketItem,
    out: &mut Vec<u8>,
) -> Result<(), NoMemory>
    ensures ok { OnOk result (out.new.items ≡ out.old.items ++ acknowledgement acknowledges item) }
{
    let sign: &[u8] = match item {
        PacketItem::Packet if acknowledges => b"+",
        PacketItem::Damaged if acknowledges => b"-",
        _ => b"",
    };
    match push_bytes(out, sign) {
        Ok(()) => Ok(()),
        Err(_) => Err(NoMemory),
    }
}
