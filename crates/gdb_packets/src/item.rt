//! What comes next in the bytes that GDB sends.

ghost use Rattle.std.specs.Prelude.{◌≡◌, [], IfOk, IfErr};
ghost use Rattle.evm_text.specs.Reading.{ReadsAs};
ghost use Rattle.gdb_packets.specs.Framing.{checksum};
ghost use Rattle.gdb_packets.specs.Hexadecimal.{Reads};
ghost use Rattle.gdb_packets.specs.Items.{cut_hash, item_at, item_seen, checked, packet_at, packet_behind, payload_of, payload_on, says, sign};

use crate::framing::{DOLLAR, ESCAPE, HASH, digit, push_byte, turned};
use evm_room::Refused;
use memchr::memchr;

/// The most bytes that the body of a packet may have.
pub const PACKET_LIMIT: usize = 16_384;

/// What GDB sent.
#[derive(Clone, Copy, Debug, PartialEq, Eq)]
pub enum PacketItem {
    /// `+`: the last packet came.
    Acknowledged,
    /// `-`: the last packet is to be sent again.
    NotAcknowledged,
    /// The byte 3: the program is to stop.
    Interrupt,
    /// A packet; its payload stands apart.
    Packet,
    /// A packet of a wrong checksum, of a wrong escape or with `$` in its body, or the `$` of one whose body is too long.
    Damaged,
    /// A byte that means nothing.
    Noise,
}

// Where the first `#` is, the bytes before it and those behind it.
fn cut_hash(bytes: &[u8]) -> Option<(&[u8], &[u8])>
    ensures { ReadsAs (λ x. (x.0.now, x.1.now)) result (cut_hash bytes.now) }
{
    match memchr(HASH, bytes) {
        None => None,
        Some(end) => Some((&bytes[..end], &bytes[end + 1..])),
    }
}

#[tactic(auto, using(crate::proofs::Escapes::sum_more))]
fn checksum(bytes: &[u8]) -> u8
    ensures { result ≡ checksum bytes.now }
{
    let mut sum = 0u8;
    for byte in bytes {
        sum = sum.wrapping_add(*byte);
    }
    sum
}

// Whether two digits say the checksum of a body.
fn says(body: &[u8], high: u8, low: u8) -> bool
    ensures { result ≡ says body.now high low }
{
    let sum = checksum(body);
    if high == digit(sum / 16) {
        low == digit(sum % 16)
    } else {
        false
    }
}

// The payload that a body stands for; false where it stands for none.
#[tactic(auto, unfolding(crate::specs::Items::payload_on))]
fn read_payload(body: &[u8], payload: &mut Vec<u8>) -> Result<bool, Refused>
    ensures ok { IfOk result (λ whole. Reads (payload_of body.now) whole payload.new.items) }
    ensures refused { IfErr result (λ asked. asked ≡ 1) }
{
    payload.clear();
    let mut escape = false;
    let mut rest = body;
    while let [byte, after @ ..] = rest {
        let byte = *byte;
        if byte == HASH {
            return Ok(false);
        }
        if byte == DOLLAR {
            return Ok(false);
        }
        if escape {
            push_byte(payload, turned(byte))?;
            escape = false;
        } else if byte == ESCAPE {
            escape = true;
        } else {
            push_byte(payload, byte)?;
        }
        rest = after;
    }
    Ok(!escape)
}

fn checked(body: &[u8], high: u8, low: u8, payload: &mut Vec<u8>) -> Result<PacketItem, Refused>
    ensures ok { IfOk result (λ item. item_seen item payload.new.items ≡ checked body.now high low) }
    ensures refused { IfErr result (λ asked. asked ≡ 1) }
{
    if !says(body, high, low) {
        return Ok(PacketItem::Damaged);
    }
    if read_payload(body, payload)? {
        Ok(PacketItem::Packet)
    } else {
        Ok(PacketItem::Damaged)
    }
}

fn packet_behind<'a>(
    body: &[u8],
    behind: &'a [u8],
    payload: &mut Vec<u8>,
) -> Result<Option<(PacketItem, &'a [u8])>, Refused>
    ensures ok { IfOk result (λ found. ReadsAs (λ x. (item_seen x.0 payload.new.items, x.1.now)) found (packet_behind body.now behind.now)) }
    ensures refused { IfErr result (λ asked. asked ≡ 1) }
{
    match behind {
        [high, low, rest @ ..] => {
            let item = checked(body, *high, *low, payload)?;
            Ok(Some((item, rest)))
        }
        _ => Ok(None),
    }
}

#[tactic(auto, unfolding(crate::specs::Items::packet_at))]
fn packet_at<'a>(
    bytes: &'a [u8],
    payload: &mut Vec<u8>,
) -> Result<Option<(PacketItem, &'a [u8])>, Refused>
    ensures ok { IfOk result (λ found. ReadsAs (λ x. (item_seen x.0 payload.new.items, x.1.now)) found (packet_at bytes.now)) }
    ensures refused { IfErr result (λ asked. asked ≡ 1) }
{
    match cut_hash(bytes) {
        None => {
            if bytes.len() > PACKET_LIMIT {
                Ok(Some((PacketItem::Damaged, bytes)))
            } else {
                Ok(None)
            }
        }
        Some((body, behind)) => {
            if body.len() > PACKET_LIMIT {
                Ok(Some((PacketItem::Damaged, bytes)))
            } else {
                packet_behind(body, behind, payload)
            }
        }
    }
}

// What a byte means that begins no packet.
fn sign(byte: u8) -> PacketItem
    ensures { item_seen result [] ≡ sign byte }
{
    match byte {
        b'+' => PacketItem::Acknowledged,
        b'-' => PacketItem::NotAcknowledged,
        3 => PacketItem::Interrupt,
        _ => PacketItem::Noise,
    }
}

/// What comes first in some bytes, and the bytes behind it; None where the bytes end before it does. `payload` holds the
/// payload of a packet then.
///
/// # Errors
///
/// Memory for a byte of the payload was refused.
#[tactic(auto, unfolding(crate::specs::Items::item_at))]
pub fn read_item<'a>(
    bytes: &'a [u8],
    payload: &mut Vec<u8>,
) -> Result<Option<(PacketItem, &'a [u8])>, Refused>
    ensures ok { IfOk result (λ found. ReadsAs (λ x. (item_seen x.0 payload.new.items, x.1.now)) found (item_at bytes.now)) }
    ensures refused { IfErr result (λ asked. asked ≡ 1) }
{
    let [first, rest @ ..] = bytes else {
        return Ok(None);
    };
    if *first == DOLLAR {
        packet_at(rest, payload)
    } else {
        Ok(Some((sign(*first), rest)))
    }
}
