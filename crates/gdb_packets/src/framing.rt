ghost use Rattle.std.specs.Prelude.{◌≡◌, ◌<◌, ◌++◌, ◌∷◌, [], IfOk, IfErr, OnOk};
ghost use Rattle.evm_text.specs.Written.{character};
ghost use Rattle.gdb_packets.specs.Framing.{checksum, escaped, framed, is_special, turned};

use evm_room::{Refused, grow};

/// The byte that a packet begins with.
pub(crate) const DOLLAR: u8 = b'$';

/// The byte behind the body of a packet, in front of its checksum.
pub(crate) const HASH: u8 = b'#';

/// The byte in front of one that is turned.
pub(crate) const ESCAPE: u8 = b'}';

/// The byte with bit 5 turned.
pub(crate) fn turned(byte: u8) -> u8
    ensures { result ≡ turned byte }
{
    if byte / 32 % 2 == 0 {
        byte + 32
    } else {
        byte - 32
    }
}

fn is_special(byte: u8) -> bool
    ensures { result ≡ is_special byte }
{
    byte == HASH || byte == DOLLAR || byte == b'*' || byte == ESCAPE
}

/// The character of a digit below 16.
pub(crate) fn digit(number: u8) -> u8
    requires { number < 16 }
    ensures { result ≡ character number }
{
    if number < 10 {
        b'0' + number
    } else {
        b'a' - 10 + number
    }
}

/// Appends a byte.
pub(crate) fn push_byte(out: &mut Vec<u8>, byte: u8) -> Result<(), Refused>
    ensures ok { OnOk result (out.new.items ≡ out.old.items ++ byte ∷ []) }
    ensures refused { IfErr result (λ asked. asked ≡ 1) }
{
    grow(out, 1)?;
    out.push_reserved(byte);
    Ok(())
}

// Appends what stands for a byte in a packet, and returns the sum of that.
#[tactic(auto, unfolding(crate::specs::Framing::escaped))]
fn push_escaped_byte(out: &mut Vec<u8>, byte: u8) -> Result<u8, Refused>
    ensures ok { OnOk result (out.new.items ≡ out.old.items ++ escaped (byte ∷ [])) }
    ensures sum { IfOk result (λ sum. sum ≡ checksum (escaped (byte ∷ []))) }
    ensures refused { IfErr result (λ asked. asked ≡ 1) }
{
    if is_special(byte) {
        let stand_in = turned(byte);
        push_byte(out, ESCAPE)?;
        push_byte(out, stand_in)?;
        Ok(ESCAPE.wrapping_add(stand_in))
    } else {
        push_byte(out, byte)?;
        Ok(byte)
    }
}

// Appends the body of a packet, and returns its checksum.
#[tactic(auto, using(crate::proofs::Escapes::escaped_none, crate::proofs::Escapes::escaped_more, crate::proofs::Escapes::escaped_sum_more))]
fn push_escaped(out: &mut Vec<u8>, payload: &[u8]) -> Result<u8, Refused>
    ensures ok { OnOk result (out.new.items ≡ out.old.items ++ escaped payload.now) }
    ensures sum { IfOk result (λ sum. sum ≡ checksum (escaped payload.now)) }
    ensures refused { IfErr result (λ asked. asked ≡ 1) }
{
    let mut sum = 0u8;
    for byte in payload {
        let more = push_escaped_byte(out, *byte)?;
        sum = sum.wrapping_add(more);
    }
    Ok(sum)
}

/// Appends the packet of a payload: `$`, the payload with `}` and a turned byte in place of each of `# $ * }`, `#`, and
/// the sum of these bytes modulo 256 as two digits.
///
/// # Errors
///
/// Memory for a byte was refused. A part of the packet may have been appended.
#[tactic(auto, unfolding(evm_text::specs::Written::pairs))]
pub fn push_framed(out: &mut Vec<u8>, payload: &[u8]) -> Result<(), Refused>
    ensures ok { OnOk result (out.new.items ≡ out.old.items ++ framed payload.now) }
    ensures refused { IfErr result (λ asked. asked ≡ 1) }
{
    push_byte(out, DOLLAR)?;
    let sum = push_escaped(out, payload)?;
    push_byte(out, HASH)?;
    push_byte(out, digit(sum / 16))?;
    push_byte(out, digit(sum % 16))
}
