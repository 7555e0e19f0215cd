ghost use Rattle.std.specs.Prelude.{◌≡◌, ◌++◌, IfOk, IfErr, OnOk};
ghost use Rattle.evm_text.specs.Reading.{worth};
ghost use Rattle.evm_text.specs.Written.{pairs};
ghost use Rattle.gdb_packets.specs.Hexadecimal.{bytes_of_digits, bytes_on, is_hexadecimal, Reads};

use crate::framing::{digit, push_byte};
use evm_room::Refused;

#[tactic(auto, unfolding(evm_text::specs::Reading::worth))]
fn worth(character: u8) -> u8
    ensures { result ≡ worth character }
{
    match character {
        b'0'..=b'9' => character - b'0',
        b'a'..=b'f' => character - b'a' + 10,
        _ => 16,
    }
}

/// Whether a character is a digit as [`read_digits`] reads them: 0 to 9, and a to f.
pub fn is_hexadecimal(character: u8) -> bool
    ensures { result ≡ is_hexadecimal character }
{
    worth(character) < 16
}

/// Appends two digits for each byte.
///
/// # Errors
///
/// Memory for a byte was refused. Some digits may have been appended.
#[tactic(auto, using(crate::proofs::Digits::pairs_none, crate::proofs::Digits::pairs_next))]
pub fn push_digits(out: &mut Vec<u8>, bytes: &[u8]) -> Result<(), Refused>
    ensures ok { OnOk result (out.new.items ≡ out.old.items ++ pairs bytes.now) }
    ensures refused { IfErr result (λ asked. asked ≡ 1) }
{
    for byte in bytes {
        push_byte(out, digit(*byte / 16))?;
        push_byte(out, digit(*byte % 16))?;
    }
    Ok(())
}

/// Reads the bytes whose pairs of lower-case digits these are, and returns whether they are such. `bytes` holds the
/// bytes then.
///
/// # Errors
///
/// Memory for a byte was refused.
#[tactic(auto, unfolding(crate::specs::Hexadecimal::bytes_on))]
pub fn read_digits(digits: &[u8], bytes: &mut Vec<u8>) -> Result<bool, Refused>
    ensures ok { IfOk result (λ whole. Reads (bytes_of_digits digits.now) whole bytes.new.items) }
    ensures refused { IfErr result (λ asked. asked ≡ 1) }
{
    bytes.clear();
    let mut rest = digits;
    while let [high, low, after @ ..] = rest {
        let high = worth(*high);
        if 16 <= high {
            return Ok(false);
        }
        let low = worth(*low);
        if 16 <= low {
            return Ok(false);
        }
        push_byte(bytes, high * 16 + low)?;
        rest = after;
    }
    Ok(rest.is_empty())
}
