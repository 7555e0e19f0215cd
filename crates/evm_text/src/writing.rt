ghost use Rattle.std.specs.Prelude.{◌≡◌, ◌+◌, ◌^◌, ◌<◌, ◌≤◌, ◌∷◌, [], ◌++◌, length, OnErr};
ghost use Rattle.std.specs.Char.{encode_utf8};
ghost use Rattle.std.specs.String.{string_bytes};
ghost use Rattle.evm_text.specs.Appending.{Appends};
ghost use Rattle.evm_text.specs.Written.{character, numeral, decimal, hexadecimal, pairs};

use arrayvec::ArrayString;
use evm_room::{Refused, grow_text, push_text};

/// How many digits a number can have: 2^64 - 1 has 20 in decimal.
const DIGITS: usize = 20;

fn character(digit: u8) -> char
    requires { digit < 16 }
    ensures value { result ≡ character digit }
    ensures ascii { encode_utf8 result ≡ character digit ∷ [] }
{
    char::from(if digit < 10 {
        b'0' + digit
    } else {
        b'a' - 10 + digit
    })
}

#[tactic(auto, using(crate::proofs::Steps::numeral_one, crate::proofs::Steps::some_division))]
fn put_numeral(text: &mut ArrayString<DIGITS>, base: u64, divisions: u8, n: u64)
    requires some { 1 < base }
    requires digits { base ≤ 16 }
    requires fits { n < base ^ (divisions + 1) }
    requires room { length text.old.bytes + divisions < 20 }
    ensures value { text.new.bytes ≡ text.old.bytes ++ numeral base divisions n }
    ensures len { length text.new.bytes ≤ length text.old.bytes + divisions + 1 }
{
    if n < base {
        text.push(character(n as u8));
    } else {
        put_numeral(text, base, divisions - 1, n / base);
        text.push(character((n % base) as u8));
    }
}

/// Appends a number below ten, which is one digit.
#[inline(always)]
#[tactic(auto, using(crate::proofs::Steps::numeral_one))]
fn push_digit(out: &mut String, n: u8) -> Result<(), Refused>
    requires { n < 10 }
    ensures appends { Appends (decimal n) out.old out.new result }
    ensures err { OnErr result (string_bytes out.new ≡ string_bytes out.old) }
{
    grow_text(out, 1)?;
    let Ok(()) = out.push(character(n)) else {
        unreachable!();
    };
    Ok(())
}

/// Appends a number of any length in decimal.
#[inline(never)]
fn push_digits(out: &mut String, n: u64) -> Result<(), Refused>
    ensures appends { Appends (decimal n) out.old out.new result }
    ensures err { OnErr result (string_bytes out.new ≡ string_bytes out.old) }
{
    let mut text = ArrayString::new();
    put_numeral(&mut text, 10, 19, n);
    push_text(out, text.as_str())
}

/// Appends a number in decimal.
#[inline(always)]
pub fn push_decimal(out: &mut String, n: u64) -> Result<(), Refused>
    ensures appends { Appends (decimal n) out.old out.new result }
    ensures err { OnErr result (string_bytes out.new ≡ string_bytes out.old) }
{
    if n < 10 {
        push_digit(out, n as u8)
    } else {
        push_digits(out, n)
    }
}

/// Appends a number in hexadecimal.
pub fn push_hexadecimal(out: &mut String, n: u64) -> Result<(), Refused>
    ensures appends { Appends (hexadecimal n) out.old out.new result }
    ensures err { OnErr result (string_bytes out.new ≡ string_bytes out.old) }
{
    let mut text = ArrayString::new();
    put_numeral(&mut text, 16, 15, n);
    push_text(out, text.as_str())
}

/// Appends two hexadecimal digits for each byte.
#[tactic(auto, using(crate::proofs::Steps::length_pairs))]
pub fn push_pairs(out: &mut String, bytes: &[u8]) -> Result<(), Refused>
    ensures appends { Appends (pairs bytes.now) out.old out.new result }
    ensures err { OnErr result (string_bytes out.new ≡ string_bytes out.old) }
{
    // From here on no push can fail, so a refusal leaves the text as it was.
    grow_text(out, bytes.len() * 2)?;
    for byte in bytes {
        let Ok(()) = out.push(character(*byte / 16)) else {
            unreachable!();
        };
        let Ok(()) = out.push(character(*byte % 16)) else {
            unreachable!();
        };
    }
    Ok(())
}
