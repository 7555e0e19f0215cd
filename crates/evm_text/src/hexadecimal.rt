//! Words of 16 hexadecimal digits, made two digits at a time.

ghost use Rattle.std.specs.Prelude.{◌≡◌, ◌/◌, ◌%◌, ◌++◌, ◌≤◌, OnErr, IsAscii};
ghost use Rattle.std.specs.String.{string_bytes};
ghost use Rattle.evm_text.specs.Appending.{Appends};
ghost use Rattle.evm_text.specs.Written.{character, hexadecimal_padded};

use evm_room::{Refused, push_text};
use std::str;

// The two digits of each byte, one behind another.
const PAIRS: &[u8; 512] =
    b"000102030405060708090a0b0c0d0e0f101112131415161718191a1b1c1d1e1f202122232425262728292a2b2c2d2e2f303132333435363738393a3b3c3d3e3f404142434445464748494a4b4c4d4e4f505152535455565758595a5b5c5d5e5f606162636465666768696a6b6c6d6e6f707172737475767778797a7b7c7d7e7f808182838485868788898a8b8c8d8e8f909192939495969798999a9b9c9d9e9fa0a1a2a3a4a5a6a7a8a9aaabacadaeafb0b1b2b3b4b5b6b7b8b9babbbcbdbebfc0c1c2c3c4c5c6c7c8c9cacbcccdcecfd0d1d2d3d4d5d6d7d8d9dadbdcdddedfe0e1e2e3e4e5e6e7e8e9eaebecedeeeff0f1f2f3f4f5f6f7f8f9fafbfcfdfeff";

// The first digit of a number's low byte.
#[inline(always)]
#[tactic(auto, using(crate::proofs::WordDigits::pair_at))]
fn high_digit(n: u64) -> u8
    ensures { result ≡ character (n % 256 / 16) }
{
    PAIRS[(n % 256) as usize * 2]
}

// The last digit of a number's low byte.
#[inline(always)]
fn low_digit(n: u64) -> u8
    ensures { result ≡ character (n % 256 % 16) }
{
    PAIRS[(n % 256) as usize * 2 + 1]
}

/// The 16 hexadecimal digits of a number, with zeros in front where it is shorter.
#[inline(always)]
#[tactic(auto, using(crate::proofs::WordDigits::word_digits))]
pub fn hexadecimal_word(n: u64) -> [u8; 16]
    ensures { result ≡ hexadecimal_padded 16 n }
{
    let g = n / 256;
    let f = g / 256;
    let e = f / 256;
    let d = e / 256;
    let c = d / 256;
    let b = c / 256;
    let a = b / 256;
    [
        high_digit(a),
        low_digit(a),
        high_digit(b),
        low_digit(b),
        high_digit(c),
        low_digit(c),
        high_digit(d),
        low_digit(d),
        high_digit(e),
        low_digit(e),
        high_digit(f),
        low_digit(f),
        high_digit(g),
        low_digit(g),
        high_digit(n),
        low_digit(n),
    ]
}

/// ASCII characters as a text. Takes no time: the caller's proof stands for the check.
#[inline(always)]
pub fn ascii_text(bytes: &[u8]) -> &str
    requires { IsAscii bytes.now }
    ensures { result.now ≡ bytes.now }
{
    unsafe { str::from_utf8_unchecked(bytes) }
}

/// Appends the last `count` hexadecimal digits of a number (at most 16), with zeros in
/// front where the number is shorter.
pub fn push_hexadecimal_padded(out: &mut String, count: u8, n: u64) -> Result<(), Refused>
    requires { count ≤ 16 }
    ensures appends { Appends (hexadecimal_padded count n) out.old out.new result }
    ensures err { OnErr result (string_bytes out.new ≡ string_bytes out.old) }
{
    let digits = hexadecimal_word(n);
    let last = &digits[16 - usize::from(count)..];
    push_text(out, ascii_text(last))
}
