//! The parts of a line, with one blank between them.

ghost use Rattle.std.specs.Prelude.{◌≡◌, ◌≤◌, IfSome};
ghost use Rattle.evm_text.specs.Reading.{ReadsAs};
ghost use Rattle.evm_text.specs.Fields.{u8_at, count_at, count_last, decimal_then, decimal_last, u8_then, u8_last, hexadecimal_then, hexadecimal_last, pairs_last};

use crate::reading::{BLOCK_LIMIT, after_word, decimal_at, hexadecimal_at, pairs_at};
use arrayvec::ArrayVec;

#[inline(always)]
#[tactic(auto, unfolding(crate::specs::Fields::u8_at))]
fn u8_at(bytes: &[u8]) -> Option<(u8, &[u8])>
    ensures { ReadsAs (λ x. (x.0, x.1.now)) result (u8_at bytes.now) }
{
    let (number, rest) = decimal_at(bytes)?;
    if number < 256 {
        Some((number as u8, rest))
    } else {
        None
    }
}

#[inline(always)]
#[tactic(auto, unfolding(crate::specs::Fields::count_at))]
fn count_at(greatest: u64, bytes: &[u8]) -> Option<(u64, &[u8])>
    ensures range { IfSome result (λ x. x.0 ≤ greatest) }
    ensures exact { ReadsAs (λ x. (x.0, x.1.now)) result (count_at greatest bytes.now) }
{
    let (number, rest) = decimal_at(bytes)?;
    if number == 0 {
        return None;
    }
    if number > greatest {
        return None;
    }
    Some((number, rest))
}

/// A decimal number below 2^64 and one blank at the front, and the bytes behind them.
#[inline(always)]
#[tactic(auto, unfolding(crate::specs::Fields::then_blank))]
pub fn decimal_then(bytes: &[u8]) -> Option<(u64, &[u8])>
    ensures { ReadsAs (λ x. (x.0, x.1.now)) result (decimal_then bytes.now) }
{
    let (number, rest) = decimal_at(bytes)?;
    Some((number, after_word(b" ", rest)?))
}

/// A decimal number below 2^64 that is all of the bytes.
#[inline(always)]
#[tactic(auto, unfolding(crate::specs::Fields::then_end))]
pub fn decimal_last(bytes: &[u8]) -> Option<u64>
    ensures { result ≡ decimal_last bytes.now }
{
    let (number, rest) = decimal_at(bytes)?;
    if rest.is_empty() { Some(number) } else { None }
}

/// A decimal number from 1 to a greatest that is all of the bytes.
#[inline(always)]
#[tactic(auto, unfolding(crate::specs::Fields::then_end))]
pub fn count_last(greatest: u64, bytes: &[u8]) -> Option<u64>
    ensures range { IfSome result (λ number. number ≤ greatest) }
    ensures exact { result ≡ count_last greatest bytes.now }
{
    let (number, rest) = count_at(greatest, bytes)?;
    if rest.is_empty() { Some(number) } else { None }
}

/// A decimal number below 256 and one blank at the front, and the bytes behind them.
#[inline(always)]
#[tactic(auto, unfolding(crate::specs::Fields::then_blank))]
pub fn u8_then(bytes: &[u8]) -> Option<(u8, &[u8])>
    ensures { ReadsAs (λ x. (x.0, x.1.now)) result (u8_then bytes.now) }
{
    let (number, rest) = u8_at(bytes)?;
    Some((number, after_word(b" ", rest)?))
}

/// A decimal number below 256 that is all of the bytes.
#[inline(always)]
#[tactic(auto, unfolding(crate::specs::Fields::then_end))]
pub fn u8_last(bytes: &[u8]) -> Option<u8>
    ensures { result ≡ u8_last bytes.now }
{
    let (number, rest) = u8_at(bytes)?;
    if rest.is_empty() { Some(number) } else { None }
}

/// A hexadecimal number below 2^64 and one blank at the front, and the bytes behind them.
#[inline(always)]
#[tactic(auto, unfolding(crate::specs::Fields::then_blank))]
pub fn hexadecimal_then(bytes: &[u8]) -> Option<(u64, &[u8])>
    ensures { ReadsAs (λ x. (x.0, x.1.now)) result (hexadecimal_then bytes.now) }
{
    let (number, rest) = hexadecimal_at(bytes)?;
    Some((number, after_word(b" ", rest)?))
}

/// A hexadecimal number below 2^64 that is all of the bytes.
#[inline(always)]
#[tactic(auto, unfolding(crate::specs::Fields::then_end))]
pub fn hexadecimal_last(bytes: &[u8]) -> Option<u64>
    ensures { result ≡ hexadecimal_last bytes.now }
{
    let (number, rest) = hexadecimal_at(bytes)?;
    if rest.is_empty() { Some(number) } else { None }
}

/// The 1 to 64 bytes whose pairs of hexadecimal digits are all of the bytes.
#[tactic(auto, unfolding(crate::specs::Fields::then_end))]
pub fn pairs_last(bytes: &[u8]) -> Option<ArrayVec<u8, BLOCK_LIMIT>>
    ensures { ReadsAs (λ x. x.items) result (pairs_last bytes.now) }
{
    let (block, rest) = pairs_at(bytes)?;
    if rest.is_empty() { Some(block) } else { None }
}
