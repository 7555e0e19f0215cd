ghost use Rattle.std.specs.Prelude.{◌≡◌, []};
ghost use Rattle.evm_text.specs.Reading.{worth, begins_with_digit, number_on, number_at, decimal_at, hexadecimal_at, pairs_on, pairs_at, after_word, ReadsAs};

use arrayvec::ArrayVec;

/// How many bytes pairs of digits may spell.
pub const BLOCK_LIMIT: usize = 64;

#[inline(always)]
#[tactic(auto, unfolding(crate::specs::Reading::worth))]
fn worth(character: u8) -> u8
    ensures { result ≡ worth character }
{
    match character {
        b'0'..=b'9' => character - b'0',
        b'a'..=b'f' => character - b'a' + 10,
        _ => 16,
    }
}

#[inline(always)]
fn begins_with_digit(base: u8, bytes: &[u8]) -> bool
    ensures { result ≡ begins_with_digit base bytes.now }
{
    match bytes {
        [first, ..] => worth(*first) < base,
        [] => false,
    }
}

#[inline(always)]
#[tactic(auto, unfolding(crate::specs::Reading::number_on))]
fn number_on(base: u8, first: u8, bytes: &[u8]) -> Option<(u64, &[u8])>
    ensures { ReadsAs (λ x. (x.0, x.1.now)) result (number_on base first bytes.now) }
{
    let mut number = u64::from(first);
    let mut rest = bytes;
    while let [character, after @ ..] = rest {
        let digit = worth(*character);
        if base <= digit {
            return Some((number, rest));
        }
        number = number
            .checked_mul(u64::from(base))?
            .checked_add(u64::from(digit))?;
        rest = after;
    }
    Some((number, rest))
}

// In the bodies that call it the base is a constant.
#[inline(always)]
#[tactic(auto, unfolding(crate::specs::Reading::number_at))]
fn number_at(base: u8, bytes: &[u8]) -> Option<(u64, &[u8])>
    ensures { ReadsAs (λ x. (x.0, x.1.now)) result (number_at base bytes.now) }
{
    let [first, rest @ ..] = bytes else {
        return None;
    };
    let digit = worth(*first);
    if base <= digit {
        return None;
    }
    if digit == 0 && begins_with_digit(base, rest) {
        return None;
    }
    number_on(base, digit, rest)
}

/// The decimal number at the front, below 2^64 and with no leading zero, and the bytes behind it.
#[inline(never)]
pub fn decimal_at(bytes: &[u8]) -> Option<(u64, &[u8])>
    ensures { ReadsAs (λ x. (x.0, x.1.now)) result (decimal_at bytes.now) }
{
    number_at(10, bytes)
}

/// The same in hexadecimal, of lower-case digits.
#[inline(never)]
pub fn hexadecimal_at(bytes: &[u8]) -> Option<(u64, &[u8])>
    ensures { ReadsAs (λ x. (x.0, x.1.now)) result (hexadecimal_at bytes.now) }
{
    number_at(16, bytes)
}

#[tactic(auto, unfolding(crate::specs::Reading::pairs_on))]
fn pairs_on(bytes: &[u8]) -> Option<(ArrayVec<u8, BLOCK_LIMIT>, &[u8])>
    ensures { ReadsAs (λ x. (x.0.items, x.1.now)) result (pairs_on [] bytes.now) }
{
    let mut pairs = ArrayVec::new();
    let mut rest = bytes;
    while let [high, low, after @ ..] = rest {
        let high = worth(*high);
        if 16 <= high {
            return Some((pairs, rest));
        }
        let low = worth(*low);
        if 16 <= low {
            return None;
        }
        if pairs.is_full() {
            return None;
        }
        pairs.push(high * 16 + low);
        rest = after;
    }
    if begins_with_digit(16, rest) {
        return None;
    }
    Some((pairs, rest))
}

/// The 1 to 64 bytes whose pairs of lower-case hexadecimal digits stand at the front, up to another
/// character, and what is behind them.
#[tactic(auto, unfolding(crate::specs::Reading::pairs_at))]
pub fn pairs_at(bytes: &[u8]) -> Option<(ArrayVec<u8, BLOCK_LIMIT>, &[u8])>
    ensures { ReadsAs (λ x. (x.0.items, x.1.now)) result (pairs_at bytes.now) }
{
    let (pairs, rest) = pairs_on(bytes)?;
    if pairs.is_empty() {
        return None;
    }
    Some((pairs, rest))
}

/// The bytes behind a word that stands at the front. Where the word is a constant, a compare or two find it.
#[inline(always)]
pub fn after_word<'a>(word: &[u8], bytes: &'a [u8]) -> Option<&'a [u8]>
    ensures { ReadsAs (λ x. x.now) result (after_word word.now bytes.now) }
{
    bytes.strip_prefix(word)
}
