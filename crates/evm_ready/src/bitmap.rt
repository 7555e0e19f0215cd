//! Bits by their numbers, 64 a word.

ghost use Rattle.std.specs.Prelude.{◌≡◌, ◌≢◌, ◌≤◌, ◌<◌, ◌+◌, ◌*◌, ◌==◌, ℕ, length, IfSome, IfNone};
ghost use Rattle.std.specs.Int.{bit_at};
ghost use Rattle.evm_ready.specs.Queues.{bit_of};

/// How many words a bitmap has.
pub const BITMAP_WORDS: usize = 32;

fn with_bit(word: u64, i: usize) -> u64
    requires { i < 64 }
    ensures set { bit_at result i ≡ 1 }
    ensures others { (k : ℕ) → k ≢ i → bit_at result k ≡ bit_at word k }
{
    word | (1 << i)
}

fn without_bit(word: u64, i: usize) -> u64
    requires { i < 64 }
    ensures cleared { bit_at result i ≡ 0 }
    ensures others { (k : ℕ) → k < 64 → k ≢ i → bit_at result k ≡ bit_at word k }
{
    word & !(1 << i)
}

fn least_bit(word: u64) -> Option<u16>
    ensures below { IfSome result (λ i. i < 64) }
    ensures set { IfSome result (λ i. bit_at word i ≡ 1) }
    ensures least { IfSome result (λ i. (k : ℕ) → k < i → bit_at word k ≡ 0) }
    ensures none { IfNone result ((k : ℕ) → bit_at word k ≡ 0) }
{
    if word == 0 {
        None
    } else {
        Some(word.trailing_zeros() as u16)
    }
}

// Sets bit q.
pub(crate) fn set_bit(words: &mut [u64], q: usize)
    requires { q < length words.old * 64 }
    ensures set { bit_of words.new q ≡ 1 }
    ensures others { (p : ℕ) → p ≢ q → bit_of words.new p ≡ bit_of words.old p }
{
    words[q / 64] = with_bit(words[q / 64], q % 64);
}

// Clears bit q.
pub(crate) fn clear_bit(words: &mut [u64], q: usize)
    requires { q < length words.old * 64 }
    ensures cleared { bit_of words.new q ≡ 0 }
    ensures others { (p : ℕ) → p ≢ q → bit_of words.new p ≡ bit_of words.old p }
{
    words[q / 64] = without_bit(words[q / 64], q % 64);
}

// The least bit that is set from word `from` up to word `to`.
pub(crate) fn first_bit(words: &[u64], from: u8, to: u8) -> Option<u16>
    requires { to ≤ length words.now }
    ensures above { IfSome result (λ q. from * 64 ≤ q) }
    ensures below { IfSome result (λ q. q < to * 64) }
    ensures set { IfSome result (λ q. bit_of words.now q ≡ 1) }
    ensures least { IfSome result (λ q. (p : ℕ) → from * 64 ≤ p → p < q → bit_of words.now p ≡ 0) }
    ensures none { IfNone result ((p : ℕ) → from * 64 ≤ p → p < to * 64 → bit_of words.now p ≡ 0) }
{
    for w in from..to {
        if let Some(i) = least_bit(words[w as usize]) {
            return Some(w as u16 * 64 + i);
        }
    }
    None
}
