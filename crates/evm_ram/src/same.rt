//! Whether bytes are the same, many at a time.

ghost use Rattle.std.specs.Prelude.{◌≡◌, ◌+◌, ◌/◌, ◌^◌, ◌<◌, ◌≤◌, ℕ, true, length, slice_index_or};
ghost use Rattle.evm_ram.specs.Blocks.{Cover, IsZeroElsewhere};

use crate::blocks::{Blocks, COUNT, is_written, start_of};
use std::simd::prelude::*;

/// How many bytes are compared at once.
const LANES: usize = 64;

// Whether the bytes of a vector are the same, from a place on.
#[inline(always)]
fn same_lanes(a: &[u8], b: &[u8], i: usize) -> bool
    requires a { i + 64 ≤ length a.now }
    requires b { i + 64 ≤ length b.now }
    ensures { result ≡ true → (k : ℕ) → k < 64 → slice_index_or a.now (i + k) 0 ≡ slice_index_or b.now (i + k) 0 }
{
    let differs = u8x64::from_slice(&a[i..]).simd_ne(u8x64::from_slice(&b[i..]));
    differs.to_bitmask() == 0
}

// Whether bytes are the same, one by one.
fn same_rest(a: &[u8], b: &[u8]) -> bool
    ensures { result ≡ true → a.now ≡ b.now }
{
    a == b
}

/// Whether bytes are the same.
pub(crate) fn same_bytes(a: &[u8], b: &[u8]) -> bool
    ensures { result ≡ true → a.now ≡ b.now }
{
    if a.len() != b.len() {
        return false;
    }
    let count = a.len() / LANES;
    'vectors: for vector in 0..count {
        if !same_lanes(a, b, vector * LANES) {
            return false;
        }
    }
    same_rest(&a[count * LANES..], &b[count * LANES..])
}

// Whether the bytes of a block are the same.
fn same_block(a: &[u8], b: &[u8], block: usize, shift: u32) -> bool
    requires size { length a.now ≡ length b.now }
    requires block { block < 64 }
    requires shift { shift ≤ 18 }
    ensures { result ≡ true → (i : ℕ) → i < length a.now → i / 2 ^ shift ≡ block → slice_index_or a.now i 0 ≡ slice_index_or b.now i 0 }
{
    let size = a.len();
    let start = start_of(block, shift).min(size);
    let end = start_of(block + 1, shift).min(size);
    same_bytes(&a[start..end], &b[start..end])
}

/// Whether the bytes of two RAMs are the same, with blocks of the same size.
pub(crate) fn same_written(a: &[u8], b: &[u8], blocks: &Blocks, others: &Blocks) -> bool
    requires size { length a.now ≡ length b.now }
    requires cover { Cover blocks.now.shift (length a.now) }
    requires shift { others.now.shift ≡ blocks.now.shift }
    requires zero { IsZeroElsewhere a.now blocks.now.written blocks.now.shift }
    requires zeros { IsZeroElsewhere b.now others.now.written blocks.now.shift }
    ensures { result ≡ true → a.now ≡ b.now }
{
    'blocks: for block in 0..COUNT {
        if is_written(blocks, others, block) && !same_block(a, b, block, blocks.shift) {
            return false;
        }
    }
    true
}
