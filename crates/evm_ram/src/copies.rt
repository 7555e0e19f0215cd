//! RAM takes over the bytes of another, of blocks that were written alone.

ghost use Rattle.std.specs.Prelude.{◌≡◌, ◌≢◌, ◌/◌, ◌^◌, ◌≤◌, ◌<◌, ℕ, length, slice_index_or};
ghost use Rattle.evm_ram.specs.Blocks.{Cover, IsZeroElsewhere};

use crate::blocks::{Blocks, COUNT, is_written, start_of};

// A block takes over the bytes of another RAM.
#[inline(always)]
fn copy_block(bytes: &mut [u8], other: &[u8], block: usize, shift: u32)
    requires size { length bytes.old ≡ length other.now }
    requires block { block < 64 }
    requires shift { shift ≤ 18 }
    ensures size { length bytes.new ≡ length bytes.old }
    ensures these { (i : ℕ) → i < length bytes.old → i / 2 ^ shift ≡ block → slice_index_or bytes.new i 0 ≡ slice_index_or other.now i 0 }
    ensures others { (i : ℕ) → i / 2 ^ shift ≢ block → slice_index_or bytes.new i 0 ≡ slice_index_or bytes.old i 0 }
{
    let size = bytes.len();
    let start = start_of(block, shift).min(size);
    let end = start_of(block + 1, shift).min(size);
    bytes[start..end].copy_from_slice(&other[start..end]);
}

/// The bytes become those of another RAM, with blocks of the same size.
pub(crate) fn copy_written(bytes: &mut [u8], other: &[u8], blocks: &Blocks, others: &Blocks)
    requires size { length bytes.old ≡ length other.now }
    requires cover { Cover blocks.now.shift (length bytes.old) }
    requires shift { others.now.shift ≡ blocks.now.shift }
    requires zero { IsZeroElsewhere bytes.old blocks.now.written blocks.now.shift }
    requires zeros { IsZeroElsewhere other.now others.now.written blocks.now.shift }
    ensures { bytes.new ≡ other.now }
{
    'blocks: for block in 0..COUNT {
        if is_written(blocks, others, block) {
            copy_block(bytes, other, block, blocks.shift);
        }
    }
}
