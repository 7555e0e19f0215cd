//! Which blocks of RAM were written.

ghost use Rattle.std.specs.Prelude.{◌≡◌, ◌≢◌, ◌+◌, ◌*◌, ◌/◌, ◌^◌, ◌≤◌, ◌<◌, ℕ, true, false, replicate, slice_index_or};
ghost use Rattle.evm_ram.specs.Blocks.{Cover};

use crate::ram::SIZE_LIMIT;

/// How many blocks RAM has.
pub(crate) const COUNT: usize = 64;

/// Blocks of `2 ^ shift` bytes, and which of them were written.
#[derive(Debug, Clone, Copy)]
pub(crate) struct Blocks {
    pub written: [bool; 64],
    pub shift: u32,
}

// The least shift by which 64 blocks cover as many bytes.
fn least_shift(size: u64) -> u32
    requires { size ≤ SIZE_LIMIT }
    ensures { Cover result size }
{
    'shifts: for shift in 3..18 {
        if size <= start_of(COUNT, shift) as u64 {
            return shift;
        }
    }
    18
}

impl Blocks {
    /// Blocks that cover as many bytes, of which none was written.
    pub(crate) fn new(size: u64) -> Blocks
        requires { size ≤ SIZE_LIMIT }
        ensures none { result.written ≡ replicate 64 false }
        ensures cover { Cover result.shift size }
    {
        Blocks {
            written: [false; 64],
            shift: least_shift(size),
        }
    }

    /// The blocks of the `count` bytes from `start` on were written.
    #[inline(always)]
    pub(crate) fn mark(&mut self, start: usize, count: usize)
        requires some { 0 < count }
        requires covered { Cover self.old.shift (start + count) }
        ensures shift { self.new.shift ≡ self.old.shift }
        ensures these { (i : ℕ) → start ≤ i → i < start + count → slice_index_or self.new.written (i / 2 ^ self.old.shift) false ≡ true }
        ensures others { (b : ℕ) → slice_index_or self.old.written b false ≡ true → slice_index_or self.new.written b false ≡ true }
    {
        let first = start >> self.shift;
        let last = (start + count - 1) >> self.shift;
        self.written[first] = true;
        self.written[last] = true;
        if count > 8 {
            mark_between(&mut self.written, first, last);
        }
    }
}

// The blocks from one to another were written.
fn mark_between(written: &mut [bool; 64], first: usize, last: usize)
    requires { last < 64 }
    ensures these { (b : ℕ) → first ≤ b → b ≤ last → slice_index_or written.new b false ≡ true }
    ensures others { (b : ℕ) → slice_index_or written.old b false ≡ true → slice_index_or written.new b false ≡ true }
{
    'blocks: for block in first..last + 1 {
        written[block] = true;
    }
}

/// Where a block begins.
#[inline(always)]
pub(crate) fn start_of(block: usize, shift: u32) -> usize
    requires block { block ≤ 64 }
    requires shift { shift ≤ 18 }
    ensures { result ≡ block * 2 ^ shift }
{
    block << shift
}

/// Whether a block was written, in one RAM or in another.
#[inline(always)]
pub(crate) fn is_written(a: &Blocks, b: &Blocks, block: usize) -> bool
    requires { block < 64 }
    ensures one { result ≡ false → slice_index_or a.now.written block false ≡ false }
    ensures other { result ≡ false → slice_index_or b.now.written block false ≡ false }
{
    if a.written[block] {
        return true;
    }
    b.written[block]
}
