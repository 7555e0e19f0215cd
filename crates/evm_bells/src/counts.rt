//! Counters in place, since a split takes no memory.

ghost use Rattle.std.specs.Prelude.{◌≡◌, ℕ, ◌+◌, ◌%◌, ◌^◌, ◌<◌, List, [], ◌∷◌, ◌++◌, slice_index};
ghost use Rattle.std.specs.Int.{bit_at};
ghost use Rattle.evm_bells.specs.Batches.{Batch, counter, HaveCounted};

use evm_lines::{LINE_COUNT, LINES};

/// The most processors that bells may have.
pub const PROCESSOR_LIMIT: usize = 8;

/// A counter for each line of each processor, modulo 2^64.
#[derive(Clone, Copy, Debug)]
pub struct LineCounts {
    pub rows: [[u64; LINE_COUNT]; PROCESSOR_LIMIT],
}

// Each counter of a row and its bit of a word.
fn plus_bits(mut row: [u64; LINE_COUNT], word: u64) -> [u64; LINE_COUNT]
    ensures { (l : ℕ) → l < LINES → slice_index result l ≡ (slice_index row l + bit_at word l) % 2 ^ 64 }
{
    for line in 0..LINE_COUNT {
        row[line] = row[line].wrapping_add((word >> line) & 1);
    }
    row
}

// Each counter of a row and the same one of another row.
fn plus_row(mut row: [u64; LINE_COUNT], other: &[u64; LINE_COUNT]) -> [u64; LINE_COUNT]
    ensures { (l : ℕ) → l < LINES → slice_index result l ≡ (slice_index row l + slice_index other.now l) % 2 ^ 64 }
{
    for line in 0..LINE_COUNT {
        row[line] = row[line].wrapping_add(other[line]);
    }
    row
}

impl LineCounts {
    pub(crate) fn new() -> LineCounts
        ensures { HaveCounted result.rows [] }
    {
        LineCounts {
            rows: [[0; LINE_COUNT]; PROCESSOR_LIMIT],
        }
    }

    /// Counts the lines of a word once more. A word of no line costs nothing.
    pub(crate) fn add(&mut self, cpu: u8, word: u64)
        requires { cpu < PROCESSOR_LIMIT }
        ensures { (batches : List Batch) → HaveCounted self.old.rows batches → HaveCounted self.new.rows (batches ++ (cpu, word) ∷ []) }
    {
        if word != 0 {
            self.rows[cpu as usize] = plus_bits(self.rows[cpu as usize], word);
        }
    }

    pub(crate) fn add_all(&mut self, other: &LineCounts)
        ensures { (c l : ℕ) → c < PROCESSOR_LIMIT → l < LINES → counter self.new.rows c l ≡ (counter self.old.rows c l + counter other.now.rows c l) % 2 ^ 64 }
    {
        for cpu in 0..PROCESSOR_LIMIT {
            self.rows[cpu] = plus_row(self.rows[cpu], &other.rows[cpu]);
        }
    }

    /// The counter of a line of a processor.
    pub fn get(&self, cpu: u8, line: u8) -> u64
        requires { (cpu < PROCESSOR_LIMIT) × (line < LINES) }
        ensures { result ≡ counter self.now.rows cpu line }
    {
        self.rows[cpu as usize][line as usize]
    }
}
