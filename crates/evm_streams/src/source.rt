//! Where bytes come from.

ghost use Rattle.std.specs.Prelude.{◌≡◌, ◌≤◌, ℕ, length};

use crate::cause::Cause;

/// What one call of a source answers.
#[derive(Clone, Copy, Debug)]
pub enum Reading {
    /// This many bytes were given, at the start of the part. 0, if the part has room, means the end.
    Bytes(usize),
    /// The call failed.
    Failed(Cause),
}

/// Where bytes come from, a part at a time.
pub trait Source {
    ghost use Rattle.std.specs.Prelude.{ℕ, List};
    ghost use Rattle.evm_streams.specs.declared.source.Reading.{Reading};

    // What a call at one state may answer, what it leaves in the part, and the state after it. Nothing else is known of this relation, so
    // that only a call of this very source shows what the source answered.
    ghost gives: { Self → Reading → List ℕ → Self → Type 0 };

    /// Gives some bytes, at most as many as the part has room for.
    fn read(&mut self, part: &mut [u8]) -> Reading
        ensures bound { (n : ℕ) → result ≡ Reading.Bytes n → n ≤ length part.new }
        ensures call { gives self.old result part.new self.new };
}

/// Why bytes were not read.
#[derive(Clone, Copy, Debug, PartialEq, Eq)]
pub enum ReadFault {
    /// A call of the source failed.
    Failed(Cause),
    /// The source gave more than 16,777,216 bytes.
    TooLong,
    /// They are no UTF-8, and were to be a text.
    NotUtf8,
}

/// Why there is no text.
#[derive(Clone, Copy, Debug, PartialEq, Eq)]
pub enum ReadStop {
    /// An allocation failed.
    NoMemory,
    /// The bytes were not read, or are no text.
    Fault(ReadFault),
}
