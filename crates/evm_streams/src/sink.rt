//! Where bytes go.

ghost use Rattle.std.specs.Prelude.{◌≡◌, ◌≤◌, ℕ, length};

use crate::cause::Cause;

/// What one call of a sink answers.
#[derive(Clone, Copy, Debug)]
pub enum Writing {
    /// This many bytes were taken, from the start of those offered.
    Bytes(usize),
    /// The call failed.
    Failed(Cause),
}

/// Where bytes go, a part at a time.
pub trait Sink {
    ghost use Rattle.std.specs.Prelude.{ℕ, List};
    ghost use Rattle.evm_streams.specs.declared.sink.Writing.{Writing};

    // What a call at one state may answer to the bytes that it is offered, and the state after it. Nothing else is known of this relation,
    // so that only a call of this very sink shows what the sink answered.
    ghost takes: { Self → Writing → List ℕ → Self → Type 0 };

    /// Takes some of the bytes.
    fn write(&mut self, text: &[u8]) -> Writing
        ensures bound { (n : ℕ) → result ≡ Writing.Bytes n → n ≤ length text.now }
        ensures call { takes self.old result text.now self.new };
}

/// A call of the sink failed, or took none of some bytes.
#[derive(Clone, Copy, Debug, PartialEq, Eq)]
pub struct WriteFault {
    /// Why it failed.
    pub cause: Cause,
}
