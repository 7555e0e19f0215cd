ghost use Rattle.std.specs.Prelude.{◌≡◌, ◌∷◌, ◌++◌, [], IfErr, IfOk};
ghost use Rattle.evm_model.specs.InBandCalls.{last_bytes};

use circular_buffer::HeapCircularBuffer;
use evm_model::CONSOLE_LIMIT;
use evm_room::{Refused, copy_ring, ring};
use std::alloc::Global;
use std::marker::Model;

/// The last bytes that were put to the console. The room for all is taken at once.
#[derive(Debug, Drop)]
pub struct Console {
    bytes: HeapCircularBuffer<u8>,
}

impl Model for Console {
    ghost use Rattle.std.specs.Prelude.{ℕ, List, ◌≡◌};
    ghost use Rattle.evm_model.specs.declared.limits.TheConstants.{CONSOLE_LIMIT};

    ghost Value = { List ℕ };

    ghost invariant = { λ c. c.bytes.capacity ≡ CONSOLE_LIMIT };

    ghost view = { λ c. c.bytes.items };
}

impl Console {
    /// An empty console.
    ///
    /// # Errors
    ///
    /// Where the allocation of its room failed.
    pub fn new(alloc: Global) -> Result<Console, Refused>
        ensures empty { IfOk result (λ console. console ≡ []) }
        ensures refused { IfErr result (λ asked. asked ≡ CONSOLE_LIMIT) }
    {
        let bytes = ring(alloc, CONSOLE_LIMIT)?;
        Ok(Console { bytes })
    }

    /// The bytes are those of another console. Takes no memory.
    pub fn copy_from(&mut self, other: &Console)
        ensures { self.new ≡ other.now }
    {
        copy_ring(&mut self.bytes, &other.bytes);
    }

    /// One byte more; where there is no room the first one goes.
    pub fn push(&mut self, byte: u8)
        ensures { self.new ≡ last_bytes (self.old ++ byte ∷ []) }
    {
        let _first = self.bytes.push_back(byte);
    }

    /// What was put there, in two parts, the older one first.
    pub fn parts(&self) -> (&[u8], &[u8])
        ensures { result.0.now ++ result.1.now ≡ self.now }
    {
        self.bytes.as_slices()
    }
}
