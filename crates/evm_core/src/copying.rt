//! A machine that takes over the state of another.

ghost use Rattle.std.specs.Prelude.{◌≡◌, ◌⊎◌, ℕ, IfErr, OnErr, OnOk, Result};
ghost use Rattle.evm_board.specs.evm_devs.Bus.{kinds_of};
ghost use Rattle.evm_room.specs.Growth.{RefusedWithin};

use crate::machine::Machine;
use evm_board::CopyFrom;
use evm_model::Refusal;

impl<D: CopyFrom> Machine<D> {
    /// Takes over the state and the journal of another machine. Takes no memory if its journal has room for as much as the other's, as
    /// it has from boot.
    ///
    /// # Errors
    ///
    /// `BadSize` if the other was booted with other numbers, or has devices of other kinds. `NoMemory` if its journal had less room, and
    /// more was refused. Nothing is changed then.
    pub fn copy_from(&mut self, other: &Machine<D>) -> Result<(), Refusal>
        ensures copied { OnOk result (self.new ≡ other.now) }
        ensures unchanged { OnErr result (self.new ≡ self.old) }
        ensures refused { IfErr result (λ refusal. (refusal ≡ Refusal.BadSize) ⊎ (refusal ≡ Refusal.NoMemory)) }
        ensures size { result ≡ Result.Err Refusal.BadSize → self.old.boot ≡ other.now.boot → kinds_of self.old.board.memory.devices ≡ kinds_of other.now.board.memory.devices → ⊥ }
        ensures memory { result ≡ Result.Err Refusal.NoMemory → (most : ℕ) × RefusedWithin most }
    {
        if self.boot != other.boot {
            return Err(Refusal::BadSize);
        }
        if !self
            .board
            .memory
            .devices
            .are_like(&other.board.memory.devices)
        {
            return Err(Refusal::BadSize);
        }
        match self.journal.copy_from(&other.journal) {
            Err(refused) => {
                refused.within();
                Err(Refusal::NoMemory)
            }
            Ok(()) => {
                self.board.copy_from(&other.board);
                Ok(())
            }
        }
    }
}
