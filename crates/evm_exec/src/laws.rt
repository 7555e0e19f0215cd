//! Laws of the definitions, each a function that does nothing and is proved.
ghost use Rattle.std.specs.Prelude.{ℕ, List, ◌≡◌, ◌≢◌, ◌<◌, length, slice_index};
ghost use Rattle.evm_exec.specs.Registers.{register_of, with_register};

/// A register reads what was written to it last, unless it is x0; the others and the place of x0 stay.
pub fn registers_hold()
    ensures written { (regs : List ℕ) (n value : ℕ) → 0 < n → n < length regs →
        register_of (with_register regs n value) n ≡ value }
    ensures others { (regs : List ℕ) (n m value : ℕ) → m ≢ n →
        register_of (with_register regs n value) m ≡ register_of regs m }
    ensures x0 { (regs : List ℕ) (n value : ℕ) →
        slice_index (with_register regs n value) 0 ≡ slice_index regs 0 }
    ensures count { (regs : List ℕ) (n value : ℕ) → length (with_register regs n value) ≡ length regs }
{}
