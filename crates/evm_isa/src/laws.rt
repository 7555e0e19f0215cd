//! Laws of the table, for proofs: to call one costs nothing, and tells what it ensures.

ghost use Rattle.evm_isa.specs.Decoded.{decoded};
ghost use Rattle.evm_isa.specs.Encoded.{encoded};
ghost use Rattle.evm_isa.specs.Table.{Row};
ghost use Rattle.evm_isa.specs.declared.inst.Inst.{Inst};
ghost use Rattle.std.specs.Prelude.{ℕ, ◌≡◌, ◌↔◌, ◌<◌, ◌^◌};

/// What a word is decoded to is what the table says.
pub fn decoded_by_table()
    ensures { (w : ℕ) (i : Inst) → w < 2 ^ 32 → (decoded w ≡ Some i) ↔ Row i w }
{}

/// What an instruction is encoded to is what the table says, and a word of 32 bits.
pub fn encoded_by_table()
    ensures { (i : Inst) (w : ℕ) → (encoded i ≡ Some w) ↔ ((w < 2 ^ 32) × Row i w) }
{}

/// What was encoded is decoded to the same instruction.
pub fn decode_of_encode()
    ensures { (i : Inst) (w : ℕ) → encoded i ≡ Some w → decoded w ≡ Some i }
{}

/// What was decoded is encoded to the same word.
pub fn encode_of_decode()
    ensures { (w : ℕ) (i : Inst) → w < 2 ^ 32 → decoded w ≡ Some i → encoded i ≡ Some w }
{}

/// A word stands for at most one instruction.
pub fn one_instruction()
    ensures { (w : ℕ) (i j : Inst) → w < 2 ^ 32 → Row i w → Row j w → i ≡ j }
{}

/// An instruction has at most one word.
pub fn one_word()
    ensures { (i : Inst) (v w : ℕ) → v < 2 ^ 32 → w < 2 ^ 32 → Row i v → Row i w → v ≡ w }
{}
