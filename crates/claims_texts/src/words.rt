//! The words of what a source means. The functions do nothing: their contracts are the laws.

ghost use Rattle.std.specs.Prelude.{◌≡◌, Some};
ghost use Rattle.std.specs.Int.{w32, from_le_bytes};
ghost use Rattle.evm_isa.specs.Encoded.{encoded};
ghost use Rattle.evm_asm.specs.evm_asm_lexer.declared.mnemonic.BareOp.TheVariants.{Nop};
ghost use Rattle.evm_asm.specs.evm_asm_parser.Forms.{bare_instruction};
ghost use Rattle.evm_asm.specs.Programs.{nop_bytes};
ghost use Rattle.claims_texts.specs.Wording.{EveryItemHasItsWord, SpellingNeverFails};

/// Each instruction that a source means has a word: its registers are below 32, its immediate is in its range.
pub fn every_item_has_its_word()
    ensures { EveryItemHasItsWord }
{}

/// What a source means is written without a fault.
pub fn spelling_never_fails()
    ensures { SpellingNeverFails }
{}

/// What fills the text at an alignment is the word of `addi x0,x0,0`.
pub(crate) fn nops_are_addi()
    ensures { encoded (bare_instruction Nop) ≡ Some (from_le_bytes w32 nop_bytes) }
{}
