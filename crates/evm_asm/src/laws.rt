//! What is true of every source and every number, where a crate above counts on it. The functions do nothing: their
//! contracts are the laws.

ghost use Rattle.evm_asm.specs.Bounds.{ProgramsFit, WordsStand};
ghost use Rattle.evm_asm.specs.Loading.{LoadsImmediate, LoadsAddress};
ghost use Rattle.evm_asm.specs.ProgramLaws.{LinesAreWorded};
ghost use Rattle.evm_asm.specs.Sizes.{AllThatIsMeantStands};

use evm_isa::encoded_by_table;

/// `li rd,n` leaves n in rd, which isn't x0.
pub fn li_loads()
    ensures { LoadsImmediate }
{}

/// `la rd,l` leaves the address of l in rd, which isn't x0.
pub fn la_loads()
    ensures { LoadsAddress }
{}

/// No program has more than 16,777,216 bytes.
pub fn programs_fit()
    ensures { ProgramsFit }
{}

/// The word of each line of a program stands at its address, the lowest byte first.
pub fn words_stand()
    ensures { WordsStand }
{}

/// The word of each line of a program is below 2^32 and stands for the line's instruction, by the table of
/// instructions.
pub fn lines_are_worded()
    ensures { LinesAreWorded }
{
    encoded_by_table();
}

/// A program lacks no instruction that a line of its source means.
pub fn all_that_is_meant_stands()
    ensures { AllThatIsMeantStands }
{}
