//! Which sources have programs, and what is where in a program.

ghost use Rattle.std.specs.Prelude.{◌≡◌, Some};
ghost use Rattle.std.specs.Int.{w32, from_le_bytes};
ghost use Rattle.evm_isa.specs.Encoded.{encoded};
ghost use Rattle.evm_asm.specs.evm_asm_lexer.declared.mnemonic.BareOp.TheVariants.{Nop};
ghost use Rattle.evm_asm.specs.evm_asm_parser.Forms.{bare_instruction};
ghost use Rattle.evm_asm.specs.Programs.{nop_bytes};
ghost use Rattle.claims_texts.specs.FirstFault.{RefusedWithTheFirst};
ghost use Rattle.claims_texts.specs.HasFault.{RefusedWithTheLeast};
ghost use Rattle.claims_texts.specs.Least.{RefusesTheLeast, MeansWithoutFaults, NoFaultIsIgnored};
ghost use Rattle.claims_texts.specs.Standing.{SizesAreBytes, DataStandsAtItsBase, LinesStandWhereTheyAreMeant, LinesStandInOrder, LabelsStandWhereTheirLinesDo, AllLabelsAreFound, LabelsStandInOrder, NumbersStandWhereTheyAreMeant, SpacesAreZeros, AlignmentsAreFilled};
ghost use Rattle.claims_texts.specs.Wording.{EveryItemHasItsWord, SpellingNeverFails, RefusedAsMeant};

use crate::faults::{
    means_without_faults, no_fault_is_ignored, refused_as_meant, refused_with_the_first,
    refused_with_the_least, refuses_the_least,
};
use crate::places::{
    alignments_are_filled, all_labels_are_found, data_stands_at_its_base, labels_stand_in_order,
    labels_stand_where_their_lines_do, lines_stand_in_order, lines_stand_where_they_are_meant,
    numbers_stand_where_they_are_meant, sizes_are_bytes, spaces_are_zeros,
};
use crate::words::{every_item_has_its_word, nops_are_addi, spelling_never_fails};

/// A source is refused with the lowest-numbered fault of its first line that has a fault. It has a program if and only
/// if no line has a fault.
pub fn a_source_has_its_least_fault()
    ensures first { RefusedWithTheFirst }
    ensures least { RefusedWithTheLeast }
    ensures refuses { RefusesTheLeast }
    ensures means { MeansWithoutFaults }
    ensures ignores_none { NoFaultIsIgnored }
{
    refused_with_the_first();
    refused_with_the_least();
    refuses_the_least();
    means_without_faults();
    no_fault_is_ignored();
}

/// Each line of a program is what a line of the source means at its address, and labels, numbers and the data have
/// their addresses.
pub fn lines_have_their_addresses()
    ensures lines { LinesStandWhereTheyAreMeant }
    ensures labels { LabelsStandWhereTheirLinesDo }
    ensures all_labels { AllLabelsAreFound }
    ensures numbers { NumbersStandWhereTheyAreMeant }
    ensures sizes { SizesAreBytes }
    ensures data { DataStandsAtItsBase }
{
    lines_stand_where_they_are_meant();
    labels_stand_where_their_lines_do();
    all_labels_are_found();
    numbers_stand_where_they_are_meant();
    sizes_are_bytes();
    data_stands_at_its_base();
}

/// The lines and labels of a program are in the order of the source, each once. A `.space` is zeros, and an `.align`
/// fills up to the multiple with nops or zeros.
pub fn labels_and_fillings_are_in_order()
    ensures labels { LabelsStandInOrder }
    ensures lines { LinesStandInOrder }
    ensures spaces { SpacesAreZeros }
    ensures alignments { AlignmentsAreFilled }
    ensures nops { encoded (bare_instruction Nop) ≡ Some (from_le_bytes w32 nop_bytes) }
{
    labels_stand_in_order();
    lines_stand_in_order();
    spaces_are_zeros();
    alignments_are_filled();
    nops_are_addi();
}

/// Each instruction that is read from a source has a word.
pub fn each_instruction_has_a_word()
    ensures words { EveryItemHasItsWord }
    ensures spelled { SpellingNeverFails }
    ensures refused { RefusedAsMeant }
{
    every_item_has_its_word();
    spelling_never_fails();
    refused_as_meant();
}
