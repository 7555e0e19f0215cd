//! What a processor does where a line of an assembled program stands. The functions do nothing: their contracts
//! are the laws.

ghost use Rattle.claims_texts.specs.Running.{OfEachLine, ExecutesLine, StepsLine, AcceptsStep};

use evm_elf::lines_are_worded;
use evm_isa::decoded_by_table;

/// Where the word of a line of an assembled program stands at the line's address, a task whose pc is there
/// executes the line's instruction, whatever else the machine holds.
pub(crate) fn a_word_is_its_instruction()
    ensures { OfEachLine ExecutesLine }
{
    lines_are_worded();
    decoded_by_table();
}

/// A Step of a processor whose current task is there, which isn't stopped by the debugger or a breakpoint and has
/// nothing on its wire, does the line's instruction, settles, and answers that the task ran. It is accepted
/// where the journal has room.
pub fn a_step_does_its_line()
    ensures row { OfEachLine StepsLine }
    ensures accepted { OfEachLine AcceptsStep }
{
    lines_are_worded();
    decoded_by_table();
}
