//! Where the lines of a program stay while the machine runs. The functions do nothing: their contracts are the
//! laws.

ghost use Rattle.claims_texts.specs.Staying.{ALineStays, RunsAsAssembled};

use crate::running::a_step_does_its_line;
use evm_elf::{lines_are_worded, words_stand, written_is_read};

/// The word of a line stays where it stands through every list of events of which none writes into its four bytes:
/// no poke, and no store of an instruction.
pub fn a_line_stays()
    ensures { ALineStays }
{}

/// After boot, loading, and any events, a Step of a processor whose task comes to the address of a line does the
/// line's instruction, unless an event before has written into the line's four bytes.
pub fn an_assembled_program_runs()
    ensures { RunsAsAssembled }
{
    lines_are_worded();
    words_stand();
    written_is_read();
    a_step_does_its_line();
}
