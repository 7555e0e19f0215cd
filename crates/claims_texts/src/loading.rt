//! Loading an assembled program into a machine that was booted. The functions do nothing: their contracts are
//! the laws.

ghost use Rattle.claims_texts.specs.Loading.{LoadsWhereItFits, RefusedWhereItDoesNot, AssembledAndRun};

use crate::running::a_step_does_its_line;
use evm_elf::{lines_are_worded, words_stand, written_is_read};

/// The image of an assembled program is loaded where RAM has room for its bytes, and refused with BadAddress where
/// it has not. Loaded, each line's word stands at its address, and task 0 begins at 0x80000000.
pub fn an_assembled_image_loads()
    ensures loads { LoadsWhereItFits }
    ensures refused { RefusedWhereItDoesNot }
{
    lines_are_worded();
    words_stand();
    written_is_read();
}

/// After boot and loading, the first Step of processor 0 does the line that stands at 0x80000000, and answers
/// that task 0 ran.
pub fn assembled_and_run()
    ensures { AssembledAndRun }
{
    lines_are_worded();
    words_stand();
    written_is_read();
    a_step_does_its_line();
}
