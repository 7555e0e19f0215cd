//! What a machine does with an assembled program.

ghost use Rattle.claims_texts.specs.Expansions.{EachLiIsExecuted, EachLaIsExecuted};
ghost use Rattle.claims_texts.specs.Loading.{LoadsWhereItFits, RefusedWhereItDoesNot, AssembledAndRun};
ghost use Rattle.claims_texts.specs.Pseudo.{LiLeavesItsNumber, LaLeavesItsAddress, WhatIsLoadedIsRead, EachLiLoads, EachLaLoads, OperandsAreInRange};
ghost use Rattle.claims_texts.specs.Running.{OfEachLine, ExecutesLine, StepsLine, AcceptsStep};
ghost use Rattle.claims_texts.specs.Staying.{ALineStays, RunsAsAssembled};

use crate::expansions::{each_la_is_executed, each_li_is_executed};
use crate::loading::{an_assembled_image_loads, assembled_and_run};
use crate::pseudo::{
    each_la_loads, each_li_loads, la_leaves_its_address, li_leaves_its_number,
    operands_are_in_range, what_is_loaded_is_read,
};
use crate::running::{a_step_does_its_line, a_word_is_its_instruction};
use crate::staying::{a_line_stays, an_assembled_program_runs};

/// A program whose bytes fit RAM is loaded, and another is refused with BadAddress. The first Step does the line at
/// 0x80000000.
pub fn an_image_loads_where_it_fits()
    ensures loads { LoadsWhereItFits }
    ensures refused { RefusedWhereItDoesNot }
    ensures runs { AssembledAndRun }
{
    an_assembled_image_loads();
    assembled_and_run();
}

/// A Step of a processor whose task comes to the address of a line does the line's instruction, after any events that
/// wrote nothing over the line's four bytes.
pub fn each_line_does_its_instruction()
    ensures executes { OfEachLine ExecutesLine }
    ensures steps { OfEachLine StepsLine }
    ensures accepted { OfEachLine AcceptsStep }
    ensures stays { ALineStays }
    ensures runs { RunsAsAssembled }
{
    a_word_is_its_instruction();
    a_step_does_its_line();
    a_line_stays();
    an_assembled_program_runs();
}

/// The instructions of `li rd,n` and `la rd,l`, done one after the other, leave n, or the address of l, in rd and the
/// pc behind them; nothing else of the hart changes.
pub fn li_and_la_load_what_they_name()
    ensures numbers { LiLeavesItsNumber }
    ensures addresses { LaLeavesItsAddress }
    ensures read { WhatIsLoadedIsRead }
    ensures ranges { OperandsAreInRange }
    ensures each_li { EachLiLoads }
    ensures each_la { EachLaLoads }
    ensures li_executed { EachLiIsExecuted }
    ensures la_executed { EachLaIsExecuted }
{
    li_leaves_its_number();
    la_leaves_its_address();
    what_is_loaded_is_read();
    operands_are_in_range();
    each_li_loads();
    each_la_loads();
    each_li_is_executed();
    each_la_is_executed();
}
