//! What a task does at the pseudo instructions of a source that load a number. The functions do nothing: their
//! contracts are the laws.

ghost use Rattle.claims_texts.specs.Expansions.{EachLiIsExecuted, EachLaIsExecuted};

use crate::pseudo::{each_la_loads, each_li_loads};
use evm_elf::{all_that_is_meant_stands, lines_are_worded};
use evm_isa::decoded_by_table;

/// A task whose pc is at a line with `li rd,n`, where the program's words stand in RAM, gets n into rd and its pc
/// behind the line by executing as many instructions as the line becomes. Nothing else changes.
pub fn each_li_is_executed()
    ensures { EachLiIsExecuted }
{
    all_that_is_meant_stands();
    lines_are_worded();
    decoded_by_table();
    each_li_loads();
}

/// A task whose pc is at a line with `la rd,l` likewise gets the address of l into rd, by two instructions.
pub fn each_la_is_executed()
    ensures { EachLaIsExecuted }
{
    all_that_is_meant_stands();
    lines_are_worded();
    decoded_by_table();
    each_la_loads();
}
