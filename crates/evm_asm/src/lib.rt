//! An assembler of RV64I, and the details of the fault of a source, beside its message: the word that is wrong, and the
//! reason of the fault.
#![tactic(auto)]

mod detail;
mod failure;
mod item;
mod laws;
mod layout;
mod meaning;
mod output;
mod place;
mod program;
mod quoting;

pub use detail::{SourceDetail, source_detail};
pub use evm_asm_parser::{AsmFault, AsmFaultKind, Extension};
pub use laws::{
    all_that_is_meant_stands, la_loads, li_loads, lines_are_worded, programs_fit, words_stand,
};
pub use layout::{code_of, label_at, statement_text};
pub use output::ProgramLine;
pub use place::is_directive;
pub use program::{Program, assemble};
pub use quoting::quoted;
