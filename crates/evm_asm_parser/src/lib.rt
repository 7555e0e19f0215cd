//! The statements of a source: their operands, and the labels that they name.
#![tactic(auto)]

mod directive;
mod instruction;
mod kept;
mod labels;
mod memory;
mod operand;
mod pseudo;
mod spot;
mod statement;
mod target;

pub use directive::{also, datum_in};
pub use evm_asm_lexer::{
    AsmFault, AsmFaultKind, DataWidth, Extension, Mnemonic, Section, SourceFault, SourceFaultKind,
    after, bad_token, before, behind_word, cut, cut_word, extension_of, first_word, has_byte,
    is_sound, least, mnemonic_named, register_named, skip_blanks,
};
pub use instruction::upper;
pub use kept::{Kept, KeptLines};
pub use labels::Labels;
pub use memory::{extend_bytes, push};
pub use operand::{first_operand, how_many, name_in, other_operands, starts_with_name};
pub use spot::Spot;
pub use statement::{Datum, Statement, StatementReading, statement_of, zero};
