//! The words of a source: its characters and tokens, the names of the language, and why a line is refused.
#![tactic(auto)]

mod extensions;
mod fault;
pub mod laws;
mod message;
mod mnemonic;
mod names;
mod registers;
mod source_fault;
mod text;
mod token;

pub use extensions::{Extension, extension_of};
pub use fault::{AsmFault, AsmFaultKind};
pub use mnemonic::{BareOp, DataWidth, Mnemonic, Section, UnaryOp};
pub use names::mnemonic_named;
pub use registers::register_named;
pub use source_fault::{SourceFault, SourceFaultKind, both, least};
pub use text::{
    after, before, behind_word, cut, cut_word, first_word, has_byte, is_name_start, skip_blanks,
};
pub use token::{bad_token, is_sound, size, starts_with_digit};
