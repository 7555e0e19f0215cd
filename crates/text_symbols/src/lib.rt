//! The names of an image's addresses, tasks and objects: from the symbol table of its ELF64 file (System V gABI, "Symbol Table"), and from
//! its map.
#![tactic(auto)]

mod checksum;
mod entries;
mod fields;
mod map;
mod memory;
mod names;
mod naming;
mod nearest;
mod sections;
mod source_line;
mod symbol;
mod symbols;

pub use map::{Map, MapFault, ObjectKind, ObjectKind as Kind};
pub use naming::{CodeSpot, Names, Standing, push_code};
pub use source_line::SourceLine;
pub use symbol::{Symbol, SymbolKind};
pub use symbols::{SymbolTable, Symbols};
