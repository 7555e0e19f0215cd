//! The symbols of a file.

ghost use Rattle.std.specs.Prelude.{◌≡◌, ◌≤◌, ◌/◌, IsTrue, IfOk, IfErr, OnErr, option_map};
ghost use Rattle.std.specs.List.{find};
ghost use Rattle.evm_room.specs.Growth.{RefusedWithin};
ghost use Rattle.text_symbols.specs.Entries.{section_bytes, symbols_from, known_by, symbols_of_file};
ghost use Rattle.text_symbols.specs.Sections.{is_whole, AreInside};
ghost use Rattle.text_symbols.specs.Nearest.{place_of, name_and_offset, IsPlace, is_named, valued};

use crate::entries::{section_bytes, symbols_from};
use crate::nearest::{place_of, value_of};
use crate::sections::{Section, Tables, tables_of};
use crate::symbol::Symbol;
use evm_room::{NoMemory, Refused};
use std::alloc::Global;
use std::marker::Model;

/// Whether a file has a symbol table.
#[derive(Clone, Copy, Debug, PartialEq, Eq)]
pub enum SymbolTable {
    /// It has none, or is no ELF64 file.
    Absent,
    /// What its headers say of it can't be.
    Damaged,
    /// It was read.
    Read,
}

/// The symbols of a file that have names: none where it has no symbol table, or a damaged one.
#[derive(Debug, Drop)]
pub struct Symbols {
    table: SymbolTable,
    symbols: Vec<Symbol>,
}

impl Model for Symbols {
    ghost use Rattle.text_symbols.specs.Named.{FileSymbols};

    ghost Value = { FileSymbols };

    ghost view = { λ s. record { table = s.table; symbols = s.symbols.items } };
}

/// The symbols of a symbol table and the section of its names.
fn symbols_of(
    alloc: Global,
    file: &[u8],
    entries: &Section,
    names: &Section,
) -> Result<Vec<Symbol>, Refused>
    requires entries { IsTrue (is_whole file.now entries.now) }
    requires names { IsTrue (is_whole file.now names.now) }
    ensures ok { IfOk result (λ symbols. symbols.items ≡ symbols_from file.now (section_bytes file.now names.now) entries.now.offset (entries.now.size / 24)) }
    ensures refused { IfErr result (λ asked. asked ≤ 255) }
{
    let count = entries.size / 24;
    symbols_from(
        alloc,
        file,
        section_bytes(file, names),
        entries.offset as usize,
        count as usize,
    )
}

/// The symbols of the tables that were found.
fn known_by(alloc: Global, file: &[u8], tables: Tables) -> Result<Symbols, Refused>
    requires { AreInside file.now tables }
    ensures ok { IfOk result (λ known. known ≡ known_by file.now tables) }
    ensures refused { IfErr result (λ asked. asked ≤ 255) }
{
    let (table, symbols) = match tables {
        Tables::Absent => (SymbolTable::Absent, Vec::new(alloc)),
        Tables::Damaged => (SymbolTable::Damaged, Vec::new(alloc)),
        Tables::Found(entries, names) => (
            SymbolTable::Read,
            symbols_of(alloc, file, &entries, &names)?,
        ),
    };
    Ok(Symbols { table, symbols })
}

impl Symbols {
    /// Reads the symbols of a file. It allocates at most 80 bytes and the name, of up to 255 bytes, for each 24 bytes of the table.
    ///
    /// # Errors
    ///
    /// `NoMemory` where memory was refused.
    #[tactic(auto, unfolding(crate::specs::Entries::symbols_of_file))]
    pub fn read(alloc: Global, file: &[u8]) -> Result<Symbols, NoMemory>
        ensures ok { IfOk result (λ known. known ≡ symbols_of_file file.now) }
        ensures refused { OnErr result (RefusedWithin 255) }
    {
        match known_by(alloc, file, tables_of(file)) {
            Ok(symbols) => Ok(symbols),
            Err(refused) => {
                refused.within();
                Err(NoMemory)
            }
        }
    }

    /// Whether the file has a symbol table.
    pub fn table(&self) -> SymbolTable
        ensures { result ≡ self.now.table }
    {
        self.table
    }

    /// The symbols, in the file's order.
    pub fn symbols(&self) -> &[Symbol]
        ensures { result.now ≡ self.now.symbols }
    {
        &self.symbols
    }

    /// The symbol that an address belongs to, and how many bytes behind it the address is: of the functions and
    /// objects that hold the address the one that begins last, or else the last label at it or before it. Of
    /// several that begin there it is the first of the table.
    #[tactic(auto, using(crate::proofs::IsFound::place_is))]
    pub fn at(&self, address: u64) -> Option<(&str, u64)>
        ensures exact { option_map (λ x. (x.0.now, x.1)) result ≡ name_and_offset address (place_of self.now.symbols address) }
        ensures place { IsPlace self.now.symbols address (place_of self.now.symbols address) }
    {
        let symbol = place_of(&self.symbols, address)?;
        Some((symbol.name(), address - symbol.value()))
    }

    /// The value of the first symbol of a name.
    pub fn address(&self, name: &str) -> Option<u64>
        ensures { result ≡ valued (find (is_named name.now) self.now.symbols) }
    {
        value_of(&self.symbols, name)
    }
}
