//! The sections of an ELF64 file.

ghost use Rattle.std.specs.Prelude.{◌≡◌, ◌+◌, ◌*◌, ◌<◌, ◌≤◌, IsTrue, length};
ghost use Rattle.std.specs.List.{find};
ghost use Rattle.text_symbols.specs.declared.sections.Tables.{Tables};
ghost use Rattle.text_symbols.specs.Sections.{is_elf64, section, sections_from, has_headers, is_whole, is_symbol_table, is_names, headers_offset, section_header_count, linked, tables_by, tables_in, tables_of, AreInside};

use crate::fields::{byte_at, half_at, long_at, word_at};

/// The fields of a section header that matter here.
#[derive(Clone, Copy, Debug)]
pub(crate) struct Section {
    pub kind: u32,
    pub offset: u64,
    pub size: u64,
    pub link: u32,
    pub entry_size: u64,
}

/// The symbol table of a file and the section of its names.
#[derive(Clone, Copy, Debug)]
pub(crate) enum Tables {
    Absent,
    Damaged,
    Found(Section, Section),
}

impl Section {
    /// Whether the section's bytes lie in the file.
    pub fn is_whole(&self, file: &[u8]) -> bool
        ensures { result ≡ is_whole file.now self.now }
    {
        u128::from(self.offset) + u128::from(self.size) <= file.len() as u128
    }

    fn is_symbol_table(&self) -> bool
        ensures { result ≡ is_symbol_table self.now }
    {
        self.kind == 2
    }

    fn is_names(&self) -> bool
        ensures { result ≡ is_names self.now }
    {
        self.kind == 3
    }
}

fn is_elf64(file: &[u8]) -> bool
    ensures { result ≡ is_elf64 file.now }
{
    file.len() >= 64
        && word_at(file, 0) == 0x464c_457f
        && byte_at(file, 4) == 2
        && byte_at(file, 5) == 1
}

fn has_headers(file: &[u8]) -> bool
    requires { 64 ≤ length file.now }
    ensures { result ≡ has_headers file.now }
{
    let end = u128::from(long_at(file, 40)) + 64 * u128::from(half_at(file, 60));
    half_at(file, 58) == 64 && end <= file.len() as u128
}

/// Section `index`.
#[tactic(auto, unfolding(crate::specs::Sections::section_at))]
fn section_of(file: &[u8], index: u32) -> Section
    requires long { 64 ≤ length file.now }
    requires inside { headers_offset file.now + 64 * index + 64 ≤ length file.now }
    ensures { result ≡ section file.now index }
{
    let at = long_at(file, 40) as usize + 64 * index as usize;
    Section {
        kind: word_at(file, at + 4),
        offset: long_at(file, at + 24),
        size: long_at(file, at + 32),
        link: word_at(file, at + 40),
        entry_size: long_at(file, at + 56),
    }
}

/// The first section that is a symbol table.
#[tactic(auto, using(crate::proofs::OneBehind::sections_more, crate::proofs::OneBehind::sections_done))]
fn symbol_table(file: &[u8], count: u16) -> Option<Section>
    requires long { 64 ≤ length file.now }
    requires inside { headers_offset file.now + 64 * count ≤ length file.now }
    ensures { result ≡ find is_symbol_table (sections_from file.now 0 count) }
{
    for i in 0..count {
        let section = section_of(file, u32::from(i));
        if section.is_symbol_table() {
            return Some(section);
        }
    }
    None
}

fn linked(file: &[u8], symbols: Section, names: Section) -> Tables
    requires { IsTrue (is_whole file.now symbols) }
    ensures exact { result ≡ linked file.now symbols names }
    ensures inside { AreInside file.now result }
{
    if names.is_names() && names.is_whole(file) {
        Tables::Found(symbols, names)
    } else {
        Tables::Damaged
    }
}

fn tables_by(file: &[u8], found: Option<Section>) -> Tables
    requires long { 64 ≤ length file.now }
    requires headers { IsTrue (has_headers file.now) }
    ensures exact { result ≡ tables_by file.now found }
    ensures inside { AreInside file.now result }
{
    let Some(symbols) = found else {
        return Tables::Absent;
    };
    if symbols.entry_size == 24
        && symbols.is_whole(file)
        && symbols.link < u32::from(half_at(file, 60))
    {
        linked(file, symbols, section_of(file, symbols.link))
    } else {
        Tables::Damaged
    }
}

fn tables_in(file: &[u8]) -> Tables
    requires { 64 ≤ length file.now }
    ensures exact { result ≡ tables_in file.now }
    ensures inside { AreInside file.now result }
{
    if has_headers(file) {
        tables_by(file, symbol_table(file, half_at(file, 60)))
    } else {
        Tables::Damaged
    }
}

/// The symbol table of a file, which is the first section of that kind, with the section of its names.
#[tactic(auto, unfolding(crate::specs::Sections::tables_of))]
pub(crate) fn tables_of(file: &[u8]) -> Tables
    ensures exact { result ≡ tables_of file.now }
    ensures inside { AreInside file.now result }
{
    if is_elf64(file) {
        if half_at(file, 60) == 0 {
            Tables::Absent
        } else {
            tables_in(file)
        }
    } else {
        Tables::Absent
    }
}
