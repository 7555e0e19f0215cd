//! The entries of a symbol table.

ghost use Rattle.std.specs.Prelude.{◌≡◌, ◌+◌, ◌*◌, ◌≤◌, IfOk, IfErr, OnOk, IsTrue, ◌++◌, option_to_list, length};
ghost use Rattle.std.specs.String.{string_bytes};
ghost use Rattle.text_symbols.specs.Sections.{is_whole};
ghost use Rattle.text_symbols.specs.Entries.{symbol_kind, is_own, symbol_at, symbols_from, section_bytes};

use crate::fields::{byte_at, half_at, long_at, word_at};
use crate::names::name_at;
use crate::sections::Section;
use crate::symbol::{Symbol, SymbolKind};
use evm_room::{Refused, grow, push_text};
use std::alloc::Global;

/// How many bytes an entry takes.
const ENTRY_SIZE: usize = 24;

/// `SHN_UNDEF`, the section of symbols that are defined elsewhere, and `SHN_ABS`, of absolute ones.
const UNDEFINED: u16 = 0;

const ABSOLUTE: u16 = 0xfff1;

fn symbol_kind(kind: u8, section: u16) -> Option<SymbolKind>
    ensures { result ≡ symbol_kind kind section }
{
    if section == UNDEFINED {
        return None;
    }
    match kind {
        2 => Some(SymbolKind::Function),
        1 => Some(SymbolKind::Object),
        0 if section == ABSOLUTE => Some(SymbolKind::Absolute),
        0 => Some(SymbolKind::Label),
        _ => None,
    }
}

/// Whether the symbol is a label of the compiler or the assembler.
fn is_own(kind: SymbolKind, name: &str) -> bool
    ensures { result ≡ is_own kind name.now }
{
    match kind {
        SymbolKind::Label => matches!(name.as_bytes(), [b'.' | b'$', ..]),
        _ => false,
    }
}

fn owned(alloc: Global, name: &str) -> Result<String, Refused>
    ensures ok { IfOk result (λ text. string_bytes text ≡ name.now) }
    ensures refused { IfErr result (λ asked. asked ≤ length name.now) }
{
    let mut text = String::new(alloc);
    push_text(&mut text, name)?;
    Ok(text)
}

/// The symbol of the entry at an offset, if it has a name and is of a kind that matters.
#[tactic(auto, unfolding(crate::specs::Entries::symbol_at))]
fn symbol_at(alloc: Global, file: &[u8], names: &[u8], at: usize) -> Result<Option<Symbol>, Refused>
    requires { at + 24 ≤ length file.now }
    ensures ok { IfOk result (λ symbol. symbol ≡ symbol_at file.now names.now at) }
    ensures refused { IfErr result (λ asked. asked ≤ 255) }
{
    let Some(kind) = symbol_kind(byte_at(file, at + 4) % 16, half_at(file, at + 6)) else {
        return Ok(None);
    };
    let Some(name) = name_at(word_at(file, at), names) else {
        return Ok(None);
    };
    if is_own(kind, name) {
        return Ok(None);
    }
    let name = owned(alloc, name)?;
    let value = long_at(file, at + 8);
    let size = long_at(file, at + 16);
    Ok(Some(Symbol::new(name, value, size, kind)))
}

/// Puts a symbol, if there is one, behind the others.
fn push(symbols: &mut Vec<Symbol>, symbol: Option<Symbol>) -> Result<(), Refused>
    ensures ok { OnOk result (symbols.new.items ≡ symbols.old.items ++ option_to_list symbol) }
    ensures refused { IfErr result (λ asked. asked ≤ 255) }
{
    let Some(symbol) = symbol else {
        return Ok(());
    };
    grow(symbols, 1)?;
    symbols.push_reserved(symbol);
    Ok(())
}

/// The symbols of `count` entries from an offset on, whose names are in a section of names.
pub(crate) fn symbols_from(
    alloc: Global,
    file: &[u8],
    names: &[u8],
    offset: usize,
    count: usize,
) -> Result<Vec<Symbol>, Refused>
    requires { offset + 24 * count ≤ length file.now }
    ensures ok { IfOk result (λ symbols. symbols.items ≡ symbols_from file.now names.now offset count) }
    ensures refused { IfErr result (λ asked. asked ≤ 255) }
{
    let mut symbols = Vec::new(alloc);
    for i in 0..count {
        let symbol = symbol_at(alloc, file, names, offset + ENTRY_SIZE * i)?;
        push(&mut symbols, symbol)?;
    }
    Ok(symbols)
}

/// A section's bytes.
pub(crate) fn section_bytes<'a>(file: &'a [u8], section: &Section) -> &'a [u8]
    requires { IsTrue (is_whole file.now section.now) }
    ensures { result.now ≡ section_bytes file.now section.now }
{
    let offset = section.offset as usize;
    &file[offset..offset + section.size as usize]
}
