//! The header of a run: JSON with the names of its files, the bytes of its pokes, and the symbols of the program.

use crate::poking::push_pokes;
use evm_ram::BASE;
use evm_room::{Refused, push_text};
use evm_text::push_decimal;
use run_walk::{Kind, Named, Names, RunNames};
use std::alloc::Global;
use text_markup::push_quoted;
use text_symbols::{Map, SourceLine, Symbol, SymbolKind};

/// What a page says of a run.
#[derive(Clone, Copy)]
pub struct About<'a> {
    /// The file of the program.
    pub image: &'a str,
    /// The file of the journal.
    pub journal: &'a str,
    /// Its symbols, and its map.
    pub program: &'a Names,
    /// The names of its tasks and objects.
    pub names: &'a RunNames,
    /// The event that the page shows first, counted from 0.
    pub from: u64,
    /// The event behind the last that it shows first.
    pub to: u64,
    /// The event where the run and another part.
    pub parts: Option<u64>,
}

/// How many numbers a half of 64 bits has.
const HALF: u64 = 4_294_967_296;

// A member: its key and a number.
fn push_number(out: &mut String, key: &str, number: u64) -> Result<(), Refused> {
    push_text(out, key)?;
    push_decimal(out, number)
}

fn kind_number(kind: SymbolKind) -> u64 {
    match kind {
        SymbolKind::Function => 0,
        SymbolKind::Object => 1,
        SymbolKind::Label => 2,
        SymbolKind::Absolute => 3,
    }
}

// A symbol: its name, its value in two halves, its size and its kind.
fn push_symbol(out: &mut String, symbol: &Symbol) -> Result<(), Refused> {
    push_text(out, "[")?;
    push_quoted(out, symbol.name().as_bytes())?;
    push_number(out, ",", symbol.value() / HALF)?;
    push_number(out, ",", symbol.value() % HALF)?;
    push_number(out, ",", symbol.size())?;
    push_number(out, ",", kind_number(symbol.kind()))?;
    push_text(out, "]")
}

fn push_symbols(out: &mut String, symbols: &[Symbol]) -> Result<(), Refused> {
    let mut comma = "";
    for symbol in symbols {
        push_text(out, comma)?;
        push_symbol(out, symbol)?;
        comma = ",";
    }
    Ok(())
}

// What has a name: 0 for a task, else as in an entry that waits for it.
fn named_number(kind: Kind) -> u64 {
    match kind {
        Kind::Task => 0,
        Kind::Mutex => 2,
        Kind::Semaphore => 4,
        Kind::Event => 5,
        Kind::Flags => 6,
        Kind::Timer => 8,
    }
}

fn push_name(out: &mut String, named: &Named) -> Result<(), Refused> {
    push_number(out, "[", named_number(named.kind))?;
    push_number(out, ",", u64::from(named.number))?;
    push_text(out, ",")?;
    push_quoted(out, named.name.as_bytes())?;
    push_text(out, "]")
}

fn push_names(out: &mut String, names: &[Named]) -> Result<(), Refused> {
    let mut comma = "";
    for named in names {
        push_text(out, comma)?;
        push_name(out, named)?;
        comma = ",";
    }
    Ok(())
}

// A line of code: where it begins, behind RAM's begin, and the line of a source that it comes from.
fn push_line(out: &mut String, offset: u64, line: Option<SourceLine<'_>>) -> Result<(), Refused> {
    push_number(out, "[", offset)?;
    if let Some(line) = line {
        push_text(out, ",")?;
        push_quoted(out, line.file.as_bytes())?;
        push_number(out, ",", line.line)?;
        push_text(out, ",")?;
        push_quoted(out, line.function.as_bytes())?;
    }
    push_text(out, "]")
}

fn push_lines(out: &mut String, map: &Map) -> Result<(), Refused> {
    let mut comma = "";
    for number in 0..map.code_count() {
        if let Some((address, line)) = map.code_line(number)
            && address >= BASE
        {
            push_text(out, comma)?;
            push_line(out, address - BASE, line)?;
            comma = ",";
        }
    }
    Ok(())
}

// The numbers of a window, and where the run parts from another.
fn push_window(out: &mut String, about: &About<'_>) -> Result<(), Refused> {
    push_number(out, ",\"from\":", about.from)?;
    push_number(out, ",\"to\":", about.to.min(u64::from(u32::MAX)))?;
    match about.parts {
        None => Ok(()),
        Some(event) => push_number(out, ",\"parts\":", event),
    }
}

/// The header of a run, whose journal has this text.
pub fn about_text(alloc: Global, about: &About<'_>, journal: &str) -> Result<String, Refused> {
    let mut out = String::new(alloc);
    push_text(&mut out, "{\"image\":")?;
    push_quoted(&mut out, about.image.as_bytes())?;
    push_text(&mut out, ",\"journal\":")?;
    push_quoted(&mut out, about.journal.as_bytes())?;
    push_window(&mut out, about)?;
    push_text(&mut out, ",\"pokes\":[")?;
    push_pokes(&mut out, journal.as_bytes())?;
    push_text(&mut out, ",\"symbols\":[")?;
    push_symbols(&mut out, about.program.symbols.symbols())?;
    push_text(&mut out, "],\"names\":[")?;
    push_names(&mut out, about.names.all())?;
    push_text(&mut out, "],\"lines\":[")?;
    push_lines(&mut out, &about.program.map)?;
    push_text(&mut out, "]}")?;
    Ok(out)
}
