//! Plain lines of scripts: made of a line with names, and reported where they are not done.

use crate::numbers::{address_of, missing_name};
use crate::page::Page;
use crate::registers::register_number;
use crate::words::split_word;
use evm_ram::Image;
use evm_room::NoMemory;
use evm_serve::{
    InputFault, Line, PlainLine, ScriptStop, event_cpu, fault_detail, read_line, script_text,
    view_cpu,
};
use evm_streams::{Diagnostic, LineFault, report_line};
use evm_text::cut_line;
use std::alloc::Global;
use text_symbols::Names;

// Whether the field of a command, counted from 0, is an address or another hexadecimal number.
fn is_address(keyword: &str, field: u8) -> bool {
    match keyword {
        "break" | "unbreak" | "mem" | "poke" => field == 0,
        "setpc" => field == 1,
        "set" => field == 2,
        _ => false,
    }
}

// Whether it is the number of a register.
fn is_register(keyword: &str, field: u8) -> bool {
    keyword == "set" && field == 1
}

fn put_field(
    page: &mut Page,
    names: &Names,
    keyword: &str,
    field: u8,
    word: &str,
) -> Result<(), NoMemory> {
    if is_address(keyword, field)
        && let Some(address) = address_of(&names.symbols, word)
    {
        return page.put_hexadecimal(address);
    }
    if is_register(keyword, field)
        && let Some(number) = register_number(word)
    {
        return page.put_decimal(number);
    }
    page.put(word)
}

/// The name of no symbol that stands in a line where an address should.
pub fn missing_symbol<'a>(names: &Names, line: &'a str) -> Option<&'a str> {
    let (keyword, mut rest) = split_word(line);
    for field in 0..3u8 {
        let (word, after) = split_word(rest);
        if is_address(keyword, field)
            && let Some(name) = missing_name(&names.symbols, word)
        {
            return Some(name);
        }
        rest = after;
    }
    None
}

/// The plain line of a line with names: words with one blank between them, and numbers where names stood.
pub fn put_plain(page: &mut Page, names: &Names, line: &str) -> Result<(), NoMemory> {
    let (keyword, mut rest) = split_word(line);
    page.put(keyword)?;
    for field in 0..8u8 {
        let (word, after) = split_word(rest);
        if word.is_empty() {
            return Ok(());
        }
        page.put(" ")?;
        put_field(page, names, keyword, field, word)?;
        rest = after;
    }
    page.put(" ")?;
    page.put(rest)
}

// The processor that a line names.
fn cpu_of(line: &[u8]) -> Option<u8> {
    match read_line(line) {
        Ok(Line::Steps(c, _)) => Some(c),
        Ok(Line::One(event)) => event_cpu(&event.lend()),
        Ok(Line::Show(view)) => view_cpu(&view),
        _ => None,
    }
}

fn fault_of(stop: ScriptStop, number: u64, line: &[u8]) -> Option<InputFault> {
    match stop {
        ScriptStop::Misspelt => Some(InputFault::BadLine(number, LineFault::OutsideGrammar)),
        ScriptStop::NotBooted => Some(InputFault::BadLine(number, LineFault::NotBooted)),
        ScriptStop::BootedAgain => Some(InputFault::BadLine(number, LineFault::BootedAgain)),
        ScriptStop::Refused(refusal) => Some(InputFault::Refused(number, cpu_of(line), refusal)),
        ScriptStop::NoMemory => None,
    }
}

/// Why the line of this number of a script is not done; none where memory was refused.
pub fn script_fault(script: &[u8], number: u64, stop: ScriptStop) -> Option<InputFault> {
    let mut rest = script;
    for _ in 1..number {
        let Some((_, after)) = cut_line(rest) else {
            break;
        };
        rest = after;
    }
    let line = match cut_line(rest) {
        Some((line, _)) => line,
        None => b"",
    };
    fault_of(stop, number, line)
}

/// A plain line that is not done.
#[derive(Clone, Copy)]
pub struct StoppedLine<'a> {
    /// The number under which it is reported.
    pub number: u64,
    pub line: &'a [u8],
    pub stop: ScriptStop,
    /// The lines that were done before it.
    pub done: &'a [PlainLine],
    pub image: &'a Image,
}

/// Says why a plain line is not done, as `evltool` says it of a line of a script; the line is behind those that were done.
pub fn report_stop(
    alloc: Global,
    page: &mut Page,
    stopped: &StoppedLine<'_>,
) -> Result<(), NoMemory> {
    let mut text = Page::new(alloc);
    text.put_bytes(&script_text(alloc, stopped.done)?)?;
    text.put_bytes(stopped.line)?;
    text.put("\n")?;
    let place = (stopped.done.len() as u64).saturating_add(1);
    let Some(fault) = fault_of(stopped.stop, place, stopped.line) else {
        return Err(NoMemory);
    };
    let message = fault_detail(Some(stopped.image), text.bytes(), fault);
    page.put("! ")?;
    report_line(
        "line",
        stopped.number,
        Diagnostic::Alone(message),
        page.sink(),
    );
    Ok(())
}
