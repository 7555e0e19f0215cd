//! The names of an image: its symbols and its map.

use crate::checksum::checksum;
use crate::map::{Map, ObjectKind};
use crate::memory::long_in;
use crate::source_line::{Frame, SourceLine};
use crate::symbols::Symbols;
use evm_room::{Refused, push_text};
use evm_text::{push_decimal, push_hexadecimal};

/// The names of an image: its symbols, and its map, which is empty where it has none.
#[derive(Drop)]
pub struct Names {
    pub symbols: Symbols,
    pub map: Map,
}

/// Where code is.
#[derive(Clone, Copy, Debug, PartialEq, Eq)]
pub enum CodeSpot<'a> {
    /// At a line of a source.
    Source(SourceLine<'a>),
    /// At a symbol, or some bytes behind it.
    Symbol(&'a str, u64),
}

/// Where a task is: its pc, and the registers that lead to its callers.
#[derive(Clone, Copy, Debug)]
pub struct Standing {
    pub pc: u64,
    pub ra: u64,
    pub sp: u64,
}

/// The most functions of the library that are left to find the program's own line.
const MOST_CALLERS: u8 = 16;

// Where the caller is: at its call.
fn caller(ram: &[u8], at: Standing, frame: Frame) -> Option<Standing> {
    let end = at.sp.checked_add(frame.size)?;
    let back = match frame.saved {
        None => at.ra,
        Some(below) => long_in(ram, end.checked_sub(below)?)?,
    };
    Some(Standing {
        pc: back.checked_sub(4)?,
        ra: back,
        sp: end,
    })
}

impl Names {
    /// Whether the map is of the image with these bytes, or doesn't say of which it is.
    pub fn is_of(&self, file: &[u8]) -> bool {
        match self.map.mark() {
            None => true,
            Some(mark) => mark.size == file.len() as u64 && mark.sum == u64::from(checksum(file)),
        }
    }

    /// Where the code at an address is: by the map, or else by the symbols.
    pub fn code(&self, address: u64) -> Option<CodeSpot<'_>> {
        if let Some(origin) = self.map.origin(address) {
            return Some(CodeSpot::Source(origin.line));
        }
        let (name, offset) = self.symbols.at(address)?;
        Some(CodeSpot::Symbol(name, offset))
    }

    // The line of the program's own that has called what a task is in, if that is of the library.
    fn own_line(&self, ram: &[u8], at: Standing) -> Option<SourceLine<'_>> {
        let mut at = at;
        let mut called = "";
        for _ in 0..MOST_CALLERS {
            let origin = self.map.origin(at.pc)?;
            let line = origin.line;
            if origin.is_own && line.call.is_empty() {
                return Some(SourceLine {
                    call: called,
                    ..line
                });
            }
            if origin.is_own {
                return Some(line);
            }
            called = line.function;
            at = caller(ram, at, origin.frame?)?;
        }
        None
    }

    /// Where a task is: as `code` says of its pc, but of code of the kit's library the line that has called it.
    pub fn code_of(&self, ram: &[u8], at: Standing) -> Option<CodeSpot<'_>> {
        match self.own_line(ram, at) {
            Some(line) => Some(CodeSpot::Source(line)),
            None => self.code(at.pc),
        }
    }

    /// The name of a task. `ram` are the bytes of RAM from 80000000 on, `thread` is the task's register tp.
    pub fn task<'a>(&'a self, ram: &'a [u8], task: u8, thread: u64) -> Option<&'a str> {
        self.map
            .name(ram, ObjectKind::Task, task, long_in(ram, thread))
    }

    /// The name of an object of another kind.
    pub fn object<'a>(&'a self, ram: &'a [u8], kind: ObjectKind, number: u8) -> Option<&'a str> {
        self.map.name(ram, kind, number, None)
    }
}

fn push_source(out: &mut String, line: SourceLine<'_>) -> Result<(), Refused> {
    push_text(out, line.file)?;
    push_text(out, ":")?;
    push_decimal(out, line.line)?;
    let shown = line.shown();
    if shown.is_empty() {
        return Ok(());
    }
    push_text(out, " (")?;
    push_text(out, shown)?;
    push_text(out, ")")
}

/// Appends where code is: `queue.c:41 (evl_get_sem)`, `main` or `main+0x8`.
pub fn push_code(out: &mut String, spot: CodeSpot<'_>) -> Result<(), Refused> {
    match spot {
        CodeSpot::Source(line) => push_source(out, line),
        CodeSpot::Symbol(name, 0) => push_text(out, name),
        CodeSpot::Symbol(name, offset) => {
            push_text(out, name)?;
            push_text(out, "+0x")?;
            push_hexadecimal(out, offset)
        }
    }
}
