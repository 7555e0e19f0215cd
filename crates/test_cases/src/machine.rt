//! The machine of a session, and how GDB comes to it.

use crate::line::{Line, line_of};
use evm_devs::AnyDevice;
use evm_elf::{assemble, read_image, write_image};
use evm_ram::Image;
use gdb_answers::{Boot, LineEnd, Machine, Names, read_line, run_line};
use std::alloc::Global;
use std::rt::Files;
use std::{fs, io};
use text_symbols::{Map, Symbols};

/// How a session is.
#[derive(Debug, Drop)]
pub(crate) struct Setting<'a> {
    pub(crate) boot: Option<Boot>,
    pub(crate) source: Option<&'a str>,
    pub(crate) map: Option<&'a str>,
    pub(crate) gone: bool,
    pub(crate) acknowledged: bool,
    pub(crate) interrupted: bool,
    pub(crate) unwritten: bool,
}

impl<'a> Setting<'a> {
    fn new() -> Self {
        Setting {
            boot: None,
            source: None,
            map: None,
            gone: false,
            acknowledged: false,
            interrupted: false,
            unwritten: false,
        }
    }

    // Takes a line up; false if it is one of a script.
    fn take(&mut self, line: &'a str) -> bool {
        match line {
            "acknowledged" => self.acknowledged = true,
            "interrupted" => self.interrupted = true,
            "unwritten" => self.unwritten = true,
            "gone" => self.gone = true,
            _ => return self.take_more(line),
        }
        true
    }

    fn take_more(&mut self, line: &'a str) -> bool {
        if let Some(name) = line.strip_prefix("source ") {
            self.source = Some(name);
            return true;
        }
        if let Some(name) = line.strip_prefix("map ") {
            self.map = Some(name);
            return true;
        }
        match read_line(line.as_bytes()) {
            Ok(gdb_answers::Line::Boot(numbers)) => {
                self.boot = Some(numbers);
                true
            }
            _ => false,
        }
    }
}

/// The setting of the session whose first line is behind `from`.
pub(crate) fn setting_of<'a>(lines: &[&'a str], from: usize) -> Setting<'a> {
    let mut setting = Setting::new();
    for line in lines.iter().skip(from.saturating_add(1)) {
        match line_of(line) {
            Line::Setting(text) => {
                let _ = setting.take(text);
            }
            Line::Session => return setting,
            _ => {}
        }
    }
    setting
}

/// The image of a source; None where it has a fault.
pub(crate) fn image_of(rt: &(impl Files + AllocGlobal), name: &str) -> io::Result<Option<Image>> {
    let alloc = rt.alloc();
    let source = fs::read_to_string(rt, format!(in alloc; "exchanges/{name}.s")?)?;
    Ok(assembled(alloc, source.as_str()))
}

/// The image of a source; None where it has a fault.
pub(crate) fn assembled(alloc: Global, source: &str) -> Option<Image> {
    let Ok(program) = assemble(alloc, source) else {
        return None;
    };
    let Ok(file) = write_image(alloc, &program) else {
        return None;
    };
    read_image(alloc, file.as_slice()).ok()
}

/// The names of a session: those of its map; None where a line of it is bad.
pub(crate) fn names_of(
    rt: &(impl Files + AllocGlobal),
    setting: &Setting<'_>,
) -> io::Result<Option<Names>> {
    let alloc = rt.alloc();
    let Ok(symbols) = Symbols::read(alloc, b"") else {
        return Err(io::ErrorKind::OutOfMemory.into());
    };
    let Some(name) = setting.map else {
        let map = Map::new(alloc);
        return Ok(Some(Names { symbols, map }));
    };
    let text = fs::read_to_string(rt, format!(in alloc; "exchanges/{name}.map")?)?;
    match Map::read(alloc, text.as_str()) {
        Ok(map) => Ok(Some(Names { symbols, map })),
        Err(_) => Ok(None),
    }
}

/// Runs the lines of a session that are those of a script. False where one isn't done.
pub(crate) fn run_lines(
    alloc: Global,
    machine: &mut Machine<AnyDevice>,
    lines: &[&str],
    from: usize,
) -> bool {
    let mut text = String::new(alloc);
    let mut setting = Setting::new();
    let mut done = true;
    for line in lines.iter().skip(from.saturating_add(1)) {
        match line_of(line) {
            Line::Setting(words) if !setting.take(words) => {
                let end = run_line(machine, words.as_bytes(), &mut text);
                done = done && matches!(end, Ok(LineEnd::Done));
            }
            Line::Session => return done,
            _ => {}
        }
    }
    done
}
