//! The names of an image: the symbols of its file, and its map.

use crate::exit::{memory_refused, not_opened, not_read};
use crate::system::{OpenFault, System, World};
use evm_streams::{Diagnostic, Message, read_all, read_utf8, report, report_line};
use std::alloc::Global;
use text_symbols::{Map, MapFault, Names, Symbols};

fn bytes_at<S: System>(alloc: Global, path: &str, world: &mut World<S>) -> Result<Vec<u8>, u8> {
    let mut file = match world.files.open(path) {
        Ok(file) => file,
        Err(fault) => return Err(not_opened(path, fault, &mut world.errors)),
    };
    match read_all(alloc, &mut file) {
        Ok(bytes) => Ok(bytes),
        Err(stop) => Err(not_read(stop, path, world)),
    }
}

fn symbols_in<S: System>(
    alloc: Global,
    program: &str,
    file: &[u8],
    world: &mut World<S>,
) -> Result<Symbols, u8> {
    match Symbols::read(alloc, file) {
        Ok(symbols) => Ok(symbols),
        Err(_) => Err(memory_refused(program, world)),
    }
}

// The map of a text, which a file has.
fn map_in<S: System>(
    alloc: Global,
    program: &str,
    path: &str,
    text: &str,
    world: &mut World<S>,
) -> Result<Map, u8> {
    match Map::read(alloc, text) {
        Ok(map) => Ok(map),
        Err(MapFault::NoMemory) => Err(memory_refused(program, world)),
        Err(MapFault::BadLine(number, wanted)) => {
            let message = Diagnostic::Alone(Message::Plain(wanted));
            report_line(path, number, message, &mut world.errors);
            Err(1)
        }
    }
}

/// The file of a map, and whether the command line names it. One that isn't named may be missing.
#[derive(Clone, Copy)]
struct MapFile<'a> {
    path: &'a str,
    is_named: bool,
}

// The map of a file; none where there is no such file, and it need not be there.
fn map_at<S: System>(
    alloc: Global,
    program: &str,
    map: MapFile<'_>,
    world: &mut World<S>,
) -> Result<Option<Map>, u8> {
    let mut file = match world.files.open(map.path) {
        Ok(file) => file,
        Err(OpenFault::Missing | OpenFault::NameTooLong) if !map.is_named => return Ok(None),
        Err(fault) => return Err(not_opened(map.path, fault, &mut world.errors)),
    };
    match read_utf8(alloc, &mut file) {
        Ok(text) => Ok(Some(map_in(alloc, program, map.path, text.as_str(), world)?)),
        Err(stop) => Err(not_read(stop, map.path, world)),
    }
}

// The path of the map that lies beside an image: NAME.map of NAME.elf.
fn map_beside<S: System>(
    alloc: Global,
    program: &str,
    image: &str,
    world: &mut World<S>,
) -> Result<String, u8> {
    let name = image.strip_suffix(".elf").unwrap_or(image);
    match format!(in alloc; "{name}.map") {
        Ok(path) => Ok(path),
        Err(_) => Err(memory_refused(program, world)),
    }
}

// The symbols of an image and the map of a file. A map of another build is refused if it was named, and else left out.
fn names_with<S: System>(
    alloc: Global,
    program: &str,
    image: &str,
    file: MapFile<'_>,
    world: &mut World<S>,
) -> Result<Names, u8> {
    let bytes = bytes_at(alloc, image, world)?;
    let symbols = symbols_in(alloc, program, bytes.as_slice(), world)?;
    let Some(map) = map_at(alloc, program, file, world)? else {
        let map = Map::new(alloc);
        return Ok(Names { symbols, map });
    };
    let mut names = Names { symbols, map };
    if names.is_of(bytes.as_slice()) {
        return Ok(names);
    }
    if file.is_named {
        let message = Message::Plain("it is the map of another build: make it again with kit/map");
        report(file.path, message, &mut world.errors);
        return Err(1);
    }
    let message = Message::Plain(
        "left out: it is the map of another build; make it again with kit/map",
    );
    report(file.path, message, &mut world.errors);
    names.map = Map::new(alloc);
    Ok(names)
}

/// The names of an image, whose file was read as an image before: its symbols, and the map of a path, or else the one beside it, if one is
/// there.
///
/// # Errors
///
/// The status of the job: a file can't be opened or read, a line of the map is bad, the map is of another build, memory was refused.
pub fn names_at<S: System>(
    alloc: Global,
    program: &str,
    image: &str,
    map: Option<&str>,
    world: &mut World<S>,
) -> Result<Names, u8> {
    match map {
        Some(path) => {
            let file = MapFile {
                path,
                is_named: true,
            };
            names_with(alloc, program, image, file, world)
        }
        None => {
            let path = map_beside(alloc, program, image, world)?;
            let file = MapFile {
                path: path.as_str(),
                is_named: false,
            };
            names_with(alloc, program, image, file, world)
        }
    }
}
