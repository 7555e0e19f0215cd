//! A map: the lines of sources that the code of an image comes from, and the names of tasks and objects. `kit/map` writes it.

ghost use Rattle.std.specs.Prelude.{◌<◌};

use crate::memory::{bytes_in, long_in};
use crate::source_line::{Origin, SourceLine, origin_of};
use evm_room::NoMemory;
use evm_text::{decimal_last, hexadecimal_last};
use std::alloc::Global;

/// Why a map is not read.
#[derive(Clone, Copy, Debug, PartialEq, Eq)]
pub enum MapFault {
    /// The line of this number, from 1, is bad: a message says what is wanted.
    BadLine(u64, &'static str),
    /// Memory was refused.
    NoMemory,
}

/// What has a name.
#[derive(Clone, Copy, Debug, PartialEq, Eq)]
pub enum ObjectKind {
    Task,
    Mutex,
    Semaphore,
    Event,
    Flags,
    Timer,
}

/// What the object of a name is known by.
#[derive(Clone, Copy, Debug, PartialEq, Eq)]
enum Key {
    /// Its number.
    Number(u64),
    /// The address of the 8 bytes that hold its number; of a task the address of its function.
    At(u64),
}

/// Where code begins, and the lines of sources that it comes from; empty where it is of no source.
#[derive(Drop)]
struct CodeLine {
    address: u64,
    places: String,
}

#[derive(Drop)]
struct NameLine {
    kind: ObjectKind,
    key: Key,
    name: String,
}

/// The image that a map is of: the checksum and the size of its file.
#[derive(Clone, Copy, Debug, PartialEq, Eq)]
pub(crate) struct ImageMark {
    pub sum: u64,
    pub size: u64,
}

/// A map.
#[derive(Drop)]
pub struct Map {
    code: Vec<CodeLine>,
    names: Vec<NameLine>,
    table: Option<u64>,
    mark: Option<ImageMark>,
}

/// What a line of a map says.
enum Said<'a> {
    Nothing,
    Image(ImageMark),
    Table(u64),
    Name(ObjectKind, Key, &'a str),
    Code(u64, &'a str),
}

const CODE_FORM: &str =
    "bad line: wanted `ADDRESS FILE:LINE FUNCTION ..`, `ADDRESS -` or a name, as kit/map writes them";

const NAME_FORM: &str = "bad line: wanted a number or `@ADDRESS`, and a name of 1 to 63 characters";

const TABLE_FORM: &str = "bad line: wanted `names ADDRESS`";

const IMAGE_FORM: &str = "bad line: wanted `image CHECKSUM SIZE`, as cksum prints them";

const PLAIN_FORM: &str = "bad line: wanted printable characters of ASCII";

/// The most bytes of a name.
const NAME_LIMIT: usize = 63;

/// In the table of the kit's library: for each kind 64 names of 24 bytes.
const TABLE_NAMES: u64 = 64;

const TABLE_NAME: u64 = 24;

impl ObjectKind {
    fn of_word(word: &str) -> Option<ObjectKind> {
        match word {
            "task" => Some(ObjectKind::Task),
            "mutex" => Some(ObjectKind::Mutex),
            "semaphore" => Some(ObjectKind::Semaphore),
            "event" => Some(ObjectKind::Event),
            "flags" => Some(ObjectKind::Flags),
            "timer" => Some(ObjectKind::Timer),
            _ => None,
        }
    }

    /// The word for it.
    pub fn word(self) -> &'static str {
        match self {
            ObjectKind::Task => "task",
            ObjectKind::Mutex => "mutex",
            ObjectKind::Semaphore => "semaphore",
            ObjectKind::Event => "event",
            ObjectKind::Flags => "flags",
            ObjectKind::Timer => "timer",
        }
    }

    // Where its names are in the table.
    fn place(self) -> u64
        ensures { result < 6 }
    {
        match self {
            ObjectKind::Task => 0,
            ObjectKind::Mutex => 1,
            ObjectKind::Semaphore => 2,
            ObjectKind::Event => 3,
            ObjectKind::Flags => 4,
            ObjectKind::Timer => 5,
        }
    }
}

// The first word of a text, and what is behind it.
fn cut_word(text: &str) -> (&str, &str) {
    match text.split_once(' ') {
        None => (text, ""),
        Some((word, rest)) => (word, rest.trim_start()),
    }
}

// A number in hexadecimal, with or without `0x`.
fn address_of(word: &str) -> Option<u64> {
    let digits = word.strip_prefix("0x").unwrap_or(word);
    hexadecimal_last(digits.as_bytes())
}

// Whether a text has only printable characters of ASCII.
fn is_plain(text: &str) -> bool {
    text.as_bytes()
        .iter()
        .all(|byte| *byte >= b' ' && *byte <= b'~')
}

fn key_of(word: &str) -> Option<Key> {
    match word.strip_prefix('@') {
        Some(address) => Some(Key::At(address_of(address)?)),
        None => Some(Key::Number(decimal_last(word.as_bytes())?)),
    }
}

fn name_said(kind: ObjectKind, text: &str) -> Option<Said<'_>> {
    let (word, name) = cut_word(text);
    if name.is_empty() || name.len() > NAME_LIMIT {
        return None;
    }
    Some(Said::Name(kind, key_of(word)?, name))
}

fn image_said(text: &str) -> Option<Said<'_>> {
    let (sum, size) = cut_word(text);
    Some(Said::Image(ImageMark {
        sum: decimal_last(sum.as_bytes())?,
        size: decimal_last(size.as_bytes())?,
    }))
}

fn table_said(text: &str) -> Option<Said<'_>> {
    Some(Said::Table(address_of(text)?))
}

// What a line of code says: an address, and lines of sources, or `-` for none.
fn code_said<'a>(word: &str, places: &'a str) -> Option<Said<'a>> {
    let address = address_of(word)?;
    if places == "-" {
        return Some(Said::Code(address, ""));
    }
    let _origin = origin_of(places)?;
    Some(Said::Code(address, places))
}

// What a line says, or the form that is wanted.
fn said_by(line: &str) -> Result<Said<'_>, &'static str> {
    let line = line.trim();
    if line.is_empty() || line.starts_with('#') {
        return Ok(Said::Nothing);
    }
    if !is_plain(line) {
        return Err(PLAIN_FORM);
    }
    let (word, rest) = cut_word(line);
    if let Some(kind) = ObjectKind::of_word(word) {
        return name_said(kind, rest).ok_or(NAME_FORM);
    }
    match word {
        "names" => table_said(rest).ok_or(TABLE_FORM),
        "image" => image_said(rest).ok_or(IMAGE_FORM),
        _ => code_said(word, rest).ok_or(CODE_FORM),
    }
}

fn owned(alloc: Global, text: &str) -> Result<String, NoMemory> {
    text.to_string(alloc).map_err(|_| NoMemory)
}

fn push<T: Drop>(items: &mut Vec<T>, item: T) -> Result<(), NoMemory> {
    items.push(item).map_err(|_| NoMemory)
}

// How many bytes come before the zero that ends a name; none where another byte than those of printable characters is there.
fn length_of(bytes: &[u8]) -> usize {
    for (i, byte) in bytes.iter().enumerate() {
        if *byte == 0 {
            return i;
        }
        if *byte < b' ' || b'~' < *byte {
            return 0;
        }
    }
    0
}

/// The name of an object in the table of the kit's library, which begins at an address.
fn table_name(ram: &[u8], table: u64, kind: ObjectKind, number: u64) -> Option<&str> {
    if number >= TABLE_NAMES {
        return None;
    }
    let place = kind.place() * TABLE_NAMES + number;
    let bytes = bytes_in(ram, table.checked_add(place * TABLE_NAME)?, TABLE_NAME)?;
    let name = bytes.get(..length_of(bytes))?;
    match std::str::from_utf8(name) {
        Ok(name) if !name.is_empty() => Some(name),
        _ => None,
    }
}

impl Map {
    /// A map that says nothing.
    pub fn new(alloc: Global) -> Map {
        Map {
            code: Vec::new(alloc),
            names: Vec::new(alloc),
            table: None,
            mark: None,
        }
    }

    fn add(&mut self, alloc: Global, said: Said<'_>) -> Result<(), NoMemory> {
        match said {
            Said::Nothing => Ok(()),
            Said::Image(mark) => {
                self.mark = Some(mark);
                Ok(())
            }
            Said::Table(address) => {
                self.table = Some(address);
                Ok(())
            }
            Said::Name(kind, key, name) => {
                let name = owned(alloc, name)?;
                push(&mut self.names, NameLine { kind, key, name })
            }
            Said::Code(address, places) => {
                let places = owned(alloc, places)?;
                push(&mut self.code, CodeLine { address, places })
            }
        }
    }

    fn read_line(&mut self, alloc: Global, number: u64, line: &str) -> Result<(), MapFault> {
        let said = said_by(line).map_err(|form| MapFault::BadLine(number, form))?;
        self.add(alloc, said).map_err(|_| MapFault::NoMemory)
    }

    /// Reads the text of a map.
    ///
    /// # Errors
    ///
    /// The first line that is bad, or that memory was refused.
    pub fn read(alloc: Global, text: &str) -> Result<Map, MapFault> {
        let mut map = Map::new(alloc);
        let mut number = 0u64;
        for line in text.lines() {
            number = number.saturating_add(1);
            map.read_line(alloc, number, line)?;
        }
        match map.code.sort_by_key(|line| line.address) {
            Ok(()) => Ok(map),
            Err(_) => Err(MapFault::NoMemory),
        }
    }

    /// Takes the table of names of the kit's library to be at an address, unless the map says where it is.
    pub fn use_table(&mut self, address: u64) {
        if self.table.is_none() {
            self.table = Some(address);
        }
    }

    /// What the map says of the code at an address: the last line at it or before it.
    pub(crate) fn origin(&self, address: u64) -> Option<Origin<'_>> {
        let behind = self.code.partition_point(|line| line.address <= address);
        let line = self.code.get(behind.checked_sub(1)?)?;
        origin_of(&line.places)
    }

    /// How many lines of code it has.
    pub fn code_count(&self) -> usize {
        self.code.len()
    }

    /// Of the line of code of a number, by rising addresses: where it begins, and the line of a source that it comes from, if it is of one.
    pub fn code_line(&self, number: usize) -> Option<(u64, Option<SourceLine<'_>>)> {
        let line = self.code.get(number)?;
        match origin_of(&line.places) {
            Some(origin) => Some((line.address, Some(origin.line))),
            None => Some((line.address, None)),
        }
    }

    // The name of a task that runs a function, or of an object.
    fn said_name(
        &self,
        ram: &[u8],
        kind: ObjectKind,
        number: u64,
        function: Option<u64>,
    ) -> Option<&str> {
        for line in &self.names {
            let is_named = match line.key {
                Key::Number(named) => named == number,
                Key::At(address) if kind == ObjectKind::Task => function == Some(address),
                Key::At(address) => long_in(ram, address) == Some(number),
            };
            if line.kind == kind && is_named {
                return Some(line.name.as_str());
            }
        }
        None
    }

    /// The name of an object: of the table of the kit's library, or else of the first line that names it.
    pub(crate) fn name<'a>(
        &'a self,
        ram: &'a [u8],
        kind: ObjectKind,
        number: u8,
        function: Option<u64>,
    ) -> Option<&'a str> {
        let number = u64::from(number);
        if let Some(table) = self.table
            && let Some(name) = table_name(ram, table, kind, number)
        {
            return Some(name);
        }
        self.said_name(ram, kind, number, function)
    }

    pub(crate) fn mark(&self) -> Option<ImageMark> {
        self.mark
    }
}
