//! What the keys of a terminal make of a line. Until Enter a terminal edits the line by itself, and passes on as bytes the keys that it
//! has no use for, as arrows: these are understood here.

use crate::reading::Finish;
use std::alloc::Global;

/// The most lines that are kept.
const LINES_KEPT: usize = 1_000;

/// A key.
#[derive(Clone, Copy, Debug, PartialEq, Eq)]
enum Key {
    Byte(u8),
    Up,
    Down,
    Left,
    Right,
    Home,
    End,
    /// Takes the character before the cursor away.
    Erase,
    /// Takes the character at the cursor away.
    Delete,
    /// Takes all before the cursor away.
    EraseAll,
    /// Takes all from the cursor on away.
    DeleteAll,
    Other,
}

// The key of a control sequence: its last byte, and the digits before it.
fn sequence_key(last: u8, digits: &[u8]) -> Key {
    match (last, digits) {
        (b'A', _) => Key::Up,
        (b'B', _) => Key::Down,
        (b'C', _) => Key::Right,
        (b'D', _) => Key::Left,
        (b'H', _) | (b'~', b"1" | b"7") => Key::Home,
        (b'F', _) | (b'~', b"4" | b"8") => Key::End,
        (b'~', b"3") => Key::Delete,
        _ => Key::Other,
    }
}

// The key of the bytes behind ESC and `[` or `O`, and what is behind it.
fn sequence_at(bytes: &[u8]) -> (Key, &[u8]) {
    for (i, byte) in bytes.iter().enumerate() {
        if 0x40 <= *byte && *byte <= 0x7e {
            return (sequence_key(*byte, &bytes[..i]), &bytes[i + 1..]);
        }
    }
    (Key::Other, &[])
}

// The key of one byte.
fn plain_key(byte: u8) -> Key {
    match byte {
        0x01 => Key::Home,
        0x02 => Key::Left,
        0x04 => Key::Delete,
        0x05 => Key::End,
        0x06 => Key::Right,
        0x08 | 0x7f => Key::Erase,
        0x0b => Key::DeleteAll,
        0x0e => Key::Down,
        0x10 => Key::Up,
        0x15 => Key::EraseAll,
        0x1b => Key::Other,
        _ => Key::Byte(byte),
    }
}

// The first key of some bytes, and what is behind it.
fn key_at(bytes: &[u8]) -> Option<(Key, &[u8])> {
    match bytes {
        [0x1b, b'[' | b'O', rest @ ..] => Some(sequence_at(rest)),
        [byte, rest @ ..] => Some((plain_key(*byte), rest)),
        [] => None,
    }
}

// Whether a byte goes on with a character of UTF-8.
fn goes_on(byte: u8) -> bool {
    0x80 <= byte && byte < 0xc0
}

fn push(bytes: &mut Vec<u8>, byte: u8) -> Result<(), Finish> {
    match bytes.push(byte) {
        Ok(()) => Ok(()),
        Err(_) => Err(Finish::NoMemory),
    }
}

fn copied(alloc: Global, bytes: &[u8]) -> Result<Vec<u8>, Finish> {
    match Vec::from_slice(alloc, bytes) {
        Ok(bytes) => Ok(bytes),
        Err(_) => Err(Finish::NoMemory),
    }
}

/// A line that is typed: what is before the cursor, and what is behind it, its last byte first.
#[derive(Drop)]
struct Draft {
    before: Vec<u8>,
    behind: Vec<u8>,
}

impl Draft {
    fn new(alloc: Global) -> Draft {
        Draft {
            before: Vec::new(alloc),
            behind: Vec::new(alloc),
        }
    }

    fn replace(&mut self, alloc: Global, line: &[u8]) -> Result<(), Finish> {
        self.before = copied(alloc, line)?;
        self.behind.clear();
        Ok(())
    }

    fn left(&mut self) -> Result<(), Finish> {
        for _ in 0..self.before.len() {
            let Some(byte) = self.before.pop() else {
                return Ok(());
            };
            push(&mut self.behind, byte)?;
            if !goes_on(byte) {
                return Ok(());
            }
        }
        Ok(())
    }

    fn right(&mut self) -> Result<(), Finish> {
        for _ in 0..self.behind.len() {
            let Some(byte) = self.behind.pop() else {
                return Ok(());
            };
            push(&mut self.before, byte)?;
            match self.behind.last() {
                Some(next) if goes_on(*next) => {}
                _ => return Ok(()),
            }
        }
        Ok(())
    }

    fn home(&mut self) -> Result<(), Finish> {
        for _ in 0..self.before.len() {
            self.left()?;
        }
        Ok(())
    }

    fn end(&mut self) -> Result<(), Finish> {
        for _ in 0..self.behind.len() {
            self.right()?;
        }
        Ok(())
    }

    fn erase(&mut self) {
        for _ in 0..self.before.len() {
            match self.before.pop() {
                Some(byte) if goes_on(byte) => {}
                _ => return,
            }
        }
    }

    fn delete(&mut self) -> Result<(), Finish> {
        if self.behind.is_empty() {
            return Ok(());
        }
        self.right()?;
        self.erase();
        Ok(())
    }
}

/// The lines that were typed.
#[derive(Drop)]
pub(crate) struct History {
    lines: Vec<Vec<u8>>,
}

impl History {
    pub(crate) fn new(alloc: Global) -> History {
        History {
            lines: Vec::new(alloc),
        }
    }

    // The line of a place is the draft; none is behind the last.
    fn recall(&self, alloc: Global, draft: &mut Draft, place: usize) -> Result<(), Finish> {
        match self.lines.get(place) {
            Some(line) => draft.replace(alloc, line.as_slice()),
            None => draft.replace(alloc, b""),
        }
    }

    // A key that edits the draft; the place in the history behind it.
    fn take(
        &self,
        alloc: Global,
        draft: &mut Draft,
        key: Key,
        place: usize,
    ) -> Result<usize, Finish> {
        match key {
            Key::Byte(byte) => push(&mut draft.before, byte)?,
            Key::Left => draft.left()?,
            Key::Right => draft.right()?,
            Key::Home => draft.home()?,
            Key::End => draft.end()?,
            Key::Erase => draft.erase(),
            Key::Delete => draft.delete()?,
            Key::EraseAll => draft.before.clear(),
            Key::DeleteAll => draft.behind.clear(),
            Key::Other => {}
            Key::Up => {
                let earlier = place.saturating_sub(1);
                self.recall(alloc, draft, earlier)?;
                return Ok(earlier);
            }
            Key::Down => {
                let later = place.saturating_add(1).min(self.lines.len());
                self.recall(alloc, draft, later)?;
                return Ok(later);
            }
        }
        Ok(place)
    }

    /// The line that the keys make which a terminal has passed on.
    pub(crate) fn typed(&self, alloc: Global, keys: &[u8]) -> Result<Vec<u8>, Finish> {
        let mut draft = Draft::new(alloc);
        let mut place = self.lines.len();
        let mut rest = keys;
        for _ in 0..keys.len() {
            let Some((key, behind)) = key_at(rest) else {
                break;
            };
            place = self.take(alloc, &mut draft, key, place)?;
            rest = behind;
        }
        draft.end()?;
        Ok(draft.before)
    }

    /// Keeps a line, if it isn't empty and differs from the last.
    pub(crate) fn keep(&mut self, alloc: Global, line: &[u8]) -> Result<(), Finish> {
        let is_last = match self.lines.last() {
            Some(last) => last.as_slice() == line,
            None => false,
        };
        if line.is_empty() || is_last {
            return Ok(());
        }
        if self.lines.len() >= LINES_KEPT {
            self.lines.clear();
        }
        match self.lines.push(copied(alloc, line)?) {
            Ok(()) => Ok(()),
            Err(_) => Err(Finish::NoMemory),
        }
    }
}
