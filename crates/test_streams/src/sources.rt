//! Sources whose readers, writers and allocations fail, and texts that are too long.

use crate::fakes::{FAULTS, Source};
use evm_serve::{Ending, Verdict, assemble_to};
use evm_streams::{ReadFault, ReadStop, read_utf8};
use std::alloc::Global;
use std::io::{self, Error, ErrorKind, Read, Write};
use std::process::Abort;

/// One line that has a fault, and what is reported of it.
const FAULTY: &str = "addi a0,a0,2048";

const TOLD: &[u8] = b"asm 1 4\n";

/// Takes at most five bytes at a call, and fails once it has no room left.
#[derive(Drop)]
struct Narrow {
    taken: Vec<u8>,
    room: usize,
}

impl Narrow {
    /// Room for `room` bytes.
    fn new(alloc: Global, room: usize) -> Self {
        let taken = Vec::new(alloc);
        Narrow { taken, room }
    }
}

impl Write for Narrow {
    fn write(&mut self, buf: &[u8]) -> io::Result<usize> {
        let count = buf.len().min(self.room).min(5);
        if count == 0 {
            return Err(Error::from(ErrorKind::Interrupted));
        }
        self.taken.extend_from_slice(&buf[..count])?;
        self.room -= count;
        Ok(count)
    }

    fn flush(&mut self) -> io::Result<()> {
        Ok(())
    }
}

// A file of 120 bytes, for a writer that has less room.
fn file_in(rt: &impl Abort, alloc: Global, room: usize) {
    let mut out = Narrow::new(alloc, room);
    let mut report = Vec::new(alloc);
    let ending = assemble_to(alloc, "", &mut out, &mut report);
    let status = if room < 120 { 4 } else { 0 };
    assert_eq!(rt; ending.status(), status, "a file of {room} bytes");
    assert_eq!(rt; out.taken.len(), room, "a file of {room} bytes");
    assert_eq!(rt; report.len(), 0, "a file of {room} bytes");
}

// A line of 8 bytes, for a writer that has less room.
fn line_in(rt: &impl Abort, alloc: Global, room: usize) {
    let mut out = Vec::new(alloc);
    let mut report = Narrow::new(alloc, room);
    let ending = assemble_to(alloc, FAULTY, &mut out, &mut report);
    let status = if room < 8 { 4 } else { 1 };
    assert_eq!(rt; ending.status(), status, "a line of {room} bytes");
    assert!(rt; TOLD.starts_with(&report.taken), "a line of {room} bytes");
    assert_eq!(rt; out.len(), 0, "a line of {room} bytes");
}

#[test]
fn failed_writes_end_assembling(rt: HostRuntime) {
    for room in 0..=120 {
        file_in(&rt, rt.alloc(), room);
    }
    for room in 0..=8 {
        line_in(&rt, rt.alloc(), room);
    }
}

/// Counts what it is given, and needs no memory.
#[derive(Drop)]
pub(crate) struct Counter {
    pub(crate) count: u64,
}

impl Write for Counter {
    fn write(&mut self, buf: &[u8]) -> io::Result<usize> {
        self.count = self.count.saturating_add(buf.len() as u64);
        Ok(buf.len())
    }

    fn flush(&mut self) -> io::Result<()> {
        Ok(())
    }
}

/// Holds whichever allocation fails: the file is written whole or not at all.
#[test]
fn failed_allocations_write_no_file(rt: HostRuntime) {
    let mut out = Counter { count: 0 };
    let mut report = Counter { count: 0 };
    match assemble_to(rt.alloc(), "nop\n", &mut out, &mut report) {
        Ending::Complete(Verdict::Done) => assert_eq!(rt; (out.count, report.count), (124, 0)),
        Ending::NoMemory => assert_eq!(rt; (out.count, report.count), (0, 7)),
        _ => panic!(rt; "neither a file nor the line `memory`"),
    }
}

const TEXT: &str = "j nowhere # \u{e9}";

// Reads a text from a reader that fails after some calls.
fn reads(rt: &impl Abort, alloc: Global, kind: ErrorKind, calls: usize) {
    let mut reader = Source {
        rest: TEXT.as_bytes(),
        most: 3,
        calls,
        fault: Some(kind),
    };
    match read_utf8(alloc, &mut reader) {
        Ok(read) => assert_eq!(rt; (read.as_str(), calls), (TEXT, 6)),
        Err(ReadStop::Fault(ReadFault::Failed(_))) => assert!(rt; calls < 6, "{calls} reads"),
        Err(_) => panic!(rt; "{calls} reads"),
    }
}

// The text has 14 bytes: five calls give them, and one more says that they are over.
#[test]
fn texts_are_read_whole(rt: HostRuntime) {
    for kind in FAULTS {
        for calls in 0..=6 {
            reads(&rt, rt.alloc(), kind, calls);
        }
    }
}

#[test]
fn long_texts_are_not_read(rt: HostRuntime) {
    let mut most = io::repeat(b'#').take(16_777_216);
    assert!(rt; read_utf8(rt.alloc(), &mut most).is_ok());
    let mut more = io::repeat(b'#').take(16_777_217);
    let read = read_utf8(rt.alloc(), &mut more);
    assert!(rt; matches!(read, Err(ReadStop::Fault(ReadFault::TooLong))));
}
