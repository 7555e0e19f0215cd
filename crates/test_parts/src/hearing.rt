//! A thread that hears GDB: a byte 3 asks for a stop, and a read that fails ends the hearing.

use gdb_packets::{Hearing, HearingEnd, InputThread, Interrupts};
use std::io::{self, Error, ErrorKind, Read};
use std::test::Fail;

const SENT: &[u8] = b"$c#63\x03+";

// A source of which each read fails.
#[derive(Drop)]
struct Broken;

impl Read for Broken {
    fn read(&mut self, _buf: &mut [u8]) -> io::Result<usize> {
        Err(Error::from(ErrorKind::BrokenPipe))
    }
}

// Whether the next read gives these bytes.
fn gives<I: Read>(source: &mut I, wanted: &[u8]) -> Result<bool, Fail> {
    let mut part = [0u8; 16];
    let count = source.read(part.as_mut_slice())?;
    if count > part.len() {
        return Ok(false);
    }
    Ok(&part[..count] == wanted)
}

#[test]
fn a_byte_3_asks_until_it_is_read(rt: HostRuntime) -> Result<(), Fail> {
    let mut input = InputThread::new(rt, rt.alloc(), SENT)?;
    assert!(rt; gives(&mut input, b"$c#63".as_slice())?);
    assert!(rt; input.is_asked());
    assert!(rt; gives(&mut input, b"\x03".as_slice())?);
    assert!(rt; !input.is_asked());
    assert!(rt; gives(&mut input, b"+".as_slice())?);
    assert!(rt; gives(&mut input, b"".as_slice())?);
    assert!(rt; matches!(input.end(), Some(HearingEnd::EndOfInput)));
    Ok(())
}

#[test]
fn a_read_that_fails_ends_the_hearing(rt: HostRuntime) -> Result<(), Fail> {
    let mut input = InputThread::new(rt, rt.alloc(), Broken)?;
    let mut part = [0u8; 16];
    match input.read(part.as_mut_slice()) {
        Ok(_) => assert!(rt; false, "bytes of a broken source"),
        Err(error) => assert!(rt; error.kind() == ErrorKind::BrokenPipe),
    }
    let end = input.end();
    assert!(rt; matches!(end, Some(HearingEnd::ReadFailed(ErrorKind::BrokenPipe))));
    Ok(())
}
