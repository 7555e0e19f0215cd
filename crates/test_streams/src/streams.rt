//! Streams that fail or give too much.

use evm_streams::{Cause, ReadFault, ReadStop, WriteFault, read_all, read_utf8, write_all};
use std::io::{self, Error, ErrorKind, Read, Write};
use std::test::Fail;

/// Gives three bytes at a call, and after `calls` calls is interrupted once.
#[derive(Drop)]
struct Reader<'a> {
    rest: &'a [u8],
    calls: usize,
    fault: Option<ErrorKind>,
}

impl Read for Reader<'_> {
    fn read(&mut self, buf: &mut [u8]) -> io::Result<usize> {
        if self.calls == 0
            && let Some(kind) = self.fault.take()
        {
            return Err(Error::from(kind));
        }
        self.calls = self.calls.saturating_sub(1);
        let mut part = &self.rest[..self.rest.len().min(3)];
        let count = part.read(buf)?;
        self.rest = &self.rest[count.min(self.rest.len())..];
        Ok(count)
    }
}

/// Takes three bytes at a call, and after `calls` calls is interrupted.
#[derive(Drop)]
struct Writer {
    taken: Vec<u8>,
    calls: usize,
}

impl Write for Writer {
    fn write(&mut self, buf: &[u8]) -> io::Result<usize> {
        if self.calls == 0 {
            return Err(Error::from(ErrorKind::Interrupted));
        }
        self.calls -= 1;
        let count = buf.len().min(3);
        self.taken.extend_from_slice(&buf[..count])?;
        Ok(count)
    }

    fn flush(&mut self) -> io::Result<()> {
        Ok(())
    }
}

const TEXT: &str = "eleven byte";

// Four calls give the text, and one more says that it is over.
#[test]
fn any_fault_ends_reading(rt: HostRuntime) {
    for calls in 0..=5 {
        let mut reader = Reader {
            rest: TEXT.as_bytes(),
            calls,
            fault: Some(ErrorKind::Interrupted),
        };
        match read_utf8(rt.alloc(), &mut reader) {
            Ok(text) => assert_eq!(rt; (text.as_str(), calls), (TEXT, 5)),
            Err(ReadStop::Fault(ReadFault::Failed(Cause::Interrupted))) => assert!(rt;
                calls < 5,
                "{calls} calls"
            ),
            Err(_) => panic!(rt; "{calls} calls"),
        }
    }
}

#[test]
fn too_many_bytes_are_told_apart(rt: HostRuntime) {
    for (bytes, wanted) in [
        (16_777_216, None),
        (16_777_217, Some(ReadStop::Fault(ReadFault::TooLong))),
        (u64::MAX, Some(ReadStop::Fault(ReadFault::TooLong))),
    ] {
        let mut reader = io::repeat(b'#').take(bytes);
        let stop = read_all(rt.alloc(), &mut reader).err();
        assert_eq!(rt; stop, wanted, "{bytes} bytes");
    }
}

// Four calls take the text.
#[test]
fn any_fault_ends_writing(rt: HostRuntime) -> Result<(), Fail> {
    for calls in 0..=4 {
        let taken = Vec::new(rt.alloc());
        let mut writer = Writer { taken, calls };
        let written = write_all(&mut writer, TEXT.as_bytes());
        assert_eq!(rt; written.is_ok(), calls == 4, "{calls} calls");
        assert!(rt; TEXT.as_bytes().starts_with(&writer.taken), "{calls} calls");
        assert_eq!(rt; writer.taken.len(), (calls * 3).min(11), "{calls} calls");
    }
    let mut none: &mut [u8] = &mut [];
    let cause = Cause::TookNone;
    assert_eq!(rt; write_all(&mut none, b"1"), Err(WriteFault { cause }));
    Ok(())
}
