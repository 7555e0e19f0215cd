//! A reader and a writer that fail.

use std::alloc::Global;
use std::io::{self, Error, ErrorKind, Read, Write};

/// The faults that a reader or a writer may have: one that std's own loops would try again, and one that they would
/// not.
pub(crate) const FAULTS: [ErrorKind; 2] = [ErrorKind::Interrupted, ErrorKind::Other];

/// Gives at most `most` bytes at a call, and after `calls` calls fails once: a call behind the fault would give more.
#[derive(Drop)]
pub(crate) struct Source<'a> {
    pub(crate) rest: &'a [u8],
    pub(crate) most: usize,
    pub(crate) calls: usize,
    pub(crate) fault: Option<ErrorKind>,
}

impl Read for Source<'_> {
    fn read(&mut self, buf: &mut [u8]) -> io::Result<usize> {
        if self.calls == 0
            && let Some(kind) = self.fault.take()
        {
            return Err(Error::from(kind));
        }
        self.calls = self.calls.saturating_sub(1);
        let mut part = &self.rest[..self.most.min(self.rest.len())];
        let count = part.read(buf)?;
        self.rest = &self.rest[count.min(self.rest.len())..];
        Ok(count)
    }
}

/// Takes at most `most` bytes at a call. After `calls` calls it fails, or takes none if it has no fault.
#[derive(Drop)]
pub(crate) struct Sink {
    pub(crate) taken: Vec<u8>,
    pub(crate) most: usize,
    pub(crate) calls: usize,
    pub(crate) fault: Option<ErrorKind>,
}

impl Sink {
    pub(crate) fn new(alloc: Global, most: usize, calls: usize, fault: Option<ErrorKind>) -> Self {
        let taken = Vec::new(alloc);
        Sink {
            taken,
            most,
            calls,
            fault,
        }
    }
}

impl Write for Sink {
    fn write(&mut self, buf: &[u8]) -> io::Result<usize> {
        if self.calls == 0 {
            return match self.fault {
                Some(kind) => Err(Error::from(kind)),
                None => Ok(0),
            };
        }
        self.calls -= 1;
        let count = buf.len().min(self.most);
        self.taken.extend_from_slice(&buf[..count])?;
        Ok(count)
    }

    fn flush(&mut self) -> io::Result<()> {
        Ok(())
    }
}
