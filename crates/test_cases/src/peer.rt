//! GDB's two ends: what it sends, and where it is answered.

use gdb_answers::Interrupts;
use std::io::{self, Error, ErrorKind, Read, Write};

/// What GDB sends, at most `piece` bytes at a time.
#[derive(Drop)]
pub(crate) struct Sent<'a> {
    pub(crate) rest: &'a [u8],
    pub(crate) piece: usize,
    /// It asks for a stop at every look, or at none.
    pub(crate) asks: bool,
}

impl Interrupts for Sent<'_> {
    ghost use Rattle.std.specs.Prelude.{◌≡◌};

    ghost asks = { λ sent answer. answer ≡ sent.asks };

    fn is_asked(&self) -> bool {
        self.asks
    }
}

impl Read for Sent<'_> {
    fn read(&mut self, buf: &mut [u8]) -> io::Result<usize> {
        let mut part = &self.rest[..self.rest.len().min(self.piece)];
        let count = part.read(buf)?;
        self.rest = &self.rest[count.min(self.rest.len())..];
        Ok(count)
    }
}

/// Where GDB is answered.
#[derive(Drop)]
pub(crate) struct Heard {
    pub(crate) bytes: Vec<u8>,
    /// Each write fails.
    pub(crate) fails: bool,
}

impl Write for Heard {
    fn write(&mut self, buf: &[u8]) -> io::Result<usize> {
        if self.fails {
            return Err(Error::from(ErrorKind::BrokenPipe));
        }
        self.bytes.extend_from_slice(buf)?;
        Ok(buf.len())
    }

    fn flush(&mut self) -> io::Result<()> {
        Ok(())
    }
}
