//! Readers and writers of std as sources and sinks. The answer of a call of `read` or `write` is trusted
//! here, and nowhere else.

use crate::cause::cause_of;
use crate::sink::{Sink, Writing};
use crate::source::{Reading, Source};
use std::io::{Read, Write};

impl<R: Read> Source for R {
    ghost use Rattle.evm_streams.specs.Known.{ReaderGives};

    ghost gives = { ReaderGives R.remaining };

    fn read(&mut self, part: &mut [u8]) -> Reading {
        match Read::read(self, part) {
            Ok(count) => Reading::Bytes(count),
            Err(error) => Reading::Failed(cause_of(&error)),
        }
    }
}

impl<W: Write> Sink for W {
    ghost use Rattle.evm_streams.specs.Known.{WriterTakes};

    ghost takes = { WriterTakes W.contents };

    fn write(&mut self, text: &[u8]) -> Writing {
        match Write::write(self, text) {
            Ok(count) => Writing::Bytes(count),
            Err(error) => Writing::Failed(cause_of(&error)),
        }
    }
}
