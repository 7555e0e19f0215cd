//! What is sent, and what must answer it.

use crate::line::{Line, line_of, push_said};
use gdb_packets::push_framed;
use std::alloc::Global;
use std::io;

/// Some lines that are sent, and those that answer.
#[derive(Debug, Drop)]
pub(crate) struct Exchange {
    pub(crate) sent: Vec<u8>,
    pub(crate) wanted: Vec<u8>,
    /// What is sent comes a byte at a time.
    pub(crate) in_pieces: bool,
}

impl Exchange {
    pub(crate) fn new(alloc: Global) -> Self {
        Exchange {
            sent: Vec::new(alloc),
            wanted: Vec::new(alloc),
            in_pieces: false,
        }
    }

    /// Nothing is sent or wanted.
    pub(crate) fn clear(&mut self) {
        self.sent.clear();
        self.wanted.clear();
        self.in_pieces = false;
    }

    /// Takes a line up, if it is one of an exchange.
    pub(crate) fn take(&mut self, alloc: Global, line: &str) -> io::Result<()> {
        match line_of(line) {
            Line::Packet(text) => push_packet(alloc, &mut self.sent, text),
            Line::Answer(text) => push_packet(alloc, &mut self.wanted, text),
            Line::Bytes(text) => {
                self.in_pieces = true;
                push_said(alloc, &mut self.sent, text)
            }
            Line::AnswerBytes(text) => push_said(alloc, &mut self.wanted, text),
            _ => Ok(()),
        }
    }
}

// Appends the packet of a payload.
fn push_packet(alloc: Global, out: &mut Vec<u8>, text: &str) -> io::Result<()> {
    let mut payload = Vec::new(alloc);
    push_said(alloc, &mut payload, text)?;
    match push_framed(out, payload.as_slice()) {
        Ok(()) => Ok(()),
        Err(_) => Err(io::ErrorKind::OutOfMemory.into()),
    }
}

// Whether a line is sent.
fn is_sent(line: &str) -> bool {
    matches!(line_of(line), Line::Packet(_) | Line::Bytes(_))
}

/// Whether an exchange ends before a line: the line is sent, and the one before it isn't.
pub(crate) fn begins(lines: &[&str], i: usize) -> bool {
    let (Some(line), Some(before)) = (lines.get(i), lines.get(i.saturating_sub(1))) else {
        return false;
    };
    is_sent(line) && !is_sent(before)
}
