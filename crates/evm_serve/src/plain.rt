//! A line of a script, held.

ghost use Rattle.std.specs.Prelude.{◌≡◌, IfOk, IfErr, length};
ghost use Rattle.evm_serve.specs.Scripted.{is_one_line};

use evm_room::{Refused, grow};
use std::alloc::Global;
use std::marker::Model;

/// A line without its newline.
#[derive(Debug, Drop)]
pub struct PlainLine {
    bytes: Vec<u8>,
}

impl Model for PlainLine {
    ghost use Rattle.std.specs.Prelude.{ℕ, List};

    ghost Value = { List ℕ };

    ghost view = { λ line. line.bytes.items };
}

impl PlainLine {
    /// The line of these bytes.
    pub(crate) fn copied(alloc: Global, line: &[u8]) -> Result<PlainLine, Refused>
        ensures ok { IfOk result (λ plain. plain ≡ line.now) }
        ensures refused { IfErr result (λ asked. asked ≡ length line.now) }
    {
        let mut bytes = Vec::new(alloc);
        grow(&mut bytes, line.len())?;
        match bytes.extend_from_slice(line) {
            Ok(()) => Ok(PlainLine { bytes }),
            Err(_) => unreachable!(),
        }
    }

    /// Its bytes.
    pub fn bytes(&self) -> &[u8]
        ensures { result.now ≡ self.now }
    {
        &self.bytes
    }
}

/// Whether the bytes are one line, without a newline.
pub(crate) fn is_one_line(bytes: &[u8]) -> bool
    ensures { result ≡ is_one_line bytes.now }
{
    for byte in bytes {
        if *byte == b'\n' {
            return false;
        }
    }
    true
}
