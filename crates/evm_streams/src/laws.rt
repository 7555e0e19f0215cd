//! What is known of a reader or a writer of std whose bytes are known, as of a slice or a `Vec`: each is a contract
//! that nothing has to be done for.

ghost use Rattle.evm_streams.specs.Known.{KnownRead, KnownWritten};

use std::io::{Read, Write};

/// A reader that was read whole gave the bytes that it had.
pub fn known_bytes_are_read<R: Read>()
    ensures { KnownRead R.remaining }
{}

/// A writer that took a text holds it behind what it held; one that failed holds a prefix of it there.
pub fn known_bytes_are_written<W: Write>()
    ensures { KnownWritten W.contents }
{}
