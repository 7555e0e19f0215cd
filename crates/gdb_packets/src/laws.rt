//! What the definitions mean together. These functions do nothing.

ghost use Rattle.gdb_packets.specs.Laws.{DigitsAreRead, FramedPacketsAreRead, PacketsAreRead, PiecesAreRead};

/// A packet is read from the front of some bytes if and only if a well-formed one stands there.
pub fn packets_are_read()
    ensures { PacketsAreRead }
{}

/// What is written for a payload is a well-formed packet of it, and reads as it.
pub fn framed_packets_are_read()
    ensures { FramedPacketsAreRead }
{}

/// What is read from the front of some bytes doesn't hang on what comes behind it.
pub fn pieces_are_read()
    ensures { PiecesAreRead }
{}

/// Digits are read if and only if they are those of some bytes.
pub fn digits_are_read()
    ensures { DigitsAreRead }
{}
