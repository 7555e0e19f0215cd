//! How a hearing ended.

use std::io::ErrorKind;

/// How a hearing ended.
#[derive(Clone, Copy, Debug)]
pub enum HearingEnd {
    /// The input ended.
    EndOfInput,
    /// A read of the input failed.
    ReadFailed(ErrorKind),
    /// Memory was refused for what was heard.
    NoMemory,
}

/// Someone who hears an input to its end.
pub trait Hearing {
    ghost use Rattle.std.specs.Prelude.{Option};
    ghost use Rattle.gdb_packets.specs.declared.ends.HearingEnd.{HearingEnd};

    // What a look at one state may answer. Nothing else is known of this relation, so that only a look at this very state shows it.
    ghost ends: { Self → Option HearingEnd → Type 0 };

    /// How the hearing ended, or nothing if more may come.
    fn end(&self) -> Option<HearingEnd>
        ensures { ends self.now result };
}
