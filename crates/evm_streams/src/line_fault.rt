//! Why a line of a script is bad.

/// What is wrong with a bad line of a script.
#[derive(Clone, Copy, Debug, PartialEq, Eq)]
pub enum LineFault {
    /// It is outside the grammar.
    OutsideGrammar,
    /// It is not a boot line, and comes before the boot line.
    NotBooted,
    /// It is a second boot line.
    BootedAgain,
}

impl LineFault {
    /// The message, if the line is not known.
    pub fn message(self) -> &'static str {
        match self {
            LineFault::OutsideGrammar => "bad line: outside the grammar of scripts",
            LineFault::NotBooted => "bad line: the first command must be `boot`",
            LineFault::BootedAgain => "bad line: only one boot line is allowed",
        }
    }
}
