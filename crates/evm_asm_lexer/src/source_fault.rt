//! The faults that a source can have of its own: running out of memory is none of them.

ghost use Rattle.std.specs.Prelude.{◌≡◌, ◌≢◌};
ghost use Rattle.evm_asm_lexer.specs.Faults.{source_number, reported_kind, reported_fault, least, both};

use crate::fault::{AsmFault, AsmFaultKind};

/// What is wrong with a line. Of several faults of one line the one of the least number is reported.
#[derive(Clone, Copy, Debug, PartialEq, Eq)]
pub enum SourceFaultKind {
    /// 1: characters that make no token, or a statement that begins with a number or a mark.
    BadToken,
    /// 2: no mnemonic, directive or register has this name.
    UnknownName,
    /// 3: the number or the kind of the operands, or an instruction in the data or not at a multiple of 4.
    BadOperand,
    /// 4: a number outside its range, or a label that is odd or too far.
    RangeOfImmediate,
    /// 5: a label that an earlier line, or this one, has defined.
    LabelTwice,
    /// 6: no line defines this label.
    LabelMissing,
    /// 7: this line passes the limit of its section.
    TooLarge,
}

impl SourceFaultKind {
    /// Its number, 1 to 7.
    pub fn number(self) -> u8
        ensures { result ≡ source_number self }
    {
        self.reported().number()
    }

    /// The kind that is reported: never `NoMemory`.
    pub fn reported(self) -> AsmFaultKind
        ensures same { result ≡ reported_kind self }
        ensures own { result ≢ AsmFaultKind.NoMemory }
    {
        match self {
            SourceFaultKind::BadToken => AsmFaultKind::BadToken,
            SourceFaultKind::UnknownName => AsmFaultKind::UnknownName,
            SourceFaultKind::BadOperand => AsmFaultKind::BadOperand,
            SourceFaultKind::RangeOfImmediate => AsmFaultKind::RangeOfImmediate,
            SourceFaultKind::LabelTwice => AsmFaultKind::LabelTwice,
            SourceFaultKind::LabelMissing => AsmFaultKind::LabelMissing,
            SourceFaultKind::TooLarge => AsmFaultKind::TooLarge,
        }
    }
}

/// The fault of a source: the least line that has one, and the least of its faults.
#[derive(Clone, Copy, Debug, PartialEq, Eq)]
pub struct SourceFault {
    /// The line, from 1.
    pub line: u64,
    pub kind: SourceFaultKind,
}

impl SourceFault {
    /// The fault that is reported: its kind is never `NoMemory`.
    pub fn reported(self) -> AsmFault
        ensures same { result ≡ reported_fault self }
        ensures own { result.kind ≢ AsmFaultKind.NoMemory }
    {
        AsmFault {
            line: self.line,
            kind: self.kind.reported(),
        }
    }
}

/// The fault of the lesser number.
pub fn least(a: SourceFaultKind, b: SourceFaultKind) -> SourceFaultKind
    ensures { result ≡ least a b }
{
    if a.number() <= b.number() { a } else { b }
}

/// Both of two readings of one line, or the least of their faults.
#[tactic(auto, unfolding(crate::specs::Faults::both))]
pub fn both<A: Drop, B: Drop>(
    a: Result<A, SourceFaultKind>,
    b: Result<B, SourceFaultKind>,
) -> Result<(A, B), SourceFaultKind>
    ensures { result ≡ both a b }
{
    match (a, b) {
        (Ok(a), Ok(b)) => Ok((a, b)),
        (Ok(_), Err(f)) => Err(f),
        (Err(e), Ok(_)) => Err(e),
        (Err(e), Err(f)) => Err(least(e, f)),
    }
}
