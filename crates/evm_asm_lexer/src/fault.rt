//! Why a source is refused.

ghost use Rattle.std.specs.Prelude.{◌≡◌};
ghost use Rattle.evm_asm_lexer.specs.Faults.{kind_number};

use thiserror::Error;

/// What is wrong with a line. Of several faults of one line the one of the least number is reported.
#[derive(Clone, Copy, Debug, PartialEq, Eq, Error)]
pub enum AsmFaultKind {
    /// 1: characters that make no token, or a statement that begins with a number or a mark.
    BadToken,
    /// 2: no mnemonic, directive or register has this name.
    UnknownName,
    /// 3: the number or the kind of the operands, or an instruction in the data or not at a multiple of 4.
    BadOperand,
    /// 4: a number outside its range, or a label that is odd or too far.
    RangeOfImmediate,
    /// 5: a label that an earlier line, or this one, has defined.
    LabelTwice,
    /// 6: no line defines this label.
    LabelMissing,
    /// 7: this line passes the limit of its section.
    TooLarge,
    /// 8: an allocation was refused.
    NoMemory,
}

impl AsmFaultKind {
    /// Its number, 1 to 8.
    pub fn number(self) -> u8
        ensures { result ≡ kind_number self }
    {
        match self {
            AsmFaultKind::BadToken => 1,
            AsmFaultKind::UnknownName => 2,
            AsmFaultKind::BadOperand => 3,
            AsmFaultKind::RangeOfImmediate => 4,
            AsmFaultKind::LabelTwice => 5,
            AsmFaultKind::LabelMissing => 6,
            AsmFaultKind::TooLarge => 7,
            AsmFaultKind::NoMemory => 8,
        }
    }
}

/// Why a source has no program: the least line that has a fault, and the least of its faults; or the line at which
/// memory ran out.
#[derive(Clone, Copy, Debug, PartialEq, Eq, Error)]
#[error("line {line}: {kind}")]
pub struct AsmFault {
    /// The line, from 1.
    pub line: u64,
    pub kind: AsmFaultKind,
}
