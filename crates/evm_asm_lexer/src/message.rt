//! Messages of the faults of a source.

ghost use Rattle.std.specs.Prelude.{◌≡◌, Some};
ghost use Rattle.evm_asm_lexer.specs.Messages.{asm_message};

use crate::fault::AsmFaultKind;
use std::fmt;

impl AsmFaultKind {
    /// What is wrong with the line, in words.
    pub fn message(self) -> &'static str
        ensures { result.now ≡ asm_message self }
    {
        match self {
            AsmFaultKind::BadToken => {
                "characters that make no token, or a statement that begins with a number or a mark"
            }
            AsmFaultKind::UnknownName => "unknown name",
            AsmFaultKind::BadOperand => {
                "operands of another number or kind, or an instruction in the data or not at a multiple of 4"
            }
            AsmFaultKind::RangeOfImmediate => {
                "a number outside its range, or a label that is odd or too far"
            }
            AsmFaultKind::LabelTwice => "a label that is defined already",
            AsmFaultKind::LabelMissing => "no line defines this label",
            AsmFaultKind::TooLarge => "more than 8388608 bytes of text or of data",
            AsmFaultKind::NoMemory => "out of memory",
        }
    }
}

impl fmt::Display for AsmFaultKind {
    ghost output = { λ kind. Some (asm_message kind) };

    fn fmt<W: fmt::Write>(&self, f: &mut fmt::Formatter<W>) -> fmt::Result {
        f.write_str(self.message())
    }
}
