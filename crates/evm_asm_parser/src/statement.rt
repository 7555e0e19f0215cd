//! What a statement says: its operands in the form of its mnemonic.

ghost use Rattle.std.specs.Prelude.{◌≡◌};
ghost use Rattle.evm_asm_parser.specs.Statements.{statement_of};

use crate::directive::{align_line, global_line, numbers_line, space_line};
use crate::instruction::{
    auipc_line, immediate_line, jalr_line, jump_register_line, load_line, lui_line, register_line,
    shift_line, store_line, word_line,
};
use crate::labels::Labels;
use crate::operand::{counted, how_many};
use crate::pseudo::{bare_line, load_immediate_line, unary_line};
use crate::spot::Spot;
use crate::target::{
    branch_line, branch_zero_line, jal_line, jump_line, load_address_line, swapped_line,
    zero_branch_line,
};
use evm_asm_lexer::{DataWidth, Mnemonic, Section, SourceFaultKind};
use evm_isa::{BranchOp, Inst, Register, Shift};

/// One number of a data directive.
#[derive(Clone, Copy, Debug, PartialEq, Eq)]
pub enum Datum {
    /// A number, modulo 2^64.
    Value(u64),
    /// A label, with its spot if it has one.
    Label(Option<Spot>),
}

/// A statement. A label is the spot that it has, if it has one.
#[derive(Clone, Copy, Debug, PartialEq, Eq)]
pub enum Statement {
    Nothing,
    /// One instruction that names no label.
    One(Inst),
    Branch {
        op: BranchOp,
        rs1: Register,
        rs2: Register,
        target: Option<Spot>,
    },
    Jump {
        rd: Register,
        target: Option<Spot>,
    },
    LoadImmediate {
        rd: Register,
        value: i32,
    },
    LoadAddress {
        rd: Register,
        target: Option<Spot>,
    },
    Section(Section),
    /// Numbers of this width, and how many the text has.
    Numbers {
        width: DataWidth,
        count: u64,
    },
    /// A number of zero bytes.
    Space(u64),
    /// Up to a multiple of this power of 2, 0 to 12.
    Align(Shift),
}

/// A statement, or why a line has none.
pub type StatementReading = Result<Statement, SourceFaultKind>;

/// x0.
pub fn zero() -> Register
    ensures { result ≡ 0 }
{
    match Register::new(0) {
        Some(register) => register,
        None => unreachable!(),
    }
}

/// x1, the return address.
pub fn return_address() -> Register
    ensures { result ≡ 1 }
{
    match Register::new(1) {
        Some(register) => register,
        None => unreachable!(),
    }
}

/// The statement of a mnemonic and the text of its operands.
#[tactic(auto, unfolding(crate::specs::Statements::statement_of, crate::specs::Statements::said))]
pub fn statement_of(labels: &Labels, mnemonic: Mnemonic, text: &[u8]) -> StatementReading
    ensures { result ≡ statement_of labels.now mnemonic text.now }
{
    match mnemonic {
        Mnemonic::Register(op) => register_line(op, text),
        Mnemonic::Word(op) => word_line(op, text),
        Mnemonic::Immediate(op) => immediate_line(op, text),
        Mnemonic::Shift(op) => shift_line(op, text),
        Mnemonic::Load(op) => load_line(op, text),
        Mnemonic::Store(op) => store_line(op, text),
        Mnemonic::Branch(op) => branch_line(labels, op, text),
        Mnemonic::Lui => lui_line(text),
        Mnemonic::Auipc => auipc_line(text),
        Mnemonic::Jal => jal_line(labels, text),
        Mnemonic::Jalr => jalr_line(text),
        Mnemonic::Bare(op) => bare_line(op, text),
        Mnemonic::Unary(op) => unary_line(op, text),
        Mnemonic::BranchSwapped(op) => swapped_line(labels, op, text),
        Mnemonic::BranchZero(op) => branch_zero_line(labels, op, text),
        Mnemonic::ZeroBranch(op) => zero_branch_line(labels, op, text),
        Mnemonic::Jump => jump_line(labels, zero(), text),
        Mnemonic::JumpRegister => jump_register_line(zero(), text),
        Mnemonic::LoadImmediate => load_immediate_line(text),
        Mnemonic::LoadAddress => load_address_line(labels, text),
        Mnemonic::Section(section) => {
            counted(0, how_many(text), Ok(()))?;
            Ok(Statement::Section(section))
        }
        Mnemonic::Numbers(width) => numbers_line(labels, width, text),
        Mnemonic::Space => space_line(text),
        Mnemonic::Align => align_line(text),
        Mnemonic::Global => global_line(text),
    }
}
