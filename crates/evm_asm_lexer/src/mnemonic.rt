//! What a mnemonic, a pseudo instruction or a directive is: the form of its operands, and what it does.

use evm_isa::{BranchOp, ImmediateOp, LoadOp, RegisterOp, ShiftOp, StoreOp, WordOp};

/// Instructions without operands.
#[derive(Clone, Copy, Debug, PartialEq, Eq)]
pub enum BareOp {
    Fence,
    Ecall,
    Ebreak,
    Nop,
    Ret,
}

/// Pseudo instructions of a destination and one source.
#[derive(Clone, Copy, Debug, PartialEq, Eq)]
pub enum UnaryOp {
    Mv,
    Not,
    Neg,
    Negw,
    SextW,
    Seqz,
    Snez,
    Sltz,
    Sgtz,
}

/// The two parts of a program.
#[derive(Clone, Copy, Debug, PartialEq, Eq)]
pub enum Section {
    Text,
    Data,
}

/// How many bytes a number of a data directive takes: 1, 4 or 8.
#[derive(Clone, Copy, Debug, PartialEq, Eq)]
pub enum DataWidth {
    Byte,
    Word,
    Dword,
}

/// What the first word of a statement says.
#[derive(Clone, Copy, Debug, PartialEq, Eq)]
pub enum Mnemonic {
    /// `rd, rs1, rs2`
    Register(RegisterOp),
    /// `rd, rs1, rs2`
    Word(WordOp),
    /// `rd, rs1, imm`
    Immediate(ImmediateOp),
    /// `rd, rs1, amount`
    Shift(ShiftOp),
    /// `rd, imm(rs1)`
    Load(LoadOp),
    /// `rs2, imm(rs1)`
    Store(StoreOp),
    /// `rs1, rs2, label`
    Branch(BranchOp),
    /// `rd, imm`
    Lui,
    /// `rd, imm`
    Auipc,
    /// `rd, label`, or `label`
    Jal,
    /// `rd, imm(rs1)`, or `rs1`
    Jalr,
    Bare(BareOp),
    /// `rd, rs`
    Unary(UnaryOp),
    /// `rs, rt, label`, the branch with its sources the other way round
    BranchSwapped(BranchOp),
    /// `rs, label`, the branch that compares with x0
    BranchZero(BranchOp),
    /// `rs, label`, the branch that compares x0 with the register
    ZeroBranch(BranchOp),
    /// `label`
    Jump,
    /// `rs`
    JumpRegister,
    /// `rd, number`
    LoadImmediate,
    /// `rd, label`
    LoadAddress,
    Section(Section),
    /// A list of numbers; of labels too, where they have 4 or 8 bytes.
    Numbers(DataWidth),
    /// A number of zero bytes.
    Space,
    /// Up to a multiple of this power of 2.
    Align,
    /// A name, to no effect.
    Global,
}
