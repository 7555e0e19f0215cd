//! The mnemonics: the bits that each fixes in its word, and the mnemonic of a list that has given bits.

ghost use Rattle.std.specs.Prelude.{◌≡◌, ◌<◌, ◌^◌, ℕ};
ghost use Rattle.evm_isa.specs.Decoded.{first_with};

use crate::inst::{BranchOp, ImmediateOp, LoadOp, RegisterOp, ShiftOp, StoreOp, WordOp};

/// The bits that a mnemonic with funct3 fixes.
pub(crate) const FUNCT3_MASK: u32 = 0x0000_707f;

/// The bits that a mnemonic with funct3 and funct7 fixes.
pub(crate) const FUNCT7_MASK: u32 = 0xfe00_707f;

/// The bits that a shift of 64-bit words fixes: its amount has six bits.
pub(crate) const FUNCT6_MASK: u32 = 0xfc00_707f;

pub(crate) const BRANCHES: [BranchOp; 6] = [
    BranchOp::Beq,
    BranchOp::Bne,
    BranchOp::Blt,
    BranchOp::Bge,
    BranchOp::Bltu,
    BranchOp::Bgeu,
];

pub(crate) const LOADS: [LoadOp; 7] = [
    LoadOp::Lb,
    LoadOp::Lh,
    LoadOp::Lw,
    LoadOp::Ld,
    LoadOp::Lbu,
    LoadOp::Lhu,
    LoadOp::Lwu,
];

pub(crate) const STORES: [StoreOp; 4] = [StoreOp::Sb, StoreOp::Sh, StoreOp::Sw, StoreOp::Sd];

pub(crate) const IMMEDIATES: [ImmediateOp; 7] = [
    ImmediateOp::Addi,
    ImmediateOp::Slti,
    ImmediateOp::Sltiu,
    ImmediateOp::Xori,
    ImmediateOp::Ori,
    ImmediateOp::Andi,
    ImmediateOp::Addiw,
];

/// The shifts of 64-bit words.
pub(crate) const SHIFTS: [ShiftOp; 3] = [ShiftOp::Slli, ShiftOp::Srli, ShiftOp::Srai];

/// The shifts of 32-bit words.
pub(crate) const WORD_SHIFTS: [ShiftOp; 3] = [ShiftOp::Slliw, ShiftOp::Srliw, ShiftOp::Sraiw];

pub(crate) const REGISTERS: [RegisterOp; 10] = [
    RegisterOp::Add,
    RegisterOp::Sub,
    RegisterOp::Sll,
    RegisterOp::Slt,
    RegisterOp::Sltu,
    RegisterOp::Xor,
    RegisterOp::Srl,
    RegisterOp::Sra,
    RegisterOp::Or,
    RegisterOp::And,
];

pub(crate) const WORDS: [WordOp; 5] = [
    WordOp::Addw,
    WordOp::Subw,
    WordOp::Sllw,
    WordOp::Srlw,
    WordOp::Sraw,
];

/// A mnemonic: the bits that it fixes in its word.
pub(crate) trait Mnemonic: Copy {
    ghost bits_of: { Self → ℕ };

    fn bits(self) -> u32
        ensures value { result ≡ bits_of self }
        ensures small { result < 2 ^ 31 };
}

impl Mnemonic for BranchOp {
    ghost use Rattle.evm_isa.specs.Table.{branch_bits};

    ghost bits_of = { branch_bits };

    fn bits(self) -> u32
        ensures value { result ≡ branch_bits self }
        ensures small { result < 2 ^ 15 }
    {
        match self {
            BranchOp::Beq => 0x0000_0063,
            BranchOp::Bne => 0x0000_1063,
            BranchOp::Blt => 0x0000_4063,
            BranchOp::Bge => 0x0000_5063,
            BranchOp::Bltu => 0x0000_6063,
            BranchOp::Bgeu => 0x0000_7063,
        }
    }
}

impl Mnemonic for LoadOp {
    ghost use Rattle.evm_isa.specs.Table.{load_bits};

    ghost bits_of = { load_bits };

    fn bits(self) -> u32
        ensures value { result ≡ load_bits self }
        ensures small { result < 2 ^ 15 }
    {
        match self {
            LoadOp::Lb => 0x0000_0003,
            LoadOp::Lh => 0x0000_1003,
            LoadOp::Lw => 0x0000_2003,
            LoadOp::Ld => 0x0000_3003,
            LoadOp::Lbu => 0x0000_4003,
            LoadOp::Lhu => 0x0000_5003,
            LoadOp::Lwu => 0x0000_6003,
        }
    }
}

impl Mnemonic for StoreOp {
    ghost use Rattle.evm_isa.specs.Table.{store_bits};

    ghost bits_of = { store_bits };

    fn bits(self) -> u32
        ensures value { result ≡ store_bits self }
        ensures small { result < 2 ^ 15 }
    {
        match self {
            StoreOp::Sb => 0x0000_0023,
            StoreOp::Sh => 0x0000_1023,
            StoreOp::Sw => 0x0000_2023,
            StoreOp::Sd => 0x0000_3023,
        }
    }
}

impl Mnemonic for ImmediateOp {
    ghost use Rattle.evm_isa.specs.Table.{immediate_bits};

    ghost bits_of = { immediate_bits };

    fn bits(self) -> u32
        ensures value { result ≡ immediate_bits self }
        ensures small { result < 2 ^ 15 }
    {
        match self {
            ImmediateOp::Addi => 0x0000_0013,
            ImmediateOp::Slti => 0x0000_2013,
            ImmediateOp::Sltiu => 0x0000_3013,
            ImmediateOp::Xori => 0x0000_4013,
            ImmediateOp::Ori => 0x0000_6013,
            ImmediateOp::Andi => 0x0000_7013,
            ImmediateOp::Addiw => 0x0000_001b,
        }
    }
}

impl Mnemonic for ShiftOp {
    ghost use Rattle.evm_isa.specs.Table.{shift_bits};

    ghost bits_of = { shift_bits };

    fn bits(self) -> u32
        ensures value { result ≡ shift_bits self }
        ensures small { result < 2 ^ 31 }
    {
        match self {
            ShiftOp::Slli => 0x0000_1013,
            ShiftOp::Srli => 0x0000_5013,
            ShiftOp::Srai => 0x4000_5013,
            ShiftOp::Slliw => 0x0000_101b,
            ShiftOp::Srliw => 0x0000_501b,
            ShiftOp::Sraiw => 0x4000_501b,
        }
    }
}

impl Mnemonic for RegisterOp {
    ghost use Rattle.evm_isa.specs.Table.{register_bits};

    ghost bits_of = { register_bits };

    fn bits(self) -> u32
        ensures value { result ≡ register_bits self }
        ensures small { result < 2 ^ 31 }
    {
        match self {
            RegisterOp::Add => 0x0000_0033,
            RegisterOp::Sub => 0x4000_0033,
            RegisterOp::Sll => 0x0000_1033,
            RegisterOp::Slt => 0x0000_2033,
            RegisterOp::Sltu => 0x0000_3033,
            RegisterOp::Xor => 0x0000_4033,
            RegisterOp::Srl => 0x0000_5033,
            RegisterOp::Sra => 0x4000_5033,
            RegisterOp::Or => 0x0000_6033,
            RegisterOp::And => 0x0000_7033,
        }
    }
}

impl Mnemonic for WordOp {
    ghost use Rattle.evm_isa.specs.Table.{word_bits};

    ghost bits_of = { word_bits };

    fn bits(self) -> u32
        ensures value { result ≡ word_bits self }
        ensures small { result < 2 ^ 31 }
    {
        match self {
            WordOp::Addw => 0x0000_003b,
            WordOp::Subw => 0x4000_003b,
            WordOp::Sllw => 0x0000_103b,
            WordOp::Srlw => 0x0000_503b,
            WordOp::Sraw => 0x4000_503b,
        }
    }
}

/// The first of the mnemonics that has these bits.
pub(crate) fn first_with<O: Mnemonic>(ops: &[O], bits: u32) -> Option<O>
    ensures { result ≡ first_with O.bits_of bits ops.now }
{
    for op in ops {
        if op.bits() == bits {
            return Some(*op);
        }
    }
    None
}
