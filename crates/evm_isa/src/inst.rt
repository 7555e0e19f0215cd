ghost use Rattle.std.specs.Prelude.{◌≡◌, ◌<◌, ◌%◌, ◌^◌, ◌↔◌, IsSome, IfSome};

use std::marker::Model;

/// The number of an integer register, 0 to 31 (RISC-V Unprivileged ISA 20191213, section 2.1).
#[derive(Clone, Copy, Debug, PartialEq, Eq)]
pub struct Register {
    number: u8,
}

impl Model for Register {
    ghost use Rattle.std.specs.Prelude.{ℕ, ◌<◌};

    ghost Value = { ℕ };

    ghost view = { λ r. r.number };

    ghost invariant = { λ r. r.number < 32 };

    ghost inverse = { λ n. record { number = n } };
}

impl Register {
    /// The register of this number; None above 31.
    pub fn new(number: u8) -> Option<Register>
        ensures in_range { IsSome result ↔ (number < 32) }
        ensures value { IfSome result (λ r. r ≡ number) }
    {
        if number < 32 {
            Some(Register { number })
        } else {
            None
        }
    }

    /// The register that the low five bits of a word name.
    pub fn from_low_bits(word: u32) -> Register
        ensures { result ≡ word % 2 ^ 5 }
    {
        Register {
            number: (word & 0x1f) as u8,
        }
    }

    /// Its number, 0 to 31.
    #[inline(always)]
    pub fn number(self) -> u8
        ensures value { result ≡ self }
        ensures in_range { result < 32 }
    {
        self.number
    }
}

/// By how many places a shift goes, 0 to 63; a shift of 32-bit words goes by 0 to 31.
#[derive(Clone, Copy, Debug, PartialEq, Eq)]
pub struct Shift {
    amount: u8,
}

impl Model for Shift {
    ghost use Rattle.std.specs.Prelude.{ℕ, ◌<◌};

    ghost Value = { ℕ };

    ghost view = { λ s. s.amount };

    ghost invariant = { λ s. s.amount < 64 };

    ghost inverse = { λ n. record { amount = n } };
}

impl Shift {
    /// The shift by this amount; None above 63.
    pub fn new(amount: u8) -> Option<Shift>
        ensures in_range { IsSome result ↔ (amount < 64) }
        ensures value { IfSome result (λ s. s ≡ amount) }
    {
        if amount < 64 {
            Some(Shift { amount })
        } else {
            None
        }
    }

    /// The shift by the number in the low six bits of a word.
    pub fn from_low_bits(word: u32) -> Shift
        ensures { result ≡ word % 2 ^ 6 }
    {
        Shift {
            amount: (word & 0x3f) as u8,
        }
    }

    /// Its amount, 0 to 63.
    #[inline(always)]
    pub fn amount(self) -> u8
        ensures value { result ≡ self }
        ensures in_range { result < 64 }
    {
        self.amount
    }
}

/// The conditions of the branches.
#[derive(Clone, Copy, Debug, PartialEq, Eq)]
pub enum BranchOp {
    Beq,
    Bne,
    Blt,
    Bge,
    Bltu,
    Bgeu,
}

/// The loads: their width, and what fills the upper bits.
#[derive(Clone, Copy, Debug, PartialEq, Eq)]
pub enum LoadOp {
    Lb,
    Lh,
    Lw,
    Ld,
    Lbu,
    Lhu,
    Lwu,
}

/// The stores, by their width.
#[derive(Clone, Copy, Debug, PartialEq, Eq)]
pub enum StoreOp {
    Sb,
    Sh,
    Sw,
    Sd,
}

/// The operations on a register and a 12-bit immediate; `Addiw` answers a 32-bit word.
#[derive(Clone, Copy, Debug, PartialEq, Eq)]
pub enum ImmediateOp {
    Addi,
    Slti,
    Sltiu,
    Xori,
    Ori,
    Andi,
    Addiw,
}

/// The shifts by an amount in the instruction; the last three shift 32-bit words.
#[derive(Clone, Copy, Debug, PartialEq, Eq)]
pub enum ShiftOp {
    Slli,
    Srli,
    Srai,
    Slliw,
    Srliw,
    Sraiw,
}

/// The operations on two registers.
#[derive(Clone, Copy, Debug, PartialEq, Eq)]
pub enum RegisterOp {
    Add,
    Sub,
    Sll,
    Slt,
    Sltu,
    Xor,
    Srl,
    Sra,
    Or,
    And,
}

/// The operations on the low 32 bits of two registers.
#[derive(Clone, Copy, Debug, PartialEq, Eq)]
pub enum WordOp {
    Addw,
    Subw,
    Sllw,
    Srlw,
    Sraw,
}

/// An instruction of RV64I, one variant for each format. An immediate is the number that the instruction
/// adds, sign-extended: that of `Lui` and `Auipc` is a multiple of 4,096, an offset of a jump or a branch
/// is even.
#[derive(Clone, Copy, Debug, PartialEq, Eq)]
pub enum Inst {
    Lui {
        rd: Register,
        immediate: i32,
    },
    Auipc {
        rd: Register,
        immediate: i32,
    },
    Jal {
        rd: Register,
        offset: i32,
    },
    Jalr {
        rd: Register,
        rs1: Register,
        offset: i32,
    },
    Branch {
        op: BranchOp,
        rs1: Register,
        rs2: Register,
        offset: i32,
    },
    Load {
        op: LoadOp,
        rd: Register,
        rs1: Register,
        offset: i32,
    },
    Store {
        op: StoreOp,
        rs1: Register,
        rs2: Register,
        offset: i32,
    },
    Immediate {
        op: ImmediateOp,
        rd: Register,
        rs1: Register,
        immediate: i32,
    },
    Shift {
        op: ShiftOp,
        rd: Register,
        rs1: Register,
        amount: Shift,
    },
    Register {
        op: RegisterOp,
        rd: Register,
        rs1: Register,
        rs2: Register,
    },
    Word {
        op: WordOp,
        rd: Register,
        rs1: Register,
        rs2: Register,
    },
    /// The fields that the ISA leaves unused are kept, so that a word is one instruction: `fields` is bits
    /// 31 to 20 of the word.
    Fence {
        rd: Register,
        rs1: Register,
        fields: u16,
    },
    Ecall,
    Ebreak,
}
