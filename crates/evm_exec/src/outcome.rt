use evm_isa::{LoadOp, Register};
use evm_ram::Width;

/// What one instruction does, without the registers that it leaves alone.
#[derive(Clone, Copy, Debug, PartialEq, Eq)]
pub enum Effect {
    /// `rd` gets `value`, which is lost if it is x0, and the pc moves to `pc`.
    Next {
        rd: Register,
        value: u64,
        pc: u64,
    },
    /// The bytes at `address` are read; `rd` gets what `loaded` makes of them, and the pc moves on by 4.
    Load {
        op: LoadOp,
        rd: Register,
        address: u64,
    },
    /// `value`, a number of `width` bytes, is written at `address`, and the pc moves on by 4.
    Store {
        width: Width,
        address: u64,
        value: u64,
    },
    /// ECALL: a request to the kernel.
    Call,
    /// EBREAK: a request to the debugger.
    Break,
    /// A jump or a taken branch to an address that is no multiple of 4: nothing is written.
    Misaligned,
}

/// Which way the bytes go.
#[derive(Clone, Copy, Debug, PartialEq, Eq)]
pub enum Direction {
    Load,
    Store,
}

/// An access to memory: the bytes from `address` on, as many as `width` says.
#[derive(Clone, Copy, Debug, PartialEq, Eq)]
pub struct Access {
    pub address: u64,
    pub width: Width,
    pub direction: Direction,
}
