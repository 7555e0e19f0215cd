ghost use Rattle.std.specs.Prelude.{◌≡◌, ◌<◌, ◌*◌, ◌^◌};
ghost use Rattle.evm_ram.specs.Width.{bytes_of};
ghost use Rattle.evm_exec.specs.Memory.{width_of_load, width_of_store, loaded_value, stored_value};

use crate::arithmetic::extend_word;
use evm_isa::{LoadOp, StoreOp};
use evm_ram::Width;

/// How many bytes the load reads.
#[inline(always)]
#[tactic(auto, unfolding(crate::specs::Memory::width_of_load))]
pub fn load_width(op: LoadOp) -> Width
    ensures { result ≡ width_of_load op }
{
    match op {
        LoadOp::Lb | LoadOp::Lbu => Width::Byte,
        LoadOp::Lh | LoadOp::Lhu => Width::Half,
        LoadOp::Lw | LoadOp::Lwu => Width::Word,
        LoadOp::Ld => Width::Double,
    }
}

/// What the load writes to its register, of the little-endian number of the bytes that it read.
#[inline(always)]
#[tactic(auto, unfolding(crate::specs::Memory::loaded_value))]
pub fn loaded(op: LoadOp, bytes: u64) -> u64
    ensures { result ≡ loaded_value op bytes }
{
    match op {
        LoadOp::Lb => (((bytes % 0x100) as u8).cast_signed() as i64).cast_unsigned(),
        LoadOp::Lh => (((bytes % 0x1_0000) as u16).cast_signed() as i64).cast_unsigned(),
        LoadOp::Lw => extend_word(bytes),
        LoadOp::Ld => bytes,
        LoadOp::Lbu => bytes % 0x100,
        LoadOp::Lhu => bytes % 0x1_0000,
        LoadOp::Lwu => bytes % 0x1_0000_0000,
    }
}

/// How many bytes the store writes.
#[inline(always)]
#[tactic(auto, unfolding(crate::specs::Memory::width_of_store))]
pub fn store_width(op: StoreOp) -> Width
    ensures { result ≡ width_of_store op }
{
    match op {
        StoreOp::Sb => Width::Byte,
        StoreOp::Sh => Width::Half,
        StoreOp::Sw => Width::Word,
        StoreOp::Sd => Width::Double,
    }
}

/// What the store writes where its register has `b`: the low bytes, as a little-endian number.
#[inline(always)]
#[tactic(auto, unfolding(crate::specs::Memory::width_of_store))]
pub fn stored(op: StoreOp, b: u64) -> u64
    ensures value { result ≡ stored_value op b }
    ensures fits { result < 2 ^ (8 * bytes_of (width_of_store op)) }
{
    match op {
        StoreOp::Sb => b % 0x100,
        StoreOp::Sh => b % 0x1_0000,
        StoreOp::Sw => b % 0x1_0000_0000,
        StoreOp::Sd => b,
    }
}
