//! The fields of an instruction word (RISC-V Unprivileged ISA 20191213, sections 2.2 and 2.3).

ghost use Rattle.evm_isa.specs.Fields.{
  opcode_of,
  rd_of,
  funct3_of,
  rs1_of,
  rs2_of,
  shamt_of,
  fence_of,
  sign_extended,
  i_immediate,
  s_immediate,
  b_immediate,
  u_immediate,
  j_immediate,
};
ghost use Rattle.std.specs.Prelude.{◌≡◌, ◌<◌, ◌≤◌, ◌*◌, ◌^◌};

use crate::inst::{Register, Shift};

pub(crate) fn opcode(word: u32) -> u32
    ensures { result ≡ opcode_of word }
{
    word & 0x7f
}

pub(crate) fn funct3(word: u32) -> u32
    ensures { result ≡ funct3_of word }
{
    (word >> 12) & 0x7
}

pub(crate) fn rd(word: u32) -> Register
    ensures { result ≡ rd_of word }
{
    Register::from_low_bits(word >> 7)
}

pub(crate) fn rs1(word: u32) -> Register
    ensures { result ≡ rs1_of word }
{
    Register::from_low_bits(word >> 15)
}

pub(crate) fn rs2(word: u32) -> Register
    ensures { result ≡ rs2_of word }
{
    Register::from_low_bits(word >> 20)
}

pub(crate) fn shift_amount(word: u32) -> Shift
    ensures { result ≡ shamt_of word }
{
    Shift::from_low_bits(word >> 20)
}

/// Bits 31 to 20.
pub(crate) fn fence_fields(word: u32) -> u16
    ensures { result ≡ fence_of word }
{
    ((word >> 20) & 0xfff) as u16
}

// The number that `bits` stands for in two's complement, where the sign bit has the weight `sign`.
fn sign_extended(bits: u32, sign: u32) -> i32
    requires sign { sign ≤ 2 ^ 20 }
    requires bits { bits < 2 * sign }
    ensures { result ≡ sign_extended sign bits }
{
    if bits < sign {
        bits as i32
    } else {
        bits as i32 - 2 * sign as i32
    }
}

pub(crate) fn immediate_of_i(word: u32) -> i32
    ensures { result ≡ i_immediate word }
{
    sign_extended((word >> 20) & 0xfff, 0x800)
}

pub(crate) fn immediate_of_s(word: u32) -> i32
    ensures { result ≡ s_immediate word }
{
    let high = (word >> 25) & 0x7f;
    let low = (word >> 7) & 0x1f;
    sign_extended(high * 0x20 + low, 0x800)
}

pub(crate) fn immediate_of_b(word: u32) -> i32
    ensures { result ≡ b_immediate word }
{
    let bit_12 = (word >> 31) & 1;
    let bit_11 = (word >> 7) & 1;
    let bits_10_to_5 = (word >> 25) & 0x3f;
    let bits_4_to_1 = (word >> 8) & 0xf;
    sign_extended(
        bit_12 * 0x1000 + bit_11 * 0x800 + bits_10_to_5 * 0x20 + bits_4_to_1 * 2,
        0x1000,
    )
}

pub(crate) fn immediate_of_u(word: u32) -> i32
    ensures { result ≡ u_immediate word }
{
    (((word >> 12) & 0xf_ffff) * 0x1000).cast_signed()
}

pub(crate) fn immediate_of_j(word: u32) -> i32
    ensures { result ≡ j_immediate word }
{
    let bit_20 = (word >> 31) & 1;
    let bits_19_to_12 = (word >> 12) & 0xff;
    let bit_11 = (word >> 20) & 1;
    let bits_10_to_1 = (word >> 21) & 0x3ff;
    sign_extended(
        bit_20 * 0x10_0000 + bits_19_to_12 * 0x1000 + bit_11 * 0x800 + bits_10_to_1 * 2,
        0x10_0000,
    )
}
