//! From an instruction to its word: the bits of the mnemonic, and each operand at its place.

ghost use Rattle.evm_isa.specs.Encoded.{
  twos_complement,
  i_bits,
  s_bits,
  b_bits,
  u_bits,
  j_bits,
  amounts,
  amount_placed,
  fence_placed,
  encoded,
};
ghost use Rattle.evm_isa.specs.Decoded.{decoded};
ghost use Rattle.evm_isa.specs.Table.{Row};
ghost use Rattle.std.specs.Prelude.{ℕ, ◌≡◌, ◌↔◌, ◌<◌, ◌≤◌, ◌+◌, ◌*◌, ◌^◌, IfSome};

use crate::inst::{Inst, Register, Shift, ShiftOp};
use crate::mnemonics::Mnemonic;

// How many amounts a shift has.
fn shift_amounts(op: ShiftOp) -> u8
    ensures { result ≡ amounts op }
{
    match op {
        ShiftOp::Slli | ShiftOp::Srli | ShiftOp::Srai => 64,
        ShiftOp::Slliw | ShiftOp::Srliw | ShiftOp::Sraiw => 32,
    }
}

fn rd_bits(rd: Register) -> u32
    ensures value { result ≡ rd * 2 ^ 7 }
    ensures in_range { rd < 32 }
{
    u32::from(rd.number()) << 7
}

fn rs1_bits(rs1: Register) -> u32
    ensures value { result ≡ rs1 * 2 ^ 15 }
    ensures in_range { rs1 < 32 }
{
    u32::from(rs1.number()) << 15
}

fn rs2_bits(rs2: Register) -> u32
    ensures value { result ≡ rs2 * 2 ^ 20 }
    ensures in_range { rs2 < 32 }
{
    u32::from(rs2.number()) << 20
}

fn amount_bits(op: ShiftOp, amount: Shift) -> Option<u32>
    ensures value { result ≡ amount_placed op amount }
    ensures within { IfSome result (λ n. n < 2 ^ 26) }
{
    if amount.amount() < shift_amounts(op) {
        Some(u32::from(amount.amount()) << 20)
    } else {
        None
    }
}

fn fence_bits(fields: u16) -> Option<u32>
    ensures value { result ≡ fence_placed fields }
    ensures within { IfSome result (λ n. n ≤ 0xfff00000) }
{
    if fields < 0x1000 {
        Some(u32::from(fields) << 20)
    } else {
        None
    }
}

// The bits of the number in two's complement, where the sign bit has the weight `sign`.
fn twos_complement(value: i32, sign: u32) -> Option<u32>
    requires { sign ≤ 2 ^ 20 }
    ensures value { result ≡ twos_complement sign value }
    ensures within { IfSome result (λ n. n < 2 * sign) }
{
    let half = sign as i32;
    if value < -half {
        None
    } else if value < 0 {
        Some((value + 2 * half) as u32)
    } else if value < half {
        Some(value as u32)
    } else {
        None
    }
}

#[tactic(auto, unfolding(crate::specs::Encoded::i_bits))]
fn bits_of_i(immediate: i32) -> Option<u32>
    ensures value { result ≡ i_bits immediate }
    ensures within { IfSome result (λ n. n ≤ 0xfff00000) }
{
    Some(twos_complement(immediate, 0x800)? << 20)
}

#[tactic(auto, unfolding(crate::specs::Encoded::s_bits))]
fn bits_of_s(immediate: i32) -> Option<u32>
    ensures value { result ≡ s_bits immediate }
    ensures within { IfSome result (λ n. n ≤ 0xfe000f80) }
{
    let bits = twos_complement(immediate, 0x800)?;
    Some(((bits >> 5) << 25) + ((bits & 0x1f) << 7))
}

#[tactic(auto, unfolding(crate::specs::Encoded::b_bits))]
fn bits_of_b(offset: i32) -> Option<u32>
    ensures value { result ≡ b_bits offset }
    ensures within { IfSome result (λ n. n ≤ 0xfe000f80) }
{
    let bits = twos_complement(offset, 0x1000)?;
    if bits & 1 == 0 {
        let high = ((bits >> 12) << 31) + (((bits >> 5) & 0x3f) << 25);
        let low = (((bits >> 11) & 1) << 7) + (((bits >> 1) & 0xf) << 8);
        Some(high + low)
    } else {
        None
    }
}

#[tactic(auto, unfolding(crate::specs::Encoded::u_bits))]
fn bits_of_u(immediate: i32) -> Option<u32>
    ensures value { result ≡ u_bits immediate }
    ensures within { IfSome result (λ n. n ≤ 0xfffff000) }
{
    let bits = immediate.cast_unsigned();
    if bits & 0xfff == 0 { Some(bits) } else { None }
}

#[tactic(auto, unfolding(crate::specs::Encoded::j_bits))]
fn bits_of_j(offset: i32) -> Option<u32>
    ensures value { result ≡ j_bits offset }
    ensures within { IfSome result (λ n. n ≤ 0xfffff000) }
{
    let bits = twos_complement(offset, 0x10_0000)?;
    if bits & 1 == 0 {
        let high = ((bits >> 20) << 31) + (((bits >> 1) & 0x3ff) << 21);
        let low = (((bits >> 11) & 1) << 20) + (((bits >> 12) & 0xff) << 12);
        Some(high + low)
    } else {
        None
    }
}

#[tactic(auto, unfolding(crate::specs::Encoded::encoded))]
fn packed(inst: Inst) -> Option<u32>
    ensures { result ≡ encoded inst }
{
    match inst {
        Inst::Lui { rd, immediate } => Some(0x37 + rd_bits(rd) + bits_of_u(immediate)?),
        Inst::Auipc { rd, immediate } => Some(0x17 + rd_bits(rd) + bits_of_u(immediate)?),
        Inst::Jal { rd, offset } => Some(0x6f + rd_bits(rd) + bits_of_j(offset)?),
        Inst::Jalr { rd, rs1, offset } => {
            Some(0x67 + rd_bits(rd) + rs1_bits(rs1) + bits_of_i(offset)?)
        }
        Inst::Branch {
            op,
            rs1,
            rs2,
            offset,
        } => Some(op.bits() + rs1_bits(rs1) + rs2_bits(rs2) + bits_of_b(offset)?),
        Inst::Load {
            op,
            rd,
            rs1,
            offset,
        } => Some(op.bits() + rd_bits(rd) + rs1_bits(rs1) + bits_of_i(offset)?),
        Inst::Store {
            op,
            rs1,
            rs2,
            offset,
        } => Some(op.bits() + rs1_bits(rs1) + rs2_bits(rs2) + bits_of_s(offset)?),
        Inst::Immediate {
            op,
            rd,
            rs1,
            immediate,
        } => Some(op.bits() + rd_bits(rd) + rs1_bits(rs1) + bits_of_i(immediate)?),
        Inst::Shift {
            op,
            rd,
            rs1,
            amount,
        } => Some(op.bits() + rd_bits(rd) + rs1_bits(rs1) + amount_bits(op, amount)?),
        Inst::Register { op, rd, rs1, rs2 } => {
            Some(op.bits() + rd_bits(rd) + rs1_bits(rs1) + rs2_bits(rs2))
        }
        Inst::Word { op, rd, rs1, rs2 } => {
            Some(op.bits() + rd_bits(rd) + rs1_bits(rs1) + rs2_bits(rs2))
        }
        Inst::Fence { rd, rs1, fields } => {
            Some(0x0f + rd_bits(rd) + rs1_bits(rs1) + fence_bits(fields)?)
        }
        Inst::Ecall => Some(0x0000_0073),
        Inst::Ebreak => Some(0x0010_0073),
    }
}

/// The word of an instruction, by the table. None where a field is out of range and no word stands for it: an
/// immediate beyond its bits, an odd offset of a jump or a branch, an immediate of `Lui` or `Auipc` that is no
/// multiple of 4,096, an amount above 31 in a shift of 32-bit words, fields of a fence above 4,095.
pub fn encode(inst: Inst) -> Option<u32>
    ensures table { (w : ℕ) → w < 2 ^ 32 → (result ≡ Some w) ↔ Row inst w }
    ensures value { result ≡ encoded inst }
    ensures decodes { IfSome result (λ w. decoded w ≡ Some inst) }
{
    packed(inst)
}
