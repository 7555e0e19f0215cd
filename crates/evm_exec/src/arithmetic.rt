ghost use Rattle.std.specs.Prelude.{◌≡◌, ◌%◌, ◌^◌};
ghost use Rattle.evm_exec.specs.Numbers.{extended, word};
ghost use Rattle.evm_exec.specs.Values.{
  register_value,
  word_value,
  immediate_value,
  shift_value,
  is_taken,
};

use evm_isa::{BranchOp, ImmediateOp, RegisterOp, ShiftOp, WordOp};

// The number in 64 bits.
#[inline(always)]
pub fn extend(number: i32) -> u64
    ensures { result ≡ extended number }
{
    (number as i64).cast_unsigned()
}

// The low 32 bits.
#[inline(always)]
fn low_bits(x: u64) -> u32
    ensures { result ≡ x % 2 ^ 32 }
{
    (x % 0x1_0000_0000) as u32
}

// The low 32 bits, sign-extended to 64.
#[inline(always)]
pub fn extend_word(x: u64) -> u64
    ensures { result ≡ word x }
{
    extend(low_bits(x).cast_signed())
}

#[inline(always)]
#[tactic(auto, unfolding(crate::specs::Values::immediate_value))]
pub fn on_immediate(op: ImmediateOp, a: u64, i: u64) -> u64
    ensures { result ≡ immediate_value op a i }
{
    match op {
        ImmediateOp::Addi => a.wrapping_add(i),
        ImmediateOp::Slti => (a.cast_signed() < i.cast_signed()) as u64,
        ImmediateOp::Sltiu => (a < i) as u64,
        ImmediateOp::Xori => a ^ i,
        ImmediateOp::Ori => a | i,
        ImmediateOp::Andi => a & i,
        ImmediateOp::Addiw => extend_word(a.wrapping_add(i)),
    }
}

#[inline(always)]
#[tactic(auto, unfolding(crate::specs::Values::shift_value))]
pub fn on_shift(op: ShiftOp, a: u64, n: u8) -> u64
    ensures { result ≡ shift_value op a n }
{
    match op {
        ShiftOp::Slli => a << (n % 64),
        ShiftOp::Srli => a >> (n % 64),
        ShiftOp::Srai => (a.cast_signed() >> (n % 64)).cast_unsigned(),
        ShiftOp::Slliw => extend_word((low_bits(a) as u64) << (n % 32)),
        ShiftOp::Srliw => extend_word((low_bits(a) as u64) >> (n % 32)),
        ShiftOp::Sraiw => extend(low_bits(a).cast_signed() >> (n % 32)),
    }
}

#[inline(always)]
#[tactic(auto, unfolding(crate::specs::Values::register_value))]
pub fn on_registers(op: RegisterOp, a: u64, b: u64) -> u64
    ensures { result ≡ register_value op a b }
{
    match op {
        RegisterOp::Add => a.wrapping_add(b),
        RegisterOp::Sub => a.wrapping_sub(b),
        RegisterOp::Sll => a << (b % 64),
        RegisterOp::Slt => (a.cast_signed() < b.cast_signed()) as u64,
        RegisterOp::Sltu => (a < b) as u64,
        RegisterOp::Xor => a ^ b,
        RegisterOp::Srl => a >> (b % 64),
        RegisterOp::Sra => (a.cast_signed() >> (b % 64)).cast_unsigned(),
        RegisterOp::Or => a | b,
        RegisterOp::And => a & b,
    }
}

#[inline(always)]
#[tactic(auto, unfolding(crate::specs::Values::word_value))]
pub fn on_words(op: WordOp, a: u64, b: u64) -> u64
    ensures { result ≡ word_value op a b }
{
    match op {
        WordOp::Addw => extend_word(a.wrapping_add(b)),
        WordOp::Subw => extend_word(a.wrapping_sub(b)),
        WordOp::Sllw => extend_word((low_bits(a) as u64) << (b % 32)),
        WordOp::Srlw => extend_word((low_bits(a) as u64) >> (b % 32)),
        WordOp::Sraw => extend(low_bits(a).cast_signed() >> (b % 32)),
    }
}

#[inline(always)]
#[tactic(auto, unfolding(crate::specs::Values::is_taken))]
pub fn is_taken(op: BranchOp, a: u64, b: u64) -> bool
    ensures { result ≡ is_taken op a b }
{
    match op {
        BranchOp::Beq => a == b,
        BranchOp::Bne => a != b,
        BranchOp::Blt => a.cast_signed() < b.cast_signed(),
        BranchOp::Bge => a.cast_signed() >= b.cast_signed(),
        BranchOp::Bltu => a < b,
        BranchOp::Bgeu => a >= b,
    }
}
