ghost use Rattle.std.specs.Prelude.{◌≡◌, IfSome, Option, true, false, slice_index};
ghost use Rattle.evm_exec.specs.Does.{does, hart_after, access_to_make, proceed, jump_to, branch_if, FitsWidth};

use crate::arithmetic::{extend, is_taken, on_immediate, on_registers, on_shift, on_words};
use crate::hart::Hart;
use crate::memory::{load_width, store_width, stored};
use crate::outcome::{Access, Direction, Effect};
use evm_isa::{Inst, Register};

/// x0, which stands for no register.
#[inline(always)]
pub fn no_register() -> Register
    ensures { result ≡ 0 }
{
    match Register::new(0) {
        Some(register) => register,
        None => unreachable!(),
    }
}

/// rd gets the value, and the pc moves on.
#[inline(always)]
pub fn move_on(rd: Register, value: u64, pc: u64) -> Effect
    ensures { result ≡ proceed rd value pc }
{
    Effect::Next {
        rd,
        value,
        pc: pc.wrapping_add(4),
    }
}

/// A jump to the target, with the value in rd.
#[inline(always)]
pub fn go_to(rd: Register, value: u64, target: u64) -> Effect
    ensures { result ≡ jump_to rd value target }
{
    if target % 4 == 0 {
        Effect::Next {
            rd,
            value,
            pc: target,
        }
    } else {
        Effect::Misaligned
    }
}

/// A branch to the target, if it is taken.
#[inline(always)]
pub fn branch_to(is_taken: bool, target: u64, pc: u64) -> Effect
    ensures { result ≡ branch_if is_taken target pc }
{
    if is_taken {
        go_to(no_register(), 0, target)
    } else {
        move_on(no_register(), 0, pc)
    }
}

/// What the instruction does in this state of the hart. All arithmetic is modulo 2^64, that of the pc too.
#[inline(always)]
#[tactic(auto, unfolding(crate::specs::Does::does))]
pub fn effect(inst: &Inst, hart: &Hart) -> Effect
    ensures done { result ≡ does inst.now hart.now.regs hart.now.pc }
    ensures store_fits { FitsWidth result }
{
    let pc = hart.pc;
    match *inst {
        Inst::Lui { rd, immediate } => move_on(rd, extend(immediate), pc),
        Inst::Auipc { rd, immediate } => move_on(rd, pc.wrapping_add(extend(immediate)), pc),
        Inst::Jal { rd, offset } => {
            go_to(rd, pc.wrapping_add(4), pc.wrapping_add(extend(offset)))
        }
        Inst::Jalr { rd, rs1, offset } => {
            let target = hart.register(rs1).wrapping_add(extend(offset));
            go_to(rd, pc.wrapping_add(4), target - target % 2)
        }
        Inst::Branch {
            op,
            rs1,
            rs2,
            offset,
        } => {
            let is_taken = is_taken(op, hart.register(rs1), hart.register(rs2));
            branch_to(is_taken, pc.wrapping_add(extend(offset)), pc)
        }
        Inst::Load {
            op,
            rd,
            rs1,
            offset,
        } => Effect::Load {
            op,
            rd,
            address: hart.register(rs1).wrapping_add(extend(offset)),
        },
        Inst::Store {
            op,
            rs1,
            rs2,
            offset,
        } => Effect::Store {
            width: store_width(op),
            address: hart.register(rs1).wrapping_add(extend(offset)),
            value: stored(op, hart.register(rs2)),
        },
        Inst::Immediate {
            op,
            rd,
            rs1,
            immediate,
        } => move_on(
            rd,
            on_immediate(op, hart.register(rs1), extend(immediate)),
            pc,
        ),
        Inst::Shift {
            op,
            rd,
            rs1,
            amount,
        } => move_on(rd, on_shift(op, hart.register(rs1), amount.amount()), pc),
        Inst::Register { op, rd, rs1, rs2 } => move_on(
            rd,
            on_registers(op, hart.register(rs1), hart.register(rs2)),
            pc,
        ),
        Inst::Word { op, rd, rs1, rs2 } => {
            move_on(rd, on_words(op, hart.register(rs1), hart.register(rs2)), pc)
        }
        Inst::Fence { .. } => move_on(no_register(), 0, pc),
        Inst::Ecall => Effect::Call,
        Inst::Ebreak => Effect::Break,
    }
}

/// Executes an instruction that touches nothing but the hart. Returns false, and changes nothing, for a load, a store,
/// ECALL, EBREAK, and a jump or a taken branch to an address that is no multiple of 4.
#[inline(always)]
pub fn execute_private(inst: &Inst, hart: &mut Hart) -> bool
    ensures executed { result ≡ true → hart_after hart.old (does inst.now hart.old.regs hart.old.pc) ≡ Option.Some hart.new }
    ensures refused { result ≡ false → (hart_after hart.old (does inst.now hart.old.regs hart.old.pc) ≡ Option.None) × (hart.new ≡ hart.old) }
    ensures x0 { slice_index hart.new.regs 0 ≡ slice_index hart.old.regs 0 }
{
    match effect(inst, hart) {
        Effect::Next { rd, value, pc } => {
            hart.set_register(rd, value);
            hart.pc = pc;
            true
        }
        _ => false,
    }
}

/// The hart after an instruction that touches nothing else; None for a load, a store, ECALL, EBREAK, and
/// a jump or a taken branch to an address that is no multiple of 4.
pub fn private(inst: &Inst, hart: &Hart) -> Option<Hart>
    ensures after { result ≡ hart_after hart.now (does inst.now hart.now.regs hart.now.pc) }
    ensures x0 { IfSome result (λ after. slice_index after.regs 0 ≡ slice_index hart.now.regs 0) }
{
    let mut after = *hart;
    if execute_private(inst, &mut after) {
        Some(after)
    } else {
        None
    }
}

/// The access to memory that a load or a store makes; None for any other instruction.
pub fn access(inst: &Inst, hart: &Hart) -> Option<Access>
    ensures { result ≡ access_to_make (does inst.now hart.now.regs hart.now.pc) }
{
    match effect(inst, hart) {
        Effect::Load { op, address, .. } => Some(Access {
            address,
            width: load_width(op),
            direction: Direction::Load,
        }),
        Effect::Store { width, address, .. } => Some(Access {
            address,
            width,
            direction: Direction::Store,
        }),
        _ => None,
    }
}
