//! From a word to its instruction: one switch on the opcode, then the mnemonic by its bits.

ghost use Rattle.evm_isa.specs.Decoded.{
  jalr_at,
  branch_at,
  load_at,
  store_at,
  shift_form,
  immediate_form,
  immediate_or_shift,
  immediate_at,
  word_immediate_at,
  register_inst_at,
  word_inst_at,
  fence_at,
  system_at,
  decoded,
};
ghost use Rattle.evm_isa.specs.Table.{Row};
ghost use Rattle.std.specs.Prelude.{◌≡◌, ◌↔◌};
ghost use Rattle.evm_isa.specs.declared.inst.Inst.{Inst};

use crate::fields::{
    fence_fields, funct3, immediate_of_b, immediate_of_i, immediate_of_j, immediate_of_s,
    immediate_of_u, opcode, rd, rs1, rs2, shift_amount,
};
use crate::inst::{ImmediateOp, Inst, ShiftOp};
use crate::mnemonics::{
    BRANCHES, FUNCT3_MASK, FUNCT6_MASK, FUNCT7_MASK, IMMEDIATES, LOADS, REGISTERS, SHIFTS, STORES,
    WORD_SHIFTS, WORDS, first_with,
};

const ECALL: u32 = 0x0000_0073;

const EBREAK: u32 = 0x0010_0073;

#[tactic(auto, unfolding(crate::specs::Decoded::jalr_at))]
fn jalr(word: u32) -> Option<Inst>
    ensures { result ≡ jalr_at word }
{
    if funct3(word) == 0 {
        Some(Inst::Jalr {
            rd: rd(word),
            rs1: rs1(word),
            offset: immediate_of_i(word),
        })
    } else {
        None
    }
}

#[tactic(auto, unfolding(crate::specs::Decoded::branch_at))]
fn branch(word: u32) -> Option<Inst>
    ensures { result ≡ branch_at word }
{
    Some(Inst::Branch {
        op: first_with(&BRANCHES, word & FUNCT3_MASK)?,
        rs1: rs1(word),
        rs2: rs2(word),
        offset: immediate_of_b(word),
    })
}

#[tactic(auto, unfolding(crate::specs::Decoded::load_at))]
fn load(word: u32) -> Option<Inst>
    ensures { result ≡ load_at word }
{
    Some(Inst::Load {
        op: first_with(&LOADS, word & FUNCT3_MASK)?,
        rd: rd(word),
        rs1: rs1(word),
        offset: immediate_of_i(word),
    })
}

#[tactic(auto, unfolding(crate::specs::Decoded::store_at))]
fn store(word: u32) -> Option<Inst>
    ensures { result ≡ store_at word }
{
    Some(Inst::Store {
        op: first_with(&STORES, word & FUNCT3_MASK)?,
        rs1: rs1(word),
        rs2: rs2(word),
        offset: immediate_of_s(word),
    })
}

fn shift_form(word: u32, op: ShiftOp) -> Inst
    ensures { result ≡ shift_form word op }
{
    Inst::Shift {
        op,
        rd: rd(word),
        rs1: rs1(word),
        amount: shift_amount(word),
    }
}

fn immediate_form(word: u32, op: ImmediateOp) -> Inst
    ensures { result ≡ immediate_form word op }
{
    Inst::Immediate {
        op,
        rd: rd(word),
        rs1: rs1(word),
        immediate: immediate_of_i(word),
    }
}

// An operation on an immediate, or else a shift.
fn immediate_or_shift(
    word: u32,
    immediate: Option<ImmediateOp>,
    shift: Option<ShiftOp>,
) -> Option<Inst>
    ensures { result ≡ immediate_or_shift word immediate shift }
{
    match immediate {
        Some(op) => Some(immediate_form(word, op)),
        None => Some(shift_form(word, shift?)),
    }
}

#[tactic(auto, unfolding(crate::specs::Decoded::immediate_at))]
fn immediate(word: u32) -> Option<Inst>
    ensures { result ≡ immediate_at word }
{
    let immediate = first_with(&IMMEDIATES, word & FUNCT3_MASK);
    immediate_or_shift(word, immediate, first_with(&SHIFTS, word & FUNCT6_MASK))
}

#[tactic(auto, unfolding(crate::specs::Decoded::word_immediate_at))]
fn word_immediate(word: u32) -> Option<Inst>
    ensures { result ≡ word_immediate_at word }
{
    let immediate = first_with(&IMMEDIATES, word & FUNCT3_MASK);
    immediate_or_shift(
        word,
        immediate,
        first_with(&WORD_SHIFTS, word & FUNCT7_MASK),
    )
}

#[tactic(auto, unfolding(crate::specs::Decoded::register_inst_at))]
fn register(word: u32) -> Option<Inst>
    ensures { result ≡ register_inst_at word }
{
    Some(Inst::Register {
        op: first_with(&REGISTERS, word & FUNCT7_MASK)?,
        rd: rd(word),
        rs1: rs1(word),
        rs2: rs2(word),
    })
}

#[tactic(auto, unfolding(crate::specs::Decoded::word_inst_at))]
fn word_form(word: u32) -> Option<Inst>
    ensures { result ≡ word_inst_at word }
{
    Some(Inst::Word {
        op: first_with(&WORDS, word & FUNCT7_MASK)?,
        rd: rd(word),
        rs1: rs1(word),
        rs2: rs2(word),
    })
}

#[tactic(auto, unfolding(crate::specs::Decoded::fence_at))]
fn fence(word: u32) -> Option<Inst>
    ensures { result ≡ fence_at word }
{
    if funct3(word) == 0 {
        Some(Inst::Fence {
            rd: rd(word),
            rs1: rs1(word),
            fields: fence_fields(word),
        })
    } else {
        None
    }
}

#[tactic(auto, unfolding(crate::specs::Decoded::system_at))]
fn system(word: u32) -> Option<Inst>
    ensures { result ≡ system_at word }
{
    match word {
        ECALL => Some(Inst::Ecall),
        EBREAK => Some(Inst::Ebreak),
        _ => None,
    }
}

#[tactic(auto, unfolding(crate::specs::Decoded::decoded))]
fn switch(word: u32) -> Option<Inst>
    ensures { result ≡ decoded word }
{
    match opcode(word) {
        0x37 => Some(Inst::Lui {
            rd: rd(word),
            immediate: immediate_of_u(word),
        }),
        0x17 => Some(Inst::Auipc {
            rd: rd(word),
            immediate: immediate_of_u(word),
        }),
        0x6f => Some(Inst::Jal {
            rd: rd(word),
            offset: immediate_of_j(word),
        }),
        0x67 => jalr(word),
        0x63 => branch(word),
        0x03 => load(word),
        0x23 => store(word),
        0x13 => immediate(word),
        0x33 => register(word),
        0x1b => word_immediate(word),
        0x3b => word_form(word),
        0x0f => fence(word),
        0x73 => system(word),
        _ => None,
    }
}

/// The instruction that a word stands for, by the table; None for a word that is no instruction of RV64I.
pub fn decode(word: u32) -> Option<Inst>
    ensures table { (i : Inst) → (result ≡ Some i) ↔ Row i word }
    ensures value { result ≡ decoded word }
{
    switch(word)
}
