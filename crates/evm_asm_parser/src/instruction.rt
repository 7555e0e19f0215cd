//! Lines of instructions that name no label: registers, immediates, shift amounts and addresses.

ghost use Rattle.std.specs.Prelude.{◌≡◌, ◌≤◌, [], ◌∷◌, pos};
ghost use Rattle.evm_isa.specs.declared.inst.Inst.TheVariants as inst;
ghost use Rattle.evm_asm_lexer.specs.declared.mnemonic.Mnemonic.TheVariants as names;
ghost use Rattle.evm_asm_parser.specs.declared.statement.Statement.TheVariants.{One};
ghost use Rattle.evm_asm_parser.specs.Operands.{natural_in, upper, upper_in};
ghost use Rattle.evm_asm_parser.specs.Forms as slot;
ghost use Rattle.evm_asm_parser.specs.Forms.{Each, immediate_slot, greatest_shift};
ghost use Rattle.evm_asm_parser.specs.Statements.{all_operands_in, said, statement_of};

use crate::operand::{
    address_in, counted, first_operand, full_address_in, how_many, immediate_in, natural_in,
    register_in, second_operand, third_operand,
};
use crate::statement::{Statement, StatementReading, return_address};
use evm_asm_lexer::{SourceFaultKind, both};
use evm_isa::{ImmediateOp, Inst, LoadOp, Register, RegisterOp, Shift, ShiftOp, StoreOp, WordOp};

fn three_registers(text: &[u8]) -> Result<(Register, (Register, Register)), SourceFaultKind>
    ensures { result ≡ all_operands_in [] (slot.Register ∷ slot.Register ∷ slot.Register ∷ []) text.now }
{
    let sources = both(
        register_in(second_operand(text)),
        register_in(third_operand(text)),
    );
    counted(
        3,
        how_many(text),
        both(register_in(first_operand(text)), sources),
    )
}

/// `rd, rs1, rs2`, of 64 bits.
#[tactic(auto, unfolding(crate::specs::Statements::statement_of, crate::specs::Statements::said))]
pub fn register_line(op: RegisterOp, text: &[u8]) -> StatementReading
    ensures { result ≡ statement_of [] (names.Register op) text.now }
{
    let (rd, (rs1, rs2)) = three_registers(text)?;
    Ok(Statement::One(Inst::Register { op, rd, rs1, rs2 }))
}

/// `rd, rs1, rs2`, of 32 bits.
#[tactic(auto, unfolding(crate::specs::Statements::statement_of, crate::specs::Statements::said))]
pub fn word_line(op: WordOp, text: &[u8]) -> StatementReading
    ensures { result ≡ statement_of [] (names.Word op) text.now }
{
    let (rd, (rs1, rs2)) = three_registers(text)?;
    Ok(Statement::One(Inst::Word { op, rd, rs1, rs2 }))
}

#[tactic(auto, unfolding(crate::specs::Operands::immediate_in))]
fn two_registers_and_immediate(text: &[u8]) -> Result<(Register, (Register, i32)), SourceFaultKind>
    ensures { result ≡ all_operands_in [] (slot.Register ∷ slot.Register ∷ immediate_slot ∷ []) text.now }
{
    let sources = both(
        register_in(second_operand(text)),
        immediate_in(third_operand(text)),
    );
    counted(
        3,
        how_many(text),
        both(register_in(first_operand(text)), sources),
    )
}

/// `rd, rs1, imm`.
#[tactic(auto, unfolding(crate::specs::Statements::statement_of, crate::specs::Statements::said))]
pub fn immediate_line(op: ImmediateOp, text: &[u8]) -> StatementReading
    ensures { result ≡ statement_of [] (names.Immediate op) text.now }
{
    let (rd, (rs1, immediate)) = two_registers_and_immediate(text)?;
    Ok(Statement::One(Inst::Immediate {
        op,
        rd,
        rs1,
        immediate,
    }))
}

fn greatest_shift(op: ShiftOp) -> u64
    ensures { result ≡ greatest_shift op }
{
    match op {
        ShiftOp::Slli | ShiftOp::Srli | ShiftOp::Srai => 63,
        ShiftOp::Slliw | ShiftOp::Srliw | ShiftOp::Sraiw => 31,
    }
}

/// The shift amount that a text is, 0 to 31 or 63.
fn amount_in(op: ShiftOp, text: &[u8]) -> Result<Shift, SourceFaultKind>
    ensures { result ≡ natural_in (greatest_shift op) text.now }
{
    let amount = natural_in(greatest_shift(op), text)?;
    match Shift::new(amount as u8) {
        Some(amount) => Ok(amount),
        None => unreachable!(),
    }
}

fn two_registers_and_amount(
    op: ShiftOp,
    text: &[u8],
) -> Result<(Register, (Register, Shift)), SourceFaultKind>
    ensures { result ≡ all_operands_in [] (slot.Register ∷ slot.Register ∷ slot.Natural (greatest_shift op) ∷ []) text.now }
{
    let sources = both(
        register_in(second_operand(text)),
        amount_in(op, third_operand(text)),
    );
    counted(
        3,
        how_many(text),
        both(register_in(first_operand(text)), sources),
    )
}

/// `rd, rs1, amount`.
#[tactic(auto, unfolding(crate::specs::Statements::statement_of, crate::specs::Statements::said))]
pub fn shift_line(op: ShiftOp, text: &[u8]) -> StatementReading
    ensures { result ≡ statement_of [] (names.Shift op) text.now }
{
    let (rd, (rs1, amount)) = two_registers_and_amount(op, text)?;
    Ok(Statement::One(Inst::Shift {
        op,
        rd,
        rs1,
        amount,
    }))
}

fn register_and_address(text: &[u8]) -> Result<(Register, (i32, Register)), SourceFaultKind>
    ensures { result ≡ all_operands_in [] (slot.Register ∷ slot.Address ∷ []) text.now }
{
    let read = both(
        register_in(first_operand(text)),
        address_in(second_operand(text)),
    );
    counted(2, how_many(text), read)
}

/// `rd, imm(rs1)`.
#[tactic(auto, unfolding(crate::specs::Statements::statement_of, crate::specs::Statements::said))]
pub fn load_line(op: LoadOp, text: &[u8]) -> StatementReading
    ensures { result ≡ statement_of [] (names.Load op) text.now }
{
    let (rd, (offset, rs1)) = register_and_address(text)?;
    Ok(Statement::One(Inst::Load {
        op,
        rd,
        rs1,
        offset,
    }))
}

/// `rs2, imm(rs1)`.
#[tactic(auto, unfolding(crate::specs::Statements::statement_of, crate::specs::Statements::said))]
pub fn store_line(op: StoreOp, text: &[u8]) -> StatementReading
    ensures { result ≡ statement_of [] (names.Store op) text.now }
{
    let (rs2, (offset, rs1)) = register_and_address(text)?;
    Ok(Statement::One(Inst::Store {
        op,
        rs1,
        rs2,
        offset,
    }))
}

/// What lui adds for these upper 20 bits.
pub fn upper(n: u64) -> i32
    requires { n ≤ 1048575 }
    ensures { result ≡ upper n }
{
    if n < 524288 {
        (n * 4096) as i32
    } else {
        -(((1048576 - n) * 4096) as i64) as i32
    }
}

#[tactic(auto, unfolding(crate::specs::Operands::upper_in))]
fn upper_in(text: &[u8]) -> Result<i32, SourceFaultKind>
    ensures { result ≡ upper_in text.now }
{
    let n = natural_in(1048575, text)?;
    Ok(upper(n))
}

fn register_and_upper(text: &[u8]) -> Result<(Register, i32), SourceFaultKind>
    ensures { result ≡ all_operands_in [] (slot.Register ∷ slot.Upper ∷ []) text.now }
{
    let read = both(
        register_in(first_operand(text)),
        upper_in(second_operand(text)),
    );
    counted(2, how_many(text), read)
}

/// `rd, imm`, of lui.
#[tactic(auto, unfolding(crate::specs::Statements::statement_of, crate::specs::Statements::said))]
pub fn lui_line(text: &[u8]) -> StatementReading
    ensures { result ≡ statement_of [] names.Lui text.now }
{
    let (rd, immediate) = register_and_upper(text)?;
    Ok(Statement::One(Inst::Lui { rd, immediate }))
}

/// `rd, imm`, of auipc.
#[tactic(auto, unfolding(crate::specs::Statements::statement_of, crate::specs::Statements::said))]
pub fn auipc_line(text: &[u8]) -> StatementReading
    ensures { result ≡ statement_of [] names.Auipc text.now }
{
    let (rd, immediate) = register_and_upper(text)?;
    Ok(Statement::One(Inst::Auipc { rd, immediate }))
}

/// `rs1`, of a jump that links in a given register.
#[tactic(auto, unfolding(crate::specs::Statements::said))]
pub fn jump_register_line(rd: Register, text: &[u8]) -> StatementReading
    ensures { result ≡ said [] (Each (slot.Register ∷ []) (λ rs1. One (inst.Jalr rd rs1 (pos 0)))) text.now }
{
    let rs1 = counted(1, how_many(text), register_in(first_operand(text)))?;
    Ok(Statement::One(Inst::Jalr { rd, rs1, offset: 0 }))
}

fn register_and_full_address(text: &[u8]) -> Result<(Register, (i32, Register)), SourceFaultKind>
    ensures { result ≡ all_operands_in [] (slot.Register ∷ slot.FullAddress ∷ []) text.now }
{
    let read = both(
        register_in(first_operand(text)),
        full_address_in(second_operand(text)),
    );
    counted(2, how_many(text), read)
}

/// `rd, imm(rs1)`, or `rs1` with x1 as the link.
#[tactic(auto, unfolding(crate::specs::Statements::statement_of, crate::specs::Statements::said))]
pub fn jalr_line(text: &[u8]) -> StatementReading
    ensures { result ≡ statement_of [] names.Jalr text.now }
{
    if how_many(text) == 1 {
        return jump_register_line(return_address(), text);
    }
    let (rd, (offset, rs1)) = register_and_full_address(text)?;
    Ok(Statement::One(Inst::Jalr { rd, rs1, offset }))
}
