//! Lines without operands, and pseudo instructions that name no label.

ghost use Rattle.std.specs.Prelude.{◌≡◌, [], ◌∷◌};
ghost use Rattle.evm_isa.specs.declared.inst.Inst.TheVariants as inst;
ghost use Rattle.evm_asm_lexer.specs.declared.mnemonic.Mnemonic.TheVariants as names;
ghost use Rattle.evm_asm_parser.specs.Forms as slot;
ghost use Rattle.evm_asm_parser.specs.Forms.{bare_instruction, unary_instruction};
ghost use Rattle.evm_asm_parser.specs.Statements.{all_operands_in, statement_of};

use crate::operand::{counted, first_operand, how_many, integer_in, register_in, second_operand};
use crate::statement::{Statement, StatementReading, return_address, zero};
use evm_asm_lexer::{BareOp, SourceFaultKind, UnaryOp, both};
use evm_isa::{ImmediateOp, Inst, Register, RegisterOp, WordOp};

fn bare_instruction(op: BareOp) -> Inst
    ensures { result ≡ bare_instruction op }
{
    let rd = zero();
    match op {
        BareOp::Fence => Inst::Fence {
            rd,
            rs1: rd,
            fields: 255,
        },
        BareOp::Ecall => Inst::Ecall,
        BareOp::Ebreak => Inst::Ebreak,
        BareOp::Nop => Inst::Immediate {
            op: ImmediateOp::Addi,
            rd,
            rs1: rd,
            immediate: 0,
        },
        BareOp::Ret => Inst::Jalr {
            rd,
            rs1: return_address(),
            offset: 0,
        },
    }
}

/// A line without operands.
#[tactic(auto, unfolding(crate::specs::Statements::statement_of, crate::specs::Statements::said))]
pub fn bare_line(op: BareOp, text: &[u8]) -> StatementReading
    ensures { result ≡ statement_of [] (names.Bare op) text.now }
{
    counted(0, how_many(text), Ok(()))?;
    Ok(Statement::One(bare_instruction(op)))
}

fn plus(op: ImmediateOp, rd: Register, rs1: Register, immediate: i32) -> Inst
    ensures { result ≡ inst.Immediate op rd rs1 immediate }
{
    Inst::Immediate {
        op,
        rd,
        rs1,
        immediate,
    }
}

fn registers(op: RegisterOp, rd: Register, rs1: Register, rs2: Register) -> Inst
    ensures { result ≡ inst.Register op rd rs1 rs2 }
{
    Inst::Register { op, rd, rs1, rs2 }
}

fn unary_instruction(op: UnaryOp, rd: Register, rs: Register) -> Inst
    ensures { result ≡ unary_instruction op rd rs }
{
    match op {
        UnaryOp::Mv => plus(ImmediateOp::Addi, rd, rs, 0),
        UnaryOp::Not => plus(ImmediateOp::Xori, rd, rs, -1),
        UnaryOp::Neg => registers(RegisterOp::Sub, rd, zero(), rs),
        UnaryOp::Negw => Inst::Word {
            op: WordOp::Subw,
            rd,
            rs1: zero(),
            rs2: rs,
        },
        UnaryOp::SextW => plus(ImmediateOp::Addiw, rd, rs, 0),
        UnaryOp::Seqz => plus(ImmediateOp::Sltiu, rd, rs, 1),
        UnaryOp::Snez => registers(RegisterOp::Sltu, rd, zero(), rs),
        UnaryOp::Sltz => registers(RegisterOp::Slt, rd, rs, zero()),
        UnaryOp::Sgtz => registers(RegisterOp::Slt, rd, zero(), rs),
    }
}

fn two_registers(text: &[u8]) -> Result<(Register, Register), SourceFaultKind>
    ensures { result ≡ all_operands_in [] (slot.Register ∷ slot.Register ∷ []) text.now }
{
    let read = both(
        register_in(first_operand(text)),
        register_in(second_operand(text)),
    );
    counted(2, how_many(text), read)
}

/// `rd, rs`.
#[tactic(auto, unfolding(crate::specs::Statements::statement_of, crate::specs::Statements::said))]
pub fn unary_line(op: UnaryOp, text: &[u8]) -> StatementReading
    ensures { result ≡ statement_of [] (names.Unary op) text.now }
{
    let (rd, rs) = two_registers(text)?;
    Ok(Statement::One(unary_instruction(op, rd, rs)))
}

/// `rd, number`, from -2147483648 to 2147483647.
#[tactic(auto, unfolding(crate::specs::Statements::statement_of, crate::specs::Statements::said))]
pub fn load_immediate_line(text: &[u8]) -> StatementReading
    ensures { result ≡ statement_of [] names.LoadImmediate text.now }
{
    let number = integer_in(2147483648, 2147483647, second_operand(text));
    let read = both(register_in(first_operand(text)), number);
    let (rd, value) = counted(2, how_many(text), read)?;
    Ok(Statement::LoadImmediate { rd, value })
}
