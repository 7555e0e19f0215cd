//! Lines that name a label: branches, jumps and `la`.

ghost use Rattle.std.specs.Prelude.{◌≡◌, [], ◌∷◌};
ghost use Rattle.evm_asm_lexer.specs.declared.mnemonic.Mnemonic.TheVariants as names;
ghost use Rattle.evm_asm_parser.specs.declared.statement.Statement.TheVariants.{Jump};
ghost use Rattle.evm_asm_parser.specs.Forms as slot;
ghost use Rattle.evm_asm_parser.specs.Forms.{Each};
ghost use Rattle.evm_asm_parser.specs.Statements.{all_operands_in, said, statement_of};

use crate::labels::Labels;
use crate::operand::{
    counted, first_operand, how_many, label_in, register_in, second_operand, third_operand,
};
use crate::spot::Spot;
use crate::statement::{Statement, StatementReading, return_address, zero};
use evm_asm_lexer::{SourceFaultKind, both};
use evm_isa::{BranchOp, Register};

fn two_registers_and_label(
    labels: &Labels,
    text: &[u8],
) -> Result<(Register, (Register, Option<Spot>)), SourceFaultKind>
    ensures { result ≡ all_operands_in labels.now (slot.Register ∷ slot.Register ∷ slot.Label ∷ []) text.now }
{
    let others = both(
        register_in(second_operand(text)),
        label_in(labels, third_operand(text)),
    );
    counted(
        3,
        how_many(text),
        both(register_in(first_operand(text)), others),
    )
}

/// `rs1, rs2, label`.
#[tactic(auto, unfolding(crate::specs::Statements::statement_of, crate::specs::Statements::said))]
pub fn branch_line(labels: &Labels, op: BranchOp, text: &[u8]) -> StatementReading
    ensures { result ≡ statement_of labels.now (names.Branch op) text.now }
{
    let (rs1, (rs2, target)) = two_registers_and_label(labels, text)?;
    Ok(Statement::Branch {
        op,
        rs1,
        rs2,
        target,
    })
}

/// `rs2, rs1, label`.
#[tactic(auto, unfolding(crate::specs::Statements::statement_of, crate::specs::Statements::said))]
pub fn swapped_line(labels: &Labels, op: BranchOp, text: &[u8]) -> StatementReading
    ensures { result ≡ statement_of labels.now (names.BranchSwapped op) text.now }
{
    let (rs2, (rs1, target)) = two_registers_and_label(labels, text)?;
    Ok(Statement::Branch {
        op,
        rs1,
        rs2,
        target,
    })
}

fn register_and_label(
    labels: &Labels,
    text: &[u8],
) -> Result<(Register, Option<Spot>), SourceFaultKind>
    ensures { result ≡ all_operands_in labels.now (slot.Register ∷ slot.Label ∷ []) text.now }
{
    let read = both(
        register_in(first_operand(text)),
        label_in(labels, second_operand(text)),
    );
    counted(2, how_many(text), read)
}

/// `rs1, label`, compared with x0.
#[tactic(auto, unfolding(crate::specs::Statements::statement_of, crate::specs::Statements::said))]
pub fn branch_zero_line(labels: &Labels, op: BranchOp, text: &[u8]) -> StatementReading
    ensures { result ≡ statement_of labels.now (names.BranchZero op) text.now }
{
    let (rs1, target) = register_and_label(labels, text)?;
    Ok(Statement::Branch {
        op,
        rs1,
        rs2: zero(),
        target,
    })
}

/// `rs2, label`, which x0 is compared with.
#[tactic(auto, unfolding(crate::specs::Statements::statement_of, crate::specs::Statements::said))]
pub fn zero_branch_line(labels: &Labels, op: BranchOp, text: &[u8]) -> StatementReading
    ensures { result ≡ statement_of labels.now (names.ZeroBranch op) text.now }
{
    let (rs2, target) = register_and_label(labels, text)?;
    Ok(Statement::Branch {
        op,
        rs1: zero(),
        rs2,
        target,
    })
}

/// `label`, of a jump that links in a given register.
#[tactic(auto, unfolding(crate::specs::Statements::said))]
pub fn jump_line(labels: &Labels, rd: Register, text: &[u8]) -> StatementReading
    ensures { result ≡ said labels.now (Each (slot.Label ∷ []) (λ target. Jump rd target)) text.now }
{
    let target = counted(1, how_many(text), label_in(labels, first_operand(text)))?;
    Ok(Statement::Jump { rd, target })
}

/// `rd, label`, or `label` with x1 as the link.
#[tactic(auto, unfolding(crate::specs::Statements::statement_of, crate::specs::Statements::said))]
pub fn jal_line(labels: &Labels, text: &[u8]) -> StatementReading
    ensures { result ≡ statement_of labels.now names.Jal text.now }
{
    if how_many(text) == 1 {
        return jump_line(labels, return_address(), text);
    }
    let (rd, target) = register_and_label(labels, text)?;
    Ok(Statement::Jump { rd, target })
}

/// `rd, label`.
#[tactic(auto, unfolding(crate::specs::Statements::statement_of, crate::specs::Statements::said))]
pub fn load_address_line(labels: &Labels, text: &[u8]) -> StatementReading
    ensures { result ≡ statement_of labels.now names.LoadAddress text.now }
{
    let (rd, target) = register_and_label(labels, text)?;
    Ok(Statement::LoadAddress { rd, target })
}
