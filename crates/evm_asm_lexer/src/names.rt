//! The names of the mnemonics, pseudo instructions and directives.

ghost use Rattle.std.specs.Prelude.{◌≡◌};
ghost use Rattle.evm_asm_lexer.specs.Names.{named, mnemonic_named, register_ops, word_ops, immediate_ops, shift_ops, load_ops, store_ops, branch_ops, bare_ops, unary_ops, branch_pseudos, jumps_and_loads, directives};

use crate::mnemonic::{BareOp, DataWidth, Mnemonic, Section, UnaryOp};
use evm_isa::{BranchOp, ImmediateOp, LoadOp, RegisterOp, ShiftOp, StoreOp, WordOp};

#[tactic(auto, unfolding(crate::specs::Names::register_ops))]
fn register_op(name: &[u8]) -> Option<RegisterOp>
    ensures { result ≡ named register_ops name.now }
{
    match name {
        b"add" => Some(RegisterOp::Add),
        b"sub" => Some(RegisterOp::Sub),
        b"sll" => Some(RegisterOp::Sll),
        b"slt" => Some(RegisterOp::Slt),
        b"sltu" => Some(RegisterOp::Sltu),
        b"xor" => Some(RegisterOp::Xor),
        b"srl" => Some(RegisterOp::Srl),
        b"sra" => Some(RegisterOp::Sra),
        b"or" => Some(RegisterOp::Or),
        b"and" => Some(RegisterOp::And),
        _ => None,
    }
}

#[tactic(auto, unfolding(crate::specs::Names::word_ops))]
fn word_op(name: &[u8]) -> Option<WordOp>
    ensures { result ≡ named word_ops name.now }
{
    match name {
        b"addw" => Some(WordOp::Addw),
        b"subw" => Some(WordOp::Subw),
        b"sllw" => Some(WordOp::Sllw),
        b"srlw" => Some(WordOp::Srlw),
        b"sraw" => Some(WordOp::Sraw),
        _ => None,
    }
}

#[tactic(auto, unfolding(crate::specs::Names::immediate_ops))]
fn immediate_op(name: &[u8]) -> Option<ImmediateOp>
    ensures { result ≡ named immediate_ops name.now }
{
    match name {
        b"addi" => Some(ImmediateOp::Addi),
        b"slti" => Some(ImmediateOp::Slti),
        b"sltiu" => Some(ImmediateOp::Sltiu),
        b"xori" => Some(ImmediateOp::Xori),
        b"ori" => Some(ImmediateOp::Ori),
        b"andi" => Some(ImmediateOp::Andi),
        b"addiw" => Some(ImmediateOp::Addiw),
        _ => None,
    }
}

#[tactic(auto, unfolding(crate::specs::Names::shift_ops))]
fn shift_op(name: &[u8]) -> Option<ShiftOp>
    ensures { result ≡ named shift_ops name.now }
{
    match name {
        b"slli" => Some(ShiftOp::Slli),
        b"srli" => Some(ShiftOp::Srli),
        b"srai" => Some(ShiftOp::Srai),
        b"slliw" => Some(ShiftOp::Slliw),
        b"srliw" => Some(ShiftOp::Srliw),
        b"sraiw" => Some(ShiftOp::Sraiw),
        _ => None,
    }
}

#[tactic(auto, unfolding(crate::specs::Names::load_ops))]
fn load_op(name: &[u8]) -> Option<LoadOp>
    ensures { result ≡ named load_ops name.now }
{
    match name {
        b"lb" => Some(LoadOp::Lb),
        b"lh" => Some(LoadOp::Lh),
        b"lw" => Some(LoadOp::Lw),
        b"ld" => Some(LoadOp::Ld),
        b"lbu" => Some(LoadOp::Lbu),
        b"lhu" => Some(LoadOp::Lhu),
        b"lwu" => Some(LoadOp::Lwu),
        _ => None,
    }
}

#[tactic(auto, unfolding(crate::specs::Names::store_ops))]
fn store_op(name: &[u8]) -> Option<StoreOp>
    ensures { result ≡ named store_ops name.now }
{
    match name {
        b"sb" => Some(StoreOp::Sb),
        b"sh" => Some(StoreOp::Sh),
        b"sw" => Some(StoreOp::Sw),
        b"sd" => Some(StoreOp::Sd),
        _ => None,
    }
}

#[tactic(auto, unfolding(crate::specs::Names::branch_ops))]
fn branch_op(name: &[u8]) -> Option<BranchOp>
    ensures { result ≡ named branch_ops name.now }
{
    match name {
        b"beq" => Some(BranchOp::Beq),
        b"bne" => Some(BranchOp::Bne),
        b"blt" => Some(BranchOp::Blt),
        b"bge" => Some(BranchOp::Bge),
        b"bltu" => Some(BranchOp::Bltu),
        b"bgeu" => Some(BranchOp::Bgeu),
        _ => None,
    }
}

#[tactic(auto, unfolding(crate::specs::Names::bare_ops))]
fn bare_op(name: &[u8]) -> Option<BareOp>
    ensures { result ≡ named bare_ops name.now }
{
    if name == b"fence".as_slice() {
        Some(BareOp::Fence)
    } else if name == b"ecall".as_slice() {
        Some(BareOp::Ecall)
    } else if name == b"ebreak".as_slice() {
        Some(BareOp::Ebreak)
    } else if name == b"nop".as_slice() {
        Some(BareOp::Nop)
    } else if name == b"ret".as_slice() {
        Some(BareOp::Ret)
    } else {
        None
    }
}

#[tactic(auto, unfolding(crate::specs::Names::unary_ops))]
fn unary_op(name: &[u8]) -> Option<UnaryOp>
    ensures { result ≡ named unary_ops name.now }
{
    if name == b"mv".as_slice() {
        Some(UnaryOp::Mv)
    } else if name == b"not".as_slice() {
        Some(UnaryOp::Not)
    } else if name == b"neg".as_slice() {
        Some(UnaryOp::Neg)
    } else if name == b"negw".as_slice() {
        Some(UnaryOp::Negw)
    } else if name == b"sext.w".as_slice() {
        Some(UnaryOp::SextW)
    } else if name == b"seqz".as_slice() {
        Some(UnaryOp::Seqz)
    } else if name == b"snez".as_slice() {
        Some(UnaryOp::Snez)
    } else if name == b"sltz".as_slice() {
        Some(UnaryOp::Sltz)
    } else if name == b"sgtz".as_slice() {
        Some(UnaryOp::Sgtz)
    } else {
        None
    }
}

#[tactic(auto, unfolding(crate::specs::Names::branch_pseudos))]
fn branch_pseudo(name: &[u8]) -> Option<Mnemonic>
    ensures { result ≡ named branch_pseudos name.now }
{
    match name {
        b"bgt" => Some(Mnemonic::BranchSwapped(BranchOp::Blt)),
        b"ble" => Some(Mnemonic::BranchSwapped(BranchOp::Bge)),
        b"bgtu" => Some(Mnemonic::BranchSwapped(BranchOp::Bltu)),
        b"bleu" => Some(Mnemonic::BranchSwapped(BranchOp::Bgeu)),
        b"beqz" => Some(Mnemonic::BranchZero(BranchOp::Beq)),
        b"bnez" => Some(Mnemonic::BranchZero(BranchOp::Bne)),
        b"bltz" => Some(Mnemonic::BranchZero(BranchOp::Blt)),
        b"bgez" => Some(Mnemonic::BranchZero(BranchOp::Bge)),
        b"bgtz" => Some(Mnemonic::ZeroBranch(BranchOp::Blt)),
        b"blez" => Some(Mnemonic::ZeroBranch(BranchOp::Bge)),
        _ => None,
    }
}

#[tactic(auto, unfolding(crate::specs::Names::jumps_and_loads))]
fn jump_or_load(name: &[u8]) -> Option<Mnemonic>
    ensures { result ≡ named jumps_and_loads name.now }
{
    match name {
        b"lui" => Some(Mnemonic::Lui),
        b"auipc" => Some(Mnemonic::Auipc),
        b"jal" => Some(Mnemonic::Jal),
        b"jalr" => Some(Mnemonic::Jalr),
        b"j" => Some(Mnemonic::Jump),
        b"jr" => Some(Mnemonic::JumpRegister),
        b"li" => Some(Mnemonic::LoadImmediate),
        b"la" => Some(Mnemonic::LoadAddress),
        _ => None,
    }
}

#[tactic(auto, unfolding(crate::specs::Names::directives))]
fn directive(name: &[u8]) -> Option<Mnemonic>
    ensures { result ≡ named directives name.now }
{
    if name == b".text".as_slice() {
        Some(Mnemonic::Section(Section::Text))
    } else if name == b".data".as_slice() {
        Some(Mnemonic::Section(Section::Data))
    } else if name == b".byte".as_slice() {
        Some(Mnemonic::Numbers(DataWidth::Byte))
    } else if name == b".word".as_slice() {
        Some(Mnemonic::Numbers(DataWidth::Word))
    } else if name == b".dword".as_slice() {
        Some(Mnemonic::Numbers(DataWidth::Dword))
    } else if name == b".space".as_slice() {
        Some(Mnemonic::Space)
    } else if name == b".align".as_slice() {
        Some(Mnemonic::Align)
    } else if name == b".globl".as_slice() {
        Some(Mnemonic::Global)
    } else if name == b".global".as_slice() {
        Some(Mnemonic::Global)
    } else {
        None
    }
}

/// What the mnemonic, pseudo instruction or directive of this name is.
#[tactic(auto, using(crate::proofs::Tables::mnemonic_in_parts))]
pub fn mnemonic_named(name: &[u8]) -> Option<Mnemonic>
    ensures { result ≡ mnemonic_named name.now }
{
    if let Some(op) = register_op(name) {
        return Some(Mnemonic::Register(op));
    }
    if let Some(op) = word_op(name) {
        return Some(Mnemonic::Word(op));
    }
    if let Some(op) = immediate_op(name) {
        return Some(Mnemonic::Immediate(op));
    }
    if let Some(op) = shift_op(name) {
        return Some(Mnemonic::Shift(op));
    }
    if let Some(op) = load_op(name) {
        return Some(Mnemonic::Load(op));
    }
    if let Some(op) = store_op(name) {
        return Some(Mnemonic::Store(op));
    }
    if let Some(op) = branch_op(name) {
        return Some(Mnemonic::Branch(op));
    }
    if let Some(op) = bare_op(name) {
        return Some(Mnemonic::Bare(op));
    }
    if let Some(op) = unary_op(name) {
        return Some(Mnemonic::Unary(op));
    }
    if let Some(mnemonic) = branch_pseudo(name) {
        return Some(mnemonic);
    }
    if let Some(mnemonic) = jump_or_load(name) {
        return Some(mnemonic);
    }
    directive(name)
}
