//! The words and bytes of what a source means.

ghost use Rattle.std.specs.Prelude.{◌≡◌, ◌≤◌, Ok, Err, [], length, IfOk, OnOk, IfErr};
ghost use Rattle.evm_asm.specs.Items.{Gives};
ghost use Rattle.evm_isa.specs.Encoded.{encoded};
ghost use Rattle.evm_asm.specs.Views.{view};
ghost use Rattle.evm_asm.specs.Programs.{Spelled, nothing_spelled, with_bytes, repeated, with_repeated, number_bytes, nop_bytes, with_word, worded, spelled_item, spelled, program_bytes, noted};
ghost use Rattle.evm_asm.specs.Places.{bytes_in};

use crate::failure::{AssemblyFailure, Shortage};
use crate::item::{Placed, SourceItem, TEXT_BASE};
use crate::place::bytes_in;
use evm_asm_parser::{DataWidth, Section, SourceFault, SourceFaultKind, extend_bytes, push};
use evm_isa::{Inst, encode};
use evm_room::Refused;
use std::alloc::Global;

/// An instruction of a program: where it is, the source line that it comes from (from 1), its word, and the
/// instruction that the word stands for.
#[derive(Clone, Copy, Debug, PartialEq, Eq)]
pub struct ProgramLine {
    pub address: u64,
    pub line: u64,
    pub word: u32,
    pub instruction: Inst,
}

/// The lines and sections of a program so far.
#[derive(Drop)]
pub struct Output {
    pub lines: Vec<ProgramLine>,
    pub text_bytes: Vec<u8>,
    pub data_bytes: Vec<u8>,
}

fn push_bytes(out: &mut Output, section: Section, bytes: &[u8]) -> Result<(), Refused>
    ensures ok { OnOk result (view out.new ≡ with_bytes section bytes.now (view out.old)) }
    ensures refused { IfErr result (λ asked. asked ≡ length bytes.now) }
{
    match section {
        Section::Text => extend_bytes(&mut out.text_bytes, bytes),
        Section::Data => extend_bytes(&mut out.data_bytes, bytes),
    }
}

/// Appends bytes, `count` times.
fn push_repeated(bytes: &mut Vec<u8>, count: u64, unit: &[u8]) -> Result<(), Refused>
    ensures ok { OnOk result (bytes.new.items ≡ repeated count unit.now bytes.old.items) }
    ensures refused { IfErr result (λ asked. asked ≡ length unit.now) }
{
    for _ in 0..count {
        extend_bytes(bytes, unit)?;
    }
    Ok(())
}

fn push_filling(out: &mut Output, section: Section, count: u64, unit: &[u8]) -> Result<(), Refused>
    ensures ok { OnOk result (view out.new ≡ with_repeated section count unit.now (view out.old)) }
    ensures refused { IfErr result (λ asked. asked ≡ length unit.now) }
{
    match section {
        Section::Text => push_repeated(&mut out.text_bytes, count, unit),
        Section::Data => push_repeated(&mut out.data_bytes, count, unit),
    }
}

fn push_number(
    out: &mut Output,
    section: Section,
    width: DataWidth,
    value: u64,
) -> Result<(), Refused>
    ensures ok { OnOk result (view out.new ≡ with_bytes section (number_bytes (bytes_in width) value) (view out.old)) }
    ensures refused { IfErr result (λ asked. asked ≤ 8) }
{
    let bytes = value.to_le_bytes();
    let count = bytes_in(width) as usize;
    push_bytes(out, section, &bytes[..count])
}

fn push_word(out: &mut Output, line: u64, instruction: &Inst, word: u32) -> Result<(), Refused>
    ensures ok { OnOk result (view out.new ≡ with_word line instruction.now word (view out.old)) }
    ensures refused { IfErr result (λ asked. asked ≤ 8) }
{
    let address = TEXT_BASE + out.text_bytes.len() as u64;
    let program_line = ProgramLine {
        address,
        line,
        word,
        instruction: *instruction,
    };
    push(&mut out.lines, program_line)?;
    extend_bytes(&mut out.text_bytes, &word.to_le_bytes())
}

fn push_instruction(out: &mut Output, line: u64, instruction: &Inst) -> Result<(), AssemblyFailure>
    ensures { Gives (λ _. view out.new) 8 result (worded line instruction.now (encoded instruction.now) (view out.old)) }
{
    match encode(*instruction) {
        Some(word) => match push_word(out, line, instruction, word) {
            Ok(()) => Ok(()),
            Err(refused) => Err(AssemblyFailure::Memory(Shortage { line, refused })),
        },
        None => Err(AssemblyFailure::Fault(SourceFault {
            line,
            kind: SourceFaultKind::RangeOfImmediate,
        })),
    }
}

/// What was pushed of no line of its own.
fn noted(pushed: Result<(), Refused>) -> Result<(), AssemblyFailure>
    ensures { result ≡ noted pushed }
{
    match pushed {
        Ok(()) => Ok(()),
        Err(refused) => Err(AssemblyFailure::Memory(Shortage { line: 1, refused })),
    }
}

#[tactic(auto, unfolding(crate::specs::Programs::spelled_item))]
fn push_placed(out: &mut Output, section: Section, item: SourceItem) -> Result<(), AssemblyFailure>
    ensures { Gives (λ _. view out.new) 8 result (spelled_item section item (view out.old)) }
{
    match item {
        SourceItem::Instruction(line, instruction) => push_instruction(out, line, &instruction),
        SourceItem::Number(width, value) => noted(push_number(out, section, width, value)),
        SourceItem::Zeros(count) => noted(push_filling(out, section, count, &[0])),
        SourceItem::Nops(count) => noted(push_filling(out, section, count, &[19, 0, 0, 0])),
    }
}

/// The words and bytes of the items.
#[tactic(auto, unfolding(crate::specs::Programs::spelled))]
pub fn spell(alloc: Global, items: &[Placed]) -> Result<Output, AssemblyFailure>
    ensures { Gives view 8 result (spelled items.now nothing_spelled) }
{
    let mut out = Output {
        lines: Vec::new(alloc),
        text_bytes: Vec::new(alloc),
        data_bytes: Vec::new(alloc),
    };
    let mut rest = items;
    while let [placed, tail @ ..] = rest {
        push_placed(&mut out, placed.section, placed.item)?;
        rest = tail;
    }
    Ok(out)
}

/// The bytes of a program: the text, and where there is data zeros up to a multiple of 4,096, and the data.
pub fn image(text: Vec<u8>, data_bytes: &[u8]) -> Result<Vec<u8>, Refused>
    ensures ok { IfOk result (λ v. v.items ≡ program_bytes text.items data_bytes.now) }
    ensures refused { IfErr result (λ asked. asked ≤ length data_bytes.now) }
{
    if data_bytes.is_empty() {
        return Ok(text);
    }
    let mut bytes = text;
    let padding = (4096 - bytes.len() as u64 % 4096) % 4096;
    push_repeated(&mut bytes, padding, &[0])?;
    extend_bytes(&mut bytes, data_bytes)?;
    Ok(bytes)
}
