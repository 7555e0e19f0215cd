//! An assembled program.

ghost use Rattle.std.specs.Prelude.{◌≡◌, ◌≤◌, ◌+◌, IfOk, IfErr, length, slice_get, All};
ghost use Rattle.std.specs.Option.{option_map};
ghost use Rattle.evm_asm.specs.Items.{Gives, ReportsAsMeant};
ghost use Rattle.evm_asm_parser.specs.evm_asm_lexer.Faults.{reported};
ghost use Rattle.evm_asm_parser.specs.evm_asm_lexer.Names.{named};
ghost use Rattle.evm_asm.specs.Assembled.{assembled, program_of, IsWorded, StandsIn};
ghost use Rattle.evm_asm.specs.Views.{view};
ghost use Rattle.evm_asm.specs.Programs.{program_bytes};
ghost use Rattle.evm_asm.specs.Bounds.{bytes_max};
ghost use Rattle.evm_room.specs.Growth.{RefusedWithin};

use crate::failure::{AssemblyFailure, Shortage};
use crate::item::address;
use crate::layout::{Layout, lay_out};
use crate::meaning::meaning;
use crate::output::{Output, ProgramLine, image, spell};
use evm_asm_parser::{AsmFault, AsmFaultKind, Labels};
use evm_isa::encoded_by_table;
use evm_room::Refused;
use std::alloc::Global;
use std::marker::Model;

/// A program: its instructions in their order, its bytes, which begin at 0x80000000 and are at most 16,777,216,
/// and its labels.
#[derive(Drop)]
pub struct Program {
    lines: Vec<ProgramLine>,
    bytes: Vec<u8>,
    labels: Labels,
    text_size: u32,
}

impl Model for Program {
    ghost use Rattle.std.specs.Prelude.{◌≤◌, length};
    ghost use Rattle.evm_asm.specs.Assembled.{Assembled, addressed};
    ghost use Rattle.evm_asm.specs.Bounds.{bytes_max};
    ghost use Rattle.evm_room.specs.Growth.{RefusedWithin};

    ghost Value = { Assembled };

    ghost view = { λ p. record { lines = p.lines.items; bytes = p.bytes.items; labels = addressed p.text_size p.labels } };

    ghost invariant = { λ p. length p.bytes.items ≤ bytes_max };
}

impl Program {
    /// The instructions in the order of their addresses, each with its source line, from 1.
    pub fn lines(&self) -> &[ProgramLine]
        ensures { result.now ≡ self.now.lines }
    {
        self.lines.as_slice()
    }

    /// The bytes of the image, of which the first is at 0x80000000: at most 16,777,216.
    pub fn bytes(&self) -> &[u8]
        ensures all { result.now ≡ self.now.bytes }
        ensures fit { length self.now.bytes ≤ bytes_max }
    {
        self.bytes.as_slice()
    }

    /// The label at an index in the source's order, from 0, with its address. `None` past the last.
    pub fn label(&self, index: usize) -> Option<(&[u8], u64)>
        ensures { option_map (λ x. (x.0.now, x.1)) result ≡ slice_get self.now.labels index }
    {
        match self.labels.at(index) {
            Some((name, spot)) => Some((name, address(self.text_size, spot))),
            None => None,
        }
    }

    /// The address of a label. `None` if the source defines no such label.
    pub fn address_of(&self, name: &str) -> Option<u64>
        ensures { result ≡ named self.now.labels name.now }
    {
        match self.labels.find(name.as_bytes()) {
            Some(spot) => Some(address(self.text_size, spot)),
            None => None,
        }
    }
}

fn finished(layout: Layout, out: Output) -> Result<Program, Refused>
    requires { length (program_bytes (view out).text_bytes (view out).data_bytes) ≤ bytes_max }
    ensures ok { IfOk result (λ p. p ≡ assembled layout.place.text_size layout.labels (view out)) }
    ensures refused { IfErr result (λ asked. asked ≤ bytes_max) }
{
    let Output {
        lines,
        text_bytes,
        data_bytes,
    } = out;
    let Layout {
        labels,
        place,
        first: _,
    } = layout;
    let bytes = image(text_bytes, data_bytes.as_slice())?;
    Ok(Program {
        lines,
        bytes,
        labels,
        text_size: place.text_size,
    })
}

/// The same, or the fault or the growth that was refused.
#[tactic(auto, unfolding(crate::specs::Assembled::program_of))]
fn assembled(alloc: Global, source: &str) -> Result<Program, AssemblyFailure>
    // It gives up only where a growth was refused that is hardly greater than the source, or no greater than a program.
    ensures { Gives (λ p. p) (length source.now + bytes_max) result (program_of source.now) }
{
    let source = source.as_bytes();
    let (layout, kept) = match lay_out(alloc, source) {
        Ok(laid) => laid,
        Err(shortage) => return Err(AssemblyFailure::Memory(shortage)),
    };
    let items = meaning(alloc, source, &layout, kept)?;
    let out = spell(alloc, items.as_slice())?;
    match finished(layout, out) {
        Ok(program) => Ok(program),
        Err(refused) => Err(AssemblyFailure::Memory(Shortage { line: 1, refused })),
    }
}

/// Assembles a source.
///
/// # Errors
///
/// The first line that has a fault, with the fault of the least number; or `NoMemory`, with the line that was reached.
pub fn assemble(alloc: Global, source: &str) -> Result<Program, AsmFault>
    // The program or the fault is the one that the source means, unless memory runs out.
    ensures exact { ReportsAsMeant (λ p. p) result (reported (program_of source.now)) }
    // Memory runs out only where a growth was refused that is hardly greater than the source, or no greater than a program.
    ensures memory { IfErr result (λ fault. fault.kind ≡ AsmFaultKind.NoMemory → RefusedWithin (length source.now + bytes_max)) }
    // The word of each line stands for its instruction, by the table of instructions.
    ensures words { IfOk result (λ p. All IsWorded p.lines) }
    // It stands at the line's address.
    ensures placed { IfOk result (λ p. All (StandsIn p.bytes) p.lines) }
{
    encoded_by_table();
    match assembled(alloc, source) {
        Ok(program) => Ok(program),
        Err(AssemblyFailure::Fault(fault)) => Err(fault.reported()),
        Err(AssemblyFailure::Memory(shortage)) => {
            shortage.refused.within();
            Err(AsmFault {
                line: shortage.line,
                kind: AsmFaultKind::NoMemory,
            })
        }
    }
}
