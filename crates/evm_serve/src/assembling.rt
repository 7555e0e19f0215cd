//! A source assembled into a file.

ghost use Rattle.evm_elf.specs.Files.{file_of};
ghost use Rattle.evm_elf.specs.evm_asm.Assembled.{program_of};
ghost use Rattle.evm_elf.specs.evm_asm_lexer.Faults.{reported};
ghost use Rattle.evm_serve.specs.Playing.{WritesOnce};
ghost use Rattle.evm_serve.specs.Assembling.{Assembles};

use crate::ending::{Ending, Halt, Verdict};
use crate::run_end::{ended, write_fault, write_report};
use evm_diagnostics::InputFault;
use evm_elf::{AsmFaultKind, Program, assemble, write_image};
use evm_streams::Sink;
use std::alloc::Global;

// Writes the file of a program.
#[tactic(auto, using(crate::proofs::Memory::memory))]
fn write_file<W: Sink>(alloc: Global, program: &Program, out: &mut W) -> Result<Verdict, Halt>
    ensures { WritesOnce W.takes (record { text = file_of program.now.bytes; verdict = Verdict.Done }) out.old out.new result }
{
    match write_image(alloc, program) {
        Ok(file) => write_report(Verdict::Done, file.as_slice(), out),
        Err(_) => Err(Halt::NoMemory),
    }
}

/// Assembles a source, and writes the ELF file of its program to `out`. If the source has a fault, `report` gets the line `asm LINE CODE`;
/// if an allocation fails, the line `memory`. Then nothing is written to `out`.
#[tactic(auto, using(crate::proofs::Memory::memory))]
pub fn assemble_to<W: Sink, T: Sink>(
    alloc: Global,
    source: &str,
    out: &mut W,
    report: &mut T,
) -> Ending
    ensures { Assembles W.takes T.takes (reported (program_of source.now)) out.old out.new report.old report.new result }
{
    let outcome = match assemble(alloc, source) {
        Ok(program) => write_file(alloc, &program, out),
        Err(fault) if matches!(fault.kind, AsmFaultKind::NoMemory) => Err(Halt::NoMemory),
        Err(fault) => write_fault(alloc, InputFault::NoProgram(fault), report),
    };
    ended(outcome, report)
}
