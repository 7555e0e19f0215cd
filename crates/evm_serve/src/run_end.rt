//! Reports written in one piece, and the end of a run that came to a verdict or halted.

ghost use Rattle.std.specs.Prelude.{◌≡◌};
ghost use Rattle.evm_serve.specs.Playing.{WritesOnce, EndsAs};
ghost use Rattle.evm_serve.specs.FaultLines.{fault_text};
ghost use Rattle.evm_serve.specs.Serving.{EndsIn, Unread};

use crate::ending::{Ending, Halt, Verdict};
use crate::texts::fault_line;
use evm_diagnostics::InputFault;
use evm_streams::{ReadStop, Sink, write_all};
use std::alloc::Global;

/// Writes the report of a run that comes to this verdict.
pub(crate) fn write_report<W: Sink>(
    verdict: Verdict,
    text: &[u8],
    writer: &mut W,
) -> Result<Verdict, Halt>
    requires { EndsIn verdict text.now }
    ensures { WritesOnce W.takes (record { text = text.now; verdict = verdict }) writer.old writer.new result }
{
    match write_all(writer, text) {
        Ok(()) => Ok(verdict),
        Err(fault) => Err(Halt::WriteFailed(fault)),
    }
}

/// Writes the line of a fault, at which the run ends.
#[tactic(auto, using(crate::proofs::Memory::memory))]
pub(crate) fn write_fault<W: Sink>(
    alloc: Global,
    fault: InputFault,
    writer: &mut W,
) -> Result<Verdict, Halt>
    ensures { WritesOnce W.takes (record { text = fault_text fault; verdict = Verdict.Refused fault }) writer.old writer.new result }
{
    match fault_line(alloc, fault) {
        Ok(line) => write_report(Verdict::Refused(fault), line.as_bytes(), writer),
        Err(refused) => {
            refused.within();
            Err(Halt::NoMemory)
        }
    }
}

/// How a run ends whose input was not read.
pub(crate) fn unread<W: Sink>(stop: ReadStop, writer: &mut W) -> Ending
    ensures { Unread W.takes stop writer.old writer.new result }
{
    match stop {
        ReadStop::NoMemory => ended(Err(Halt::NoMemory), writer),
        ReadStop::Fault(fault) => Ending::ReadFailed(fault),
    }
}

/// How a run ends that came to a verdict or halted. Where an allocation failed, the line `memory` is written first.
pub(crate) fn ended<W: Sink>(outcome: Result<Verdict, Halt>, writer: &mut W) -> Ending
    ensures { EndsAs W.takes outcome writer.old writer.new result }
{
    match outcome {
        Ok(verdict) => Ending::Complete(verdict),
        Err(Halt::WriteFailed(fault)) => Ending::WriteFailed(fault),
        Err(Halt::NoMemory) => match write_all(writer, b"memory\n") {
            Ok(()) => Ending::NoMemory,
            Err(fault) => Ending::WriteFailed(fault),
        },
    }
}
