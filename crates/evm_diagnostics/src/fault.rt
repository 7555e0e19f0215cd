//! Faults of scripts, journals and sources.

ghost use Rattle.std.specs.Prelude.{◌≡◌};
ghost use Rattle.evm_model.specs.Event.{event_lent};
ghost use Rattle.evm_diagnostics.specs.Faults.{event_cpu, view_cpu, line_at_fault};

use evm_debug::{Event, JournalFault, Refusal, View};
use evm_elf::AsmFault;
use evm_model::Block;
use evm_streams::{LineFault, Message, Numeral};
use std::fmt;
use thiserror::Error;

/// What is wrong with a line of a script, a journal or a source.
#[derive(Clone, Copy, Debug, PartialEq, Eq, Error)]
pub enum InputFault {
    /// The line of this number of a script is bad.
    BadLine(u64, LineFault),
    /// The machine refuses the line of this number, which names this processor, or none.
    Refused(u64, Option<u8>, Refusal),
    /// The source has a fault.
    NoProgram(AsmFault),
    /// The journal has a fault.
    NoJournal(JournalFault),
}

/// The processor of an event.
pub fn event_cpu(event: &Event<&Block>) -> Option<u8>
    ensures { result ≡ event_cpu (event_lent event.now) }
{
    match event {
        Event::Step(c)
        | Event::Raise(c, _)
        | Event::Bell(c, _)
        | Event::Stop(c)
        | Event::Go(c)
        | Event::StepI(c)
        | Event::SetReg(c, _, _)
        | Event::SetPc(c, _) => Some(*c),
        Event::Tick | Event::Poke(_, _) | Event::Break(_) | Event::Unbreak(_) => None,
    }
}

/// The processor of a view.
pub fn view_cpu(view: &View) -> Option<u8>
    ensures { result ≡ view_cpu view.now }
{
    match view {
        View::Regs(c) | View::Stages(c) | View::Counts(c, _) => Some(*c),
        View::Mem(_, _)
        | View::Tasks
        | View::Owners
        | View::Rank(_)
        | View::Journal
        | View::Console
        | View::Notices
        | View::Words(_) => None,
    }
}

// Words about a processor, where one is named, else other words.
fn about_cpu(
    cpu: Option<u8>,
    front: &'static str,
    back: &'static str,
    others: &'static str,
) -> Message {
    match cpu {
        None => Message::Plain(others),
        Some(c) => Message::WithOne(front, Numeral::Decimal(u64::from(c)), back),
    }
}

/// The message of a refusal, with its name and its number, if nothing else of the line is known.
pub(crate) fn refusal_message(cpu: Option<u8>, refusal: Refusal) -> Message {
    let words = match refusal {
        Refusal::NoSuchCpu => {
            return about_cpu(
                cpu,
                "refused: there is no processor ",
                " (NoSuchCpu, 2)",
                "refused: no processor has this number (NoSuchCpu, 2)",
            );
        }
        Refusal::NotStopped => {
            return about_cpu(
                cpu,
                "refused: processor ",
                " is not stopped (NotStopped, 4)",
                "refused: the processor is not stopped (NotStopped, 4)",
            );
        }
        Refusal::NoTask => {
            return about_cpu(
                cpu,
                "refused: processor ",
                " has no current task (NoTask, 5)",
                "refused: no task has this number (NoTask, 5)",
            );
        }
        Refusal::Full =>
            "refused: the journal is full; each step is one of the CAP events of boot (Full, 1)",
        Refusal::NoSuchLine => "refused: there is no such interrupt line (NoSuchLine, 3)",
        Refusal::BadAddress => "refused: address or byte count out of range (BadAddress, 6)",
        Refusal::BadRegister =>
            "refused: the register must be 1 to 31; x0 is always 0 (BadRegister, 7)",
        Refusal::NoSlot => "refused: 64 breakpoints are set already (NoSlot, 8)",
        Refusal::NoBreakpoint => "refused: no breakpoint is set there (NoBreakpoint, 9)",
        Refusal::BadSize => "refused: a number outside its limits (BadSize, 10)",
        Refusal::NoMemory => "refused: out of memory (NoMemory, 11)",
        Refusal::Started => "refused: the machine has had an event (Started, 12)",
        Refusal::PortsOut => "refused: a port is still out (PortsOut, 13)",
        Refusal::SeatsOut => "refused: a seat is still out (SeatsOut, 14)",
    };
    Message::Plain(words)
}

impl InputFault {
    /// The number of the line, from 1.
    pub fn line(self) -> u64
        ensures { result ≡ line_at_fault self }
    {
        match self {
            InputFault::BadLine(line, _) | InputFault::Refused(line, _, _) => line,
            InputFault::NoProgram(fault) => fault.line,
            InputFault::NoJournal(fault) => fault.line,
        }
    }

    /// Its message, if nothing else of the line is known.
    pub fn message(self) -> Message {
        match self {
            InputFault::BadLine(_, fault) => Message::Plain(fault.message()),
            InputFault::Refused(_, cpu, refusal) => refusal_message(cpu, refusal),
            InputFault::NoProgram(fault) => Message::Plain(fault.kind.message()),
            InputFault::NoJournal(fault) => Message::Plain(fault.kind.message()),
        }
    }
}

impl fmt::Display for InputFault {
    fn fmt<W: fmt::Write>(&self, f: &mut fmt::Formatter<W>) -> fmt::Result {
        let line = self.line();
        let message = self.message();
        write!(f, "line {line}: {message}")
    }
}
