//! How runs end.

ghost use Rattle.std.specs.Prelude.{◌≡◌};
ghost use Rattle.evm_serve.specs.Serving.{verdict_status, status_at};

use evm_diagnostics::{InputFault, StepNote};
use evm_elf::ElfFault;
use evm_streams::{ReadFault, WriteFault};

/// How a line of a script was taken.
#[derive(Clone, Copy, Debug)]
pub enum Reply {
    /// The run goes on, with a note if a processor is stopped that was to step.
    Goes(Option<StepNote>),
    /// The run ends at this fault.
    Ends(InputFault),
}

/// What a run came to whose report was written to its end.
#[derive(Clone, Copy, Debug, PartialEq, Eq)]
pub enum Verdict {
    /// All was done.
    Done,
    /// A line, a journal, a source or an event was bad or refused.
    Refused(InputFault),
    /// The file of the image has a fault.
    ImageRefused(ElfFault),
}

/// Why a run halts before its report is written to its end.
#[derive(Clone, Copy, Debug)]
pub enum Halt {
    /// An allocation failed.
    NoMemory,
    /// A write failed.
    WriteFailed(WriteFault),
}

/// How a run ended.
#[derive(Clone, Copy, Debug, PartialEq, Eq)]
pub enum Ending {
    /// All of its report was written.
    Complete(Verdict),
    /// An allocation failed: a prefix of the report was written, and then the line `memory`.
    NoMemory,
    /// What was to be read could not be read, and nothing was written.
    ReadFailed(ReadFault),
    /// A write failed, after a prefix of what was to be written.
    WriteFailed(WriteFault),
}

impl Ending {
    /// 0 where all was done, 1 where something was bad or refused or an allocation failed, 3 where the file of
    /// the image has a fault, 4 after a failed read or write.
    pub fn status(&self) -> u8
        ensures { result ≡ status_at self.now }
    {
        match self {
            Ending::Complete(Verdict::Done) => 0,
            Ending::Complete(Verdict::Refused(_)) | Ending::NoMemory => 1,
            Ending::Complete(Verdict::ImageRefused(_)) => 3,
            Ending::ReadFailed(_) | Ending::WriteFailed(_) => 4,
        }
    }
}
