//! What a run by threads came to.

ghost use Rattle.std.specs.Prelude.{◌≡◌};
ghost use Rattle.evm_command.specs.Workers.{ending_of, ending_status, journal_or_fault_text};

use evm_streams::WriteFault;

/// How a run by threads ended.
#[derive(Clone, Copy, Debug, PartialEq, Eq)]
pub enum RunEnding {
    /// All turns were made, and the text of the journal was written.
    Written,
    /// Not all turns were made, and the journal has no room for more; its text was written.
    Incomplete,
    /// A turn was refused or a ring is no Bell, though the journal has room; its text was written.
    Lost,
    /// Memory of a segment of the image lies past RAM: the line `refused 2 6` was written.
    ImageRefused,
    /// Memory was refused: the line `memory` was written.
    NoMemory,
    /// A write failed, after a prefix of what was to be written.
    WriteFailed(WriteFault),
}

impl RunEnding {
    /// The exit status: 0 where the journal of all turns was written, 1 where a turn, the image or memory was refused, 4 after a failed write.
    pub fn status(&self) -> u8
        ensures { result ≡ ending_status self.now }
    {
        match self {
            RunEnding::Written => 0,
            RunEnding::Incomplete | RunEnding::Lost => 1,
            RunEnding::ImageRefused | RunEnding::NoMemory => 1,
            RunEnding::WriteFailed(_) => 4,
        }
    }
}

/// What is to be written.
#[derive(Debug, Drop)]
pub(crate) enum Outcome {
    Journal(String),
    Incomplete(String),
    Lost(String),
    ImageRefused,
    NoMemory,
}

impl Outcome {
    pub(crate) fn ending(&self) -> RunEnding
        ensures { result ≡ ending_of self.now }
    {
        match self {
            Outcome::Journal(_) => RunEnding::Written,
            Outcome::Incomplete(_) => RunEnding::Incomplete,
            Outcome::Lost(_) => RunEnding::Lost,
            Outcome::ImageRefused => RunEnding::ImageRefused,
            Outcome::NoMemory => RunEnding::NoMemory,
        }
    }

    pub(crate) fn text(&self) -> &str
        ensures { result.now ≡ journal_or_fault_text self.now }
    {
        match self {
            Outcome::Journal(text) | Outcome::Incomplete(text) | Outcome::Lost(text) => {
                text.as_str()
            }
            // line 2 is the boot line of the journal that would be written
            Outcome::ImageRefused => "refused 2 6\n",
            Outcome::NoMemory => "memory\n",
        }
    }
}
