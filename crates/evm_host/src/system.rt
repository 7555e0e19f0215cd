//! What the program asks of the system that it runs on.

use evm_serve::{Sink, Source};

/// Why a file can't be opened or created.
#[derive(Clone, Copy, Debug, PartialEq, Eq)]
pub enum OpenFault {
    /// There is no such file; of one that is to be created, its folder.
    Missing,
    /// The system doesn't allow it.
    Denied,
    /// It is a folder.
    Folder,
    /// Its name is empty.
    NoName,
    /// A part of its path is not a folder.
    NotFolder,
    /// The file system is read-only.
    ReadOnly,
    /// The device or the quota is full.
    Full,
    /// It is in use, as a program that runs.
    Busy,
    /// Its name is too long.
    NameTooLong,
    /// Too many symbolic links lead to it.
    Loop,
    /// Any other reason.
    Other,
}

/// A system that opens files and creates them, and that has three streams.
pub trait System {
    ghost use Rattle.std.specs.Prelude.{ℕ, List, Result};
    ghost use Rattle.evm_host.specs.declared.system.OpenFault.{OpenFault};

    /// A file that was opened.
    type Opened: Source + Drop;

    /// A file that was created.
    type Created: Sink + Drop;

    /// Standard input.
    type Input: Source + Drop;

    /// Standard output.
    type Output: Sink + Drop;

    /// Standard error.
    type Errors: Sink + Drop;

    // What opening the file of a name may answer at one state, and the state after it; and what creating it may. Nothing else is known of
    // these relations, so that only a call of this very system shows what was asked of it, and in which order.
    ghost opens: { Self → List ℕ → Result Self.Opened OpenFault → Self → Type 0 };

    ghost creates: { Self → List ℕ → Result Self.Created OpenFault → Self → Type 0 };

    /// Opens a file to be read, or returns why it can't be opened.
    fn open(&mut self, path: &str) -> Result<Self::Opened, OpenFault>
        ensures { opens self.old path.now result self.new };

    /// Creates a file to be written, or empties the one of this name, or returns why it can't be created.
    fn create(&mut self, path: &str) -> Result<Self::Created, OpenFault>
        ensures { creates self.old path.now result self.new };
}

/// A system, and its streams.
#[derive(Drop)]
pub struct World<S: System> {
    /// The system, which opens files.
    pub files: S,
    /// Standard input.
    pub input: S::Input,
    /// Standard output.
    pub output: S::Output,
    /// Standard error.
    pub errors: S::Errors,
}
