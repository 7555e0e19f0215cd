//! The system that the program runs on. That a call of `File::open` or `File::create` did what it returned is trusted
//! here, and nowhere else.

use crate::system::{OpenFault, System, World};
use std::fs::File;
use std::io::{ErrorKind, Stderr, Stdin, Stdout};

/// Why the words of a command line are not read.
#[derive(Clone, Copy, Debug, PartialEq, Eq)]
pub enum WordsFault {
    /// One of them is no text.
    NotText,
    /// Memory was refused.
    NoMemory,
}

// Why std says that a file can't be opened or created.
fn open_fault(kind: ErrorKind) -> OpenFault {
    match kind {
        ErrorKind::NotFound => OpenFault::Missing,
        ErrorKind::PermissionDenied => OpenFault::Denied,
        ErrorKind::IsADirectory => OpenFault::Folder,
        ErrorKind::NotADirectory => OpenFault::NotFolder,
        ErrorKind::ReadOnlyFilesystem => OpenFault::ReadOnly,
        ErrorKind::StorageFull | ErrorKind::QuotaExceeded => OpenFault::Full,
        ErrorKind::ExecutableFileBusy | ErrorKind::ResourceBusy => OpenFault::Busy,
        ErrorKind::InvalidFilename => OpenFault::NameTooLong,
        ErrorKind::FilesystemLoop => OpenFault::Loop,
        _ => OpenFault::Other,
    }
}

// Opens a file to be read. A folder can be opened, but not read.
fn open_file(rt: &HostRuntime, path: &str) -> Result<File, OpenFault> {
    if path.is_empty() {
        return Err(OpenFault::NoName);
    }
    let file = match File::open(rt, path) {
        Ok(file) => file,
        Err(error) => return Err(open_fault(error.kind())),
    };
    match file.metadata() {
        Ok(metadata) if metadata.is_dir() => Err(OpenFault::Folder),
        _ => Ok(file),
    }
}

// Creates a file to be written, or empties it.
fn create_file(rt: &HostRuntime, path: &str) -> Result<File, OpenFault> {
    if path.is_empty() {
        return Err(OpenFault::NoName);
    }
    match File::create(rt, path) {
        Ok(file) => Ok(file),
        Err(error) => Err(open_fault(error.kind())),
    }
}

/// The files of the system.
#[derive(Drop)]
pub struct Host<'a> {
    rt: &'a HostRuntime,
}

impl System for Host<'_> {
    ghost use Rattle.evm_host.specs.Trusted.{StdOpens, StdCreates};

    type Opened = File;

    type Created = File;

    type Input = Stdin;

    type Output = Stdout;

    type Errors = Stderr;

    ghost opens = { StdOpens };

    ghost creates = { StdCreates };

    fn open(&mut self, path: &str) -> Result<File, OpenFault> {
        open_file(self.rt, path)
    }

    fn create(&mut self, path: &str) -> Result<File, OpenFault> {
        create_file(self.rt, path)
    }
}

/// The system that the program runs on, and its streams.
pub fn host_world(rt: &HostRuntime) -> World<Host<'_>> {
    World {
        files: Host { rt },
        input: rt.stdin(),
        output: rt.stdout(),
        errors: rt.stderr(),
    }
}

/// The words of the command line, the name of the program first.
///
/// It has no contract: which words std gives no clause can name.
///
/// # Errors
///
/// A word is no text, or memory was refused.
pub fn words_of(rt: &HostRuntime) -> Result<Vec<String>, WordsFault> {
    let arguments = match std::env::args(rt) {
        Ok(arguments) => arguments,
        Err(error) if error.kind() == ErrorKind::OutOfMemory => return Err(WordsFault::NoMemory),
        Err(_) => return Err(WordsFault::NotText),
    };
    match arguments.collect(rt.alloc()) {
        Ok(words) => Ok(words),
        Err(_) => Err(WordsFault::NoMemory),
    }
}
