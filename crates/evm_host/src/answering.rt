//! What is written for words that are no job, and the status.

ghost use Rattle.clap.specs.Words.{kind_of};
ghost use Rattle.evm_host.specs.Answers.{Shows, Blames, Responds, Refuses, HasNoWords};

use crate::exit::{FAILED, USAGE, ended, memory_refused, words_not_read};
use crate::host::WordsFault;
use crate::system::{System, World};
use clap::Error;
use clap::error::ErrorKind;
use evm_serve::{Ending, Verdict};
use evm_streams::write_all;
use std::alloc::Global;

/// The version of each program, which `--version` prints behind its name.
pub const VERSION: &str = "0.1.0";

/// Writes help or the version to standard output, for the program of a name.
pub fn show<S: System>(program: &str, text: &str, world: &mut World<S>) -> u8
    ensures { Shows S.Output.takes S.Errors.takes program.now text.now world.old world.new result }
{
    let ending = match write_all(&mut world.output, text.as_bytes()) {
        Ok(()) => Ending::Complete(Verdict::Done),
        Err(fault) => Ending::WriteFailed(fault),
    };
    ended(program, &ending, &mut world.errors)
}

/// Writes to standard error what is wrong with the words.
pub fn blame<S: System>(text: &str, world: &mut World<S>) -> u8
    ensures { Blames S.Output.takes S.Errors.takes text.now world.old world.new result }
{
    match write_all(&mut world.errors, text.as_bytes()) {
        Ok(()) => USAGE,
        Err(_) => FAILED,
    }
}

// Writes the text for the words: help, the version, or what is wrong with them.
fn respond<S: System>(program: &str, kind: ErrorKind, text: &str, world: &mut World<S>) -> u8
    ensures { Responds S.Output.takes S.Errors.takes program.now kind text.now world.old world.new result }
{
    match kind {
        ErrorKind::DisplayHelp | ErrorKind::DisplayVersion => show(program, text, world),
        ErrorKind::OutOfMemory => memory_refused(program, world),
        _ => blame(text, world),
    }
}

/// Ends a run whose words are no job, or ask for help or the version. A tip stands behind the text.
pub fn refuse<S: System>(
    alloc: Global,
    program: &str,
    error: &Error,
    tip: &str,
    world: &mut World<S>,
) -> u8
    ensures { Refuses S.Output.takes S.Errors.takes program.now (kind_of error.now) world.old world.new result }
{
    match format!(in alloc; "{error}{tip}") {
        Ok(text) => respond(program, error.kind(), text.as_str(), world),
        Err(_) => memory_refused(program, world),
    }
}

/// Ends a run whose words can't be read.
pub fn no_words<S: System>(program: &str, fault: WordsFault, world: &mut World<S>) -> u8
    ensures { HasNoWords S.Output.takes S.Errors.takes program.now fault world.old world.new result }
{
    match fault {
        WordsFault::NotText => words_not_read(program, world),
        WordsFault::NoMemory => memory_refused(program, world),
    }
}
