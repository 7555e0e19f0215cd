//! The lines of the file LIST: the status that is wanted, a command line of `evltool`, and the file of what it must write.

use crate::engine::{Outcome, assembled, imported, replayed_with, served, served_with};
use std::rt::Files;
use std::{fs, io};

/// What an example does, as `evltool` does it. The words are names of files.
#[derive(Debug, Drop)]
pub(crate) enum Command<'a> {
    /// Assembles a source, for the image.
    Image(&'a str),
    /// Assembles a source, for what is written beside the image.
    Assemble(&'a str),
    /// Runs a script.
    Run(&'a str),
    /// Runs a script with an image.
    RunWith(&'a str, &'a str),
    /// Replays a journal on an image.
    Replay(&'a str, &'a str),
}

/// An example.
#[derive(Debug, Drop)]
pub(crate) struct Example<'a> {
    status: u8,
    command: Command<'a>,
    wanted: &'a str,
}

// What `asm` does with these words, and the file of what it must write.
fn assembles<'a>(words: &[&'a str]) -> Option<(Command<'a>, &'a str)> {
    match *words {
        [source, wanted] => Some((Command::Image(source), wanted)),
        [source, _, ">", wanted] => Some((Command::Assemble(source), wanted)),
        _ => None,
    }
}

// What `run` does with these words.
fn runs<'a>(words: &[&'a str]) -> Option<(Command<'a>, &'a str)> {
    match *words {
        ["<", script, ">", wanted] => Some((Command::Run(script), wanted)),
        [image, "<", script, ">", wanted] => Some((Command::RunWith(image, script), wanted)),
        _ => None,
    }
}

// What `replay` does with these words.
fn replays<'a>(words: &[&'a str]) -> Option<(Command<'a>, &'a str)> {
    match *words {
        [image, journal, ">", wanted] => Some((Command::Replay(image, journal), wanted)),
        _ => None,
    }
}

// What a command does with the words behind it.
fn command_of<'a>(command: &str, words: &[&'a str]) -> Option<(Command<'a>, &'a str)> {
    match command {
        "asm" => assembles(words),
        "run" => runs(words),
        "replay" => replays(words),
        _ => None,
    }
}

/// The example of a line of LIST; None if it is none.
pub(crate) fn example_of<'a>(words: &[&'a str]) -> Option<Example<'a>> {
    let [status, command, rest @ ..] = words else {
        return None;
    };
    let status = status.parse().ok()?;
    let (command, wanted) = command_of(*command, rest)?;
    Some(Example {
        status,
        command,
        wanted,
    })
}

// The bytes of a file of the folder.
fn bytes(rt: &(impl Files + AllocGlobal), folder: &str, name: &str) -> io::Result<Vec<u8>> {
    fs::read(rt, format!(in rt.alloc(); "{folder}/{name}")?)
}

fn outcome_of(
    rt: &(impl Files + AllocGlobal),
    folder: &str,
    command: &Command<'_>,
) -> io::Result<Outcome> {
    let alloc = rt.alloc();
    match *command {
        Command::Image(source) => {
            let (file, report) = assembled(alloc, bytes(rt, folder, source)?.as_slice());
            let status = report.status;
            Ok(Outcome { text: file, status })
        }
        Command::Assemble(source) => {
            let (_, report) = assembled(alloc, bytes(rt, folder, source)?.as_slice());
            Ok(report)
        }
        Command::Run(script) => {
            let script = bytes(rt, folder, script)?;
            Ok(served(alloc, None, script.as_slice()))
        }
        Command::RunWith(image, script) => {
            let image = imported(alloc, bytes(rt, folder, image)?.as_slice());
            let script = bytes(rt, folder, script)?;
            Ok(served_with(alloc, image, script.as_slice()))
        }
        Command::Replay(image, journal) => {
            let image = imported(alloc, bytes(rt, folder, image)?.as_slice());
            let journal = bytes(rt, folder, journal)?;
            Ok(replayed_with(alloc, image, journal.as_slice()))
        }
    }
}

/// Whether an example gives its status and writes what it must.
pub(crate) fn is_as_wanted(
    rt: &(impl Files + AllocGlobal),
    folder: &str,
    example: &Example<'_>,
) -> io::Result<bool> {
    let outcome = outcome_of(rt, folder, &example.command)?;
    let wanted = bytes(rt, folder, example.wanted)?;
    Ok(outcome.status == example.status && outcome.text.as_slice() == wanted.as_slice())
}
