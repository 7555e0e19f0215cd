//! A run of the program, from its words to its exit status.

use crate::parsing::parse;
use clap::ArgMatches;
use evm_host::{
    System, USAGE, World, host_world, image_at, memory_refused, names_at, no_words, refuse,
    words_of,
};
use evm_streams::Progress;
use gdb_command::gdb;
use gdb_packets::InputThread;
use hunt_command::{HuntProgress, hunt_for};
use run_command::{NamedImage, journal_for, run_for};
use sh_command::sh;
use std::alloc::Global;
use std::io::{IsTerminal, Read};
use std::sync::Wait;
use std::thread::Threads;
use trace_command::{trace, traces_program};
use view_command::{view, views_program};

/// The name in front of messages that are about no file and no word.
const PROGRAM: &str = "vardozek";

// The journal of the run of a program, if `view` or `trace` is to show one.
fn ran<S: System>(
    alloc: Global,
    is_asked: bool,
    words: &ArgMatches<'_>,
    world: &mut World<S>,
) -> Result<Option<String>, u8> {
    let Some(path) = words.get_str("IMAGE") else {
        return Ok(None);
    };
    if !is_asked {
        return Ok(None);
    }
    let image = image_at(alloc, path, world)?;
    let names = names_at(alloc, PROGRAM, path, words.get_str("map"), world)?;
    let program = NamedImage {
        path,
        image: &image,
        names: &names,
    };
    Ok(Some(journal_for(alloc, words, &program, world)?))
}

// `view` and `trace`, which replay a journal.
fn show_run<S: System>(
    rt: &HostRuntime,
    name: &str,
    words: &ArgMatches<'_>,
    world: &mut World<S>,
) -> u8 {
    let alloc = rt.alloc();
    let is_asked = if name == "view" {
        views_program(words)
    } else {
        traces_program(words)
    };
    let journal = match ran(alloc, is_asked, words, world) {
        Ok(journal) => journal,
        Err(status) => return status,
    };
    if name == "view" {
        let mut progress = Progress::new(rt, "vardozek view: event");
        return view(alloc, words, journal, &mut progress, world);
    }
    let mut progress = Progress::new(rt, "vardozek trace: event");
    trace(alloc, words, journal, &mut progress, world)
}

// `gdb`, which a thread hears.
fn serve_gdb<
    S: System,
    R: Threads + Wait + Copy + Send + Drop + 'static,
    I: Read + Send + Drop + 'static,
>(threads: R, alloc: Global, words: &ArgMatches<'_>, heard: I, world: &mut World<S>) -> u8 {
    match InputThread::new(threads, alloc, heard) {
        Ok(mut input) => gdb(alloc, words, &mut input, world),
        Err(_) => memory_refused(PROGRAM, world),
    }
}

// Does what a word of the table asks for.
fn do_word<
    S: System,
    R: Threads + Wait + Copy + Send + Drop + 'static,
    I: Read + Send + Drop + 'static,
>(
    rt: &HostRuntime,
    threads: R,
    word: (&str, &ArgMatches<'_>),
    is_typed: bool,
    heard: I,
    world: &mut World<S>,
) -> u8 {
    let (name, words) = word;
    match name {
        "gdb" => serve_gdb(threads, rt.alloc(), words, heard, world),
        "sh" => sh(
            rt.alloc(),
            words,
            is_typed,
            Progress::new(rt, "vardozek sh: round"),
            world,
        ),
        "run" => run_for(rt.alloc(), words, world),
        "hunt" => hunt_for(rt.alloc(), words, &mut HuntProgress::new(rt), world),
        _ => show_run(rt, name, words, world),
    }
}

/// Does what the words ask for, and returns the exit status. `gdb` hears what GDB sends in a thread of its own. What `sh` reads may be typed
/// at a terminal.
pub fn answer<
    S: System,
    R: Threads + Wait + Copy + Send + Drop + 'static,
    I: Read + Send + Drop + 'static,
>(
    rt: &HostRuntime,
    threads: R,
    words: &[String],
    is_typed: bool,
    heard: I,
    world: &mut World<S>,
) -> u8 {
    match parse(rt.alloc(), words) {
        Ok(matches) => match matches.subcommand() {
            Some(word) => do_word(rt, threads, word, is_typed, heard, world),
            None => USAGE,
        },
        Err(error) => refuse(rt.alloc(), PROGRAM, &error, "", world),
    }
}

/// Runs the program on the words of its command line, and returns the exit status.
///
/// It has no contract: which words std gives, and what its streams did before, no clause can name.
pub fn run<R: Threads + Wait + Copy + Send + Drop + 'static>(rt: &HostRuntime, threads: R) -> u8 {
    let mut world = host_world(rt);
    let is_typed = rt.stdin().is_terminal();
    match words_of(rt) {
        Ok(words) => answer(
            rt,
            threads,
            words.as_slice(),
            is_typed,
            rt.stdin(),
            &mut world,
        ),
        Err(fault) => no_words(PROGRAM, fault, &mut world),
    }
}
