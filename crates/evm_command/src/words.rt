//! The words of the command line, and the job that they ask for.

ghost use Rattle.std.specs.Prelude.{◌≡◌, IfOk, false, map, option_copied, option_map};
ghost use Rattle.std.specs.String.{string_bytes};
ghost use Rattle.clap.specs.Words.{FailsBy, app_of, fault_of, first_of, found_of, rows_of, rule_of, subcommand_of, subcommand_rows_of};
ghost use Rattle.clap.specs.declared.builder.command.Command.TheViews.{out-Command};
ghost use Rattle.evm_command.specs.Words.{place_rule, asm_app, run_app, replay_app, threads_app, turns_rule, bare_app, evltool, asm_job, replay_job, threads_job, job_named, job_of, wanted};

use crate::help::{ASM_HELP, PROGRAM_HELP, REPLAY_HELP, RUN_HELP, THREADS_HELP};
use clap::builder::ValueParser;
use clap::{Arg, ArgMatches, Command, Error};
use evm_host::VERSION;
use std::alloc::{AllocError, Global};

/// A job, with the names of its files.
#[derive(Clone, Copy, Debug)]
pub enum Job<'a> {
    /// The source of one file is assembled into another.
    Assemble {
        /// The file of the source.
        source: &'a str,
        /// The file that is created.
        out: &'a str,
    },
    /// The script of standard input is served.
    Run {
        /// The file of the program that is put into the machine, if one is named.
        image: Option<&'a str>,
    },
    /// A journal is replayed.
    Replay {
        /// The file of the program.
        image: &'a str,
        /// The file of the journal.
        journal: &'a str,
    },
    /// An image is run by worker threads.
    Threads {
        /// The file of the program.
        image: &'a str,
        /// How many turns each worker has, in decimal: 1 to 8000.
        turns: &'a str,
    },
}

// A word that stands at its place.
fn place<'a>(alloc: Global, name: &'a str, help: &'a str) -> Arg<'a>
    ensures rule { rule_of result ≡ place_rule name.entry.now }
    ensures local { result.global ≡ false }
{
    Arg::new(alloc, name).required(true).help(help)
}

// The subcommand that serves a script.
fn run_command<'a>(alloc: Global) -> Result<Command<'a>, AllocError>
    ensures app { IfOk result (λ c. app_of c ≡ run_app) }
    ensures local { IfOk result (λ c. (out-Command c).has_globals ≡ false) }
{
    let image = place(
        alloc,
        "IMAGE",
        "The file of a program that is put into the machine",
    );
    Command::new(alloc, "run")
        .about("Serves a script from standard input")
        .after_help(RUN_HELP)
        .arg(image.required(false))
}

// The subcommand that replays a journal.
fn replay_command<'a>(alloc: Global) -> Result<Command<'a>, AllocError>
    ensures app { IfOk result (λ c. app_of c ≡ replay_app) }
    ensures local { IfOk result (λ c. (out-Command c).has_globals ≡ false) }
{
    Command::new(alloc, "replay")
        .about("Replays a journal and shows the machine that it makes")
        .after_help(REPLAY_HELP)
        .arg(place(alloc, "IMAGE", "The file of the program"))?
        .arg(place(alloc, "JOURNAL", "The file of the journal"))
}

// The number of turns of each worker.
fn turns<'a>(alloc: Global) -> Arg<'a>
    ensures rule { rule_of result ≡ turns_rule }
    ensures local { result.global ≡ false }
{
    place(alloc, "TURNS", "The turns of each worker, 1 to 8000").value_parser(ValueParser::Unsigned(
        1, 8000,
    ))
}

// The subcommand that runs an image by threads.
fn threads_command<'a>(alloc: Global) -> Result<Command<'a>, AllocError>
    ensures app { IfOk result (λ c. app_of c ≡ threads_app) }
    ensures local { IfOk result (λ c. (out-Command c).has_globals ≡ false) }
{
    Command::new(alloc, "threads")
        .about("Runs a program on two processors, each driven by a thread, and prints the journal")
        .after_help(THREADS_HELP)
        .arg(place(alloc, "IMAGE", "The file of the program"))?
        .arg(turns(alloc))
}

// The subcommand that assembles.
fn asm_command<'a>(alloc: Global) -> Result<Command<'a>, AllocError>
    ensures app { IfOk result (λ c. app_of c ≡ asm_app) }
    ensures local { IfOk result (λ c. (out-Command c).has_globals ≡ false) }
{
    Command::new(alloc, "asm")
        .about("Assembles a source into the file of a program")
        .after_help(ASM_HELP)
        .arg(place(alloc, "SRC", "The file of the source"))?
        .arg(place(alloc, "OUT", "The file that the program is written to"))
}

// The command line, without its subcommands.
fn bare_command<'a>(alloc: Global) -> Command<'a>
    ensures { app_of result ≡ bare_app }
{
    Command::new(alloc, "evltool")
        .version(VERSION)
        .about("An emulated multiprocessor with two kernels, driven by scripts")
        .after_help(PROGRAM_HELP)
        .subcommand_required(true)
}

// The command line: one subcommand for each job.
fn command<'a>(alloc: Global) -> Result<Command<'a>, AllocError>
    ensures { IfOk result (λ c. app_of c ≡ evltool) }
{
    bare_command(alloc)
        .subcommand(asm_command(alloc)?)?
        .subcommand(run_command(alloc)?)?
        .subcommand(replay_command(alloc)?)?
        .subcommand(threads_command(alloc)?)
}

/// The matches of the words.
///
/// # Errors
///
/// The words are no command, ask for help or the version, or an allocation failed.
pub(crate) fn parse<'a>(alloc: Global, words: &'a [String]) -> Result<ArgMatches<'a>, Error>
    ensures fails { FailsBy (fault_of evltool (map string_bytes words.entry.now)) result }
    ensures entered { IfOk result (λ m. subcommand_rows_of m ≡ subcommand_of evltool (map string_bytes words.entry.now)) }
{
    let command = command(alloc)?;
    command.try_get_matches_from(words)
}

// The value of an argument.
fn value<'a>(words: &ArgMatches<'a>, id: &str) -> Option<&'a str>
    ensures { option_copied result ≡ first_of id.now (rows_of (found_of words.now)) }
{
    words.get_str(id)
}

fn assembling<'a>(words: &ArgMatches<'a>) -> Option<Job<'a>>
    ensures { option_map wanted result ≡ asm_job (rows_of (found_of words.now)) }
{
    match (value(words, "SRC"), value(words, "OUT")) {
        (Some(source), Some(out)) => Some(Job::Assemble { source, out }),
        _ => None,
    }
}

fn replaying<'a>(words: &ArgMatches<'a>) -> Option<Job<'a>>
    ensures { option_map wanted result ≡ replay_job (rows_of (found_of words.now)) }
{
    match (value(words, "IMAGE"), value(words, "JOURNAL")) {
        (Some(image), Some(journal)) => Some(Job::Replay { image, journal }),
        _ => None,
    }
}

fn threading<'a>(words: &ArgMatches<'a>) -> Option<Job<'a>>
    ensures { option_map wanted result ≡ threads_job (rows_of (found_of words.now)) }
{
    match (value(words, "IMAGE"), value(words, "TURNS")) {
        (Some(image), Some(turns)) => Some(Job::Threads { image, turns }),
        _ => None,
    }
}

// The job of a subcommand of this name.
fn job_named<'a>(name: &str, words: &ArgMatches<'a>) -> Option<Job<'a>>
    ensures { option_map wanted result ≡ job_named name.now (rows_of (found_of words.now)) }
{
    if name == "asm" {
        assembling(words)
    } else if name == "run" {
        let image = value(words, "IMAGE");
        Some(Job::Run { image })
    } else if name == "replay" {
        replaying(words)
    } else if name == "threads" {
        threading(words)
    } else {
        None
    }
}

/// The job that the matches name.
pub(crate) fn job_of<'a>(matches: &ArgMatches<'a>) -> Option<Job<'a>>
    ensures { option_map wanted result ≡ job_of (subcommand_rows_of matches.now) }
{
    match matches.subcommand() {
        None => None,
        Some((name, words)) => job_named(name, words),
    }
}
