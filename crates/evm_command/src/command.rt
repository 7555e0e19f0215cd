//! A run of the program, from its words to its exit status.

ghost use Rattle.std.specs.Prelude.{◌≡◌, MatchResult, map, option_map};
ghost use Rattle.evm_command.specs.ThreadRuns.{SaysNumber};
ghost use Rattle.std.specs.String.{string_bytes};
ghost use Rattle.evm_host.specs.Answers.{HasNoWords};
ghost use Rattle.evm_command.specs.Running.{Does, DoesNamed, Answers, program_name};
ghost use Rattle.evm_command.specs.Words.{wanted};

use crate::assembling::assemble_file;
use crate::replaying::replay;
use crate::running::run;
use crate::threading::run_by_threads;
use crate::words::{Job, job_of, parse};
use clap::error::ErrorKind;
use evm_dev::Device;
use evm_host::{Devices, System, USAGE, WordsFault, World, no_words, refuse};
use std::alloc::Global;
use std::sync::Wait;
use std::thread::Threads;

/// The name in front of messages that are about no file.
pub(crate) const PROGRAM: &str = "evltool";

// What helps behind an error of a subcommand's words.
fn subcommand_tip(subcommand: &str) -> &'static str {
    if subcommand == "run" {
        "\nA script is read from standard input, and there are no options: evltool run IMAGE < SCRIPT\n"
    } else if subcommand == "replay" {
        "\nFor the journal of a run without IMAGE, assemble an empty source and name its image.\n"
    } else {
        ""
    }
}

// What helps behind an error of the words.
fn tip(kind: ErrorKind, words: &[String]) -> &'static str {
    match kind {
        ErrorKind::InvalidSubcommand => "\nThe commands are asm, run, replay, threads and help.\n",
        ErrorKind::UnknownArgument | ErrorKind::MissingRequiredArgument => match words {
            [_, subcommand, ..] => subcommand_tip(subcommand.as_str()),
            _ => "",
        },
        _ => "",
    }
}

// How many turns a word of TURNS says. It was checked: it is a number from 1 to 8000.
fn turns_of(word: &str) -> u32
    ensures { SaysNumber word.now result }
{
    match word.parse() {
        Ok(turns) => turns,
        Err(_) => 1,
    }
}

// Does a job, with devices in its machine.
fn do_job<S: System, D: Device, R: Threads + Wait + Sync>(
    rt: &R,
    alloc: Global,
    devices: Devices<D>,
    job: Job<'_>,
    world: &mut World<S>,
) -> u8
    ensures { Does S.opens S.creates S.Opened.gives S.Created.takes S.Input.gives S.Output.takes S.Errors.takes devices (wanted job.entry) world.old world.new result }
{
    match job {
        Job::Assemble { source, out } => assemble_file(alloc, source, out, world),
        Job::Run { image } => run(alloc, devices, image, world),
        Job::Replay { image, journal } => replay(alloc, devices, image, journal, world),
        Job::Threads { image, turns } => {
            run_by_threads(rt, alloc, devices, image, turns_of(turns), world)
        }
    }
}

// Does the job that the words name. They have been checked: they name one.
fn do_named<S: System, D: Device, R: Threads + Wait + Sync>(
    rt: &R,
    alloc: Global,
    devices: Devices<D>,
    job: Option<Job<'_>>,
    world: &mut World<S>,
) -> u8
    ensures { DoesNamed S.opens S.creates S.Opened.gives S.Created.takes S.Input.gives S.Output.takes S.Errors.takes devices (option_map wanted job.entry) world.old world.new result }
{
    match job {
        Some(job) => do_job(rt, alloc, devices, job, world),
        None => USAGE,
    }
}

/// Does what the words ask for, with devices in the machine, and returns the exit status.
pub fn answer<S: System, D: Device, R: Threads + Wait + Sync>(
    rt: &R,
    alloc: Global,
    words: &[String],
    devices: Devices<D>,
    world: &mut World<S>,
) -> u8
    ensures { Answers S.opens S.creates S.Opened.gives S.Created.takes S.Input.gives S.Output.takes S.Errors.takes devices (map string_bytes words.now) world.old world.new result }
{
    match parse(alloc, words) {
        Ok(matches) => do_named(rt, alloc, devices, job_of(&matches), world),
        Err(error) => refuse(alloc, PROGRAM, &error, tip(error.kind(), words), world),
    }
}

/// Does what the words ask for, or reports why they could not be read, and returns the exit status.
pub fn answer_read<S: System, D: Device, R: Threads + Wait + Sync>(
    rt: &R,
    alloc: Global,
    words: Result<Vec<String>, WordsFault>,
    devices: Devices<D>,
    world: &mut World<S>,
) -> u8
    ensures { MatchResult words (λ read. Answers S.opens S.creates S.Opened.gives S.Created.takes S.Input.gives S.Output.takes S.Errors.takes devices (map string_bytes read.items) world.old world.new result) (λ fault. HasNoWords S.Output.takes S.Errors.takes program_name fault world.old world.new result) }
{
    match words {
        Ok(words) => answer(rt, alloc, words.as_slice(), devices, world),
        Err(fault) => no_words(PROGRAM, fault, world),
    }
}
