//! The word `trace`, from what stands behind it to the exit status.

use crate::tracing::{TraceEnd, TracedRun, trace_journal};
use crate::words::{Job, job_of};
use clap::ArgMatches;
use evm_devs::program_devices;
use evm_host::{
    Ending, FAILED, Input, Message, Sink, System, USAGE, Verdict, World, ended, ended_with,
    failed_write_message, image_at, memory_refused, names_at, not_created, report, text_at,
};
use evm_ram::Image;
use evm_room::NoMemory;
use evm_streams::Meter;
use run_walk::{Names, RunNames};
use std::alloc::Global;

/// The name in front of messages that are about no file.
pub const PROGRAM: &str = "vardozek trace";

/// The name of standard output among the words.
const STANDARD_OUTPUT: &str = "-";

// Reports how a trace ended, and returns the status.
fn traced<E: Sink>(
    run: &TracedRun<'_>,
    job: Job<'_>,
    outcome: Result<(), TraceEnd>,
    errors: &mut E,
) -> u8 {
    let input = Input::Lines(Some(run.image), run.journal.as_bytes());
    match outcome {
        Ok(()) => 0,
        Err(TraceEnd::AtFault(fault)) => {
            let ending = Ending::Complete(Verdict::Refused(fault));
            ended_with(input, job.journal, &ending, errors)
        }
        Err(TraceEnd::NoMemory) => ended(PROGRAM, &Ending::NoMemory, errors),
        Err(TraceEnd::WriteFailed(fault)) => {
            let message = Message::Plain(failed_write_message(fault.cause));
            report(out_name(job.out), message, errors);
            FAILED
        }
    }
}

// The name of OUT in a message.
fn out_name(out: &str) -> &str {
    if out == STANDARD_OUTPUT {
        "standard output"
    } else {
        out
    }
}

/// What the files of a job hold: the image, its names, and the journal.
#[derive(Drop)]
struct Source {
    image: Image,
    names: Names,
    journal: String,
}

impl Source {
    // Reads the files of a job, or returns the status. A program that ran has the journal.
    fn read<S: System>(
        alloc: Global,
        job: Job<'_>,
        ran: Option<String>,
        world: &mut World<S>,
    ) -> Result<Source, u8> {
        let image = image_at(alloc, job.image, world)?;
        let names = names_at(alloc, PROGRAM, job.image, job.map, world)?;
        let journal = match ran {
            Some(journal) => journal,
            None => text_at(alloc, job.journal, world)?,
        };
        Ok(Source {
            image,
            names,
            journal,
        })
    }

    // The names of the tasks and objects of the journal's run.
    fn run_names(&self, alloc: Global) -> Result<RunNames, NoMemory> {
        let devices = program_devices(alloc)?;
        RunNames::of_journal(
            alloc,
            &self.image,
            devices,
            self.journal.as_str(),
            &self.names,
        )
    }
}

// Traces a run to OUT.
fn trace_to_out<S: System, M: Meter>(
    alloc: Global,
    run: &TracedRun<'_>,
    job: Job<'_>,
    meter: &mut M,
    world: &mut World<S>,
) -> u8 {
    let Ok(devices) = program_devices(alloc) else {
        return memory_refused(PROGRAM, world);
    };
    if job.out == STANDARD_OUTPUT {
        let outcome = trace_journal(alloc, run, devices, meter, &mut world.output);
        return traced(run, job, outcome, &mut world.errors);
    }
    match world.files.create(job.out) {
        Err(fault) => not_created(job.out, fault, &mut world.errors),
        Ok(mut file) => {
            let outcome = trace_journal(alloc, run, devices, meter, &mut file);
            traced(run, job, outcome, &mut world.errors)
        }
    }
}

// Traces the journal of a file on the image of another.
fn trace_source<S: System, M: Meter>(
    alloc: Global,
    source: &Source,
    job: Job<'_>,
    meter: &mut M,
    world: &mut World<S>,
) -> u8 {
    let Ok(names) = source.run_names(alloc) else {
        return memory_refused(PROGRAM, world);
    };
    let run = TracedRun {
        image: &source.image,
        symbols: &source.names.symbols,
        names: &names,
        journal: source.journal.as_str(),
        clock: job.clock,
    };
    trace_to_out(alloc, &run, job, meter, world)
}

// Does a job, with the journal of a program that ran, if one did.
fn trace_job<S: System, M: Meter>(
    alloc: Global,
    job: Job<'_>,
    ran: Option<String>,
    meter: &mut M,
    world: &mut World<S>,
) -> u8 {
    match Source::read(alloc, job, ran, world) {
        Ok(source) => trace_source(alloc, &source, job, meter, world),
        Err(status) => status,
    }
}

/// Whether the words behind `trace` ask for the run of a program, in the place of a journal.
pub fn traces_program(words: &ArgMatches<'_>) -> bool {
    match job_of(words) {
        Some(job) => job.runs,
        None => false,
    }
}

/// `trace`: writes the run of a journal as a trace, with a program's devices in the machine, and returns the exit status. The journal's text is
/// `ran`, if there is one, or else in the file that the words name.
pub fn trace<S: System, M: Meter>(
    alloc: Global,
    words: &ArgMatches<'_>,
    ran: Option<String>,
    meter: &mut M,
    world: &mut World<S>,
) -> u8 {
    match job_of(words) {
        Some(job) => trace_job(alloc, job, ran, meter, world),
        None => {
            let message = Message::Plain("it takes IMAGE JOURNAL OUT, or --run IMAGE OUT");
            report(PROGRAM, message, &mut world.errors);
            USAGE
        }
    }
}
