//! The word `view`, from what stands behind it to the exit status.

use crate::bounds::window_of;
use crate::diffing::diff;
use crate::naming::names_of;
use crate::paging::show_page;
use crate::reports::{Files, PROGRAM, STANDARD_OUTPUT, stopped};
use crate::showing::{Input, show_run};
use crate::words::{Job, NoJob, job_of};
use clap::ArgMatches;
use evm_devs::program_devices;
use evm_host::{
    Message, System, USAGE, World, image_at, memory_refused, names_at, report, text_at,
};
use evm_ram::Image;
use evm_streams::Meter;
use std::alloc::Global;
use view_picture::{Names, Naming, Window};

/// The status where the run has no such place.
const NO_PLACE: u8 = 1;

// Does a job with the files that were read, on a machine with a program's devices.
fn view_input<S: System, M: Meter>(input: &Input<'_>, meter: &mut M, world: &mut World<S>) -> u8 {
    let Ok(devices) = program_devices(input.alloc) else {
        return memory_refused(PROGRAM, world);
    };
    match input.job.other {
        None if input.job.is_page() => show_page(devices, input, None, meter, world),
        None => show_run(devices, input, None, meter, world),
        Some(other) => diff(devices, input, other, meter, world),
    }
}

// Reports a window in which there is no event.
fn no_place<S: System>(text: &'static str, world: &mut World<S>) -> u8 {
    report(PROGRAM, Message::Plain(text), &mut world.errors);
    NO_PLACE
}

/// What the files of a job hold: the image, its names, and the journal.
#[derive(Drop)]
struct Source {
    image: Image,
    names: Names,
    journal: String,
}

impl Source {
    // Reads the files of a job, or returns the status. A program that ran has the journal.
    fn read<S: System>(
        alloc: Global,
        job: Job<'_>,
        ran: Option<String>,
        world: &mut World<S>,
    ) -> Result<Source, u8> {
        let image = image_at(alloc, job.image, world)?;
        let names = names_at(alloc, PROGRAM, job.image, job.map, world)?;
        let journal = match ran {
            Some(journal) => journal,
            None => text_at(alloc, job.journal, world)?,
        };
        Ok(Source {
            image,
            names,
            journal,
        })
    }

    // The window that a job asks for, or the status where the run has none.
    fn window<S: System>(
        &self,
        alloc: Global,
        job: Job<'_>,
        naming: Naming<'_>,
        world: &mut World<S>,
    ) -> Result<Window, u8> {
        let journal = self.journal.as_str();
        match window_of(alloc, &self.image, journal, job.bounds, naming) {
            Ok(Some(window)) if window.to <= window.from => {
                Err(no_place("--to is not behind --from", world))
            }
            Ok(Some(window)) => Ok(window),
            Ok(None) => Err(no_place("no event of the journal is at --from or --to", world)),
            Err(end) => {
                let files = Files {
                    image: &self.image,
                    name: job.journal,
                    journal,
                    out: STANDARD_OUTPUT,
                };
                Err(stopped(files, end, &mut world.errors))
            }
        }
    }
}

// Does a job with the files that were read, whose run may have names.
fn view_source<S: System, M: Meter>(
    alloc: Global,
    source: &Source,
    job: Job<'_>,
    meter: &mut M,
    world: &mut World<S>,
) -> u8 {
    let journal = source.journal.as_str();
    let Ok(run) = names_of(alloc, &source.image, journal, &source.names) else {
        return memory_refused(PROGRAM, world);
    };
    let naming = Naming {
        image: &source.names,
        run: &run,
    };
    let window = match source.window(alloc, job, naming, world) {
        Ok(window) => window,
        Err(status) => return status,
    };
    let input = Input {
        alloc,
        job,
        image: &source.image,
        naming,
        window,
        journal,
    };
    view_input(&input, meter, world)
}

// Does a job, with the journal of a program that ran, if one did.
fn view_job<S: System, M: Meter>(
    alloc: Global,
    job: Job<'_>,
    ran: Option<String>,
    meter: &mut M,
    world: &mut World<S>,
) -> u8 {
    match Source::read(alloc, job, ran, world) {
        Ok(source) => view_source(alloc, &source, job, meter, world),
        Err(status) => status,
    }
}

// What is wrong with words that are no job.
fn words_fault(fault: NoJob) -> &'static str {
    match fault {
        NoJob::NoJournal => "JOURNAL is missing",
        NoJob::NoOut => "OUT is missing",
        NoJob::ManyFiles => "there is a file too many: --run takes no JOURNAL, --text no OUT",
        NoJob::NoPlace => "--from and --to take N, tick:N or mark:TEXT",
    }
}

// Reports words that are no job.
fn misused<S: System>(text: &'static str, world: &mut World<S>) -> u8 {
    report(PROGRAM, Message::Plain(text), &mut world.errors);
    USAGE
}

/// Whether the words behind `view` ask for the run of a program, in the place of a journal.
pub fn views_program(words: &ArgMatches<'_>) -> bool {
    match job_of(words) {
        Ok(job) => job.runs,
        Err(_) => false,
    }
}

/// `view`: shows the run of a journal as the words ask for, with a program's devices in the machine, and returns the exit status. The journal's text
/// is `ran`, if there is one, or else in the file that the words name.
pub fn view<S: System, M: Meter>(
    alloc: Global,
    words: &ArgMatches<'_>,
    ran: Option<String>,
    meter: &mut M,
    world: &mut World<S>,
) -> u8 {
    let job = match job_of(words) {
        Ok(job) => job,
        Err(fault) => return misused(words_fault(fault), world),
    };
    if !job.compares && job.other.is_some() && !job.is_page() {
        return misused("--beside needs an OUT that ends in .html", world);
    }
    view_job(alloc, job, ran, meter, world)
}
