//! The word `run`, from what stands behind it to the exit status.

ghost use Rattle.std.specs.Prelude.{◌≡◌, ◌↔◌, IfOk};
ghost use Rattle.evm_model.specs.declared.boot.Boot.{Boot};
ghost use Rattle.run_schedule.specs.Runs.{HasRun};
ghost use Rattle.run_command.specs.Status.{Succeeds};

use crate::PROGRAM;
use crate::halting::halted;
use crate::program::{NamedImage, Script, Way};
use crate::telling::put_finished;
use crate::words::{Course, Job, Until, WordFault, beats_of, course_of, job_of};
use clap::ArgMatches;
use evm_host::{
    FAILED, Message, Sink, System, USAGE, World, failed_write_message, image_at, memory_refused,
    names_at, not_created, not_opened, not_read, read_all, report, write_all,
};
use evm_ram::Image;
use run_schedule::{
    Beat, Boot, CAPACITY_LIMIT, FinishedRun, RunEnd, RunPlan, SIZE_LIMIT, ScriptFault, run,
    run_scripted,
};
use sh_answers::{Names, Page, write_journal};
use std::alloc::Global;

/// Where RAM begins.
const BASE: u64 = 0x8000_0000;

/// The symbol of the end of RAM that an image is linked for.
const RAM_END: &str = "ram_end";

/// The symbol of the names that a program of the kit's library keeps.
const NAMES_TABLE: &str = "kit_names";

// Reports words that are no job.
fn blame<S: System>(fault: WordFault, world: &mut World<S>) -> u8 {
    let words = match fault {
        WordFault::NoMemory => return memory_refused(PROGRAM, world),
        WordFault::Missing => return USAGE,
        WordFault::Lines => {
            "--lines: wanted L or L@N, by commas: line L, 2 to 63, with each tick (not with --ticks 0) or every N rounds, 1 to 1048576"
        }
        WordFault::Until => "--until: wanted exit, idle or a number of events, 1 to 1048576",
    };
    report(PROGRAM, Message::Plain(words), &mut world.errors);
    USAGE
}

// A program of the kit's library keeps names in RAM, with a map or without.
fn use_table(names: &mut Names) {
    if let Some(table) = names.symbols.address(NAMES_TABLE) {
        names.map.use_table(table);
    }
}

// The bytes of RAM that an image is linked for; the most where it says none.
fn linked_ram(names: &Names) -> u64 {
    match names.symbols.address(RAM_END) {
        Some(end) if BASE < end && end - BASE <= SIZE_LIMIT && end % 4_096 == 0 => end - BASE,
        _ => SIZE_LIMIT,
    }
}

fn boot_of(course: &Course<'_>, names: &Names) -> Boot {
    let capacity = match course.until {
        Until::Events(events) => events,
        Until::Exit | Until::Idle => u64::from(CAPACITY_LIMIT),
    };
    let ram = match course.ram {
        Some(ram) => ram,
        None => linked_ram(names),
    };
    Boot {
        watchdog: course.watchdog,
        ..Boot::newest(course.cpus, ram, capacity)
    }
}

// The status of a run.
fn verdict(ending: RunEnd) -> u8
    ensures { (result ≡ 0) ↔ (ending ≡ RunEnd.AllEnded) }
{
    match ending {
        RunEnd::AllEnded => 0,
        _ => 1,
    }
}

// Reports that memory was refused. Standard output has the text of the consoles alone.
fn no_memory<E: Sink>(errors: &mut E) -> u8 {
    report(PROGRAM, Message::Plain("out of memory"), errors);
    1
}

// Writes to standard error how a run has ended: 0, or the status where that fails.
fn tell<E: Sink>(alloc: Global, names: &Names, done: &FinishedRun, errors: &mut E) -> u8 {
    let mut page = Page::new(alloc);
    let told = put_finished(&mut page, names, done);
    match write_all(errors, page.bytes()) {
        Ok(()) if told.is_ok() => 0,
        Ok(()) => no_memory(errors),
        Err(_) => FAILED,
    }
}

// Writes the journal of a run to a file: 0, or the status where that fails.
fn save<F: Sink, E: Sink>(
    alloc: Global,
    path: &str,
    file: &mut F,
    done: &FinishedRun,
    errors: &mut E,
) -> u8 {
    let Ok(text) = write_journal(alloc, &done.machine) else {
        return no_memory(errors);
    };
    match write_all(file, text.as_bytes()) {
        Ok(()) => 0,
        Err(fault) => {
            let message = Message::Plain(failed_write_message(fault.cause));
            report(path, message, errors);
            FAILED
        }
    }
}

/// A file that is written at the end of a run.
#[derive(Drop)]
struct Out<'a, F: Sink + Drop> {
    path: &'a str,
    file: F,
}

// Creates the file of the journal, if one is named.
fn journal_of<'a, S: System>(
    job: &Job<'a>,
    world: &mut World<S>,
) -> Result<Option<Out<'a, S::Created>>, u8> {
    let Some(path) = job.journal else {
        return Ok(None);
    };
    match world.files.create(path) {
        Ok(file) => Ok(Some(Out { path, file })),
        Err(fault) => Err(not_created(path, fault, &mut world.errors)),
    }
}

// Runs an image to its end. The output gets the text of the consoles, the views of a script go to another sink.
fn run_in<W: Sink, V: Sink>(
    alloc: Global,
    image: &Image,
    way: Way<'_>,
    output: &mut W,
    views: &mut V,
) -> Result<FinishedRun, ScriptFault>
    ensures { IfOk result (λ done. (boot : Boot) × HasRun W.takes image.now boot output.old done.ending done.machine output.new) }
{
    match way {
        Way::Script(script) => run_scripted(alloc, image, script.text, output, views),
        Way::Plan(boot, plan) => match run(alloc, image, &boot, plan, output) {
            Ok(done) => Ok(done),
            Err(fault) => Err(ScriptFault::Run(fault)),
        },
    }
}

// Runs an image, says how the run has ended and writes its journal.
fn run_image<S: System>(
    alloc: Global,
    program: &NamedImage<'_>,
    way: Way<'_>,
    out: Option<Out<'_, S::Created>>,
    world: &mut World<S>,
) -> u8
    ensures { Succeeds S.Output.takes program.now.image.now result world.old.output world.new.output }
{
    let image = program.image;
    let done = match run_in(alloc, image, way, &mut world.output, &mut world.errors) {
        Ok(done) => done,
        Err(stop) => return halted(program, way, stop, world).max(1),
    };
    let mut status = verdict(done.ending);
    status = status.max(tell(alloc, program.names, &done, &mut world.errors));
    if let Some(mut out) = out {
        let saved = save(alloc, out.path, &mut out.file, &done, &mut world.errors);
        status = status.max(saved);
    }
    status
}

// The bytes of a script.
fn script_at<S: System>(alloc: Global, path: &str, world: &mut World<S>) -> Result<Vec<u8>, u8> {
    let mut file = match world.files.open(path) {
        Ok(file) => file,
        Err(fault) => return Err(not_opened(path, fault, &mut world.errors)),
    };
    match read_all(alloc, &mut file) {
        Ok(bytes) => Ok(bytes),
        Err(stop) => Err(not_read(stop, path, world)),
    }
}

// The bytes of the script, or none where a schedule is asked for.
fn script_of<S: System>(
    alloc: Global,
    course: &Course<'_>,
    world: &mut World<S>,
) -> Result<Vec<u8>, u8> {
    match course.script {
        Some(path) => script_at(alloc, path, world),
        None => Ok(Vec::new(alloc)),
    }
}

fn way_of<'a>(course: &Course<'a>, names: &Names, beats: &'a [Beat], script: &'a [u8]) -> Way<'a> {
    if let Some(path) = course.script {
        return Way::Script(Script { path, text: script });
    }
    let plan = RunPlan {
        beats,
        seed: course.seed,
        until_idle: course.until == Until::Idle,
    };
    Way::Plan(boot_of(course, names), plan)
}

// Does a job.
fn do_job<S: System>(
    alloc: Global,
    job: &Job<'_>,
    beats: &[Beat],
    world: &mut World<S>,
) -> Result<u8, u8> {
    let image = image_at(alloc, job.image, world)?;
    let mut names = names_at(alloc, PROGRAM, job.image, job.map, world)?;
    use_table(&mut names);
    let script = script_of(alloc, &job.course, world)?;
    let out = journal_of(job, world)?;
    let way = way_of(&job.course, &names, beats, script.as_slice());
    let program = NamedImage {
        path: job.image,
        image: &image,
        names: &names,
    };
    Ok(run_image(alloc, &program, way, out, world))
}

/// `run`: runs a program as the words ask for, and returns the exit status.
pub fn run_for<S: System>(alloc: Global, words: &ArgMatches<'_>, world: &mut World<S>) -> u8 {
    let job = match job_of(words) {
        Ok(job) => job,
        Err(fault) => return blame(fault, world),
    };
    let beats = match beats_of(alloc, words, job.course.ticks) {
        Ok(beats) => beats,
        Err(fault) => return blame(fault, world),
    };
    match do_job(alloc, &job, &beats, world) {
        Ok(status) | Err(status) => status,
    }
}

// The journal of a run, of which standard error says how it ended.
fn run_journal<S: System, W: Sink>(
    alloc: Global,
    program: &NamedImage<'_>,
    way: Way<'_>,
    output: &mut W,
    world: &mut World<S>,
) -> Result<String, u8> {
    let done = match run_in(alloc, program.image, way, output, &mut world.errors) {
        Ok(done) => done,
        Err(stop) => return Err(halted(program, way, stop, world).max(1)),
    };
    match tell(alloc, program.names, &done, &mut world.errors) {
        0 => {}
        status => return Err(status),
    }
    match write_journal(alloc, &done.machine) {
        Ok(text) => Ok(text),
        Err(_) => Err(memory_refused(PROGRAM, world)),
    }
}

/// The journal of a run of a program, as the words ask for it that `run` takes. Standard error says how the run ended; what the
/// program puts to its consoles is left out.
///
/// # Errors
///
/// The status of the job, where the words are no job or the run has no end.
pub fn journal_for<S: System>(
    alloc: Global,
    words: &ArgMatches<'_>,
    program: &NamedImage<'_>,
    world: &mut World<S>,
) -> Result<String, u8> {
    let course = match course_of(words) {
        Ok(course) => course,
        Err(fault) => return Err(blame(fault, world)),
    };
    let beats = match beats_of(alloc, words, course.ticks) {
        Ok(beats) => beats,
        Err(fault) => return Err(blame(fault, world)),
    };
    let script = script_of(alloc, &course, world)?;
    let way = way_of(&course, program.names, &beats, script.as_slice());
    let mut left_out = Vec::new(alloc);
    run_journal(alloc, program, way, &mut left_out, world)
}
