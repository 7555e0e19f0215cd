//! The word `gdb`, from what stands behind it to the exit status.

ghost use Rattle.gdb_command.specs.SessionEnds.{SessionEnded, Unheard};

use crate::booting::{NotBooted, default_boot, run_script};
use crate::saving::save;
use crate::words::{Job, job_of};
use clap::ArgMatches;
use evm_devs::AnyDevice;
use evm_elf::read_image;
use evm_host::{
    Ending, Input, Message, System, USAGE, Verdict, World, ended, ended_with, image_at,
    memory_refused, names_at, not_opened, read_all, report, text_at,
};
use evm_ram::Image;
use evm_serve::InputFault;
use evm_streams::{ReadFault, Source};
use gdb_answers::{
    Dialogue, Ended, GdbSession, Interrupts, Machine, Names, Refusal, begin, serve_gdb,
};
use gdb_packets::{Hearing, HearingEnd};
use std::alloc::Global;

/// The name in front of messages that are about no file.
pub const PROGRAM: &str = "vardozek gdb";

/// The symbol of the names that a program of the kit's library keeps.
const NAMES_TABLE: &str = "kit_names";

/// The name of what GDB sends.
const INPUT: &str = "standard input";

// Ends a run whose script left no machine.
fn not_booted<S: System>(
    fault: NotBooted,
    name: &str,
    script: &[u8],
    image: &Image,
    world: &mut World<S>,
) -> u8 {
    match fault {
        NotBooted::NoMemory => memory_refused(PROGRAM, world),
        NotBooted::NoBoot => {
            report(
                name,
                Message::Plain("no boot line, so there is no machine"),
                &mut world.errors,
            );
            1
        }
        NotBooted::Fault(fault) => ended_with(
            Input::Lines(Some(image), script),
            name,
            &Ending::Complete(Verdict::Refused(fault)),
            &mut world.errors,
        ),
    }
}

// The machine that boots by default.
fn default_machine<S: System>(
    alloc: Global,
    name: &str,
    image: &Image,
    world: &mut World<S>,
) -> Result<Machine<AnyDevice>, u8> {
    match begin(alloc, image, default_boot()) {
        Ok(machine) => Ok(machine),
        Err(Refusal::NoMemory) => Err(memory_refused(PROGRAM, world)),
        Err(_) => {
            report(
                name,
                Message::Plain("the machine refuses the image"),
                &mut world.errors,
            );
            Err(1)
        }
    }
}

// The machine that the words ask for.
fn machine_of<S: System>(
    alloc: Global,
    job: Job<'_>,
    image: &Image,
    world: &mut World<S>,
) -> Result<Machine<AnyDevice>, u8> {
    let Some(name) = job.script else {
        return default_machine(alloc, job.image, image, world);
    };
    let script = text_at(alloc, name, world)?;
    match run_script(alloc, script.as_bytes(), image, &mut world.errors) {
        Ok(machine) => Ok(machine),
        Err(fault) => Err(not_booted(fault, name, script.as_bytes(), image, world)),
    }
}

// The status of a session that could not read what GDB sends: memory was refused to the thread that hears it, or a read failed.
fn unread<S: System>(fault: ReadFault, heard: Option<HearingEnd>, world: &mut World<S>) -> u8
    ensures { Unheard S.Output.takes S.Errors.takes fault heard world.old world.new result }
{
    match heard {
        Some(HearingEnd::NoMemory) => memory_refused(PROGRAM, world),
        Some(HearingEnd::EndOfInput) | Some(HearingEnd::ReadFailed(_)) | None => {
            ended(INPUT, &Ending::ReadFailed(fault), &mut world.errors)
        }
    }
}

// The status of a session that has ended, and of which the hearing ended so.
fn status_of<S: System>(end: Ended, heard: Option<HearingEnd>, world: &mut World<S>) -> u8
    ensures { SessionEnded S.Output.takes S.Errors.takes end heard world.old world.new result }
{
    match end {
        Ended::Left | Ended::Saves | Ended::Boots => 0,
        Ended::NoMemory => memory_refused(PROGRAM, world),
        Ended::ReadFailed(fault) => unread(fault, heard, world),
        Ended::WriteFailed(fault) => {
            ended(PROGRAM, &Ending::WriteFailed(fault), &mut world.errors)
        }
    }
}

// The names of an image; a program of the kit's library keeps some in RAM.
fn names_of<S: System>(alloc: Global, job: Job<'_>, world: &mut World<S>) -> Result<Names, u8> {
    let mut names = names_at(alloc, PROGRAM, job.image, job.map, world)?;
    if let Some(table) = names.symbols.address(NAMES_TABLE) {
        names.map.use_table(table);
    }
    Ok(names)
}

// The image that a file has now. Where it has none that is reported on standard error alone, since GDB reads standard output.
fn image_now<S: System>(alloc: Global, path: &str, world: &mut World<S>) -> Option<Image> {
    let mut file = match world.files.open(path) {
        Ok(file) => file,
        Err(fault) => {
            let _ = not_opened(path, fault, &mut world.errors);
            return None;
        }
    };
    let message = match read_all(alloc, &mut file) {
        Ok(bytes) => match read_image(alloc, bytes.as_slice()) {
            Ok(image) => return Some(image),
            Err(_) => Message::Plain("it is no image, so the machine stays as it is"),
        },
        Err(_) => Message::Plain("it can't be read, so the machine stays as it is"),
    };
    report(path, message, &mut world.errors);
    None
}

// Boots a session anew with the image that the file has now, or keeps its machine where it has none.
fn boot_anew<S: System>(
    alloc: Global,
    job: Job<'_>,
    session: &mut GdbSession,
    world: &mut World<S>,
) {
    session.keep();
    let Some(image) = image_now(alloc, job.image, world) else {
        return;
    };
    let Ok(names) = names_of(alloc, job, world) else {
        return;
    };
    if session.boot(alloc, image, names).is_err() {
        let message = Message::Plain("the machine refuses it, and stays as it is");
        report(job.image, message, &mut world.errors);
    }
}

// Serves GDB until it leaves. Saves the session and boots it anew where that is asked for.
fn serve<S: System, I: Source + Interrupts>(
    alloc: Global,
    job: Job<'_>,
    session: &mut GdbSession,
    input: &mut I,
    world: &mut World<S>,
) -> Ended {
    let mut dialogue = Dialogue::new(alloc);
    'parts: for _ in 0..u64::MAX {
        match serve_gdb(alloc, session, &mut dialogue, input, &mut world.output) {
            Ended::Saves => {
                let _ = save(alloc, session, world);
            }
            Ended::Boots => boot_anew(alloc, job, session, world),
            end => return end,
        }
    }
    Ended::Left
}

// Boots a machine, and serves GDB.
fn do_job<S: System, I: Source + Interrupts + Hearing>(
    alloc: Global,
    job: Job<'_>,
    input: &mut I,
    world: &mut World<S>,
) -> u8 {
    let image = match image_at(alloc, job.image, world) {
        Ok(image) => image,
        Err(status) => return status,
    };
    let machine = match machine_of(alloc, job, &image, world) {
        Ok(machine) => machine,
        Err(status) => return status,
    };
    let names = match names_of(alloc, job, world) {
        Ok(names) => names,
        Err(status) => return status,
    };
    let mut session = GdbSession::new(alloc, image, names, machine);
    let end = serve(alloc, job, &mut session, input, world);
    status_of(end, input.end(), world)
}

/// `gdb`: serves GDB, and returns the exit status. GDB is heard by the input.
pub fn gdb<S: System, I: Source + Interrupts + Hearing>(
    alloc: Global,
    words: &ArgMatches<'_>,
    input: &mut I,
    world: &mut World<S>,
) -> u8 {
    match job_of(words) {
        Some(job) => do_job(alloc, job, input, world),
        None => USAGE,
    }
}
