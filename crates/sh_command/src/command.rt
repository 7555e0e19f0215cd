//! The word `sh`, from what stands behind it to the exit status.

ghost use Rattle.std.specs.Prelude.{◌≡◌, ◌<◌, ◌≤◌, OnOk, if◌then◌else◌, option_copied};
ghost use Rattle.clap.specs.Words.{found_of, rows_of};
ghost use Rattle.evm_host.specs.evm_serve.Scripted.{script_of};
ghost use Rattle.evm_host.specs.evm_serve.ScriptedMachine.{journal_in, lines_done, machine_in};
ghost use Rattle.evm_host.specs.evm_serve.Serving.{WritesAll};
ghost use Rattle.sh_command.specs.Saved.{KeepsSession, Saves, SavesIf, SavesNamed, SavesSession, SavesSuite};

use crate::cases::Cases;
use crate::reading::{Finish, serve_lines};
use crate::shell::Shell;
use crate::words::{Job, job_of};
use clap::ArgMatches;
use evm_host::{
    Ending, Message, Sink, System, USAGE, Verdict, World, ended, image_at, memory_refused,
    names_at, not_created, not_opened, not_read, report, write_all,
};
use evm_ram::Image;
use evm_room::NoMemory;
use evm_streams::{Meter, ReadFault, ReadStop};
use sh_answers::{script_text, write_journal};
use std::alloc::Global;

/// The name in front of messages that are about no file.
pub(crate) const PROGRAM: &str = "vardozek sh";

const INPUT: &str = "standard input";

const OUTPUT: &str = "standard output";

// What the end of the lines says, and the status.
fn finished<S: System>(
    finish: Result<(), Finish>,
    failed: bool,
    name: &str,
    world: &mut World<S>,
) -> u8
    ensures { OnOk finish (result ≡ (if failed then 1 else 0)) }
{
    match finish {
        Ok(()) => u8::from(failed),
        Err(Finish::ReadFailed(cause)) => {
            not_read(ReadStop::Fault(ReadFault::Failed(cause)), name, world)
        }
        Err(Finish::WriteFailed(fault)) => {
            ended(OUTPUT, &Ending::WriteFailed(fault), &mut world.errors)
        }
        Err(Finish::NoMemory) => memory_refused(PROGRAM, world),
        Err(Finish::LineTooLong) => {
            let message = Message::Plain("a line has more than 65536 bytes");
            report(name, message, &mut world.errors);
            1
        }
    }
}

// Serves the lines of a file, or of standard input.
fn serve<S: System, M: Meter + Drop>(
    alloc: Global,
    shell: &mut Shell<'_, M>,
    file: Option<&str>,
    is_typed: bool,
    world: &mut World<S>,
) -> u8
    ensures { shell.new.scripted.image ≡ shell.old.scripted.image }
{
    let Some(path) = file else {
        let finish = serve_lines(
            alloc,
            shell,
            is_typed,
            &mut world.input,
            &mut world.output,
            &mut world.errors,
        );
        return finished(finish, shell.has_failed(), INPUT, world);
    };
    let mut source = match world.files.open(path) {
        Ok(source) => source,
        Err(fault) => return not_opened(path, fault, &mut world.errors),
    };
    let finish = serve_lines(
        alloc,
        shell,
        false,
        &mut source,
        &mut world.output,
        &mut world.errors,
    );
    finished(finish, shell.has_failed(), path, world)
}

// How writing a text to a file ended.
fn write_text<W: Sink>(text: &[u8], file: &mut W) -> Ending
    ensures { WritesAll W.takes (record { text = text.now; verdict = Verdict.Done }) file.old file.new result }
{
    match write_all(file, text) {
        Ok(()) => Ending::Complete(Verdict::Done),
        Err(fault) => Ending::WriteFailed(fault),
    }
}

// Writes a file, and answers 0 or the status.
fn save<S: System>(path: &str, text: &[u8], world: &mut World<S>) -> u8
    ensures { Saves S.creates S.Created.takes S.Output.takes S.Errors.takes path.now text.now world.old world.new result }
{
    match world.files.create(path) {
        Err(fault) => not_created(path, fault, &mut world.errors),
        Ok(mut file) => {
            let ending = write_text(text, &mut file);
            ended(path, &ending, &mut world.errors)
        }
    }
}

// Saves the lines that were done, if a file is named for them.
fn save_script<S: System, M: Meter + Drop>(
    alloc: Global,
    shell: &Shell<'_, M>,
    path: Option<&str>,
    world: &mut World<S>,
) -> u8
    ensures { SavesIf S.creates S.Created.takes S.Output.takes S.Errors.takes (option_copied path.entry) (script_of (lines_done shell.now.scripted.sitting)) world.old world.new result }
{
    let Some(path) = path else {
        return 0;
    };
    match script_text(alloc, shell.scripted().lines()) {
        Ok(text) => save(path, text.as_slice(), world),
        Err(NoMemory) => memory_refused(PROGRAM, world),
    }
}

// Saves the journal of the machine, if a file is named for it. There is none where no machine is booted.
fn save_journal<S: System, M: Meter + Drop>(
    alloc: Global,
    shell: &Shell<'_, M>,
    path: Option<&str>,
    world: &mut World<S>,
) -> u8
    ensures { SavesIf S.creates S.Created.takes S.Output.takes S.Errors.takes (option_copied path.entry) (journal_in (machine_in shell.now.scripted.sitting)) world.old world.new result }
{
    let Some(path) = path else {
        return 0;
    };
    let Some(machine) = shell.scripted().machine() else {
        return save(path, b"", world);
    };
    match write_journal(alloc, machine) {
        Ok(text) => save(path, text.as_bytes(), world),
        Err(NoMemory) => memory_refused(PROGRAM, world),
    }
}

// Saves the test suite, if one is written.
fn save_cases<S: System, M: Meter + Drop>(
    alloc: Global,
    shell: &Shell<'_, M>,
    path: Option<&str>,
    world: &mut World<S>,
) -> u8
    ensures { SavesSuite S.creates S.Created.takes S.Output.takes S.Errors.takes (option_copied path.entry) world.old world.new result }
{
    let Some(path) = path else {
        return 0;
    };
    let Some(cases) = &shell.cases else {
        return 0;
    };
    match cases.written(alloc) {
        Ok(text) => save(path, text.as_slice(), world),
        Err(NoMemory) => memory_refused(PROGRAM, world),
    }
}

// What is saved at the end, and the greatest status.
fn save_all<S: System, M: Meter + Drop>(
    alloc: Global,
    shell: &Shell<'_, M>,
    job: Job<'_>,
    status: u8,
    world: &mut World<S>,
) -> u8
    ensures status { status ≤ result }
    ensures saved { result ≡ 0 → KeepsSession S.creates S.Created.takes (option_copied job.entry.script) (option_copied job.entry.journal) (option_copied job.entry.junit) shell.now.scripted world.old.files world.new.files }
{
    shell.scripted().rules();
    let scripted = save_script(alloc, shell, job.script, world);
    let journaled = save_journal(alloc, shell, job.journal, world);
    let listed = save_cases(alloc, shell, job.junit, world);
    status.max(scripted).max(journaled).max(listed)
}

// The test suite, if one is asked for, with the files that are written.
fn cases_of(alloc: Global, job: Job<'_>) -> Result<Option<Cases>, NoMemory> {
    if job.junit.is_none() {
        return Ok(None);
    }
    let mut cases = Cases::new(alloc, job.image)?;
    if let Some(path) = job.journal {
        cases.attach(alloc, path)?;
    }
    if let Some(path) = job.script {
        cases.attach(alloc, path)?;
    }
    Ok(Some(cases))
}

// The status of a job that has no session: never 0.
fn not_begun(status: u8) -> u8
    ensures { 0 < result }
{
    status.max(1)
}

fn do_job<S: System, M: Meter + Drop>(
    alloc: Global,
    job: Job<'_>,
    is_typed: bool,
    meter: M,
    world: &mut World<S>,
) -> u8
    ensures { result ≡ 0 → SavesSession S.opens S.Opened.gives S.creates S.Created.takes S.Output.takes S.Errors.takes job.entry.image.now (option_copied job.entry.script) (option_copied job.entry.journal) (option_copied job.entry.junit) world.old world.new }
{
    let image = match image_at(alloc, job.image, world) {
        Ok(image) => image,
        Err(status) => return not_begun(status),
    };
    let names = match names_at(alloc, PROGRAM, job.image, job.map, world) {
        Ok(names) => names,
        Err(status) => return not_begun(status),
    };
    let cases = match cases_of(alloc, job) {
        Ok(cases) => cases,
        Err(NoMemory) => return not_begun(memory_refused(PROGRAM, world)),
    };
    let mut shell = match Shell::new(alloc, &image, names, meter) {
        Ok(shell) => shell,
        Err(NoMemory) => return not_begun(memory_refused(PROGRAM, world)),
    };
    shell.cases = cases;
    let status = serve(alloc, &mut shell, job.file, is_typed, world);
    save_all(alloc, &shell, job, status, world)
}

/// `sh`: serves the lines of a shell as the words ask for, and returns the exit status: 0 if each line was done and all files were saved.
/// Those of standard input may be typed at a terminal.
pub fn sh<S: System, M: Meter + Drop>(
    alloc: Global,
    words: &ArgMatches<'_>,
    is_typed: bool,
    meter: M,
    world: &mut World<S>,
) -> u8
    ensures { result ≡ 0 → SavesNamed S.opens S.Opened.gives S.creates S.Created.takes S.Output.takes S.Errors.takes (rows_of (found_of words.now)) world.old world.new }
{
    match job_of(words) {
        Some(job) => do_job(alloc, job, is_typed, meter, world),
        None => USAGE,
    }
}
