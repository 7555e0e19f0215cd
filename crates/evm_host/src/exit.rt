//! What standard error gets at the end of a job, and the status of the job.

ghost use Rattle.std.specs.Prelude.{◌≡◌};
ghost use Rattle.std.specs.Str.{bytes_eq};
ghost use Rattle.evm_serve.specs.evm_diagnostics.Lookup.{has_boot};
ghost use Rattle.evm_streams.specs.Diagnostic.{Tells};
ghost use Rattle.evm_serve.specs.Serving.{Unread};
ghost use Rattle.evm_host.specs.Asks.{NotRead, NotWords};
ghost use Rattle.evm_host.specs.Exit.{Explains, Ended, EndedWith, input_of, TellsIdle, Finished, shown_path, output_name, Emptied, Leaves};

use crate::image_message::image_message;
use crate::source_message::source_diagnostic;
use crate::system::{OpenFault, System, World};
use evm_ram::Image;
use evm_serve::{
    Cause, ElfFault, Ending, InputFault, ReadFault, ReadStop, Sink, Verdict, fault_detail,
    has_boot, line_numbered, write_all,
};
use evm_streams::{Diagnostic, Message, report, report_line};

/// The status where a file can't be opened, created, read or written.
pub const FAILED: u8 = 4;

/// The status where the words are no command.
pub const USAGE: u8 = 2;

/// The name of the stream that reports are written to.
pub const OUTPUT: &str = "standard output";

/// The name of what `asm` writes to.
const OUTPUTS: &str = "OUT or standard output";

/// The input of a job, as its reports need it.
#[derive(Clone, Copy)]
pub enum Input<'a> {
    /// Nothing is known of it.
    Nothing,
    /// The source that it assembles.
    Source(&'a str),
    /// The image that its machine boots with, and the script or the journal that it takes line by line.
    Lines(Option<&'a Image>, &'a [u8]),
    /// The file of an image.
    File(&'a [u8]),
}

// A path, or '' if it is empty.
fn shown_path(path: &str) -> &str
    ensures { result.now ≡ shown_path path.now }
{
    if path.len() == 0 { "''" } else { path }
}

fn not_opened_message(fault: OpenFault) -> &'static str {
    match fault {
        OpenFault::Missing => "can't be opened: no such file",
        OpenFault::Denied => "can't be opened: permission denied",
        OpenFault::Folder => "can't be opened: it is a folder",
        OpenFault::NoName => "can't be opened: the name is empty",
        OpenFault::NotFolder => "can't be opened: a part of the path is not a folder",
        OpenFault::ReadOnly => "can't be opened: the file system is read-only",
        OpenFault::Full => "can't be opened: no space left on the device",
        OpenFault::Busy => "can't be opened: the file is in use",
        OpenFault::NameTooLong => "can't be opened: the name is too long",
        OpenFault::Loop => "can't be opened: too many symbolic links",
        OpenFault::Other => "can't be opened",
    }
}

/// Reports that a file can't be opened, and why, and returns the status.
pub fn not_opened<E: Sink>(path: &str, fault: OpenFault, errors: &mut E) -> u8
    ensures told { Tells E.takes (shown_path path.now) errors.old errors.new }
    ensures status { result ≡ 4 }
{
    let message = Message::Plain(not_opened_message(fault));
    report(shown_path(path), message, errors);
    FAILED
}

fn not_created_message(fault: OpenFault) -> &'static str {
    match fault {
        OpenFault::Missing => "can't be created: no such folder",
        OpenFault::Denied => "can't be created: permission denied",
        OpenFault::Folder => "can't be created: it is a folder",
        OpenFault::NoName => "can't be created: the name is empty",
        OpenFault::NotFolder => "can't be created: a part of the path is not a folder",
        OpenFault::ReadOnly => "can't be created: the file system is read-only",
        OpenFault::Full => "can't be created: no space left on the device",
        OpenFault::Busy => "can't be created: the file is in use",
        OpenFault::NameTooLong => "can't be created: the name is too long",
        OpenFault::Loop => "can't be created: too many symbolic links",
        OpenFault::Other => "can't be created",
    }
}

/// Reports that a file can't be created, and why, and returns the status.
pub fn not_created<E: Sink>(path: &str, fault: OpenFault, errors: &mut E) -> u8
    ensures told { Tells E.takes (shown_path path.now) errors.old errors.new }
    ensures status { result ≡ 4 }
{
    let message = Message::Plain(not_created_message(fault));
    report(shown_path(path), message, errors);
    FAILED
}

fn failed_read_message(cause: Cause) -> &'static str {
    match cause {
        Cause::Folder => "a read failed: it is a folder",
        Cause::Closed => "a read failed: it is closed, or not open for this",
        Cause::BrokenPipe => "a read failed: the reader of the pipe has gone",
        Cause::Full => "a read failed: no space left on the device",
        Cause::TooLarge => "a read failed: the file may not be larger",
        Cause::Interrupted => "a read failed: a signal interrupted it",
        Cause::Device => "a read failed: the device failed",
        Cause::TookNone => "a read failed: it took no byte",
        Cause::Other => "a read failed",
    }
}

/// Why a write failed.
pub fn failed_write_message(cause: Cause) -> &'static str {
    match cause {
        Cause::Folder => "a write failed: it is a folder",
        Cause::Closed => "a write failed: it is closed, or not open for this",
        Cause::BrokenPipe => "a write failed: the reader of the pipe has gone",
        Cause::Full => "a write failed: no space left on the device",
        Cause::TooLarge => "a write failed: the file may not be larger",
        Cause::Interrupted => "a write failed: a signal interrupted it",
        Cause::Device => "a write failed: the device failed",
        Cause::TookNone => "a write failed: it took no byte",
        Cause::Other => "a write failed",
    }
}

fn not_read_message(fault: ReadFault) -> &'static str {
    match fault {
        ReadFault::Failed(cause) => failed_read_message(cause),
        ReadFault::TooLong => "more than 16777216 bytes",
        ReadFault::NotUtf8 => "not UTF-8",
    }
}

// The line of a script or a journal that is faulty. A line that the machine refuses is not quoted.
fn quoted_line(text: &[u8], fault: InputFault) -> Option<&[u8]> {
    match fault {
        InputFault::BadLine(number, _) => line_numbered(number, text),
        InputFault::NoJournal(fault) => line_numbered(fault.line, text),
        InputFault::Refused(_, _, _) | InputFault::NoProgram(_) => None,
    }
}

// The diagnostic of a fault of a script or a journal.
fn line_diagnostic<'a>(image: Option<&Image>, text: &'a [u8], fault: InputFault) -> Diagnostic<'a> {
    let message = fault_detail(image, text, fault);
    match quoted_line(text, fault) {
        Some(line) => Diagnostic::Quoting(message, ": \"", line),
        None => Diagnostic::Alone(message),
    }
}

// The diagnostic of the fault of a job on a source.
fn job_diagnostic(source: &str, fault: InputFault) -> Diagnostic<'_> {
    match fault {
        InputFault::NoProgram(fault) => source_diagnostic(source, fault),
        InputFault::BadLine(_, _) | InputFault::Refused(_, _, _) | InputFault::NoJournal(_) => {
            Diagnostic::Alone(fault.message())
        }
    }
}

// The diagnostic of the fault of a job.
fn fault_diagnostic(input: Input<'_>, fault: InputFault) -> Diagnostic<'_> {
    match input {
        Input::Nothing | Input::File(_) => Diagnostic::Alone(fault.message()),
        Input::Source(source) => job_diagnostic(source, fault),
        Input::Lines(image, text) => line_diagnostic(image, text, fault),
    }
}

// The message of a file that is not an image.
fn image_fault_message(input: Input<'_>, fault: ElfFault) -> Message {
    match input {
        Input::File(bytes) => image_message(bytes, fault),
        Input::Nothing | Input::Source(_) | Input::Lines(_, _) => {
            Message::Plain(fault.message())
        }
    }
}

// Reports a script that has no boot line.
fn report_idle<E: Sink>(name: &str, text: &[u8], errors: &mut E)
    ensures { TellsIdle E.takes name.now (has_boot text.now) errors.old errors.new }
{
    if !has_boot(text) {
        report(
            name,
            Message::Plain("no boot line, so nothing is done"),
            errors,
        );
    }
}

// Reports a job of which all is done.
fn report_done<E: Sink>(input: Input<'_>, name: &str, errors: &mut E)
    ensures { Finished E.takes (input_of input.entry) name.now errors.old errors.new }
{
    match input {
        Input::Lines(_, text) => report_idle(name, text, errors),
        Input::Nothing | Input::Source(_) | Input::File(_) => {}
    }
}

// The name of what a job writes to. `asm` writes to two files.
fn output_name(input: Input<'_>) -> &'static str
    ensures { result.now ≡ output_name (input_of input.entry) }
{
    match input {
        Input::Source(_) => OUTPUTS,
        Input::Nothing | Input::Lines(_, _) | Input::File(_) => OUTPUT,
    }
}

// Reports why a job on a file did not end well.
fn explain<E: Sink>(input: Input<'_>, name: &str, ending: Ending, errors: &mut E)
    ensures { Explains E.takes (input_of input.entry) name.now ending errors.old errors.new }
{
    match ending {
        Ending::Complete(Verdict::Done) => report_done(input, name, errors),
        Ending::Complete(Verdict::Refused(fault)) => {
            report_line(name, fault.line(), fault_diagnostic(input, fault), errors)
        }
        Ending::Complete(Verdict::ImageRefused(fault)) => {
            report(name, image_fault_message(input, fault), errors)
        }
        Ending::NoMemory => report(name, Message::Plain("out of memory"), errors),
        Ending::ReadFailed(fault) => {
            report(name, Message::Plain(not_read_message(fault)), errors)
        }
        Ending::WriteFailed(fault) => report(
            output_name(input),
            Message::Plain(failed_write_message(fault.cause)),
            errors,
        ),
    }
}

// Reports that OUT is empty, if the source has a fault.
fn report_emptied<E: Sink>(out: &str, ending: Ending, errors: &mut E)
    ensures { Emptied E.takes out.now ending errors.old errors.new }
{
    match ending {
        Ending::Complete(Verdict::Refused(_)) => report(
            shown_path(out),
            Message::Plain("it is empty now, since the source has a fault"),
            errors,
        ),
        Ending::Complete(Verdict::Done | Verdict::ImageRefused(_))
        | Ending::NoMemory
        | Ending::ReadFailed(_)
        | Ending::WriteFailed(_) => {}
    }
}

/// Reports what became of OUT and SRC, if the source is lost or OUT is empty.
pub fn report_out<E: Sink>(source: &str, out: &str, ending: &Ending, errors: &mut E)
    ensures { Leaves E.takes (bytes_eq source.now out.now) out.now ending.now errors.old errors.new }
{
    if source == out {
        report(
            shown_path(out),
            Message::Plain("SRC and OUT are one file, so the source is lost"),
            errors,
        );
    } else {
        report_emptied(out, *ending, errors);
    }
}

/// Reports why a job on a file did not end well, and returns its status.
pub fn ended_with<E: Sink>(input: Input<'_>, name: &str, ending: &Ending, errors: &mut E) -> u8
    ensures { EndedWith E.takes (input_of input.entry) name.now ending.now errors.old errors.new result }
{
    explain(input, name, *ending, errors);
    ending.status()
}

/// Like `ended_with`, of a job that knows nothing of its input.
pub fn ended<E: Sink>(name: &str, ending: &Ending, errors: &mut E) -> u8
    ensures { Ended E.takes name.now ending.now errors.old errors.new result }
{
    ended_with(Input::Nothing, name, ending, errors)
}

// How a job ends that has not read its input. Where an allocation failed, the line `memory` is written.
fn unread<W: Sink>(stop: ReadStop, output: &mut W) -> Ending
    ensures { Unread W.takes stop output.old output.new result }
{
    match stop {
        ReadStop::Fault(fault) => Ending::ReadFailed(fault),
        ReadStop::NoMemory => match write_all(output, b"memory\n") {
            Ok(()) => Ending::NoMemory,
            Err(fault) => Ending::WriteFailed(fault),
        },
    }
}

/// The status of a job that has not read the file of this name.
pub fn not_read<S: System>(stop: ReadStop, name: &str, world: &mut World<S>) -> u8
    ensures { NotRead S.Output.takes S.Errors.takes name.now stop world.old world.new result }
{
    let ending = unread(stop, &mut world.output);
    ended(name, &ending, &mut world.errors)
}

/// The status of a run of a program to which memory is refused before it has a job.
pub fn memory_refused<S: System>(program: &str, world: &mut World<S>) -> u8
    ensures { NotRead S.Output.takes S.Errors.takes program.now ReadStop.NoMemory world.old world.new result }
{
    not_read(ReadStop::NoMemory, program, world)
}

/// The status of a run of a program that has a word which is no text.
pub fn words_not_read<S: System>(program: &str, world: &mut World<S>) -> u8
    ensures { NotWords program.now S.Errors.takes world.old world.new result }
{
    report(
        program,
        Message::Plain("a word of the command line is not UTF-8"),
        &mut world.errors,
    );
    USAGE
}
