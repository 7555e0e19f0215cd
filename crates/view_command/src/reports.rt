//! What standard error gets of a run that is not shown, and the status.

ghost use Rattle.std.specs.Prelude.{◌≡◌};
ghost use Rattle.view_command.specs.Viewing.{status_of};

use crate::drawing::ViewEnd;
use evm_host::{
    Ending, FAILED, Input, Message, Sink, Verdict, ended, ended_with, failed_write_message, report,
};
use evm_ram::Image;

/// The name in front of messages that are about no file.
pub const PROGRAM: &str = "vardozek view";

/// The name of standard output among the words.
pub(crate) const STANDARD_OUTPUT: &str = "-";

/// The files that a run is about.
#[derive(Clone, Copy)]
pub(crate) struct Files<'a> {
    /// The image.
    pub(crate) image: &'a Image,
    /// The name of the journal.
    pub(crate) name: &'a str,
    /// The text of the journal.
    pub(crate) journal: &'a str,
    /// The name of what is written.
    pub(crate) out: &'a str,
}

// The name of OUT in a message.
fn out_name(out: &str) -> &str {
    if out == STANDARD_OUTPUT {
        "standard output"
    } else {
        out
    }
}

/// Reports why a run is not shown, and returns the status.
pub(crate) fn stopped<E: Sink>(files: Files<'_>, end: ViewEnd, errors: &mut E) -> u8
    ensures { result ≡ status_of end }
{
    match end {
        ViewEnd::AtFault(fault) => {
            let ending = Ending::Complete(Verdict::Refused(fault));
            let input = Input::Lines(Some(files.image), files.journal.as_bytes());
            ended_with(input, files.name, &ending, errors)
        }
        ViewEnd::NoMemory => ended(PROGRAM, &Ending::NoMemory, errors),
        ViewEnd::WriteFailed(fault) => {
            let message = Message::Plain(failed_write_message(fault.cause));
            report(out_name(files.out), message, errors);
            FAILED
        }
    }
}
