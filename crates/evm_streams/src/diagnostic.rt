//! Messages about files and about their lines, on standard error.

ghost use Rattle.std.specs.Prelude.{◌++◌, codes};
ghost use Rattle.evm_text.specs.Written.{decimal};
ghost use Rattle.evm_streams.specs.Diagnostic.{WritesSome, WritesWords, Tells, TellsLine, behind_place, about, about_line};

use crate::excerpt::write_quoting;
use crate::message::Message;
use crate::number::write_decimal;
use crate::sink::{Sink, WriteFault};
use crate::words::write_message;
use crate::writes::write_all;

/// A message, alone or with a quote behind it: a word or a line, after the text between them.
#[derive(Clone, Copy)]
pub enum Diagnostic<'a> {
    Alone(Message),
    Quoting(Message, &'static str, &'a [u8]),
}

// Writes a diagnostic.
fn write_diagnostic<E: Sink>(diagnostic: Diagnostic<'_>, errors: &mut E) -> Result<(), WriteFault>
    ensures { WritesWords E.takes result errors.old errors.new }
{
    match diagnostic {
        Diagnostic::Alone(message) => write_message(message, errors),
        Diagnostic::Quoting(message, between, word) => {
            write_quoting(message, between, word, errors)
        }
    }
}

// Writes a diagnostic and the end of its line.
fn write_diagnostic_line<E: Sink>(
    diagnostic: Diagnostic<'_>,
    errors: &mut E,
) -> Result<(), WriteFault>
    ensures { WritesSome E.takes (λ words. words ++ codes "\n") result errors.old errors.new }
{
    write_diagnostic(diagnostic, errors)?;
    write_all(errors, b"\n")
}

// Writes a diagnostic behind its place.
fn write_behind<E: Sink>(diagnostic: Diagnostic<'_>, errors: &mut E) -> Result<(), WriteFault>
    ensures { WritesSome E.takes (λ words. behind_place words) result errors.old errors.new }
{
    write_all(errors, b": ")?;
    write_diagnostic_line(diagnostic, errors)
}

// Writes a diagnostic about a file.
fn write_about<E: Sink>(
    name: &str,
    diagnostic: Diagnostic<'_>,
    errors: &mut E,
) -> Result<(), WriteFault>
    ensures { WritesSome E.takes (λ words. about name.now words) result errors.old errors.new }
{
    write_all(errors, name.as_bytes())?;
    write_behind(diagnostic, errors)
}

// Writes the number of a line, and a diagnostic behind it.
fn write_numbered<E: Sink>(
    line: u64,
    diagnostic: Diagnostic<'_>,
    errors: &mut E,
) -> Result<(), WriteFault>
    ensures { WritesSome E.takes (λ words. decimal line ++ behind_place words) result errors.old errors.new }
{
    write_decimal(line, 19, errors)?;
    write_behind(diagnostic, errors)
}

// Writes a diagnostic behind the number of a line.
fn write_line<E: Sink>(
    line: u64,
    diagnostic: Diagnostic<'_>,
    errors: &mut E,
) -> Result<(), WriteFault>
    ensures { WritesSome E.takes (λ words. codes ":" ++ (decimal line ++ behind_place words)) result errors.old errors.new }
{
    write_all(errors, b":")?;
    write_numbered(line, diagnostic, errors)
}

// Writes a diagnostic about a line of a file.
fn write_about_line<E: Sink>(
    name: &str,
    line: u64,
    diagnostic: Diagnostic<'_>,
    errors: &mut E,
) -> Result<(), WriteFault>
    ensures { WritesSome E.takes (λ words. about_line name.now line words) result errors.old errors.new }
{
    write_all(errors, name.as_bytes())?;
    write_line(line, diagnostic, errors)
}

/// Writes `NAME: MESSAGE` to standard error. A write that fails is ignored.
pub fn report<E: Sink>(name: &str, message: Message, errors: &mut E)
    ensures { Tells E.takes name.now errors.old errors.new }
{
    let _written = write_about(name, Diagnostic::Alone(message), errors);
}

/// Writes `NAME:LINE: MESSAGE` and the quote, if there is one. A write that fails is ignored.
pub fn report_line<E: Sink>(name: &str, line: u64, diagnostic: Diagnostic<'_>, errors: &mut E)
    ensures { TellsLine E.takes name.now line errors.old errors.new }
{
    let _written = write_about_line(name, line, diagnostic, errors);
}
