//! Lines as they come: each is answered before the next is read.

ghost use Rattle.std.specs.Prelude.{◌≡◌};

use crate::answer::LineAnswer;
use crate::shell::Shell;
use crate::typing::History;
use evm_room::NoMemory;
use evm_streams::{Cause, Meter, Reading, Sink, Source, WriteFault, write_all};
use evm_text::cut_ended;
use std::alloc::Global;

/// The most bytes of a line.
const LINE_LIMIT: usize = 65_536;

const PROMPT: &[u8] = b"vardozek> ";

/// Why the lines were not all answered.
#[derive(Clone, Copy, Debug, PartialEq, Eq)]
pub enum Finish {
    /// A read failed.
    ReadFailed(Cause),
    /// A write failed.
    WriteFailed(WriteFault),
    /// Memory was refused.
    NoMemory,
    /// A line has more than 65,536 bytes.
    LineTooLong,
}

/// What is read but not answered: the start of a line, and the number that it will have.
#[derive(Drop)]
struct Pending {
    bytes: Vec<u8>,
    number: u64,
}

// Answers a line, and writes the answer.
fn answer<W: Sink, M: Meter + Drop>(
    alloc: Global,
    shell: &mut Shell<'_, M>,
    number: u64,
    line: &[u8],
    output: &mut W,
) -> Result<(), Finish>
    ensures { shell.new.scripted.image ≡ shell.old.scripted.image }
{
    let mut answer = LineAnswer::new(alloc, number);
    let told = shell.line(line, &mut answer);
    if let Err(fault) = write_all(output, answer.bytes()) {
        return Err(Finish::WriteFailed(fault));
    }
    match told {
        Ok(()) => Ok(()),
        Err(NoMemory) => Err(Finish::NoMemory),
    }
}

// Answers a line that was typed; it is shown if keys have made another of it than the terminal shows.
fn answer_typed<W: Sink, M: Meter + Drop>(
    alloc: Global,
    shell: &mut Shell<'_, M>,
    history: &mut History,
    number: u64,
    keys: &[u8],
    output: &mut W,
) -> Result<(), Finish>
    ensures { shell.new.scripted.image ≡ shell.old.scripted.image }
{
    let line = history.typed(alloc, keys)?;
    history.keep(alloc, line.as_slice())?;
    shell.echo(line.as_slice() != keys);
    answer(alloc, shell, number, line.as_slice(), output)
}

// Answers a line of a file, or of a terminal, which has a history.
fn answer_next<W: Sink, M: Meter + Drop>(
    alloc: Global,
    shell: &mut Shell<'_, M>,
    history: Option<&mut History>,
    number: u64,
    line: &[u8],
    output: &mut W,
) -> Result<(), Finish>
    ensures { shell.new.scripted.image ≡ shell.old.scripted.image }
{
    match history {
        None => answer(alloc, shell, number, line, output),
        Some(history) => answer_typed(alloc, shell, history, number, line, output),
    }
}

// Answers the whole lines, and leaves the start of the next.
fn answer_whole<W: Sink, M: Meter + Drop>(
    alloc: Global,
    shell: &mut Shell<'_, M>,
    mut history: Option<&mut History>,
    pending: Pending,
    output: &mut W,
) -> Result<Pending, Finish>
    ensures { shell.new.scripted.image ≡ shell.old.scripted.image }
{
    let mut number = pending.number;
    let mut rest = pending.bytes.as_slice();
    while let Some((line, after)) = cut_ended(rest) {
        answer_next(alloc, shell, history.as_deref_mut(), number, line, output)?;
        number = number.saturating_add(1);
        rest = after;
    }
    if rest.len() > LINE_LIMIT {
        return Err(Finish::LineTooLong);
    }
    match Vec::from_slice(alloc, rest) {
        Ok(bytes) => Ok(Pending { bytes, number }),
        Err(_) => Err(Finish::NoMemory),
    }
}

// Appends what was read.
fn take(pending: &mut Pending, part: &[u8]) -> Result<(), Finish> {
    match pending.bytes.extend_from_slice(part) {
        Ok(()) => Ok(()),
        Err(_) => Err(Finish::NoMemory),
    }
}

// Asks whoever types for the next line. What standard error does not take is no fault of the lines.
fn ask<E: Sink>(is_typed: bool, text: &[u8], errors: &mut E) {
    if is_typed {
        let _asked = write_all(errors, text);
    }
}

/// Answers each line of a source as it comes. A last line without a newline is a line too. A terminal gets a prompt, which goes to
/// standard error, and its lines are not shown once more.
pub fn serve_lines<R: Source, W: Sink, E: Sink, M: Meter + Drop>(
    alloc: Global,
    shell: &mut Shell<'_, M>,
    is_typed: bool,
    source: &mut R,
    output: &mut W,
    errors: &mut E,
) -> Result<(), Finish>
    ensures { shell.new.scripted.image ≡ shell.old.scripted.image }
{
    let mut pending = Pending {
        bytes: Vec::new(alloc),
        number: 1,
    };
    let mut history = History::new(alloc);
    let mut part = [0u8; 4096];
    for _ in 0..u64::MAX {
        ask(is_typed, PROMPT, errors);
        match source.read(&mut part) {
            Reading::Failed(cause) => return Err(Finish::ReadFailed(cause)),
            Reading::Bytes(0) => break,
            Reading::Bytes(count) => {
                take(&mut pending, &part[..count])?;
                let kept = if is_typed { Some(&mut history) } else { None };
                pending = answer_whole(alloc, shell, kept, pending, output)?;
            }
        }
    }
    ask(is_typed, b"\n", errors);
    if pending.bytes.is_empty() {
        return Ok(());
    }
    let kept = if is_typed { Some(&mut history) } else { None };
    let number = pending.number;
    answer_next(alloc, shell, kept, number, pending.bytes.as_slice(), output)
}
