//! What a hunt prints.

use crate::found::Found;
use crate::hunting::{Report, Row, SearchSpan, SpaceCounts};
use crate::key::FailureKey;
use evm_journal::{push_decimal, push_event_line};
use evm_room::{NoMemory, Refused, push_text};
use evm_text::push_hexadecimal;
use hunt_failures::Failure;
use hunt_schedules::{AnyDevice, Machine};
use std::alloc::Global;
use text_symbols::{CodeSpot, Names, push_code};

// Whether a name has only printable characters of ASCII, and no blank.
fn is_plain(name: &str) -> bool {
    name.as_bytes().iter().all(|byte| *byte > 32 && *byte < 127)
}

// Appends an address, and the line of a source or the symbol that it belongs to: `80000010 (main+0x8)`.
fn push_place(out: &mut String, place: u64, names: &Names) -> Result<(), Refused> {
    push_hexadecimal(out, place)?;
    match names.code(place) {
        None => Ok(()),
        Some(CodeSpot::Symbol(name, _)) if !is_plain(name) => Ok(()),
        Some(spot) => {
            push_text(out, " (")?;
            push_code(out, spot)?;
            push_text(out, ")")
        }
    }
}

// Appends a word and a number.
fn push_number(out: &mut String, word: &str, number: u64) -> Result<(), Refused> {
    push_text(out, word)?;
    push_decimal(out, number)
}

// Appends what is behind the place of a failure: of a mutex that was abandoned ` mutex M task T`, the task that has ended.
fn push_subject(out: &mut String, failure: Failure) -> Result<(), Refused> {
    match failure {
        Failure::Abandoned(task, mutex) => {
            push_number(out, " mutex ", u64::from(mutex))?;
            push_number(out, " task ", u64::from(task))
        }
        _ => Ok(()),
    }
}

// Appends the kind and the place of a failure.
fn push_key(out: &mut String, key: &FailureKey, names: &Names) -> Result<(), Refused> {
    push_text(out, key.kind)?;
    push_text(out, " ")?;
    push_place(out, key.place, names)
}

// Appends where a call reads the clock.
fn push_clock(out: &mut String, address: u64, names: &Names) -> Result<(), Refused> {
    push_text(out, "clock ")?;
    push_place(out, address, names)?;
    push_text(out, "\n")
}

// Appends the first and the last of instructions that no schedule reaches.
fn push_unreached(out: &mut String, first: u64, last: u64, names: &Names) -> Result<(), Refused> {
    push_text(out, "unreached ")?;
    push_place(out, first, names)?;
    if first != last {
        push_text(out, " to ")?;
        push_place(out, last, names)?;
    }
    push_text(out, "\n")
}

fn push_row(out: &mut String, row: &Row, names: &Names) -> Result<(), Refused> {
    push_key(out, &row.key, names)?;
    if let Some(failure) = row.failure {
        push_subject(out, failure)?;
    }
    if let Some(other) = row.other {
        push_text(out, " with ")?;
        push_place(out, other, names)?;
    }
    push_number(out, " seed ", row.seed)?;
    if row.failure.is_none() {
        push_number(out, " events ", row.events)?;
    }
    push_text(out, "\n")
}

/// Appends what fails on a machine: `KIND PLACE seed S events N`.
pub(crate) fn push_found(
    out: &mut String,
    found: &Found,
    seed: u64,
    names: &Names,
) -> Result<(), Refused> {
    push_key(out, &FailureKey::of(&found.machine, found.failure), names)?;
    push_subject(out, found.failure)?;
    push_number(out, " seed ", seed)?;
    push_number(out, " events ", found.machine.event_count())
}

/// Appends the lines of a machine's events.
pub(crate) fn push_events(out: &mut String, machine: &Machine<AnyDevice>) -> Result<(), Refused> {
    for i in 0..machine.journal_line_count() {
        if let Some(line) = machine.journal_line(i) {
            push_event_line(out, &line.copied())?;
            push_text(out, "\n")?;
        }
    }
    Ok(())
}

fn push_schedule(out: &mut String, found: &Found, seed: u64, names: &Names) -> Result<(), Refused> {
    push_text(out, "# ")?;
    push_found(out, found, seed, names)?;
    push_text(out, "\n")?;
    push_events(out, &found.machine)
}

// Appends how many schedules were looked at, of how many events, and how many of them ended with a full journal.
fn push_schedules(out: &mut String, report: &Report) -> Result<(), Refused> {
    push_number(out, ": schedules ", report.schedules)?;
    push_number(out, " events ", report.events)?;
    push_number(out, " full ", report.full)
}

// Appends how many events of a kind may come, if they are bounded.
fn push_most(out: &mut String, most: Option<u64>, kind: &str) -> Result<(), Refused> {
    if let Some(most) = most {
        push_number(out, ", at most ", most)?;
        push_text(out, kind)?;
    }
    Ok(())
}

// Appends what a search of all schedules has counted.
fn push_space(out: &mut String, counts: &SpaceCounts) -> Result<(), Refused> {
    push_text(out, "all")?;
    push_most(out, counts.ticks, " ticks")?;
    push_most(out, counts.raises, " raises")?;
    push_number(out, ": states ", counts.states)?;
    push_number(out, " events ", counts.events)?;
    push_number(out, " ends ", counts.ends)
}

// Appends which schedules were looked at, and the counts.
fn push_span(out: &mut String, report: &Report, span: SearchSpan) -> Result<(), Refused> {
    match span {
        SearchSpan::Seeds(first) => {
            let last = first.saturating_add(report.schedules.saturating_sub(1));
            push_number(out, "seeds ", first)?;
            push_number(out, " to ", last)?;
            push_schedules(out, report)
        }
        SearchSpan::Switches(most) => {
            push_number(out, "switches ", u64::from(most))?;
            push_schedules(out, report)
        }
        SearchSpan::All(counts) => push_space(out, &counts),
    }
}

// Appends the last line.
fn push_counts(out: &mut String, report: &Report, span: SearchSpan) -> Result<(), Refused> {
    push_span(out, report, span)?;
    push_text(out, if report.cut { " cut\n" } else { "\n" })
}

// The text, if there was memory for it.
fn whole(pushed: Result<(), Refused>, text: String) -> Result<String, NoMemory> {
    match pushed {
        Ok(()) => Ok(text),
        Err(_) => Err(NoMemory),
    }
}

/// The line of a failure, `KIND PLACE seed S`; of two locks that close a cycle `order PLACE with PLACE seed S events N`. A place has the line of a source
/// or the symbol that it belongs to, if there is one.
///
/// # Errors
///
/// Memory was refused.
pub fn row_text(alloc: Global, row: &Row, names: &Names) -> Result<String, NoMemory> {
    let mut text = String::new(alloc);
    let pushed = push_row(&mut text, row, names);
    whole(pushed, text)
}

/// The schedule of a failure: the line `# KIND PLACE seed S events N`, and the lines of a script that make it.
///
/// # Errors
///
/// Memory was refused.
pub fn schedule_text(
    alloc: Global,
    found: &Found,
    seed: u64,
    names: &Names,
) -> Result<String, NoMemory> {
    let mut text = String::new(alloc);
    let pushed = push_schedule(&mut text, found, seed, names);
    whole(pushed, text)
}

/// The line of a call that reads the clock or names a time: `clock PLACE`.
///
/// # Errors
///
/// Memory was refused.
pub fn clock_text(alloc: Global, address: u64, names: &Names) -> Result<String, NoMemory> {
    let mut text = String::new(alloc);
    let pushed = push_clock(&mut text, address, names);
    whole(pushed, text)
}

/// The line of instructions that no schedule reaches: `unreached PLACE to PLACE`, the first and the last; of one `unreached PLACE`.
///
/// # Errors
///
/// Memory was refused.
pub fn unreached_text(
    alloc: Global,
    first: u64,
    last: u64,
    names: &Names,
) -> Result<String, NoMemory> {
    let mut text = String::new(alloc);
    let pushed = push_unreached(&mut text, first, last, names);
    whole(pushed, text)
}

/// The last line, with the number of schedules.
///
/// # Errors
///
/// Memory was refused.
pub fn counts_text(alloc: Global, report: &Report, span: SearchSpan) -> Result<String, NoMemory> {
    let mut text = String::new(alloc);
    let pushed = push_counts(&mut text, report, span);
    whole(pushed, text)
}
