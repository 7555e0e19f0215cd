//! One place, or one label, as JSON.

ghost use Rattle.std.specs.Prelude.{◌≡◌, ◌++◌, codes, IfOk, OnOk, Some};
ghost use Rattle.std.specs.String.{string_bytes};
ghost use Rattle.evm_text.specs.Appending.{Appends};
ghost use Rattle.evm_text.specs.Written.{hexadecimal};
ghost use Rattle.trace_records.specs.Labels.{label_line, label_text, lock_words, task_words, wait_words};
ghost use Rattle.trace_records.specs.Places.{doing_text, distance_text, place_words, place_line, line_by, place_symbol};
ghost use Rattle.trace_records.specs.Pieces.{name_pieces, place_pieces};

use crate::bearer::Bearer;
use crate::label::Label;
use crate::place::{CodePlace, Doing};
use evm_room::{Refused, push_text};
use evm_text::{push_decimal, push_hexadecimal};
use std::alloc::Global;
use text_markup::push_quoted;
use text_symbols::Symbols;

fn push_locks(out: &mut String, mutex: u64) -> Result<(), Refused>
    ensures { OnOk result (string_bytes out.new ≡ string_bytes out.old ++ doing_text (Doing.Locks mutex)) }
{
    push_text(out, "locks mutex ")?;
    push_decimal(out, mutex)?;
    push_text(out, " at ")
}

fn push_doing(out: &mut String, doing: Doing) -> Result<(), Refused>
    ensures { OnOk result (string_bytes out.new ≡ string_bytes out.old ++ doing_text doing) }
{
    match doing {
        Doing::Begins => push_text(out, "begins at "),
        Doing::Runs => push_text(out, "runs at "),
        Doing::Waits => push_text(out, "waits at "),
        Doing::Locks(mutex) => push_locks(out, u64::from(mutex)),
    }
}

fn push_distance(out: &mut String, offset: u64) -> Result<(), Refused>
    ensures { Appends (codes "+0x" ++ hexadecimal offset) out.old out.new result }
{
    push_text(out, "+0x")?;
    push_hexadecimal(out, offset)
}

fn push_offset(out: &mut String, offset: u64) -> Result<(), Refused>
    ensures { Appends (distance_text offset) out.old out.new result }
{
    if offset == 0 {
        Ok(())
    } else {
        push_distance(out, offset)
    }
}

// What a task does, and the symbol with the offset.
fn name_of(alloc: Global, doing: Doing, name: &str, offset: u64) -> Result<String, Refused>
    ensures { IfOk result (λ text. string_bytes text ≡ place_words doing (name.now, offset)) }
{
    let mut text = String::new(alloc);
    push_doing(&mut text, doing)?;
    push_text(&mut text, name)?;
    push_offset(&mut text, offset)?;
    Ok(text)
}

#[tactic(auto, unfolding(crate::specs::Pieces::place_pieces))]
fn push_line(out: &mut String, thread: u64, at: u64, name: &[u8]) -> Result<(), Refused>
    ensures { OnOk result (string_bytes out.new ≡ string_bytes out.old ++ place_pieces thread at name.now) }
{
    push_text(out, ",\n{\"ph\":\"i\",\"pid\":2,\"tid\":")?;
    push_decimal(out, thread)?;
    push_text(out, ",\"ts\":")?;
    push_decimal(out, at)?;
    push_text(out, ",\"name\":")?;
    push_quoted(out, name)?;
    push_text(out, ",\"s\":\"t\"}")
}

// Appends the instant of a place at a symbol.
#[tactic(auto, using(crate::proofs::PlaceLines::line))]
fn push_named(
    alloc: Global,
    out: &mut String,
    place: &CodePlace,
    name: &str,
    offset: u64,
) -> Result<(), Refused>
    ensures { OnOk result (string_bytes out.new ≡ string_bytes out.old ++ line_by place.now (Some (name.now, offset))) }
{
    let text = name_of(alloc, place.doing, name, offset)?;
    let thread = u64::from(place.task) + 1;
    push_line(out, thread, place.at, text.as_bytes())
}

// The number of a task, and its name.
fn task_words(alloc: Global, task: u8, name: &str) -> Result<String, Refused>
    ensures { IfOk result (λ text. string_bytes text ≡ task_words task name.now) }
{
    let mut text = String::new(alloc);
    push_text(&mut text, "task ")?;
    push_decimal(&mut text, u64::from(task))?;
    push_text(&mut text, " (")?;
    push_text(&mut text, name)?;
    push_text(&mut text, ")")?;
    Ok(text)
}

// What a task waits for.
fn wait_words(alloc: Global, name: &str) -> Result<String, Refused>
    ensures { IfOk result (λ text. string_bytes text ≡ wait_words name.now) }
{
    let mut text = String::new(alloc);
    push_text(&mut text, "waits for ")?;
    push_text(&mut text, name)?;
    Ok(text)
}

// What a task locks.
fn lock_words(alloc: Global, name: &str) -> Result<String, Refused>
    ensures { IfOk result (λ text. string_bytes text ≡ lock_words name.now) }
{
    let mut text = String::new(alloc);
    push_text(&mut text, "locks ")?;
    push_text(&mut text, name)?;
    Ok(text)
}

#[tactic(auto, unfolding(crate::specs::Pieces::name_pieces))]
fn push_name_line(out: &mut String, thread: u64, name: &[u8]) -> Result<(), Refused>
    ensures { OnOk result (string_bytes out.new ≡ string_bytes out.old ++ name_pieces thread name.now) }
{
    push_text(out, ",\n{\"ph\":\"M\",\"pid\":2,\"tid\":")?;
    push_decimal(out, thread)?;
    push_text(
        out,
        ",\"ts\":0,\"name\":\"thread_name\",\"args\":{\"name\":",
    )?;
    push_quoted(out, name)?;
    push_text(out, "}}")
}

// Appends the name of the track of a task.
#[tactic(auto, using(crate::proofs::PlaceLines::line))]
fn push_name(alloc: Global, out: &mut String, task: u8, name: &str) -> Result<(), Refused>
    ensures { OnOk result (string_bytes out.new ≡ string_bytes out.old ++ label_text task name.now Bearer.Itself) }
{
    let text = task_words(alloc, task, name)?;
    push_name_line(out, u64::from(task) + 1, text.as_bytes())
}

// Appends the instant at which a task begins to wait.
#[tactic(auto, using(crate::proofs::PlaceLines::line))]
fn push_wait(
    alloc: Global,
    out: &mut String,
    task: u8,
    from: u64,
    name: &str,
) -> Result<(), Refused>
    ensures { OnOk result (string_bytes out.new ≡ string_bytes out.old ++ label_text task name.now (Bearer.Awaited from)) }
{
    let text = wait_words(alloc, name)?;
    push_line(out, u64::from(task) + 1, from, text.as_bytes())
}

// Appends the instant from which on a task owns a mutex.
#[tactic(auto, using(crate::proofs::PlaceLines::line))]
fn push_lock(alloc: Global, out: &mut String, task: u8, at: u64, name: &str) -> Result<(), Refused>
    ensures { OnOk result (string_bytes out.new ≡ string_bytes out.old ++ label_text task name.now (Bearer.Locked at)) }
{
    let text = lock_words(alloc, name)?;
    push_line(out, u64::from(task) + 1, at, text.as_bytes())
}

/// Appends a label, behind a comma and on a line of its own.
#[tactic(auto, unfolding(crate::specs::Labels::label_line))]
pub(crate) fn push_label(alloc: Global, out: &mut String, label: &Label) -> Result<(), Refused>
    ensures { OnOk result (string_bytes out.new ≡ string_bytes out.old ++ label_line label.now) }
{
    let name = label.name.as_str();
    match label.bearer {
        Bearer::Itself => push_name(alloc, out, label.task, name),
        Bearer::Awaited(from) => push_wait(alloc, out, label.task, from, name),
        Bearer::Locked(at) => push_lock(alloc, out, label.task, at, name),
    }
}

/// Appends the instant of a place, if it has a symbol, behind a comma and on a line of its own.
#[tactic(auto, unfolding(crate::specs::Places::place_line))]
pub(crate) fn push_place(
    alloc: Global,
    out: &mut String,
    symbols: &Symbols,
    place: &CodePlace,
) -> Result<(), Refused>
    ensures { OnOk result (string_bytes out.new ≡ string_bytes out.old ++ place_line symbols.now.symbols place.now) }
{
    match symbols.at(place.address) {
        None => Ok(()),
        Some((name, offset)) => push_named(alloc, out, place, name, offset),
    }
}
