//! Places written behind the records of a trace.

ghost use Rattle.std.specs.Prelude.{◌≡◌, ◌++◌, ◌+◌, ◌<◌, ◌^◌, ℕ, List, [], All, IfSome, OnOk, codes};
ghost use Rattle.std.specs.String.{string_bytes};
ghost use Rattle.evm_streams.specs.Writes.{Took};
ghost use Rattle.trace_records.specs.Changes.{trace_of};
ghost use Rattle.trace_records.specs.Telling.{IsTelling, Tells};
ghost use Rattle.trace_records.specs.declared.change.Change.{Change};
ghost use Rattle.trace_records.specs.Labels.{label_line, label_lines, time_of};
ghost use Rattle.trace_records.specs.Places.{place_line, place_lines};
ghost use Rattle.trace_records.specs.Placed.{FitsLabel, FitsPlace, IsPending, IsPlaced, placed_text};

use crate::bearer::Bearer;
use crate::label::Label;
use crate::line::{push_label, push_place};
use crate::place::CodePlace;
use crate::trace::{Trace, TraceStop};
use evm_room::push_text;
use evm_streams::{Sink, WriteFault, write_all};
use std::alloc::Global;
use text_symbols::Symbols;

/// What stands behind the records of a trace: labels, and places that the symbols name.
#[derive(Clone, Copy)]
pub(crate) struct Tail<'a> {
    pub(crate) symbols: &'a Symbols,
    pub(crate) labels: &'a [Label],
    pub(crate) places: &'a [CodePlace],
}

/// How many bytes are kept before they are written.
const KEPT: usize = 65_536;

// Writes what is kept.
fn flush<W: Sink>(text: &mut String, sink: &mut W) -> Result<(), WriteFault>
    ensures took { OnOk result (Took W.takes sink.old (string_bytes text.old) sink.new) }
    ensures text { OnOk result (string_bytes text.new ≡ []) }
{
    write_all(sink, text.as_bytes())?;
    text.clear();
    Ok(())
}

// Writes what is kept, if that is much.
fn write_kept<W: Sink>(text: &mut String, sink: &mut W) -> Result<(), TraceStop>
    ensures { (start : W) (whole : List ℕ) → IsPending W.takes start whole sink.old text.old → OnOk result (IsPending W.takes start whole sink.new text.new) }
{
    if text.len() < KEPT {
        return Ok(());
    }
    match flush(text, sink) {
        Ok(()) => Ok(()),
        Err(fault) => Err(TraceStop::WriteFailed(fault)),
    }
}

fn write_place<W: Sink>(
    alloc: Global,
    text: &mut String,
    symbols: &Symbols,
    place: &CodePlace,
    sink: &mut W,
) -> Result<(), TraceStop>
    ensures { (start : W) (whole : List ℕ) → IsPending W.takes start whole sink.old text.old → OnOk result (IsPending W.takes start (whole ++ place_line symbols.now.symbols place.now) sink.new text.new) }
{
    match push_place(alloc, text, symbols, place) {
        Ok(()) => write_kept(text, sink),
        Err(_) => Err(TraceStop::NoMemory),
    }
}

fn write_label<W: Sink>(
    alloc: Global,
    text: &mut String,
    label: &Label,
    sink: &mut W,
) -> Result<(), TraceStop>
    ensures { (start : W) (whole : List ℕ) → IsPending W.takes start whole sink.old text.old → OnOk result (IsPending W.takes start (whole ++ label_line label.now) sink.new text.new) }
{
    match push_label(alloc, text, label) {
        Ok(()) => write_kept(text, sink),
        Err(_) => Err(TraceStop::NoMemory),
    }
}

fn write_labels<W: Sink>(
    alloc: Global,
    text: &mut String,
    labels: &[Label],
    sink: &mut W,
) -> Result<(), TraceStop>
    ensures { (start : W) (whole : List ℕ) → IsPending W.takes start whole sink.old text.old → OnOk result (IsPending W.takes start (whole ++ label_lines labels.now) sink.new text.new) }
{
    for label in labels {
        write_label(alloc, text, label, sink)?;
    }
    Ok(())
}

fn write_places<W: Sink>(
    alloc: Global,
    text: &mut String,
    symbols: &Symbols,
    places: &[CodePlace],
    sink: &mut W,
) -> Result<(), TraceStop>
    ensures { (start : W) (whole : List ℕ) → IsPending W.takes start whole sink.old text.old → OnOk result (IsPending W.takes start (whole ++ place_lines symbols.now.symbols places.now) sink.new text.new) }
{
    for place in places {
        write_place(alloc, text, symbols, place, sink)?;
    }
    Ok(())
}

// Writes all that is left.
fn write_rest<W: Sink>(text: &mut String, sink: &mut W) -> Result<(), TraceStop>
    ensures { OnOk result (Took W.takes sink.old (string_bytes text.old) sink.new) }
{
    flush(text, sink)?;
    Ok(())
}

// Ends the file.
fn write_end<W: Sink>(text: &mut String, sink: &mut W) -> Result<(), TraceStop>
    ensures { (start : W) (whole : List ℕ) → IsPending W.takes start whole sink.old text.old → OnOk result (Took W.takes start (whole ++ codes "\n]}") sink.new) }
{
    match push_text(text, "\n]}") {
        Ok(()) => write_rest(text, sink),
        Err(_) => Err(TraceStop::NoMemory),
    }
}

// Writes the labels and the places, and ends the file.
fn write_to_end<W: Sink>(
    alloc: Global,
    text: &mut String,
    tail: &Tail<'_>,
    sink: &mut W,
) -> Result<(), TraceStop>
    ensures { (start : W) (whole : List ℕ) → IsPending W.takes start whole sink.old text.old → OnOk result (Took W.takes start (((whole ++ label_lines tail.now.labels.now) ++ place_lines tail.now.symbols.now.symbols tail.now.places.now) ++ codes "\n]}") sink.new) }
{
    write_labels(alloc, text, tail.labels, sink)?;
    write_rest_of(alloc, text, tail.symbols, tail.places, sink)
}

// Writes the places, and ends the file.
fn write_rest_of<W: Sink>(
    alloc: Global,
    text: &mut String,
    symbols: &Symbols,
    places: &[CodePlace],
    sink: &mut W,
) -> Result<(), TraceStop>
    ensures { (start : W) (whole : List ℕ) → IsPending W.takes start whole sink.old text.old → OnOk result (Took W.takes start ((whole ++ place_lines symbols.now.symbols places.now) ++ codes "\n]}") sink.new) }
{
    write_places(alloc, text, symbols, places, sink)?;
    write_end(text, sink)
}

// Whatever the numbers are, they fit.
fn fit_place(place: CodePlace)
    ensures { FitsPlace place }
{
    let (_task, _at) = (place.task, place.at);
}

fn fit_bearer(bearer: Bearer)
    ensures { IfSome (time_of bearer) (λ at. at < 2 ^ 64) }
{
    match bearer {
        Bearer::Itself => {}
        Bearer::Awaited(_from) => {}
        Bearer::Locked(_at) => {}
    }
}

fn fit_label(label: &Label)
    ensures { FitsLabel label.now }
{
    let _task = label.task;
    fit_bearer(label.bearer);
}

fn fit_labels(labels: &[Label])
    ensures { All FitsLabel labels.now }
{
    for label in labels {
        fit_label(label);
    }
}

fn fit_places(places: &[CodePlace])
    ensures { All FitsPlace places.now }
{
    for place in places {
        fit_place(*place);
    }
}

/// Ends a trace, whatever was told, with labels and places behind its records, and writes what is left of it.
///
/// # Errors
///
/// Memory was refused, or a write failed.
pub(crate) fn finish<W: Sink>(
    alloc: Global,
    trace: &mut Trace,
    tail: &Tail<'_>,
    sink: &mut W,
) -> Result<(), TraceStop>
    ensures placed { (start : W) → IsTelling W.takes start sink.old trace.old → OnOk result (IsPlaced W.takes start tail.now.labels.now tail.now.symbols.now.symbols tail.now.places.now sink.new) }
    ensures took { (start : W) (told : List Change) → Tells W.takes start told sink.old trace.old → OnOk result (Took W.takes start (placed_text (trace_of told) tail.now.labels.now tail.now.symbols.now.symbols tail.now.places.now) sink.new) }
{
    fit_labels(tail.labels);
    fit_places(tail.places);
    write_to_end(alloc, &mut trace.text, tail, sink)
}
