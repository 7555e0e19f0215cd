//! A run that is told to its end, with places.

ghost use Rattle.std.specs.Prelude.{[], OnOk};
ghost use Rattle.trace_records.specs.Telling.{Tells};
ghost use Rattle.trace_records.specs.Placed.{IsPlacedSomewhere};
ghost use Rattle.trace_records.specs.Runs.{IsRunPlaced, TellsCalls};

use crate::label::Label;
use crate::place::CodePlace;
use crate::run::{NextChanges, RunStop, Teller};
use crate::trace::{Trace, TraceStop};
use crate::writing::{Tail, finish};
use evm_streams::Sink;
use std::alloc::Global;
use text_symbols::Symbols;

/// What has the places of a run, once it was told.
pub trait Placer {
    /// The places so far.
    fn places(&self) -> &[CodePlace];

    /// The names on the tracks of tasks so far.
    fn labels(&self) -> &[Label];
}

/// What a run is traced with: memory, the most calls of its teller, and the symbols that name its places.
#[derive(Clone, Copy)]
struct Means<'a> {
    alloc: Global,
    calls: u64,
    symbols: &'a Symbols,
}

// Tells what the teller finds, in at most this number of calls. A run that has not ended then is a fault.
fn tell_run<T: Teller, W: Sink>(
    alloc: Global,
    teller: &mut T,
    calls: u64,
    trace: &mut Trace,
    sink: &mut W,
) -> Result<(), RunStop>
    ensures { (start : W) → Tells W.takes start [] sink.old trace.old → OnOk result (TellsCalls T.tells T.ended teller.old W.takes start sink.new trace.new) }
{
    let mut changes = Vec::new(alloc);
    for _ in 0..calls {
        changes.clear();
        match teller.next(&mut changes) {
            NextChanges::Changes => match trace.tell(sink, changes.as_slice()) {
                Ok(()) => {}
                Err(stop) => return Err(RunStop::Trace(stop)),
            },
            NextChanges::End => return Ok(()),
            NextChanges::Fault => return Err(RunStop::Fault),
            NextChanges::NoMemory => return Err(RunStop::Trace(TraceStop::NoMemory)),
        }
    }
    Err(RunStop::Fault)
}

// Traces a run on a trace that was begun.
fn trace_to_end<T: Teller + Placer, W: Sink>(
    means: &Means<'_>,
    teller: &mut T,
    trace: &mut Trace,
    sink: &mut W,
) -> Result<(), RunStop>
    ensures placed { (start : W) → Tells W.takes start [] sink.old trace.old → OnOk result (IsPlacedSomewhere W.takes start means.now.symbols.now.symbols sink.new) }
    ensures run { (start : W) → Tells W.takes start [] sink.old trace.old → OnOk result (IsRunPlaced T.tells T.ended teller.old W.takes start means.now.symbols.now.symbols sink.new) }
{
    match tell_run(means.alloc, teller, means.calls, trace, sink) {
        Err(stop) => Err(stop),
        Ok(()) => {
            let tail = Tail {
                symbols: means.symbols,
                labels: teller.labels(),
                places: teller.places(),
            };
            match finish(means.alloc, trace, &tail, sink) {
                Ok(()) => Ok(()),
                Err(stop) => Err(RunStop::Trace(stop)),
            }
        }
    }
}

/// Traces what a teller tells to a sink, in at most this number of calls, with its labels and places behind that.
///
/// # Errors
///
/// The teller met a fault or has not ended, memory was refused, or a write failed.
pub fn trace_places<T: Teller + Placer, W: Sink>(
    alloc: Global,
    teller: &mut T,
    calls: u64,
    symbols: &Symbols,
    sink: &mut W,
) -> Result<(), RunStop>
    ensures placed { OnOk result (IsPlacedSomewhere W.takes sink.old symbols.now.symbols sink.new) }
    ensures run { OnOk result (IsRunPlaced T.tells T.ended teller.old W.takes sink.old symbols.now.symbols sink.new) }
{
    let means = Means {
        alloc,
        calls,
        symbols,
    };
    match Trace::on(alloc, sink) {
        Ok(mut trace) => trace_to_end(&means, teller, &mut trace, sink),
        Err(_) => Err(RunStop::Trace(TraceStop::NoMemory)),
    }
}
