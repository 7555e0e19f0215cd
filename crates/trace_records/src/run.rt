//! A run that is told to its end.

ghost use Rattle.std.specs.Prelude.{OnOk};
ghost use Rattle.trace_records.specs.Telling.{IsTelling, IsTraced};

use crate::change::Change;
use crate::trace::{Trace, TraceStop};
use evm_streams::Sink;
use std::alloc::Global;

/// What a call of a teller found.
#[derive(Clone, Copy, Debug, PartialEq, Eq)]
pub enum NextChanges {
    /// Changes, or none for now.
    Changes,
    /// The run has ended.
    End,
    /// The run can't go on; the teller knows why.
    Fault,
    /// Memory was refused.
    NoMemory,
}

/// What tells a run, some changes at a time.
pub trait Teller {
    ghost use Rattle.std.specs.Prelude.{◌≡◌, List, []};
    ghost use Rattle.trace_records.specs.declared.change.Change.{Change};

    // Which changes a call at one state may tell, and the state after it.
    ghost tells: { Self → List Change → Self → Type 0 };

    // At which states the run has ended.
    ghost ended: { Self → Type 0 };

    /// Puts the next changes into a list that is empty.
    fn next(&mut self, changes: &mut Vec<Change>) -> NextChanges
        ensures changes { changes.old.items ≡ [] → result ≡ NextChanges.Changes → tells self.old changes.new.items self.new }
        ensures end { result ≡ NextChanges.End → ended self.old };
}

/// Why a run is not traced to its end.
#[derive(Clone, Copy, Debug, PartialEq, Eq)]
pub enum RunStop {
    /// The teller met a fault.
    Fault,
    /// The trace was not written to its end.
    Trace(TraceStop),
}

impl From<TraceStop> for RunStop {
    fn from(stop: TraceStop) -> RunStop {
        RunStop::Trace(stop)
    }
}

// Tells what the teller finds, in at most this number of calls.
fn tell_run<T: Teller, W: Sink>(
    alloc: Global,
    teller: &mut T,
    calls: u64,
    trace: &mut Trace,
    sink: &mut W,
) -> Result<(), RunStop>
    ensures { (start : W) → IsTelling W.takes start sink.old trace.old → OnOk result (IsTelling W.takes start sink.new trace.new) }
{
    let mut changes = Vec::new(alloc);
    for _ in 0..calls {
        changes.clear();
        match teller.next(&mut changes) {
            NextChanges::Changes => trace.tell_more(sink, changes.as_slice())?,
            NextChanges::End => return Ok(()),
            NextChanges::Fault => return Err(RunStop::Fault),
            NextChanges::NoMemory => return Err(RunStop::Trace(TraceStop::NoMemory)),
        }
    }
    Ok(())
}

// Traces a run on a trace that was begun.
fn trace_to_end<T: Teller, W: Sink>(
    alloc: Global,
    teller: &mut T,
    calls: u64,
    trace: &mut Trace,
    sink: &mut W,
) -> Result<(), RunStop>
    ensures { (start : W) → IsTelling W.takes start sink.old trace.old → OnOk result (IsTraced W.takes start sink.new) }
{
    tell_run(alloc, teller, calls, trace, sink)?;
    trace.finish(sink)?;
    Ok(())
}

/// Traces what a teller tells to a sink, in at most this number of calls.
///
/// # Errors
///
/// The teller met a fault, memory was refused, or a write failed.
pub fn trace_run<T: Teller, W: Sink>(
    alloc: Global,
    teller: &mut T,
    calls: u64,
    sink: &mut W,
) -> Result<(), RunStop>
    ensures { OnOk result (IsTraced W.takes sink.old sink.new) }
{
    match Trace::on(alloc, sink) {
        Ok(mut trace) => trace_to_end(alloc, teller, calls, &mut trace, sink),
        Err(_) => Err(RunStop::Trace(TraceStop::NoMemory)),
    }
}
