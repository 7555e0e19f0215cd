//! A journal's run, told as a trace.

ghost use Rattle.std.specs.Prelude.{◌≡◌, ◌≢◌, ◌++◌, [], true, IsOk, OnOk};
ghost use Rattle.trace_command.specs.Instants.{event_instants, instants_in};
ghost use Rattle.trace_command.specs.Times.{time_behind};
ghost use Rattle.trace_command.specs.Tellings.{GoesOn, IsTraceOf, IsTraceOfText, TellsCall, TellsOn};
ghost use Rattle.trace_records.specs.Placed.{IsPlacedSomewhere};

use crate::changes::Changes;
use crate::clock::Clock;
use crate::interrupts::Span;
use crate::labels::{label_marks, label_tasks};
use crate::places::{place_marks, place_tasks};
use evm_devs::AnyDevice;
use evm_ram::Image;
use evm_room::Refused;
use evm_streams::{Meter, Sink, WriteFault};
use run_marks::Mark;
use run_walk::{Devices, InputFault, Item, RunNames, Walk, WalkStop};
use std::alloc::Global;
use trace_records::{
    Change, CodePlace, Label, NextChanges, Placer, RunStop, Symbols, Teller, TraceStop,
    trace_places,
};

/// Why a run is not traced to its end.
#[derive(Clone, Copy, Debug)]
pub enum TraceEnd {
    /// The journal, its boot numbers, the image or an event was bad or refused.
    AtFault(InputFault),
    /// Memory was refused.
    NoMemory,
    /// A write failed.
    WriteFailed(WriteFault),
}

impl From<WalkStop> for TraceEnd {
    fn from(stop: WalkStop) -> TraceEnd {
        match stop {
            WalkStop::AtFault(fault) => TraceEnd::AtFault(fault),
            WalkStop::NoMemory => TraceEnd::NoMemory,
        }
    }
}

impl From<Refused> for TraceEnd {
    fn from(_: Refused) -> TraceEnd {
        TraceEnd::NoMemory
    }
}

/// A run that is to be traced: the program, the names in labels, the journal's text, and what the clock counts.
#[derive(Clone, Copy)]
pub struct TracedRun<'a> {
    pub image: &'a Image,
    pub symbols: &'a Symbols,
    pub names: &'a RunNames,
    pub journal: &'a str,
    pub clock: Clock,
}

/// How far a run was told.
#[derive(Clone, Copy)]
pub enum Phase {
    Begins,
    Goes,
    Ends,
    Ended,
}

/// A walk over a journal, and the changes that tell it.
#[derive(Drop)]
pub struct Telling<'n, 'm, M: Meter> {
    alloc: Global,
    walk: Walk<AnyDevice>,
    changes: Changes,
    marks: Vec<Mark>,
    // where tasks are when something happens, if the image has symbols
    places: Vec<CodePlace>,
    placed: bool,
    // what tasks and objects are called, and where a track says so
    names: &'n RunNames,
    labels: Vec<Label>,
    clock: Clock,
    // the time of the next event
    at: u64,
    phase: Phase,
    fault: Option<InputFault>,
    meter: &'m mut M,
}

fn next_changes(outcome: Result<(), Refused>) -> NextChanges
    ensures changes { result ≡ NextChanges.Changes → IsOk outcome }
    ensures end { result ≢ NextChanges.End }
{
    match outcome {
        Ok(()) => NextChanges::Changes,
        Err(_) => NextChanges::NoMemory,
    }
}

impl<M: Meter> Telling<'_, '_, M> {
    // Tells an event, whose marks were found.
    fn event(&mut self, list: &mut Vec<Change>, at: Span) -> Result<(), Refused>
        ensures instants { OnOk result (instants_in list.new.items ≡ instants_in list.old.items ++ event_instants at.at self.old.marks.items) }
        ensures walk { self.new.walk ≡ self.old.walk }
        ensures phase { self.new.phase ≡ self.old.phase }
        ensures clock { self.new.clock ≡ self.old.clock }
        ensures time { self.new.at ≡ self.old.at }
    {
        let (alloc, names) = (self.alloc, self.names);
        let marks = self.marks.as_slice();
        if self.placed {
            place_marks(&mut self.places, self.walk.machine(), marks, at.at)?;
        }
        label_marks(alloc, &mut self.labels, names, marks, at.behind)?;
        self.changes.event(list, self.walk.observation(), marks, at)
    }

    // Tells an item, whose marks were found: a quiet one has none, and is no event of the trace.
    fn item(&mut self, list: &mut Vec<Change>, item: &Item) -> Result<(), Refused>
        requires { item.now.quiet ≡ true → self.old.marks.items ≡ [] }
        ensures instants { OnOk result (instants_in list.new.items ≡ instants_in list.old.items ++ event_instants self.old.at self.old.marks.items) }
        ensures walk { self.new.walk ≡ self.old.walk }
        ensures phase { self.new.phase ≡ self.old.phase }
        ensures clock { self.new.clock ≡ self.old.clock }
        ensures time { self.new.at ≡ time_behind self.old.clock item.now self.old.at }
    {
        let at = Span {
            at: self.at,
            behind: self.clock.time_behind(item, self.at),
        };
        self.at = at.behind;
        if item.quiet {
            return Ok(());
        }
        self.event(list, at)
    }

    // Tells what is seen before the first event.
    fn first(&mut self, list: &mut Vec<Change>) -> Result<(), Refused>
        ensures instants { OnOk result (instants_in list.new.items ≡ instants_in list.old.items) }
        ensures walk { self.new.walk ≡ self.old.walk }
        ensures phase { self.new.phase ≡ self.old.phase }
        ensures clock { self.new.clock ≡ self.old.clock }
        ensures time { self.new.at ≡ self.old.at }
    {
        if self.placed {
            place_tasks(&mut self.places, self.walk.machine())?;
        }
        let (alloc, names) = (self.alloc, self.names);
        label_tasks(alloc, &mut self.labels, names)?;
        self.changes.begin(list, self.walk.observation())
    }

    // The next event, or the next run of Steps that change only registers and RAM.
    fn walk_on(&mut self, list: &mut Vec<Change>) -> NextChanges
        ensures tells { list.old.items ≡ [] → result ≡ NextChanges.Changes → TellsOn self.old.clock self.old.walk self.new.walk self.old.at self.new.at list.new.items }
        ensures goes_on { self.old.phase ≡ Phase.Goes → result ≡ NextChanges.Changes → GoesOn self.new.phase self.new.walk }
        ensures end { result ≢ NextChanges.End }
        ensures clock { self.new.clock ≡ self.old.clock }
    {
        self.meter.passed(self.walk.next_event());
        match self.walk.next(&mut self.marks) {
            Err(WalkStop::NoMemory) => NextChanges::NoMemory,
            Err(WalkStop::AtFault(fault)) => {
                self.fault = Some(fault);
                NextChanges::Fault
            }
            Ok(None) => {
                self.phase = Phase::Ends;
                NextChanges::Changes
            }
            Ok(Some(item)) => next_changes(self.item(list, &item)),
        }
    }

    fn begin(&mut self, list: &mut Vec<Change>) -> NextChanges
        ensures instants { result ≡ NextChanges.Changes → instants_in list.new.items ≡ instants_in list.old.items }
        ensures walk { self.new.walk ≡ self.old.walk }
        ensures phase { self.new.phase ≡ Phase.Goes }
        ensures clock { self.new.clock ≡ self.old.clock }
        ensures time { self.new.at ≡ self.old.at }
        ensures end { result ≢ NextChanges.End }
    {
        self.phase = Phase::Goes;
        next_changes(self.first(list))
    }

    // Tells the end, behind the last one.
    fn end(&mut self, list: &mut Vec<Change>) -> NextChanges
        ensures instants { result ≡ NextChanges.Changes → instants_in list.new.items ≡ instants_in list.old.items }
        ensures walk { self.new.walk ≡ self.old.walk }
        ensures phase { self.new.phase ≡ Phase.Ended }
        ensures clock { self.new.clock ≡ self.old.clock }
        ensures time { self.new.at ≡ self.old.at }
        ensures end { result ≢ NextChanges.End }
    {
        self.phase = Phase::Ended;
        let last = self.at.saturating_add(1);
        next_changes(self.changes.end(list, self.walk.observation(), last))
    }

    fn go_on(&mut self, list: &mut Vec<Change>) -> NextChanges
        ensures tells { list.old.items ≡ [] → result ≡ NextChanges.Changes → TellsCall self.old.clock self.old.phase self.old.walk self.old.at list.new.items self.new.phase self.new.walk self.new.at }
        ensures clock { self.new.clock ≡ self.old.clock }
        ensures end { result ≡ NextChanges.End → self.old.phase ≡ Phase.Ended }
    {
        match self.phase {
            Phase::Begins => self.begin(list),
            Phase::Goes => self.walk_on(list),
            Phase::Ends => self.end(list),
            Phase::Ended => NextChanges::End,
        }
    }
}

impl<M: Meter> Teller for Telling<'_, '_, M> {
    ghost use Rattle.std.specs.Prelude.{◌≡◌};
    ghost use Rattle.trace_command.specs.Tellings.{TellsCall};
    ghost use Rattle.trace_command.specs.declared.tracing.Phase.TheVariants.{Ended};

    ghost tells = { λ a changes b. TellsCall a.clock a.phase a.walk a.at changes b.phase b.walk b.at × (b.clock ≡ a.clock) };

    ghost ended = { λ a. a.phase ≡ Ended };

    fn next(&mut self, changes: &mut Vec<Change>) -> NextChanges {
        self.go_on(changes)
    }
}

impl<M: Meter> Placer for Telling<'_, '_, M> {
    fn places(&self) -> &[CodePlace] {
        self.places.as_slice()
    }

    fn labels(&self) -> &[Label] {
        self.labels.as_slice()
    }
}

// Why a run stopped, with the fault that the walk met.
fn end_of(stop: RunStop, fault: Option<InputFault>) -> TraceEnd {
    match (stop, fault) {
        (RunStop::Fault, Some(fault)) => TraceEnd::AtFault(fault),
        (RunStop::Trace(TraceStop::WriteFailed(fault)), _) => TraceEnd::WriteFailed(fault),
        _ => TraceEnd::NoMemory,
    }
}

// Traces a run whose journal is walked.
fn trace_walk<W: Sink, M: Meter>(
    alloc: Global,
    run: &TracedRun<'_>,
    walk: Walk<AnyDevice>,
    meter: &mut M,
    sink: &mut W,
) -> Result<(), TraceEnd>
    ensures trace { OnOk result (IsTraceOf run.now.clock walk W.takes sink.old run.now.symbols.now.symbols sink.new) }
    ensures placed { OnOk result (IsPlacedSomewhere W.takes sink.old run.now.symbols.now.symbols sink.new) }
{
    let changes = Changes::new(alloc, run.names)?;
    // The begin, the end, and that there is no more are a call each.
    let calls = walk.event_count().saturating_add(4);
    let mut telling = Telling {
        alloc,
        walk,
        changes,
        marks: Vec::new(alloc),
        places: Vec::new(alloc),
        placed: !run.symbols.symbols().is_empty(),
        names: run.names,
        labels: Vec::new(alloc),
        clock: run.clock,
        at: 0,
        phase: Phase::Begins,
        fault: None,
        meter,
    };
    let outcome = trace_places(alloc, &mut telling, calls, run.symbols, sink);
    telling.meter.ended();
    match outcome {
        Ok(()) => Ok(()),
        Err(stop) => Err(end_of(stop, telling.fault)),
    }
}

/// Traces the run of a journal, on a machine with the devices and its image, to a sink, with labels by its names and places by its symbols. The
/// meter gets the events.
///
/// # Errors
///
/// The first fault, as a replay reports it; memory was refused; or a write failed.
pub fn trace_journal<W: Sink, M: Meter>(
    alloc: Global,
    run: &TracedRun<'_>,
    devices: Devices<AnyDevice>,
    meter: &mut M,
    sink: &mut W,
) -> Result<(), TraceEnd>
    ensures trace { OnOk result (IsTraceOfText run.now.clock devices run.now.image.now run.now.journal.now W.takes sink.old run.now.symbols.now.symbols sink.new) }
    ensures placed { OnOk result (IsPlacedSomewhere W.takes sink.old run.now.symbols.now.symbols sink.new) }
{
    let walk = Walk::start(alloc, run.image, devices, run.journal)?;
    trace_walk(alloc, run, walk, meter, sink)
}
