//! The changes that are told of each event.

ghost use Rattle.std.specs.Prelude.{◌≡◌, ◌+◌, ◌*◌, ◌++◌, OnOk, flat_map, slice_get, slice_set};
ghost use Rattle.std.specs.Option.{option_flatten};
ghost use Rattle.std.specs.Box.{boxed_slice_items};
ghost use Rattle.evm_lines.specs.declared.TheConstants.{LINES};
ghost use Rattle.trace_command.specs.Flows.{ended_flows, flows_in, handed_over, kept_track, line_flows, owner_flows};
ghost use Rattle.trace_command.specs.Instants.{event_instants, instants_of, instants_in, line_instants};

use crate::interrupts::{LineEvent, Moment, Span, count_ticks, ends_wait, interrupt};
use crate::naming::{Labelled, is_labelled, labelled_by, name_processors, name_task, name_tasks};
use crate::noting::note;
use crate::showing::{end_processors, end_tasks, show};
use crate::states::current_track;
use evm_lines::{LINE_COUNT, LINES};
use evm_model::PROCESSOR_LIMIT;
use evm_room::{Refused, copies};
use run_marks::{Mark, Observation};
use run_walk::RunNames;
use std::alloc::Global;
use std::boxed::BoxedSlice;
use trace_records::{Change, Detail, Flow, InterruptPassage, Track};

/// An entry for each line of each processor.
const ENTRIES: usize = PROCESSOR_LIMIT * LINE_COUNT;

fn entry_of(cpu: u8, line: u8) -> usize
    ensures { result ≡ cpu * LINES + line }
{
    usize::from(cpu) * usize::from(LINES) + usize::from(line)
}

/// A track at a time.
#[derive(Clone, Copy)]
struct Point {
    track: Track,
    at: u64,
}

/// A task hands a mutex over to another.
#[derive(Clone, Copy)]
struct Handover {
    flow: Flow,
    from: u8,
    to: u8,
}

/// What is kept from event to event: the arrows that have begun, and what the processors do.
#[derive(Drop)]
pub(crate) struct Changes {
    // of each line that was raised and not played yet, the number of its arrow
    begun: BoxedSlice<Option<u64>>,
    // the number of the next arrow
    next: u64,
    // of each processor, the track that shows something
    current: [Track; PROCESSOR_LIMIT],
    // of each task, whether a label names its track
    labelled: Labelled,
}

impl Changes {
    /// No arrow has begun. Labels name the tracks of the tasks that have names.
    pub(crate) fn new(alloc: Global, names: &RunNames) -> Result<Changes, Refused> {
        let begun = copies(alloc, None, ENTRIES)?;
        Ok(Changes {
            begun,
            next: 0,
            current: [Track::InBand(0); PROCESSOR_LIMIT],
            labelled: labelled_by(names),
        })
    }

    // The number of an arrow that begins.
    fn arrow(&mut self) -> u64
        ensures number { result ≡ self.old.next }
        ensures tracks { self.new.current ≡ self.old.current }
    {
        let id = self.next;
        self.next = id.saturating_add(1);
        id
    }

    fn begun_at(&self, entry: usize) -> Option<u64>
        ensures { result ≡ option_flatten (slice_get (boxed_slice_items self.now.begun) entry) }
    {
        match self.begun.get(entry) {
            None => None,
            Some(begun) => *begun,
        }
    }

    fn set_begun(&mut self, entry: usize, id: Option<u64>)
        ensures begun { boxed_slice_items self.new.begun ≡ slice_set (boxed_slice_items self.old.begun) entry id }
        ensures tracks { self.new.current ≡ self.old.current }
    {
        if entry < self.begun.len() {
            self.begun[entry] = id;
        }
    }

    fn track_of(&self, cpu: u8) -> Track
        ensures { result ≡ kept_track cpu (slice_get self.now.current cpu) }
    {
        match self.current.get(usize::from(cpu)) {
            None => Track::InBand(cpu),
            Some(track) => *track,
        }
    }

    // An arrow begins where a line is raised that has none; none is told of the tick's.
    #[tactic(auto, using(crate::proofs::Told::told))]
    fn begin_arrow(
        &mut self,
        list: &mut Vec<Change>,
        cpu: u8,
        line: u8,
        at: u64,
    ) -> Result<(), Refused>
        ensures instants { OnOk result (instants_in list.new.items ≡ instants_in list.old.items) }
        ensures flows { OnOk result (flows_in list.new.items ≡ flows_in list.old.items ++ line_flows (kept_track cpu (slice_get self.old.current cpu)) at line self.old.next (option_flatten (slice_get (boxed_slice_items self.old.begun) (cpu * LINES + line)))) }
    {
        if line == 0 {
            return Ok(());
        }
        let entry = entry_of(cpu, line);
        if self.begun_at(entry).is_some() {
            return Ok(());
        }
        let id = self.arrow();
        self.set_begun(entry, Some(id));
        let start = Detail::FlowStart(Flow::Line(line), id);
        note(list, self.track_of(cpu), at, start)
    }

    // It ends where the line is played, at what the processor does then.
    #[tactic(auto, using(crate::proofs::Told::told))]
    fn end_arrow(
        &mut self,
        list: &mut Vec<Change>,
        entry: usize,
        line: u8,
        point: Point,
    ) -> Result<(), Refused>
        ensures instants { OnOk result (instants_in list.new.items ≡ instants_in list.old.items) }
        ensures flows { OnOk result (flows_in list.new.items ≡ flows_in list.old.items ++ ended_flows point.track point.at (Flow.Line line) (option_flatten (slice_get (boxed_slice_items self.old.begun) entry))) }
    {
        match self.begun_at(entry) {
            None => Ok(()),
            Some(id) => {
                self.set_begun(entry, None);
                let end = Detail::FlowEnd(Flow::Line(line), id);
                note(list, point.track, point.at, end)
            }
        }
    }

    // An arrow from the task that had a mutex to the one that has it after the event.
    #[tactic(auto, using(crate::proofs::Told::told))]
    fn hand_over(
        &mut self,
        list: &mut Vec<Change>,
        handover: Handover,
        at: Span,
    ) -> Result<(), Refused>
        ensures instants { OnOk result (instants_in list.new.items ≡ instants_in list.old.items) }
        ensures flows { OnOk result (flows_in list.new.items ≡ flows_in list.old.items ++ handed_over handover.flow self.old.next handover.from handover.to at.at at.behind) }
    {
        let Handover { flow, from, to } = handover;
        let id = self.arrow();
        note(list, Track::Task(from), at.at, Detail::FlowStart(flow, id))?;
        note(list, Track::Task(to), at.behind, Detail::FlowEnd(flow, id))
    }

    // Tells that a mutex has another owner: the second, where the first had it.
    #[tactic(auto, using(crate::proofs::Told::told))]
    fn owner(
        &mut self,
        list: &mut Vec<Change>,
        flow: Flow,
        owners: (Option<u8>, Option<u8>),
        at: Span,
    ) -> Result<(), Refused>
        ensures instants { OnOk result (instants_in list.new.items ≡ instants_in list.old.items) }
        ensures flows { OnOk result (flows_in list.new.items ≡ flows_in list.old.items ++ owner_flows flow self.old.next owners.0 owners.1 at.at at.behind) }
    {
        match owners {
            (Some(from), Some(to)) => self.hand_over(list, Handover { flow, from, to }, at),
            _ => Ok(()),
        }
    }

    // Tells that a line was raised, and begins its arrow.
    #[tactic(auto, using(crate::proofs::Told::told))]
    fn raised(
        &mut self,
        list: &mut Vec<Change>,
        event: LineEvent,
        moment: Moment,
    ) -> Result<(), Refused>
        ensures { OnOk result (instants_in list.new.items ≡ instants_in list.old.items ++ line_instants moment.wakes InterruptPassage.Raised event.cpu event.line event.times moment.span.at) }
    {
        interrupt(list, InterruptPassage::Raised, event, moment)?;
        self.begin_arrow(list, event.cpu, event.line, moment.span.at)
    }

    // Tells that a line was played, and ends its arrow.
    #[tactic(auto, using(crate::proofs::Told::told))]
    fn played(
        &mut self,
        list: &mut Vec<Change>,
        observation: &Observation,
        event: LineEvent,
        moment: Moment,
    ) -> Result<(), Refused>
        ensures { OnOk result (instants_in list.new.items ≡ instants_in list.old.items ++ line_instants moment.wakes InterruptPassage.Played event.cpu event.line event.times moment.span.at) }
    {
        interrupt(list, InterruptPassage::Played, event, moment)?;
        let LineEvent { cpu, line, .. } = event;
        let point = Point {
            track: current_track(observation, cpu),
            at: moment.span.behind,
        };
        self.end_arrow(list, entry_of(cpu, line), line, point)
    }

    #[tactic(auto, using(crate::proofs::Told::told))]
    fn mark(
        &mut self,
        list: &mut Vec<Change>,
        observation: &Observation,
        mark: &Mark,
        moment: Moment,
    ) -> Result<(), Refused>
        ensures { OnOk result (instants_in list.new.items ≡ instants_in list.old.items ++ instants_of moment.wakes moment.span.at mark.now) }
    {
        let at = moment.span;
        match *mark {
            Mark::Raised { cpu, line, times } => {
                self.raised(list, LineEvent { cpu, line, times }, moment)
            }
            Mark::Received { cpu, line, times } => {
                let passage = InterruptPassage::Received;
                interrupt(list, passage, LineEvent { cpu, line, times }, moment)
            }
            Mark::Played {
                cpu,
                line,
                times,
                ..
            } => { self.played(list, observation, LineEvent { cpu, line, times }, moment) }
            Mark::Owner { mutex, from, to } => {
                self.owner(list, Flow::Mutex(mutex), (from, to), at)
            }
            Mark::Created { task } => {
                let labelled = is_labelled(&self.labelled, task);
                name_task(list, observation, task, at.behind, labelled)
            }
            Mark::Rank { task, to, .. } => {
                note(list, Track::Task(task), at.behind, Detail::Rank(to))
            }
            Mark::Migrates { task, cpu } => {
                note(list, Track::Task(task), at.at, Detail::Moves(cpu))
            }
            Mark::Ticked { .. } => count_ticks(list, observation, at.behind),
            Mark::Runs { .. }
            | Mark::Idles { .. }
            | Mark::Stop { .. }
            | Mark::Stall { .. }
            | Mark::Waits { .. }
            | Mark::Woken { .. }
            | Mark::Deadline { .. }
            | Mark::Moves { .. }
            | Mark::Ended { .. }
            | Mark::Faulted { .. }
            | Mark::Notice { .. } => Ok(()),
        }
    }

    #[tactic(auto, using(crate::proofs::Told::told))]
    fn marks(
        &mut self,
        list: &mut Vec<Change>,
        observation: &Observation,
        marks: &[Mark],
        moment: Moment,
    ) -> Result<(), Refused>
        ensures { OnOk result (instants_in list.new.items ≡ instants_in list.old.items ++ flat_map (instants_of moment.wakes moment.span.at) marks.now) }
    {
        for mark in marks {
            self.mark(list, observation, mark, moment)?;
        }
        Ok(())
    }

    // Keeps what the processors do.
    fn keep(&mut self, observation: &Observation) {
        for cpu in 0..PROCESSOR_LIMIT as u8 {
            self.current[usize::from(cpu)] = current_track(observation, cpu);
        }
    }

    /// Tells names, ranks and what the tracks show before the first event.
    #[tactic(auto, using(crate::proofs::Told::told))]
    pub(crate) fn begin(
        &mut self,
        list: &mut Vec<Change>,
        observation: &Observation,
    ) -> Result<(), Refused>
        ensures { OnOk result (instants_in list.new.items ≡ instants_in list.old.items) }
    {
        note(list, Track::Task(0), 0, Detail::ProcessName)?;
        note(list, Track::Lines(0), 0, Detail::ProcessName)?;
        name_processors(list, observation.cpu_count)?;
        name_tasks(list, observation, &self.labelled)?;
        count_ticks(list, observation, 0)?;
        self.keep(observation);
        show(list, observation, 0)
    }

    /// Tells an event: its marks, and what the tracks show after it.
    #[tactic(auto, using(crate::proofs::Told::told))]
    pub(crate) fn event(
        &mut self,
        list: &mut Vec<Change>,
        observation: &Observation,
        marks: &[Mark],
        at: Span,
    ) -> Result<(), Refused>
        ensures { OnOk result (instants_in list.new.items ≡ instants_in list.old.items ++ event_instants at.at marks.now) }
    {
        let wakes = ends_wait(marks);
        self.marks(list, observation, marks, Moment { wakes, span: at })?;
        // without a mark no track shows anything else
        if marks.is_empty() {
            return Ok(());
        }
        self.keep(observation);
        show(list, observation, at.behind)
    }

    /// Tells that the tracks show nothing more, behind the last event.
    pub(crate) fn end(
        &self,
        list: &mut Vec<Change>,
        observation: &Observation,
        at: u64,
    ) -> Result<(), Refused>
        ensures { OnOk result (instants_in list.new.items ≡ instants_in list.old.items) }
    {
        end_processors(list, observation.cpu_count, at)?;
        end_tasks(list, observation.task_count, at)
    }
}
