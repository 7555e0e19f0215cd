//! Interrupt lines and ticks, as they are told.

ghost use Rattle.std.specs.Prelude.{◌≡◌, ◌++◌, OnOk};
ghost use Rattle.std.specs.List.{list_any};
ghost use Rattle.trace_command.specs.Instants.{instants_in, is_told, is_woken, line_instants};

use crate::noting::note;
use evm_room::Refused;
use run_marks::{Mark, Observation};
use trace_records::{Change, Detail, InterruptPassage, Track};

/// The time of an event, and that behind it.
#[derive(Clone, Copy)]
pub(crate) struct Span {
    pub(crate) at: u64,
    pub(crate) behind: u64,
}

/// When an event is told, and whether it ends a wait.
#[derive(Clone, Copy)]
pub(crate) struct Moment {
    pub(crate) wakes: bool,
    pub(crate) span: Span,
}

/// A line of a processor came, and how many times it has.
#[derive(Clone, Copy)]
pub(crate) struct LineEvent {
    pub(crate) cpu: u8,
    pub(crate) line: u8,
    pub(crate) times: u64,
}

/// Whether an event ends a wait.
pub(crate) fn ends_wait(marks: &[Mark]) -> bool
    ensures { result ≡ list_any is_woken marks.now }
{
    marks.iter().any(|mark| is_woken(mark))
}

fn is_woken(mark: &Mark) -> bool
    ensures { result ≡ is_woken mark.now }
{
    match mark {
        Mark::Woken { .. } => true,
        _ => false,
    }
}

// Whether a line is told: that of the tick is where the event ends a wait.
fn is_told(wakes: bool, line: u8) -> bool
    ensures { result ≡ is_told wakes line }
{
    if line == 0 { wakes } else { true }
}

/// Tells that a line came so far, if it is told.
#[tactic(auto, using(crate::proofs::Told::told))]
pub(crate) fn interrupt(
    list: &mut Vec<Change>,
    passage: InterruptPassage,
    event: LineEvent,
    moment: Moment,
) -> Result<(), Refused>
    ensures { OnOk result (instants_in list.new.items ≡ instants_in list.old.items ++ line_instants moment.wakes passage event.cpu event.line event.times moment.span.at) }
{
    let LineEvent { cpu, line, times } = event;
    if !is_told(moment.wakes, line) {
        return Ok(());
    }
    note(
        list,
        Track::Lines(cpu),
        moment.span.at,
        Detail::Interrupt(passage, line, times),
    )
}

/// Tells how many ticks there were.
#[tactic(auto, using(crate::proofs::Told::told))]
pub(crate) fn count_ticks(
    list: &mut Vec<Change>,
    observation: &Observation,
    at: u64,
) -> Result<(), Refused>
    ensures { OnOk result (instants_in list.new.items ≡ instants_in list.old.items) }
{
    note(
        list,
        Track::OutOfBand(0),
        at,
        Detail::Ticks(observation.ticks),
    )
}
