//! Where two journals part.

ghost use Rattle.std.specs.Prelude.{◌≡◌, ◌↔◌, IsTrue};

use view_picture::{Boot, EventLine, Journal};

/// Where two journals part: the number of the first event that differs, and the events there; None where a journal ends.
#[derive(Debug, PartialEq, Eq, Drop)]
pub struct Parting {
    pub event: u64,
    pub first: Option<EventLine>,
    pub second: Option<EventLine>,
}

/// Whether two boots differ in nothing but the journal's capacity, which changes no event that is accepted.
pub(crate) fn are_like(one: Boot, two: Boot) -> bool
    ensures { IsTrue result ↔ (record one { capacity = two.capacity } ≡ two) }
{
    let same = Boot {
        capacity: two.capacity,
        ..one
    };
    same == two
}

// How many events a line has.
fn count_of(line: &EventLine) -> u64 {
    match line {
        EventLine::Steps(_, count) => u64::from(*count),
        EventLine::One(_) => 1,
    }
}

// How many events two lines that differ have in common, from the first on.
fn common(one: &Option<EventLine>, two: &Option<EventLine>) -> u64 {
    match (one, two) {
        (Some(EventLine::Steps(c, count)), Some(EventLine::Steps(d, more))) if c == d => {
            u64::from(*count.min(more))
        }
        _ => 0,
    }
}

// The first event of a line from an event on, by itself; of the lines behind it, if the line has no more.
fn event_at(journal: &Journal, line: usize, passed: u64) -> Option<EventLine> {
    match journal.line(line) {
        Some(EventLine::Steps(cpu, count)) if passed < u64::from(count) => {
            Some(EventLine::Steps(cpu, 1))
        }
        Some(EventLine::One(event)) if passed == 0 => Some(EventLine::One(event)),
        _ => match journal.line(line.saturating_add(1)) {
            Some(EventLine::Steps(cpu, _)) => Some(EventLine::Steps(cpu, 1)),
            next => next,
        },
    }
}

/// Where two journals part; None where they have the same events.
pub fn first_parting(one: &Journal, two: &Journal) -> Option<Parting> {
    let mut event = 0u64;
    for at in 0..one.line_count().max(two.line_count()) {
        let (first, second) = (one.line(at), two.line(at));
        if first != second {
            let passed = common(&first, &second);
            return Some(Parting {
                event: event.saturating_add(passed),
                first: event_at(one, at, passed),
                second: event_at(two, at, passed),
            });
        }
        if let Some(line) = first {
            event = event.saturating_add(count_of(&line));
        }
    }
    None
}
