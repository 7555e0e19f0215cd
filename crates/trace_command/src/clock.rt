//! The clock of a trace.

ghost use Rattle.std.specs.Prelude.{◌≡◌};
ghost use Rattle.trace_command.specs.Times.{is_step, is_tick_event, ticks_behind, time_behind};

use run_walk::{Event, Item};

/// What the clock of a trace counts.
#[derive(Clone, Copy, Debug, PartialEq, Eq)]
pub enum Clock {
    /// Events of the journal.
    Events,
    /// Steps, the debugger's too.
    Steps,
    /// Thousandths of ticks: what comes behind a tick is a thousandth behind the event before it, up to the last one before the next.
    Ticks,
}

/// How long a tick lasts.
const TICK: u64 = 1_000;

fn is_step(event: &Event<u8>) -> bool
    ensures { result ≡ is_step event.now }
{
    match event {
        Event::Step(_) | Event::StepI(_) => true,
        _ => false,
    }
}

fn is_tick_event(event: &Event<u8>) -> bool
    ensures { result ≡ is_tick_event event.now }
{
    match event {
        Event::Tick => true,
        _ => false,
    }
}

// The time behind a tick, or behind so many other events.
fn ticks_behind(ticks: bool, count: u32, at: u64) -> u64
    ensures { result ≡ ticks_behind ticks count at }
{
    let begun = at / TICK;
    if ticks {
        (begun + 1).saturating_mul(TICK)
    } else {
        at.saturating_add(u64::from(count))
            .min((begun * TICK).saturating_add(TICK - 1))
    }
}

impl Clock {
    /// The time behind an item at a time.
    pub(crate) fn time_behind(self, item: &Item, at: u64) -> u64
        ensures { result ≡ time_behind self item.now at }
    {
        match self {
            Clock::Events => at.saturating_add(u64::from(item.count)),
            Clock::Steps if is_step(&item.event) => at.saturating_add(u64::from(item.count)),
            Clock::Steps => at,
            Clock::Ticks => ticks_behind(is_tick_event(&item.event), item.count, at),
        }
    }
}
