//! How a timer expires.

ghost use Rattle.std.specs.Prelude.{◌≡◌, ◌≤◌, true};
ghost use Rattle.evm_model.specs.Bounds.{COUNT_LIMIT};
ghost use Rattle.evm_model.specs.Timers.{expired, is_due_timer, missed, taken};
ghost use Rattle.evm_tick.specs.Spans.{IsDue, IsSpan};

use evm_model::Timer;

/// Whether a timer is a processor's, and due.
pub fn is_due(c: u8, now: u64, timer: Timer) -> bool
    ensures row { result ≡ is_due_timer c now timer }
    ensures due { result ≡ true → IsDue now timer }
{
    timer.due != 0 && timer.due <= now && timer.cpu == c
}

// How often a timer has expired up to now since it was due.
fn missed(now: u64, timer: Timer) -> u64
    requires clock { now ≤ COUNT_LIMIT }
    requires due { IsDue now timer }
    ensures { result ≡ missed now timer }
{
    if timer.period == 0 {
        1
    } else {
        1 + (now - timer.due) / timer.period
    }
}

/// A timer that is due, as it is after it has expired: it is due again a period after its last expiry up to now, or off.
#[tactic(auto, using(crate::proofs::Growing::spans), unfolding(evm_model::specs::Timers::expired))]
pub fn expired(now: u64, timer: Timer) -> Timer
    requires clock { now ≤ COUNT_LIMIT }
    requires due { IsDue now timer }
    requires span { IsSpan timer }
    ensures row { result ≡ expired now timer }
    ensures span { IsSpan result }
{
    let missed = missed(now, timer);
    let due = if timer.period == 0 {
        0
    } else {
        timer.due + missed * timer.period
    };
    Timer {
        due,
        expiries: timer.expiries + missed,
        ..timer
    }
}

/// A timer whose expiries were taken.
pub fn taken(timer: Timer) -> Timer
    requires span { IsSpan timer }
    ensures row { result ≡ taken timer }
    ensures span { IsSpan result }
{
    Timer {
        expiries: 0,
        ..timer
    }
}
