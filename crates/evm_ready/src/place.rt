ghost use Rattle.std.specs.Prelude.{◌≡◌, ◌≤◌, ◌<◌};
ghost use Rattle.evm_ready.specs.Places.{ready_place, oob_bit, runs_oob, runs_in_band};
ghost use Rattle.evm_ready.specs.ReadyTurns.{turn_of, turn_at};

use crate::turn::Turn;
use evm_model::{Stage, Task, TaskState};

// How many queues a processor has, of which some are never used.
pub(crate) const LEVELS: u16 = 256;

// The level of the in-band tasks, behind those of the out-of-band ranks.
pub(crate) const IN_BAND_LEVEL: u16 = 200;

/// Where a ready task is, and since when.
#[derive(Clone, Copy, Debug, PartialEq, Eq)]
pub struct Place {
    pub stage: Stage,
    /// The number of its processor.
    pub cpu: u8,
    /// Of two tasks of one rank the one with the lesser stamp goes first.
    pub stamp: u64,
}

/// Where a task is ready, if it is.
pub fn place_of(task: &Task) -> Option<Place>
    ensures { result ≡ ready_place task.now }
{
    let stage = match task.state {
        TaskState::InReady => Stage::InBand,
        TaskState::OobReady => Stage::OutOfBand,
        _ => return None,
    };
    Some(Place {
        stage,
        cpu: task.cpu,
        stamp: task.stamp,
    })
}

// 1 for a task that is ready out-of-band, else 0.
pub(crate) fn oob_bit(place: Option<Place>) -> u8
    ensures { result ≡ oob_bit place }
{
    match place {
        Some(place) if place.stage == Stage::OutOfBand => 1,
        _ => 0,
    }
}

// Whether it may run out-of-band on processor c.
pub(crate) fn runs_oob(place: Option<Place>, c: u8) -> bool
    ensures { result ≡ runs_oob c place }
{
    let Some(place) = place else {
        return false;
    };
    place.stage == Stage::OutOfBand && place.cpu == c
}

// Whether it may run in-band on processor c.
pub(crate) fn runs_in_band(place: Option<Place>, c: u8) -> bool
    ensures { result ≡ runs_in_band c place }
{
    let Some(place) = place else {
        return false;
    };
    place.stage == Stage::InBand && place.cpu == c
}

// The turn of a task of this rank that is ready there, or isn't ready.
pub(crate) fn turn_of(place: Option<Place>, rank: u16) -> Turn
    ensures { result ≡ turn_of place rank }
{
    match place {
        None => Turn {
            queue: None,
            rank,
            stamp: 0,
        },
        Some(place) => turn_at(place.stage, place.cpu, place.stamp, rank),
    }
}

fn turn_at(stage: Stage, cpu: u8, stamp: u64, rank: u16) -> Turn
    ensures { result ≡ turn_at stage cpu stamp rank }
{
    let queues = cpu as u16 * LEVELS;
    match stage {
        Stage::OutOfBand => Turn {
            queue: Some(queues + 199u16.saturating_sub(rank)),
            rank,
            stamp,
        },
        Stage::InBand => Turn {
            queue: Some(queues + IN_BAND_LEVEL),
            rank: 0,
            stamp,
        },
    }
}
