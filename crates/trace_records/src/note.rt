//! What a trace tells beside its slices.

use crate::track::Track;

/// How far an interrupt has come.
#[derive(Clone, Copy, Debug, PartialEq, Eq)]
pub enum InterruptPassage {
    /// The line was raised on the wire.
    Raised,
    /// A step received it into the log of a stage.
    Received,
    /// It was played on a stage.
    Played,
}

/// What an arrow stands for.
#[derive(Clone, Copy, Debug, PartialEq, Eq)]
pub enum Flow {
    /// A line, from its raise to its play.
    Line(u8),
    /// A mutex, from the task that unlocks it to the one that gets it.
    Mutex(u8),
}

/// What a note says.
#[derive(Clone, Copy, Debug, PartialEq, Eq)]
pub enum Detail {
    /// The name of the track's process.
    ProcessName,
    /// The name of the track.
    ThreadName,
    /// Its place among the tracks of its process.
    SortIndex,
    /// A line came so far, this often.
    Interrupt(InterruptPassage, u8, u64),
    /// The rank of the track's task from here on.
    Rank(u16),
    /// How many ticks there were, from here on.
    Ticks(u64),
    /// The track's task goes on this processor.
    Moves(u8),
    /// An arrow begins. Its number is that of the arrow's end.
    FlowStart(Flow, u64),
    /// An arrow ends.
    FlowEnd(Flow, u64),
}

/// Something that is told at one tick of the trace's clock.
#[derive(Clone, Copy, Debug, PartialEq, Eq)]
pub struct Note {
    pub track: Track,
    /// The tick.
    pub at: u64,
    pub detail: Detail,
}
