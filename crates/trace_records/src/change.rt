//! What happens in a trace.

use crate::note::Note;
use crate::state::State;
use crate::track::Track;

/// One thing that happens in a trace.
#[derive(Clone, Copy, Debug)]
pub enum Change {
    /// From a tick on a track shows a state, or nothing.
    Shows(Track, Option<State>, u64),
    /// Something is noted.
    Noted(Note),
}
