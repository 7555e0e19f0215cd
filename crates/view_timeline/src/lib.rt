//! A window of a journal as a bounded row of cells, each with its marks, and what they say in words.
#![tactic(auto)]

mod cells;
mod finding;
mod gathering;
mod picture;
mod pieces;
mod places;
mod seen;
mod strips;
mod terminal;
mod words;

pub use cells::{CELL_LIMIT, Cell, Deed, Held, MARK_LIMIT, Seen, Shown, Timeline};
pub use finding::{Landmark, find};
pub use gathering::{Window, gather};
pub use picture::Picture;
pub use pieces::{Piece, say};
pub use places::{Naming, push_task, push_waited, wait_name};
pub use run_marks::Mark;
pub use run_walk::{
    Boot, Devices, Event, EventLine, InputFault, Journal, JournalFaultKind, Names, RunNames, Walk,
    WalkStop, push_boot_line, push_event_line, read_history,
};
pub use seen::{held_in, is_stalled, letter, same_stage, share, task_on};
pub use strips::{PARTING, STRIP, column_in, column_of, strip_count};
pub use terminal::written;
pub use words::{push_cell, push_deed, push_event, push_shown, stage_name};
