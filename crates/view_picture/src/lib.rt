//! A journal as a picture (SVG): which task runs on which stage, and what each event did.
#![tactic(auto)]

mod arrows;
mod bars;
mod events;
mod flags;
mod layout;
mod legend;
mod lines;
mod names;
mod parting;
mod room;
mod shapes;
mod sheet;
mod style;
mod svg;

pub use svg::drawn;
pub use view_timeline::{
    Boot, Devices, Event, EventLine, InputFault, Journal, JournalFaultKind, Landmark, Names,
    Naming, Picture, Piece, RunNames, Timeline, Walk, WalkStop, Window, find, gather,
    push_boot_line, push_event_line, read_history, say, written,
};
