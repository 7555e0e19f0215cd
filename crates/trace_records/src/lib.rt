//! The records of a trace, in the Trace Event Format: a track for each stage of a processor, for its lines and for each task, slices
//! that follow one another on a track, and the records as JSON. Behind them stand places: what a task does, and where in the program, by
//! the names of the image's symbol table.
#![tactic(auto)]

mod bearer;
mod change;
mod entry;
mod label;
mod laws;
mod line;
mod note;
mod piece;
mod place;
mod place_laws;
mod place_run;
mod run;
mod state;
mod trace;
mod track;
mod tracks;
mod writing;

pub use bearer::Bearer;
pub use change::Change;
pub use label::Label;
pub use laws::{notes_are_kept, slices_follow, traces_are_json, traces_are_written};
pub use note::{Detail, Flow, InterruptPassage, Note};
pub use place::{CodePlace, Doing};
pub use place_laws::no_symbols_no_places;
pub use place_run::{Placer, trace_places};
pub use run::{NextChanges, RunStop, Teller, trace_run};
pub use state::State;
pub use text_symbols::Symbols;
pub use trace::{Trace, TraceStop};
pub use track::Track;
pub use tracks::{Span, Tracks};
