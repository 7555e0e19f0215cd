//! The lines of a script, and the views as text.
#![tactic(auto)]

mod device;
mod health;
mod last_views;
mod laws;
mod line;
mod look;
mod piece;
mod reading;
mod refusable;
mod registers;
mod render;
mod views;

pub use evm_journal::{
    Answer, Boot, Devices, Event, EventLine, Journal, JournalFault, JournalFaultKind, Machine,
    Refusal, cut_line, push_decimal, read_history, write_journal,
};
pub use last_views::{push_summary, summary};
pub use laws::reads_lines;
pub use line::{Bad, Line, View};
pub use look::ViewRefusal;
pub use reading::{read_line, read_poke, read_short};
pub use render::{push_view, view};
