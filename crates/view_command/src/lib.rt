//! A journal's run as a picture, as a page or as text, and where two journals part: the word `view` of the command line.
#![tactic(auto)]

mod bounds;
mod command;
mod comparing;
mod diffing;
mod drawing;
mod naming;
mod paging;
mod reports;
mod showing;
mod telling;
mod words;

pub use command::{view, views_program};
pub use comparing::{Parting, first_parting};
pub use drawing::{ViewEnd, ViewedRun, draw_to, timeline_of, write_to};
pub use reports::PROGRAM;
