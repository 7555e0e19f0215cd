//! A journal's run as one HTML page: each event in one entry of compact JSON, beside the page's script.
#![tactic(auto)]

mod about;
mod details;
mod heads;
mod laws;
mod marks;
mod page;
mod poking;
mod row;
mod script;
mod shell;
mod style;
mod telling;

pub use about::{About, about_text};
pub use laws::{headers_are_safe, rows_are_safe, runs_are_safe};
pub use page::{ToldRun, page_head, push_journal, push_tail};
