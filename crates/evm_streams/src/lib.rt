//! Bytes read and written whole, with contracts that say which call gave them, took them or failed. What standard error gets: messages, with
//! the name and the line in front and what they quote, and how far a run has come.
#![tactic(auto)]

mod adapters;
mod cause;
mod diagnostic;
mod excerpt;
mod laws;
mod line_detail;
mod line_fault;
mod message;
mod near;
mod number;
mod printable;
mod progress;
mod reads;
mod sink;
mod source;
mod words;
mod writes;

pub use cause::Cause;
pub use diagnostic::{Diagnostic, report, report_line};
pub use laws::{known_bytes_are_read, known_bytes_are_written};
pub use line_detail::{bad_line_detail, byte_detail, grammar_detail};
pub use line_fault::LineFault;
pub use message::{Message, Numeral};
pub use near::is_near;
pub use printable::odd_byte;
pub use progress::{Meter, Progress, Silence};
pub use reads::{FILE_LIMIT, read_all, read_utf8};
pub use sink::{Sink, WriteFault, Writing};
pub use source::{ReadFault, ReadStop, Reading, Source};
pub use writes::write_all;
