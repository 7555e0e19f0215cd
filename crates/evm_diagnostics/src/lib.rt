//! Faults of scripts, journals and sources, and the message of each; notes on stopped processors, and on tasks that ended by
//! a fault.
#![tactic(auto)]

mod detail;
mod fault;
mod lookup;
mod note;
mod refusal_detail;

pub use detail::fault_detail;
pub use evm_debug::{
    Answer, Boot, Devices, Event, EventLine, Journal, JournalFault, JournalFaultKind, Line,
    Machine, Refusal, View, ViewRefusal, cut_line, push_decimal, push_view, read_history,
    read_line, read_poke, read_short, summary, write_journal,
};
pub use fault::{InputFault, event_cpu, view_cpu};
pub use lookup::{has_boot, line_numbered};
pub use note::{StepNote, StopPlace, is_cpu_stopped, note_of, report_ended, report_note};
