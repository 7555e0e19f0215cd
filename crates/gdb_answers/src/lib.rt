//! A machine under GDB: the answers to its commands, and the server over a source and a sink.
//! The packets are those of "Debugging with GDB", appendix "GDB Remote Serial Protocol".
#![tactic(auto)]

mod answering;
mod carrying;
mod dialogue;
mod monitor;
mod questions;
mod response;
mod resuming;
mod serving;
mod session;
mod starting;
mod target;
mod words;

pub use dialogue::{Dialogue, serve_gdb};
pub use evm_model::CAPACITY_LIMIT;
pub use evm_ram::SIZE_LIMIT;
pub use gdb_tape::{
    Boot, Devices, Interrupts, Line, Machine, Refusal, begin, cut_line, read_line, write_journal,
};
pub use monitor::{LineEnd, run_line};
pub use serving::Ended;
pub use session::GdbSession;
pub use sh_answers::Names;
