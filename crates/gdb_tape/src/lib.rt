//! The session of a debugger as a list of events and a place in it. Going back is a replay of fewer events.
#![tactic(auto)]

mod replay;
mod search;
mod since;
mod tape;

pub use gdb_driving::{
    Boot, Devices, Going, Interrupts, Line, Machine, Points, Refusal, Round, TargetHalt, View,
    ViewRefusal, WatchPoint, Why, cut_line, has_going, is_inside, lacks_room, part_len,
    processor_of, push_bytes, push_error, push_halt, push_memory, push_outcome, push_registers,
    push_thread, push_threads, push_view, push_word, read_line, register, resume, set_register,
    set_registers, step, stop_all, word_at, write, write_journal,
};
pub use replay::begin;
pub use tape::Tape;
