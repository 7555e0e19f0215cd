//! A machine under GDB: its registers, bytes and threads as packets show them, and how it goes on and stops. Each change is
//! an accepted event.
#![tactic(auto)]

mod bytes;
mod clock;
mod driving;
mod memory;
mod points;
mod registers;
mod running;
mod seeing;
mod stepping;
mod stops;
mod threads;

pub use bytes::{part_len, push_bytes, push_error, push_outcome, push_thread, push_word};
pub use driving::{event, stop_all};
pub use evm_debug::{
    Answer, Boot, Devices, Event, EventLine, Line, Machine, Refusal, View, ViewRefusal, cut_line,
    push_view, read_line, write_journal,
};
pub use gdb_packets::Interrupts;
pub use memory::{is_inside, push_memory, write};
pub use points::{Points, WATCH_LIMIT, WatchPoint, WatchPoints};
pub use registers::{processor_of, push_registers, register, set_register, set_registers, word_at};
pub use running::{Going, Round, lacks_room, resume};
pub use seeing::{Next, break_at, doer_of, halt_after, has_going, next_of, watch_at};
pub use stepping::step;
pub use stops::{TargetHalt, Why, push_halt};
pub use threads::push_threads;
