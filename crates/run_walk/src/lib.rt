//! A journal replayed event by event: what each event is, the machine before and after it, and what tasks and calls are named.
#![tactic(auto)]

mod calls;
mod cursor;
mod item;
mod names;
mod observer;
mod quiet;
mod walk;

pub use calls::{Answered, Caller, MadeCall, call_at, instruction_at, wasted};
pub use cursor::WalkStop;
pub use evm_diagnostics::{
    Boot, Devices, Event, EventLine, InputFault, Journal, JournalFaultKind, Machine, read_history,
};
pub use evm_journal::{push_boot_line, push_event_line};
pub use item::{Item, actor_of, outline};
pub use names::{Named, RunNames};
pub use text_symbols::{Kind, Names, push_code};
pub use walk::Walk;
