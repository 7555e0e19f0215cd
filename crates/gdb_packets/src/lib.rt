//! GDB's remote serial protocol: its packets, the commands in them, and the thread that hears them. The format is that of "Debugging
//! with GDB", appendix "GDB Remote Serial Protocol".
#![tactic(auto)]

mod actions;
mod command;
mod ends;
mod fields;
mod framing;
mod heard;
mod hexadecimal;
mod input_thread;
mod interrupts;
mod item;
mod laws;
mod reading;
mod stopping;

pub use command::{BreakKind, Command, Pace, WatchKind};
pub use ends::{Hearing, HearingEnd};
pub use framing::push_framed;
pub use hexadecimal::{is_hexadecimal, push_digits, read_digits};
pub use input_thread::InputThread;
pub use interrupts::Interrupts;
pub use item::{PACKET_LIMIT, PacketItem, read_item};
pub use laws::{digits_are_read, framed_packets_are_read, packets_are_read, pieces_are_read};
pub use reading::read_command;
