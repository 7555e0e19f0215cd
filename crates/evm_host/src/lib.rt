//! The system that a program runs on: the words of its command line, files, three streams, and what standard error
//! gets where a job does not end well. What command lines share: help, the version, faults of the words, and the names of an image.
#![tactic(auto)]

mod answering;
mod exit;
mod host;
mod image_message;
mod loading;
mod naming;
mod source_message;
mod system;

pub use answering::{VERSION, blame, no_words, refuse, show};
pub use evm_serve::{
    Devices, Ending, RunOptions, Verdict, assemble_to, replay_text, run_script, write_bytes,
};
pub use evm_streams::{Message, Sink, read_all, read_utf8, report, write_all};
pub use exit::{
    FAILED, Input, OUTPUT, USAGE, ended, ended_with, failed_write_message, memory_refused,
    not_created, not_opened, not_read, report_out, words_not_read,
};
pub use host::{Host, WordsFault, host_world, words_of};
pub use loading::{image_at, text_at};
pub use naming::names_at;
pub use system::{OpenFault, System, World};
