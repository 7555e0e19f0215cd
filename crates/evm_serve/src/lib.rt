//! The jobs of the command line over readers and writers: a script served, a journal replayed, a source assembled. A session does
//! the lines of a script one at a time, and keeps them.
#![tactic(auto)]

mod assembling;
mod booting;
mod ending;
mod importing;
mod laws;
mod notes;
mod noting;
mod nowhere;
mod options;
mod plain;
mod replay;
mod run_end;
mod running;
mod script;
mod script_line;
mod scripted_machine;
mod serving;
mod session;
mod starting;
mod stop;
mod texts;

pub use assembling::assemble_to;
pub use ending::{Ending, Verdict};
pub use evm_asm::{Extension, SourceDetail, quoted, source_detail};
pub use evm_devs::AnyDevice;
pub use evm_diagnostics::{
    Boot, Devices, InputFault, Line, Machine, Refusal, StepNote, StopPlace, View, cut_line,
    event_cpu, fault_detail, has_boot, line_numbered, read_line, view_cpu, write_journal,
};
pub use evm_elf::{AsmFault, AsmFaultKind, ElfFault, ImageDetail, image_detail, write_bytes};
pub use evm_streams::{
    Cause, ReadFault, ReadStop, Sink, Source, WriteFault, read_all, read_utf8, write_all,
};
pub use importing::{import, import_bytes};
pub use laws::{
    known_contents_are_assembled_into, known_files_are_imported, known_inputs_are_served,
    known_texts_are_served, refused_on_its_line, replays_saved, text_is_script,
};
pub use notes::{LastCall, Notes};
pub use options::RunOptions;
pub use plain::PlainLine;
pub use replay::{replay_text, replay_to};
pub use script::script_text;
pub use scripted_machine::ScriptedMachine;
pub use serving::{run_script, serve, serve_script};
pub use session::Session;
pub use stop::ScriptStop;
