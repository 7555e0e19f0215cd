//! What a shell over the machine reads and says: names of addresses, conditions, snapshots, and answers in words.
#![tactic(auto)]

mod answers;
mod changes;
mod conditions;
mod errno;
mod naming;
mod numbers;
mod page;
mod plain;
mod registers;
mod show;
mod snapshot;
mod views;
mod words;

pub use answers::{put_line, put_place};
pub use changes::{Comparison, Swallowed, put_swallowed};
pub use conditions::{Condition, condition_of, holds};
pub use evm_serve::{
    AnyDevice, Line, Machine, Notes, ScriptStop, ScriptedMachine, View, read_line, script_text,
    write_journal,
};
pub use naming::{put_object, put_standing, source_line};
pub use numbers::{address_of, missing_name, number_of};
pub use page::Page;
pub use plain::{StoppedLine, missing_symbol, put_plain, report_stop, script_fault};
pub use show::{Numbers, numbers_of, put_numbers};
pub use snapshot::{Snapshot, push_one};
pub use text_symbols::{Names, ObjectKind, SourceLine};
pub use views::{put_decoded, put_notice};
pub use words::split_word;
