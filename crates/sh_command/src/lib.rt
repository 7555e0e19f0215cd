//! A shell over the machine, the word `sh` of the command line: scripts with names, and answers that are decoded.
#![tactic(auto)]

mod answer;
mod asking;
mod cases;
mod command;
mod commands;
mod help;
mod reading;
mod running;
mod shell;
mod typing;
mod words;

pub use answer::LineAnswer;
pub use command::sh;
pub use help::SHELL_HELP;
pub use reading::{Finish, serve_lines};
pub use sh_answers::{AnyDevice, Names, script_text};
pub use shell::Shell;
