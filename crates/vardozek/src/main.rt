//! The program for people: a journal's run drawn or traced, a machine under GDB or in a shell, and the hunt for a schedule in which a
//! program fails.
#![tactic(auto)]

use std::process::ExitCode;

fn main(rt: HostRuntime) -> ExitCode {
    ExitCode::from(vardozek_command::run(&rt, rt))
}
