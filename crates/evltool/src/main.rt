//! A debugger for an emulated multiprocessor: `evltool run` serves a script from standard input, `evltool replay`
//! replays a journal, `evltool asm` assembles a source into an image, and `evltool threads` runs an image by threads.
#![tactic(auto)]

use std::process::ExitCode;

fn main(rt: HostRuntime) -> ExitCode {
    let devices = evm_command::program_devices(rt.alloc());
    ExitCode::from(evm_command::run(&rt, &rt, devices))
}
