//! Why a run has no end, as it is reported.

use crate::PROGRAM;
use crate::program::{NamedImage, Script, Way};
use evm_host::{
    Ending, FAILED, Input, Message, System, USAGE, Verdict, World, ended, ended_with,
    memory_refused, report,
};
use evm_ram::Image;
use run_schedule::{BeginFault, LineStop, RunFault, ScriptFault};
use sh_answers::{ScriptStop, script_fault};

const OUTPUT: &str = "standard output";

/// The status where the file is no image that can be loaded.
const NO_IMAGE: u8 = 3;

// Reports why a run by a schedule has no end.
fn stopped<S: System>(path: &str, stop: RunFault, world: &mut World<S>) -> u8 {
    match stop {
        RunFault::NoMemory | RunFault::NoMachine(BeginFault::NoMemory) => {
            memory_refused(PROGRAM, world)
        }
        RunFault::WriteFailed(fault) => {
            ended(OUTPUT, &Ending::WriteFailed(fault), &mut world.errors)
        }
        RunFault::NoMachine(BeginFault::PastRam) => {
            let message = Message::Plain("memory of a segment lies past RAM: see --ram");
            report(path, message, &mut world.errors);
            NO_IMAGE
        }
        RunFault::NoMachine(BeginFault::BadSize) => {
            let message = Message::Plain("--ram is no multiple of 4096");
            report(PROGRAM, message, &mut world.errors);
            USAGE
        }
    }
}

fn stop_of(stop: LineStop) -> ScriptStop {
    match stop {
        LineStop::Misspelt => ScriptStop::Misspelt,
        LineStop::BootedAgain => ScriptStop::BootedAgain,
        LineStop::NotBooted => ScriptStop::NotBooted,
        LineStop::Refused(refusal) => ScriptStop::Refused(refusal),
    }
}

// Reports why the line of this number of a script is not done.
fn line_stopped<S: System>(
    image: &Image,
    script: Script<'_>,
    number: u64,
    stop: LineStop,
    world: &mut World<S>,
) -> u8 {
    match script_fault(script.text, number, stop_of(stop)) {
        None => memory_refused(PROGRAM, world),
        Some(fault) => {
            let input = Input::Lines(Some(image), script.text);
            let ending = Ending::Complete(Verdict::Refused(fault));
            ended_with(input, script.path, &ending, &mut world.errors)
        }
    }
}

/// Reports why a run has no end, and returns the status.
pub(crate) fn halted<S: System>(
    program: &NamedImage<'_>,
    way: Way<'_>,
    stop: ScriptFault,
    world: &mut World<S>,
) -> u8 {
    let Way::Script(script) = way else {
        return match stop {
            ScriptFault::Run(fault) => stopped(program.path, fault, world),
            _ => FAILED,
        };
    };
    match stop {
        ScriptFault::Run(fault) => stopped(program.path, fault, world),
        ScriptFault::NoBoot => {
            let message = Message::Plain("no boot line, so nothing is done");
            report(script.path, message, &mut world.errors);
            1
        }
        ScriptFault::Line(number, stop) => {
            line_stopped(program.image, script, number, stop, world)
        }
    }
}
