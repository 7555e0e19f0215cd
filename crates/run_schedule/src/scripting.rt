//! A run by a script.

ghost use Rattle.std.specs.Prelude.{IfOk, OnOk};
ghost use Rattle.evm_model.specs.Replay.{IsReplayOf};
ghost use Rattle.evm_model.specs.State.{State};
ghost use Rattle.evm_model.specs.declared.boot.Boot.{Boot};
ghost use Rattle.hunt_schedules.specs.Beginning.{Begins};
ghost use Rattle.run_schedule.specs.Runs.{HasRun, HasToldSome};

use crate::advancing::advance;
use crate::ending::{RunEnd, concluded, ending_over};
use crate::printing::Printer;
use crate::running::{FinishedRun, RunFault, tell_in_time};
use evm_core::{Boot, Machine};
use evm_debug::{Line, View, ViewRefusal, cut_line, read_line, view};
use evm_devs::AnyDevice;
use evm_model::{Block, Event, Refusal};
use evm_ram::Image;
use evm_room::NoMemory;
use evm_streams::{Sink, write_all};
use hunt_schedules::{BeginFault, begin};
use std::alloc::Global;

/// Why a line of a script is not done.
#[derive(Clone, Copy, Debug, PartialEq, Eq)]
pub enum LineStop {
    /// It is outside the grammar.
    Misspelt,
    /// It boots a machine that is booted.
    BootedAgain,
    /// No machine is booted.
    NotBooted,
    /// The machine refuses it.
    Refused(Refusal),
}

/// Why a run by a script has no end.
#[derive(Clone, Copy, Debug, PartialEq, Eq)]
pub enum ScriptFault {
    /// The line of this number, from 1, is not done.
    Line(u64, LineStop),
    /// There is no line that boots.
    NoBoot,
    /// Memory was refused, or a write failed.
    Run(RunFault),
}

/// A line of a script, and its number.
#[derive(Clone, Copy, Debug)]
struct NumberedLine<'a> {
    number: u64,
    text: &'a [u8],
}

/// A script that is left, and the number of its first line.
#[derive(Clone, Copy, Debug)]
struct Rest<'a> {
    number: u64,
    text: &'a [u8],
}

// The numbers of the boot line, which is the first that is not blank, and what is behind it.
fn booted(script: &[u8]) -> Result<(Boot, Rest<'_>), ScriptFault> {
    let mut rest = Rest {
        number: 1,
        text: script,
    };
    'lines: while let Some((line, after)) = cut_line(rest.text) {
        let number = rest.number;
        rest = Rest {
            number: number.saturating_add(1),
            text: after,
        };
        match read_line(line) {
            Ok(Line::Boot(boot)) => return Ok((boot, rest)),
            Ok(Line::Blank) => {}
            Ok(_) => return Err(ScriptFault::Line(number, LineStop::NotBooted)),
            Err(_) => return Err(ScriptFault::Line(number, LineStop::Misspelt)),
        }
    }
    Err(ScriptFault::NoBoot)
}

// The machine of a boot line.
fn machine_of(
    alloc: Global,
    image: &Image,
    boot: &Boot,
    number: u64,
) -> Result<Machine<AnyDevice>, ScriptFault>
    ensures begins { IfOk result (λ machine. Begins image.now boot.now machine) }
    ensures fresh { IfOk result (λ machine. IsReplayOf machine machine) }
{
    match begin(alloc, image, boot) {
        Ok(machine) => Ok(machine),
        Err(BeginFault::NoMemory) => Err(ScriptFault::Run(RunFault::NoMemory)),
        Err(BeginFault::PastRam) => {
            Err(ScriptFault::Line(number, LineStop::Refused(Refusal::BadAddress)))
        }
        Err(BeginFault::BadSize) => {
            Err(ScriptFault::Line(number, LineStop::Refused(Refusal::BadSize)))
        }
    }
}

/// A run by a script: its machine, and what that has put.
#[derive(Drop)]
struct ScriptRun {
    machine: Machine<AnyDevice>,
    printer: Printer,
}

impl ScriptRun {
    // One event of a line.
    fn make_one<W: Sink>(
        &mut self,
        event: Event<&Block>,
        number: u64,
        output: &mut W,
    ) -> Result<(), ScriptFault>
        ensures { (start : W) (first : State) → HasToldSome W.takes start first self.old.machine output.old self.old.printer → OnOk result (HasToldSome W.takes start first self.new.machine output.new self.new.printer) }
    {
        let ended = match advance(&mut self.machine, event, &mut self.printer) {
            Ok(ended) => ended,
            Err(NoMemory) => return Err(ScriptFault::Run(RunFault::NoMemory)),
        };
        if let Some(RunEnd::Refused(refusal)) = ended {
            return Err(ScriptFault::Line(number, LineStop::Refused(refusal)));
        }
        match tell_in_time(event, &mut self.printer, output) {
            Ok(()) => Ok(()),
            Err(fault) => Err(ScriptFault::Run(fault)),
        }
    }

    // So many steps of a processor.
    fn make_steps<W: Sink>(
        &mut self,
        c: u8,
        count: u32,
        number: u64,
        output: &mut W,
    ) -> Result<(), ScriptFault>
        ensures { (start : W) (first : State) → HasToldSome W.takes start first self.old.machine output.old self.old.printer → OnOk result (HasToldSome W.takes start first self.new.machine output.new self.new.printer) }
    {
        'steps: for _ in 0..count {
            self.make_one(Event::Step(c), number, output)?;
        }
        Ok(())
    }

    // The text of a view goes to its sink.
    fn show<V: Sink>(
        &self,
        alloc: Global,
        look: &View,
        number: u64,
        views: &mut V,
    ) -> Result<(), ScriptFault> {
        let text = match view(alloc, &self.machine, look) {
            Ok(text) => text,
            Err(ViewRefusal::NoMemory) => return Err(ScriptFault::Run(RunFault::NoMemory)),
            Err(ViewRefusal::Refused(refusal)) => {
                return Err(ScriptFault::Line(number, LineStop::Refused(refusal)));
            }
        };
        write_all(views, text.as_bytes()).map_err(|fault| ScriptFault::Run(RunFault::WriteFailed(
            fault,
        )))
    }

    // What a line asks for.
    fn do_line<W: Sink, V: Sink>(
        &mut self,
        alloc: Global,
        line: NumberedLine<'_>,
        output: &mut W,
        views: &mut V,
    ) -> Result<(), ScriptFault>
        ensures { (start : W) (first : State) → HasToldSome W.takes start first self.old.machine output.old self.old.printer → OnOk result (HasToldSome W.takes start first self.new.machine output.new self.new.printer) }
    {
        let number = line.number;
        match read_line(line.text) {
            Ok(Line::Blank) => Ok(()),
            Ok(Line::Boot(_)) => Err(ScriptFault::Line(number, LineStop::BootedAgain)),
            Ok(Line::Steps(c, count)) => self.make_steps(c, count, number, output),
            Ok(Line::One(event)) => self.make_one(event.lend(), number, output),
            Ok(Line::Show(look)) => self.show(alloc, &look, number, views),
            Err(_) => Err(ScriptFault::Line(number, LineStop::Misspelt)),
        }
    }

    // All lines behind the boot line.
    fn do_lines<W: Sink, V: Sink>(
        &mut self,
        alloc: Global,
        rest: Rest<'_>,
        output: &mut W,
        views: &mut V,
    ) -> Result<(), ScriptFault>
        ensures { (start : W) (first : State) → HasToldSome W.takes start first self.old.machine output.old self.old.printer → OnOk result (HasToldSome W.takes start first self.new.machine output.new self.new.printer) }
    {
        let mut number = rest.number;
        let mut text = rest.text;
        'lines: while let Some((line, after)) = cut_line(text) {
            self.do_line(alloc, NumberedLine { number, text: line }, output, views)?;
            number = number.saturating_add(1);
            text = after;
        }
        Ok(())
    }
}

/// Boots the machine of a script, loads the image and does the lines of the script. The text of the consoles goes to the output, the text of
/// views to another sink.
///
/// # Errors
///
/// Why not all lines were done.
pub fn run_scripted<W: Sink, V: Sink>(
    alloc: Global,
    image: &Image,
    script: &[u8],
    output: &mut W,
    views: &mut V,
) -> Result<FinishedRun, ScriptFault>
    ensures { IfOk result (λ done. (boot : Boot) × HasRun W.takes image.now boot output.old done.ending done.machine output.new) }
{
    let (boot, rest) = booted(script)?;
    let machine = machine_of(alloc, image, &boot, rest.number.saturating_sub(1))?;
    let printer = Printer::new(alloc);
    let mut run = ScriptRun { machine, printer };
    run.do_lines(alloc, rest, output, views)?;
    let ScriptRun {
        machine,
        mut printer,
    } = run;
    let is_open = printer.is_open();
    match printer.tell(output) {
        Ok(()) => {
            let ending = concluded(&machine, ending_over(&machine));
            Ok(FinishedRun {
                ending,
                is_open,
                machine,
            })
        }
        Err(fault) => Err(ScriptFault::Run(RunFault::WriteFailed(fault))),
    }
}
