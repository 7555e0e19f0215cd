//! A run, from the boot to its end.

ghost use Rattle.std.specs.Prelude.{◌≡◌, [], IfOk, IfSome, OnOk};
ghost use Rattle.evm_model.specs.State.{State};
ghost use Rattle.run_schedule.specs.Advances.{HasGrown};
ghost use Rattle.run_schedule.specs.Endings.{HasEndedSo};
ghost use Rattle.run_schedule.specs.Runs.{HasRun, HasToldSome};

use crate::advancing::advance;
use crate::ending::{RunEnd, concluded};
use crate::printing::Printer;
use crate::scheduler::{Choice, RunPlan, Scheduler};
use evm_core::{Boot, Machine};
use evm_devs::AnyDevice;
use evm_model::{Block, Event, Refusal};
use evm_ram::Image;
use evm_room::NoMemory;
use evm_streams::{Sink, WriteFault};
use hunt_schedules::{BeginFault, begin};
use std::alloc::Global;

/// Why a run has no end.
#[derive(Clone, Copy, Debug, PartialEq, Eq)]
pub enum RunFault {
    /// No machine boots.
    NoMachine(BeginFault),
    /// Memory was refused.
    NoMemory,
    /// The text of the console can't be written.
    WriteFailed(WriteFault),
}

/// A machine whose run has ended.
#[derive(Drop)]
pub struct FinishedRun {
    /// How.
    pub ending: RunEnd,
    /// Whether the last line that the program put has no end.
    pub is_open: bool,
    /// The machine.
    pub machine: Machine<AnyDevice>,
}

/// How many bytes are told at once between two ticks.
const PIECE: usize = 1_024;

// Whether what was put is told behind this event.
fn is_time(event: Event<&Block>, waiting: usize) -> bool {
    match event {
        Event::Tick => waiting != 0,
        _ => waiting >= PIECE,
    }
}

// Tells what was put, if it is time.
pub(crate) fn tell_in_time<W: Sink>(
    event: Event<&Block>,
    printer: &mut Printer,
    output: &mut W,
) -> Result<(), RunFault>
    ensures { (start : W) (first s : State) → HasToldSome W.takes start first s output.old printer.old → OnOk result (HasToldSome W.takes start first s output.new printer.new) }
{
    if !is_time(event, printer.len()) {
        return Ok(());
    }
    match printer.tell(output) {
        Ok(()) => Ok(()),
        Err(fault) => Err(RunFault::WriteFailed(fault)),
    }
}

// The next event, if the run has not ended: how it has, if it has.
fn go_on<W: Sink>(
    machine: &mut Machine<AnyDevice>,
    scheduler: &mut Scheduler<'_>,
    printer: &mut Printer,
    output: &mut W,
) -> Result<Option<RunEnd>, RunFault>
    ensures ends { IfOk result (λ ended. IfSome ended (λ ending. HasEndedSo ending machine.new)) }
    ensures grown { IfOk result (λ ended. HasGrown ended machine.old machine.new) }
    ensures telling { (start : W) (first : State) → HasToldSome W.takes start first machine.old output.old printer.old → OnOk result (HasToldSome W.takes start first machine.new output.new printer.new) }
{
    let event = match scheduler.next(machine) {
        Choice::Make(event) => event.widen(),
        Choice::End(ending) => return Ok(Some(ending)),
    };
    match advance(machine, event, printer) {
        Ok(None) => {}
        Ok(Some(ending)) => return Ok(Some(ending)),
        Err(NoMemory) => return Err(RunFault::NoMemory),
    }
    tell_in_time(event, printer, output)?;
    Ok(None)
}

// Goes on until the run has ended.
fn go<W: Sink>(
    machine: &mut Machine<AnyDevice>,
    scheduler: &mut Scheduler<'_>,
    printer: &mut Printer,
    output: &mut W,
) -> Result<RunEnd, RunFault>
    ensures ends { IfOk result (λ ending. HasEndedSo ending machine.new) }
    ensures telling { (start : W) (first : State) → HasToldSome W.takes start first machine.old output.old printer.old → OnOk result (HasToldSome W.takes start first machine.new output.new printer.new) }
{
    'events: for made in 0..machine.room() {
        if let Some(ending) = go_on(machine, scheduler, printer, output)? {
            return Ok(ending);
        }
    }
    Ok(RunEnd::Refused(Refusal::Full))
}

/// Boots a machine, loads the image and makes events as the plan says until the run has ended. The text of the consoles goes to the output
/// while the program runs: behind each tick, and in pieces between two of them.
///
/// # Errors
///
/// Why the run has no end.
pub fn run<W: Sink>(
    alloc: Global,
    image: &Image,
    boot: &Boot,
    plan: RunPlan<'_>,
    output: &mut W,
) -> Result<FinishedRun, RunFault>
    ensures { IfOk result (λ done. HasRun W.takes image.now boot.now output.old done.ending done.machine output.new) }
{
    let mut machine = match begin(alloc, image, boot) {
        Ok(machine) => machine,
        Err(fault) => return Err(RunFault::NoMachine(fault)),
    };
    let mut printer = Printer::new(alloc);
    let mut scheduler = Scheduler::new(plan);
    let ending = go(&mut machine, &mut scheduler, &mut printer, output)?;
    let is_open = printer.is_open();
    match printer.tell(output) {
        Ok(()) => {
            let ending = concluded(&machine, ending);
            Ok(FinishedRun {
                ending,
                is_open,
                machine,
            })
        }
        Err(fault) => Err(RunFault::WriteFailed(fault)),
    }
}
