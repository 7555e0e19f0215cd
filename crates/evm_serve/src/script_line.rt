//! A line of a script.

ghost use Rattle.std.specs.Prelude.{◌≡◌, List, Option, IfOk, OnErr, [], option_copied};
ghost use Rattle.std.specs.String.{string_bytes};
ghost use Rattle.evm_diagnostics.specs.evm_debug.LineReading.{line_at};
ghost use Rattle.evm_diagnostics.specs.evm_history.EventLine.{short_line};
ghost use Rattle.evm_model.specs.Event.{event_lent};
ghost use Rattle.evm_model.specs.Devices.{Attached};
ghost use Rattle.evm_serve.specs.RunOptions.{HoldsDevices};
ghost use Rattle.evm_serve.specs.Memory.{MemoryRefused};
ghost use Rattle.evm_serve.specs.Starting.{started};
ghost use Rattle.evm_model.specs.Replay.{apply};
ghost use Rattle.evm_diagnostics.specs.evm_debug.Views.{shown};
ghost use Rattle.evm_diagnostics.specs.evm_core.Steps.{steps};
ghost use Rattle.evm_diagnostics.specs.evm_debug.Line.{script_line};
ghost use Rattle.evm_serve.specs.Script.{boot_outcome, event_outcome, steps_outcome, view_outcome, unbooted_outcome, booted_outcome, line_outcome};
ghost use Rattle.evm_diagnostics.specs.Notes.{is_cpu_stopped};
ghost use Rattle.evm_serve.specs.RunNotes.{reply_note, steps_noted, line_noted, noted_at};
ghost use Rattle.evm_serve.specs.Serving.{Replies, StillHoldsDevices};

use crate::ending::Reply;
use crate::options::RunOptions;
use crate::starting::start;
use evm_dev::Device;
use evm_diagnostics::{
    Boot, Devices, Event, EventLine, InputFault, Line, Machine, Refusal, View, ViewRefusal,
    event_cpu, is_cpu_stopped, note_of, push_view, read_line, read_poke, read_short, view_cpu,
};
use evm_model::{Block, NoBytes};
use evm_ram::Image;
use evm_room::NoMemory;
use evm_streams::LineFault;
use std::alloc::Global;

/// A line of a script, and its number, from 1.
#[derive(Clone, Copy)]
pub(crate) struct NumberedLine<'a> {
    pub(crate) number: u64,
    pub(crate) text: &'a [u8],
}

/// The machine of a script, if a line has booted it, and until then the devices that it boots with.
#[derive(Drop)]
pub(crate) struct Bootable<D: Device> {
    pub(crate) devices: Option<Devices<D>>,
    pub(crate) machine: Option<Machine<D>>,
}

// A boot, with the options.
fn run_boot<D: Device>(
    alloc: Global,
    options: RunOptions<'_, D>,
    number: u64,
    numbers: &Boot,
    machine: &mut Option<Machine<D>>,
) -> Result<Reply, NoMemory>
    requires { machine.old ≡ Option.None }
    ensures outcome { IfOk result (λ reply. Replies reply [] machine.new (boot_outcome number (started options.entry numbers.now))) }
    ensures held { (held : Option (List Attached)) (devices : List Attached) → IfOk result (λ reply. StillHoldsDevices reply machine.new held devices) }
    ensures note { IfOk result (λ reply. reply_note reply ≡ Option.None) }
    ensures memory { OnErr result MemoryRefused }
{
    match start(alloc, options, numbers) {
        Ok(booted) => {
            *machine = Some(booted);
            Ok(Reply::Goes(None))
        }
        Err(Refusal::NoMemory) => Err(NoMemory),
        Err(refusal) => Ok(Reply::Ends(InputFault::Refused(number, None, refusal))),
    }
}

// A line, if no machine is booted.
fn run_unbooted<D: Device>(
    alloc: Global,
    image: Option<&Image>,
    number: u64,
    line: &Line,
    run: &mut Bootable<D>,
) -> Result<Reply, NoMemory>
    requires { run.old.machine ≡ Option.None }
    ensures outcome { (devices : List Attached) → run.old.devices ≡ Option.Some devices → IfOk result (λ reply. Replies reply [] run.new.machine (unbooted_outcome (record { image = option_copied image.entry; devices = devices }) number line.now)) }
    ensures held { (devices : List Attached) → run.old.devices ≡ Option.Some devices → IfOk result (λ reply. StillHoldsDevices reply run.new.machine run.new.devices devices) }
    ensures note { IfOk result (λ reply. reply_note reply ≡ Option.None) }
    ensures memory { OnErr result MemoryRefused }
{
    match line {
        Line::Blank => Ok(Reply::Goes(None)),
        Line::Boot(numbers) => match run.devices.take() {
            Some(devices) => {
                let options = RunOptions { image, devices };
                run_boot(alloc, options, number, numbers, &mut run.machine)
            }
            None => Ok(Reply::Ends(InputFault::BadLine(number, LineFault::BootedAgain))),
        },
        _ => Ok(Reply::Ends(InputFault::BadLine(number, LineFault::NotBooted))),
    }
}

// What came of an event.
#[inline(always)]
fn run_event<D: Device>(number: u64, event: Event<&Block>, machine: &mut Machine<D>) -> Reply
    ensures note { reply_note result ≡ Option.None }
    ensures outcome { Replies result [] (Option.Some machine.new) (event_outcome number (event_lent event.entry) (apply machine.old (event_lent event.entry))) }
{
    match machine.apply(event) {
        Ok(_) => Reply::Goes(None),
        Err(refusal) => Reply::Ends(InputFault::Refused(number, event_cpu(&event), refusal)),
    }
}

// Steps of a processor.
#[inline(always)]
fn run_steps<D: Device>(number: u64, c: u8, count: u32, machine: &mut Machine<D>) -> Reply
    ensures note { reply_note result ≡ steps_noted c (is_cpu_stopped c machine.old) (steps c count machine.old) }
    ensures outcome { Replies result [] (Option.Some machine.new) (steps_outcome number c (steps c count machine.old)) }
{
    let earlier = is_cpu_stopped(c, machine);
    match machine.steps(c, count) {
        Ok(()) => Reply::Goes(note_of(c, earlier, machine)),
        Err(refusal) => Reply::Ends(InputFault::Refused(number, Some(c), refusal)),
    }
}

// A line of events without bytes, if a machine is booted.
#[inline(always)]
fn run_short<D: Device>(number: u64, line: EventLine<NoBytes>, machine: &mut Machine<D>) -> Reply
    ensures note { reply_note result ≡ line_noted machine.old (script_line (short_line line)) }
    ensures outcome { Replies result [] (Option.Some machine.new) (booted_outcome number machine.old (script_line (short_line line))) }
{
    match line {
        EventLine::Steps(c, count) => run_steps(number, c, count, machine),
        EventLine::One(event) => run_event(number, event.widen(), machine),
    }
}

// A view.
#[tactic(auto, using(crate::proofs::Memory::memory))]
fn run_view<D: Device>(
    number: u64,
    what: &View,
    machine: &Machine<D>,
    text: &mut String,
) -> Result<Reply, NoMemory>
    requires { string_bytes text.old ≡ [] }
    ensures outcome { IfOk result (λ reply. Replies reply (string_bytes text.new) (Option.Some machine.now) (view_outcome number what.now machine.now (shown what.now machine.now))) }
    ensures note { IfOk result (λ reply. reply_note reply ≡ Option.None) }
    ensures memory { OnErr result MemoryRefused }
{
    match push_view(text, machine, what) {
        Ok(()) => Ok(Reply::Goes(None)),
        Err(ViewRefusal::Refused(refusal)) => {
            Ok(Reply::Ends(InputFault::Refused(number, view_cpu(what), refusal)))
        }
        Err(ViewRefusal::NoMemory) => Err(NoMemory),
    }
}

// A line, if a machine is booted.
fn run_booted<D: Device>(
    number: u64,
    line: Line,
    machine: &mut Machine<D>,
    text: &mut String,
) -> Result<Reply, NoMemory>
    requires { string_bytes text.old ≡ [] }
    ensures outcome { IfOk result (λ reply. Replies reply (string_bytes text.new) (Option.Some machine.new) (booted_outcome number machine.old line)) }
    ensures note { IfOk result (λ reply. reply_note reply ≡ line_noted machine.old line) }
    ensures memory { OnErr result MemoryRefused }
{
    match line {
        Line::Blank => Ok(Reply::Goes(None)),
        Line::Boot(_) => Ok(Reply::Ends(InputFault::BadLine(number, LineFault::BootedAgain))),
        Line::Steps(c, count) => Ok(run_steps(number, c, count, machine)),
        Line::One(event) => Ok(run_event(number, event.lend(), machine)),
        Line::Show(what) => run_view(number, &what, machine, text),
    }
}

// Any line, before a text is written.
#[inline(never)]
fn run_any<D: Device>(
    alloc: Global,
    image: Option<&Image>,
    line: &NumberedLine<'_>,
    run: &mut Bootable<D>,
    text: &mut String,
) -> Result<Reply, NoMemory>
    requires { string_bytes text.old ≡ [] }
    ensures outcome { (devices : List Attached) → HoldsDevices run.old.machine run.old.devices devices → IfOk result (λ reply. Replies reply (string_bytes text.new) run.new.machine (line_outcome (record { image = option_copied image.entry; devices = devices }) line.now.number run.old.machine (line_at line.now.text.now))) }
    ensures held { (devices : List Attached) → HoldsDevices run.old.machine run.old.devices devices → IfOk result (λ reply. StillHoldsDevices reply run.new.machine run.new.devices devices) }
    ensures note { IfOk result (λ reply. reply_note reply ≡ noted_at run.old.machine (line_at line.now.text.now)) }
    ensures memory { OnErr result MemoryRefused }
{
    let number = line.number;
    let Ok(line) = read_line(line.text) else {
        return Ok(Reply::Ends(InputFault::BadLine(number, LineFault::OutsideGrammar)));
    };
    match &mut run.machine {
        None => run_unbooted(alloc, image, number, &line, run),
        Some(booted) => run_booted(number, line, booted, text),
    }
}

/// Runs a line of a script on the machine, if one is booted, and leaves its text in `text`. The boot line takes the devices, and loads the
/// image, if there is one.
#[inline(always)]
pub(crate) fn run_line<D: Device>(
    alloc: Global,
    image: Option<&Image>,
    line: &NumberedLine<'_>,
    run: &mut Bootable<D>,
    text: &mut String,
) -> Result<Reply, NoMemory>
    ensures outcome { (devices : List Attached) → HoldsDevices run.old.machine run.old.devices devices → IfOk result (λ reply. Replies reply (string_bytes text.new) run.new.machine (line_outcome (record { image = option_copied image.entry; devices = devices }) line.now.number run.old.machine (line_at line.now.text.now))) }
    ensures held { (devices : List Attached) → HoldsDevices run.old.machine run.old.devices devices → IfOk result (λ reply. StillHoldsDevices reply run.new.machine run.new.devices devices) }
    ensures note { IfOk result (λ reply. reply_note reply ≡ noted_at run.old.machine (line_at line.now.text.now)) }
    ensures memory { OnErr result MemoryRefused }
{
    text.clear();
    if let Some(booted) = &mut run.machine {
        if let Some(short) = read_short(line.text) {
            return Ok(run_short(line.number, short, booted));
        }
        if let Some((address, block)) = read_poke(line.text) {
            return Ok(run_event(line.number, Event::Poke(address, &block), booted));
        }
    }
    run_any(alloc, image, line, run, text)
}
