//! What a processor does next, and what stops it there.

ghost use Rattle.std.specs.Prelude.{◌≡◌, IfSome};
ghost use Rattle.gdb_driving.specs.Interrupts.{IsAlone};
ghost use Rattle.gdb_driving.specs.Seeing.{IsStepOf, concerns, overlaps, stepper, touches};
ghost use Rattle.evm_model.specs.Event.{event_lent};
ghost use Rattle.evm_model.specs.Current.{current};

use crate::points::{Points, WatchPoint};
use crate::stops::{TargetHalt, Why};
use evm_debug::{Answer, Event, Machine};
use evm_dev::Device;
use evm_exec::{Access, Direction, access};
use evm_isa::decode;
use evm_model::{Block, TaskState};
use gdb_packets::WatchKind;

/// What the next step of a processor does.
#[derive(Clone, Copy, Debug, PartialEq, Eq)]
pub enum Next {
    /// It receives a line, or takes up a task that is ready.
    Prepares,
    /// The task does an instruction.
    Runs(u8),
    /// Nothing.
    Idles,
}

// Whether a line is on the wire of a processor.
fn has_line<D: Device>(machine: &Machine<D>, cpu: u8) -> bool {
    match machine.wire(cpu) {
        Some(wire) => !wire.is_empty(),
        None => false,
    }
}

// Whether a task of a processor is ready. One that was just spawned there runs from the processor's next step on.
fn has_ready<D: Device>(machine: &Machine<D>, cpu: u8) -> bool {
    for t in 0..machine.task_count() {
        if let Some(task) = machine.task(t) {
            if task.cpu == cpu && matches!(task.state, TaskState::InReady | TaskState::OobReady) {
                return true;
            }
        }
    }
    false
}

// The task that a processor runs.
fn current<D: Device>(machine: &Machine<D>, cpu: u8) -> Option<u8>
    ensures { result ≡ current cpu machine.now.board.parts }
{
    match machine.cpu(cpu) {
        Some(processor) => processor.current,
        None => None,
    }
}

/// What the next step of a processor does.
pub fn next_of<D: Device>(machine: &Machine<D>, cpu: u8) -> Next {
    if has_line(machine, cpu) {
        return Next::Prepares;
    }
    match current(machine, cpu) {
        Some(task) => Next::Runs(task),
        None if has_ready(machine, cpu) => Next::Prepares,
        None => Next::Idles,
    }
}

/// Whether the debugger has stopped a processor.
pub fn is_stopped<D: Device>(machine: &Machine<D>, cpu: u8) -> bool {
    match machine.cpu(cpu) {
        Some(processor) => processor.stopped,
        None => false,
    }
}

/// Whether a processor is not stopped.
pub fn has_going<D: Device>(machine: &Machine<D>) -> bool {
    for c in 0..machine.cpu_count() {
        if !is_stopped(machine, c) {
            return true;
        }
    }
    false
}

// The processor that steps by an event.
fn stepper(event: &Event<&Block>) -> Option<u8>
    ensures { result ≡ stepper (event_lent event.now) }
{
    match event {
        Event::Step(c) | Event::StepI(c) => Some(*c),
        _ => None,
    }
}

// Whether a step by an event is one of nothing: of a processor that is stopped.
fn is_held<D: Device>(machine: &Machine<D>, event: &Event<&Block>) -> bool {
    match event {
        Event::Step(c) => is_stopped(machine, *c),
        _ => false,
    }
}

/// The task that does an instruction by an event.
pub fn doer_of<D: Device>(machine: &Machine<D>, event: &Event<&Block>) -> Option<u8>
    ensures { IfSome result (λ t. IsStepOf t (event_lent event.now) machine.now) }
{
    let c = stepper(event)?;
    if is_held(machine, event) || has_line(machine, c) {
        return None;
    }
    current(machine, c)
}

/// Why a task is stopped before its next instruction, by a breakpoint there.
pub fn break_at<D: Device>(machine: &Machine<D>, points: &Points, task: u8) -> Option<Why>
    ensures { IfSome result IsAlone }
{
    let pc = machine.lent_hart(task)?.pc;
    if points.software.contains(pc) {
        return Some(Why::SoftwareBreak);
    }
    if points.hardware.contains(pc) {
        return Some(Why::HardwareBreak);
    }
    None
}

// Whether some bytes have one in common with others.
fn overlaps(first: u64, count: u64, other: u64, width: u64) -> bool
    ensures { result ≡ overlaps first count other width }
{
    if first <= other {
        other - first < count
    } else {
        first - other < width
    }
}

// Whether a watchpoint is for such accesses.
fn concerns(kind: WatchKind, direction: Direction) -> bool
    ensures { result ≡ concerns kind direction }
{
    match kind {
        WatchKind::Write => matches!(direction, Direction::Store),
        WatchKind::Read => matches!(direction, Direction::Load),
        WatchKind::Access => true,
    }
}

// Whether an access is one that a watchpoint is for.
fn touches(point: &WatchPoint, access: &Access) -> bool
    ensures { result ≡ touches point.now access.now }
{
    concerns(point.kind, access.direction)
        && overlaps(
            point.address,
            point.count,
            access.address,
            access.width.bytes(),
        )
}

// The access that the next instruction of a task makes.
fn access_of<D: Device>(machine: &Machine<D>, task: u8) -> Option<Access> {
    let hart = machine.lent_hart(task)?;
    match machine.bytes(hart.pc, 4)? {
        [a, b, c, d] => access(&decode(u32::from_le_bytes([*a, *b, *c, *d]))?, hart),
        _ => None,
    }
}

/// Why a task is stopped by its next instruction, if that touches the bytes of a watchpoint.
pub fn watch_at<D: Device>(machine: &Machine<D>, points: &Points, task: u8) -> Option<Why>
    ensures { IfSome result IsAlone }
{
    if points.watches.is_empty() {
        return None;
    }
    let access = access_of(machine, task)?;
    for point in points.watches.as_slice() {
        if touches(point, &access) {
            return Some(Why::Watched(point.kind, point.address.max(access.address)));
        }
    }
    None
}

/// The task that a processor runs, or else another.
pub fn current_or<D: Device>(machine: &Machine<D>, cpu: u8, other: u8) -> u8 {
    current(machine, cpu).unwrap_or(other)
}

/// The halt of a task that its last instruction ended by a fault.
pub fn fault_of<D: Device>(machine: &Machine<D>, task: u8) -> Option<TargetHalt>
    ensures { IfSome result (λ halt. IsAlone halt.why) }
{
    match machine.task(task) {
        Some(one) => match one.state {
            TaskState::Faulted(fault) => Some(TargetHalt {
                task,
                why: Why::Faulted(fault),
            }),
            _ => None,
        },
        None => None,
    }
}

// Why a task is stopped that did an instruction of a processor, if it is.
fn stop_of<D: Device>(machine: &Machine<D>, cpu: u8, task: u8) -> Option<TargetHalt>
    ensures { IfSome result (λ halt. IsAlone halt.why) }
{
    if let Some(halt) = fault_of(machine, task) {
        return Some(halt);
    }
    if is_stopped(machine, cpu) {
        Some(TargetHalt {
            task,
            why: Why::Ebreak,
        })
    } else {
        None
    }
}

/// Who is stopped, and why, behind a step of a processor that was answered so. A breakpoint of the machine's own is one of a
/// script.
pub fn halt_after<D: Device>(machine: &Machine<D>, cpu: u8, answer: Answer) -> Option<TargetHalt>
    ensures { IfSome result (λ halt. IsAlone halt.why) }
{
    match answer {
        Answer::Hit => Some(TargetHalt {
            task: current_or(machine, cpu, 0),
            why: Why::SoftwareBreak,
        }),
        Answer::Ran(task) => stop_of(machine, cpu, task),
        Answer::Idle | Answer::Stopped | Answer::Received(_) | Answer::Done => None,
    }
}
