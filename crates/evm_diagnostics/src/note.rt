//! Notes on standard error: where a processor is stopped, and where a task ended by a fault.

ghost use Rattle.std.specs.Prelude.{◌≡◌, option_copied, slice_get, Option};
ghost use Rattle.evm_streams.specs.Diagnostic.{TellsAll};
ghost use Rattle.evm_diagnostics.specs.Notes.{is_ebreak, stop_place_at, stop_place_of, is_cpu_stopped, note_of, note_places, task_fault, faulted_places, task_places, ended_places};

use evm_debug::Machine;
use evm_dev::Device;
use evm_model::{Fault, Task, TaskState};
use evm_streams::{Diagnostic, Message, Numeral, Sink, report, report_line};

/// Where a processor is stopped.
#[derive(Clone, Copy, Debug, PartialEq, Eq)]
pub enum StopPlace {
    /// At the breakpoint of this address.
    Breakpoint(u64),
    /// Behind the EBREAK at this address.
    Ebreak(u64),
    /// At this pc.
    Pc(u64),
    /// It has no current task.
    Idle,
}

/// A processor that is stopped after a line `step C N`.
#[derive(Clone, Copy, Debug, PartialEq, Eq)]
pub struct StepNote {
    /// The number of the processor.
    pub cpu: u8,
    /// It was stopped before the line.
    pub earlier: bool,
    /// Where it is stopped.
    pub place: StopPlace,
}

fn is_ebreak(word: Option<&[u8]>) -> bool
    ensures { result ≡ is_ebreak (option_copied word.entry) }
{
    match word {
        Some(word) => word.starts_with(b"\x73\x00\x10\x00"),
        None => false,
    }
}

fn stop_place_at<D: Device>(pc: u64, machine: &Machine<D>) -> StopPlace
    ensures { result ≡ stop_place_at pc machine.now.board }
{
    let before = pc.saturating_sub(4);
    if machine.is_breakpoint(pc) {
        StopPlace::Breakpoint(pc)
    } else if is_ebreak(machine.bytes(before, 4)) {
        StopPlace::Ebreak(before)
    } else {
        StopPlace::Pc(pc)
    }
}

// The place of a current task.
fn stop_place_of<D: Device>(current: Option<u8>, machine: &Machine<D>) -> StopPlace
    ensures { result ≡ stop_place_of current machine.now.board }
{
    let Some(t) = current else {
        return StopPlace::Idle;
    };
    match machine.hart(t) {
        Some(hart) => stop_place_at(hart.pc, machine),
        None => StopPlace::Idle,
    }
}

/// Whether a processor is stopped.
pub fn is_cpu_stopped<D: Device>(c: u8, machine: &Machine<D>) -> bool
    ensures { result ≡ is_cpu_stopped c machine.now }
{
    match machine.cpu(c) {
        Some(processor) => processor.stopped,
        None => false,
    }
}

/// The note on a processor after a line `step C N`, if it is stopped.
pub fn note_of<D: Device>(c: u8, earlier: bool, machine: &Machine<D>) -> Option<StepNote>
    ensures { result ≡ note_of c earlier (slice_get machine.now.board.parts.processors c) machine.now.board }
{
    match machine.cpu(c) {
        Some(processor) => {
            if processor.stopped {
                Some(StepNote {
                    cpu: c,
                    earlier,
                    place: stop_place_of(processor.current, machine),
                })
            } else {
                None
            }
        }
        None => None,
    }
}

fn stop_effect(earlier: bool) -> &'static str {
    if earlier {
        "; these steps did nothing, and `go` lets it go on"
    } else {
        "; its further steps do nothing until `go`"
    }
}

fn idle_words(earlier: bool) -> &'static str {
    if earlier {
        " is stopped; these steps did nothing, and `go` lets it go on"
    } else {
        " stopped; its further steps do nothing until `go`"
    }
}

fn at_breakpoint(earlier: bool) -> &'static str {
    if earlier {
        " is stopped at the breakpoint "
    } else {
        " stopped at the breakpoint "
    }
}

fn behind_ebreak(earlier: bool) -> &'static str {
    if earlier {
        " is stopped behind the EBREAK at "
    } else {
        " stopped behind the EBREAK at "
    }
}

fn at_pc(earlier: bool) -> &'static str {
    if earlier {
        " is stopped at pc "
    } else {
        " stopped at pc "
    }
}

fn stop_message(cpu: u8, words: &'static str, address: u64, earlier: bool) -> Message {
    Message::WithTwo(
        "processor ",
        Numeral::Decimal(u64::from(cpu)),
        words,
        Numeral::Hexadecimal(address),
        stop_effect(earlier),
    )
}

// The message of a note.
fn note_message(note: StepNote) -> Message {
    let earlier = note.earlier;
    match note.place {
        StopPlace::Breakpoint(a) => stop_message(note.cpu, at_breakpoint(earlier), a, earlier),
        StopPlace::Ebreak(a) => stop_message(note.cpu, behind_ebreak(earlier), a, earlier),
        StopPlace::Pc(a) => stop_message(note.cpu, at_pc(earlier), a, earlier),
        StopPlace::Idle => Message::WithOne(
            "processor ",
            Numeral::Decimal(u64::from(note.cpu)),
            idle_words(earlier),
        ),
    }
}

/// Reports the note on a line, if there is one.
pub fn report_note<E: Sink>(name: &str, number: u64, note: Option<StepNote>, errors: &mut E)
    ensures { TellsAll E.takes (note_places name.now number note) errors.old errors.new }
{
    if let Some(note) = note {
        report_line(name, number, Diagnostic::Alone(note_message(note)), errors);
    }
}

// Whether RAM holds 0 at a pc.
fn is_zero_word(word: Option<&[u8]>) -> bool {
    match word {
        Some(word) => word.starts_with(b"\0\0\0\0"),
        None => false,
    }
}

// Whether a word is an instruction of the M extension.
fn is_multiply(word: Option<&[u8]>) -> bool {
    match word {
        Some(word) => {
            word.len() == 4 && (word[0] % 128 == 0x33 || word[0] % 128 == 0x3b) && word[3] / 2 == 1
        }
        None => false,
    }
}

fn illegal_text(word: Option<&[u8]>) -> &'static str {
    if is_zero_word(word) {
        ": fault 2, RAM holds 0 there, which is not an instruction"
    } else if is_multiply(word) {
        ": fault 2, an instruction of the M extension; compile with -march=rv64i -mabi=lp64"
    } else {
        ": fault 2, not an RV64I instruction"
    }
}

fn task_fault_words(fault: Fault, word: Option<&[u8]>) -> &'static str {
    match fault {
        Fault::Misaligned => {
            ": fault 0, a jump or a branch to an address that is not a multiple of 4"
        }
        Fault::Fetch => ": fault 1, the pc is outside RAM",
        Fault::Illegal => illegal_text(word),
        Fault::Load => ": fault 5, a load from outside RAM",
        Fault::Store => ": fault 7, a store outside RAM",
    }
}

fn task_fault(state: TaskState) -> Option<Fault>
    ensures { result ≡ task_fault state }
{
    match state {
        TaskState::Faulted(fault) => Some(fault),
        TaskState::InReady | TaskState::OobReady | TaskState::Waits(_) | TaskState::Exit => None,
    }
}

// Reports a task, if it ended by a fault.
fn report_task<E: Sink, D: Device>(
    name: &str,
    t: u8,
    task: &Task,
    machine: &Machine<D>,
    errors: &mut E,
)
    ensures { TellsAll E.takes (faulted_places name.now (task_fault task.now.state) (slice_get machine.now.board.parts.harts t)) errors.old errors.new }
{
    let Some(fault) = task_fault(task.state) else {
        return;
    };
    let Some(hart) = machine.hart(t) else {
        return;
    };
    let message = Message::WithTwo(
        "task ",
        Numeral::Decimal(u64::from(t)),
        " ended at pc ",
        Numeral::Hexadecimal(hart.pc),
        task_fault_words(fault, machine.bytes(hart.pc, 4)),
    );
    report(name, message, errors);
}

fn report_numbered<E: Sink, D: Device>(name: &str, t: u8, machine: &Machine<D>, errors: &mut E)
    ensures { TellsAll E.takes (task_places name.now (slice_get machine.now.board.parts.tasks t) (slice_get machine.now.board.parts.harts t)) errors.old errors.new }
{
    if let Some(task) = machine.task(t) {
        report_task(name, t, &task, machine, errors);
    }
}

fn report_tasks<E: Sink, D: Device>(name: &str, machine: &Machine<D>, errors: &mut E)
    ensures { TellsAll E.takes (ended_places name.now (Option.Some machine.now)) errors.old errors.new }
{
    for t in 0..machine.task_count() {
        report_numbered(name, t, machine, errors);
    }
}

/// Reports the tasks of a machine that ended by a fault.
pub fn report_ended<E: Sink, D: Device>(name: &str, machine: &Option<Machine<D>>, errors: &mut E)
    ensures { TellsAll E.takes (ended_places name.now machine.now) errors.old errors.new }
{
    if let Some(machine) = machine {
        report_tasks(name, machine, errors);
    }
}
