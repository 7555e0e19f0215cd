//! What an entry says beside the marks, so that the page can tell of calls, devices, tasks and timers in words.

ghost use Rattle.std.specs.Prelude.{◌<◌};

use crate::heads::place_number;
use crate::marks::stage_number;
use crate::row::put;
use evm_dev::Device;
use evm_exec::Hart;
use evm_model::{Class, Stage, TIMER_LIMIT, TaskState, Timer};
use evm_room::Refused;
use run_marks::{Mark, Observation};
use run_walk::{Answered, Caller, Item, Machine, MadeCall, Walk, call_at, instruction_at};

/// The devices: where their registers begin, and how many bytes each device has.
const DEVICES: u64 = 0x1000_0000;

const DEVICES_END: u64 = 0x1000_8000;

const DEVICE_BYTES: u64 = 0x1000;

const REGISTER_BYTES: u64 = 8;

/// The low 7 bits of an ECALL, of loads and of stores.
const SYSTEM: u32 = 0x73;

const LOAD: u32 = 0x03;

const STORE: u32 = 0x23;

// The five bits of a word from a place on: the number of a register.
fn field(word: u32, place: u32) -> u32
    requires { place < 32 }
    ensures { result < 32 }
{
    (word >> place) & 31
}

/// What is known of a machine before the next event.
#[derive(Clone, Copy)]
pub(crate) struct Known {
    /// The task that makes its Step.
    pub(crate) caller: Option<Caller>,
    timers: [Option<Timer>; TIMER_LIMIT],
}

impl Known {
    /// Nothing is known.
    pub(crate) fn new() -> Known {
        Known {
            caller: None,
            timers: [None; TIMER_LIMIT],
        }
    }
}

// How many arguments a call has (docs/CALLS.md).
fn argument_count(number: u64) -> usize {
    match number {
        1 | 6 | 10 | 33 | 35 | 37 | 38 | 40 | 41 | 43 | 44 | 47 | 49 | 55 => 1,
        7 | 9 | 36 | 39 | 45 | 46 => 2,
        3 | 14 | 34 | 42 | 48 => 3,
        _ => 0,
    }
}

// An answer, so that numbers below 0 are odd.
fn answer_number(answer: u64) -> u64 {
    let negated = answer.wrapping_neg();
    if answer > negated {
        negated.saturating_mul(2).saturating_sub(1)
    } else {
        answer.saturating_mul(2)
    }
}

// How a call is answered at once: 0 where it isn't, 1 where the task changes its stage first, and from 2 on the answer.
fn outcome_number(outcome: Answered) -> u64 {
    match outcome {
        Answered::Waits => 0,
        Answered::Changes => 1,
        Answered::Answers(answer) => answer_number(answer).saturating_add(2),
    }
}

// A call: its number, its outcome and its arguments.
fn put_call<D: Device>(
    row: &mut Vec<u64>,
    machine: &Machine<D>,
    call: &MadeCall,
) -> Result<(), Refused> {
    put(row, &[200, call.number, outcome_number(call.outcome)])?;
    let count = argument_count(call.number);
    put(row, call.arguments.get(..count).unwrap_or(&[]))?;
    put_object(row, machine, call.number, call.arguments[0])
}

// What a semaphore or a flag group has behind a call on it.
fn put_object<D: Device>(
    row: &mut Vec<u64>,
    machine: &Machine<D>,
    number: u64,
    object: u64,
) -> Result<(), Refused> {
    let Ok(object) = u8::try_from(object) else {
        return Ok(());
    };
    let word = match number {
        39..=41 => machine.semaphore(object),
        45 | 46 => machine.flag_group(object),
        _ => None,
    };
    match word {
        Some(word) => put(row, &[201, u64::from(word)]),
        None => Ok(()),
    }
}

// An access of a register of a device.
fn put_access(row: &mut Vec<u64>, code: u64, address: u64, value: u64) -> Result<(), Refused> {
    if address < DEVICES || address >= DEVICES_END {
        return Ok(());
    }
    let place = address - DEVICES;
    put(
        row,
        &[
            code,
            place / DEVICE_BYTES,
            place % DEVICE_BYTES / REGISTER_BYTES,
            value,
        ],
    )
}

// A register by its number.
fn register(hart: &Hart, number: u32) -> u64 {
    match hart.regs.get(number as usize) {
        Some(value) => *value,
        None => 0,
    }
}

// The base of an access and its offset, which has 12 bits with a sign.
fn address_of(hart: &Hart, word: u32, offset: u32) -> u64 {
    let address = register(hart, field(word, 15)).wrapping_add(u64::from(offset));
    if offset < 2_048 {
        address
    } else {
        address.wrapping_sub(4_096)
    }
}

// A load, whose address is known where it is not lost to what was loaded.
fn put_load(row: &mut Vec<u64>, hart: &Hart, word: u32) -> Result<(), Refused> {
    let to = field(word, 7);
    if to == field(word, 15) {
        return Ok(());
    }
    let address = address_of(hart, word, word >> 20);
    put_access(row, 203, address, register(hart, to))
}

fn put_store(row: &mut Vec<u64>, hart: &Hart, word: u32) -> Result<(), Refused> {
    let offset = (word >> 25) * 32 + field(word, 7);
    put_access(
        row,
        202,
        address_of(hart, word, offset),
        register(hart, field(word, 20)),
    )
}

// What an instruction did: a call, or an access of a device.
fn put_instruction<D: Device>(
    row: &mut Vec<u64>,
    machine: &Machine<D>,
    observation: &Observation,
    caller: Caller,
    pc: u64,
) -> Result<(), Refused> {
    let (Some(hart), Some(word)) = (machine.lent_hart(caller.task), instruction_at(machine, pc))
    else {
        return Ok(());
    };
    match word & 0x7f {
        SYSTEM => match call_at(machine, observation, caller, pc) {
            Some(call) => put_call(row, machine, &call),
            None => Ok(()),
        },
        STORE => put_store(row, hart, word),
        LOAD => put_load(row, hart, word),
        _ => Ok(()),
    }
}

fn class_number(class: Class) -> u64 {
    match class {
        Class::Unattached => 0,
        Class::Fifo => 1,
        Class::RoundRobin => 2,
        Class::Weak => 3,
    }
}

// The stage on which a task is ready; that of its calls otherwise.
fn stage_of(state: &TaskState) -> Stage {
    match state {
        TaskState::InReady => Stage::InBand,
        _ => Stage::OutOfBand,
    }
}

/// A task: its processor, stage, rank, class, priority, and where it is.
pub(crate) fn put_task<D: Device>(
    row: &mut Vec<u64>,
    machine: &Machine<D>,
    task: u8,
) -> Result<(), Refused> {
    let (Some(seen), Some(hart)) = (machine.task(task), machine.lent_hart(task)) else {
        return Ok(());
    };
    put(
        row,
        &[
            204,
            u64::from(task),
            u64::from(seen.cpu),
            stage_number(stage_of(&seen.state)),
            u64::from(machine.rank(task)),
            class_number(seen.class),
            u64::from(seen.priority),
            place_number(Some(hart.pc)),
        ],
    )
}

// The tasks that were created.
fn put_created<D: Device>(
    row: &mut Vec<u64>,
    machine: &Machine<D>,
    marks: &[Mark],
) -> Result<(), Refused> {
    for mark in marks {
        if let Mark::Created { task } = mark {
            put_task(row, machine, *task)?;
        }
    }
    Ok(())
}

// A timer that is another than it was.
fn put_timer(
    row: &mut Vec<u64>,
    known: &mut Known,
    number: u8,
    timer: Timer,
) -> Result<(), Refused> {
    let Some(before) = known.timers.get_mut(usize::from(number)) else {
        return Ok(());
    };
    if *before == Some(timer) {
        return Ok(());
    }
    *before = Some(timer);
    put(
        row,
        &[
            205,
            u64::from(number),
            u64::from(timer.cpu),
            timer.due,
            timer.period,
            timer.expiries,
        ],
    )
}

// The timers that changed.
fn put_timers<D: Device>(
    row: &mut Vec<u64>,
    machine: &Machine<D>,
    known: &mut Known,
) -> Result<(), Refused> {
    for number in 0..machine.timer_count() {
        if let Some(timer) = machine.timer(number) {
            put_timer(row, known, number, timer)?;
        }
    }
    Ok(())
}

// What the instruction of a Step did.
fn put_step<D: Device>(
    row: &mut Vec<u64>,
    machine: &Machine<D>,
    observation: &Observation,
    known: &Known,
    item: &Item,
) -> Result<(), Refused> {
    match (known.caller, item.pc) {
        (Some(caller), Some(pc)) => put_instruction(row, machine, observation, caller, pc),
        _ => Ok(()),
    }
}

/// Appends the details of the item that led a walk here.
pub(crate) fn put_details<D: Device>(
    row: &mut Vec<u64>,
    walk: &Walk<D>,
    known: &mut Known,
    item: &Item,
    marks: &[Mark],
) -> Result<(), Refused> {
    if item.quiet {
        return Ok(());
    }
    let machine = walk.machine();
    put_step(row, machine, walk.observation(), known, item)?;
    put_created(row, machine, marks)?;
    put_timers(row, machine, known)
}
