//! The calls of a run: what a Step asked for, and how it was answered.

ghost use Rattle.std.specs.Prelude.{◌≡◌, IfSome, Option};
ghost use Rattle.evm_model.specs.Current.{current};

use evm_dev::Device;
use evm_exec::Hart;
use evm_journal::Machine;
use evm_model::{TaskState, Wait};
use run_marks::{Mark, Observation, equal_waits};

/// The registers of a call: its number, and its first argument, in whose place its answer comes.
const NUMBER: usize = 17;

const ARGUMENT: usize = 10;

/// The word of an ECALL.
pub(crate) const ECALL: u32 = 0x73;

/// Answers from here on are numbers below 0: errnos.
const NEGATIVE: u64 = 1 << 63;

/// The task that a processor runs, and the first argument that a call of it would have.
#[derive(Clone, Copy)]
pub struct Caller {
    pub task: u8,
    pub argument: u64,
}

/// How a call was answered by its Step.
#[derive(Clone, Copy, PartialEq, Eq)]
pub enum Answered {
    /// Its task waits.
    Waits,
    /// Its task changes its stage first, and makes it anew.
    Changes,
    /// It has this answer.
    Answers(u64),
}

/// A call that a Step made.
#[derive(Clone, Copy)]
pub struct MadeCall {
    pub number: u64,
    pub arguments: [u64; 3],
    pub outcome: Answered,
}

/// The task that a processor runs, as it is before its next Step.
pub(crate) fn caller_of<D: Device>(machine: &Machine<D>, cpu: u8) -> Option<Caller>
    ensures { IfSome result (λ caller. current cpu machine.now.board.parts ≡ Option.Some caller.task) }
{
    let task = machine.cpu(cpu)?.current?;
    let argument = machine.lent_hart(task)?.regs[ARGUMENT];
    Some(Caller { task, argument })
}

/// The word of memory at an address.
pub fn instruction_at<D: Device>(machine: &Machine<D>, address: u64) -> Option<u32> {
    match machine.bytes(address, 4)? {
        [a, b, c, d] => Some(u32::from_le_bytes([*a, *b, *c, *d])),
        _ => None,
    }
}

// Whether a task waits.
fn is_waiting(observation: &Observation, task: u8) -> bool {
    match observation.tasks.get(usize::from(task)) {
        Some(task) => match task.state {
            TaskState::Waits(_) => true,
            _ => false,
        },
        None => false,
    }
}

fn outcome_of(observation: &Observation, task: u8, hart: &Hart, pc: u64) -> Answered {
    if hart.pc == pc {
        Answered::Changes
    } else if is_waiting(observation, task) {
        Answered::Waits
    } else {
        Answered::Answers(hart.regs[ARGUMENT])
    }
}

/// The call that a task made by the instruction at an address, seen behind it; None where that is no ECALL.
pub fn call_at<D: Device>(
    machine: &Machine<D>,
    observation: &Observation,
    caller: Caller,
    pc: u64,
) -> Option<MadeCall> {
    if instruction_at(machine, pc)? != ECALL {
        return None;
    }
    let hart = machine.lent_hart(caller.task)?;
    Some(MadeCall {
        number: hart.regs[NUMBER],
        arguments: [
            caller.argument,
            hart.regs[ARGUMENT + 1],
            hart.regs[ARGUMENT + 2],
        ],
        outcome: outcome_of(observation, caller.task, hart, pc),
    })
}

// The object whose waiters a call is there to wake: that of a put, a signal, a broadcast or a post.
fn object_of(call: &MadeCall) -> Option<Wait> {
    let Ok(object) = u8::try_from(call.arguments[0]) else {
        return None;
    };
    match call.number {
        41 => Some(Wait::Semaphore(object)),
        43 | 44 => Some(Wait::Event(object)),
        46 => Some(Wait::Flags(object)),
        _ => None,
    }
}

fn wakes(marks: &[Mark], object: Wait) -> bool {
    for mark in marks {
        if let Mark::Woken { wait, .. } = mark {
            if equal_waits(*wait, object) {
                return true;
            }
        }
    }
    false
}

/// The object of a put, signal, broadcast or post that was accepted and woke no task; None of other calls.
pub fn wasted(call: &MadeCall, marks: &[Mark]) -> Option<Wait> {
    let object = object_of(call)?;
    match call.outcome {
        Answered::Answers(answer) if answer < NEGATIVE && !wakes(marks, object) => Some(object),
        _ => None,
    }
}
