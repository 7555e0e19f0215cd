//! What `until` waits for.

use crate::answers::is_behind_call;
use crate::errno::errno_name;
use crate::numbers::{address_of, number_of};
use crate::words::split_word;
use evm_model::TaskState;
use evm_serve::{AnyDevice, Machine};
use text_symbols::Names;

/// A state of a task, in one word.
#[derive(Clone, Copy, Debug, PartialEq, Eq)]
pub enum StateWord {
    InReady,
    OobReady,
    Waits,
    Exit,
    Fault,
}

/// A condition on a machine.
#[derive(Clone, Copy, Debug)]
pub enum Condition {
    /// A processor's task is at this pc.
    At(u64),
    /// A mutex is owned by a task.
    Owner(u64, u64),
    /// A task is in a state.
    State(u64, StateWord),
    /// The call that a task is behind was answered with an errno.
    Errno(u64),
}

fn state_word(word: &str) -> Option<StateWord> {
    match word {
        "in-ready" => Some(StateWord::InReady),
        "oob-ready" => Some(StateWord::OobReady),
        "waits" => Some(StateWord::Waits),
        "exit" => Some(StateWord::Exit),
        "fault" => Some(StateWord::Fault),
        _ => None,
    }
}

fn is_state(word: StateWord, state: TaskState) -> bool {
    match (word, state) {
        (StateWord::InReady, TaskState::InReady)
        | (StateWord::OobReady, TaskState::OobReady)
        | (StateWord::Waits, TaskState::Waits(_))
        | (StateWord::Exit, TaskState::Exit)
        | (StateWord::Fault, TaskState::Faulted(_)) => true,
        _ => false,
    }
}

/// The condition of some words: `ADDRESS`, `owner M T`, `state T S` or `errno T`.
pub fn condition_of(names: &Names, text: &str) -> Option<Condition> {
    let (first, rest) = split_word(text);
    let (second, rest) = split_word(rest);
    let (third, rest) = split_word(rest);
    if !rest.is_empty() {
        return None;
    }
    match first {
        "owner" => Some(Condition::Owner(number_of(second)?, number_of(third)?)),
        "state" => Some(Condition::State(number_of(second)?, state_word(third)?)),
        "errno" if third.is_empty() => Some(Condition::Errno(number_of(second)?)),
        _ if second.is_empty() => Some(Condition::At(address_of(&names.symbols, first)?)),
        _ => None,
    }
}

fn is_at(machine: &Machine<AnyDevice>, address: u64) -> bool {
    for c in 0..machine.cpu_count() {
        if let Some(processor) = machine.cpu(c)
            && let Some(t) = processor.current
            && let Some(hart) = machine.hart(t)
            && hart.pc == address
        {
            return true;
        }
    }
    false
}

fn has_owner(machine: &Machine<AnyDevice>, m: u64, t: u64) -> bool {
    if m > 255 {
        return false;
    }
    match machine.mutex(m as u8) {
        Some(mutex) => mutex.owner.map(u64::from) == Some(t),
        None => false,
    }
}

fn has_state(machine: &Machine<AnyDevice>, t: u64, word: StateWord) -> bool {
    if t > 255 {
        return false;
    }
    match machine.task(t as u8) {
        Some(task) => is_state(word, task.state),
        None => false,
    }
}

fn has_errno(machine: &Machine<AnyDevice>, t: u64) -> bool {
    if t > 255 {
        return false;
    }
    let Some(task) = machine.task(t as u8) else {
        return false;
    };
    if matches!(task.state, TaskState::Waits(_)) {
        return false;
    }
    match machine.hart(t as u8) {
        Some(hart) => is_behind_call(machine, &hart) && errno_name(hart.regs[10]).is_some(),
        None => false,
    }
}

/// Whether a condition holds of a machine.
pub fn holds(condition: Condition, machine: &Machine<AnyDevice>) -> bool {
    match condition {
        Condition::At(address) => is_at(machine, address),
        Condition::Owner(m, t) => has_owner(machine, m, t),
        Condition::State(t, word) => has_state(machine, t, word),
        Condition::Errno(t) => has_errno(machine, t),
    }
}
