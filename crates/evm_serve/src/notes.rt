//! What is noted as lines are done: the Steps that did nothing, and the last call of each task.

ghost use Rattle.std.specs.Prelude.{◌≡◌, ◌+◌, ◌<◌, ◌^◌, IfOk, slice_get};
ghost use Rattle.evm_serve.specs.Noted.{with_answer, last_call, made, no_notes, noted_ahead, noted_by, noted_step, line_begun};

use evm_model::{Answer, TASK_LIMIT};
use evm_room::NoMemory;
use std::alloc::Global;
use std::marker::Model;

/// A call that a task has made.
#[derive(Clone, Copy, Debug, PartialEq, Eq)]
pub struct LastCall {
    /// Its number.
    pub number: u64,
    /// What it returned, once the task has gone on behind it: what a0 held then.
    pub answer: Option<u64>,
}

/// The instruction that a task comes to next.
#[derive(Clone, Copy, Debug)]
pub(crate) struct Ahead {
    pub(crate) task: u8,
    /// What a0 holds.
    pub(crate) a0: u64,
    /// The number of the call, if the instruction is an ECALL.
    pub(crate) call: Option<u64>,
}

/// What is noted as lines are done.
#[derive(Debug, Drop)]
pub struct Notes {
    swallowed: u32,
    calls: Vec<Option<LastCall>>,
}

impl Model for Notes {
    ghost use Rattle.evm_serve.specs.Notes.{Noted};

    ghost Value = { Noted };

    ghost view = { λ notes. record { swallowed = notes.swallowed; calls = notes.calls.items } };
}

impl Notes {
    /// No task has made a call yet.
    ///
    /// # Errors
    ///
    /// Memory was refused.
    pub fn new(alloc: Global) -> Result<Notes, NoMemory>
        ensures { IfOk result (λ notes. notes ≡ no_notes) }
    {
        match Vec::from_slice(alloc, &[None; TASK_LIMIT]) {
            Ok(calls) => Ok(Notes {
                swallowed: 0,
                calls,
            }),
            Err(_) => Err(NoMemory),
        }
    }

    /// The Steps of the last line that had no effect because their processor was stopped.
    pub fn swallowed(&self) -> u32
        ensures { result ≡ self.now.swallowed }
    {
        self.swallowed
    }

    /// The last call of a task, 0 to 63. `None` if it has made none.
    pub fn last_call(&self, t: u8) -> Option<LastCall>
        ensures { result ≡ last_call (slice_get self.now.calls t) }
    {
        match self.calls.get(usize::from(t)) {
            Some(call) => *call,
            None => None,
        }
    }

    /// A line begins.
    pub(crate) fn begin(&mut self)
        ensures { self.new ≡ line_begun self.old }
    {
        self.swallowed = 0;
    }

    // The last call of a task is this one.
    fn put(&mut self, t: u8, call: LastCall)
        ensures { self.new ≡ made t call self.old }
    {
        if let Some(last) = self.calls.get_mut(usize::from(t)) {
            *last = Some(call);
        }
    }

    // A task goes on: what a0 holds is the answer of its last call, if it has none yet.
    fn answer(&mut self, ahead: &Ahead)
        ensures { self.new ≡ with_answer ahead.now self.old }
    {
        let Some(call) = self.last_call(ahead.task) else {
            return;
        };
        if call.answer.is_none() {
            let answer = Some(ahead.a0);
            self.put(ahead.task, LastCall { answer, ..call });
        }
    }

    // A task does its next instruction.
    fn note(&mut self, ahead: &Ahead)
        ensures { self.new ≡ noted_by ahead.now self.old }
    {
        self.answer(ahead);
        if let Some(number) = ahead.call {
            let answer = None;
            self.put(ahead.task, LastCall { number, answer });
        }
    }

    /// A task does its next instruction, if this is one.
    pub(crate) fn note_ahead(&mut self, ahead: Option<Ahead>)
        ensures { self.new ≡ noted_ahead ahead self.old }
    {
        if let Some(ahead) = ahead {
            self.note(&ahead);
        }
    }

    /// A Step of a processor, of which this instruction was next, has answered so.
    pub(crate) fn note_step(&mut self, answer: Answer, ahead: Option<Ahead>)
        requires { self.old.swallowed + 1 < 2 ^ 32 }
        ensures { self.new ≡ noted_step answer ahead self.old }
    {
        match answer {
            Answer::Stopped => self.swallowed += 1,
            Answer::Ran(_) => self.note_ahead(ahead),
            Answer::Received(_) | Answer::Idle | Answer::Hit | Answer::Done => {}
        }
    }
}
