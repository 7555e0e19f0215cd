use crate::{Fault, Mode};

/// How a task is scheduled out-of-band (EVL, "Scheduling policies").
#[derive(Clone, Copy, Debug, PartialEq, Eq)]
pub enum Class {
    /// It isn't attached to the EVL core.
    Unattached,
    Fifo,
    RoundRobin,
    Weak,
}

/// What a task waits for.
#[derive(Clone, Copy, Debug, PartialEq, Eq)]
pub enum Wait {
    /// In-band, for an interrupt line.
    Line(u8),
    Lock(u8),
    /// For a mutex, after an event; when it has the mutex, its call is answered with this.
    Reacquire { mutex: u8, answer: u64 },
    Semaphore(u8),
    Event(u8),
    Flags(u8),
    Sleep,
    Timer(u8),
}

/// Where a task is: ready on a stage, waiting, or ended.
#[derive(Clone, Copy, Debug, PartialEq, Eq)]
pub enum TaskState {
    InReady,
    OobReady,
    Waits(Wait),
    Exit,
    /// It ended by a fault.
    Faulted(Fault),
}

/// What the scheduler knows of a task; its registers stand apart.
#[derive(Clone, Copy, Debug)]
pub struct Task {
    /// The number of its processor.
    pub cpu: u8,
    pub class: Class,
    /// 1 to 99, 0 to 99 for weak tasks, 0 for unattached ones.
    pub priority: u8,
    /// How many ticks it still has where it is of the round-robin class.
    pub slice: u8,
    pub mode: Mode,
    /// Of two tasks of one rank the one with the lesser stamp goes first.
    pub stamp: u64,
    /// The tick at which its wait ends, 0 where it has no end.
    pub deadline: u64,
    pub state: TaskState,
}

impl Default for Task {
    /// An unattached in-band task of processor 0.
    fn default() -> Self {
        Task {
            cpu: 0,
            class: Class::Unattached,
            priority: 0,
            slice: 0,
            mode: Mode { bits: 0 },
            stamp: 0,
            deadline: 0,
            state: TaskState::InReady,
        }
    }
}
