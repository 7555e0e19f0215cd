use evm_model::{Fault, NoticeKind, Stage, Wait};

/// One thing that differs between two looks at a machine. Numbers of processors, lines, tasks and mutexes are the machine's.
#[derive(Clone, Copy, Debug, PartialEq, Eq)]
pub enum Mark {
    /// A processor runs this task on this stage; before it ran another, or on the other stage.
    Runs {
        cpu: u8,
        task: u8,
        stage: Stage,
    },
    /// A processor runs no task; before it ran one.
    Idles {
        cpu: u8,
    },
    /// The debugger's stop of a processor is on, or off again.
    Stop {
        cpu: u8,
        on: bool,
    },
    /// A stage of a processor is stalled, or no more.
    Stall {
        cpu: u8,
        stage: Stage,
        on: bool,
    },
    /// A line was raised on a processor, this often.
    Raised {
        cpu: u8,
        line: u8,
        times: u64,
    },
    /// A line was received from the wire, this often.
    Received {
        cpu: u8,
        line: u8,
        times: u64,
    },
    /// A line was played on a stage, this often.
    Played {
        cpu: u8,
        stage: Stage,
        line: u8,
        times: u64,
    },
    /// There is this task; before there was none of this number.
    Created {
        task: u8,
    },
    /// A task waits for this; before it did not.
    Waits {
        task: u8,
        wait: Wait,
    },
    /// A task waits for this no more.
    Woken {
        task: u8,
        wait: Wait,
    },
    /// A wait until this tick ended, which had come.
    Deadline {
        task: u8,
        tick: u64,
    },
    /// A task is of this processor, and was of another.
    Migrates {
        task: u8,
        cpu: u8,
    },
    /// A task is on this stage, and was on the other.
    Moves {
        task: u8,
        stage: Stage,
    },
    /// A task has another rank.
    Rank {
        task: u8,
        from: u16,
        to: u16,
    },
    /// A task has ended, by a call.
    Ended {
        task: u8,
    },
    /// A task has ended, by a fault.
    Faulted {
        task: u8,
        fault: Fault,
    },
    /// A mutex has another owner.
    Owner {
        mutex: u8,
        from: Option<u8>,
        to: Option<u8>,
    },
    /// The clock ticked, this often.
    Ticked {
        times: u64,
    },
    /// The health monitor made notices, this many, the last of this kind for this task.
    Notice {
        kind: NoticeKind,
        task: u8,
        times: u64,
    },
}
