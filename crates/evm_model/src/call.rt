ghost use Rattle.std.specs.Prelude.{◌≡◌};
ghost use Rattle.evm_model.specs.Calls.{call_of, call_stage};

use crate::Stage;

/// What a7 asks of a kernel at an ECALL.
#[derive(Clone, Copy, Debug, PartialEq, Eq)]
pub enum Call {
    /// The task ends.
    Exit,
    /// A byte goes to the console.
    Putc,
    /// The task goes behind the others that are ready.
    Yield,
    /// A new task.
    Spawn,
    /// The in-band stage plays nothing until it is unstalled.
    Stall,
    Unstall,
    /// The task waits until a line is played in-band.
    WaitLine,
    /// The task gets a class and a priority for the out-of-band stage.
    Attach,
    /// The task has no class any more.
    Detach,
    /// A new mutex.
    NewMutex,
    /// A new semaphore.
    NewSemaphore,
    /// A new event.
    NewEvent,
    /// A new flag group.
    NewFlags,
    /// A new timer.
    NewTimer,
    /// What is done with a line.
    SetLine,
    /// The task goes out-of-band.
    SwitchOob,
    /// The task goes in-band.
    SwitchInBand,
    /// A task gets another class and priority.
    SetSched,
    /// The task gets other mode bits.
    SetMode,
    /// The task has a mutex, or waits for it.
    Lock,
    /// The task has a mutex, if it need not wait for it.
    TryLock,
    /// The task gives a mutex back.
    Unlock,
    /// The task takes one from a semaphore, or waits for one.
    SemGet,
    /// The task takes one from a semaphore, if it need not wait for it.
    SemTryGet,
    /// One is put into a semaphore.
    SemPut,
    /// The task gives its mutex back and waits for an event, and has the mutex again when it wakes.
    EventWait,
    /// The first task that waits for an event waits no more.
    Signal,
    /// All tasks that wait for an event wait no more.
    Broadcast,
    /// The task takes a flag group's word, or waits for one.
    FlagsWait,
    /// Bits are set in a flag group's word.
    FlagsPost,
    /// The task waits until a tick.
    SleepUntil,
    /// When a timer expires.
    TimerSet,
    /// The task takes a timer's expiries, or waits for one.
    TimerWait,
    /// The task goes behind the others of its rank that are ready out-of-band.
    YieldOob,
    /// The out-of-band stage plays nothing until it is unstalled, and its current task stays.
    StallOob,
    UnstallOob,
    /// The clock.
    Clock,
    /// The task's stage, whether it is attached, and whether its stage is stalled.
    StateBits,
    /// The task goes on another processor.
    Migrate,
}

impl Call {
    /// The call of a number; None where there is none.
    pub fn of_number(number: u64) -> Option<Call>
        ensures { result ≡ call_of number }
    {
        match number {
            0 => Some(Call::Exit),
            1 => Some(Call::Putc),
            2 => Some(Call::Yield),
            3 => Some(Call::Spawn),
            4 => Some(Call::Stall),
            5 => Some(Call::Unstall),
            6 => Some(Call::WaitLine),
            7 => Some(Call::Attach),
            8 => Some(Call::Detach),
            9 => Some(Call::NewMutex),
            10 => Some(Call::NewSemaphore),
            11 => Some(Call::NewEvent),
            12 => Some(Call::NewFlags),
            13 => Some(Call::NewTimer),
            14 => Some(Call::SetLine),
            32 => Some(Call::SwitchOob),
            33 => Some(Call::SwitchInBand),
            34 => Some(Call::SetSched),
            35 => Some(Call::SetMode),
            36 => Some(Call::Lock),
            37 => Some(Call::TryLock),
            38 => Some(Call::Unlock),
            39 => Some(Call::SemGet),
            40 => Some(Call::SemTryGet),
            41 => Some(Call::SemPut),
            42 => Some(Call::EventWait),
            43 => Some(Call::Signal),
            44 => Some(Call::Broadcast),
            45 => Some(Call::FlagsWait),
            46 => Some(Call::FlagsPost),
            47 => Some(Call::SleepUntil),
            48 => Some(Call::TimerSet),
            49 => Some(Call::TimerWait),
            50 => Some(Call::YieldOob),
            51 => Some(Call::StallOob),
            52 => Some(Call::UnstallOob),
            53 => Some(Call::Clock),
            54 => Some(Call::StateBits),
            55 => Some(Call::Migrate),
            _ => None,
        }
    }

    /// The stage that the call is of; None where it is of either.
    pub fn stage(self) -> Option<Stage>
        ensures { result ≡ call_stage self }
    {
        match self {
            Call::Exit
            | Call::Putc
            | Call::Yield
            | Call::Spawn
            | Call::Stall
            | Call::Unstall
            | Call::WaitLine
            | Call::Attach
            | Call::Detach
            | Call::NewMutex
            | Call::NewSemaphore
            | Call::NewEvent
            | Call::NewFlags
            | Call::NewTimer
            | Call::SetLine => Some(Stage::InBand),
            Call::SwitchOob
            | Call::SwitchInBand
            | Call::SetSched
            | Call::SetMode
            | Call::Lock
            | Call::TryLock
            | Call::Unlock
            | Call::SemGet
            | Call::SemTryGet
            | Call::EventWait
            | Call::Signal
            | Call::Broadcast
            | Call::FlagsWait
            | Call::SleepUntil
            | Call::TimerSet
            | Call::TimerWait
            | Call::YieldOob
            | Call::StallOob
            | Call::UnstallOob
            | Call::Migrate => Some(Stage::OutOfBand),
            Call::SemPut | Call::FlagsPost | Call::Clock | Call::StateBits => None,
        }
    }
}

/// What comes of a call.
#[derive(Clone, Copy, Debug, PartialEq, Eq)]
pub enum Outcome {
    /// It is answered: a0 is this, and the pc goes on.
    Returns(u64),
    /// The task waits: the pc goes on, and a0 is set when it wakes.
    Blocks,
    /// The task is gone, its pc unchanged.
    Exits,
}
