//! What a slice says.

ghost use Rattle.std.specs.Prelude.{◌≡◌};
ghost use Rattle.trace_records.specs.Names.{state_code};

/// What goes on in a track for a while.
#[derive(Clone, Copy, Debug, PartialEq, Eq)]
pub enum State {
    /// A processor runs no task.
    Idle,
    /// A processor runs this task.
    Task(u8),
    /// A task runs.
    Running,
    /// A task could run out-of-band.
    OutOfBand,
    /// A task could run in-band.
    InBand,
    /// A task waits for a line.
    Line(u8),
    /// A task waits for a mutex.
    Mutex(u8),
    /// A task that waited for an event waits for its mutex.
    Retaking(u8),
    /// A task waits for a semaphore.
    Semaphore(u8),
    /// A task waits for an event.
    Event(u8),
    /// A task waits for bits of a flag group.
    Flags(u8),
    /// A task sleeps until a tick.
    Sleep,
    /// A task waits for a timer.
    Timer(u8),
    /// A task has ended.
    Ended,
    /// A task has ended by a fault.
    Faulted,
}

impl State {
    // A number of its own for each state.
    pub(crate) fn code(self) -> u16
        ensures { result ≡ state_code self }
    {
        match self {
            State::Idle => 0,
            State::Running => 1,
            State::OutOfBand => 2,
            State::InBand => 3,
            State::Sleep => 4,
            State::Ended => 5,
            State::Faulted => 6,
            State::Task(task) => 256 + task as u16,
            State::Line(line) => 512 + line as u16,
            State::Mutex(mutex) => 768 + mutex as u16,
            State::Retaking(mutex) => 1_024 + mutex as u16,
            State::Semaphore(semaphore) => 1_280 + semaphore as u16,
            State::Event(event) => 1_536 + event as u16,
            State::Flags(group) => 1_792 + group as u16,
            State::Timer(timer) => 2_048 + timer as u16,
        }
    }
}
