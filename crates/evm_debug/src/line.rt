use evm_model::{Boot, Event};

/// A view.
#[derive(Clone, Copy, Debug, PartialEq, Eq)]
pub enum View {
    /// `regs C`: the registers of a processor's current task.
    Regs(u8),
    /// `mem A N`: N bytes from an address on. Any number below 2^64 is grammatical.
    Mem(u64, u64),
    /// `stages C`: the stages of a processor, and what waits on them.
    Stages(u8),
    /// `tasks`: the tasks.
    Tasks,
    /// `owners`: who owns each mutex, and how often it is locked.
    Owners,
    /// `rank T`: a task's rank, with what others that it keeps waiting give it.
    Rank(u8),
    /// `notices`: the notices of the health monitor, the last 64 of them, and how many there were.
    Notices,
    /// `counts C L`: the counts of a processor's line.
    Counts(u8, u8),
    /// `journal`: the journal's text.
    Journal,
    /// `console`: the bytes that were put to the console, the last 4,096 of them.
    Console,
    /// `words I`: the words of a device.
    Words(u8),
}

/// A line of a script.
#[derive(Clone, Debug, PartialEq, Eq, Drop)]
pub enum Line {
    /// An empty line, or one that begins with `#`.
    Blank,
    /// `boot P RAM CAP` or `boot P RAM CAP W`: a machine of the newest profile with as many processors, bytes of RAM
    /// and events of the journal, and a watchdog of W ticks; where W is 0 or absent there is none. Any numbers below 2^64
    /// are grammatical.
    Boot(Boot),
    /// `step C N`: a processor takes 1 to 1048576 steps.
    Steps(u8, u32),
    /// Any other event.
    One(Event),
    /// A view.
    Show(View),
}

/// The line is outside the grammar.
#[derive(Clone, Copy, Debug, PartialEq, Eq)]
pub struct Bad;
