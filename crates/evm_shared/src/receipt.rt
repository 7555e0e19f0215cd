ghost use Rattle.std.specs.Prelude.{◌≡◌, ◌↔◌, ◌<◌, ◌≤◌, true, false, length};
ghost use Rattle.evm_lines.specs.declared.TheConstants.{LINES};
ghost use Rattle.evm_shared.specs.Receipts.{CanBeMade, IsBefore, bells_below, made_events};

use evm_lines::LINES;
use evm_model::Event;

/// What a call made.
#[derive(Clone, Debug, PartialEq, Eq, Drop)]
pub enum Made {
    /// A commit: its Steps of a processor.
    Steps(u8, u32),
    /// A deliver: a Bell of a processor for each line whose bit is set, in rising order.
    Bells(u8, u64),
    /// A tick or a command.
    One(Event),
}

/// A call that was accepted.
#[derive(Clone, Debug, PartialEq, Eq, Drop)]
pub struct Receipt {
    /// The position of its first event in the journal; the oldest event is at 0.
    pub position: u64,
    pub made: Made,
}

// How many lines have their bit set.
fn bell_count(cpu: u8, word: u64) -> u32
    ensures { result ≡ length (bells_below cpu word LINES) }
{
    let mut count = 0;
    for line in 0..LINES {
        if (word >> line) & 1 == 1 {
            count += 1;
        }
    }
    count
}

impl Made {
    /// How many events.
    pub(crate) fn event_count(&self) -> u32
        ensures { result ≡ length (made_events self.now) }
    {
        match self {
            Made::Steps(_, count) => *count,
            Made::Bells(cpu, word) => bell_count(*cpu, *word),
            Made::One(_) => 1,
        }
    }

    /// Whether a call can make it: a commit makes a Step at least.
    pub(crate) fn can_be_made(&self) -> bool
        ensures { (result ≡ true) ↔ CanBeMade self.now }
    {
        match self {
            Made::Steps(_, count) => *count != 0,
            Made::Bells(_, _) | Made::One(_) => true,
        }
    }
}

impl Receipt {
    /// Whether each of its positions is below each of another.
    pub(crate) fn is_before(&self, later: &Receipt) -> bool
        ensures { (result ≡ true) ↔ IsBefore self.now later.now }
    {
        let count = u64::from(self.made.event_count());
        if count == 0 {
            return true;
        }
        if later.made.event_count() == 0 {
            return true;
        }
        if later.position < self.position {
            return false;
        }
        later.position - self.position >= count
    }
}
