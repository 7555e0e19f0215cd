//! Branches: what a schedule does before it goes on with one processor.

ghost use Rattle.std.specs.Prelude.{◌≡◌, [], IfSome};
ghost use Rattle.evm_model.specs.Event.{short_event};
ghost use Rattle.hunt_schedules.specs.Branches.{event_of_choice, forked};
ghost use Rattle.hunt_schedules.specs.Schedules.{stepped};

use arrayvec::ArrayVec;
use evm_model::{Event, NoBytes};

/// The most switches of a schedule.
pub const SWITCH_LIMIT: usize = 16;

/// What a schedule does in place of a step of the processor that stepped last.
#[derive(Clone, Copy, Debug, PartialEq, Eq, Default)]
pub enum Choice {
    /// A step of this processor.
    Step(u8),
    /// A tick.
    #[default]
    Tick,
    /// A raise on this processor of this line.
    Raise(u8, u8),
}

impl Choice {
    /// The event.
    pub fn event(self) -> Event<NoBytes>
        ensures { short_event result ≡ event_of_choice self }
    {
        match self {
            Choice::Step(cpu) => Event::Step(cpu),
            Choice::Tick => Event::Tick,
            Choice::Raise(cpu, line) => Event::Raise(cpu, line),
        }
    }

    // The processor that has stepped last behind it, where one stepped last before.
    fn stepped(self, before: u8) -> u8
        ensures { result ≡ stepped before (event_of_choice self) }
    {
        match self {
            Choice::Step(cpu) => cpu,
            Choice::Tick | Choice::Raise(_, _) => before,
        }
    }
}

/// Steps of one processor, and then a switch.
#[derive(Clone, Copy, Debug, PartialEq, Eq, Default)]
pub struct CpuTurn {
    /// The processor.
    pub cpu: u8,
    /// How many steps.
    pub steps: u32,
    /// The switch.
    pub choice: Choice,
}

/// A schedule that begins with some turns, and then goes on with a processor.
#[derive(Debug, Drop)]
pub struct Branch {
    /// The turns.
    pub turns: ArrayVec<CpuTurn, SWITCH_LIMIT>,
    /// The processor that stepped last.
    pub cpu: u8,
}

impl Branch {
    /// The one that goes on with processor 0 from the first state.
    pub fn root() -> Branch
        ensures { result ≡ record { turns = record { items = [] }; cpu = 0 } }
    {
        Branch {
            turns: ArrayVec::new(),
            cpu: 0,
        }
    }

    /// The same branch once more.
    pub fn copied(&self) -> Branch
        ensures { result ≡ self.now }
    {
        let mut turns = ArrayVec::new();
        let _ = turns.try_extend_from_slice(self.turns.as_slice());
        Branch {
            turns,
            cpu: self.cpu,
        }
    }

    /// The one that goes another way behind some steps; None if there are as many turns as there may be.
    pub(crate) fn forked(&self, steps: u32, choice: Choice) -> Option<Branch>
        ensures { IfSome result (λ branch. branch ≡ forked self.now steps choice) }
    {
        let mut branch = self.copied();
        let turn = CpuTurn {
            cpu: self.cpu,
            steps,
            choice,
        };
        branch.cpu = choice.stepped(self.cpu);
        match branch.turns.try_push(turn) {
            Ok(()) => Some(branch),
            Err(_) => None,
        }
    }
}
