ghost use Rattle.std.specs.Prelude.{◌≡◌, [], ◌∷◌};
ghost use Rattle.evm_model.specs.Event.{event_lent};
ghost use Rattle.evm_shared.specs.EventCounts.{FitWords, counts, kind_counts, none, plus};

use evm_model::{Block, Event};

/// How many Steps, Bells and other events.
#[derive(Clone, Copy, Debug, PartialEq, Eq)]
pub struct EventCounts {
    pub steps: u64,
    pub bells: u64,
    pub others: u64,
}

impl EventCounts {
    /// No event.
    pub fn none() -> EventCounts
        ensures { result ≡ none }
    {
        EventCounts {
            steps: 0,
            bells: 0,
            others: 0,
        }
    }

    /// `count` Steps.
    pub fn steps(count: u32) -> EventCounts
        ensures { result ≡ counts count 0 0 }
    {
        EventCounts {
            steps: u64::from(count),
            ..EventCounts::none()
        }
    }

    /// `count` Bells.
    pub fn bells(count: u32) -> EventCounts
        ensures { result ≡ counts 0 count 0 }
    {
        EventCounts {
            bells: u64::from(count),
            ..EventCounts::none()
        }
    }

    /// One event.
    pub fn one(event: &Event<&Block>) -> EventCounts
        ensures { result ≡ kind_counts (event_lent event.now ∷ []) }
    {
        match event {
            Event::Step(_) => EventCounts::steps(1),
            Event::Bell(_, _) => EventCounts::bells(1),
            Event::Tick
            | Event::Raise(_, _)
            | Event::Stop(_)
            | Event::Go(_)
            | Event::StepI(_)
            | Event::SetReg(_, _, _)
            | Event::SetPc(_, _)
            | Event::Poke(_, _)
            | Event::Break(_)
            | Event::Unbreak(_) => EventCounts {
                others: 1,
                ..EventCounts::none()
            },
        }
    }

    /// The sums of both.
    pub fn plus(self, more: EventCounts) -> EventCounts
        requires { FitWords (plus self more) }
        ensures { result ≡ plus self more }
    {
        EventCounts {
            steps: self.steps + more.steps,
            bells: self.bells + more.bells,
            others: self.others + more.others,
        }
    }
}
