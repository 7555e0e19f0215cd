//! What a hunt looks for.

ghost use Rattle.std.specs.Prelude.{◌≡◌};
ghost use Rattle.hunt_failures.specs.Failures.{error_in, has_kind, looks_at_calls};

use evm_lines::LineSet;
use evm_model::{Errno, NoticeKind};

/// Which errors of calls are looked for.
#[derive(Clone, Copy, Debug, PartialEq, Eq)]
pub struct Errors {
    /// -1.
    pub eperm: bool,
    /// -3.
    pub esrch: bool,
    /// -11.
    pub eagain: bool,
    /// -12.
    pub enomem: bool,
    /// -16.
    pub ebusy: bool,
    /// -22.
    pub einval: bool,
    /// -35.
    pub edeadlk: bool,
    /// -38.
    pub enosys: bool,
    /// -110.
    pub etimedout: bool,
}

impl Errors {
    /// None of them.
    pub fn none() -> Errors {
        Errors {
            eperm: false,
            esrch: false,
            eagain: false,
            enomem: false,
            ebusy: false,
            einval: false,
            edeadlk: false,
            enosys: false,
            etimedout: false,
        }
    }

    /// Whether an error is looked for.
    pub fn contains(&self, error: Errno) -> bool
        ensures { result ≡ error_in self.now error }
    {
        match error {
            Errno::NotPermitted => self.eperm,
            Errno::NoSuchTask => self.esrch,
            Errno::TryAgain => self.eagain,
            Errno::NoNumber => self.enomem,
            Errno::Busy => self.ebusy,
            Errno::Invalid => self.einval,
            Errno::Deadlock => self.edeadlk,
            Errno::NoSuchCall => self.enosys,
            Errno::TimedOut => self.etimedout,
        }
    }
}

/// A task of a greater rank that is kept from running while one of a lower rank runs.
#[derive(Clone, Copy, Debug, PartialEq, Eq)]
pub struct Inversion {
    /// Tasks of a greater rank than this are looked at.
    pub rank: u16,
    /// For how many steps one may be kept back.
    pub steps: u32,
}

/// Which failures end a run, and which lines come from outside.
#[derive(Clone, Copy, Debug)]
pub struct Wanted {
    /// A processor that stops at EBREAK.
    pub ebreak: bool,
    /// A task that ends by a fault.
    pub fault: bool,
    /// Tasks that wait for one another.
    pub deadlock: bool,
    /// A notice that a call demoted a task.
    pub demoted_by_call: bool,
    /// A notice that a fault demoted a task.
    pub demoted_by_fault: bool,
    /// A notice that a lock would never end.
    pub never_ends: bool,
    /// A notice that a task unlocked a mutex of another.
    pub not_owner: bool,
    /// A notice that the watchdog demoted a task.
    pub watchdog: bool,
    /// Calls that are refused with one of these errors.
    pub errors: Option<Errors>,
    /// A mutex whose owner ends and that passes on to another task.
    pub abandoned: bool,
    /// A task that goes in-band other than by a call for that.
    pub demotion: bool,
    /// A wait for a timer that is answered with more than one expiry.
    pub overrun: bool,
    /// A line that is played though no task waits for it.
    pub lost: bool,
    /// A mutex that one task has for more than this number of ticks.
    pub held: Option<u64>,
    /// A task that is kept back by one of a lower rank.
    pub inversion: Option<Inversion>,
    /// A task that does not run for more than this number of rounds while others do. A round is over when each processor that can step has
    /// done so.
    pub stuck: Option<u32>,
    /// The lines that a schedule may raise.
    pub lines: LineSet,
}

impl Wanted {
    /// An EBREAK, a fault and a deadlock, with these lines.
    pub fn usual(lines: LineSet) -> Wanted {
        Wanted {
            ebreak: true,
            fault: true,
            deadlock: true,
            ..Wanted::nothing(lines)
        }
    }

    /// Nothing, with these lines.
    pub fn nothing(lines: LineSet) -> Wanted {
        Wanted {
            ebreak: false,
            fault: false,
            deadlock: false,
            demoted_by_call: false,
            demoted_by_fault: false,
            never_ends: false,
            not_owner: false,
            watchdog: false,
            errors: None,
            abandoned: false,
            demotion: false,
            overrun: false,
            lost: false,
            held: None,
            inversion: None,
            stuck: None,
            lines,
        }
    }

    /// Whether an event and the states on both sides of it show all that is looked for: for how long a mutex is held, or a task is kept back
    /// or does not run, they don't.
    pub fn looks_at_states(&self) -> bool {
        self.held.is_none() && self.inversion.is_none() && self.stuck.is_none()
    }

    /// Whether the calls that tasks make are looked at.
    pub(crate) fn looks_at_calls(&self) -> bool
        ensures { result ≡ looks_at_calls self.now }
    {
        self.errors.is_some() || self.overrun
    }

    /// Whether a notice of a kind ends a run.
    pub fn notices(&self, kind: NoticeKind) -> bool
        ensures { result ≡ has_kind self.now kind }
    {
        match kind {
            NoticeKind::DemotedByCall => self.demoted_by_call,
            NoticeKind::DemotedByFault => self.demoted_by_fault,
            NoticeKind::Deadlock => self.never_ends,
            NoticeKind::NotOwner => self.not_owner,
            NoticeKind::Overran => self.watchdog,
        }
    }
}
