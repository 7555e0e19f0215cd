//! Which failures are one.

use crate::place::failure_address;
use evm_model::{Errno, NoticeKind};
use hunt_failures::Failure;
use hunt_schedules::{AnyDevice, Machine};

/// The name of an error, as Linux has it.
fn error_name(error: Errno) -> &'static str {
    match error {
        Errno::NotPermitted => "eperm",
        Errno::NoSuchTask => "esrch",
        Errno::TryAgain => "eagain",
        Errno::NoNumber => "enomem",
        Errno::Busy => "ebusy",
        Errno::Invalid => "einval",
        Errno::Deadlock => "edeadlk",
        Errno::NoSuchCall => "enosys",
        Errno::TimedOut => "etimedout",
    }
}

/// The name of the kind of a failure.
pub fn kind_name(failure: Failure) -> &'static str {
    match failure {
        Failure::Ebreak(_) => "ebreak",
        Failure::Fault(_) => "fault",
        Failure::Deadlock => "deadlock",
        Failure::Notice(_, NoticeKind::DemotedByCall) => "notice-1",
        Failure::Notice(_, NoticeKind::DemotedByFault) => "notice-2",
        Failure::Notice(_, NoticeKind::Deadlock) => "notice-3",
        Failure::Notice(_, NoticeKind::NotOwner) => "notice-4",
        Failure::Notice(_, NoticeKind::Overran) => "notice-5",
        Failure::Refused(_, error) => error_name(error),
        Failure::Abandoned(_, _) => "abandoned",
        Failure::Demoted(_) => "demotion",
        Failure::Overrun(_) => "overrun",
        Failure::Lost(_, _) => "lost",
        Failure::Held(_) => "held",
        Failure::KeptBack(_) => "inversion",
        Failure::Stuck(_) => "stuck",
    }
}

/// The kind of a failure and its place: two that have them alike are shown as one.
#[derive(Clone, Copy, Debug, PartialEq, Eq)]
pub struct FailureKey {
    /// The name of the kind.
    pub kind: &'static str,
    /// The address of the instruction.
    pub place: u64,
}

impl FailureKey {
    /// That of a failure of a machine.
    pub fn of(machine: &Machine<AnyDevice>, failure: Failure) -> FailureKey {
        FailureKey {
            kind: kind_name(failure),
            place: failure_address(machine, failure),
        }
    }

    /// Whether a failure is the same.
    pub fn is(&self, other: &FailureKey) -> bool {
        self.place == other.place && self.kind == other.kind
    }
}
