//! Failures, and what is looked up for them.

ghost use Rattle.std.specs.Prelude.{◌≡◌};
ghost use Rattle.evm_model.specs.Current.{current};
ghost use Rattle.evm_model.specs.Mutexes.{owner};

use evm_core::Machine;
use evm_devs::AnyDevice;
use evm_model::{Errno, NoticeKind};

/// What has failed.
#[derive(Clone, Copy, Debug, PartialEq, Eq)]
pub enum Failure {
    /// This processor stopped at EBREAK.
    Ebreak(u8),
    /// This task ended by a fault.
    Fault(u8),
    /// A task waits, and none can run again.
    Deadlock,
    /// The health monitor keeps a notice of this kind for this task.
    Notice(u8, NoticeKind),
    /// A call of this task was refused with this error.
    Refused(u8, Errno),
    /// This task ended while it had this mutex, which another task has now.
    Abandoned(u8, u8),
    /// This task went in-band, though its next instruction was no call by which a task does so itself.
    Demoted(u8),
    /// A wait of this task for a timer was answered with more than one expiry.
    Overrun(u8),
    /// On this processor this line was played in-band, and no task waited for it.
    Lost(u8, u8),
    /// This mutex has had its owner for too many ticks.
    Held(u8),
    /// This task was kept from running for too many steps while one of a lower rank ran.
    KeptBack(u8),
    /// This task did not run for too many rounds while others did.
    Stuck(u8),
}

/// The task that a processor runs.
pub fn current(machine: &Machine<AnyDevice>, cpu: u8) -> Option<u8>
    ensures { result ≡ current cpu machine.now.board.parts }
{
    match machine.cpu(cpu) {
        Some(processor) => processor.current,
        None => None,
    }
}

/// The owner of a mutex.
pub fn owner_of(machine: &Machine<AnyDevice>, m: u8) -> Option<u8>
    ensures { result ≡ owner machine.now.board.parts.mutexes m }
{
    match machine.mutex(m) {
        None => None,
        Some(mutex) => mutex.owner,
    }
}
