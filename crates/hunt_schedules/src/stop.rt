//! Why a hunt ends early.

use crate::beginning::BeginFault;
use evm_room::NoMemory;

/// Why a hunt ends early.
#[derive(Clone, Copy, Debug, PartialEq, Eq)]
pub enum HuntStop {
    /// Memory was refused.
    NoMemory,
    /// No machine boots with the image.
    NoMachine(BeginFault),
}

impl From<NoMemory> for HuntStop {
    fn from(_fault: NoMemory) -> HuntStop {
        HuntStop::NoMemory
    }
}

impl From<BeginFault> for HuntStop {
    fn from(fault: BeginFault) -> HuntStop {
        match fault {
            BeginFault::NoMemory => HuntStop::NoMemory,
            BeginFault::BadSize | BeginFault::PastRam => HuntStop::NoMachine(fault),
        }
    }
}
