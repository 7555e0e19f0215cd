//! Why a line is not done.

use evm_model::Refusal;

/// Why a line is not done. It has changed nothing.
#[derive(Clone, Copy, Debug, PartialEq, Eq)]
pub enum ScriptStop {
    /// It is outside the grammar of scripts.
    Misspelt,
    /// No machine is booted.
    NotBooted,
    /// A machine is booted already.
    BootedAgain,
    /// The machine refuses it.
    Refused(Refusal),
    /// Memory was refused.
    NoMemory,
}
