//! Why a source has no program.

use evm_asm_parser::SourceFault;
use evm_room::Refused;

/// A growth was refused in a line.
#[derive(Drop)]
pub struct Shortage {
    pub line: u64,
    pub refused: Refused,
}

/// Why a source has no program: it has a fault, or memory ran out.
#[derive(Drop)]
pub enum AssemblyFailure {
    Fault(SourceFault),
    Memory(Shortage),
}
