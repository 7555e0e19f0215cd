use evm_lines::LineSet;
use evm_model::StageLog;

/// The interrupts of a processor, without their counts.
#[derive(Clone, Copy, Debug)]
pub struct Stages {
    /// The log of the out-of-band stage.
    pub oob: StageLog,
    /// The log of the in-band stage.
    pub in_band: StageLog,
    /// The lines that were raised and not yet received.
    pub wire: LineSet,
}
