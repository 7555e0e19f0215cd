use evm_lines::LineSet;

/// The two stages of a processor: out-of-band goes before in-band (Dovetail, "Interrupt pipeline").
#[derive(Clone, Copy, Debug, PartialEq, Eq)]
pub enum Stage {
    OutOfBand,
    InBand,
}

/// What one stage of a processor keeps of its interrupts.
#[derive(Clone, Copy, Debug)]
pub struct StageLog {
    /// A stalled stage plays nothing.
    pub stalled: bool,
    /// The lines that wait to be played.
    pub lines: LineSet,
}
