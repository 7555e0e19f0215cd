/// How often a line came to a stage of a processor.
#[derive(Clone, Copy, Debug, PartialEq, Eq)]
pub struct Passage {
    /// It was put into the stage's log.
    pub arrivals: u64,
    /// It was in the log already.
    pub merged: u64,
    /// It was played.
    pub played: u64,
}

/// How often what happened to a line of a processor.
#[derive(Clone, Copy, Debug, PartialEq, Eq)]
pub struct Counts {
    /// It was raised.
    pub raised: u64,
    /// It was raised while it was on the wire.
    pub merged: u64,
    /// It was received from the wire.
    pub received: u64,
    pub oob: Passage,
    pub in_band: Passage,
}
