//! Where tasks are in the program.

/// What a task does at a place of the program.
#[derive(Clone, Copy, Debug, PartialEq, Eq)]
pub enum Doing {
    /// It is created: the place is its entry.
    Begins,
    /// A processor begins to run it here.
    Runs,
    /// It begins to wait here.
    Waits,
    /// It becomes the owner of this mutex here.
    Locks(u8),
}

/// A place of the program, and what a task does there.
#[derive(Clone, Copy, Debug, PartialEq, Eq)]
pub struct CodePlace {
    pub task: u8,
    /// The tick of the trace's clock.
    pub at: u64,
    pub doing: Doing,
    pub address: u64,
}
