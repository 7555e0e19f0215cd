//! The tracks of a trace.

/// A track: what the viewer shows in one row. The numbers are those of processors and tasks.
#[derive(Clone, Copy, Debug, PartialEq, Eq)]
pub enum Track {
    /// The out-of-band stage of a processor: the task that it runs there.
    OutOfBand(u8),
    /// Its in-band stage: the task that it runs there, or that it is idle.
    InBand(u8),
    /// A task: its state.
    Task(u8),
    /// The interrupt lines of a processor.
    Lines(u8),
}
