/// What a notice tells. A task asks for the first four by its mode bits (EVL, "Health monitoring").
#[derive(Clone, Copy, Debug, PartialEq, Eq)]
pub enum NoticeKind {
    /// A call of the other stage demoted the task.
    DemotedByCall,
    /// A fault demoted the task.
    DemotedByFault,
    /// A lock was refused as it would never end.
    Deadlock,
    /// An unlock was refused, as the task does not own the mutex.
    NotOwner,
    /// The watchdog demoted the task, which was current out-of-band for too many ticks in a row.
    Overran,
}

/// A notice of the health monitor.
#[derive(Clone, Copy, Debug, PartialEq, Eq)]
pub struct Notice {
    /// The ticks that there were.
    pub tick: u64,
    /// The task.
    pub task: u8,
    pub kind: NoticeKind,
}
