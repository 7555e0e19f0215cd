//! What names are of.

/// What has a name, on the track of a task.
#[derive(Clone, Copy, Debug, PartialEq, Eq)]
pub enum Bearer {
    /// The task itself.
    Itself,
    /// What the task begins to wait for at this time.
    Awaited(u64),
    /// A mutex that the task owns from this time on.
    Locked(u64),
}
