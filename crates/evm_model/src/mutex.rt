/// How a mutex ranks its owner (EVL, "Mutex": priority inheritance and priority ceiling).
#[derive(Clone, Copy, Debug, PartialEq, Eq)]
pub enum Protocol {
    /// At least as each task that waits for it.
    Inheritance,
    /// At least as the fixed-priority class at this priority, 1 to 99.
    Ceiling(u8),
}

/// A lock that one task at a time owns.
#[derive(Clone, Copy, Debug, PartialEq, Eq)]
pub struct Mutex {
    /// Its owner may lock it again.
    pub recursive: bool,
    pub protocol: Protocol,
    /// The number of the task that owns it; None where it is free.
    pub owner: Option<u8>,
    /// How often its owner has locked it, 0 where it is free.
    pub count: u64,
}
