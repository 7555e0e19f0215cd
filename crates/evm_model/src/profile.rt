/// What a machine has from boot on and never changes.
#[derive(Clone, Copy, Debug, PartialEq, Eq)]
pub struct Profile {
    /// Bytes of RAM.
    pub ram: u64,
    /// The number of the profile, 1 to 3.
    pub version: u8,
    /// After how many ticks the watchdog demotes a task; 0 for no watchdog.
    pub watchdog: u32,
}
