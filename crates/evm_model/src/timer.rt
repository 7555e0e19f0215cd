/// A timer (EVL, "Timers"), as its processor plays the tick.
#[derive(Clone, Copy, Debug, PartialEq, Eq)]
pub struct Timer {
    /// The number of the processor that set it.
    pub cpu: u8,
    /// The tick at which it expires next, 0 where it is off.
    pub due: u64,
    /// The ticks from one expiry to the next, 0 where it expires once.
    pub period: u64,
    /// How often it has expired since a task last asked.
    pub expiries: u64,
}

impl Default for Timer {
    /// One that is off.
    fn default() -> Self {
        Timer {
            cpu: 0,
            due: 0,
            period: 0,
            expiries: 0,
        }
    }
}
