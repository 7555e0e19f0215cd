/// What a processor runs, and the debugger's bits.
#[derive(Clone, Copy, Debug)]
pub struct Processor {
    /// The number of the task that it runs.
    pub current: Option<u8>,
    /// The number of the task that it runs where no out-of-band task is ready.
    pub in_band_task: Option<u8>,
    /// The debugger has stopped it.
    pub stopped: bool,
    /// The breakpoint at its pc is passed once.
    pub skip: bool,
}

impl Default for Processor {
    /// A processor that idles.
    fn default() -> Self {
        Processor {
            current: None,
            in_band_task: None,
            stopped: false,
            skip: false,
        }
    }
}
