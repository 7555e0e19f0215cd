ghost use Rattle.std.specs.Prelude.{◌≡◌};
ghost use Rattle.evm_model.specs.State.{newest};

use crate::PROFILE_LIMIT;

/// The numbers of a machine's boot, as a script or a journal writes them.
#[derive(Clone, Copy, Debug, PartialEq, Eq)]
pub struct Boot {
    /// The profile, 1 to 3: which calls and how many lines there are, and whether there may be a watchdog.
    pub profile: u64,
    /// After how many ticks in a row the watchdog demotes the out-of-band task that a processor runs, 1 to 1,000,000;
    /// 0 for none, which profiles 1 and 2 always have.
    pub watchdog: u64,
    /// Processors, 1 to 8.
    pub cpus: u64,
    /// Bytes of RAM, 65,536 to 16,777,216 in multiples of 4,096.
    pub ram: u64,
    /// How many events the journal takes, 1 to 1,048,576.
    pub capacity: u64,
}

impl Boot {
    /// A machine of the newest profile, without a watchdog.
    pub const fn newest(cpus: u64, ram: u64, capacity: u64) -> Boot
        ensures { result ≡ newest cpus ram capacity }
    {
        Boot {
            profile: PROFILE_LIMIT as u64,
            watchdog: 0,
            cpus,
            ram,
            capacity,
        }
    }
}
