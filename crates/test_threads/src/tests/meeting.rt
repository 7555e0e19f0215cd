//! A gate at which threads wait for one another.

use evm_shared::Gate;
use std::sync::atomic::{AtomicU64, Ordering};
use std::thread;

/// How often a thread looks for the others.
const LOOKS: u32 = 1_000_000_000;

/// How many threads have come, and whether one has looked for the others in vain.
#[derive(Drop)]
pub(super) struct Meeting {
    turn: u32,
    all: u64,
    here: AtomicU64,
    missed: AtomicU64,
}

impl Meeting {
    /// Workers come before a turn of theirs, and wait there for all.
    pub(super) fn new(turn: u32, all: u64) -> Meeting {
        Meeting {
            turn,
            all,
            here: AtomicU64::new(0),
            missed: AtomicU64::new(0),
        }
    }

    /// Comes.
    pub(super) fn come(&self) {
        self.here.fetch_add(1, Ordering::SeqCst);
    }

    /// Waits until `count` threads have come.
    pub(super) fn wait_for(&self, count: u64) {
        for _ in 0..LOOKS {
            if self.here.load(Ordering::SeqCst) >= count {
                return;
            }
            thread::yield_now();
        }
        self.missed.store(1, Ordering::SeqCst);
    }

    /// Whether a thread has looked for the others in vain.
    pub(super) fn was_missed(&self) -> bool {
        self.missed.load(Ordering::SeqCst) != 0
    }
}

impl Gate for Meeting {
    fn before(&self, _cpu: u8, turn: u32) {
        if turn == self.turn {
            self.come();
            self.wait_for(self.all);
        }
    }

    fn after(&self, _cpu: u8, _steps: u32) {}
}
