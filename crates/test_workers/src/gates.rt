//! A gate that notes its calls, and at which threads wait for one another.

use evm_shared::Gate;
use std::sync::atomic::{AtomicU64, Ordering};
use std::thread;

/// How often a thread looks for the others.
const LOOKS: u32 = 1_000_000_000;

/// Numbers of Steps as one: each is below 100 and has two digits, and of more than nine the last are kept.
pub(crate) fn with_steps(before: u64, steps: u32) -> u64 {
    before.wrapping_mul(100).wrapping_add(u64::from(steps))
}

/// The calls around the turns of a worker.
#[derive(Drop)]
struct Calls {
    count: AtomicU64,
    out_of_turn: AtomicU64,
    steps: AtomicU64,
}

impl Calls {
    fn new() -> Calls {
        Calls {
            count: AtomicU64::new(0),
            out_of_turn: AtomicU64::new(0),
            steps: AtomicU64::new(0),
        }
    }

    // Notes a call, which must be the one of this number.
    fn note(&self, number: u64) {
        if self.count.fetch_add(1, Ordering::SeqCst) != number {
            self.out_of_turn.store(1, Ordering::SeqCst);
        }
    }
}

/// The calls of the workers of two processors, how many threads have come, and whether one has looked for the others in vain.
#[derive(Drop)]
pub(crate) struct Gates {
    calls: [Calls; 2],
    held: u32,
    all: u64,
    here: AtomicU64,
    missed: AtomicU64,
}

impl Gates {
    /// Workers wait before a turn of theirs until all have come.
    pub(crate) fn new(held: u32, all: u64) -> Gates {
        Gates {
            calls: [Calls::new(), Calls::new()],
            held,
            all,
            here: AtomicU64::new(0),
            missed: AtomicU64::new(0),
        }
    }

    /// Comes.
    pub(crate) fn come(&self) {
        self.here.fetch_add(1, Ordering::SeqCst);
    }

    /// Waits until all have come but the thread that waits.
    pub(crate) fn wait_for_workers(&self) {
        self.wait_for(self.all.saturating_sub(1));
    }

    // Waits until so many threads have come.
    fn wait_for(&self, count: u64) {
        for _ in 0..LOOKS {
            if self.here.load(Ordering::SeqCst) >= count {
                return;
            }
            thread::yield_now();
        }
        self.missed.store(1, Ordering::SeqCst);
    }

    /// Whether a thread has looked for the others in vain.
    pub(crate) fn was_missed(&self) -> bool {
        self.missed.load(Ordering::SeqCst) != 0
    }

    /// The Steps of a processor's turns, if each turn was between a call of its number and one behind its commit.
    pub(crate) fn steps(&self, cpu: u8) -> Option<u64> {
        let calls = self.calls.get(cpu as usize)?;
        if calls.out_of_turn.load(Ordering::SeqCst) != 0 {
            return None;
        }
        Some(calls.steps.load(Ordering::SeqCst))
    }
}

impl Gate for Gates {
    fn before(&self, cpu: u8, turn: u32) {
        if let Some(calls) = self.calls.get(cpu as usize) {
            calls.note(2 * u64::from(turn));
        }
        if turn == self.held {
            self.come();
            self.wait_for(self.all);
        }
    }

    fn after(&self, cpu: u8, steps: u32) {
        let Some(calls) = self.calls.get(cpu as usize) else {
            return;
        };
        let count = calls.count.load(Ordering::SeqCst);
        // behind an odd number of calls
        calls.note(count | 1);
        let before = calls.steps.load(Ordering::SeqCst);
        calls
            .steps
            .store(with_steps(before, steps), Ordering::SeqCst);
    }
}
