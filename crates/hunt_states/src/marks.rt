//! Where a search has been: a mark for the hash of each state, as far as there is room. What is said of a state doesn't rest on them.

use evm_room::NoMemory;
use std::alloc::Global;

/// How many marks there is room for; a power of two.
const ROOM: usize = 1 << 18;

/// How many places are tried for a mark.
const TRIES: u64 = 4;

/// How many marks of other states a branch may meet, until no mark of its states is looked at.
const MISSES: u32 = 4;

/// A branch that has reached a state of this hash by some steps.
#[derive(Clone, Copy, Debug)]
pub struct StateMark {
    /// The hash; 0 where there is no mark.
    hash: u64,
    /// The number of the branch.
    pub place: u64,
    /// The steps.
    pub steps: u32,
}

/// The marks, by the low bits of their hashes.
#[derive(Debug, Drop)]
pub struct StateMarks {
    marks: Vec<StateMark>,
    // how many marks of the branch's states were of other states
    misses: u32,
}

// The place that is tried for a hash at a turn.
fn place_of(hash: u64, turn: u64) -> usize {
    (hash.wrapping_add(turn) % ROOM as u64) as usize
}

impl StateMarks {
    /// No mark.
    ///
    /// # Errors
    ///
    /// Memory was refused.
    pub fn new(alloc: Global) -> Result<StateMarks, NoMemory> {
        StateMarks::with_room(alloc, ROOM)
    }

    // Apart, since the prover goes over a list whose length it knows.
    fn with_room(alloc: Global, room: usize) -> Result<StateMarks, NoMemory> {
        let none = StateMark {
            hash: 0,
            place: 0,
            steps: 0,
        };
        let mut marks = Vec::new(alloc);
        match marks.resize(room, none) {
            Ok(()) => Ok(StateMarks { marks, misses: 0 }),
            Err(_) => Err(NoMemory),
        }
    }

    /// A branch begins.
    pub fn begin(&mut self) {
        self.misses = 0;
    }

    /// The mark of a state was that of another.
    pub fn miss(&mut self) {
        self.misses = self.misses.saturating_add(1);
    }

    /// Whether the branch has met too many marks of other states.
    pub fn has_too_many_misses(&self) -> bool {
        self.misses >= MISSES
    }

    /// The mark of a hash.
    pub fn find(&self, hash: u64) -> Option<StateMark> {
        for turn in 0..TRIES {
            match self.marks.get(place_of(hash, turn)) {
                Some(mark) if mark.hash == hash && hash != 0 => return Some(*mark),
                _ => {}
            }
        }
        None
    }

    /// Adds a mark, if one of its places is free.
    pub fn add(&mut self, hash: u64, place: u64, steps: u32) {
        for turn in 0..TRIES {
            if let Some(mark) = self.marks.get_mut(place_of(hash, turn))
                && mark.hash == 0
            {
                *mark = StateMark { hash, place, steps };
                return;
            }
        }
    }
}
