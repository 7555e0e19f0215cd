//! The states that a search has visited, by their places on paths, and a table of their hashes. What is said of a state doesn't rest on the
//! table.

ghost use Rattle.std.specs.Prelude.{◌≡◌, ◌++◌, ◌∷◌, [], OnOk, OnErr, IfOk, IfSome, Option, slice_get, ℕ};

use crate::standing::Stand;
use evm_room::NoMemory;
use std::alloc::Global;

/// The state behind some steps of a path.
#[derive(Clone, Copy, Debug, PartialEq, Eq)]
pub struct StatePlace {
    /// The number of the path.
    pub path: u32,
    /// The steps.
    pub steps: u32,
}

// A hash, and one more than the number of its place; 0 where none is.
#[derive(Clone, Copy, Debug)]
struct Slot {
    hash: u64,
    number: u32,
}

/// The states, and the table.
#[derive(Debug, Drop)]
pub struct Visited {
    /// The places, in the order in which the states were visited.
    pub places: Vec<StatePlace>,
    /// How many there may be.
    pub most: u32,
    slots: Vec<Slot>,
    /// A machine that is taken to one of the states, to compare it.
    pub(crate) seen: Stand,
}

impl Visited {
    /// No state, and room for `most` in the table.
    ///
    /// # Errors
    ///
    /// Memory was refused.
    pub(crate) fn new(alloc: Global, most: u32, seen: Stand) -> Result<Visited, NoMemory>
        ensures places { IfOk result (λ visited. visited.places.items ≡ []) }
        ensures seen { IfOk result (λ visited. visited.seen ≡ seen) }
    {
        let none = Slot { hash: 0, number: 0 };
        let mut slots = Vec::new(alloc);
        match slots.resize((most as usize) * 2 + 1, none) {
            Ok(()) => Ok(Visited {
                places: Vec::new(alloc),
                most,
                slots,
                seen,
            }),
            Err(_) => Err(NoMemory),
        }
    }

    // The slot that is tried for a hash at a turn.
    fn slot_of(&self, hash: u64, turn: u64) -> usize {
        let count = self.slots.len() as u64;
        if count == 0 {
            return 0;
        }
        (hash.wrapping_add(turn) % count) as usize
    }

    /// The turn, from a turn on, at which the table has a state of a hash.
    pub(crate) fn find(&self, hash: u64, from: u64) -> Option<u64> {
        for turn in from..self.slots.len() as u64 {
            match self.slots.get(self.slot_of(hash, turn)) {
                Some(slot) if slot.number != 0 => {
                    if slot.hash == hash {
                        return Some(turn);
                    }
                }
                _ => return None,
            }
        }
        None
    }

    /// The place of the state that the table has for a hash at a turn.
    pub(crate) fn found(&self, hash: u64, turn: u64) -> Option<StatePlace>
        ensures { IfSome result (λ place. (i : ℕ) × (slice_get self.now.places.items i ≡ Option.Some place)) }
    {
        match self.slots.get(self.slot_of(hash, turn)) {
            Some(slot) if slot.number != 0 => self.place(slot.number - 1),
            _ => None,
        }
    }

    // The place of a number.
    fn place(&self, number: u32) -> Option<StatePlace>
        ensures { IfSome result (λ place. (i : ℕ) × (slice_get self.now.places.items i ≡ Option.Some place)) }
    {
        match self.places.get(number as usize) {
            Some(place) => Some(*place),
            None => None,
        }
    }

    // Puts the number of a place into the table.
    fn note(&mut self, hash: u64, number: u32)
        ensures places { self.new.places ≡ self.old.places }
        ensures seen { self.new.seen ≡ self.old.seen }
    {
        for turn in 0..self.slots.len() as u64 {
            let at = self.slot_of(hash, turn);
            match self.slots.get_mut(at) {
                Some(slot) => {
                    if slot.number == 0 {
                        *slot = Slot { hash, number };
                        return;
                    }
                }
                None => return,
            }
        }
    }

    /// Puts the last state into the table.
    pub(crate) fn mark(&mut self, hash: u64)
        ensures places { self.new.places.items ≡ self.old.places.items }
        ensures seen { self.new.seen ≡ self.old.seen }
    {
        let number = self.places.len() as u64;
        if number <= u64::from(u32::MAX) {
            self.note(hash, number as u32);
        }
    }

    /// Whether there may be no more states.
    pub(crate) fn is_full(&self) -> bool {
        self.places.len() as u64 >= u64::from(self.most)
    }

    /// Adds a state, and leaves the table.
    ///
    /// # Errors
    ///
    /// Memory was refused.
    pub(crate) fn pass(&mut self, place: StatePlace) -> Result<(), NoMemory>
        ensures added { OnOk result (self.new.places.items ≡ self.old.places.items ++ place ∷ []) }
        ensures same { OnErr result (self.new.places.items ≡ self.old.places.items) }
        ensures seen { self.new.seen ≡ self.old.seen }
    {
        match self.places.push(place) {
            Ok(()) => Ok(()),
            Err(_) => Err(NoMemory),
        }
    }

    /// Adds a state.
    ///
    /// # Errors
    ///
    /// Memory was refused.
    pub(crate) fn add(&mut self, hash: u64, place: StatePlace) -> Result<(), NoMemory>
        ensures added { OnOk result (self.new.places.items ≡ self.old.places.items ++ place ∷ []) }
        ensures same { OnErr result (self.new.places.items ≡ self.old.places.items) }
        ensures seen { self.new.seen ≡ self.old.seen }
    {
        let number = self.places.len() as u64 + 1;
        match self.places.push(place) {
            Ok(()) => {}
            Err(_) => return Err(NoMemory),
        }
        if number <= u64::from(u32::MAX) {
            self.note(hash, number as u32);
        }
        Ok(())
    }
}
