ghost use Rattle.std.specs.Prelude.{◌≡◌, ℕ, ◌<◌, ◌≤◌, ◌+◌, ◌-◌, [], ◌∷◌, ◌++◌, Some, length, slice_get};
ghost use Rattle.evm_model.specs.Lists.{change};

use arrayvec::ArrayVec;
use evm_model::{SEMAPHORE_COUNT_LIMIT, SEMAPHORE_LIMIT};
use evm_room::copy_list;
use std::marker::Model;

/// The counts of the semaphores, in the order of their numbers.
#[derive(Debug, Drop)]
pub struct Semaphores {
    counts: ArrayVec<u32, SEMAPHORE_LIMIT>,
}

impl Model for Semaphores {
    ghost use Rattle.std.specs.Prelude.{ℕ, List};

    ghost Value = { List ℕ };

    ghost view = { λ s. s.counts.items };
}

impl Semaphores {
    /// None, with room for all.
    pub fn new() -> Semaphores
        ensures { result ≡ [] }
    {
        Semaphores {
            counts: ArrayVec::new(),
        }
    }

    /// The semaphores are those of another list. Takes no memory.
    pub fn copy_from(&mut self, other: &Semaphores)
        ensures { self.new ≡ other.now }
    {
        copy_list(&mut self.counts, &other.counts);
    }

    /// One semaphore more, the last.
    pub fn create(&mut self, count: u32)
        requires { length self.old < SEMAPHORE_LIMIT }
        ensures { self.new ≡ self.old ++ count ∷ [] }
    {
        self.counts.push(count);
    }

    /// How many there are, 32 at the most.
    pub fn count(&self) -> u8
        ensures count { result ≡ length self.now }
        ensures limit { result ≤ SEMAPHORE_LIMIT }
    {
        self.counts.len() as u8
    }

    /// The count of semaphore s.
    pub fn get(&self, s: u8) -> Option<u32>
        ensures { result ≡ slice_get self.now s }
    {
        self.counts.as_slice().get(s as usize).copied()
    }

    /// Semaphore s has one less.
    pub fn take(&mut self, s: u8)
        requires { (n : ℕ) → slice_get self.old s ≡ Some n → 0 < n }
        ensures { self.new ≡ change (λ n. n - 1) self.old s }
    {
        if let Some(count) = self.counts.get_mut(s as usize) {
            *count -= 1;
        }
    }

    /// Semaphore s has one more.
    pub fn put(&mut self, s: u8)
        requires { (n : ℕ) → slice_get self.old s ≡ Some n → n < SEMAPHORE_COUNT_LIMIT }
        ensures { self.new ≡ change (λ n. n + 1) self.old s }
    {
        if let Some(count) = self.counts.get_mut(s as usize) {
            *count += 1;
        }
    }
}
