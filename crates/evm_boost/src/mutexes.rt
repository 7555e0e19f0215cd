ghost use Rattle.std.specs.Prelude.{◌≡◌, ◌<◌, ◌≤◌, [], ◌∷◌, ◌++◌, length, slice_get};
ghost use Rattle.arrayvec.specs.ArrayVec.{array_vec_len};
ghost use Rattle.evm_boost.specs.Owning.{owned_by};
ghost use Rattle.evm_model.specs.Lists.{change};
ghost use Rattle.evm_model.specs.Mutexes.{owner, owns_any, held_by, freed};
ghost use Rattle.evm_model.specs.Boosts.{is_number};

use crate::owned::Owned;
use crate::slot::Slot;
use arrayvec::ArrayVec;
use evm_lines::{LINES, LineSet};
use evm_model::{MUTEX_LIMIT, Mutex};
use evm_room::copy_list;
use std::marker::Model;

/// The mutexes, in the order of their numbers.
#[derive(Debug, Drop)]
pub struct Mutexes {
    mutexes: ArrayVec<Slot, MUTEX_LIMIT>,
    owned: Owned,
}

impl Model for Mutexes {
    ghost use Rattle.std.specs.Prelude.{List};
    ghost use Rattle.evm_model.specs.declared.mutex.Mutex.{Mutex};
    ghost use Rattle.evm_boost.specs.Owning.{AreOwners};

    ghost Value = { List Mutex };

    ghost invariant = { λ m. AreOwners m.owned m.mutexes.items };

    ghost view = { λ m. m.mutexes.items };
}

impl Mutexes {
    /// None, with room for all.
    pub fn new() -> Mutexes
        ensures { result ≡ [] }
    {
        Mutexes {
            mutexes: ArrayVec::new(),
            owned: Owned::none(),
        }
    }

    /// The mutexes are those of another list. Takes no memory.
    pub fn copy_from(&mut self, other: &Mutexes)
        ensures { self.new ≡ other.now }
    {
        copy_list(&mut self.mutexes, &other.mutexes);
        self.owned.copy_from(&other.owned);
    }

    /// One mutex more, the last.
    pub fn create(&mut self, mutex: Mutex)
        requires { length self.old < MUTEX_LIMIT }
        ensures { self.new ≡ self.old ++ mutex ∷ [] }
    {
        let m = self.count();
        self.mutexes.push(Slot::of(mutex));
        if let Some(t) = mutex.owner {
            self.owned.hold(t, m);
        }
    }

    /// How many there are, 32 at the most.
    #[inline]
    pub fn count(&self) -> u8
        ensures count { result ≡ length self.now }
        ensures limit { result ≤ MUTEX_LIMIT }
    {
        self.mutexes.len() as u8
    }

    /// The mutex of this number.
    #[inline]
    pub fn get(&self, m: u8) -> Option<Mutex>
        ensures { result ≡ slice_get self.now m }
    {
        match self.mutexes.as_slice().get(m as usize) {
            None => None,
            Some(slot) => Some(slot.mutex()),
        }
    }

    /// The number of the task that owns mutex m.
    #[inline]
    pub fn owner(&self, m: u8) -> Option<u8>
        ensures { result ≡ owner self.now m }
    {
        match self.get(m) {
            None => None,
            Some(mutex) => mutex.owner,
        }
    }

    /// Whether task t owns mutex m.
    #[inline]
    pub fn is_owner(&self, m: u8, t: u8) -> bool
        ensures { result ≡ is_number (owner self.now m) t }
    {
        match self.owner(m) {
            None => false,
            Some(u) => u == t,
        }
    }

    // The mutexes that task t owns.
    pub(crate) fn owned(&self, t: u8) -> LineSet
        ensures owned { result ≡ owned_by (owner self.now) t }
        ensures few { length self.now ≤ LINES }
    {
        self.owned.of(t)
    }

    /// Whether task t owns a mutex.
    pub fn owns_any(&self, t: u8) -> bool
        ensures { result ≡ owns_any t self.now }
    {
        !self.owned(t).is_empty()
    }

    /// Whether task t owns another mutex than m.
    pub fn owns_other(&self, t: u8, m: u8) -> bool
        ensures { result ≡ owns_any t (change freed self.now m) }
    {
        let mut others = self.owned(t);
        if m >= self.count() {
            return !others.is_empty();
        }
        others.remove(m);
        !others.is_empty()
    }

    /// Task t has mutex m, locked so often.
    pub fn hold(&mut self, m: u8, t: u8, count: u64)
        ensures { self.new ≡ change (held_by t count) self.old m }
    {
        if m >= self.count() {
            return;
        }
        let before = self.owner(m);
        hold_slot(&mut self.mutexes, m, t, count);
        self.owned.leave(before, m);
        self.owned.hold(t, m);
    }

    /// Nobody has mutex m.
    pub fn leave(&mut self, m: u8)
        ensures { self.new ≡ change freed self.old m }
    {
        if m >= self.count() {
            return;
        }
        let before = self.owner(m);
        leave_slot(&mut self.mutexes, m);
        self.owned.leave(before, m);
    }
}

// Task t has mutex m, locked so often.
fn hold_slot(mutexes: &mut ArrayVec<Slot, MUTEX_LIMIT>, m: u8, t: u8, count: u64)
    ensures { mutexes.new.items ≡ change (held_by t count) mutexes.old.items m }
{
    if let Some(slot) = mutexes.get_mut(m as usize) {
        slot.hold(t, count);
    }
}

// Nobody has mutex m.
fn leave_slot(mutexes: &mut ArrayVec<Slot, MUTEX_LIMIT>, m: u8)
    ensures { mutexes.new.items ≡ change freed mutexes.old.items m }
{
    if let Some(slot) = mutexes.get_mut(m as usize) {
        slot.leave();
    }
}
