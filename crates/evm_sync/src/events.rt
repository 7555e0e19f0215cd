ghost use Rattle.std.specs.Prelude.{◌≡◌, ◌<◌, ◌≤◌, [], ◌∷◌, ◌++◌, Some, None, length, slice_get};
ghost use Rattle.evm_model.specs.Events.{bound_of};
ghost use Rattle.evm_model.specs.Lists.{change};

use arrayvec::ArrayVec;
use evm_model::EVENT_LIMIT;
use evm_room::copy_list;
use std::marker::Model;

/// The events, in the order of their numbers: each has the number of the mutex of the tasks that wait for it.
#[derive(Debug, Drop)]
pub struct Events {
    mutexes: ArrayVec<Option<u8>, EVENT_LIMIT>,
}

impl Model for Events {
    ghost use Rattle.std.specs.Prelude.{ℕ, List, Option};

    ghost Value = { List (Option ℕ) };

    ghost view = { λ e. e.mutexes.items };
}

impl Events {
    /// None, with room for all.
    pub fn new() -> Events
        ensures { result ≡ [] }
    {
        Events {
            mutexes: ArrayVec::new(),
        }
    }

    /// The events are those of another list. Takes no memory.
    pub fn copy_from(&mut self, other: &Events)
        ensures { self.new ≡ other.now }
    {
        copy_list(&mut self.mutexes, &other.mutexes);
    }

    /// One event more, the last; no task has named a mutex for it.
    pub fn create(&mut self)
        requires { length self.old < EVENT_LIMIT }
        ensures { self.new ≡ self.old ++ None ∷ [] }
    {
        self.mutexes.push(None);
    }

    /// How many there are, 32 at the most.
    pub fn count(&self) -> u8
        ensures count { result ≡ length self.now }
        ensures limit { result ≤ EVENT_LIMIT }
    {
        self.mutexes.len() as u8
    }

    /// The mutex of event e; None also where there is no such event.
    pub fn bound(&self, e: u8) -> Option<u8>
        ensures { result ≡ bound_of (slice_get self.now e) }
    {
        match self.mutexes.as_slice().get(e as usize) {
            None => None,
            Some(mutex) => *mutex,
        }
    }

    /// Event e has mutex m.
    pub fn bind(&mut self, e: u8, m: u8)
        ensures { self.new ≡ change (λ _. Some m) self.old e }
    {
        if let Some(mutex) = self.mutexes.get_mut(e as usize) {
            *mutex = Some(m);
        }
    }
}
