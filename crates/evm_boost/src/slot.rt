ghost use Rattle.std.specs.Prelude.{◌≡◌};
ghost use Rattle.evm_model.specs.Mutexes.{held_by, freed};

use evm_model::{Mutex, Protocol};
use std::marker::Model;

// The room of one mutex: a list with room from the start wants a value for each place.
#[derive(Clone, Copy, Debug)]
pub(crate) struct Slot {
    mutex: Mutex,
}

impl Model for Slot {
    ghost use Rattle.evm_model.specs.declared.mutex.Mutex.{Mutex};

    ghost Value = { Mutex };

    ghost view = { λ s. s.mutex };

    ghost inverse = { λ mutex. record { mutex = mutex } };
}

impl Slot {
    // It holds this one.
    pub(crate) fn of(mutex: Mutex) -> Slot
        ensures { result ≡ mutex }
    {
        Slot { mutex }
    }

    pub(crate) fn mutex(&self) -> Mutex
        ensures { result ≡ self.now }
    {
        self.mutex
    }

    // Task t has it, locked so often.
    pub(crate) fn hold(&mut self, t: u8, count: u64)
        ensures { self.new ≡ held_by t count self.old }
    {
        self.mutex.owner = Some(t);
        self.mutex.count = count;
    }

    // Nobody has it.
    pub(crate) fn leave(&mut self)
        ensures { self.new ≡ freed self.old }
    {
        self.mutex.owner = None;
        self.mutex.count = 0;
    }
}

impl Default for Slot {
    fn default() -> Self {
        Slot {
            mutex: Mutex {
                recursive: false,
                protocol: Protocol::Inheritance,
                owner: None,
                count: 0,
            },
        }
    }
}
