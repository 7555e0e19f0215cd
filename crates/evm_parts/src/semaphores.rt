//! What rows do to a semaphore.

ghost use Rattle.std.specs.Prelude.{◌≡◌, ℕ, ◌<◌, ◌≤◌, ◌+◌, ◌-◌, Some, length, slice_get};
ghost use Rattle.evm_model.specs.Bounds.{HasStamps};
ghost use Rattle.evm_model.specs.Semaphores.{add_semaphore, sem_put};
ghost use Rattle.evm_model.specs.State.{on_semaphore};

use crate::parts::Parts;
use evm_model::{Errno, Outcome, SEMAPHORE_COUNT_LIMIT, SEMAPHORE_LIMIT, Wait};

impl Parts {
    /// One semaphore more.
    #[tactic(auto, unfolding(evm_model::specs::Semaphores::add_semaphore))]
    pub fn add_semaphore(&mut self, count: u32)
        requires { length self.old.semaphores < SEMAPHORE_LIMIT }
        ensures row { self.new ≡ add_semaphore count self.old }
    {
        self.semaphores.create(count);
    }

    /// A semaphore has one less.
    pub fn take_semaphore(&mut self, s: u8)
        requires { (n : ℕ) → slice_get self.old.semaphores s ≡ Some n → 0 < n }
        ensures row { self.new ≡ on_semaphore s (λ n. n - 1) self.old }
    {
        self.semaphores.take(s);
    }

    /// A semaphore has one more.
    pub fn put_semaphore(&mut self, s: u8)
        requires { (n : ℕ) → slice_get self.old.semaphores s ≡ Some n → n < SEMAPHORE_COUNT_LIMIT }
        ensures row { self.new ≡ on_semaphore s (λ n. n + 1) self.old }
    {
        self.semaphores.put(s);
    }

    /// One is put into a semaphore, by a call or by a line: the first task that waits for it wakes, or the count is one
    /// more, unless it is the greatest.
    #[tactic(auto, unfolding(evm_model::specs::Semaphores::sem_put))]
    pub fn sem_put(&mut self, s: u8) -> Outcome
        requires room { HasStamps 1 self.old }
        ensures row { (self.new, result) ≡ sem_put s self.old }
        ensures stamps { self.new.stamps ≤ self.old.stamps + 1 }
    {
        let Some(count) = self.semaphores.get(s) else {
            return Outcome::Returns(Errno::Invalid.answer());
        };
        match self.first_waiter(Wait::Semaphore(s)) {
            Some(t) => {
                self.wake(t, 0);
                Outcome::Returns(0)
            }
            None if count >= SEMAPHORE_COUNT_LIMIT => Outcome::Returns(Errno::Invalid.answer()),
            None => {
                self.put_semaphore(s);
                Outcome::Returns(0)
            }
        }
    }
}
