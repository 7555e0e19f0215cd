//! What rows do to a flag group.

ghost use Rattle.std.specs.Prelude.{◌≡◌, ◌<◌, ◌≤◌, ◌+◌, length};
ghost use Rattle.evm_model.specs.Bounds.{HasStamps};
ghost use Rattle.evm_model.specs.Flags.{add_flags, post};
ghost use Rattle.evm_model.specs.State.{on_flags};

use crate::parts::Parts;
use evm_model::{FLAGS_LIMIT, Wait};

impl Parts {
    /// One flag group more.
    #[tactic(auto, unfolding(evm_model::specs::Flags::add_flags))]
    pub fn add_flags(&mut self)
        requires { length self.old.flags < FLAGS_LIMIT }
        ensures row { self.new ≡ add_flags self.old }
    {
        self.flags.create();
    }

    /// A flag group has this word.
    pub fn set_flags(&mut self, f: u8, word: u32)
        ensures row { self.new ≡ on_flags f (λ _. word) self.old }
        ensures stamps { self.new.stamps ≡ self.old.stamps }
    {
        self.flags.set(f, word);
    }

    /// Bits are posted to a flag group, by a call or by a line: the first task that waits for it wakes with the word,
    /// which is 0 then; if there is none, the word is kept.
    #[tactic(auto, unfolding(evm_model::specs::Flags::post))]
    pub fn post(&mut self, f: u8, bits: u32)
        requires room { HasStamps 1 self.old }
        ensures row { self.new ≡ post f bits self.old }
        ensures stamps { self.new.stamps ≤ self.old.stamps + 1 }
    {
        let Some(word) = self.flags.get(f) else {
            return;
        };
        let word = word | bits;
        match self.first_waiter(Wait::Flags(f)) {
            None => self.set_flags(f, word),
            Some(t) => {
                self.set_flags(f, 0);
                self.wake(t, u64::from(word));
            }
        }
    }
}
