ghost use Rattle.std.specs.Prelude.{◌≡◌, ◌<◌, ◌≤◌, [], ◌∷◌, ◌++◌, length, slice_get};
ghost use Rattle.evm_model.specs.Lists.{change};

use arrayvec::ArrayVec;
use evm_model::FLAGS_LIMIT;
use evm_room::copy_list;
use std::marker::Model;

/// The words of the flag groups, in the order of their numbers.
#[derive(Debug, Drop)]
pub struct Flags {
    words: ArrayVec<u32, FLAGS_LIMIT>,
}

impl Model for Flags {
    ghost use Rattle.std.specs.Prelude.{ℕ, List};

    ghost Value = { List ℕ };

    ghost view = { λ f. f.words.items };
}

impl Flags {
    /// None, with room for all.
    pub fn new() -> Flags
        ensures { result ≡ [] }
    {
        Flags {
            words: ArrayVec::new(),
        }
    }

    /// The flag groups are those of another list. Takes no memory.
    pub fn copy_from(&mut self, other: &Flags)
        ensures { self.new ≡ other.now }
    {
        copy_list(&mut self.words, &other.words);
    }

    /// One flag group more, the last; its word is 0.
    pub fn create(&mut self)
        requires { length self.old < FLAGS_LIMIT }
        ensures { self.new ≡ self.old ++ 0 ∷ [] }
    {
        self.words.push(0);
    }

    /// How many there are, 32 at the most.
    pub fn count(&self) -> u8
        ensures count { result ≡ length self.now }
        ensures limit { result ≤ FLAGS_LIMIT }
    {
        self.words.len() as u8
    }

    /// The word of flag group f.
    pub fn get(&self, f: u8) -> Option<u32>
        ensures { result ≡ slice_get self.now f }
    {
        self.words.as_slice().get(f as usize).copied()
    }

    /// Flag group f has this word.
    pub fn set(&mut self, f: u8, word: u32)
        ensures { self.new ≡ change (λ _. word) self.old f }
    {
        if let Some(entry) = self.words.get_mut(f as usize) {
            *entry = word;
        }
    }
}
