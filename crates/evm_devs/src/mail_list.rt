ghost use Rattle.std.specs.Prelude.{◌≡◌, ◌≤◌, ◌+◌, ◌∷◌, ◌++◌, [], length, Ok};
ghost use Rattle.evm_dev.specs.Mailbox.{last_words};
ghost use Rattle.evm_dev.specs.Rows.{touched};
ghost use Rattle.evm_dev.specs.declared.kind.Kind.TheVariants as kinds;
ghost use Rattle.evm_dev.specs.declared.touch.Op.TheVariants as ops;

use crate::copying::CopyFrom;
use arrayvec::ArrayVec;
use evm_dev::{Device, Kind, MAILBOX_LIMIT, Op, Touch};
use evm_room::{NoMemory, copy_list};
use std::alloc::Global;
use std::marker::Model;

/// A mailbox over a list, whose room is in the value itself.
#[derive(Debug, Drop)]
pub struct MailList {
    words: ArrayVec<u64, MAILBOX_LIMIT>,
}

impl Model for MailList {
    ghost use Rattle.std.specs.Prelude.{ℕ, List};

    ghost Value = { List ℕ };

    ghost view = { λ mailbox. mailbox.words.items };
}

impl MailList {
    /// No word. It asks for no memory, and so never fails; the signature is that of the other mailbox.
    pub fn new(_alloc: Global) -> Result<MailList, NoMemory>
        ensures { result ≡ Ok [] }
    {
        Ok(MailList {
            words: ArrayVec::new(),
        })
    }

    // The words are these, in two parts.
    pub(crate) fn set_words(&mut self, first: &[u64], second: &[u64])
        requires { length first.now + length second.now ≤ MAILBOX_LIMIT }
        ensures { self.new ≡ first.now ++ second.now }
    {
        self.words.clear();
        let _first = self.words.try_extend_from_slice(first);
        let _second = self.words.try_extend_from_slice(second);
    }

    // The words, the oldest first.
    pub(crate) fn as_slice(&self) -> &[u64]
        ensures words { result.now ≡ self.now }
        ensures limit { length result.now ≤ MAILBOX_LIMIT }
    {
        self.words.as_slice()
    }

    fn fetch(&mut self, register: u8) -> Touch
        ensures words { self.new ≡ (touched kinds.Mailbox ops.Fetch register 0 self.old).words }
        ensures answer { result ≡ (touched kinds.Mailbox ops.Fetch register 0 self.old).touch }
    {
        match register {
            0 => Touch::answer(self.words.pop_at(0).unwrap_or(0)),
            1 => Touch::answer(self.words.len() as u64),
            _ => Touch::NONE,
        }
    }

    fn put(&mut self, register: u8, value: u64) -> Touch
        ensures words { self.new ≡ (touched kinds.Mailbox ops.Put register value self.old).words }
        ensures answer { result ≡ (touched kinds.Mailbox ops.Put register value self.old).touch }
    {
        match register {
            0 => {
                self.post(value);
                Touch {
                    answer: Some(0),
                    raise: true,
                }
            }
            1 => {
                self.words.clear();
                Touch::answer(0)
            }
            _ => Touch::NONE,
        }
    }

    // The word comes last; of 16 the oldest leaves first.
    fn post(&mut self, value: u64)
        ensures { self.new ≡ last_words (self.old ++ value ∷ []) }
    {
        if self.words.is_full() {
            self.words.remove(0);
        }
        self.words.push(value);
    }
}

impl Device for MailList {
    ghost kind_of = { λ _. kinds.Mailbox };

    ghost words_of = { λ mailbox. mailbox };

    fn kind(&self) -> Kind {
        let _len = self.words.len();
        Kind::Mailbox
    }

    fn words(&self, k: usize) -> Option<u64> {
        self.words.as_slice().get(k).copied()
    }

    fn touch(&mut self, op: Op, register: u8, value: u64) -> Touch {
        match op {
            Op::Fetch => self.fetch(register),
            Op::Put => self.put(register, value),
        }
    }

    fn tick(&mut self) -> bool {
        false
    }
}

impl CopyFrom for MailList {
    fn copy_from(&mut self, other: &MailList) {
        copy_list(&mut self.words, &other.words);
    }
}
