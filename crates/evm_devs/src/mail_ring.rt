ghost use Rattle.std.specs.Prelude.{◌≡◌, ◌≤◌, ◌++◌, [], length, IfOk, OnErr};
ghost use Rattle.evm_dev.specs.Rows.{touched};
ghost use Rattle.evm_dev.specs.declared.kind.Kind.TheVariants as kinds;
ghost use Rattle.evm_dev.specs.declared.touch.Op.TheVariants as ops;
ghost use Rattle.evm_room.specs.Growth.{RefusedWithin};

use crate::copying::CopyFrom;
use circular_buffer::HeapCircularBuffer;
use evm_dev::{Device, Kind, MAILBOX_LIMIT, Op, Touch};
use evm_room::{NoMemory, copy_ring, ring};
use std::alloc::Global;
use std::marker::Model;

/// A mailbox over a ring. The room for all words is taken at once.
#[derive(Debug, Drop)]
pub struct MailRing {
    words: HeapCircularBuffer<u64>,
}

impl Model for MailRing {
    ghost use Rattle.std.specs.Prelude.{ℕ, List, ◌≡◌};
    ghost use Rattle.evm_dev.specs.declared.kind.TheConstants.{MAILBOX_LIMIT};

    ghost Value = { List ℕ };

    ghost view = { λ mailbox. mailbox.words.items };

    ghost invariant = { λ mailbox. mailbox.words.capacity ≡ MAILBOX_LIMIT };
}

impl MailRing {
    /// No word.
    ///
    /// # Errors
    ///
    /// Where the allocation of its room failed.
    pub fn new(alloc: Global) -> Result<MailRing, NoMemory>
        ensures empty { IfOk result (λ mailbox. mailbox ≡ []) }
        ensures refused { OnErr result (RefusedWithin MAILBOX_LIMIT) }
    {
        match ring(alloc, MAILBOX_LIMIT) {
            Ok(words) => Ok(MailRing { words }),
            Err(refused) => {
                refused.within();
                Err(NoMemory)
            }
        }
    }

    // The words are these.
    #[tactic(auto, using(evm_room::proofs::Rings::filled))]
    pub(crate) fn set_words(&mut self, words: &[u64])
        requires { length words.now ≤ MAILBOX_LIMIT }
        ensures { self.new ≡ words.now }
    {
        self.words.clear();
        let _count = self.words.fill_from_slice(words);
    }

    // The words, the oldest first, in two parts.
    pub(crate) fn parts(&self) -> (&[u64], &[u64])
        ensures parts { result.0.now ++ result.1.now ≡ self.now }
        ensures limit { length self.now ≤ MAILBOX_LIMIT }
    {
        let _len = self.words.len();
        self.words.as_slices()
    }

    fn fetch(&mut self, register: u8) -> Touch
        ensures words { self.new ≡ (touched kinds.Mailbox ops.Fetch register 0 self.old).words }
        ensures answer { result ≡ (touched kinds.Mailbox ops.Fetch register 0 self.old).touch }
    {
        match register {
            0 => Touch::answer(self.words.pop_front().unwrap_or(0)),
            1 => Touch::answer(self.words.len() as u64),
            _ => Touch::NONE,
        }
    }

    fn put(&mut self, register: u8, value: u64) -> Touch
        ensures words { self.new ≡ (touched kinds.Mailbox ops.Put register value self.old).words }
        ensures answer { result ≡ (touched kinds.Mailbox ops.Put register value self.old).touch }
    {
        match register {
            0 => {
                let _oldest = self.words.push_back(value);
                Touch {
                    answer: Some(0),
                    raise: true,
                }
            }
            1 => {
                self.words.clear();
                Touch::answer(0)
            }
            _ => Touch::NONE,
        }
    }
}

impl Device for MailRing {
    ghost kind_of = { λ _. kinds.Mailbox };

    ghost words_of = { λ mailbox. mailbox };

    fn kind(&self) -> Kind {
        let _len = self.words.len();
        Kind::Mailbox
    }

    fn words(&self, k: usize) -> Option<u64> {
        self.words.get(k).copied()
    }

    fn touch(&mut self, op: Op, register: u8, value: u64) -> Touch {
        match op {
            Op::Fetch => self.fetch(register),
            Op::Put => self.put(register, value),
        }
    }

    fn tick(&mut self) -> bool {
        false
    }
}

impl CopyFrom for MailRing {
    fn copy_from(&mut self, other: &MailRing) {
        copy_ring(&mut self.words, &other.words);
    }
}
