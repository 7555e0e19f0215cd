ghost use Rattle.std.specs.Prelude.{◌≡◌, [], IfOk, OnErr};
ghost use Rattle.evm_dev.specs.Console.{printed};
ghost use Rattle.evm_dev.specs.Rows.{touched};
ghost use Rattle.evm_dev.specs.declared.kind.Kind.TheVariants as kinds;
ghost use Rattle.evm_dev.specs.declared.touch.Op.TheVariants as ops;
ghost use Rattle.evm_room.specs.Growth.{RefusedWithin};

use crate::copying::CopyFrom;
use circular_buffer::HeapCircularBuffer;
use evm_dev::{CONSOLE_LIMIT, Device, Kind, Op, Touch};
use evm_room::{NoMemory, copy_ring, ring};
use std::alloc::Global;
use std::marker::Model;

/// Bytes that were put, the first ones. The room for all is taken at once.
#[derive(Debug, Drop)]
pub struct Console {
    bytes: HeapCircularBuffer<u8>,
}

impl Model for Console {
    ghost use Rattle.std.specs.Prelude.{ℕ, List, ◌≡◌, ◌<◌};
    ghost use Rattle.std.specs.List.{AllByRecursion};
    ghost use Rattle.evm_dev.specs.declared.kind.TheConstants.{CONSOLE_LIMIT};

    ghost Value = { List ℕ };

    ghost view = { λ console. console.bytes.items };

    ghost invariant = { λ console. (console.bytes.capacity ≡ CONSOLE_LIMIT) × AllByRecursion (λ byte. byte < 256) console.bytes.items };
}

impl Console {
    /// No byte.
    ///
    /// # Errors
    ///
    /// Where the allocation of its room failed.
    pub fn new(alloc: Global) -> Result<Console, NoMemory>
        ensures empty { IfOk result (λ console. console ≡ []) }
        ensures refused { OnErr result (RefusedWithin CONSOLE_LIMIT) }
    {
        match ring(alloc, CONSOLE_LIMIT) {
            Ok(bytes) => Ok(Console { bytes }),
            Err(refused) => {
                refused.within();
                Err(NoMemory)
            }
        }
    }

    fn fetch(&self, register: u8) -> Touch
        ensures words { self.now ≡ (touched kinds.Console ops.Fetch register 0 self.now).words }
        ensures answer { result ≡ (touched kinds.Console ops.Fetch register 0 self.now).touch }
    {
        match register {
            0 => Touch::answer(self.bytes.len() as u64),
            _ => Touch::NONE,
        }
    }

    fn put(&mut self, register: u8, value: u64) -> Touch
        ensures words { self.new ≡ (touched kinds.Console ops.Put register value self.old).words }
        ensures answer { result ≡ (touched kinds.Console ops.Put register value self.old).touch }
    {
        match register {
            0 => {
                self.print((value & 0xff) as u8);
                Touch::answer(0)
            }
            _ => Touch::NONE,
        }
    }

    // A full console takes no byte.
    fn print(&mut self, byte: u8)
        ensures { self.new ≡ printed byte self.old }
    {
        let _taken = self.bytes.try_push_back(byte);
    }
}

impl Device for Console {
    ghost kind_of = { λ _. kinds.Console };

    ghost words_of = { λ console. console };

    fn kind(&self) -> Kind {
        let _len = self.bytes.len();
        Kind::Console
    }

    fn words(&self, k: usize) -> Option<u64> {
        Some(u64::from(*self.bytes.get(k)?))
    }

    fn touch(&mut self, op: Op, register: u8, value: u64) -> Touch {
        match op {
            Op::Fetch => self.fetch(register),
            Op::Put => self.put(register, value),
        }
    }

    fn tick(&mut self) -> bool {
        false
    }
}

impl CopyFrom for Console {
    fn copy_from(&mut self, other: &Console) {
        copy_ring(&mut self.bytes, &other.bytes);
    }
}
