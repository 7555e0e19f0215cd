//! Why a file is no image.

ghost use Rattle.std.specs.Prelude.{◌≡◌};
ghost use Rattle.evm_elf.specs.Faults.{file_fault_number};
ghost use Rattle.evm_elf.specs.declared.fault.ElfFault.TheVariants.{NoMemory};

use std::alloc::AllocError;
use thiserror::Error;

/// The first thing that is wrong with a file, in the order of the variants, or that memory ran out.
#[derive(Clone, Copy, Debug, Drop, PartialEq, Eq, Error)]
pub enum ElfFault {
    /// The file has fewer than 64 bytes.
    Short,
    /// It doesn't begin with `7f 45 4c 46`.
    Magic,
    /// It isn't of 64 bits, little-endian and of version 1.
    Class,
    /// It isn't an executable of version 1.
    Kind,
    /// The machine isn't RISC-V, 243.
    MachineNumber,
    /// The flags ask for compressed instructions.
    Compressed,
    /// A program header is of dynamic linking or of an interpreter.
    Dynamic,
    /// A program header isn't of 56 bytes or passes the file's end, or a segment passes it or leaves the
    /// range of memory.
    SegmentOutside,
    /// Two segments share an address.
    SegmentOverlap,
    /// A segment has more bytes in the file than in memory.
    SizeOrder,
    /// The entry isn't a multiple of 4 in the range of memory.
    Entry,
    /// Memory ran out.
    NoMemory,
}

impl ElfFault {
    /// The fault's number, 1 to 12 in the order of the variants.
    pub fn number(self) -> u8
        ensures { result ≡ file_fault_number self }
    {
        self as u8 + 1
    }
}

impl From<AllocError> for ElfFault {
    ghost from_gives = { λ _ e. e ≡ NoMemory };

    fn from(_e: AllocError) -> ElfFault {
        ElfFault::NoMemory
    }
}
