//! Messages of the faults of a file.

ghost use Rattle.std.specs.Prelude.{◌≡◌, Some};
ghost use Rattle.evm_elf.specs.Messages.{elf_message};

use crate::fault::ElfFault;
use std::fmt;

impl ElfFault {
    /// What is wrong with the file, in words.
    pub fn message(self) -> &'static str
        ensures { result.now ≡ elf_message self }
    {
        match self {
            ElfFault::Short => "shorter than a file header, 64 bytes",
            ElfFault::Magic => "no ELF file",
            ElfFault::Class => "not of 64 bits, little-endian and of version 1",
            ElfFault::Kind => "no executable of version 1",
            ElfFault::MachineNumber => "not for RISC-V",
            ElfFault::Compressed => "compressed instructions",
            ElfFault::Dynamic => "linked dynamically",
            ElfFault::SegmentOutside => "segment outside 80000000..81000000, or outside the file",
            ElfFault::SegmentOverlap => "two segments share an address",
            ElfFault::SizeOrder => "segment with more bytes in the file than in memory",
            ElfFault::Entry => "entry outside 80000000..81000000, or no multiple of 4",
            ElfFault::NoMemory => "out of memory",
        }
    }
}

impl fmt::Display for ElfFault {
    ghost output = { λ fault. Some (elf_message fault) };

    fn fmt<W: fmt::Write>(&self, f: &mut fmt::Formatter<W>) -> fmt::Result {
        f.write_str(self.message())
    }
}
