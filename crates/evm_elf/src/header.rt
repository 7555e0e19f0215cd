//! The fields of an ELF64 file.

ghost use Rattle.std.specs.Prelude.{◌≡◌, ◌+◌, ◌≤◌, length};
ghost use Rattle.evm_elf.specs.Fields.{number, header_at, program_header};
ghost use Rattle.evm_elf.specs.Faults.{is_load, load_of, is_dynamic, passes_end, leaves_range, share, is_overfull, occupies};

use byteorder::{ByteOrder, LittleEndian};
use evm_ram::{BASE, SIZE_LIMIT};

/// `p_type` of a segment to be loaded, of dynamic linking and of an interpreter's name.
pub(crate) const PT_LOAD: u32 = 1;

const PT_DYNAMIC: u32 = 2;

const PT_INTERP: u32 = 3;

/// The range of memory of images, its end excluded.
pub(crate) const RANGE_START: u64 = BASE;

pub(crate) const RANGE_END: u64 = BASE + SIZE_LIMIT;

/// The fields of a program header that matter here.
#[derive(Clone, Copy, Debug)]
pub(crate) struct Header {
    pub kind: u32,
    pub offset: u64,
    pub address: u64,
    pub filesz: u64,
    pub memsz: u64,
}

impl Header {
    /// Whether the segment is one to be loaded.
    pub fn is_load(&self) -> bool
        ensures { result ≡ is_load self.now }
    {
        self.kind == PT_LOAD
    }

    /// Whether the header is of dynamic linking or of an interpreter's name.
    pub fn is_dynamic(&self) -> bool
        ensures { result ≡ is_dynamic (Some self.now) }
    {
        self.kind == PT_DYNAMIC || self.kind == PT_INTERP
    }

    /// Whether the segment takes memory.
    pub fn occupies(&self) -> bool
        ensures { result ≡ occupies self.now }
    {
        self.memsz != 0
    }

    /// The end of the segment's memory, which doesn't wrap.
    pub fn end(&self) -> u128
        ensures { result ≡ self.now.address + self.now.memsz }
    {
        u128::from(self.address) + u128::from(self.memsz)
    }

    /// Whether the segment's file bytes pass the end of a file of `len` bytes.
    pub fn passes_end(&self, len: usize) -> bool
        ensures { result ≡ passes_end len self.now }
    {
        self.filesz != 0 && u128::from(self.offset) + u128::from(self.filesz) > len as u128
    }

    /// Whether the segment's memory leaves the range of images.
    pub fn leaves_range(&self) -> bool
        ensures { result ≡ leaves_range self.now }
    {
        self.memsz != 0 && (self.address < RANGE_START || self.end() > u128::from(RANGE_END))
    }

    /// Whether some address is in the memory of both segments.
    pub fn shares_with(&self, other: &Header) -> bool
        ensures { result ≡ share self.now other.now }
    {
        u128::from(self.address.max(other.address)) < self.end().min(other.end())
    }

    /// Whether there is more of the segment in the file than in memory.
    pub fn is_overfull(&self) -> bool
        ensures { result ≡ is_overfull self.now }
    {
        self.filesz > self.memsz
    }
}

/// The byte at an offset.
#[tactic(auto, unfolding(crate::specs::Fields::number))]
pub(crate) fn byte_at(file: &[u8], at: usize) -> u8
    requires { at + 1 ≤ length file.now }
    ensures { result ≡ number 1 at file.now }
{
    file[at]
}

/// The 16-bit number at an offset.
#[tactic(auto, unfolding(crate::specs::Fields::number))]
pub(crate) fn half_at(file: &[u8], at: usize) -> u16
    requires { at + 2 ≤ length file.now }
    ensures { result ≡ number 2 at file.now }
{
    LittleEndian::read_u16(&file[at..])
}

/// The 32-bit number at an offset.
#[tactic(auto, unfolding(crate::specs::Fields::number))]
pub(crate) fn word_at(file: &[u8], at: usize) -> u32
    requires { at + 4 ≤ length file.now }
    ensures { result ≡ number 4 at file.now }
{
    LittleEndian::read_u32(&file[at..])
}

/// The 64-bit number at an offset.
#[tactic(auto, unfolding(crate::specs::Fields::number))]
pub(crate) fn long_at(file: &[u8], at: usize) -> u64
    requires { at + 8 ≤ length file.now }
    ensures { result ≡ number 8 at file.now }
{
    LittleEndian::read_u64(&file[at..])
}

/// Program header `index`, or `None` where it passes the end of the file.
#[tactic(auto, unfolding(crate::specs::Fields::program_header, crate::specs::Fields::header_at))]
pub(crate) fn header_of(file: &[u8], index: u16) -> Option<Header>
    requires { 64 ≤ length file.now }
    ensures { result ≡ program_header file.now index }
{
    let at = u128::from(long_at(file, 32)) + 56 * u128::from(index);
    if at + 56 <= file.len() as u128 {
        let at = at as usize;
        Some(Header {
            kind: word_at(file, at),
            offset: long_at(file, at + 8),
            address: long_at(file, at + 16),
            filesz: long_at(file, at + 32),
            memsz: long_at(file, at + 40),
        })
    } else {
        None
    }
}

/// Program header `index`, where it is one of a segment to be loaded.
pub(crate) fn load_header(file: &[u8], index: u16) -> Option<Header>
    requires { 64 ≤ length file.now }
    ensures { result ≡ load_of (program_header file.now index) }
{
    let header = header_of(file, index)?;
    if header.is_load() { Some(header) } else { None }
}
