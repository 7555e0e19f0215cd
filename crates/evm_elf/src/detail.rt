//! Details of a faulty file, beside the message of its fault.

ghost use Rattle.std.specs.Prelude.{◌≡◌, ◌+◌, ◌≤◌, length, option_copied};
ghost use Rattle.evm_elf.specs.Fields.{program_header};
ghost use Rattle.evm_elf.specs.Details.{begins_as_elf, short_detail, class_detail, machine_detail, kind_detail, segment_detail, outside_of, outside_at, first_outside, long_detail, image_detail, hint_of};

use crate::fault::ElfFault;
use crate::faults::{HEADER_SIZE, RISC_V, has_other_header_size};
use crate::header::{Header, byte_at, half_at, header_of, long_at};

/// What is behind the fault of a file.
#[derive(Clone, Copy, Debug, PartialEq, Eq)]
pub enum ImageDetail {
    /// The file has no bytes.
    Empty,
    /// It doesn't begin with `7f 45 4c 46`.
    NoElf,
    /// It is of 32 bits.
    Bits32,
    /// It is big-endian.
    BigEndian,
    /// It is for another machine, by `e_machine`.
    Machine(u16),
    /// It is an object file, ET_REL.
    Object,
    /// It is position-independent, ET_DYN.
    PositionIndependent,
    /// It has compressed instructions.
    Compressed,
    /// The size of a program header, in bytes, if it isn't 56.
    HeaderSize(u16),
    /// This program header, from 0, passes the end of the file.
    HeaderCut(u16),
    /// The bytes of the segment of this program header, from 0, end here, past the end of the file.
    Cut { index: u16, end: u128 },
    /// The memory of the segment of this program header, from 0, its end excluded.
    Outside { index: u16, start: u64, end: u128 },
    /// The address of the first instruction.
    Entry(u64),
}

impl ImageDetail {
    /// What the user can do about it. `None` for a detail that has a number.
    pub fn hint(self) -> Option<&'static str>
        ensures { option_copied result ≡ hint_of self }
    {
        match self {
            ImageDetail::Empty => Some("the file is empty, as `asm` leaves it after a fault"),
            ImageDetail::NoElf => Some("it is no ELF file"),
            ImageDetail::Bits32 => Some("it is of 32 bits: compile with -march=rv64i -mabi=lp64"),
            ImageDetail::BigEndian => Some("it is big-endian"),
            ImageDetail::Object => Some("it is an object file: link it"),
            ImageDetail::PositionIndependent => {
                Some("it is position-independent: link with -static -no-pie")
            }
            ImageDetail::Compressed => Some("compile with -march=rv64i -mabi=lp64"),
            _ => None,
        }
    }
}

/// Whether a file begins with `7f 45 4c 46`.
fn begins_as_elf(file: &[u8]) -> bool
    ensures { result ≡ begins_as_elf file.now }
{
    file.starts_with(&[0x7f, 0x45, 0x4c, 0x46])
}

/// Of a file that is shorter than a file header.
fn short_detail(file: &[u8]) -> Option<ImageDetail>
    ensures { result ≡ short_detail file.now }
{
    if file.is_empty() {
        Some(ImageDetail::Empty)
    } else if begins_as_elf(file) {
        None
    } else {
        Some(ImageDetail::NoElf)
    }
}

fn class_detail(file: &[u8]) -> Option<ImageDetail>
    requires { 64 ≤ length file.now }
    ensures { result ≡ class_detail file.now }
{
    if byte_at(file, 4) == 1 {
        Some(ImageDetail::Bits32)
    } else if byte_at(file, 5) == 2 {
        Some(ImageDetail::BigEndian)
    } else {
        None
    }
}

fn machine_detail(file: &[u8]) -> Option<ImageDetail>
    requires { 64 ≤ length file.now }
    ensures { result ≡ machine_detail file.now }
{
    Some(ImageDetail::Machine(half_at(file, 18)))
}

/// Of a file that is no executable: that it is for another machine comes first.
fn kind_detail(file: &[u8]) -> Option<ImageDetail>
    requires { 64 ≤ length file.now }
    ensures { result ≡ kind_detail file.now }
{
    if half_at(file, 18) != RISC_V {
        return machine_detail(file);
    }
    match half_at(file, 16) {
        1 => Some(ImageDetail::Object),
        3 => Some(ImageDetail::PositionIndependent),
        _ => None,
    }
}

/// Why the segment of a program header is outside of a file of `len` bytes, or of the range of memory.
fn outside_of(len: usize, index: u16, header: &Header) -> Option<ImageDetail>
    ensures { result ≡ outside_of len index header.now }
{
    if header.passes_end(len) {
        let end = u128::from(header.offset) + u128::from(header.filesz);
        Some(ImageDetail::Cut { index, end })
    } else if header.leaves_range() {
        let (start, end) = (header.address, header.end());
        Some(ImageDetail::Outside { index, start, end })
    } else {
        None
    }
}

fn outside_at(file: &[u8], index: u16) -> Option<ImageDetail>
    requires { 64 ≤ length file.now }
    ensures { result ≡ outside_at (length file.now) index (program_header file.now index) }
{
    match header_of(file, index) {
        None => Some(ImageDetail::HeaderCut(index)),
        Some(header) => {
            if header.is_load() {
                outside_of(file.len(), index, &header)
            } else {
                None
            }
        }
    }
}

/// The first of `count` program headers that is outside, and why.
#[tactic(auto, using(crate::proofs::First_outside::outside_more, crate::proofs::First_outside::outside_done))]
fn first_outside(file: &[u8], count: u16) -> Option<ImageDetail>
    requires { 64 ≤ length file.now }
    ensures { result ≡ first_outside file.now 0 count }
{
    for i in 0..count {
        let detail = outside_at(file, i);
        if detail.is_some() {
            return detail;
        }
    }
    None
}

fn segment_detail(file: &[u8]) -> Option<ImageDetail>
    requires { 64 ≤ length file.now }
    ensures { result ≡ segment_detail file.now }
{
    if has_other_header_size(file) {
        Some(ImageDetail::HeaderSize(half_at(file, 54)))
    } else {
        first_outside(file, half_at(file, 56))
    }
}

fn long_detail(file: &[u8], fault: ElfFault) -> Option<ImageDetail>
    requires { 64 ≤ length file.now }
    ensures { result ≡ long_detail file.now fault }
{
    match fault {
        ElfFault::Class => class_detail(file),
        ElfFault::Kind => kind_detail(file),
        ElfFault::MachineNumber => machine_detail(file),
        ElfFault::Compressed => Some(ImageDetail::Compressed),
        ElfFault::SegmentOutside => segment_detail(file),
        ElfFault::Entry => Some(ImageDetail::Entry(long_at(file, 24))),
        _ => None,
    }
}

/// The values of the file behind a fault, as an address. `None` if the message says all.
pub fn image_detail(file: &[u8], fault: ElfFault) -> Option<ImageDetail>
    ensures { result ≡ image_detail file.now fault }
{
    if file.len() < HEADER_SIZE {
        short_detail(file)
    } else {
        long_detail(file, fault)
    }
}
