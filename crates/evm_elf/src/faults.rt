//! The first fault of a file.

ghost use Rattle.std.specs.Prelude.{◌≡◌, ◌≤◌, List, [], ◌∷◌, length};
ghost use Rattle.std.specs.List.{find};
ghost use Rattle.evm_elf.specs.declared.fault.ElfFault.TheVariants.{Magic, Class, Kind, MachineNumber, Compressed, Dynamic, SegmentOutside, SegmentOverlap, SizeOrder, Entry};
ghost use Rattle.evm_elf.specs.Faults.{file_has, fault_of, has_other_class, has_other_kind, has_other_header_size, is_entry};

use crate::fault::ElfFault;
use crate::header::{RANGE_END, RANGE_START, byte_at, half_at, long_at, word_at};
use crate::overlap::any_shared;
use crate::segments::{any_dynamic, any_outside, any_overfull};
use std::alloc::Global;

/// The first four bytes of the file, `7f 45 4c 46`, and the number of the machine RISC-V.
const MAGIC: u32 = 0x464c_457f;

pub(crate) const RISC_V: u16 = 243;

/// The bytes of the file header.
pub(crate) const HEADER_SIZE: usize = 64;

/// Whether the file isn't of 64 bits, little-endian and of version 1.
fn has_other_class(file: &[u8]) -> bool
    requires { 64 ≤ length file.now }
    ensures { result ≡ has_other_class file.now }
{
    byte_at(file, 4) != 2 || byte_at(file, 5) != 1 || byte_at(file, 6) != 1
}

/// Whether the file isn't an executable of version 1.
fn has_other_kind(file: &[u8]) -> bool
    requires { 64 ≤ length file.now }
    ensures { result ≡ has_other_kind file.now }
{
    half_at(file, 16) != 2 || word_at(file, 20) != 1
}

/// Whether there are program headers, and not of 56 bytes.
pub(crate) fn has_other_header_size(file: &[u8]) -> bool
    requires { 64 ≤ length file.now }
    ensures { result ≡ has_other_header_size file.now }
{
    half_at(file, 56) != 0 && half_at(file, 54) != 56
}

/// Whether an instruction of an image can stand at the address.
fn is_entry(address: u64) -> bool
    ensures { result ≡ is_entry address }
{
    address.is_multiple_of(4) && (RANGE_START..RANGE_END).contains(&address)
}

/// The first fault of the file header, the entry apart.
#[tactic(auto, unfolding(crate::specs::Faults::file_has))]
fn header_fault(file: &[u8]) -> Option<ElfFault>
    requires { 64 ≤ length file.now }
    ensures { result ≡ find (file_has file.now) (Magic ∷ Class ∷ Kind ∷ MachineNumber ∷ Compressed ∷ []) }
{
    if word_at(file, 0) != MAGIC {
        Some(ElfFault::Magic)
    } else if has_other_class(file) {
        Some(ElfFault::Class)
    } else if has_other_kind(file) {
        Some(ElfFault::Kind)
    } else if half_at(file, 18) != RISC_V {
        Some(ElfFault::MachineNumber)
    } else if word_at(file, 48) % 2 == 1 {
        Some(ElfFault::Compressed)
    } else {
        None
    }
}

/// The first fault of the program headers, their segments and the entry.
#[tactic(auto, unfolding(crate::specs::Faults::file_has))]
fn segment_fault(alloc: Global, file: &[u8]) -> Option<ElfFault>
    requires { 64 ≤ length file.now }
    ensures { result ≡ find (file_has file.now) (Dynamic ∷ SegmentOutside ∷ SegmentOverlap ∷ SizeOrder ∷ Entry ∷ []) }
{
    let count = half_at(file, 56);
    if any_dynamic(file, count) {
        Some(ElfFault::Dynamic)
    } else if has_other_header_size(file) || any_outside(file, count) {
        Some(ElfFault::SegmentOutside)
    } else if any_shared(alloc, file, count) {
        Some(ElfFault::SegmentOverlap)
    } else if any_overfull(file, count) {
        Some(ElfFault::SizeOrder)
    } else if !is_entry(long_at(file, 24)) {
        Some(ElfFault::Entry)
    } else {
        None
    }
}

/// The first fault of the file. Memory is taken to be fast, and isn't needed.
#[tactic(auto, unfolding(crate::specs::Faults::file_has, crate::specs::Faults::fault_of))]
pub(crate) fn first_fault(alloc: Global, file: &[u8]) -> Option<ElfFault>
    ensures { result ≡ fault_of file.now }
{
    if file.len() < HEADER_SIZE {
        return Some(ElfFault::Short);
    }
    match header_fault(file) {
        Some(fault) => Some(fault),
        None => segment_fault(alloc, file),
    }
}
