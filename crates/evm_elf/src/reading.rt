//! Files read as images.

ghost use Rattle.std.specs.Prelude.{◌≡◌, ◌≢◌, ◌≤◌, ◌↔◌, ℕ, ◌∷◌, [], ◌++◌, map, take, drop, length, IfOk, IfErr, OnOk, None, Some, Err};
ghost use Rattle.std.specs.List.{filter_map};
ghost use Rattle.evm_elf.specs.declared.fault.ElfFault.{ElfFault};
ghost use Rattle.evm_elf.specs.Fields.{headers_from};
ghost use Rattle.evm_elf.specs.Faults.{load_of, segment_of, fault_of, image_of, Loads};
ghost use Rattle.evm_room.specs.Growth.{RefusedWithin};

use crate::fault::ElfFault;
use crate::faults::first_fault;
use crate::header::{Header, half_at, load_header, long_at};
use evm_ram::{Image, Segment};
use evm_room::{Refused, grow};
use std::alloc::Global;

/// The `filesz` bytes of the file from `offset` on, or what there is of them.
fn file_bytes(file: &[u8], offset: u64, filesz: u64) -> &[u8]
    ensures bytes { result.now ≡ take filesz (drop offset file.now) }
    ensures short { length result.now ≤ length file.now }
{
    let start = offset.min(file.len() as u64) as usize;
    let rest = &file[start..];
    let len = filesz.min(rest.len() as u64) as usize;
    &rest[..len]
}

/// The same bytes once more.
fn copied(alloc: Global, part: &[u8]) -> Result<Vec<u8>, Refused>
    ensures ok { IfOk result (λ bytes. bytes.items ≡ part.now) }
    ensures refused { IfErr result (λ asked. asked ≡ length part.now) }
{
    let mut bytes = Vec::new(alloc);
    grow(&mut bytes, part.len())?;
    match bytes.extend_from_slice(part) {
        Ok(()) => Ok(bytes),
        Err(_) => unreachable!(),
    }
}

/// The segment of a header.
fn segment(alloc: Global, file: &[u8], header: &Header) -> Result<Segment, Refused>
    ensures ok { IfOk result (λ s. s ≡ segment_of file.now header.now) }
    ensures refused { IfErr result (λ asked. asked ≤ length file.now) }
{
    let bytes = copied(alloc, file_bytes(file, header.offset, header.filesz))?;
    Ok(Segment::new(header.address, bytes, header.memsz))
}

/// Puts the segment of a header behind the others.
fn push_segment(
    loaded: &mut Vec<Segment>,
    alloc: Global,
    file: &[u8],
    header: &Header,
) -> Result<(), Refused>
    requires { 64 ≤ length file.now }
    ensures ok { OnOk result (loaded.new.items ≡ loaded.old.items ++ segment_of file.now header.now ∷ []) }
    ensures refused { IfErr result (λ asked. asked ≤ length file.now) }
{
    let segment = segment(alloc, file, header)?;
    grow(loaded, 1)?;
    loaded.push_reserved(segment);
    Ok(())
}

/// The segments of the first `count` program headers, in their order.
fn segments(alloc: Global, file: &[u8], count: u16) -> Result<Vec<Segment>, Refused>
    requires { 64 ≤ length file.now }
    ensures ok { IfOk result (λ v. v.items ≡ map (segment_of file.now) (filter_map load_of (headers_from file.now 0 count))) }
    // It gives up only where a growth was refused that isn't greater than the file.
    ensures refused { IfErr result (λ asked. asked ≤ length file.now) }
{
    let mut loaded = Vec::new(alloc);
    for i in 0..count {
        if let Some(header) = load_header(file, i) {
            push_segment(&mut loaded, alloc, file, &header)?;
        }
    }
    Ok(loaded)
}

/// The image of a file without a fault.
#[tactic(auto, unfolding(crate::specs::Faults::image_of))]
fn image(alloc: Global, file: &[u8]) -> Result<Image, Refused>
    requires long { 64 ≤ length file.now }
    requires sound { fault_of file.now ≡ None }
    ensures ok { IfOk result (λ image. Loads file.now image) }
    ensures refused { IfErr result (λ asked. asked ≤ length file.now) }
{
    let segments = segments(alloc, file, half_at(file, 56))?;
    Ok(Image::new(long_at(file, 24), segments))
}

/// Reads an ELF64 file as an image (System V gABI, chapters 4 and 5).
///
/// # Errors
///
/// The first fault of the file, in the order of their numbers; `NoMemory` if the file has none and an allocation fails.
#[tactic(auto, using(crate::proofs::Sound::has_header, crate::proofs::Sound::never_memory))]
pub fn read_image(alloc: Global, file: &[u8]) -> Result<Image, ElfFault>
    ensures ok { IfOk result (λ image. (fault_of file.now ≡ None) × Loads file.now image) }
    ensures fault { (fault : ElfFault) → fault ≢ ElfFault.NoMemory → (result ≡ Err fault) ↔ (fault_of file.now ≡ Some fault) }
    ensures memory { result ≡ Err ElfFault.NoMemory → fault_of file.now ≡ None }
    // Memory ran out only where a growth was refused that isn't greater than the file.
    ensures refused { result ≡ Err ElfFault.NoMemory → RefusedWithin (length file.now) }
{
    if let Some(fault) = first_fault(alloc, file) {
        return Err(fault);
    }
    match image(alloc, file) {
        Ok(image) => Ok(image),
        Err(refused) => {
            refused.within();
            Err(ElfFault::NoMemory)
        }
    }
}
