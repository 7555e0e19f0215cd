//! Images written as files.

ghost use Rattle.std.specs.Prelude.{◌≡◌, ◌≤◌, ◌+◌, ◌++◌, length, IfOk, IfErr, OnErr, vec_len, vec_capacity};
ghost use Rattle.byteorder.specs.Endian.{little_bytes};
ghost use Rattle.evm_elf.specs.Files.{load_header, file_of};
ghost use Rattle.evm_room.specs.Growth.{RefusedWithin};

use crate::header::{PT_LOAD, RANGE_START};
use evm_asm::Program;
use evm_ram::SIZE_LIMIT;
use evm_room::{NoMemory, Refused, grow};
use std::alloc::Global;

/// The most bytes that a program can have, those of the range of memory.
pub const PROGRAM_MAX: usize = SIZE_LIMIT as usize;

/// `p_flags` of a segment that may be read, written and executed.
const READ_WRITE_EXECUTE: u32 = 7;

/// The bytes of both headers, where a program's own bytes begin.
const PROGRAM_OFFSET: usize = 120;

/// The file header of each program: an executable of 64 bits, little-endian, for RISC-V without flags, that
/// begins at the start of the range and has one program header.
const FILE_HEADER: [u8; 64] = [
    // e_ident: the magic number, the class, the encoding and the version
    0x7f, 0x45, 0x4c, 0x46, 2, 1, 1, 0, 0, 0, 0, 0, 0, 0, 0, 0,
    // e_type, e_machine and e_version
    2, 0, 243, 0, 1, 0, 0, 0,
    // e_entry
    0, 0, 0, 0x80, 0, 0, 0, 0,
    // e_phoff and e_shoff
    64, 0, 0, 0, 0, 0, 0, 0, 0, 0, 0, 0, 0, 0, 0, 0,
    // e_flags
    0, 0, 0, 0,
    // e_ehsize, e_phentsize and e_phnum
    64, 0, 56, 0, 1, 0,
    // e_shentsize, e_shnum and e_shstrndx
    0, 0, 0, 0, 0, 0,
];

/// Writes a 32-bit number at the end.
fn push_word(file: &mut Vec<u8>, number: u32)
    requires { vec_len file.old + 4 ≤ vec_capacity file.old }
    ensures items { file.new.items ≡ file.old.items ++ little_bytes 4 number }
    ensures len { vec_len file.new ≡ vec_len file.old + 4 }
    ensures capacity { vec_capacity file.old ≤ vec_capacity file.new }
{
    let Ok(()) = file.extend_from_slice(&number.to_le_bytes()) else {
        unreachable!();
    };
}

/// Writes a 64-bit number at the end.
fn push_long(file: &mut Vec<u8>, number: u64)
    requires { vec_len file.old + 8 ≤ vec_capacity file.old }
    ensures items { file.new.items ≡ file.old.items ++ little_bytes 8 number }
    ensures len { vec_len file.new ≡ vec_len file.old + 8 }
    ensures capacity { vec_capacity file.old ≤ vec_capacity file.new }
{
    let Ok(()) = file.extend_from_slice(&number.to_le_bytes()) else {
        unreachable!();
    };
}

/// Writes the program header of `len` bytes at the end.
fn push_load_header(file: &mut Vec<u8>, len: u64)
    requires { vec_len file.old + 56 ≤ vec_capacity file.old }
    ensures items { file.new.items ≡ file.old.items ++ load_header len }
    ensures len { vec_len file.new ≡ vec_len file.old + 56 }
    ensures capacity { vec_capacity file.old ≤ vec_capacity file.new }
{
    push_word(file, PT_LOAD); // p_type
    push_word(file, READ_WRITE_EXECUTE); // p_flags
    push_long(file, PROGRAM_OFFSET as u64); // p_offset
    push_long(file, RANGE_START); // p_vaddr
    push_long(file, RANGE_START); // p_paddr
    push_long(file, len); // p_filesz
    push_long(file, len); // p_memsz
    push_long(file, 4); // p_align
}

/// The same, or the growth that was refused.
#[tactic(auto, unfolding(crate::specs::Files::file_of))]
fn written(alloc: Global, bytes: &[u8]) -> Result<Vec<u8>, Refused>
    requires { length bytes.now ≤ PROGRAM_MAX }
    ensures ok { IfOk result (λ file. file.items ≡ file_of bytes.now) }
    // It gives up only where room for the file was refused.
    ensures refused { IfErr result (λ asked. asked ≡ PROGRAM_OFFSET + length bytes.now) }
{
    let mut file = Vec::new(alloc);
    grow(&mut file, PROGRAM_OFFSET + bytes.len())?;
    let Ok(()) = file.extend_from_slice(&FILE_HEADER) else {
        unreachable!();
    };
    push_load_header(&mut file, bytes.len() as u64);
    let Ok(()) = file.extend_from_slice(bytes) else {
        unreachable!();
    };
    Ok(file)
}

/// The ELF64 file of a program of at most 16,777,216 bytes: one segment, which is loaded at 0x80000000 and entered at its first byte.
///
/// # Errors
///
/// `NoMemory` if an allocation fails; none is larger than the file.
#[tactic(auto, using(crate::proofs::Written::length_file))]
pub fn write_bytes(alloc: Global, bytes: &[u8]) -> Result<Vec<u8>, NoMemory>
    requires { length bytes.now ≤ PROGRAM_MAX }
    ensures ok { IfOk result (λ file. file.items ≡ file_of bytes.now) }
    // It gives up only where a growth was refused that isn't greater than the file.
    ensures refused { OnErr result (RefusedWithin (length (file_of bytes.now))) }
{
    match written(alloc, bytes) {
        Ok(file) => Ok(file),
        Err(refused) => {
            refused.within();
            Err(NoMemory)
        }
    }
}

/// The ELF64 file of an assembled program, as `write_bytes` makes it.
///
/// # Errors
///
/// `NoMemory` if an allocation fails.
pub fn write_image(alloc: Global, program: &Program) -> Result<Vec<u8>, NoMemory>
    ensures ok { IfOk result (λ file. file.items ≡ file_of program.now.bytes) }
    // It gives up only where a growth was refused that isn't greater than the file.
    ensures refused { OnErr result (RefusedWithin (length (file_of program.now.bytes))) }
{
    write_bytes(alloc, program.bytes())
}
