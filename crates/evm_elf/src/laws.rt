//! What holds of every file and every program.

ghost use Rattle.std.specs.Prelude.{◌≡◌, ◌≤◌, ◌+◌, ◌↔◌, ℕ, List, length, slice_index, true, Some, None};
ghost use Rattle.evm_elf.specs.declared.fault.ElfFault.TheVariants.{SegmentOverlap};
ghost use Rattle.evm_ram.specs.Images.{byte_at, range_start, IsSound};
ghost use Rattle.evm_elf.specs.Files.{file_of, image_of_bytes};
ghost use Rattle.evm_elf.specs.Programs.{AssembledIsRead, WordsAreLoaded};
ghost use Rattle.evm_elf.specs.declared.writing.TheConstants.{PROGRAM_MAX};
ghost use Rattle.evm_elf.specs.Faults.{file_has, fault_of, image_of, IsTakenTwice, load_headers};

use evm_asm::{programs_fit, words_stand};

/// An accepted file's entry is aligned and in the range. Its segments lie in the range, take room for all of
/// their bytes, and no two take one address, so that each address has the byte of its one segment.
pub fn accepted_is_sound()
    ensures { (file : List ℕ) → fault_of file ≡ None → IsSound (image_of file) }
{}

/// Segments overlap if and only if some address is in the memory of two of them.
pub fn overlap_is_shared_address()
    ensures { (file : List ℕ) → (file_has file SegmentOverlap ≡ true) ↔ IsTakenTwice (load_headers file) }
{}

/// What `write_bytes` writes is read again as the program: the file has no fault, and its image is one
/// segment of these bytes at the start of the range, where the program begins.
pub fn written_is_read()
    ensures accepted { (bytes : List ℕ) → length bytes ≤ PROGRAM_MAX → fault_of (file_of bytes) ≡ None }
    ensures image { (bytes : List ℕ) → length bytes ≤ PROGRAM_MAX → image_of (file_of bytes) ≡ image_of_bytes bytes }
    ensures bytes { (bytes : List ℕ) (i : ℕ) → byte_at (image_of_bytes bytes) (range_start + i) ≡ slice_index bytes i }
{}

/// What `write_image` writes of the program of a source is read again as that program: the file has no fault,
/// and its image is one segment of the program's bytes at the start of the range.
pub fn assembled_is_read()
    ensures { AssembledIsRead }
{
    programs_fit();
}

/// In the image of the program of a source the word of each line stands at the line's address.
pub fn words_are_loaded()
    ensures { WordsAreLoaded }
{
    programs_fit();
    words_stand();
}
