//! An image read from a file.

ghost use Rattle.std.specs.Prelude.{List, ℕ, Result};
ghost use Rattle.evm_streams.specs.declared.source.ReadStop.{ReadStop};
ghost use Rattle.evm_streams.specs.Reads.{Reads};
ghost use Rattle.evm_serve.specs.Playing.{WritesOnce};
ghost use Rattle.evm_serve.specs.Imaging.{Checks, Imports, no_image_report};

use crate::ending::{Ending, Halt, Verdict};
use crate::run_end::{ended, unread, write_report};
use crate::texts::no_image;
use evm_elf::{ElfFault, read_image};
use evm_ram::Image;
use evm_streams::{Sink, Source, read_all};
use std::alloc::Global;

// Reports the fault of a file.
#[tactic(auto, using(crate::proofs::Memory::memory))]
fn write_no_image<W: Sink>(alloc: Global, fault: ElfFault, writer: &mut W) -> Result<Verdict, Halt>
    ensures { WritesOnce W.takes (no_image_report fault) writer.old writer.new result }
{
    match no_image(alloc, fault) {
        Ok(text) => write_report(Verdict::ImageRefused(fault), text.as_bytes(), writer),
        Err(refused) => {
            refused.within();
            Err(Halt::NoMemory)
        }
    }
}

/// The image of a file that was read. If the file has a fault, the line `image CODE` is written; if an allocation
/// fails, the line `memory`.
///
/// # Errors
///
/// How the run ends, if there is no image.
pub fn import_bytes<W: Sink>(alloc: Global, file: &[u8], writer: &mut W) -> Result<Image, Ending>
    ensures { Checks W.takes file.now writer.old writer.new result }
{
    match read_image(alloc, file) {
        Ok(image) => Ok(image),
        Err(ElfFault::NoMemory) => Err(ended(Err(Halt::NoMemory), writer)),
        Err(fault) => {
            let outcome = write_no_image(alloc, fault, writer);
            Err(ended(outcome, writer))
        }
    }
}

/// Like `import_bytes`, of a file that it reads to its end. If the file can't be read, or has more than 16,777,216
/// bytes, nothing is written.
///
/// # Errors
///
/// How the run ends, if there is no image.
pub fn import<R: Source, W: Sink>(
    alloc: Global,
    reader: &mut R,
    writer: &mut W,
) -> Result<Image, Ending>
    ensures { (read : Result (List ℕ) ReadStop) × Reads R.gives reader.old reader.new read × Imports W.takes read writer.old writer.new result }
{
    match read_all(alloc, reader) {
        Ok(file) => import_bytes(alloc, file.as_slice(), writer),
        Err(stop) => Err(unread(stop, writer)),
    }
}
