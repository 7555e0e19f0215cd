//! Bytes read whole.

ghost use Rattle.std.specs.Prelude.{Result, MatchResult};
ghost use Rattle.std.specs.String.{string_bytes};
ghost use Rattle.evm_streams.specs.Reads.{Reads, ReadsText};

use crate::source::{ReadFault, ReadStop, Reading, Source};
use evm_room::grow;
use std::alloc::Global;

/// The most bytes that are read of a file, a script or a journal.
pub const FILE_LIMIT: usize = 16_777_216;

/// Reads a source to its end.
///
/// # Errors
///
/// A call of the source failed, it gave more than 16,777,216 bytes, or an allocation failed. No call is made again.
pub fn read_all<R: Source>(alloc: Global, source: &mut R) -> Result<Vec<u8>, ReadStop>
    ensures { MatchResult result (λ bytes. Reads R.gives source.old source.new (Result.Ok bytes.items)) (λ stop. Reads R.gives source.old source.new (Result.Err stop)) }
{
    let mut bytes = Vec::new(alloc);
    let mut part = [0u8; 16_384];
    'parts: loop {
        match source.read(&mut part) {
            Reading::Failed(cause) => return Err(ReadStop::Fault(ReadFault::Failed(cause))),
            Reading::Bytes(0) => return Ok(bytes),
            Reading::Bytes(n) => {
                if bytes.len() + n > FILE_LIMIT {
                    return Err(ReadStop::Fault(ReadFault::TooLong));
                }
                if let Err(refused) = grow(&mut bytes, n) {
                    refused.within();
                    return Err(ReadStop::NoMemory);
                }
                let Ok(()) = bytes.extend_from_slice(&part[..n]) else {
                    unreachable!();
                };
            }
        }
    }
}

/// Reads a source to its end as a text.
///
/// # Errors
///
/// Those of `read_all`, and `NotUtf8` where all bytes were read and are no UTF-8.
pub fn read_utf8<R: Source>(alloc: Global, source: &mut R) -> Result<String, ReadStop>
    ensures { MatchResult result (λ text. ReadsText R.gives source.old source.new (Result.Ok (string_bytes text))) (λ stop. ReadsText R.gives source.old source.new (Result.Err stop)) }
{
    let bytes = read_all(alloc, source)?;
    match String::from_utf8(bytes) {
        Ok(text) => {
            // Nothing is done: the proof has from it that the bytes are UTF-8.
            let _ = text.as_str();
            Ok(text)
        }
        Err(_) => Err(ReadStop::Fault(ReadFault::NotUtf8)),
    }
}
