//! Bytes written whole.

ghost use Rattle.std.specs.Prelude.{MatchResult};
ghost use Rattle.evm_streams.specs.Writes.{Took, TookPrefix};

use crate::cause::Cause;
use crate::sink::{Sink, WriteFault, Writing};

/// Writes all of some bytes.
///
/// # Errors
///
/// A call of the sink failed or took none of the bytes that were left. No call is made again.
pub fn write_all<W: Sink>(sink: &mut W, text: &[u8]) -> Result<(), WriteFault>
    ensures { MatchResult result (λ _. Took W.takes sink.old text.now sink.new) (λ _. TookPrefix W.takes sink.old text.now sink.new) }
{
    let mut rest = text;
    'calls: while !rest.is_empty() {
        match sink.write(rest) {
            Writing::Failed(cause) => return Err(WriteFault { cause }),
            Writing::Bytes(0) => {
                return Err(WriteFault {
                    cause: Cause::TookNone,
                });
            }
            Writing::Bytes(n) => rest = &rest[n..],
        }
    }
    Ok(())
}
