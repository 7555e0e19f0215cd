//! Numbers in decimal, as the number of a line is written.

ghost use Rattle.std.specs.Prelude.{◌<◌, ◌+◌, ◌^◌};
ghost use Rattle.evm_text.specs.Written.{numeral};
ghost use Rattle.evm_streams.specs.Diagnostic.{Writes};

use crate::sink::{Sink, WriteFault};
use crate::writes::write_all;

/// Writes a number in decimal, which has at most `behind` digits after its first.
pub(crate) fn write_decimal<E: Sink>(
    number: u64,
    behind: u8,
    errors: &mut E,
) -> Result<(), WriteFault>
    requires { number < 10 ^ (behind + 1) }
    ensures { Writes E.takes (numeral 10 behind number) result errors.old errors.new }
{
    if number < 10 {
        return write_all(errors, &[b'0' + number as u8]);
    }
    write_decimal(number / 10, behind - 1, errors)?;
    write_all(errors, &[b'0' + (number % 10) as u8])
}
