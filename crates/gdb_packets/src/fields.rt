//! Numbers, threads and spans of bytes in a payload.

ghost use Rattle.std.specs.Prelude.{◌≡◌};
ghost use Rattle.evm_text.specs.Reading.{ReadsAs};
ghost use Rattle.gdb_packets.specs.Commands.{number_to, numbered_thread, span_at, thread_at, thread_last, thread_of, write_in};

use evm_text::{after_word, hexadecimal_at};

/// A number, and a mark behind it.
#[tactic(auto, unfolding(crate::specs::Commands::number_to))]
pub(crate) fn number_to<'a>(mark: &[u8], bytes: &'a [u8]) -> Option<(u64, &'a [u8])>
    ensures { ReadsAs (λ x. (x.0, x.1.now)) result (number_to mark.now bytes.now) }
{
    let (number, rest) = hexadecimal_at(bytes)?;
    Some((number, after_word(mark, rest)?))
}

fn thread_of(number: u64) -> Option<Option<u8>>
    ensures { result ≡ thread_of number }
{
    if number == 0 {
        Some(None)
    } else if number < 256 {
        Some(Some((number - 1) as u8))
    } else {
        None
    }
}

#[tactic(auto, unfolding(crate::specs::Commands::numbered_thread))]
fn numbered_thread(bytes: &[u8]) -> Option<(Option<u8>, &[u8])>
    ensures { ReadsAs (λ x. (x.0, x.1.now)) result (numbered_thread bytes.now) }
{
    let (number, rest) = hexadecimal_at(bytes)?;
    let thread = thread_of(number)?;
    Some((thread, rest))
}

/// A thread: -1 and 0 are any.
#[tactic(auto, unfolding(crate::specs::Commands::thread_at))]
pub(crate) fn thread_at(bytes: &[u8]) -> Option<(Option<u8>, &[u8])>
    ensures { ReadsAs (λ x. (x.0, x.1.now)) result (thread_at bytes.now) }
{
    if let Some(rest) = after_word(b"-1", bytes) {
        return Some((None, rest));
    }
    numbered_thread(bytes)
}

/// A thread, with nothing behind it.
#[tactic(auto, unfolding(crate::specs::Commands::thread_last))]
pub(crate) fn thread_last(bytes: &[u8]) -> Option<Option<u8>>
    ensures { result ≡ thread_last bytes.now }
{
    let (thread, rest) = thread_at(bytes)?;
    if rest.is_empty() { Some(thread) } else { None }
}

/// An address and a count with a comma between them.
#[tactic(auto, unfolding(crate::specs::Commands::span_at))]
pub(crate) fn span_at(bytes: &[u8]) -> Option<((u64, u64), &[u8])>
    ensures { ReadsAs (λ x. (x.0, x.1.now)) result (span_at bytes.now) }
{
    let (address, rest) = number_to(b",", bytes)?;
    let (count, rest) = hexadecimal_at(rest)?;
    Some(((address, count), rest))
}

/// An address and a count, and a colon behind them.
#[tactic(auto, unfolding(crate::specs::Commands::write_in))]
pub(crate) fn write_in(bytes: &[u8]) -> Option<((u64, u64), &[u8])>
    ensures { ReadsAs (λ x. (x.0, x.1.now)) result (write_in bytes.now) }
{
    let (span, rest) = span_at(bytes)?;
    Some((span, after_word(b":", rest)?))
}
