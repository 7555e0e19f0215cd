//! The lines of a text, cut one at a time.

ghost use Rattle.std.specs.Prelude.{◌≡◌, ◌<◌, length, MatchOption, IfSome, []};
ghost use Rattle.evm_text.specs.Lines.{Text, text_of, CutsLine};

use memchr::memchr;

/// The first line of some bytes, without its newline, and the bytes behind that; None where there is no newline.
pub fn cut_ended(bytes: &[u8]) -> Option<(&[u8], &[u8])>
    ensures lines { MatchOption result (text_of bytes.now ≡ Text.Open bytes.now) (λ cut. text_of bytes.now ≡ Text.Ended cut.0.now (text_of cut.1.now)) }
    ensures shorter { IfSome result (λ cut. length cut.1.now < length bytes.now) }
{
    match memchr(b'\n', bytes) {
        None => None,
        Some(end) => Some((&bytes[..end], &bytes[end + 1..])),
    }
}

/// The first line of some bytes, without its newline, which it may lack, and the bytes behind it; None where no byte is left.
pub fn cut_line(bytes: &[u8]) -> Option<(&[u8], &[u8])>
    ensures { MatchOption result (bytes.now ≡ []) (λ cut. CutsLine bytes.now cut.0.now cut.1.now) }
{
    if bytes.is_empty() {
        return None;
    }
    match cut_ended(bytes) {
        None => Some((bytes, &bytes[bytes.len()..])),
        Some((line, rest)) => Some((line, rest)),
    }
}
