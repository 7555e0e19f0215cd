//! Printable ASCII.

/// Whether a byte is printable ASCII, from blank to `~`.
pub(crate) fn is_printable(c: u8) -> bool {
    b' ' <= c && c <= b'~'
}

/// The first byte of a line that is not printable.
pub fn odd_byte(line: &[u8]) -> Option<u8> {
    for byte in line.iter() {
        if !is_printable(*byte) {
            return Some(*byte);
        }
    }
    None
}
