//! How answers are written.

use std::fmt::Debug;
use std::io;

/// Appends a text.
pub(crate) fn push(out: &mut String, text: &str) -> io::Result<()> {
    out.push_str(text)?;
    Ok(())
}

/// Appends a byte: one that is printable as it is.
fn push_byte(out: &mut String, byte: u8) -> io::Result<()> {
    match byte {
        b'\n' => push(out, "\\n"),
        b'\t' => push(out, "\\t"),
        b'\r' => push(out, "\\r"),
        b' '..=b'~' => Ok(out.push(char::from(byte))?),
        _ => Ok(write!(out, "\\x{byte:02x}")?),
    }
}

/// Appends bytes between quotes.
pub(crate) fn push_quoted(out: &mut String, bytes: &[u8]) -> io::Result<()> {
    push(out, "\"")?;
    for byte in bytes {
        push_byte(out, *byte)?;
    }
    push(out, "\"")
}

/// Appends a blank, where there is something in front of it.
pub(crate) fn push_gap(out: &mut String) -> io::Result<()> {
    push(out, if out.is_empty() { "" } else { " " })
}

/// Appends bytes as pairs of hexadecimal digits, or `none` where there are none.
pub(crate) fn push_hex(out: &mut String, bytes: &[u8]) -> io::Result<()> {
    if bytes.is_empty() {
        return push(out, "none");
    }
    for byte in bytes {
        write!(out, "{byte:02x}")?;
    }
    Ok(())
}

/// Appends bytes between quotes, or `none`.
pub(crate) fn push_some_quoted(out: &mut String, bytes: Option<&[u8]>) -> io::Result<()> {
    match bytes {
        Some(bytes) => push_quoted(out, bytes),
        None => push(out, "none"),
    }
}

/// Appends a decimal number, or `none`.
pub(crate) fn push_some_decimal(out: &mut String, number: Option<u64>) -> io::Result<()> {
    match number {
        Some(number) => Ok(write!(out, "{number}")?),
        None => push(out, "none"),
    }
}

/// Appends a hexadecimal number, or `none`.
pub(crate) fn push_some_hexadecimal(out: &mut String, number: Option<u64>) -> io::Result<()> {
    match number {
        Some(number) => Ok(write!(out, "{number:x}")?),
        None => push(out, "none"),
    }
}

/// Appends `yes` or `no`.
pub(crate) fn push_yes(out: &mut String, yes: bool) -> io::Result<()> {
    push(out, if yes { "yes" } else { "no" })
}

/// Appends a value in the words of its type, or `none`.
pub(crate) fn push_some<T: Debug + Drop>(out: &mut String, value: Option<T>) -> io::Result<()> {
    match value {
        Some(value) => Ok(write!(out, "{value:?}")?),
        None => push(out, "none"),
    }
}
