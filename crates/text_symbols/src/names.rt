//! Names.

ghost use Rattle.std.specs.Prelude.{◌≡◌, ◌≤◌, ◌<◌, IfSome, length, take, drop, option_copied, if◌then◌else◌, Some, None};
ghost use Rattle.std.specs.Str.{is_utf8};
ghost use Rattle.text_symbols.specs.Names.{zero_from, name_text, text_by, name_at};

/// The most bytes of a name. A symbol with a longer name is left out.
pub(crate) const NAME_LIMIT: u64 = 255;

/// The bytes as a text.
fn text(bytes: &[u8]) -> Option<&str>
    ensures { option_copied result ≡ (if is_utf8 bytes.now then Some bytes.now else None) }
{
    match std::str::from_utf8(bytes) {
        Ok(text) => Some(text),
        Err(_) => None,
    }
}

/// How many bytes stand before the first zero.
fn zero_in(bytes: &[u8]) -> Option<usize>
    ensures first { result ≡ zero_from 0 bytes.now }
    ensures inside { IfSome result (λ n. n < length bytes.now) }
{
    for (i, byte) in bytes.iter().enumerate() {
        if *byte == 0 {
            return Some(i);
        }
    }
    None
}

fn name_text(n: usize, bytes: &[u8]) -> Option<&str>
    requires { n ≤ length bytes.now }
    ensures text { option_copied result ≡ name_text n bytes.now }
    ensures short { IfSome result (λ name. length name.now ≤ n) }
{
    if n == 0 { None } else { text(&bytes[..n]) }
}

/// At most `most` bytes from an offset on.
fn bytes_from(bytes: &[u8], at: u64, most: u64) -> &[u8]
    ensures bytes { result.now ≡ take most (drop at bytes.now) }
    ensures short { length result.now ≤ most }
{
    let start = at.min(bytes.len() as u64) as usize;
    let rest = &bytes[start..];
    let len = most.min(rest.len() as u64) as usize;
    &rest[..len]
}

/// The name in some bytes, which a zero ends.
fn name_in(bytes: &[u8]) -> Option<&str>
    requires { length bytes.now ≤ 256 }
    ensures name { option_copied result ≡ text_by (zero_from 0 bytes.now) bytes.now }
    ensures short { IfSome result (λ name. length name.now ≤ 255) }
{
    match zero_in(bytes) {
        None => None,
        Some(n) => name_text(n, bytes),
    }
}

/// The name at an offset of a section of names.
#[tactic(auto, unfolding(crate::specs::Names::name_at))]
pub(crate) fn name_at(at: u32, names: &[u8]) -> Option<&str>
    ensures name { option_copied result ≡ name_at at names.now }
    ensures short { IfSome result (λ name. length name.now ≤ 255) }
{
    name_in(bytes_from(names, u64::from(at), NAME_LIMIT + 1))
}
