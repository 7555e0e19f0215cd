//! Little-endian numbers of a file.

ghost use Rattle.std.specs.Prelude.{◌≡◌, ◌+◌, ◌≤◌, length};
ghost use Rattle.text_symbols.specs.Fields.{field_at};

use byteorder::{ByteOrder, LittleEndian};

/// The byte at an offset.
#[tactic(auto, unfolding(crate::specs::Fields::field_at))]
pub(crate) fn byte_at(file: &[u8], at: usize) -> u8
    requires { at + 1 ≤ length file.now }
    ensures { result ≡ field_at 1 at file.now }
{
    file[at]
}

/// The 16-bit number at an offset.
#[tactic(auto, unfolding(crate::specs::Fields::field_at))]
pub(crate) fn half_at(file: &[u8], at: usize) -> u16
    requires { at + 2 ≤ length file.now }
    ensures { result ≡ field_at 2 at file.now }
{
    LittleEndian::read_u16(&file[at..])
}

/// The 32-bit number at an offset.
#[tactic(auto, unfolding(crate::specs::Fields::field_at))]
pub(crate) fn word_at(file: &[u8], at: usize) -> u32
    requires { at + 4 ≤ length file.now }
    ensures { result ≡ field_at 4 at file.now }
{
    LittleEndian::read_u32(&file[at..])
}

/// The 64-bit number at an offset.
#[tactic(auto, unfolding(crate::specs::Fields::field_at))]
pub(crate) fn long_at(file: &[u8], at: usize) -> u64
    requires { at + 8 ≤ length file.now }
    ensures { result ≡ field_at 8 at file.now }
{
    LittleEndian::read_u64(&file[at..])
}
