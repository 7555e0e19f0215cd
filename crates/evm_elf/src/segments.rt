//! Faults of program headers and segments.

ghost use Rattle.std.specs.Prelude.{◌≡◌, ◌||◌, ◌≤◌, length, List};
ghost use Rattle.std.specs.List.{list_any, filter_map};
ghost use Rattle.evm_elf.specs.Fields.{headers_from};
ghost use Rattle.evm_elf.specs.Faults.{is_dynamic, is_outside, is_overfull, load_of};

use crate::header::{header_of, load_header};

/// Whether one of the first `count` program headers is of dynamic linking.
#[tactic(auto, using(crate::proofs::Headers::headers_more, crate::proofs::Headers::headers_done))]
pub(crate) fn any_dynamic(file: &[u8], count: u16) -> bool
    requires { 64 ≤ length file.now }
    ensures { result ≡ list_any is_dynamic (headers_from file.now 0 count) }
{
    for i in 0..count {
        if let Some(header) = header_of(file, i)
            && header.is_dynamic()
        {
            return true;
        }
    }
    false
}

/// Whether one of the first `count` program headers passes the end of the file, or its segment does or
/// leaves the range of memory.
#[tactic(auto, using(crate::proofs::Headers::headers_more, crate::proofs::Headers::headers_done))]
pub(crate) fn any_outside(file: &[u8], count: u16) -> bool
    requires { 64 ≤ length file.now }
    ensures { result ≡ list_any (is_outside (length file.now)) (headers_from file.now 0 count) }
{
    for i in 0..count {
        let Some(header) = header_of(file, i) else {
            return true;
        };
        if header.is_load() && (header.passes_end(file.len()) || header.leaves_range()) {
            return true;
        }
    }
    false
}

/// Whether one of the segments has more bytes in the file than in memory.
#[tactic(auto, using(crate::proofs::Headers::headers_more, crate::proofs::Headers::headers_done))]
pub(crate) fn any_overfull(file: &[u8], count: u16) -> bool
    requires { 64 ≤ length file.now }
    ensures { result ≡ list_any is_overfull (filter_map load_of (headers_from file.now 0 count)) }
{
    for i in 0..count {
        if let Some(header) = load_header(file, i)
            && header.is_overfull()
        {
            return true;
        }
    }
    false
}
