//! Whether two segments share an address.

ghost use Rattle.std.specs.Prelude.{◌≡◌, ◌-◌, ◌≤◌, not, length, IfOk};
ghost use Rattle.std.specs.List.{list_any, filter_map};
ghost use Rattle.evm_elf.specs.Fields.{program_header, headers_from};
ghost use Rattle.evm_elf.specs.Faults.{load_of, share, some_two};
ghost use Rattle.evm_elf.specs.Rising.{rise_from, occupied_of};

use crate::header::{Header, load_header};
use std::alloc::{AllocError, Global};

/// Program header `index`, where it is one of a segment to be loaded that takes memory.
fn occupied_header(file: &[u8], index: u16) -> Option<Header>
    requires { 64 ≤ length file.now }
    ensures { result ≡ occupied_of (program_header file.now index) }
{
    let header = load_header(file, index)?;
    if header.occupies() {
        Some(header)
    } else {
        None
    }
}

/// The headers of the segments that take memory, among the first `count`.
#[tactic(auto, using(crate::proofs::Headers::headers_more, crate::proofs::Headers::headers_done))]
fn occupied(alloc: Global, file: &[u8], count: u16) -> Result<Vec<Header>, AllocError>
    requires { 64 ≤ length file.now }
    ensures { IfOk result (λ v. v.items ≡ filter_map occupied_of (headers_from file.now 0 count)) }
{
    let mut found = Vec::new(alloc);
    for i in 0..count {
        if let Some(header) = occupied_header(file, i) {
            found.push(header)?;
        }
    }
    Ok(found)
}

/// Whether each segment begins where the one before it ends, or after that.
fn rise(headers: &[Header]) -> bool
    ensures { result ≡ rise_from 0 headers.now }
{
    let mut end = 0;
    for header in headers {
        if u128::from(header.address) < end {
            return false;
        }
        end = header.end();
    }
    true
}

/// Whether the segment shares an address with one of the headers from `first` on.
#[tactic(auto, using(crate::proofs::Headers::headers_more, crate::proofs::Headers::headers_done))]
fn shares_with_later(file: &[u8], first: u16, count: u16, header: &Header) -> bool
    requires { 64 ≤ length file.now }
    ensures { result ≡ list_any (share header.now) (filter_map load_of (headers_from file.now first (count - first))) }
{
    for i in first..count {
        if let Some(other) = load_header(file, i)
            && header.shares_with(&other)
        {
            return true;
        }
    }
    false
}

/// Whether two of the segments share an address, with no memory, by comparing each two.
#[tactic(auto, using(crate::proofs::Headers::headers_more, crate::proofs::Headers::headers_done))]
fn any_shared_slowly(file: &[u8], count: u16) -> bool
    requires { 64 ≤ length file.now }
    ensures { result ≡ some_two share (filter_map load_of (headers_from file.now 0 count)) }
{
    for i in 0..count {
        if let Some(header) = load_header(file, i)
            && shares_with_later(file, i + 1, count, &header)
        {
            return true;
        }
    }
    false
}

/// Whether two of the segments share an address: neighbours, in the order of addresses. Where there is no
/// memory for that, each two are compared.
pub(crate) fn any_shared(alloc: Global, file: &[u8], count: u16) -> bool
    requires { 64 ≤ length file.now }
    ensures { result ≡ some_two share (filter_map load_of (headers_from file.now 0 count)) }
{
    let Ok(mut headers) = occupied(alloc, file, count) else {
        return any_shared_slowly(file, count);
    };
    headers.sort_unstable_by_key(|header| header.address);
    !rise(&headers)
}
