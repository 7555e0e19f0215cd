//! What RAM holds.

use byteorder::{ByteOrder, LittleEndian};

/// Where RAM begins.
const RAM_START: u64 = 0x8000_0000;

/// Bytes of RAM at an address, where all are inside.
pub(crate) fn bytes_in(ram: &[u8], address: u64, count: u64) -> Option<&[u8]> {
    let start = address.checked_sub(RAM_START)?;
    let end = start.checked_add(count)?;
    if end > ram.len() as u64 {
        return None;
    }
    ram.get(start as usize..end as usize)
}

/// The 8 bytes at an address as a number.
pub(crate) fn long_in(ram: &[u8], address: u64) -> Option<u64> {
    let bytes = bytes_in(ram, address, 8)?;
    if bytes.len() < 8 {
        return None;
    }
    Some(LittleEndian::read_u64(bytes))
}
