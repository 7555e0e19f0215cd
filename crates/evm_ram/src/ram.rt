ghost use Rattle.std.specs.Prelude.{◌≡◌, ◌+◌, ◌-◌, ◌*◌, ◌^◌, ◌≤◌, ◌<◌, ℕ, List, true, length, replicate, if◌then◌else◌, Option, Some, None, option_copied, IfErr, IfOk, MatchOption};
ghost use Rattle.std.specs.Option.{IfNone, IfSome};
ghost use Rattle.evm_ram.specs.Bytes.{little_endian};
ghost use Rattle.evm_ram.specs.Width.{bytes_of};
ghost use Rattle.evm_ram.specs.Ram.{is_inside, bytes_at, read_at, poke_at, write_at};

use crate::blocks::Blocks;
use crate::copies::copy_written;
use crate::same::{same_bytes, same_written};
use crate::width::Width;
use evm_room::{Refused, copies};
use std::alloc::Global;
use std::boxed::BoxedSlice;
use std::marker::Model;

/// The address of RAM's first byte.
pub const BASE: u64 = 0x8000_0000;

/// The most bytes that RAM may have.
pub const SIZE_LIMIT: u64 = 16_777_216;

/// Bytes, of which the first stands at the address [`BASE`]. They never grow.
#[derive(Debug, Drop)]
pub struct Ram {
    bytes: BoxedSlice<u8>,
    blocks: Blocks,
}

impl Model for Ram {
    ghost use Rattle.std.specs.Prelude.{◌≤◌, ℕ, List, length};
    ghost use Rattle.std.specs.Box.{boxed_slice_items};
    ghost use Rattle.evm_ram.specs.Blocks.{Cover, IsZeroElsewhere};
    ghost use Rattle.evm_ram.specs.declared.ram.TheConstants.{SIZE_LIMIT};

    ghost Value = { List ℕ };

    ghost view = { λ ram. boxed_slice_items ram.bytes };

    ghost invariant = { λ ram.
        (length (boxed_slice_items ram.bytes) ≤ SIZE_LIMIT)
        × Cover ram.blocks.shift (length (boxed_slice_items ram.bytes))
        × IsZeroElsewhere (boxed_slice_items ram.bytes) ram.blocks.written ram.blocks.shift };
}

impl Ram {
    /// RAM of `size` bytes, each of them zero.
    pub fn new(alloc: Global, size: u64) -> Result<Ram, Refused>
        requires { size ≤ SIZE_LIMIT }
        ensures zeros { IfOk result (λ ram. ram ≡ replicate size 0) }
        ensures refused { IfErr result (λ asked. asked ≡ size) }
    {
        let bytes = copies(alloc, 0u8, size as usize)?;
        Ok(Ram {
            bytes,
            blocks: Blocks::new(size),
        })
    }

    /// The number of bytes.
    #[inline(always)]
    pub fn size(&self) -> u64
        ensures value { result ≡ length self.now }
        ensures limit { result ≤ SIZE_LIMIT }
    {
        self.bytes.len() as u64
    }

    /// The bytes, of which the first stands at [`BASE`].
    #[inline(always)]
    pub fn as_slice(&self) -> &[u8]
        ensures value { result.now ≡ self.now }
        ensures limit { length result.now ≤ SIZE_LIMIT }
    {
        &self.bytes
    }

    /// Where `count` bytes from `address` on begin in the list; None if and only if one of them is outside.
    #[inline(always)]
    fn place(&self, address: u64, count: u64) -> Option<usize>
        requires { 0 < count }
        ensures { result ≡ (if is_inside self.now address count then Some (address - BASE) else None) }
    {
        place(self.as_slice(), address, count)
    }

    /// The `count` bytes from `address` on; None if and only if one of them is outside. No bytes are found
    /// at every address.
    #[inline(always)]
    pub fn bytes(&self, address: u64, count: u64) -> Option<&[u8]>
        ensures found { option_copied result ≡ bytes_at self.now address count }
        ensures count { IfSome result (λ bytes. length bytes.now ≡ count) }
    {
        bytes_at(self.as_slice(), address, count)
    }

    /// The number that is stored at `address`, its lowest byte first; None if and only if one of its bytes is
    /// outside. The address need not be a multiple of the width.
    #[inline(always)]
    pub fn read(&self, address: u64, width: Width) -> Option<u64>
        ensures value { result ≡ read_at self.now address width }
        ensures fits { IfSome result (λ value. value < 256 ^ bytes_of width) }
    {
        read_at(self.as_slice(), address, width)
    }

    /// Puts `bytes` from `address` on; None, and nothing is changed, if and only if one of them would be
    /// outside. No bytes can be put at every address.
    #[inline(always)]
    pub fn poke(&mut self, address: u64, bytes: &[u8]) -> Option<()>
        ensures poked { MatchOption result (poke_at self.old address bytes.now ≡ None) (λ _. poke_at self.old address bytes.now ≡ Some self.new) }
        ensures unchanged { IfNone result (self.new ≡ self.old) }
        ensures size { length self.new ≡ length self.old }
    {
        if bytes.is_empty() {
            return Some(());
        }
        let start = self.place(address, bytes.len() as u64)?;
        self.blocks.mark(start, bytes.len());
        self.bytes[start..start + bytes.len()].copy_from_slice(bytes);
        Some(())
    }

    /// Stores the low bytes of `value` at `address`, the lowest first; None, and nothing is changed, exactly
    /// where one of them would be outside. The address need not be a multiple of the width.
    #[inline(always)]
    pub fn write(&mut self, address: u64, width: Width, value: u64) -> Option<()>
        ensures written { MatchOption result (write_at self.old address width value ≡ None) (λ _. write_at self.old address width value ≡ Some self.new) }
        ensures unchanged { IfNone result (self.new ≡ self.old) }
        ensures size { length self.new ≡ length self.old }
    {
        let bytes = value.to_le_bytes();
        match width {
            Width::Byte => self.poke(address, &bytes[..1]),
            Width::Half => self.poke(address, &bytes[..2]),
            Width::Word => self.poke(address, &bytes[..4]),
            Width::Double => self.poke(address, &bytes),
        }
    }

    /// Makes each byte zero.
    pub fn clear(&mut self)
        ensures { self.new ≡ replicate (length self.old) 0 }
    {
        clear_all(&mut self.bytes);
        self.blocks.written = [false; 64];
    }

    /// RAM has the bytes of another of its size. Only blocks that were written in one of both are copied.
    pub fn copy_from(&mut self, other: &Ram)
        requires { length self.old ≡ length other.now }
        ensures { self.new ≡ other.now }
    {
        if self.blocks.shift == other.blocks.shift {
            copy_written(&mut self.bytes, &other.bytes, &self.blocks, &other.blocks);
        } else {
            self.bytes.copy_from_slice(&other.bytes);
        }
        self.blocks = other.blocks;
    }

    /// Whether the bytes are those of another RAM. Only blocks that were written in one of both are compared.
    pub fn is_same(&self, other: &Ram) -> bool
        ensures { result ≡ true → self.now ≡ other.now }
    {
        if self.size() != other.size() {
            return false;
        }
        if self.blocks.shift != other.blocks.shift {
            return same_bytes(self.as_slice(), other.as_slice());
        }
        same_written(
            self.as_slice(),
            other.as_slice(),
            &self.blocks,
            &other.blocks,
        )
    }
}

fn clear_all(bytes: &mut [u8])
    ensures { bytes.new ≡ replicate (length bytes.old) 0 }
{
    bytes.fill(0);
}

/// Where `count` bytes from `address` on begin in RAM's bytes; None if and only if one of them is outside.
#[inline(always)]
fn place(ram: &[u8], address: u64, count: u64) -> Option<usize>
    requires count { 0 < count }
    requires limit { length ram.now ≤ SIZE_LIMIT }
    ensures { result ≡ (if is_inside ram.now address count then Some (address - BASE) else None) }
{
    let size = ram.len() as u64;
    let offset = address.wrapping_sub(BASE);
    if count > size {
        None
    } else if offset > size - count {
        None
    } else {
        Some(offset as usize)
    }
}

#[inline(always)]
fn bytes_at(ram: &[u8], address: u64, count: u64) -> Option<&[u8]>
    requires { length ram.now ≤ SIZE_LIMIT }
    ensures found { option_copied result ≡ bytes_at ram.now address count }
    ensures count { IfSome result (λ bytes. length bytes.now ≡ count) }
{
    if count == 0 {
        return Some(&[]);
    }
    let start = place(ram, address, count)?;
    Some(&ram[start..start + count as usize])
}

/// As [`Ram::read`], from the bytes of [`Ram::as_slice`]: for a loop over many addresses, which needn't look for RAM each time.
#[inline(always)]
pub fn read_at(ram: &[u8], address: u64, width: Width) -> Option<u64>
    requires { length ram.now ≤ SIZE_LIMIT }
    ensures value { result ≡ read_at ram.now address width }
    ensures fits { IfSome result (λ value. value < 256 ^ bytes_of width) }
{
    let bytes = bytes_at(ram, address, width.bytes())?;
    Some(number(bytes, width))
}

/// The number that these bytes stand for, the lowest byte first.
#[inline(always)]
fn number(bytes: &[u8], width: Width) -> u64
    requires { length bytes.now ≡ bytes_of width }
    ensures value { result ≡ little_endian bytes.now }
    ensures fits { result < 256 ^ bytes_of width }
{
    match width {
        Width::Byte => u64::from(bytes[0]),
        Width::Half => u64::from(u16::from_le_bytes([bytes[0], bytes[1]])),
        Width::Word => u64::from(u32::from_le_bytes([bytes[0], bytes[1], bytes[2], bytes[3]])),
        Width::Double => u64::from_le_bytes([
            bytes[0], bytes[1], bytes[2], bytes[3], bytes[4], bytes[5], bytes[6], bytes[7],
        ]),
    }
}
