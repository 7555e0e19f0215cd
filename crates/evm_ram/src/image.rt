//! Images and their segments.

ghost use Rattle.std.specs.Prelude.{◌≡◌, ◌%◌};
ghost use Rattle.evm_ram.specs.Images.{IsSound};

use std::marker::Model;

/// A segment of an image: its bytes lie from its address on, and zeros after them.
#[derive(Debug, Drop)]
pub struct Segment {
    address: u64,
    bytes: Vec<u8>,
    memsz: u64,
}

impl Model for Segment {
    ghost use Rattle.evm_ram.specs.Images.{Loaded};

    ghost Value = { Loaded };

    ghost view = { λ s. record { address = s.address; bytes = s.bytes.items; memsz = s.memsz } };
}

impl Segment {
    /// The segment of `bytes` at `address` that takes `memsz` bytes of memory.
    pub fn new(address: u64, bytes: Vec<u8>, memsz: u64) -> Self
        ensures { result ≡ record { address = address; bytes = bytes.items; memsz = memsz } }
    {
        Segment {
            address,
            bytes,
            memsz,
        }
    }

    /// Where the segment begins in memory.
    pub fn address(&self) -> u64
        ensures { result ≡ self.now.address }
    {
        self.address
    }

    /// The segment's bytes in the file.
    pub fn bytes(&self) -> &[u8]
        ensures { result.now ≡ self.now.bytes }
    {
        &self.bytes
    }

    /// How many bytes of memory the segment takes. Those past its own bytes are zero.
    pub fn memsz(&self) -> u64
        ensures { result ≡ self.now.memsz }
    {
        self.memsz
    }
}

/// A program as it lies in memory from `0x8000_0000` up to `0x8100_0000`.
#[derive(Debug, Drop)]
pub struct Image {
    entry: u64,
    segments: Vec<Segment>,
}

impl Model for Image {
    ghost use Rattle.evm_ram.specs.Images.{Contents, IsSound};

    ghost Value = { Contents };

    ghost view = { λ i. record { entry = i.entry; segments = i.segments.items } };

    ghost invariant = { λ i. IsSound (record { entry = i.entry; segments = i.segments.items }) };
}

impl Image {
    /// The image of segments that keep its rules.
    pub fn new(entry: u64, segments: Vec<Segment>) -> Self
        requires { IsSound (record { entry = entry; segments = segments.items }) }
        ensures { result ≡ record { entry = entry; segments = segments.items } }
    {
        Image { entry, segments }
    }

    /// The address of the first instruction, a multiple of 4.
    pub fn entry(&self) -> u64
        ensures value { result ≡ self.now.entry }
        ensures aligned { result % 4 ≡ 0 }
    {
        self.entry
    }

    /// The segments in the file's order. No two share an address.
    pub fn segments(&self) -> &[Segment]
        ensures all { result.now ≡ self.now.segments }
        ensures sound { IsSound self.now }
    {
        &self.segments
    }
}
