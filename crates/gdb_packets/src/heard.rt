//! Bytes that were heard and are not read yet.

ghost use Rattle.std.specs.Prelude.{◌≡◌, ◌<◌, ◌≤◌, ◌++◌, ◌↔◌, [], length, take, slice_index, SomeIndex, IsTrue};
ghost use Rattle.gdb_packets.specs.Hearings.{TakesIn, StandsAlone};

use crate::ends::HearingEnd;
use evm_room::grow;
use memchr::memchr;
use std::alloc::Global;

/// The byte by which GDB asks for a stop. It stands between packets.
const INTERRUPT: u8 = 3;

/// How many bytes may wait before no more is heard.
const MOST: usize = 65_536;

/// Bytes that were heard and are not read yet.
#[derive(Drop)]
pub(crate) struct Heard {
    bytes: Vec<u8>,
    // how the hearing ended, or nothing if more may come
    end: Option<HearingEnd>,
}

// How many of some bytes are read at once: those before the next INTERRUPT, or this one alone.
fn front_len(bytes: &[u8]) -> usize
    ensures bound { result ≤ length bytes.now }
    ensures alone { StandsAlone (take result bytes.now) }
    ensures some { result ≡ 0 → length bytes.now ≡ 0 }
{
    match memchr(INTERRUPT, bytes) {
        None => bytes.len(),
        Some(0) => 1,
        Some(place) => place,
    }
}

impl Heard {
    /// Nothing was heard yet.
    pub(crate) fn new(alloc: Global) -> Heard
        ensures bytes { result.bytes.items ≡ [] }
        ensures end { result.end ≡ None }
    {
        Heard {
            bytes: Vec::new(alloc),
            end: None,
        }
    }

    /// How the hearing ended, or nothing if more may come.
    pub(crate) fn end(&self) -> Option<HearingEnd>
        ensures { result ≡ self.now.end }
    {
        self.end
    }

    /// Nothing more comes.
    pub(crate) fn close(&mut self, end: HearingEnd)
        ensures bytes { self.new.bytes ≡ self.old.bytes }
        ensures end { self.new.end ≡ Some end }
    {
        self.end = Some(end);
    }

    /// Some more bytes were heard. If memory is refused for them, the hearing ends so.
    pub(crate) fn add(&mut self, part: &[u8])
        ensures { TakesIn part.now self.old.bytes.items self.old.end self.new.bytes.items self.new.end }
    {
        let room = grow(&mut self.bytes, part.len());
        if room.is_err() || self.bytes.extend_from_slice(part).is_err() {
            self.end = Some(HearingEnd::NoMemory);
        }
    }

    /// Whether a read has to wait.
    pub(crate) fn is_awaited(&self) -> bool {
        self.bytes.is_empty() && self.end.is_none()
    }

    /// Whether no more is heard until some bytes are read.
    pub(crate) fn is_full(&self) -> bool {
        self.bytes.len() >= MOST && self.end.is_none()
    }

    /// Whether an INTERRUPT waits.
    pub(crate) fn has_interrupt(&self) -> bool
        ensures { IsTrue result ↔ SomeIndex self.now.bytes.items (λ k. slice_index self.now.bytes.items k ≡ INTERRUPT) }
    {
        memchr(INTERRUPT, self.bytes.as_slice()).is_some()
    }

    /// Gives the first bytes, and how many: those before the next INTERRUPT, or this one alone; at most as many as the
    /// part has room for.
    pub(crate) fn give(&mut self, part: &mut [u8]) -> usize
        ensures bound { result ≤ length part.new }
        ensures alone { StandsAlone (take result part.new) }
        ensures some { 0 < length part.old → 0 < length self.old.bytes.items → 0 < result }
        ensures kept { self.old.bytes.items ≡ take result part.new ++ self.new.bytes.items }
    {
        let count = front_len(self.bytes.as_slice()).min(part.len());
        part[..count].copy_from_slice(&self.bytes.as_slice()[..count]);
        let left = self.bytes.len() - count;
        self.bytes.copy_within(count.., 0);
        self.bytes.truncate(left);
        count
    }
}
