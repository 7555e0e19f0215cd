//! Bytes of RAM.

ghost use Rattle.std.specs.Prelude.{◌≡◌, ◌<◌, ◌≤◌, ◌+◌, ◌^◌, ◌++◌, length, take, drop, is_some, IsTrue, OnOk, OnErr, Option, Result};
ghost use Rattle.evm_ram.specs.Ram.{bytes_at, is_inside};
ghost use Rattle.gdb_driving.specs.Shown.{memory_reply};
ghost use Rattle.gdb_driving.specs.Kept.{KeepsJournal};
ghost use Rattle.gdb_driving.specs.Setting.{MakesAsked, MakesEach};
ghost use Rattle.gdb_driving.specs.Writing.{pokes, writing, written};

use crate::bytes::{part_len, push_error};
use crate::driving::event;
use arrayvec::ArrayVec;
use evm_debug::{Event, Machine, Refusal};
use evm_dev::Device;
use evm_model::{Block, POKE_LIMIT};
use evm_room::Refused;
use gdb_packets::push_digits;

/// Appends bytes of RAM as digits, or the error BadAddress where one is outside.
pub fn push_memory<D: Device>(
    out: &mut Vec<u8>,
    machine: &Machine<D>,
    address: u64,
    count: u64,
) -> Result<(), Refused>
    ensures ok { OnOk result (out.new.items ≡ out.old.items ++ memory_reply (bytes_at machine.now.board.memory.ram address count)) }
{
    match machine.bytes(address, count) {
        Some(bytes) => push_digits(out, bytes),
        None => push_error(out, Refusal::BadAddress.number()),
    }
}

// A block of at most as many bytes as a Poke takes.
fn block_of(bytes: &[u8]) -> Block
    requires { length bytes.now ≤ POKE_LIMIT }
    ensures { result.items ≡ bytes.now }
{
    let mut block = ArrayVec::new();
    let _ = block.try_extend_from_slice(bytes);
    block
}

// The first bytes, at most 64, and the others.
fn cut_block(bytes: &[u8]) -> (&[u8], &[u8])
    ensures first { result.0.now ≡ take POKE_LIMIT bytes.now }
    ensures others { result.1.now ≡ drop POKE_LIMIT bytes.now }
    ensures shorter { 0 < length bytes.now → length result.1.now < length bytes.now }
{
    let end = part_len(bytes.len(), POKE_LIMIT);
    (&bytes[..end], &bytes[end..])
}

// Writes bytes 64 by 64, up to the first event that is refused.
#[tactic(auto, using(crate::proofs::Kept::keeps_same, crate::proofs::Kept::keeps_more))]
fn poke_each<D: Device>(machine: &mut Machine<D>, address: u64, bytes: &[u8]) -> Result<(), Refusal>
    requires fits { address + length bytes.now ≤ 2 ^ 64 }
    ensures made { MakesEach (pokes address bytes.now) result machine.old machine.new }
    ensures kept { KeepsJournal machine.old machine.new }
{
    let mut place = address;
    let mut rest = bytes;
    'pokes: while !rest.is_empty() {
        let (first, after) = cut_block(rest);
        let block = block_of(first);
        match event(machine, Event::Poke(place, &block)) {
            Ok(_) => {}
            Err(refusal) => return Err(refusal),
        }
        place = place.wrapping_add(POKE_LIMIT as u64);
        rest = after;
    }
    Ok(())
}

/// Whether each of these bytes is a byte of RAM.
pub fn is_inside<D: Device>(machine: &Machine<D>, address: u64, count: u64) -> bool
    ensures inside { result ≡ is_inside machine.now.board.memory.ram address count }
    ensures found { result ≡ is_some (bytes_at machine.now.board.memory.ram address count) }
    ensures fits { IsTrue result → address + count ≤ 2 ^ 64 }
{
    machine.rules();
    machine.bytes(address, count).is_some()
}

/// Writes bytes into RAM, 64 by 64.
///
/// # Errors
///
/// `BadAddress` where one of them is outside RAM, else `Full` where the journal has no room for their events. Nothing is
/// changed then.
#[tactic(auto, using(crate::proofs::Kept::keeps_same))]
pub fn write<D: Device>(machine: &mut Machine<D>, address: u64, bytes: &[u8]) -> Result<(), Refusal>
    ensures made { MakesAsked (writing address bytes.now machine.old) result machine.old machine.new }
    ensures written { OnOk result (machine.new ≡ written address bytes.now machine.old) }
    ensures stored { OnOk result (bytes_at machine.new.board.memory.ram address (length bytes.now) ≡ Option.Some bytes.now) }
    ensures unchanged { OnErr result (machine.new ≡ machine.old) }
    ensures kept { KeepsJournal machine.old machine.new }
    ensures outside { bytes_at machine.old.board.memory.ram address (length bytes.now) ≡ Option.None → (machine.new ≡ machine.old) × (result ≡ Result.Err Refusal.BadAddress) }
{
    if !is_inside(machine, address, bytes.len() as u64) {
        return Err(Refusal::BadAddress);
    }
    if bytes.len().div_ceil(POKE_LIMIT) as u64 > machine.room() {
        return Err(Refusal::Full);
    }
    poke_each(machine, address, bytes)
}
