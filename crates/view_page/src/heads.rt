//! What an entry says of its events: the first numbers of its row.

ghost use Rattle.std.specs.Prelude.{◌≡◌, ◌++◌, OnOk};
ghost use Rattle.view_page.specs.Entries.{count_numbers, event_numbers, head_numbers, long_numbers, machine_numbers, place_number, place_numbers};

use crate::row::put;
use evm_ram::BASE;
use evm_room::Refused;
use run_walk::{Event, Item};

/// How many numbers the lower half of a number of 64 bits has: scripts of pages know no more than 53 bits.
const HALF: u64 = 4_294_967_296;

// A number of 64 bits, in two halves.
fn put_long(row: &mut Vec<u64>, code: u64, value: u64) -> Result<(), Refused>
    ensures { OnOk result (row.new.items ≡ row.old.items ++ long_numbers code value) }
{
    put(row, &[code, value / HALF, value % HALF])
}

// An event of no processor.
#[tactic(auto, unfolding(crate::specs::Entries::machine_numbers))]
fn put_machine_event(row: &mut Vec<u64>, event: &Event<u8>) -> Result<(), Refused>
    ensures { OnOk result (row.new.items ≡ row.old.items ++ machine_numbers event.now) }
{
    match *event {
        Event::Tick => put(row, &[72]),
        Event::Poke(address, bytes) => {
            put_long(row, 73, address)?;
            put(row, &[u64::from(bytes)])
        }
        Event::Break(address) => put_long(row, 74, address),
        Event::Unbreak(address) => put_long(row, 75, address),
        _ => Ok(()),
    }
}

// An event of a processor, or of none.
#[tactic(auto, unfolding(crate::specs::Entries::event_numbers))]
fn put_event(row: &mut Vec<u64>, event: &Event<u8>, quiet: bool) -> Result<(), Refused>
    ensures { OnOk result (row.new.items ≡ row.old.items ++ event_numbers quiet event.now) }
{
    match *event {
        Event::Step(cpu) if quiet => put(row, &[u64::from(cpu)]),
        Event::Step(cpu) => put(row, &[8 + u64::from(cpu)]),
        Event::Raise(cpu, line) => put(row, &[16 + u64::from(cpu), u64::from(line)]),
        Event::Bell(cpu, line) => put(row, &[24 + u64::from(cpu), u64::from(line)]),
        Event::Stop(cpu) => put(row, &[32 + u64::from(cpu)]),
        Event::Go(cpu) => put(row, &[40 + u64::from(cpu)]),
        Event::StepI(cpu) => put(row, &[48 + u64::from(cpu)]),
        Event::SetReg(cpu, register, value) => {
            put_long(row, 56 + u64::from(cpu), value)?;
            put(row, &[u64::from(register)])
        }
        Event::SetPc(cpu, pc) => put_long(row, 64 + u64::from(cpu), pc),
        _ => put_machine_event(row, event),
    }
}

/// The number of an address: 0 of none, 1 of one below RAM, and from 2 on those from the begin of RAM.
pub(crate) fn place_number(place: Option<u64>) -> u64
    ensures { result ≡ place_number place }
{
    match place {
        None => 0,
        Some(address) if address < BASE => 1,
        Some(address) => address - BASE + 2,
    }
}

// Where the instruction of a Step is.
fn put_place(row: &mut Vec<u64>, item: &Item) -> Result<(), Refused>
    ensures { OnOk result (row.new.items ≡ row.old.items ++ place_numbers item.now.event item.now.pc) }
{
    match item.event {
        Event::Step(_) => put(row, &[place_number(item.pc)]),
        _ => Ok(()),
    }
}

/// How many events an item has, if it has not one.
fn put_count(row: &mut Vec<u64>, count: u32) -> Result<(), Refused>
    ensures { OnOk result (row.new.items ≡ row.old.items ++ count_numbers count) }
{
    if count == 1 {
        Ok(())
    } else {
        put(row, &[99, u64::from(count)])
    }
}

/// Appends the numbers of an item: its event, where its instruction is, and how many events it has.
#[tactic(auto, unfolding(crate::specs::Entries::head_numbers))]
pub(crate) fn put_head(row: &mut Vec<u64>, item: &Item) -> Result<(), Refused>
    ensures { OnOk result (row.new.items ≡ row.old.items ++ head_numbers item.now) }
{
    put_event(row, &item.event, item.quiet)?;
    put_place(row, item)?;
    put_count(row, item.count)
}
