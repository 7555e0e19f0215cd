//! The devices against the rows of their kinds, worked by hand. With an allocation refused (`rt try --test --fail-alloc N`)
//! a test ends at the `new` that asked for it, and no answer is another.

mod lamps;

use evm_dev::{CONSOLE_LIMIT, Device, Kind, MAILBOX_LIMIT, Op, Touch};
use evm_devs::{AnyDevice, Console, MailList, MailRing, Pins};
use lamps::Lamps;
use std::process::Abort;
use std::test::Fail;

// An access to a register, and what is wanted of it.
#[derive(Clone, Copy, Debug)]
struct Access {
    op: Op,
    register: u8,
    value: u64,
    wanted: Touch,
}

fn fetch(register: u8, answer: u64) -> Access {
    Access {
        op: Op::Fetch,
        register,
        value: 0,
        wanted: Touch::answer(answer),
    }
}

fn put(register: u8, value: u64) -> Access {
    Access {
        op: Op::Put,
        register,
        value,
        wanted: Touch::answer(0),
    }
}

fn raising(access: Access) -> Access {
    Access {
        wanted: Touch {
            raise: true,
            ..access.wanted
        },
        ..access
    }
}

fn missing(op: Op, register: u8) -> Access {
    Access {
        op,
        register,
        value: 7,
        wanted: Touch::NONE,
    }
}

fn touches(rt: &impl Abort, device: &mut impl Device, accesses: &[Access]) {
    for access in accesses {
        let touch = device.touch(access.op, access.register, access.value);
        assert_eq!(rt; touch, access.wanted, "{access:?}");
    }
}

fn has_words(rt: &impl Abort, device: &impl Device, words: &[u64]) {
    for (k, word) in words.iter().enumerate() {
        assert_eq!(rt; device.words(k), Some(*word), "word {k}");
    }
    assert_eq!(rt; device.words(words.len()), None);
}

// Puts of 1 to 17 into a mailbox, each of which raises.
fn put_17(rt: &impl Abort, mailbox: &mut impl Device) {
    for word in 1..=17u64 {
        touches(rt, mailbox, &[raising(put(0, word))]);
    }
}

fn keeps_the_last_16(rt: &impl Abort, mailbox: &mut impl Device) {
    assert_eq!(rt; mailbox.kind(), Kind::Mailbox);
    put_17(rt, mailbox);
    touches(
        rt,
        mailbox,
        &[fetch(1, 16), fetch(0, 2), missing(Op::Fetch, 5)],
    );
    has_words(
        rt,
        mailbox,
        &[3, 4, 5, 6, 7, 8, 9, 10, 11, 12, 13, 14, 15, 16, 17],
    );
    touches(
        rt,
        mailbox,
        &[missing(Op::Put, 2), fetch(0, 3), fetch(1, 14)],
    );
    touches(rt, mailbox, &[put(1, 99), fetch(0, 0), fetch(1, 0)]);
    has_words(rt, mailbox, &[]);
    assert!(rt; !mailbox.tick(), "a mailbox raises at a tick");
}

#[test]
fn a_mailbox_of_either_make_keeps_the_last_16(rt: HostRuntime) -> Result<(), Fail> {
    keeps_the_last_16(&rt, &mut MailRing::new(rt.alloc())?);
    keeps_the_last_16(&rt, &mut MailList::new(rt.alloc())?);
    Ok(())
}

// A fixed sequence of numbers (the generator of Knuth's MMIX).
fn next(number: u64) -> u64 {
    number
        .wrapping_mul(6_364_136_223_846_793_005)
        .wrapping_add(1_442_695_040_888_963_407)
}

// What a number of the sequence does. Puts come oftener than fetches, so that mailboxes become full.
fn op_of(number: u64) -> Op {
    if number >> 60 < 9 { Op::Put } else { Op::Fetch }
}

fn register_of(number: u64) -> u8 {
    match (number >> 52) & 0xff {
        0..=223 => 0,
        224..=228 => 1,
        other => (other & 0xf) as u8,
    }
}

fn touches_alike(rt: &impl Abort, ring: &mut MailRing, list: &mut MailList) {
    let mut number = 1u64;
    for round in 0..10_000u32 {
        number = next(number);
        let (op, register) = (op_of(number), register_of(number));
        let touch = ring.touch(op, register, number);
        assert_eq!(rt; list.touch(op, register, number), touch, "round {round}");
        let k = (number >> 32) as usize % MAILBOX_LIMIT;
        assert_eq!(rt; list.words(k), ring.words(k), "round {round}");
    }
}

#[test]
fn mailboxes_of_both_makes_answer_alike(rt: HostRuntime) -> Result<(), Fail> {
    let mut ring = MailRing::new(rt.alloc())?;
    let mut list = MailList::new(rt.alloc())?;
    touches_alike(&rt, &mut ring, &mut list);
    Ok(())
}

// The level is 0b0101 of which 0b0110 is watched: only a watched bit that goes from 0 to 1 raises.
fn watches_its_mask(rt: &impl Abort, pins: &mut impl Device) {
    assert_eq!(rt; pins.kind(), Kind::Pins);
    has_words(rt, pins, &[0, 0, 0]);
    touches(rt, pins, &[put(0, 0b0101), put(1, 0b0110), put(0, 0b0101)]);
    touches(rt, pins, &[put(0, 0b1100), raising(put(0, 0b0011))]);
    touches(rt, pins, &[put(0, 0b0010), put(0, 0), put(0, 0b1001)]);
    touches(
        rt,
        pins,
        &[raising(put(0, 0b0100)), raising(put(0, 0b0010))],
    );
    has_words(rt, pins, &[0b0010, 0b0110, 0]);
    touches(rt, pins, &[put(1, 1 << 63), raising(put(0, u64::MAX))]);
    touches(rt, pins, &[fetch(0, u64::MAX), fetch(1, 1 << 63)]);
    touches(rt, pins, &[missing(Op::Fetch, 3), missing(Op::Put, 3)]);
    touches(rt, pins, &[missing(Op::Put, 255)]);
    has_words(rt, pins, &[u64::MAX, 1 << 63, 0]);
}

// A count falls with each tick, and raises when it becomes 0.
fn counts_down(rt: &impl Abort, pins: &mut impl Device) {
    assert!(rt; !pins.tick(), "a count of 0 raises");
    touches(rt, pins, &[fetch(2, 0), put(2, 2)]);
    assert!(rt; !pins.tick(), "a count of 2 raises");
    touches(rt, pins, &[fetch(2, 1)]);
    assert!(rt; pins.tick(), "a count of 1 raises nothing");
    touches(rt, pins, &[fetch(2, 0)]);
    assert!(rt; !pins.tick(), "a count of 0 raises again");
    touches(rt, pins, &[put(2, u64::MAX), put(2, 1)]);
    assert!(rt; pins.tick(), "a count of 1 raises nothing again");
}

#[test]
fn pins_have_a_level_a_mask_and_a_count(rt: HostRuntime) {
    let mut pins = Pins::new();
    watches_its_mask(&rt, &mut pins);
    counts_down(&rt, &mut pins);
}

#[test]
fn a_device_of_another_make_has_the_rows_of_its_kind(rt: HostRuntime) {
    let mut lamps = Lamps::new();
    watches_its_mask(&rt, &mut lamps);
    counts_down(&rt, &mut lamps);
}

fn fills(rt: &impl Abort, console: &mut impl Device) {
    assert_eq!(rt; console.kind(), Kind::Console);
    has_words(rt, console, &[]);
    for byte in 0..CONSOLE_LIMIT as u64 {
        touches(rt, console, &[fetch(0, byte), put(0, byte | 0x4_5600)]);
    }
    touches(rt, console, &[put(0, 0x41), fetch(0, 256)]);
    assert_eq!(rt; console.words(0), Some(0));
    assert_eq!(rt; console.words(255), Some(255));
    assert_eq!(rt; console.words(256), None);
    touches(rt, console, &[missing(Op::Fetch, 1), missing(Op::Put, 1)]);
    assert!(rt; !console.tick(), "a console raises at a tick");
}

#[test]
fn a_console_takes_256_bytes(rt: HostRuntime) -> Result<(), Fail> {
    fills(&rt, &mut Console::new(rt.alloc())?);
    Ok(())
}

#[test]
fn a_box_is_the_device_in_it(rt: HostRuntime) -> Result<(), Fail> {
    let mut device: Box<dyn Device + Send> = Box::new(rt.alloc(), Console::new(rt.alloc())?)?;
    fills(&rt, &mut device);
    let mut device: Box<dyn Device + Send> = Box::new(rt.alloc(), MailRing::new(rt.alloc())?)?;
    keeps_the_last_16(&rt, &mut device);
    let mut device: Box<dyn Device + Send> = Box::new(rt.alloc(), MailList::new(rt.alloc())?)?;
    keeps_the_last_16(&rt, &mut device);
    let mut device: Box<dyn Device + Send> = Box::new(rt.alloc(), Pins::new())?;
    watches_its_mask(&rt, &mut device);
    counts_down(&rt, &mut device);
    Ok(())
}

#[test]
fn a_device_of_any_make_is_the_device_in_it(rt: HostRuntime) -> Result<(), Fail> {
    fills(&rt, &mut AnyDevice::Console(Console::new(rt.alloc())?));
    keeps_the_last_16(&rt, &mut AnyDevice::MailRing(MailRing::new(rt.alloc())?));
    keeps_the_last_16(&rt, &mut AnyDevice::MailList(MailList::new(rt.alloc())?));
    let mut pins = AnyDevice::Pins(Pins::new());
    watches_its_mask(&rt, &mut pins);
    counts_down(&rt, &mut pins);
    Ok(())
}
