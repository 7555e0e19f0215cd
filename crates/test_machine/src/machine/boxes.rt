//! Boxes of devices of each make in one machine. What is done with the machine is generic over the type of its devices: the boxes are named
//! where they are made.

use super::{answers, poke_of, register};
use evm_core::{Answer, Event, Machine, Refusal};
use evm_dev::{Device, Kind, Op};
use evm_devs::{Console, MailList, MailRing, Pins};
use evm_model::DEVICE_LIMIT;
use std::process::Abort;
use std::test::Fail;

type Boxed = Box<dyn Device + Send>;

/// How many there are: one more than a machine takes.
const BOXES: u8 = 9;

// The kind of the device that is attached as this number: consoles, mailboxes of both makes and pins take turns.
fn kind_of(number: u8) -> Kind {
    match number % 4 {
        0 => Kind::Console,
        1 | 2 => Kind::Mailbox,
        _ => Kind::Pins,
    }
}

// The word that it has then.
fn word_of(number: u8) -> u64 {
    10 + u64::from(number)
}

// A device with its word is attached as this number. The ninth comes back with its word.
fn attaches<D: Device>(rt: &impl Abort, machine: &mut Machine<D>, mut device: D, number: u8) {
    let _touch = device.touch(Op::Put, 0, word_of(number));
    match machine.attach(device) {
        Ok(given) => {
            assert_eq!(rt; given, number);
            assert!(rt; number < 8, "device {number} is attached");
        }
        Err((refusal, device)) => {
            assert_eq!(rt; (number, refusal), (8, Refusal::NoSlot));
            assert_eq!(rt; device.words(0), Some(18));
        }
    }
}

// The last of them is attached first.
fn attach_all<D: Device>(
    rt: &impl Abort,
    machine: &mut Machine<D>,
    mut devices: Vec<D>,
) -> Result<(), Fail> {
    for number in 0..BOXES {
        let Some(device) = devices.pop() else {
            return Err(Fail::from("a device is missing"));
        };
        attaches(rt, machine, device, number);
    }
    assert_eq!(rt; machine.device_count(), DEVICE_LIMIT);
    Ok(())
}

// A program puts 2 into device 1, a mailbox, which raises line 3, and takes its first word.
fn run<D: Device>(rt: &impl Abort, machine: &mut Machine<D>) {
    // lui x11, 0x10001; addi x10, x0, 2; sd x10, 0(x11); ld x12, 0(x11)
    let code = poke_of(&[0x1000_15b7, 0x0020_0513, 0x00a5_b023, 0x0005_b603]);
    answers(rt, machine, code, Answer::Done);
    for _ in 0..3 {
        answers(rt, machine, Event::Step(0), Answer::Ran(0));
    }
    answers(rt, machine, Event::Step(0), Answer::Received(3));
    answers(rt, machine, Event::Step(0), Answer::Ran(0));
    assert_eq!(rt; register(machine, 12), 11);
}

// Device 1 has the word that the program put, and each other its own.
fn is_itself<D: Device>(rt: &impl Abort, device: &D, number: u8) {
    let word = if number == 1 { 2 } else { word_of(number) };
    assert_eq!(rt; device.kind(), kind_of(number), "device {number}");
    assert_eq!(rt; device.words(0), Some(word), "device {number}");
}

fn come_back<D: Device>(rt: &impl Abort, devices: &[D]) {
    assert_eq!(rt; devices.len(), DEVICE_LIMIT);
    let mut number = 0u8;
    for device in devices {
        is_itself(rt, device, number);
        number = number.saturating_add(1);
    }
}

fn serve<D: Device>(rt: &(impl Abort + AllocGlobal), devices: Vec<D>) -> Result<(), Fail> {
    let Ok(mut machine) = Machine::<D>::boot(rt.alloc(), 1, 65_536, 16) else {
        return Err(Fail::from("the boot was refused"));
    };
    attach_all(rt, &mut machine, devices)?;
    run(rt, &mut machine);
    come_back(rt, machine.into_devices().as_slice());
    Ok(())
}

#[test]
fn eight_boxes(rt: HostRuntime) -> Result<(), Fail> {
    let alloc = rt.alloc();
    let mut boxes: Vec<Boxed> = Vec::new(alloc);
    for place in 0..BOXES {
        // the last is attached first
        match place % 4 {
            0 => boxes.push(Box::new(alloc, Console::new(alloc)?)?)?,
            1 => boxes.push(Box::new(alloc, Pins::new())?)?,
            2 => boxes.push(Box::new(alloc, MailList::new(alloc)?)?)?,
            _ => boxes.push(Box::new(alloc, MailRing::new(alloc)?)?)?,
        }
    }
    serve(&rt, boxes)
}
