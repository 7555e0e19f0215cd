//! Devices of a machine: attached, refused, touched, and given back. They are of the tests' own type, of kind Pins.
//! With an allocation refused (`rt try --test --fail-alloc N`) a test ends at the boot that asked for it.

use super::gauge::Gauge;
use super::{answers, register};
use evm_core::{Answer, Boot, Devices, Event, Machine, Refusal};
use evm_model::DEVICE_LIMIT;
use evm_ram::BASE;
use std::alloc::Global;
use std::process::Abort;
use std::test::Fail;

fn booted(alloc: Global) -> Result<Machine<Gauge>, Fail> {
    match Machine::boot(alloc, 1, 65536, 64) {
        Ok(machine) => Ok(machine),
        Err(_) => Err(Fail::from("the boot was refused")),
    }
}

// Refused with a reason, and the device comes back.
fn comes_back(
    rt: &impl Abort,
    machine: &mut Machine<Gauge>,
    level: u64,
    wanted: Refusal,
) -> Result<(), Fail> {
    let Err((refusal, device)) = machine.attach(Gauge::at(level)) else {
        return Err(Fail::from("it was attached"));
    };
    assert_eq!(rt; refusal, wanted);
    assert_eq!(rt; device.level(), level);
    Ok(())
}

// A ninth device finds no slot, after an event too; and they come back in their order.
fn takes_eight(rt: &impl Abort, machine: &mut Machine<Gauge>) -> Result<(), Fail> {
    for i in 0..8u8 {
        let Ok(number) = machine.attach(Gauge::at(u64::from(i) + 10)) else {
            return Err(Fail::from("it was refused"));
        };
        assert_eq!(rt; number, i);
    }
    comes_back(rt, machine, 99, Refusal::NoSlot)?;
    answers(rt, machine, Event::Tick, Answer::Done);
    comes_back(rt, machine, 98, Refusal::NoSlot)?;
    assert_eq!(rt; machine.device_count(), DEVICE_LIMIT);
    Ok(())
}

fn are_in_order(rt: &impl Abort, devices: &[Gauge]) {
    assert_eq!(rt; devices.len(), DEVICE_LIMIT);
    let mut level = 10u64;
    for device in devices {
        assert_eq!(rt; device.level(), level);
        level = level.saturating_add(1);
    }
}

#[test]
fn eight_devices(rt: HostRuntime) -> Result<(), Fail> {
    let mut machine = booted(rt.alloc())?;
    takes_eight(&rt, &mut machine)?;
    let devices = machine.into_devices();
    are_in_order(&rt, devices.as_slice());
    Ok(())
}

// After the first event none is attached.
pub fn after_an_event(rt: &impl Abort, machine: &mut Machine<Gauge>) -> Result<(), Fail> {
    assert!(rt; machine.attach(Gauge::at(5)).is_ok());
    answers(rt, machine, Event::Tick, Answer::Done);
    comes_back(rt, machine, 6, Refusal::Started)?;
    assert_eq!(rt; machine.device_count(), 1);
    assert_eq!(rt; machine.device_word(0, 0), Some(5));
    assert_eq!(rt; machine.device_word(1, 0), None);
    Ok(())
}

// Whether lines of processor 0 wait.
fn waits(machine: &Machine<Gauge>, line: u8) -> bool {
    match machine.wire(0) {
        Some(wire) => wire.contains(line),
        None => false,
    }
}

// A count of two falls by two ticks, and the second raises line 2 of processor 0; a load reads the level.
pub fn pins_of_our_own(rt: &impl Abort, machine: &mut Machine<Gauge>) -> Result<(), Fail> {
    assert!(rt; machine.attach(Gauge::at(7)).is_ok());
    // lui x11, 0x10000; addi x10, x0, 2; sd x10, 16(x11); ld x12, 0(x11)
    let code = super::poke_of(&[0x1000_05b7, 0x0020_0513, 0x00a5_b823, 0x0005_b603]);
    answers(rt, machine, code, Answer::Done);
    for _ in 0..4 {
        answers(rt, machine, Event::Step(0), Answer::Ran(0));
    }
    assert_eq!(rt; register(machine, 12), 7);
    assert_eq!(rt; machine.device_word(0, 2), Some(2));
    answers(rt, machine, Event::Tick, Answer::Done);
    assert_eq!(rt; machine.device_word(0, 2), Some(1));
    assert!(rt; !waits(machine, 2));
    answers(rt, machine, Event::Tick, Answer::Done);
    assert_eq!(rt; machine.device_word(0, 2), Some(0));
    assert!(rt; waits(machine, 2));
    Ok(())
}

// lui x11, 0x10000; sw x11, 0(x11)
fn stores_four_bytes(rt: &impl Abort, machine: &mut Machine<Gauge>) {
    let code = super::poke_of(&[0x1000_05b7, 0x00b5_a023]);
    answers(rt, machine, code, Answer::Done);
    answers(rt, machine, Event::Step(0), Answer::Ran(0));
    answers(rt, machine, Event::Step(0), Answer::Ran(0));
    answers(rt, machine, Event::Step(0), Answer::Idle);
    assert_eq!(rt; machine.device_word(0, 0), Some(3));
    assert_eq!(rt; machine.bytes(BASE, 4), Some(&[0xb7, 5, 0, 0x10][..]));
}

// A store of four bytes to a register touches nothing, and ends its task; the machine was booted with the device.
#[test]
fn four_bytes_fault(rt: HostRuntime) -> Result<(), Fail> {
    let Ok(mut devices) = Devices::new(rt.alloc()) else {
        return Err(Fail::from("the devices were refused"));
    };
    devices.push(Gauge::at(3));
    let boot = Boot::newest(1, 65536, 16);
    let Ok(mut machine) = Machine::from_boot(rt.alloc(), boot, devices) else {
        return Err(Fail::from("the boot was refused"));
    };
    stores_four_bytes(&rt, &mut machine);
    Ok(())
}
