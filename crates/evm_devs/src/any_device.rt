ghost use Rattle.std.specs.Prelude.{◌≡◌};
ghost use Rattle.evm_dev.specs.declared.kind.Kind.TheVariants as kinds;
ghost use Rattle.evm_devs.specs.AnyDevice.{kind_of_any, words_of_any};

use crate::console::Console;
use crate::copying::CopyFrom;
use crate::mail_list::MailList;
use crate::mail_ring::MailRing;
use crate::pins::Pins;
use evm_dev::{Device, Kind, Op, Touch};

/// A device of any of the kinds that are here, so that one machine has some of each.
#[derive(Debug, Drop)]
pub enum AnyDevice {
    Console(Console),
    MailRing(MailRing),
    MailList(MailList),
    Pins(Pins),
}

impl Device for AnyDevice {
    ghost kind_of = { kind_of_any };

    ghost words_of = { words_of_any };

    fn kind(&self) -> Kind {
        match self {
            AnyDevice::Console(console) => console.kind(),
            AnyDevice::MailRing(mailbox) => mailbox.kind(),
            AnyDevice::MailList(mailbox) => mailbox.kind(),
            AnyDevice::Pins(pins) => pins.kind(),
        }
    }

    fn words(&self, k: usize) -> Option<u64> {
        match self {
            AnyDevice::Console(console) => console.words(k),
            AnyDevice::MailRing(mailbox) => mailbox.words(k),
            AnyDevice::MailList(mailbox) => mailbox.words(k),
            AnyDevice::Pins(pins) => pins.words(k),
        }
    }

    fn touch(&mut self, op: Op, register: u8, value: u64) -> Touch {
        match self {
            AnyDevice::Console(console) => console.touch(op, register, value),
            AnyDevice::MailRing(mailbox) => mailbox.touch(op, register, value),
            AnyDevice::MailList(mailbox) => mailbox.touch(op, register, value),
            AnyDevice::Pins(pins) => pins.touch(op, register, value),
        }
    }

    fn tick(&mut self) -> bool {
        match self {
            AnyDevice::Console(console) => console.tick(),
            AnyDevice::MailRing(mailbox) => mailbox.tick(),
            AnyDevice::MailList(mailbox) => mailbox.tick(),
            AnyDevice::Pins(pins) => pins.tick(),
        }
    }
}

// The console has the bytes of a device that is one.
fn copy_console(console: &mut Console, other: &AnyDevice)
    requires { kind_of_any other.now ≡ kinds.Console }
    ensures { console.new ≡ words_of_any other.now }
{
    if let AnyDevice::Console(other) = other {
        console.copy_from(other);
    }
}

// The mailbox has the words of a device that is one.
fn copy_ring(mailbox: &mut MailRing, other: &AnyDevice)
    requires { kind_of_any other.now ≡ kinds.Mailbox }
    ensures { mailbox.new ≡ words_of_any other.now }
{
    match other {
        AnyDevice::MailRing(other) => mailbox.copy_from(other),
        AnyDevice::MailList(other) => mailbox.set_words(other.as_slice()),
        _ => {}
    }
}

// The mailbox has the words of a device that is one.
fn copy_list(mailbox: &mut MailList, other: &AnyDevice)
    requires { kind_of_any other.now ≡ kinds.Mailbox }
    ensures { mailbox.new ≡ words_of_any other.now }
{
    match other {
        AnyDevice::MailList(other) => mailbox.copy_from(other),
        AnyDevice::MailRing(other) => {
            let (first, second) = other.parts();
            mailbox.set_words(first, second);
        }
        _ => {}
    }
}

// The pins have the words of a device that is pins.
fn copy_pins(pins: &mut Pins, other: &AnyDevice)
    requires { kind_of_any other.now ≡ kinds.Pins }
    ensures { pins.new ≡ words_of_any other.now }
{
    if let AnyDevice::Pins(other) = other {
        pins.copy_from(other);
    }
}

impl CopyFrom for AnyDevice {
    fn copy_from(&mut self, other: &AnyDevice) {
        match self {
            AnyDevice::Console(console) => copy_console(console, other),
            AnyDevice::MailRing(mailbox) => copy_ring(mailbox, other),
            AnyDevice::MailList(mailbox) => copy_list(mailbox, other),
            AnyDevice::Pins(pins) => copy_pins(pins, other),
        }
    }
}
