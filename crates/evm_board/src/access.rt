//! What an access gives, and where the registers of devices are.

ghost use Rattle.std.specs.Prelude.{◌≡◌, ◌<◌, Option};
ghost use Rattle.evm_board.specs.Ticks.{IsLineNumber};
ghost use Rattle.evm_model.specs.Devices.{line_if, register_at};

use evm_model::{DEVICE_BASE, DEVICE_LIMIT, DEVICE_LINE, DEVICE_SPAN, REGISTERS_PER_DEVICE};

/// What a load or a store gives.
#[derive(Clone, Copy, Debug)]
pub struct Access {
    /// The number that a load reads; 0 of a store.
    pub number: u64,
    /// The line that a device raises on processor 0.
    pub line: Option<u8>,
}

impl Access {
    /// An access of RAM.
    pub(crate) fn of_ram(number: u64) -> Access
        ensures { result ≡ record { number = number; line = Option.None } }
    {
        Access { number, line: None }
    }
}

/// The number of the device, and that of its register, at an address.
pub(crate) fn register_at(address: u64) -> Option<(usize, u8)>
    ensures { result ≡ register_at address }
{
    if address < DEVICE_BASE {
        return None;
    }
    let offset = address - DEVICE_BASE;
    let register = offset % DEVICE_SPAN / 8;
    if offset % 8 == 0 && register < u64::from(REGISTERS_PER_DEVICE) {
        Some(((offset / DEVICE_SPAN) as usize, register as u8))
    } else {
        None
    }
}

/// The line of a device, if it raises it.
pub(crate) fn line_if(raise: bool, i: usize) -> Option<u8>
    requires { i < DEVICE_LIMIT }
    ensures value { result ≡ line_if raise i }
    ensures line { IsLineNumber result }
{
    if raise {
        Some(DEVICE_LINE + i as u8)
    } else {
        None
    }
}
