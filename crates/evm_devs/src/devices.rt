//! The devices of a machine.

ghost use Rattle.std.specs.Prelude.{◌≡◌, IfOk};
ghost use Rattle.evm_devs.specs.Devices.{program_devices};

use crate::any_device::AnyDevice;
use crate::attached::Devices;
use crate::console::Console;
use crate::mail_ring::MailRing;
use crate::pins::Pins;
use evm_room::NoMemory;
use std::alloc::Global;

/// The devices that each program attaches: a console, a mailbox and pins. So a journal of one program is replayed by another.
///
/// # Errors
///
/// Memory was refused.
pub fn program_devices(alloc: Global) -> Result<Devices<AnyDevice>, NoMemory>
    ensures { IfOk result (λ devices. devices ≡ program_devices) }
{
    let Ok(mut devices) = Devices::new(alloc) else {
        return Err(NoMemory);
    };
    devices.push(AnyDevice::Console(Console::new(alloc)?));
    devices.push(AnyDevice::MailRing(MailRing::new(alloc)?));
    devices.push(AnyDevice::Pins(Pins::new()));
    Ok(devices)
}
