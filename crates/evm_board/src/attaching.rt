//! The devices of a board, before its first event and behind its last one.

ghost use Rattle.std.specs.Prelude.{◌≡◌, ◌<◌, ◌≤◌, [], ◌∷◌, ◌++◌, length, map};
ghost use Rattle.evm_devs.specs.Bus.{AreIdleFrom};
ghost use Rattle.evm_model.specs.Good.{AreDevices};
ghost use Rattle.evm_model.specs.State.{on_memory};

use crate::board::Board;
use evm_dev::Device;
use evm_model::DEVICE_LIMIT;

impl<D: Device> Board<D> {
    /// How many devices there are.
    pub fn device_count(&self) -> usize
        ensures count { result ≡ length self.now.memory.devices }
        ensures limit { result ≤ DEVICE_LIMIT }
    {
        self.memory.devices.len()
    }

    /// A number from which on a tick changes no device and raises no line of one.
    pub(crate) fn active_devices(&self) -> usize
        ensures limit { result ≤ DEVICE_LIMIT }
        ensures idle { AreIdleFrom result self.now.memory.devices }
    {
        self.memory.devices.active()
    }

    /// There are no more devices than there may be, and each has words that its kind may have.
    pub fn device_rules(&self)
        ensures { AreDevices self.now.memory.devices }
    {
        self.memory.devices.rules();
    }

    /// A device more, which has the next number.
    pub fn attach(&mut self, device: D)
        requires { length self.old.memory.devices < DEVICE_LIMIT }
        ensures { self.new ≡ on_memory (λ m. record m { devices = m.devices ++ record { kind = D.kind_of device; words = D.words_of device } ∷ [] }) self.old }
    {
        self.memory.devices.push(device);
    }

    /// The devices, in the order in which they were attached.
    pub fn into_devices(self) -> Vec<D>
        ensures { map (λ device. record { kind = D.kind_of device; words = D.words_of device }) result.items ≡ self.memory.devices }
    {
        self.memory.into_devices()
    }
}
