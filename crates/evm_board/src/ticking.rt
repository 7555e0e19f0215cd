//! The ticks of devices, and the lines that devices raise.

ghost use Rattle.std.specs.Prelude.{◌≡◌, ◌<◌, ◌-◌};
ghost use Rattle.evm_board.specs.Ticks.{IsLineNumber, ticked_once};
ghost use Rattle.evm_model.specs.Bounds.{COUNT_LIMIT, STAMPS_PER_EVENT, PipesUpTo};
ghost use Rattle.evm_model.specs.Commands.{tick};
ghost use Rattle.evm_model.specs.Devices.{raise_line, tick_devices};
ghost use Rattle.evm_model.specs.State.{on_parts};

use crate::access::line_if;
use crate::board::Board;
use crate::commands::tick;
use evm_dev::Device;
use evm_model::{DEVICE_LIMIT, PROCESSOR_LIMIT};
use evm_settle::Parts;

/// Raises the line of a device on processor 0, if there is one.
pub(crate) fn raise_line(parts: &mut Parts, line: Option<u8>)
    requires line { IsLineNumber line }
    requires room { PipesUpTo COUNT_LIMIT parts.old.pipes }
    ensures { parts.new ≡ raise_line line parts.old }
{
    if let Some(line) = line {
        parts.raise(0, line);
    }
}

impl<D: Device> Board<D> {
    // A device ticks, and its line is raised if it is to.
    fn tick_device(&mut self, i: usize)
        requires number { i < DEVICE_LIMIT }
        requires room { PipesUpTo COUNT_LIMIT self.old.parts.pipes }
        ensures { self.new ≡ ticked_once i self.old }
    {
        let raise = self.memory.devices.tick(i);
        raise_line(&mut self.parts, line_if(raise, i));
    }

    // Each device ticks, in the order of their numbers.
    fn tick_devices(&mut self)
        requires { PipesUpTo (COUNT_LIMIT - STAMPS_PER_EVENT) self.old.parts.pipes }
        ensures done { self.new ≡ tick_devices self.old }
        ensures room { PipesUpTo (COUNT_LIMIT - PROCESSOR_LIMIT) self.new.parts.pipes }
        ensures clock { self.new.parts.ticks ≡ self.old.parts.ticks }
    {
        for i in 0..self.active_devices() {
            self.tick_device(i);
        }
    }

    /// The devices tick, and then the clock does.
    pub(crate) fn tick(&mut self)
        requires clock { self.old.parts.ticks < COUNT_LIMIT }
        requires room { PipesUpTo (COUNT_LIMIT - STAMPS_PER_EVENT) self.old.parts.pipes }
        ensures { self.new ≡ on_parts tick (tick_devices self.old) }
    {
        self.tick_devices();
        tick(&mut self.parts);
    }
}
