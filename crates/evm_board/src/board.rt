ghost use Rattle.std.specs.Prelude.{◌≡◌, false, length};
ghost use Rattle.evm_devs.specs.Bus.{kinds_of};
ghost use Rattle.evm_model.specs.Commands.{is_set, set_breakpoint, unset_breakpoint};
ghost use Rattle.evm_model.specs.Refusals.{no_slot};

use crate::memory::Memory;
use evm_dev::Device;
use evm_devs::CopyFrom;
use evm_quiet::{Breakpoints, Slots};
use evm_settle::Parts;
use std::marker::Model;

/// What events change.
#[derive(Debug, Drop)]
pub struct Board<D: Device> {
    pub memory: Memory<D>,
    pub breakpoints: Breakpoints,
    pub parts: Parts,
    // which words were decoded: it changes no answer
    pub slots: Slots,
}

impl<D: Device> Model for Board<D> {
    ghost use Rattle.evm_model.specs.State as model;

    ghost Value = { model.Board };

    ghost view = { λ b. record { memory = b.memory; breakpoints = b.breakpoints; parts = b.parts } };
}

impl<D: Device> Board<D> {
    /// Whether a breakpoint is set at an address.
    pub fn is_breakpoint(&self, address: u64) -> bool
        ensures { result ≡ is_set self.now.breakpoints address }
    {
        self.breakpoints.contains(address)
    }

    /// How many breakpoints are set.
    pub fn breakpoint_count(&self) -> usize
        ensures { result ≡ length self.now.breakpoints }
    {
        self.breakpoints.len()
    }

    /// What events change is as on another board, whose RAM is of the same size and whose devices are of the same kinds.
    /// Takes no memory.
    pub fn copy_from(&mut self, other: &Board<D>)
    where
        D: CopyFrom,
        requires size { length self.old.memory.ram ≡ length other.now.memory.ram }
        requires kinds { kinds_of self.old.memory.devices ≡ kinds_of other.now.memory.devices }
        ensures { self.new ≡ other.now }
    {
        self.memory.copy_from(&other.memory);
        self.breakpoints.copy_from(&other.breakpoints);
        self.parts.copy_from(&other.parts);
    }

    /// Sets a breakpoint.
    #[tactic(auto, unfolding(evm_model::specs::Commands::set_breakpoint))]
    pub(crate) fn set_breakpoint(&mut self, address: u64)
        requires { no_slot address self.old ≡ false }
        ensures { self.new ≡ set_breakpoint address self.old }
    {
        if !self.breakpoints.contains(address) {
            self.breakpoints.push(address);
        }
    }

    /// Takes a breakpoint away.
    #[tactic(auto, unfolding(evm_model::specs::Commands::unset_breakpoint))]
    pub(crate) fn unset_breakpoint(&mut self, address: u64)
        ensures { self.new ≡ unset_breakpoint address self.old }
    {
        self.breakpoints.remove(address);
    }
}
