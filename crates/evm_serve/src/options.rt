//! The options of a run.

use evm_dev::Device;
use evm_diagnostics::Devices;
use evm_ram::Image;
use std::marker::Model;

/// The options of a run.
#[derive(Drop)]
pub struct RunOptions<'a, D: Device> {
    /// The image that its machine boots with, if there is one.
    pub image: Option<&'a Image>,
    /// The devices that its machine has.
    pub devices: Devices<D>,
}

impl<'a, D: Device> Model for RunOptions<'a, D> {
    ghost use Rattle.std.specs.Prelude.{option_copied};
    ghost use Rattle.evm_serve.specs.RunOptions as model;

    ghost Value = { model.RunOptions };

    ghost view = { λ options. record { image = option_copied options.image; devices = options.devices } };
}
