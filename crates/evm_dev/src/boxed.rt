//! A box of any device is a device.

use crate::device::Device;
use crate::kind::Kind;
use crate::touch::{Op, Touch};

impl Device for Box<dyn Device + Send> {
    ghost kind_of = { λ device. (Device-box device).kind_of device.value };

    ghost words_of = { λ device. (Device-box device).words_of device.value };

    fn kind(&self) -> Kind {
        (**self).kind()
    }

    fn words(&self, k: usize) -> Option<u64> {
        (**self).words(k)
    }

    fn touch(&mut self, op: Op, register: u8, value: u64) -> Touch {
        (**self).touch(op, register, value)
    }

    fn tick(&mut self) -> bool {
        (**self).tick()
    }
}
