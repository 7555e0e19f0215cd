//! A sink that keeps nothing.

use evm_streams::{Sink, Writing};

/// Takes all bytes, and keeps none.
#[derive(Drop)]
pub(crate) struct Nowhere;

impl Sink for Nowhere {
    ghost takes = { λ _ _ _ _. Unit {0} };

    fn write(&mut self, text: &[u8]) -> Writing {
        Writing::Bytes(text.len())
    }
}
