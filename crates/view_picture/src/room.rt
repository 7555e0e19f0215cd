//! Room for labels.

use crate::layout::label_width;
use evm_model::PROCESSOR_LIMIT;

/// From where on a row of labels has room, on each processor's lane.
pub(crate) type Free = [u32; PROCESSOR_LIMIT];

/// Two rows of labels.
#[derive(Clone, Copy)]
pub(crate) struct Rows {
    pub(crate) upper: Free,
    pub(crate) lower: Free,
}

impl Rows {
    /// All is free.
    pub(crate) fn new() -> Rows {
        Rows {
            upper: [0; PROCESSOR_LIMIT],
            lower: [0; PROCESSOR_LIMIT],
        }
    }
}

/// Whether a label has room there; then it has no more.
pub(crate) fn takes_room(free: &mut Free, cpu: u8, x: u32, text: &str) -> bool {
    match free.get_mut(usize::from(cpu)) {
        None => false,
        Some(from) => {
            if x < *from {
                return false;
            }
            *from = x.saturating_add(label_width(text)).saturating_add(12);
            true
        }
    }
}
