//! Room for texts, lists and rings: a growth, or that it was refused; and copies that need none.
#![tactic(auto)]

mod copying;
mod growth;

pub use copying::{copy_items, copy_list, copy_ring};
pub use growth::{
    NoMemory, Refused, copies, grow, grow_map, grow_text, push_text, ring, with_room,
};
