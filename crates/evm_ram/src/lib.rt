//! RAM as a list of bytes, and images of programs, which are loaded into it.
#![tactic(auto)]

mod blocks;
mod copies;
mod image;
mod ram;
mod same;
mod width;

pub use image::{Image, Segment};
pub use ram::{BASE, Ram, SIZE_LIMIT, read_at};
pub use width::Width;
