//! What is hunted.

use evm_ram::Image;
use hunt_failures::Wanted;
use hunt_schedules::Boot;
use std::alloc::Global;

/// A program, how its machine boots, and which failures are looked for. None of it changes during a hunt.
#[derive(Clone, Copy, Debug)]
pub struct Target<'a> {
    /// What gives memory.
    pub alloc: Global,
    /// The program.
    pub image: &'a Image,
    /// How its machine boots.
    pub boot: &'a Boot,
    /// Which failures are looked for, and which lines are raised.
    pub wanted: &'a Wanted,
}
