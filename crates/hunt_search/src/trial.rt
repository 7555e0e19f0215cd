//! The branch that a search looks at, and the states that it reaches.

use crate::target::Target;
use hunt_schedules::{AnyDevice, Branch, Machine};
use hunt_states::Trail;

/// The last branch of a search. None of it changes while the branch goes on.
#[derive(Clone, Copy)]
pub(crate) struct Trial<'a> {
    pub(crate) target: Target<'a>,
    /// The most switches of a schedule.
    pub(crate) switches: u8,
    pub(crate) branch: &'a Branch,
    /// For how many steps each branch before it went on.
    pub(crate) walked: &'a [u32],
}

/// A state that a branch has reached by some steps.
#[derive(Clone, Copy)]
pub(crate) struct Position<'a> {
    pub(crate) machine: &'a Machine<AnyDevice>,
    /// What the machine has stored since its boot.
    pub(crate) trail: Trail,
    pub(crate) steps: u32,
}
