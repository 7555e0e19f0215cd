//! What is run, and how.

use evm_ram::Image;
use run_schedule::{Boot, RunPlan};
use sh_answers::Names;

/// The image of a file, and the names of its addresses.
#[derive(Clone, Copy)]
pub struct NamedImage<'a> {
    /// The file.
    pub path: &'a str,
    pub image: &'a Image,
    pub names: &'a Names,
}

/// A script, and its file.
#[derive(Clone, Copy)]
pub(crate) struct Script<'a> {
    pub(crate) path: &'a str,
    pub(crate) text: &'a [u8],
}

/// How a program is to be run.
#[derive(Clone, Copy)]
pub(crate) enum Way<'a> {
    /// By a schedule.
    Plan(Boot, RunPlan<'a>),
    /// By a script.
    Script(Script<'a>),
}
