//! What a hunt is given.

use crate::words::Options;
use hunt_search::Target;
use text_symbols::Names;

/// A program that is hunted in, what the words ask for, and the names of the program's addresses. None of it changes during the hunt.
#[derive(Clone, Copy)]
pub(crate) struct HuntJob<'a> {
    pub(crate) options: &'a Options<'a>,
    pub(crate) target: Target<'a>,
    pub(crate) names: &'a Names,
}
