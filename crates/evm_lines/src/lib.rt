//! Sets of interrupt lines.
#![tactic(auto)]

mod set;

pub use set::LineSet;

/// How many interrupt lines a machine keeps; at most 64, since a set is one word. Its profile says how many of them a
/// processor has.
pub const LINES: u8 = 64;

/// The same number, for arrays with an entry for each line.
pub const LINE_COUNT: usize = LINES as usize;
