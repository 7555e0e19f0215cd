//! A search of every schedule of a program: each event that may come is made at each state, up to states that are alike to one that was
//! visited. Where it ends, no schedule fails, however long it is.
#![tactic(auto)]

mod attempt;
mod bounds;
mod exploring;
mod frontier;
mod going;
mod hashing;
mod passing;
mod path;
mod reached;
mod replaying;
mod rows;
mod searching;
mod seeing;
mod standing;
mod text;
mod turning;
mod undebugged;
mod visited;
mod walking;

ghost use Rattle.hunt_space.specs.Complete.{SearchesAreComplete, SearchesWithoutWatchdog};

pub use attempt::Attempt;
pub use bounds::{Bound, EventBounds};
pub use frontier::Frontier;
pub use path::Path;
pub use reached::{Gap, ReachedText};
pub use searching::{SpaceBounds, SpaceReport, hunt_space};
pub use seeing::Arrival;
pub use standing::Stand;
pub use text::TextSpan;
pub use visited::StatePlace;

/// Where each state that was visited was explored, or passed by a private row, and each path was gone, no schedule fails.
pub fn searches_are_complete()
    ensures { SearchesAreComplete }
{}

/// Without a watchdog, or where no demotion is looked for, it is enough that no failure that is looked for was seen.
pub fn searches_without_watchdog()
    ensures { SearchesWithoutWatchdog }
{}
