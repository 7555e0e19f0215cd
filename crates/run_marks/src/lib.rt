//! The marks by which two machines differ: what is seen of a machine before and after an event, and each thing that differs.
#![tactic(auto)]

mod line_marks;
mod mark;
mod marking;
mod observation;
mod tally;
mod task_marks;

pub use line_marks::push_raise;
pub use mark::Mark;
pub use marking::marks;
pub use observation::{Lane, Observation, Running};
pub use tally::{Reach, Stepped, Tally, reach_of, waiting_lines};
pub use task_marks::equal_waits;
