//! Each claim on host threads once more, in the model's first words: a law or a contract that grows weaker, or that
//! goes, is missed here. The page docs/CLAIMS.md follows these files.
#![tactic(auto)]

mod beside;
mod calls;
mod rings;
mod sharing;
mod stages;
mod taking;
mod whole;

pub use beside::{Ringing, rings_beside_workers_become_bells};
pub use calls::{
    a_commit_is_answered_by_all_calls_before_it, a_deliver_is_answered_by_all_calls_before_it,
    a_tick_is_answered_by_all_calls_before_it,
};
pub use rings::{checked_receipts_have_each_bell, each_ring_is_left_or_becomes_a_bell};
pub use sharing::the_machine_under_the_lock_is_its_journals_replay;
pub use stages::{each_bell_comes_to_a_stage, each_ring_comes_to_a_stage};
pub use taking::{
    a_command_says_no_bell, a_commit_says_no_bell, a_deliver_says_what_it_takes,
    a_run_says_what_it_takes, each_ring_is_left_or_becomes_a_bell_of_a_pair,
};
pub use whole::no_interrupt_is_lost_or_played_twice;
