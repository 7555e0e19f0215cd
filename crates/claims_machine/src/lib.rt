//! Each claim once more, in the model's first words: a law whose statement grows weaker, or that goes, is missed here.
//! A call of a law does nothing and tells what it ensures. The page docs/CLAIMS.md follows these files line by line.
#![tactic(auto)]

mod callers;
mod devices;
mod faults;
mod headline;
mod mutexes;
mod no_interrupt_lost;
mod notices;
mod objects;
mod order;
mod parts;
mod rules;
mod safe_and_total;
mod steps;
mod waking;

pub use callers::a_call_changes_of_its_task_what_the_table_says;
pub use devices::{
    a_load_touches_whatever_its_register, a_register_has_one_address,
    a_tick_changes_devices_by_their_kinds, an_unanswered_access_faults, device_kinds_never_change,
};
pub use faults::a_fault_takes_its_task_in_band_or_ends_it;
pub use headline::{a_machine_is_its_journals_replay, a_run_may_be_cut_anywhere};
pub use mutexes::{
    a_mutex_passes_to_the_first_waiter, a_rank_is_never_below_its_own,
    an_owner_ranks_no_lower_than_its_waiters, each_waited_mutex_has_an_owner,
    no_chain_of_waiting_returns, ranks_are_the_only_settled_ones,
};
pub use no_interrupt_lost::{
    a_device_raises_its_line, line_one_is_raised_for_a_better_task, no_line_is_lost_in_a_stage,
    no_line_is_lost_on_its_wire, raised_as_often_as_the_journal_says,
    what_is_received_comes_to_a_stage,
};
pub use notices::{
    a_step_makes_one_notice_at_most, a_task_that_asks_has_its_notice,
    no_other_event_makes_a_notice, notices_are_few,
};
pub use objects::{
    a_task_that_does_not_wait_has_no_deadline, a_task_that_waits_for_an_event_owns_no_mutex,
    each_action_names_what_is_there, each_flag_group_is_within_its_bound,
    each_timer_is_within_its_bound, timers_expire_by_number, waits_end_by_deadline_then_by_number,
};
pub use order::{
    a_broadcast_leaves_no_waiter, a_task_that_ends_passes_its_mutexes_by_number,
    lines_are_played_in_rising_order, waiters_of_a_line_wake_by_number,
};
pub use parts::{
    a_command_changes_one_place, a_raise_puts_its_line_on_the_wire, a_register_keeps_its_number,
    a_tick_moves_the_clock, an_accepted_event_is_journaled, an_image_stands_in_ram,
    the_best_task_is_first, the_least_refusal_is_returned, words_and_instructions_are_inverse,
};
pub use rules::{
    a_current_task_is_ready_at_home, a_private_row_changes_one_hart, a_private_row_settles_nothing,
    a_processor_runs_its_best_task, a_stage_is_stalled_by_its_task, a_step_receives_the_least_line,
    each_pc_is_a_multiple_of_4, each_semaphore_is_within_its_bound, no_two_tasks_have_one_stamp,
    nothing_waits_in_an_open_log,
};
pub use safe_and_total::{
    a_machine_is_as_it_was_booted, counts_never_wrap, sizes_never_change, the_clock_is_its_ticks,
};
pub use steps::{a_single_step_changes_only, a_step_changes_only};
pub use waking::{
    a_wait_begins_with_a_fresh_stamp, a_wait_for_a_line_or_a_timer_has_no_deadline,
    a_weak_task_wakes_in_band, a_yield_and_a_spent_slice_give_a_fresh_stamp,
};
