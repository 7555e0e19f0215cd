//! Whether two machines have the same at a place of their lists.

ghost use Rattle.std.specs.Prelude.{◌≡◌, ◌<◌, ℕ, true, slice_get};
ghost use Rattle.evm_core.specs.Views.{counts_at};
ghost use Rattle.evm_lines.specs.declared.TheConstants.{LINES as LINE_LIMIT};
ghost use Rattle.evm_model.specs.declared.limits.TheConstants.{TASK_LIMIT};
ghost use Rattle.hunt_states.specs.Same.{AreSameAt, AreSameLines, AreSameObjects, AreSameRunners};

use crate::values::{same_processors, same_stages, same_tasks};
use evm_core::Machine;
use evm_dev::Device;
use evm_lines::LINES;
use evm_model::TASK_LIMIT;

fn same_runners<D: Device>(a: &Machine<D>, b: &Machine<D>, i: u8) -> bool
    ensures { result ≡ true → AreSameRunners i a.now.board.parts b.now.board.parts }
{
    if !same_tasks(a.task(i), b.task(i)) {
        return false;
    }
    if !same_processors(a.cpu(i), b.cpu(i)) {
        return false;
    }
    a.watch(i) == b.watch(i) && a.hart(i) == b.hart(i)
}

fn same_notices<D: Device>(a: &Machine<D>, b: &Machine<D>, i: u8) -> bool
    ensures { result ≡ true → slice_get a.now.board.parts.notices.kept i ≡ slice_get b.now.board.parts.notices.kept i }
{
    a.notice(usize::from(i)) == b.notice(usize::from(i))
}

pub(crate) fn same_objects<D: Device>(a: &Machine<D>, b: &Machine<D>, i: u8) -> bool
    ensures { result ≡ true → AreSameObjects i a.now.board.parts b.now.board.parts }
{
    a.mutex(i) == b.mutex(i)
        && a.semaphore(i) == b.semaphore(i)
        && a.event_mutex(i) == b.event_mutex(i)
        && a.flag_group(i) == b.flag_group(i)
        && a.timer(i) == b.timer(i)
}

// Whether the same happened as often to each line of a processor.
fn same_counts<D: Device>(a: &Machine<D>, b: &Machine<D>, c: u8) -> bool
    ensures { result ≡ true → (l : ℕ) → l < LINE_LIMIT → counts_at c l a.now.board.parts ≡ counts_at c l b.now.board.parts }
{
    'lines: for line in 0..LINES {
        if a.counts(c, line) != b.counts(c, line) {
            return false;
        }
    }
    true
}

fn same_lines<D: Device>(a: &Machine<D>, b: &Machine<D>, i: u8) -> bool
    ensures { result ≡ true → AreSameLines i a.now.board.parts b.now.board.parts }
{
    if !same_stages(a.stages(i), b.stages(i)) {
        return false;
    }
    if !same_counts(a, b, i) {
        return false;
    }
    a.action(i) == b.action(i)
}

fn same_at<D: Device>(a: &Machine<D>, b: &Machine<D>, i: u8) -> bool
    ensures { result ≡ true → AreSameAt i a.now.board.parts b.now.board.parts }
{
    if !same_runners(a, b, i) {
        return false;
    }
    if !same_objects(a, b, i) {
        return false;
    }
    if !same_notices(a, b, i) {
        return false;
    }
    same_lines(a, b, i)
}

/// Whether they have the same at each place before the greatest.
pub(crate) fn same_lists<D: Device>(a: &Machine<D>, b: &Machine<D>) -> bool
    ensures { result ≡ true → (i : ℕ) → i < TASK_LIMIT → AreSameAt i a.now.board.parts b.now.board.parts }
{
    'places: for i in 0..TASK_LIMIT as u8 {
        if !same_at(a, b, i) {
            return false;
        }
    }
    true
}
