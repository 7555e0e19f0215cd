//! Whether two machines have boards that are alike: that differ in what no event reads, or in their clocks too.

ghost use Rattle.std.specs.Prelude.{◌≡◌, ◌<◌, ℕ, true, length, map, nat_lt};
ghost use Rattle.evm_model.specs.Devices.{Attached};
ghost use Rattle.evm_model.specs.Ranks.{stamp};
ghost use Rattle.evm_model.specs.declared.limits.TheConstants.{TASK_LIMIT};
ghost use Rattle.hunt_states.specs.Places.{AreAlikeAt, AreAlikeBeside, AreAlikeBoots, AreAlikeLines, AreAlikeRunners};
ghost use Rattle.law_runs.specs.Alike.{AlikeBoards, SameOrder};
ghost use Rattle.law_runs.specs.Timeless.{AlikeTimeless};

use crate::lists::same_objects;
use crate::memory::same_memories;
use crate::values::{alike_notices, alike_tasks, same_processors, same_stages};
use evm_core::Machine;
use evm_dev::Device;
use evm_model::TASK_LIMIT;

// Whether their boots are the same, except for how many events the journal takes.
fn alike_boots<D: Device>(a: &Machine<D>, b: &Machine<D>) -> bool
    ensures { result ≡ true → AreAlikeBoots a.now.boot b.now.boot }
{
    let first = a.boot_numbers();
    let second = b.boot_numbers();
    first.profile == second.profile
        && first.watchdog == second.watchdog
        && first.cpus == second.cpus
        && first.ram == second.ram
}

// Whether as many events and notices were made.
fn alike_beside<D: Device>(a: &Machine<D>, b: &Machine<D>) -> bool
    ensures { result ≡ true → AreAlikeBeside a.now.board.parts b.now.board.parts }
{
    a.event_object_count() == b.event_object_count() && a.notice_total() == b.notice_total()
}

fn alike_runners<D: Device>(a: &Machine<D>, b: &Machine<D>, i: u8) -> bool
    ensures { result ≡ true → AreAlikeRunners i a.now.board.parts b.now.board.parts }
{
    if !alike_tasks(a.task(i), b.task(i)) {
        return false;
    }
    if !same_processors(a.cpu(i), b.cpu(i)) {
        return false;
    }
    a.watch(i) == b.watch(i) && a.hart(i) == b.hart(i)
}

fn alike_lines<D: Device>(a: &Machine<D>, b: &Machine<D>, i: u8) -> bool
    ensures { result ≡ true → AreAlikeLines i a.now.board.parts b.now.board.parts }
{
    if !same_stages(a.stages(i), b.stages(i)) {
        return false;
    }
    a.action(i) == b.action(i)
}

fn alike_at<D: Device>(a: &Machine<D>, b: &Machine<D>, i: u8) -> bool
    ensures { result ≡ true → AreAlikeAt i a.now.board.parts b.now.board.parts }
{
    if !alike_runners(a, b, i) {
        return false;
    }
    if !same_objects(a, b, i) {
        return false;
    }
    if !alike_notices(a.notice(usize::from(i)), b.notice(usize::from(i))) {
        return false;
    }
    alike_lines(a, b, i)
}

// Whether the same is at each place before the greatest, without stamps, counts and the ticks of notices.
fn alike_lists<D: Device>(a: &Machine<D>, b: &Machine<D>) -> bool
    ensures { result ≡ true → (i : ℕ) → i < TASK_LIMIT → AreAlikeAt i a.now.board.parts b.now.board.parts }
{
    'places: for i in 0..TASK_LIMIT as u8 {
        if !alike_at(a, b, i) {
            return false;
        }
    }
    true
}

// The stamp of a task, 0 if there is none.
fn stamp_of<D: Device>(machine: &Machine<D>, t: u8) -> u64
    ensures { result ≡ stamp machine.now.board.parts.tasks t }
{
    match machine.task(t) {
        None => 0,
        Some(task) => task.stamp,
    }
}

// Whether a task's stamp compares with each other's as on the other machine.
fn same_order_of<D: Device>(a: &Machine<D>, b: &Machine<D>, t: u8) -> bool
    ensures { result ≡ true → (u : ℕ) → u < length a.now.board.parts.tasks → nat_lt (stamp a.now.board.parts.tasks t) (stamp a.now.board.parts.tasks u) ≡ nat_lt (stamp b.now.board.parts.tasks t) (stamp b.now.board.parts.tasks u) }
{
    'tasks: for u in 0..a.task_count() {
        let goes = stamp_of(a, t) < stamp_of(a, u);
        let goes_there = stamp_of(b, t) < stamp_of(b, u);
        if goes != goes_there {
            return false;
        }
    }
    true
}

// Whether the stamps of each two tasks compare alike.
fn same_order<D: Device>(a: &Machine<D>, b: &Machine<D>) -> bool
    ensures { result ≡ true → SameOrder a.now.board.parts.tasks b.now.board.parts.tasks }
{
    'tasks: for t in 0..a.task_count() {
        if !same_order_of(a, b, t) {
            return false;
        }
    }
    true
}

/// Whether two machines have boards that are alike without their clocks, if their devices are of the same kinds and neither has a breakpoint.
/// It may say no where they are.
pub fn are_alike_timeless<D: Device>(a: &Machine<D>, b: &Machine<D>) -> bool
    ensures { result ≡ true → map (λ (device : Attached). device.kind) a.now.board.memory.devices ≡ map (λ (device : Attached). device.kind) b.now.board.memory.devices → AlikeTimeless a.now.board b.now.board }
{
    if !alike_boots(a, b) {
        return false;
    }
    if a.breakpoint_count() != 0 || b.breakpoint_count() != 0 {
        return false;
    }
    if !alike_beside(a, b) {
        return false;
    }
    if !alike_lists(a, b) {
        return false;
    }
    if !same_order(a, b) {
        return false;
    }
    a.rules();
    b.rules();
    same_memories(a, b)
}

// Whether they keep the same notices.
fn same_kept_notices<D: Device>(a: &Machine<D>, b: &Machine<D>) -> bool
    ensures { result ≡ true → a.now.board.parts.notices.kept ≡ b.now.board.parts.notices.kept }
{
    let count = a.notice_count();
    if count != b.notice_count() {
        return false;
    }
    'notices: for i in 0..count {
        if a.notice(i) != b.notice(i) {
            return false;
        }
    }
    true
}

/// Whether two machines have boards that are alike, if their devices are of the same kinds and neither has a breakpoint. It may say no where
/// the boards are alike.
pub fn are_alike<D: Device>(a: &Machine<D>, b: &Machine<D>) -> bool
    ensures { result ≡ true → map (λ (device : Attached). device.kind) a.now.board.memory.devices ≡ map (λ (device : Attached). device.kind) b.now.board.memory.devices → AlikeBoards a.now.board b.now.board }
{
    if a.ticks() != b.ticks() {
        return false;
    }
    if !same_kept_notices(a, b) {
        return false;
    }
    are_alike_timeless(a, b)
}
