//! The marks of one task.

ghost use Rattle.std.specs.Prelude.{◌≡◌, ◌++◌, ℕ, [], OnOk, option_copied, slice_get, true};
ghost use Rattle.run_marks.specs.Lists.{below};
ghost use Rattle.run_marks.specs.Marks.{change_marks, deadline_marks, end_marks, has_ended, is_wait, migrates_marks, moves_marks, one_task_marks, rank_marks, equal_waits, task_stage, task_marks, wait_of, wait_stage, waits_marks, woken_marks};

use crate::mark::Mark;
use crate::marking::{push_when, same_stage};
use crate::observation::{Observation, put};
use evm_model::{Stage, Task, TaskState, Wait};
use evm_room::Refused;

/// Whether a wait is this one.
pub fn equal_waits(one: Wait, two: Wait) -> bool
    ensures { result ≡ equal_waits one two }
{
    match (one, two) {
        (Wait::Line(a), Wait::Line(b))
        | (Wait::Lock(a), Wait::Lock(b))
        | (Wait::Semaphore(a), Wait::Semaphore(b))
        | (Wait::Event(a), Wait::Event(b))
        | (Wait::Flags(a), Wait::Flags(b))
        | (Wait::Timer(a), Wait::Timer(b)) => a == b,
        (Wait::Sleep, Wait::Sleep) => true,
        (
            Wait::Reacquire {
                mutex: a,
                answer: x,
            },
            Wait::Reacquire {
                mutex: b,
                answer: y,
            },
        ) => a == b && x == y,
        _ => false,
    }
}

// What a task waits for.
fn wait_of(state: TaskState) -> Option<Wait>
    ensures { result ≡ wait_of state }
{
    match state {
        TaskState::Waits(wait) => Some(wait),
        _ => None,
    }
}

fn is_wait(wait: Wait, other: Option<Wait>) -> bool
    ensures { result ≡ is_wait wait other }
{
    match other {
        None => false,
        Some(other) => equal_waits(wait, other),
    }
}

// The stage on which a task waits.
fn wait_stage(wait: Wait) -> Stage
    ensures { result ≡ wait_stage wait }
{
    match wait {
        Wait::Line(_) => Stage::InBand,
        _ => Stage::OutOfBand,
    }
}

// The stage of a task that hasn't ended.
fn task_stage(state: TaskState) -> Option<Stage>
    ensures { result ≡ task_stage state }
{
    match state {
        TaskState::InReady => Some(Stage::InBand),
        TaskState::OobReady => Some(Stage::OutOfBand),
        TaskState::Waits(wait) => Some(wait_stage(wait)),
        TaskState::Exit | TaskState::Faulted(_) => None,
    }
}

#[tactic(auto, using(crate::proofs::Lemmas::numbered))]
fn push_wait(
    marks: &mut Vec<Mark>,
    task: u8,
    before: Option<Wait>,
    after: Option<Wait>,
) -> Result<(), Refused>
    ensures { OnOk result (marks.new.items ≡ marks.old.items ++ (waits_marks task before after)) }
{
    match after {
        None => Ok(()),
        Some(wait) => push_when(marks, !is_wait(wait, before), Mark::Waits { task, wait }),
    }
}

#[tactic(auto, using(crate::proofs::Lemmas::numbered))]
fn push_woken(
    marks: &mut Vec<Mark>,
    task: u8,
    before: Option<Wait>,
    after: Option<Wait>,
) -> Result<(), Refused>
    ensures { OnOk result (marks.new.items ≡ marks.old.items ++ (woken_marks task before after)) }
{
    match before {
        None => Ok(()),
        Some(wait) => push_when(marks, !is_wait(wait, after), Mark::Woken { task, wait }),
    }
}

fn push_deadline(
    marks: &mut Vec<Mark>,
    task: u8,
    ticks: u64,
    before: u64,
    after: u64,
) -> Result<(), Refused>
    ensures { OnOk result (marks.new.items ≡ marks.old.items ++ (deadline_marks task ticks before after)) }
{
    push_when(
        marks,
        before != 0 && (before <= ticks && before != after),
        Mark::Deadline { task, tick: before },
    )
}

fn push_migrates(marks: &mut Vec<Mark>, task: u8, before: u8, after: u8) -> Result<(), Refused>
    ensures { OnOk result (marks.new.items ≡ marks.old.items ++ (migrates_marks task before after)) }
{
    push_when(marks, before != after, Mark::Migrates { task, cpu: after })
}

#[tactic(auto, using(crate::proofs::Lemmas::numbered))]
fn push_moves(
    marks: &mut Vec<Mark>,
    task: u8,
    before: Option<Stage>,
    after: Option<Stage>,
) -> Result<(), Refused>
    ensures { OnOk result (marks.new.items ≡ marks.old.items ++ (moves_marks task before after)) }
{
    match (before, after) {
        (Some(before), Some(stage)) => push_when(
            marks,
            !same_stage(before, stage),
            Mark::Moves { task, stage },
        ),
        _ => Ok(()),
    }
}

fn has_ended(state: TaskState) -> bool
    ensures { result ≡ has_ended state }
{
    match state {
        TaskState::Exit | TaskState::Faulted(_) => true,
        _ => false,
    }
}

#[tactic(auto, using(crate::proofs::Lemmas::numbered))]
fn push_end(
    marks: &mut Vec<Mark>,
    task: u8,
    before: TaskState,
    after: TaskState,
) -> Result<(), Refused>
    ensures { OnOk result (marks.new.items ≡ marks.old.items ++ (end_marks task before after)) }
{
    match after {
        TaskState::Exit => push_when(marks, !has_ended(before), Mark::Ended { task }),
        TaskState::Faulted(fault) => {
            push_when(marks, !has_ended(before), Mark::Faulted { task, fault })
        }
        _ => Ok(()),
    }
}

#[inline(never)]
#[tactic(auto, using(crate::proofs::Lemmas::numbered))]
fn push_changes(
    marks: &mut Vec<Mark>,
    task: u8,
    ticks: u64,
    before: &Task,
    after: &Task,
) -> Result<(), Refused>
    ensures { OnOk result (marks.new.items ≡ marks.old.items ++ (change_marks task ticks before.now after.now)) }
{
    push_woken(marks, task, wait_of(before.state), wait_of(after.state))?;
    push_deadline(marks, task, ticks, before.deadline, after.deadline)?;
    push_migrates(marks, task, before.cpu, after.cpu)?;
    push_moves(
        marks,
        task,
        task_stage(before.state),
        task_stage(after.state),
    )?;
    push_wait(marks, task, wait_of(before.state), wait_of(after.state))?;
    push_end(marks, task, before.state, after.state)
}

// Whether nothing of a task is another that has a mark.
#[inline(always)]
#[tactic(auto, using(crate::proofs::Unchanged::no_change))]
fn same_task(before: &Task, after: &Task) -> bool
    ensures { (t ticks : ℕ) → result ≡ true → change_marks t ticks before.now after.now ≡ [] }
{
    before.cpu == after.cpu && before.deadline == after.deadline && before.state == after.state
}

// Most tasks have no mark.
#[inline(always)]
#[tactic(auto, using(crate::proofs::Lemmas::numbered))]
fn push_changed(
    marks: &mut Vec<Mark>,
    task: u8,
    ticks: u64,
    before: &Task,
    after: &Task,
) -> Result<(), Refused>
    ensures { OnOk result (marks.new.items ≡ marks.old.items ++ (change_marks task ticks before.now after.now)) }
{
    if same_task(before, after) {
        Ok(())
    } else {
        push_changes(marks, task, ticks, before, after)
    }
}

#[tactic(auto, unfolding(crate::specs::Marks::task_marks), using(crate::proofs::Lemmas::numbered))]
fn push_task(
    marks: &mut Vec<Mark>,
    task: u8,
    ticks: u64,
    before: Option<&Task>,
    after: Option<&Task>,
) -> Result<(), Refused>
    ensures { OnOk result (marks.new.items ≡ marks.old.items ++ (task_marks task ticks (option_copied before.entry) (option_copied after.entry))) }
{
    match (before, after) {
        (None, Some(_)) => push_when(marks, true, Mark::Created { task }),
        (Some(before), Some(after)) => push_changed(marks, task, ticks, before, after),
        _ => Ok(()),
    }
}

#[tactic(auto, using(crate::proofs::Lemmas::numbered))]
fn push_task_at(
    marks: &mut Vec<Mark>,
    task: u8,
    ticks: u64,
    before: &[Task],
    after: &[Task],
    at: usize,
) -> Result<(), Refused>
    ensures { OnOk result (marks.new.items ≡ marks.old.items ++ (task_marks task ticks (slice_get before.now at) (slice_get after.now at))) }
{
    push_task(marks, task, ticks, before.get(at), after.get(at))
}

#[tactic(auto, using(crate::proofs::Lemmas::numbered))]
fn push_rank(
    marks: &mut Vec<Mark>,
    task: u8,
    before: Option<u16>,
    after: Option<u16>,
) -> Result<(), Refused>
    ensures { OnOk result (marks.new.items ≡ marks.old.items ++ (rank_marks task before after)) }
{
    match (before, after) {
        (Some(from), Some(to)) if from != to => put(marks, Mark::Rank { task, from, to }),
        _ => Ok(()),
    }
}

fn rank_at(ranks: &[u16], at: usize) -> Option<u16>
    ensures { result ≡ slice_get ranks.now at }
{
    ranks.get(at).copied()
}

#[tactic(auto, unfolding(crate::specs::Marks::one_task_marks), using(crate::proofs::Lemmas::numbered))]
fn push_one_task(
    marks: &mut Vec<Mark>,
    task: u8,
    before: &Observation,
    after: &Observation,
) -> Result<(), Refused>
    ensures { OnOk result (marks.new.items ≡ marks.old.items ++ one_task_marks before.now after.now task) }
{
    let at = usize::from(task);
    push_task_at(
        marks,
        task,
        after.ticks,
        before.tasks.as_slice(),
        after.tasks.as_slice(),
        at,
    )?;
    push_rank(
        marks,
        task,
        rank_at(before.ranks.as_slice(), at),
        rank_at(after.ranks.as_slice(), at),
    )
}

#[tactic(auto, using(crate::proofs::Lemmas::numbered))]
pub(crate) fn push_tasks(
    marks: &mut Vec<Mark>,
    before: &Observation,
    after: &Observation,
) -> Result<(), Refused>
    ensures { OnOk result (marks.new.items ≡ marks.old.items ++ below (one_task_marks before.now after.now) after.now.task_count) }
{
    for task in 0..after.task_count {
        push_one_task(marks, task, before, after)?;
    }
    Ok(())
}
