//! The marks by which a machine differs from what was seen of it.

ghost use Rattle.std.specs.Prelude.{◌≡◌, ◌+◌, ◌++◌, ◌<◌, ℕ, [], OnOk, Option, length, option_copied, slice_get, true};
ghost use Rattle.evm_model.specs.State.{Parts};
ghost use Rattle.evm_model.specs.declared.limits.TheConstants.{PROCESSOR_LIMIT as PROCESSORS};
ghost use Rattle.run_marks.specs.Lists.{below};
ghost use Rattle.run_marks.specs.Tallies.{IsTallyOf, IsTallyUpTo, IsWithinReach};
ghost use Rattle.run_marks.specs.Marks.{lane_marks, marks_of, notice_marks, owner_in, owner_marks, processor_marks, running_marks, same_bit, same_owner, same_running, same_stage, stall_marks, stop_marks, tick_marks, when};

use crate::line_marks::push_pipe;
use crate::mark::Mark;
use crate::observation::{Lane, Observation, Running, put};
use crate::tally::{Reach, Tally};
use crate::task_marks::push_tasks;
use evm_dev::Device;
use evm_journal::Machine;
use evm_model::{Notice, Stage};
use evm_room::Refused;

/// Appends a mark, if it is one. Most are none.
#[inline(always)]
#[tactic(auto, using(crate::proofs::Lemmas::numbered))]
pub(crate) fn push_when(marks: &mut Vec<Mark>, holds: bool, mark: Mark) -> Result<(), Refused>
    ensures { OnOk result (marks.new.items ≡ marks.old.items ++ (when holds mark)) }
{
    if holds { put(marks, mark) } else { Ok(()) }
}

// Whether a bit stays.
fn same_bit(before: bool, after: bool) -> bool
    ensures { result ≡ same_bit before after }
{
    if before { after } else { !after }
}

pub(crate) fn same_stage(one: Stage, two: Stage) -> bool
    ensures { result ≡ same_stage one two }
{
    match (one, two) {
        (Stage::OutOfBand, Stage::OutOfBand) | (Stage::InBand, Stage::InBand) => true,
        _ => false,
    }
}

fn same_running(before: Option<Running>, after: Running) -> bool
    ensures { result ≡ same_running before after }
{
    match before {
        None => false,
        Some(before) => before.task == after.task && same_stage(before.stage, after.stage),
    }
}

fn push_running(
    marks: &mut Vec<Mark>,
    cpu: u8,
    before: Option<Running>,
    after: Option<Running>,
) -> Result<(), Refused>
    ensures { OnOk result (marks.new.items ≡ marks.old.items ++ (running_marks cpu before after)) }
{
    match after {
        None => push_when(marks, before.is_some(), Mark::Idles { cpu }),
        Some(now) => push_when(
            marks,
            !same_running(before, now),
            Mark::Runs {
                cpu,
                task: now.task,
                stage: now.stage,
            },
        ),
    }
}

fn push_stall(
    marks: &mut Vec<Mark>,
    cpu: u8,
    stage: Stage,
    before: bool,
    after: bool,
) -> Result<(), Refused>
    ensures { OnOk result (marks.new.items ≡ marks.old.items ++ (stall_marks cpu stage before after)) }
{
    push_when(
        marks,
        !same_bit(before, after),
        Mark::Stall {
            cpu,
            stage,
            on: after,
        },
    )
}

fn push_stop(marks: &mut Vec<Mark>, cpu: u8, before: bool, after: bool) -> Result<(), Refused>
    ensures { OnOk result (marks.new.items ≡ marks.old.items ++ (stop_marks cpu before after)) }
{
    push_when(
        marks,
        !same_bit(before, after),
        Mark::Stop { cpu, on: after },
    )
}

// Whether a processor still runs the same task on the same stage, or none.
#[inline(always)]
fn same_runs(before: Option<Running>, after: Option<Running>) -> bool
    ensures { (c : ℕ) → result ≡ true → running_marks c before after ≡ [] }
{
    match after {
        None => before.is_none(),
        Some(now) => same_running(before, now),
    }
}

// Whether nothing of a processor is another.
#[inline(always)]
#[tactic(auto, unfolding(crate::specs::Marks::lane_marks))]
fn same_lane(before: &Lane, after: &Lane) -> bool
    ensures { (c : ℕ) → result ≡ true → lane_marks c (Option.Some before.now) (Option.Some after.now) ≡ [] }
{
    same_bit(before.stopped, after.stopped)
        && same_bit(before.oob_stalled, after.oob_stalled)
        && same_bit(before.in_band_stalled, after.in_band_stalled)
        && same_runs(before.running, after.running)
}

#[inline(never)]
#[tactic(auto, unfolding(crate::specs::Marks::lane_marks), using(crate::proofs::Lemmas::numbered))]
fn push_turn(marks: &mut Vec<Mark>, cpu: u8, before: &Lane, after: &Lane) -> Result<(), Refused>
    ensures { OnOk result (marks.new.items ≡ marks.old.items ++ (lane_marks cpu (Option.Some before.now) (Option.Some after.now))) }
{
    push_running(marks, cpu, before.running, after.running)?;
    push_stall(
        marks,
        cpu,
        Stage::OutOfBand,
        before.oob_stalled,
        after.oob_stalled,
    )?;
    push_stall(
        marks,
        cpu,
        Stage::InBand,
        before.in_band_stalled,
        after.in_band_stalled,
    )?;
    push_stop(marks, cpu, before.stopped, after.stopped)
}

// Most processors have no mark.
#[inline(always)]
#[tactic(auto, using(crate::proofs::Lemmas::numbered))]
fn push_turned(marks: &mut Vec<Mark>, cpu: u8, before: &Lane, after: &Lane) -> Result<(), Refused>
    ensures { OnOk result (marks.new.items ≡ marks.old.items ++ (lane_marks cpu (Option.Some before.now) (Option.Some after.now))) }
{
    if same_lane(before, after) {
        Ok(())
    } else {
        push_turn(marks, cpu, before, after)
    }
}

#[inline(always)]
#[tactic(auto, unfolding(crate::specs::Marks::lane_marks), using(crate::proofs::Lemmas::numbered))]
fn push_lane(
    marks: &mut Vec<Mark>,
    cpu: u8,
    before: Option<&Lane>,
    after: Option<&Lane>,
) -> Result<(), Refused>
    ensures { OnOk result (marks.new.items ≡ marks.old.items ++ (lane_marks cpu (option_copied before.entry) (option_copied after.entry))) }
{
    match (before, after) {
        (Some(before), Some(after)) => push_turned(marks, cpu, before, after),
        _ => Ok(()),
    }
}

#[inline(always)]
#[tactic(auto, using(crate::proofs::Lemmas::numbered))]
fn push_lane_at(
    marks: &mut Vec<Mark>,
    cpu: u8,
    before: &[Lane],
    after: &[Lane],
) -> Result<(), Refused>
    ensures { OnOk result (marks.new.items ≡ marks.old.items ++ (lane_marks cpu (slice_get before.now cpu) (slice_get after.now cpu))) }
{
    let at = usize::from(cpu);
    push_lane(marks, cpu, before.get(at), after.get(at))
}

#[tactic(auto, unfolding(crate::specs::Marks::processor_marks), using(crate::proofs::Lemmas::numbered))]
fn push_processor<D: Device>(
    marks: &mut Vec<Mark>,
    cpu: u8,
    before: &Observation,
    after: &Observation,
    tally: &mut Tally,
    machine: &Machine<D>,
    reach: &Reach,
) -> Result<(), Refused>
    requires { cpu < PROCESSORS }
    ensures { (was : Parts) → IsTallyUpTo cpu tally.old.rows was machine.now.board.parts → IsWithinReach reach.now was machine.now.board.parts → OnOk result ((marks.new.items ≡ marks.old.items ++ processor_marks before.now after.now was machine.now.board.parts cpu) × IsTallyUpTo (cpu + 1) tally.new.rows was machine.now.board.parts) }
{
    push_lane_at(marks, cpu, before.lanes.as_slice(), after.lanes.as_slice())?;
    push_pipe(marks, cpu, tally, machine, reach)
}

fn push_processors<D: Device>(
    marks: &mut Vec<Mark>,
    before: &Observation,
    after: &Observation,
    tally: &mut Tally,
    machine: &Machine<D>,
    reach: &Reach,
) -> Result<(), Refused>
    requires { after.now.cpu_count ≡ length machine.now.board.parts.processors }
    ensures { (was : Parts) → IsTallyOf tally.old.rows was → IsWithinReach reach.now was machine.now.board.parts → OnOk result ((marks.new.items ≡ marks.old.items ++ below (processor_marks before.now after.now was machine.now.board.parts) after.now.cpu_count) × IsTallyOf tally.new.rows machine.now.board.parts) }
{
    machine.rules();
    for cpu in 0..after.cpu_count {
        push_processor(marks, cpu, before, after, tally, machine, reach)?;
    }
    Ok(())
}

fn same_owner(one: Option<u8>, two: Option<u8>) -> bool
    ensures { result ≡ same_owner one two }
{
    match (one, two) {
        (None, None) => true,
        (Some(one), Some(two)) => one == two,
        _ => false,
    }
}

// The owner of a mutex; a mutex that isn't there has none.
fn owner_in(owner: Option<&Option<u8>>) -> Option<u8>
    ensures { result ≡ owner_in (option_copied owner.entry) }
{
    match owner {
        None => None,
        Some(owner) => *owner,
    }
}

#[tactic(auto, unfolding(crate::specs::Marks::owner_marks), using(crate::proofs::Lemmas::numbered))]
fn push_owner(
    marks: &mut Vec<Mark>,
    mutex: u8,
    before: &Observation,
    after: &Observation,
) -> Result<(), Refused>
    ensures { OnOk result (marks.new.items ≡ marks.old.items ++ owner_marks before.now after.now mutex) }
{
    let at = usize::from(mutex);
    let from = owner_in(before.owners.get(at));
    let to = owner_in(after.owners.get(at));
    push_when(
        marks,
        !same_owner(from, to),
        Mark::Owner { mutex, from, to },
    )
}

#[tactic(auto, using(crate::proofs::Lemmas::numbered))]
fn push_owners(
    marks: &mut Vec<Mark>,
    before: &Observation,
    after: &Observation,
) -> Result<(), Refused>
    ensures { OnOk result (marks.new.items ≡ marks.old.items ++ below (owner_marks before.now after.now) after.now.mutex_count) }
{
    for mutex in 0..after.mutex_count {
        push_owner(marks, mutex, before, after)?;
    }
    Ok(())
}

#[tactic(auto, using(crate::proofs::Lemmas::numbered))]
fn push_notice(
    marks: &mut Vec<Mark>,
    before: u64,
    after: u64,
    last: Option<Notice>,
) -> Result<(), Refused>
    ensures { OnOk result (marks.new.items ≡ marks.old.items ++ (notice_marks before after last)) }
{
    match last {
        None => Ok(()),
        Some(notice) => push_when(
            marks,
            before < after,
            Mark::Notice {
                kind: notice.kind,
                task: notice.task,
                times: after.saturating_sub(before),
            },
        ),
    }
}

fn push_ticks(marks: &mut Vec<Mark>, before: u64, after: u64) -> Result<(), Refused>
    ensures { OnOk result (marks.new.items ≡ marks.old.items ++ (tick_marks before after)) }
{
    let times = after.saturating_sub(before);
    push_when(marks, before < after, Mark::Ticked { times })
}

/// Appends the marks by which a machine differs, after an event that reaches so far, from what was seen before: those of each
/// processor, of each task, of each mutex, and of the machine.
#[tactic(auto, unfolding(crate::specs::Marks::marks_of), using(crate::proofs::Lemmas::numbered))]
pub fn marks<D: Device>(
    marks: &mut Vec<Mark>,
    before: &Observation,
    after: &Observation,
    tally: &mut Tally,
    machine: &Machine<D>,
    reach: &Reach,
) -> Result<(), Refused>
    requires { after.now.cpu_count ≡ length machine.now.board.parts.processors }
    ensures { (was : Parts) → IsTallyOf tally.old.rows was → IsWithinReach reach.now was machine.now.board.parts → OnOk result ((marks.new.items ≡ marks.old.items ++ marks_of before.now after.now was machine.now.board.parts) × IsTallyOf tally.new.rows machine.now.board.parts) }
{
    push_ticks(marks, before.ticks, after.ticks)?;
    push_processors(marks, before, after, tally, machine, reach)?;
    push_tasks(marks, before, after)?;
    push_owners(marks, before, after)?;
    push_notice(marks, before.notices, after.notices, after.last_notice)
}
