//! A window of a journal, replayed.

ghost use Rattle.std.specs.Prelude.{◌≡◌, ◌+◌, ◌≤◌, IfOk, OnOk, length, map};
ghost use Rattle.view_timeline.specs.Rows.{IsWindow};
ghost use Rattle.run_walk.specs.Items.{outline};
ghost use Rattle.run_walk.specs.Walks.{Follows, place};

use crate::cells::{Deed, Held, Seen, Shown, Timeline};
use evm_dev::Device;
use evm_model::{MUTEX_LIMIT, PROCESSOR_LIMIT, TaskState, Wait};
use evm_room::{Refused, grow};
use evm_streams::Meter;
use run_marks::{Mark, Observation};
use run_walk::{Caller, Item, Machine, Walk, WalkStop, actor_of, call_at, wasted};
use std::alloc::Global;

/// Which events are drawn: those from the first number on, and below the last.
#[derive(Clone, Copy)]
pub struct Window {
    pub from: u64,
    pub to: u64,
}

// The owners of the mutexes.
fn see_owners(seen: &mut Seen, observation: &Observation) {
    for (mutex, owner) in observation.owners.as_slice().iter().enumerate() {
        if let Some(held) = seen.mutexes.get_mut(mutex) {
            held.owner = *owner;
        }
    }
}

// For which mutexes a task waits.
fn see_waits(seen: &mut Seen, observation: &Observation) {
    for task in observation.tasks.as_slice() {
        let TaskState::Waits(Wait::Lock(mutex) | Wait::Reacquire { mutex, .. }) = task.state else {
            continue;
        };
        if let Some(held) = seen.mutexes.get_mut(usize::from(mutex)) {
            held.waited = true;
        }
    }
}

const FREE: Held = Held {
    owner: None,
    waited: false,
};

fn seen_of(observation: &Observation) -> Seen {
    let mut seen = Seen {
        lanes: [None; PROCESSOR_LIMIT],
        mutexes: [FREE; MUTEX_LIMIT],
    };
    for c in 0..PROCESSOR_LIMIT {
        seen.lanes[c] = observation.lanes.get(c).copied();
    }
    if observation.mutex_count > 0 {
        see_owners(&mut seen, observation);
        see_waits(&mut seen, observation);
    }
    seen
}

// The processor of a task.
fn task_cpu(observation: &Observation, task: u8) -> Option<u8> {
    match observation.tasks.get(usize::from(task)) {
        Some(task) => Some(task.cpu),
        None => None,
    }
}

// The processor that a mark is about.
fn subject(mark: &Mark, observation: &Observation) -> Option<u8> {
    match mark {
        Mark::Runs { cpu, .. }
        | Mark::Idles { cpu }
        | Mark::Stop { cpu, .. }
        | Mark::Stall { cpu, .. }
        | Mark::Raised { cpu, .. }
        | Mark::Received { cpu, .. }
        | Mark::Played { cpu, .. } => Some(*cpu),
        Mark::Created { task }
        | Mark::Waits { task, .. }
        | Mark::Woken { task, .. }
        | Mark::Deadline { task, .. }
        | Mark::Migrates { task, .. }
        | Mark::Moves { task, .. }
        | Mark::Rank { task, .. }
        | Mark::Ended { task }
        | Mark::Faulted { task, .. }
        | Mark::Notice { task, .. } => task_cpu(observation, *task),
        Mark::Owner { to: Some(task), .. } => task_cpu(observation, *task),
        Mark::Owner { .. } | Mark::Ticked { .. } => None,
    }
}

// The owner of the mutex that is waited for.
fn owner(mark: &Mark, observation: &Observation) -> Option<u8> {
    match mark {
        Mark::Waits {
            wait: Wait::Lock(mutex) | Wait::Reacquire { mutex, .. },
            ..
        } => match observation.owners.get(usize::from(*mutex)) {
            Some(owner) => *owner,
            None => None,
        },
        _ => None,
    }
}

fn shown_of(mark: &Mark, item: &Item, observation: &Observation) -> Shown {
    Shown {
        deed: Deed::Mark(*mark),
        event: item.first,
        actor: actor_of(&item.event),
        subject: subject(mark, observation),
        owner: owner(mark, observation),
    }
}

fn show(
    shown: &mut Vec<Shown>,
    found: &[Mark],
    item: &Item,
    observation: &Observation,
) -> Result<(), Refused> {
    shown.clear();
    for mark in found {
        grow(shown, 1)?;
        shown.push_reserved(shown_of(mark, item, observation));
    }
    Ok(())
}

// The put, signal or post of an item that woke no task.
fn wasted_by<D: Device>(
    caller: Option<Caller>,
    item: &Item,
    machine: &Machine<D>,
    observation: &Observation,
    found: &[Mark],
) -> Option<Shown> {
    let caller = caller?;
    let call = call_at(machine, observation, caller, item.pc?)?;
    let object = wasted(&call, found)?;
    Some(Shown {
        deed: Deed::Wasted(caller.task, object),
        event: item.first,
        actor: actor_of(&item.event),
        subject: actor_of(&item.event),
        owner: None,
    })
}

/// What an item that led a walk here did, in place of what is there.
pub(crate) fn show_all<D: Device>(
    shown: &mut Vec<Shown>,
    found: &[Mark],
    item: &Item,
    walk: &Walk<D>,
    caller: Option<Caller>,
) -> Result<(), Refused> {
    show(shown, found, item, walk.observation())?;
    match wasted_by(caller, item, walk.machine(), walk.observation(), found) {
        None => Ok(()),
        Some(one) => {
            grow(shown, 1)?;
            shown.push_reserved(one);
            Ok(())
        }
    }
}

/// How many events are skipped at a time.
const SKIPPED: u64 = 65_536;

// Skips the events before a window.
fn skip<D: Device, M: Meter>(walk: &mut Walk<D>, from: u64, meter: &mut M) -> Result<(), WalkStop>
    requires { place walk.old + from ≤ length walk.old.events }
    ensures skipped { OnOk result (place walk.new ≡ place walk.old + from) }
    ensures follows { OnOk result (Follows walk.old walk.new) }
{
    for _part in 0..from / SKIPPED {
        walk.skip(SKIPPED)?;
        meter.passed(walk.next_event());
    }
    walk.skip(from % SKIPPED)
}

/// The events of a window of a journal that is walked from its first event on, which come to a timeline: one cell behind the other, up
/// to the event that the walk comes to next. Its lanes are the processors of the machine at which the walk began.
///
/// # Errors
///
/// Why the walk stopped.
pub fn gather<D: Device, M: Meter>(
    alloc: Global,
    walk: &mut Walk<D>,
    window: Window,
    meter: &mut M,
) -> Result<Timeline, WalkStop>
    requires { place walk.old ≡ 0 }
    ensures window { IfOk result (λ timeline. IsWindow window (map outline walk.old.events) timeline.cells.items) }
    ensures lanes { IfOk result (λ timeline. timeline.cpu_count ≡ length walk.old.machine.board.parts.processors) }
    ensures follows { OnOk result (Follows walk.old walk.new) }
{
    let cpu_count = walk.machine().cpu_count();
    skip(walk, window.from.min(walk.event_count()), meter)?;
    let mut timeline = Timeline::new(alloc, cpu_count);
    let mut found = Vec::new(alloc);
    let mut shown = Vec::new(alloc);
    let first = walk.next_event();
    for _event in first..window.to {
        let left = window.to.saturating_sub(walk.next_event());
        if left == 0 {
            break;
        }
        let seen = seen_of(walk.observation());
        let caller = walk.next_caller();
        let Some(item) = walk.next_within(left, &mut found)? else {
            break;
        };
        show_all(&mut shown, found.as_slice(), &item, walk, caller)?;
        timeline.add(alloc, &item, &seen, shown.as_slice())?;
        meter.passed(walk.next_event());
    }
    timeline.mutex_count = walk.observation().mutex_count;
    Ok(timeline)
}
