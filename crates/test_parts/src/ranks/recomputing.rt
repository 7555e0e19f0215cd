//! Ranks, and who runs on a processor, computed anew from the tasks and the mutexes.

use evm_debug::Machine;
use evm_devs::Pins;
use evm_model::{Class, Mutex, Protocol, Stage, TASK_LIMIT, Task, TaskState, Wait};

/// The ranks of all tasks, by their numbers.
pub(super) type Ranks = [u16; TASK_LIMIT];

fn class_rank(task: &Task) -> u16 {
    match task.class {
        Class::Unattached => 0,
        Class::Fifo | Class::RoundRobin => 100 + u16::from(task.priority),
        Class::Weak => u16::from(task.priority),
    }
}

// The rank of a mutex that a task owns: that of its ceiling.
fn ceiling_of(mutex: &Mutex, t: u8) -> u16 {
    match mutex.protocol {
        Protocol::Ceiling(priority) if mutex.owner == Some(t) => 100 + u16::from(priority),
        _ => 0,
    }
}

fn own_rank(machine: &Machine<Pins>, t: u8) -> u16 {
    let Some(task) = machine.task(t) else {
        return 0;
    };
    let mut rank = class_rank(&task);
    for m in 0..machine.mutex_count() {
        if let Some(mutex) = machine.mutex(m) {
            rank = rank.max(ceiling_of(&mutex, t));
        }
    }
    rank
}

fn own_ranks(machine: &Machine<Pins>) -> Ranks {
    let mut ranks = [0; TASK_LIMIT];
    for t in 0..machine.task_count() {
        if let Some(rank) = ranks.get_mut(usize::from(t)) {
            *rank = own_rank(machine, t);
        }
    }
    ranks
}

// The task that task u boosts: the owner of the mutex of inheritance that it waits for.
fn boosts(machine: &Machine<Pins>, u: u8) -> Option<u8> {
    let m = match machine.task(u)?.state {
        TaskState::Waits(Wait::Lock(m)) => m,
        TaskState::Waits(Wait::Reacquire { mutex, .. }) => mutex,
        _ => return None,
    };
    let mutex = machine.mutex(m)?;
    match mutex.protocol {
        Protocol::Inheritance => mutex.owner,
        Protocol::Ceiling(_) => None,
    }
}

/// The rank of a task; 0 if there is none.
pub(super) fn rank_in(ranks: &Ranks, t: u8) -> u16 {
    match ranks.as_slice().get(usize::from(t)) {
        None => 0,
        Some(rank) => *rank,
    }
}

// One round: each task takes up the ranks of those that boost it.
fn next_ranks(machine: &Machine<Pins>, own: &Ranks, now: &Ranks) -> Ranks {
    let mut next = *own;
    for u in 0..machine.task_count() {
        if let Some(t) = boosts(machine, u) {
            if let Some(rank) = next.get_mut(usize::from(t)) {
                *rank = (*rank).max(rank_in(now, u));
            }
        }
    }
    next
}

pub(super) fn ranks_of(machine: &Machine<Pins>) -> Ranks {
    let own = own_ranks(machine);
    let mut ranks = own;
    for _ in 0..machine.task_count() {
        let next = next_ranks(machine, &own, &ranks);
        if next == ranks {
            return ranks;
        }
        ranks = next;
    }
    ranks
}

// Whether task t is ready out-of-band on processor c.
fn runs_oob(machine: &Machine<Pins>, c: u8, t: u8) -> bool {
    match machine.task(t) {
        None => false,
        Some(task) => task.state == TaskState::OobReady && task.cpu == c,
    }
}

fn stamp_of(machine: &Machine<Pins>, t: u8) -> u64 {
    match machine.task(t) {
        None => 0,
        Some(task) => task.stamp,
    }
}

// Whether task t goes before task u: by the greater rank, then by the lesser stamp.
fn goes_before(machine: &Machine<Pins>, ranks: &Ranks, t: u8, u: u8) -> bool {
    let (rank, other) = (rank_in(ranks, t), rank_in(ranks, u));
    rank > other || (rank == other && stamp_of(machine, t) < stamp_of(machine, u))
}

pub(super) fn best_of(machine: &Machine<Pins>, ranks: &Ranks, c: u8) -> Option<u8> {
    let mut best = None;
    for t in 0..machine.task_count() {
        if runs_oob(machine, c, t) {
            best = match best {
                Some(u) if !goes_before(machine, ranks, t, u) => Some(u),
                _ => Some(t),
            };
        }
    }
    best
}

// Whether task t is ready in-band on processor c.
fn runs_in_band(machine: &Machine<Pins>, c: u8, t: u8) -> bool {
    match machine.task(t) {
        None => false,
        Some(task) => task.state == TaskState::InReady && task.cpu == c,
    }
}

// The in-band task of a processor of least stamp.
fn next_in_band(machine: &Machine<Pins>, c: u8) -> Option<u8> {
    let mut next = None;
    for t in 0..machine.task_count() {
        if runs_in_band(machine, c, t) {
            next = match next {
                Some(u) if stamp_of(machine, u) < stamp_of(machine, t) => Some(u),
                _ => Some(t),
            };
        }
    }
    next
}

/// Who runs on a processor.
#[derive(Clone, Copy)]
pub(super) struct Place {
    pub(super) current: Option<u8>,
    /// Its in-band task, which runs where no out-of-band task does.
    pub(super) in_band: Option<u8>,
    /// The stamp of that.
    stamp: u64,
}

/// Nobody runs.
pub(super) const IDLE: Place = Place {
    current: None,
    in_band: None,
    stamp: 0,
};

/// Who runs on a processor now.
pub(super) fn place_of(machine: &Machine<Pins>, c: u8) -> Place {
    let Some(cpu) = machine.cpu(c) else {
        return IDLE;
    };
    let stamp = match cpu.in_band_task {
        None => 0,
        Some(t) => stamp_of(machine, t),
    };
    Place {
        current: cpu.current,
        in_band: cpu.in_band_task,
        stamp,
    }
}

// The in-band task that a processor had, unless it has left the stage or got a fresh stamp there.
fn staying(machine: &Machine<Pins>, c: u8, before: &Place) -> Option<u8> {
    let t = before.in_band?;
    if runs_in_band(machine, c, t) && stamp_of(machine, t) == before.stamp {
        Some(t)
    } else {
        None
    }
}

/// Whether the out-of-band stage of a processor is stalled.
pub(super) fn is_stalled(machine: &Machine<Pins>, c: u8) -> bool {
    match machine.log(c, Stage::OutOfBand) {
        None => false,
        Some(log) => log.stalled,
    }
}

// The out-of-band task that runs on a processor that has taken a step: the best, or while the stage is stalled the one that it had.
fn oob_task(machine: &Machine<Pins>, ranks: &Ranks, c: u8, before: &Place) -> Option<u8> {
    if !is_stalled(machine, c) {
        return best_of(machine, ranks, c);
    }
    let t = before.current?;
    if runs_oob(machine, c, t) {
        Some(t)
    } else {
        None
    }
}

/// Who runs on a processor that has taken a step, by who ran on it before.
pub(super) fn settled(machine: &Machine<Pins>, ranks: &Ranks, c: u8, before: &Place) -> Place {
    let stays = staying(machine, c, before);
    if let Some(t) = oob_task(machine, ranks, c, before) {
        return Place {
            current: Some(t),
            in_band: stays,
            stamp: before.stamp,
        };
    }
    let task = match stays {
        None => next_in_band(machine, c),
        Some(t) => Some(t),
    };
    Place {
        current: task,
        in_band: task,
        stamp: before.stamp,
    }
}

/// Whether these tasks run on the processors.
pub(super) fn places_agree(machine: &Machine<Pins>, places: &[Place]) -> bool {
    let mut agree = true;
    let mut c = 0u8;
    for place in places {
        let now = place_of(machine, c);
        agree = agree && now.current == place.current && now.in_band == place.in_band;
        c = c.saturating_add(1);
    }
    agree
}
