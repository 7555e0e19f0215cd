//! What is seen of a machine between two events.

ghost use Rattle.std.specs.Prelude.{◌≡◌, ◌<◌, ◌≤◌, ◌+◌, ◌∷◌, ◌++◌, [], IfOk, OnOk, length, option_to_list, slice_get, vec_capacity, vec_len};
ghost use Rattle.evm_model.specs.Stages.{is_stalled};
ghost use Rattle.run_marks.specs.Lists.{below};
ghost use Rattle.run_marks.specs.Observations.{IsObservationOf, lane_at, last_notice, owner_at, rank_at, ready_stage, running_of};

use evm_dev::Device;
use evm_journal::Machine;
use evm_model::{Notice, Stage, Task, TaskState};
use evm_room::{Refused, grow};
use std::alloc::Global;

/// The task that a processor runs, and the stage on which.
#[derive(Clone, Copy)]
pub struct Running {
    pub task: u8,
    pub stage: Stage,
}

/// What is seen of a processor.
#[derive(Clone, Copy)]
pub struct Lane {
    pub running: Option<Running>,
    /// The debugger has stopped it.
    pub stopped: bool,
    /// Its out-of-band stage is stalled.
    pub oob_stalled: bool,
    /// Its in-band stage is stalled.
    pub in_band_stalled: bool,
}

/// What is seen of a machine.
#[derive(Drop)]
pub struct Observation {
    /// How many processors there are.
    pub cpu_count: u8,
    /// How many tasks there are.
    pub task_count: u8,
    /// How many mutexes there are.
    pub mutex_count: u8,
    /// Processor c is the c-th.
    pub lanes: Vec<Lane>,
    /// Task t is the t-th.
    pub tasks: Vec<Task>,
    /// The rank of task t is the t-th.
    pub ranks: Vec<u16>,
    /// The owner of mutex m is the m-th.
    pub owners: Vec<Option<u8>>,
    pub ticks: u64,
    /// How many notices the health monitor made.
    pub notices: u64,
    /// The last of them.
    pub last_notice: Option<Notice>,
}

// One element more.
#[inline(never)]
pub(crate) fn put<T: Drop>(items: &mut Vec<T>, item: T) -> Result<(), Refused>
    ensures { OnOk result (items.new.items ≡ items.old.items ++ item ∷ []) }
{
    grow(items, 1)?;
    items.push_reserved(item);
    Ok(())
}

// One element more, if there is one.
#[inline]
fn put_reserved<T: Drop>(items: &mut Vec<T>, item: Option<T>)
    requires { vec_len items.old < vec_capacity items.old }
    ensures items { items.new.items ≡ items.old.items ++ option_to_list item }
    ensures len { vec_len items.new ≤ vec_len items.old + 1 }
    ensures capacity { vec_capacity items.new ≡ vec_capacity items.old }
{
    match item {
        None => {}
        Some(item) => items.push_reserved(item),
    }
}

// The stage on which a task is that is ready.
fn ready_stage(task: Option<Task>) -> Stage
    ensures { result ≡ ready_stage task }
{
    match task {
        None => Stage::InBand,
        Some(task) => match task.state {
            TaskState::OobReady => Stage::OutOfBand,
            _ => Stage::InBand,
        },
    }
}

fn running_of<D: Device>(current: Option<u8>, machine: &Machine<D>) -> Option<Running>
    ensures { result ≡ running_of current machine.now.board.parts }
{
    match current {
        None => None,
        Some(task) => Some(Running {
            task,
            stage: ready_stage(machine.task(task)),
        }),
    }
}

fn is_stalled<D: Device>(stage: Stage, c: u8, machine: &Machine<D>) -> bool
    ensures { result ≡ is_stalled stage c machine.now.board.parts }
{
    match machine.log(c, stage) {
        None => false,
        Some(log) => log.stalled,
    }
}

fn lane_at<D: Device>(machine: &Machine<D>, c: u8) -> Option<Lane>
    ensures { result ≡ lane_at machine.now.board.parts c }
{
    match machine.cpu(c) {
        None => None,
        Some(processor) => Some(Lane {
            running: running_of(processor.current, machine),
            stopped: processor.stopped,
            oob_stalled: is_stalled(Stage::OutOfBand, c, machine),
            in_band_stalled: is_stalled(Stage::InBand, c, machine),
        }),
    }
}

fn owner_at<D: Device>(machine: &Machine<D>, m: u8) -> Option<Option<u8>>
    ensures { result ≡ owner_at machine.now.board.parts m }
{
    match machine.mutex(m) {
        None => None,
        Some(mutex) => Some(mutex.owner),
    }
}

fn rank_at<D: Device>(machine: &Machine<D>, t: u8) -> Option<u16>
    ensures { result ≡ rank_at machine.now.board.parts t }
{
    match machine.task(t) {
        None => None,
        Some(_) => Some(machine.rank(t)),
    }
}

#[tactic(auto, using(crate::proofs::Lemmas::numbered))]
fn see_lanes<D: Device>(lanes: &mut Vec<Lane>, machine: &Machine<D>) -> Result<(), Refused>
    ensures { OnOk result (lanes.new.items ≡ below (λ c. option_to_list (lane_at machine.now.board.parts c)) (length machine.now.board.parts.processors)) }
{
    let count = machine.cpu_count();
    lanes.clear();
    grow(lanes, usize::from(count))?;
    for c in 0..count {
        put_reserved(lanes, lane_at(machine, c));
    }
    Ok(())
}

#[tactic(auto, using(crate::proofs::Lemmas::numbered))]
fn see_tasks<D: Device>(tasks: &mut Vec<Task>, machine: &Machine<D>) -> Result<(), Refused>
    ensures { OnOk result (tasks.new.items ≡ below (λ t. option_to_list (slice_get machine.now.board.parts.tasks t)) (length machine.now.board.parts.tasks)) }
{
    let count = machine.task_count();
    tasks.clear();
    grow(tasks, usize::from(count))?;
    for t in 0..count {
        put_reserved(tasks, machine.task(t));
    }
    Ok(())
}

#[tactic(auto, using(crate::proofs::Lemmas::numbered))]
fn see_ranks<D: Device>(ranks: &mut Vec<u16>, machine: &Machine<D>) -> Result<(), Refused>
    ensures { OnOk result (ranks.new.items ≡ below (λ t. option_to_list (rank_at machine.now.board.parts t)) (length machine.now.board.parts.tasks)) }
{
    let count = machine.task_count();
    ranks.clear();
    grow(ranks, usize::from(count))?;
    for t in 0..count {
        put_reserved(ranks, rank_at(machine, t));
    }
    Ok(())
}

#[tactic(auto, using(crate::proofs::Lemmas::numbered))]
fn see_owners<D: Device>(owners: &mut Vec<Option<u8>>, machine: &Machine<D>) -> Result<(), Refused>
    ensures { OnOk result (owners.new.items ≡ below (λ m. option_to_list (owner_at machine.now.board.parts m)) (length machine.now.board.parts.mutexes)) }
{
    let count = machine.mutex_count();
    owners.clear();
    grow(owners, usize::from(count))?;
    for m in 0..count {
        put_reserved(owners, owner_at(machine, m));
    }
    Ok(())
}

fn last_notice<D: Device>(machine: &Machine<D>) -> Option<Notice>
    ensures { result ≡ last_notice machine.now.board.parts.notices.kept }
{
    let count = machine.notice_count();
    if count == 0 {
        None
    } else {
        machine.notice(count - 1)
    }
}

impl Observation {
    /// Nothing is seen yet. Takes no memory.
    pub fn new(alloc: Global) -> Observation {
        Observation {
            cpu_count: 0,
            task_count: 0,
            mutex_count: 0,
            lanes: Vec::new(alloc),
            tasks: Vec::new(alloc),
            ranks: Vec::new(alloc),
            owners: Vec::new(alloc),
            ticks: 0,
            notices: 0,
            last_notice: None,
        }
    }

    /// Looks at a machine; what was seen before is forgotten, and its room is used again.
    pub fn see<D: Device>(&mut self, machine: &Machine<D>) -> Result<(), Refused>
        ensures { OnOk result (IsObservationOf self.new machine.now.board.parts) }
    {
        see_lanes(&mut self.lanes, machine)?;
        see_tasks(&mut self.tasks, machine)?;
        see_ranks(&mut self.ranks, machine)?;
        see_owners(&mut self.owners, machine)?;
        self.cpu_count = machine.cpu_count();
        self.task_count = machine.task_count();
        self.mutex_count = machine.mutex_count();
        self.ticks = machine.ticks();
        self.notices = machine.notice_total();
        self.last_notice = last_notice(machine);
        Ok(())
    }

    /// What is seen of a machine.
    pub fn of<D: Device>(alloc: Global, machine: &Machine<D>) -> Result<Observation, Refused>
        ensures { IfOk result (λ observation. IsObservationOf observation machine.now.board.parts) }
    {
        let mut observation = Observation::new(alloc);
        observation.see(machine)?;
        Ok(observation)
    }
}
