//! What is remembered of a machine, to say later what has changed.

use evm_exec::Hart;
use evm_model::{Processor, TaskState};
use evm_room::NoMemory;
use evm_serve::{AnyDevice, Machine};
use std::alloc::Global;

/// A task.
#[derive(Clone, Copy, Debug)]
pub struct TaskShot {
    pub state: TaskState,
    pub hart: Hart,
}

/// The processors, the tasks and the owners of mutexes.
#[derive(Drop)]
pub struct Snapshot {
    pub ticks: u64,
    pub events: u64,
    pub processors: Vec<Processor>,
    pub tasks: Vec<TaskShot>,
    pub owners: Vec<Option<u8>>,
}

/// Appends an item, or answers that memory was refused.
pub fn push_one<T: Drop>(items: &mut Vec<T>, item: T) -> Result<(), NoMemory> {
    match items.push(item) {
        Ok(()) => Ok(()),
        Err(_) => Err(NoMemory),
    }
}

fn processors_of(alloc: Global, machine: &Machine<AnyDevice>) -> Result<Vec<Processor>, NoMemory> {
    let mut processors = Vec::new(alloc);
    for c in 0..machine.cpu_count() {
        if let Some(processor) = machine.cpu(c) {
            push_one(&mut processors, processor)?;
        }
    }
    Ok(processors)
}

fn tasks_of(alloc: Global, machine: &Machine<AnyDevice>) -> Result<Vec<TaskShot>, NoMemory> {
    let mut tasks = Vec::new(alloc);
    for t in 0..machine.task_count() {
        if let Some(task) = machine.task(t)
            && let Some(hart) = machine.hart(t)
        {
            let state = task.state;
            push_one(&mut tasks, TaskShot { state, hart })?;
        }
    }
    Ok(tasks)
}

fn owners_of(alloc: Global, machine: &Machine<AnyDevice>) -> Result<Vec<Option<u8>>, NoMemory> {
    let mut owners = Vec::new(alloc);
    for m in 0..machine.mutex_count() {
        if let Some(mutex) = machine.mutex(m) {
            push_one(&mut owners, mutex.owner)?;
        }
    }
    Ok(owners)
}

impl Snapshot {
    /// What is there now.
    pub fn of(alloc: Global, machine: &Machine<AnyDevice>) -> Result<Snapshot, NoMemory> {
        Ok(Snapshot {
            ticks: machine.ticks(),
            events: machine.event_count(),
            processors: processors_of(alloc, machine)?,
            tasks: tasks_of(alloc, machine)?,
            owners: owners_of(alloc, machine)?,
        })
    }
}
