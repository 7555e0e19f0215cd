//! The names on the tracks of tasks: their own, and those of what they wait for and lock.

use evm_model::TASK_LIMIT;
use evm_room::{Refused, grow, push_text};
use run_marks::Mark;
use run_walk::{Kind, RunNames};
use std::alloc::Global;
use trace_records::{Bearer, Label};

fn label(
    alloc: Global,
    list: &mut Vec<Label>,
    task: u8,
    bearer: Bearer,
    text: &str,
) -> Result<(), Refused> {
    let mut name = String::new(alloc);
    push_text(&mut name, text)?;
    grow(list, 1)?;
    list.push_reserved(Label { task, bearer, name });
    Ok(())
}

/// Labels the tracks of the tasks that have names.
pub(crate) fn label_tasks(
    alloc: Global,
    list: &mut Vec<Label>,
    names: &RunNames,
) -> Result<(), Refused> {
    for task in 0..TASK_LIMIT as u8 {
        if let Some(name) = names.task(task) {
            label(alloc, list, task, Bearer::Itself, name)?;
        }
    }
    Ok(())
}

// Labels the wait or the lock of a mark, if what is waited for or locked has a name.
fn label_mark(
    alloc: Global,
    list: &mut Vec<Label>,
    names: &RunNames,
    mark: &Mark,
    at: u64,
) -> Result<(), Refused> {
    let (task, bearer, name) = match *mark {
        Mark::Waits { task, wait } => (task, Bearer::Awaited(at), names.waited(wait)),
        Mark::Owner {
            mutex,
            to: Some(task),
            ..
        } => (task, Bearer::Locked(at), names.of(Kind::Mutex, mutex)),
        _ => return Ok(()),
    };
    match name {
        None => Ok(()),
        Some(name) => label(alloc, list, task, bearer, name),
    }
}

/// Labels the waits and locks that begin at a time.
pub(crate) fn label_marks(
    alloc: Global,
    list: &mut Vec<Label>,
    names: &RunNames,
    marks: &[Mark],
    at: u64,
) -> Result<(), Refused> {
    for mark in marks {
        label_mark(alloc, list, names, mark, at)?;
    }
    Ok(())
}
