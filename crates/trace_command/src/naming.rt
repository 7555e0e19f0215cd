//! The names of tracks.

ghost use Rattle.std.specs.Prelude.{◌≡◌, OnOk};
ghost use Rattle.trace_command.specs.Instants.{instants_in};

use crate::noting::note;
use evm_model::TASK_LIMIT;
use evm_room::Refused;
use run_marks::Observation;
use run_walk::RunNames;
use trace_records::{Change, Detail, Track};

/// Of each task, whether a label names its track.
pub(crate) type Labelled = [bool; TASK_LIMIT];

/// Whether a label names the track of a task.
pub(crate) fn is_labelled(labelled: &Labelled, task: u8) -> bool {
    match labelled.get(usize::from(task)) {
        None => false,
        Some(labelled) => *labelled,
    }
}

/// Labels name the tracks of the tasks that have names.
pub(crate) fn labelled_by(names: &RunNames) -> Labelled {
    let mut labelled = [false; TASK_LIMIT];
    for task in 0..TASK_LIMIT as u8 {
        labelled[usize::from(task)] = names.task(task).is_some();
    }
    labelled
}

// The name of a track, and its place.
#[tactic(auto, using(crate::proofs::Told::told))]
fn name(list: &mut Vec<Change>, track: Track, at: u64) -> Result<(), Refused>
    ensures { OnOk result (instants_in list.new.items ≡ instants_in list.old.items) }
{
    note(list, track, at, Detail::ThreadName)?;
    note(list, track, at, Detail::SortIndex)
}

/// The names of the tracks of processors.
pub(crate) fn name_processors(list: &mut Vec<Change>, count: u8) -> Result<(), Refused>
    ensures { OnOk result (instants_in list.new.items ≡ instants_in list.old.items) }
{
    for cpu in 0..count {
        name(list, Track::OutOfBand(cpu), 0)?;
        name(list, Track::InBand(cpu), 0)?;
        name(list, Track::Lines(cpu), 0)?;
    }
    Ok(())
}

// The name of a task's track, if it has no label, and its place.
#[tactic(auto, using(crate::proofs::Told::told))]
fn name_track(list: &mut Vec<Change>, task: u8, at: u64, labelled: bool) -> Result<(), Refused>
    ensures { OnOk result (instants_in list.new.items ≡ instants_in list.old.items) }
{
    if labelled {
        note(list, Track::Task(task), at, Detail::SortIndex)
    } else {
        name(list, Track::Task(task), at)
    }
}

/// The name of a task's track, and its rank.
#[tactic(auto, using(crate::proofs::Told::told))]
pub(crate) fn name_task(
    list: &mut Vec<Change>,
    observation: &Observation,
    task: u8,
    at: u64,
    labelled: bool,
) -> Result<(), Refused>
    ensures { OnOk result (instants_in list.new.items ≡ instants_in list.old.items) }
{
    name_track(list, task, at, labelled)?;
    match observation.ranks.get(usize::from(task)) {
        None => Ok(()),
        Some(rank) => note(list, Track::Task(task), at, Detail::Rank(*rank)),
    }
}

/// Those of the tracks of tasks.
pub(crate) fn name_tasks(
    list: &mut Vec<Change>,
    observation: &Observation,
    labelled: &Labelled,
) -> Result<(), Refused>
    ensures { OnOk result (instants_in list.new.items ≡ instants_in list.old.items) }
{
    for task in 0..observation.task_count {
        let is_named = is_labelled(labelled, task);
        name_task(list, observation, task, 0, is_named)?;
    }
    Ok(())
}
