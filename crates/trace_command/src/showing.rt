//! What the tracks show.

ghost use Rattle.std.specs.Prelude.{◌≡◌, OnOk};
ghost use Rattle.trace_command.specs.Instants.{instants_in};

use crate::noting::shows;
use crate::states::{stage_states, task_state};
use evm_room::Refused;
use run_marks::Observation;
use trace_records::{Change, Track};

#[tactic(auto, using(crate::proofs::Told::told))]
fn show_processor(
    list: &mut Vec<Change>,
    observation: &Observation,
    cpu: u8,
    at: u64,
) -> Result<(), Refused>
    ensures { OnOk result (instants_in list.new.items ≡ instants_in list.old.items) }
{
    match observation.lanes.get(usize::from(cpu)) {
        None => Ok(()),
        Some(lane) => {
            let (out_of_band, in_band) = stage_states(lane);
            shows(list, Track::OutOfBand(cpu), out_of_band, at)?;
            shows(list, Track::InBand(cpu), in_band, at)
        }
    }
}

#[tactic(auto, using(crate::proofs::Told::told))]
fn show_task(
    list: &mut Vec<Change>,
    observation: &Observation,
    task: u8,
    at: u64,
) -> Result<(), Refused>
    ensures { OnOk result (instants_in list.new.items ≡ instants_in list.old.items) }
{
    match observation.tasks.get(usize::from(task)) {
        None => Ok(()),
        Some(seen) => {
            let state = task_state(observation, task, seen);
            shows(list, Track::Task(task), Some(state), at)
        }
    }
}

fn show_processors(
    list: &mut Vec<Change>,
    observation: &Observation,
    at: u64,
) -> Result<(), Refused>
    ensures { OnOk result (instants_in list.new.items ≡ instants_in list.old.items) }
{
    for cpu in 0..observation.cpu_count {
        show_processor(list, observation, cpu, at)?;
    }
    Ok(())
}

fn show_tasks(list: &mut Vec<Change>, observation: &Observation, at: u64) -> Result<(), Refused>
    ensures { OnOk result (instants_in list.new.items ≡ instants_in list.old.items) }
{
    for task in 0..observation.task_count {
        show_task(list, observation, task, at)?;
    }
    Ok(())
}

/// What the tracks show from a tick on.
pub(crate) fn show(
    list: &mut Vec<Change>,
    observation: &Observation,
    at: u64,
) -> Result<(), Refused>
    ensures { OnOk result (instants_in list.new.items ≡ instants_in list.old.items) }
{
    show_processors(list, observation, at)?;
    show_tasks(list, observation, at)
}

/// The tracks of processors show nothing more.
pub(crate) fn end_processors(list: &mut Vec<Change>, count: u8, at: u64) -> Result<(), Refused>
    ensures { OnOk result (instants_in list.new.items ≡ instants_in list.old.items) }
{
    for cpu in 0..count {
        shows(list, Track::OutOfBand(cpu), None, at)?;
        shows(list, Track::InBand(cpu), None, at)?;
    }
    Ok(())
}

/// The tracks of tasks show nothing more.
pub(crate) fn end_tasks(list: &mut Vec<Change>, count: u8, at: u64) -> Result<(), Refused>
    ensures { OnOk result (instants_in list.new.items ≡ instants_in list.old.items) }
{
    for task in 0..count {
        shows(list, Track::Task(task), None, at)?;
    }
    Ok(())
}
