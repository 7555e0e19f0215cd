//! The texts of `rank` and `stages`, written by what is computed anew.

use super::recomputing::{Place, Ranks, rank_in};
use evm_debug::{Machine, View, view};
use evm_devs::Pins;
use evm_model::Stage;
use std::alloc::Global;
use std::test::Fail;

// Whether a view has this text.
fn is_shown(
    alloc: Global,
    machine: &Machine<Pins>,
    what: &View,
    wanted: &str,
) -> Result<bool, Fail> {
    match view(alloc, machine, what) {
        Ok(text) => Ok(text.as_str() == wanted),
        Err(_) => Ok(false),
    }
}

/// Whether the view of each task's rank has the rank that was computed anew.
pub(super) fn ranks_are_shown(
    alloc: Global,
    machine: &Machine<Pins>,
    ranks: &Ranks,
) -> Result<bool, Fail> {
    for t in 0..machine.task_count() {
        let rank = rank_in(ranks, t);
        let wanted = format!(in alloc; "rank {rank}\n")?;
        if !is_shown(alloc, machine, &View::Rank(t), wanted.as_str())? {
            return Ok(false);
        }
    }
    Ok(true)
}

// The number of a task, or `none`.
fn name_of(alloc: Global, task: Option<u8>) -> Result<String, Fail> {
    match task {
        None => Ok(String::from_str(alloc, "none")?),
        Some(t) => Ok(format!(in alloc; "{t}")?),
    }
}

// The stall bit and the log of a stage.
fn log_of(alloc: Global, machine: &Machine<Pins>, c: u8, stage: Stage) -> Result<String, Fail> {
    let Some(log) = machine.log(c, stage) else {
        return Err(Fail::from("no such processor"));
    };
    let (stalled, lines) = (u8::from(log.stalled), log.lines.word());
    Ok(format!(in alloc; "{stalled} {lines:016x}")?)
}

// The wire, and the debugger's bits.
fn rest_of(alloc: Global, machine: &Machine<Pins>, c: u8) -> Result<String, Fail> {
    let (Some(cpu), Some(wire)) = (machine.cpu(c), machine.wire(c)) else {
        return Err(Fail::from("no such processor"));
    };
    let (stop, skip, lines) = (u8::from(cpu.stopped), u8::from(cpu.skip), wire.word());
    Ok(format!(in alloc; "wire {lines:016x} stop {stop} skip {skip}")?)
}

// Whether the view of a processor's stages has these tasks.
fn place_is_shown(
    alloc: Global,
    machine: &Machine<Pins>,
    c: u8,
    place: &Place,
) -> Result<bool, Fail> {
    let current = name_of(alloc, place.current)?;
    let task = name_of(alloc, place.in_band)?;
    let oob = log_of(alloc, machine, c, Stage::OutOfBand)?;
    let log = log_of(alloc, machine, c, Stage::InBand)?;
    let rest = rest_of(alloc, machine, c)?;
    let wanted = format!(in alloc;
        "cpu {c} current {current} oob {oob} in {log} task {task} {rest}\n"
    )?;
    is_shown(alloc, machine, &View::Stages(c), wanted.as_str())
}

/// Whether the views of the processors' stages have these tasks.
pub(super) fn places_are_shown(
    alloc: Global,
    machine: &Machine<Pins>,
    places: &[Place],
) -> Result<bool, Fail> {
    let mut c = 0u8;
    for place in places {
        if !place_is_shown(alloc, machine, c, place)? {
            return Ok(false);
        }
        c = c.saturating_add(1);
    }
    Ok(true)
}
