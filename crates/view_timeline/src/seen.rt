//! What is seen of a processor before a cell, and how many of its events are of a lane.

ghost use Rattle.std.specs.Prelude.{◌≡◌, get_or};

use crate::cells::{Cell, Held};
use evm_model::Stage;
use run_marks::Lane;
use run_walk::Event;

fn lane_at(cell: &Cell, cpu: u8) -> Option<Lane> {
    match cell.seen.lanes.get(usize::from(cpu)) {
        Some(lane) => *lane,
        None => None,
    }
}

/// Whether two stages are one.
pub fn same_stage(stage: Stage, other: Stage) -> bool {
    match (stage, other) {
        (Stage::OutOfBand, Stage::OutOfBand) | (Stage::InBand, Stage::InBand) => true,
        _ => false,
    }
}

/// The task that a processor runs on a stage, before the events of a cell.
pub fn task_on(cell: &Cell, cpu: u8, stage: Stage) -> Option<u8> {
    let running = lane_at(cell, cpu)?.running?;
    if same_stage(stage, running.stage) {
        Some(running.task)
    } else {
        None
    }
}

/// What is seen of a mutex before the events of a cell: who owns it, and whether a task waits for it.
pub fn held_in(cell: &Cell, mutex: u8) -> Held {
    match cell.seen.mutexes.get(usize::from(mutex)) {
        Some(held) => *held,
        None => Held {
            owner: None,
            waited: false,
        },
    }
}

/// Whether a stage of a processor is stalled, before the events of a cell.
pub fn is_stalled(cell: &Cell, cpu: u8, stage: Stage) -> bool {
    match (lane_at(cell, cpu), stage) {
        (None, _) => false,
        (Some(lane), Stage::OutOfBand) => lane.oob_stalled,
        (Some(lane), Stage::InBand) => lane.in_band_stalled,
    }
}

/// How many events of a cell are of a lane: that of a processor by its number, or that of the machine behind those.
pub fn share(cell: &Cell, lane: usize) -> u64
    ensures { result ≡ get_or cell.now.shares lane 0 }
{
    match cell.shares.get(lane) {
        Some(share) => *share,
        None => 0,
    }
}

/// The letter of an event.
pub fn letter(event: &Event<u8>) -> &'static str {
    match event {
        Event::Step(_) => "s",
        Event::Tick => "T",
        Event::Raise(_, _) => "R",
        Event::Bell(_, _) => "B",
        Event::Stop(_) => "H",
        Event::Go(_) => "G",
        Event::StepI(_) => "I",
        Event::SetReg(_, _, _) => "X",
        Event::SetPc(_, _) => "C",
        Event::Poke(_, _) => "P",
        Event::Break(_) => "K",
        Event::Unbreak(_) => "U",
    }
}
