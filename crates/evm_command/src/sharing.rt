//! Two workers on a machine that they share, and its journal when they are done.

ghost use Rattle.std.specs.Prelude.{◌≡◌, ◌↔◌, None, Ok, All, IfSome, IsTrue, length};
ghost use Rattle.evm_bells.specs.Seats.{TakerValue};
ghost use Rattle.evm_model.specs.Replay.{IsReplayOf};
ghost use Rattle.evm_room.specs.Growth.{RefusedWithin};
ghost use Rattle.evm_shared.specs.EventCounts.{kind_counts};
ghost use Rattle.evm_shared.specs.Workers.{WorkerValue};
ghost use Rattle.evm_command.specs.Workers.{HaveMade, HaveTurned, IsOutcome, KeepSteps, bells_after};

use crate::outcome::Outcome;
use evm_bells::{Bells, Taker};
use evm_dev::Device;
use evm_journal::{Machine, write_journal};
use evm_lines::LINES;
use evm_room::with_room;
use evm_shared::{Blanks, EventCounts, Gate, Origin, Port, Shared, Worker};
use std::alloc::Global;
use std::sync::Wait;
use std::sync::ledger::Ledger;
use std::thread::Threads;

/// How many processors there are, and so how many workers and ports.
const WORKERS: u8 = 2;

/// The line that is rung at each processor before the first turn.
const LINE: u8 = 8;

/// A gate that is always open.
pub(crate) struct OpenGate;

impl Gate for OpenGate {
    fn before(&self, _cpu: u8, _turn: u32) {}

    fn after(&self, _cpu: u8, _steps: u32) {}
}

/// A worker for each of the two processors.
pub(crate) fn workers_of<O: Origin, S: Ledger, B: Ledger, T: Ledger>(
    alloc: Global,
    bells: &Bells,
    mut ports: Vec<Port<O, S, B, T>>,
    mut takers: Vec<Taker>,
) -> Option<Vec<Worker<O, S, B, T>>>
    requires { All (λ (t : TakerValue). t.bells ≡ bells.now.id) takers.items }
    ensures count { IfSome result (λ workers. length workers.items ≡ 2) }
    ensures bells { IfSome result (λ workers. All (λ (w : WorkerValue). w.taker.bells ≡ bells.now.id) workers.items) }
{
    let mut workers = with_room(alloc, WORKERS as usize).ok()?;
    for cpu in 0..WORKERS {
        let (Some(port), Some(taker)) = (ports.pop(), takers.pop()) else {
            return None;
        };
        let Ok(worker) = Worker::new(alloc, cpu, port, taker) else {
            return None;
        };
        workers.push_reserved(worker);
    }
    Some(workers)
}

/// The ports of workers that are done.
pub(crate) fn ports_of<O: Origin, S: Ledger, B: Ledger, T: Ledger>(
    alloc: Global,
    mut workers: Vec<Worker<O, S, B, T>>,
) -> Option<Vec<Port<O, S, B, T>>>
    ensures all { IfSome result (λ ports. length ports.items ≡ length workers.items) }
    ensures steps { IfSome result (λ ports. KeepSteps workers.items ports.items) }
    ensures refused { result ≡ None → RefusedWithin (length workers.items) }
{
    let mut ports = match with_room(alloc, workers.len()) {
        Ok(ports) => ports,
        Err(refused) => {
            refused.within();
            return None;
        }
    };
    while let Some(worker) = workers.pop() {
        let (port, _taker) = worker.into_parts();
        ports.push_reserved(port);
    }
    Some(ports)
}

// Rings the line at both processors, and runs a worker for each: their ports.
fn work<
    D: Device,
    O: Origin + Send + Sync,
    S: Ledger + Send + Sync,
    B: Ledger + Send + Sync,
    T: Ledger + Send + Sync,
    R: Threads + Wait + Sync,
>(
    rt: &R,
    alloc: Global,
    shared: &Shared<D, O, S, B, T>,
    ports: Vec<Port<O, S, B, T>>,
    turns: u32,
) -> Option<Vec<Port<O, S, B, T>>>
    ensures count { IfSome result (λ ports. length ports.items ≡ 2) }
    ensures turns { IfSome result (λ ports. HaveTurned O.machine turns ports.items) }
{
    let Ok((bells, mut ringer, takers)) = Bells::new(alloc, WORKERS) else {
        return None;
    };
    bells.ring(&mut ringer, 0, LINE);
    bells.ring(&mut ringer, 1, LINE);
    let mut workers = workers_of(alloc, &bells, ports, takers)?;
    let _ = shared.run(rt, &bells, workers.as_mut_slice(), turns, &OpenGate);
    ports_of(alloc, workers)
}

// How many Bells the workers deliver in so many turns: the line that was rung at each, in the first.
fn bells_after(turns: u32) -> u64
    ensures { result ≡ bells_after turns }
{
    if turns == 0 { 0 } else { 2 }
}

// Whether the workers have made all their turns.
fn have_made(turns: u32, made: &EventCounts) -> bool
    ensures { IsTrue result ↔ HaveMade turns made.now }
{
    if made.steps < 2 * u64::from(turns) {
        return false;
    }
    made.bells == bells_after(turns)
}

/// Runs two workers on a machine, for a number of turns each: its journal's text, and whether all turns were made, or why not.
pub(crate) fn share<
    D: Device,
    O: Origin + Send + Sync,
    S: Ledger + Send + Sync,
    B: Ledger + Send + Sync,
    T: Ledger + Send + Sync,
    R: Threads + Wait + Sync,
>(rt: &R, alloc: Global, machine: Machine<D>, turns: u32, blanks: Blanks) -> Outcome
    requires start { machine ≡ O.start }
    requires replays { IsReplayOf O.start machine }
    requires base { kind_counts machine.journal ≡ O.base }
    requires machine { machine ≡ O.machine }
    requires history { blanks.history ≡ O.book }
    requires steps { (blanks.steps.name ≡ S.name) × (blanks.steps.parts ≡ S.parts) × (S.parts ≡ 2) }
    requires bells { (blanks.bells.name ≡ B.name) × (blanks.bells.parts ≡ B.parts) × (B.parts ≡ 2) }
    requires others { (blanks.others.name ≡ T.name) × (blanks.others.parts ≡ T.parts) × (T.parts ≡ 2) }
    ensures { IsOutcome turns (Ok O.start) result }
{
    let Ok((shared, ports)) = Shared::<D, O, S, B, T>::new(alloc, machine, WORKERS, 0, blanks)
    else {
        return Outcome::NoMemory;
    };
    let Some(ports) = work(rt, alloc, &shared, ports, turns) else {
        return Outcome::NoMemory;
    };
    let Ok(finished) = shared.finish(ports) else {
        unreachable!()
    };
    let Ok(text) = write_journal(alloc, &finished.machine) else {
        return Outcome::NoMemory;
    };
    if have_made(turns, &finished.totals) {
        Outcome::Journal(text)
    } else if finished.machine.room() < u64::from(LINES) {
        Outcome::Incomplete(text)
    } else {
        Outcome::Lost(text)
    }
}
