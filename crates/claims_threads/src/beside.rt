//! A whole sharing: workers make turns while a host thread rings.
ghost use Rattle.std.specs.Prelude.{◌≡◌, ◌+◌, ◌*◌, ◌<◌, ◌≤◌, ℕ, All, IfSome, count_by, length, slice_index};
ghost use Rattle.std.specs.Int.{bit_at};
ghost use Rattle.evm_bells.specs.Batches.{counter};
ghost use Rattle.evm_bells.specs.Seats.{IsNewTaker, TakerValue};
ghost use Rattle.evm_bells.specs.declared.counts.TheConstants.{PROCESSOR_LIMIT};
ghost use Rattle.evm_lines.specs.declared.TheConstants.{LINES};
ghost use Rattle.evm_model.specs.Replay.{IsReplayOf, replay};
ghost use Rattle.evm_shared.specs.EventCounts.{event_total, events_since, kind_counts};
ghost use Rattle.evm_shared.specs.Ports.{PortValue, fresh_port};
ghost use Rattle.evm_shared.specs.Workers.{WorkerValue};
ghost use Rattle.claims_threads.specs.Lines.{rings};
ghost use Rattle.claims_threads.specs.Said.{IsSaid, IsSaidWithRoom, SayTaken};

use crate::taking::a_run_says_what_it_takes;
use crate::whole::no_interrupt_is_lost_or_played_twice;
use evm_bells::{Bells, Closed, Ringer, Taker};
use evm_core::Machine;
use evm_dev::Device;
use evm_room::with_room;
use evm_shared::{Blanks, Finished, Gate, Origin, Port, Shared, Worker};
use std::alloc::Global;
use std::sync::Wait;
use std::sync::ledger::Ledger;
use std::thread;
use std::thread::Threads;

/// What a host thread rings.
pub trait Ringing: Sync {
    /// Rings some lines, whichever and however often, and gives the ringer back.
    fn ring(&self, bells: &Bells, ringer: Ringer) -> Ringer
        requires { ringer.bells ≡ bells.now.id }
        ensures { result.bells ≡ bells.now.id };
}

// A worker for each processor of the bells, with one of the ports and one of the takers.
fn workers_of<O: Origin, S: Ledger, B: Ledger, T: Ledger>(
    alloc: Global,
    bells: &Bells,
    mut ports: Vec<Port<O, S, B, T>>,
    mut takers: Vec<Taker>,
    turns: u32,
) -> Option<Vec<Worker<O, S, B, T>>>
    requires ports { All (λ (p : PortValue). (since : ℕ) × (p ≡ fresh_port (2 * turns) since) × (event_total O.base ≤ since)) ports.items }
    requires takers { All (IsNewTaker bells.now.id) takers.items }
    ensures { IfSome result (λ workers. All (IsSaidWithRoom bells.now (event_total O.base) turns) workers.items) }
{
    let mut workers = with_room(alloc, bells.cpus() as usize).ok()?;
    for cpu in 0..bells.cpus() {
        let (Some(port), Some(taker)) = (ports.pop(), takers.pop()) else {
            return None;
        };
        let Ok(worker) = Worker::new(alloc, cpu, port, taker) else {
            return None;
        };
        workers.push_reserved(worker);
    }
    Some(workers)
}

// The ports and the takers of workers that are done, each at the place of the other.
fn parts_of<O: Origin, S: Ledger, B: Ledger, T: Ledger>(
    alloc: Global,
    bells: &Bells,
    mut workers: Vec<Worker<O, S, B, T>>,
) -> Option<(Vec<Port<O, S, B, T>>, Vec<Taker>)>
    requires { All (IsSaid bells.now (event_total O.base)) workers.items }
    ensures pairs { IfSome result (λ parts. SayTaken parts.0.items parts.1.items) }
    ensures since { IfSome result (λ parts. All (λ (p : PortValue). event_total O.base ≤ p.since) parts.0.items) }
    ensures takers { IfSome result (λ parts. All (λ (t : TakerValue). t.bells ≡ bells.now.id) parts.1.items) }
{
    let mut ports = with_room(alloc, workers.len()).ok()?;
    let mut takers = with_room(alloc, workers.len()).ok()?;
    while let Some(worker) = workers.pop() {
        let (port, taker) = worker.into_parts();
        ports.push_reserved(port);
        takers.push_reserved(taker);
    }
    Some((ports, takers))
}

// All turns of workers: what they say then. None if a turn was refused.
fn run_all<
    D: Device,
    O: Origin + Send + Sync,
    S: Ledger + Send + Sync,
    B: Ledger + Send + Sync,
    T: Ledger + Send + Sync,
    R: Threads + Wait + Sync,
    G: Gate,
>(
    rt: &R,
    shared: &Shared<D, O, S, B, T>,
    bells: &Bells,
    mut workers: Vec<Worker<O, S, B, T>>,
    turns: u32,
    gate: &G,
) -> Option<Vec<Worker<O, S, B, T>>>
    requires { All (IsSaidWithRoom bells.now (event_total O.base) turns) workers.items }
    ensures { IfSome result (λ after. All (IsSaid bells.now (event_total O.base)) after.items) }
{
    match a_run_says_what_it_takes(rt, shared, bells, workers.as_mut_slice(), turns, gate) {
        Ok(()) => Some(workers),
        Err(_) => None,
    }
}

// A thread rings while workers make their turns.
fn ring_beside<
    D: Device,
    O: Origin + Send + Sync,
    S: Ledger + Send + Sync,
    B: Ledger + Send + Sync,
    T: Ledger + Send + Sync,
    R: Threads + Wait + Sync,
    G: Gate,
    L: Ringing,
>(
    rt: &R,
    shared: &Shared<D, O, S, B, T>,
    bells: &Bells,
    ringer: Ringer,
    ringing: &L,
    workers: Vec<Worker<O, S, B, T>>,
    turns: u32,
    gate: &G,
) -> (Ringer, Option<Vec<Worker<O, S, B, T>>>)
    requires ringer { ringer.bells ≡ bells.now.id }
    requires workers { All (IsSaidWithRoom bells.now (event_total O.base) turns) workers.items }
    ensures ringer { result.0.bells ≡ bells.now.id }
    ensures workers { IfSome result.1 (λ after. All (IsSaid bells.now (event_total O.base)) after.items) }
{
    thread::join(
        rt,
        move || -> Ringer
            requires { ringer.bells ≡ bells.now.id }
            ensures { result.bells ≡ bells.entry.now.id }
        { ringing.ring(bells, ringer) },
        move || -> Option<Vec<Worker<O, S, B, T>>>
            requires { All (IsSaidWithRoom bells.now (event_total O.base) turns) workers.items }
            ensures { IfSome result (λ after. All (IsSaid bells.entry.now (event_total O.base)) after.items) }
        { run_all(rt, shared, bells, workers, turns, gate) },
    )
}

/// A machine comes under a lock, with a worker for each of some processors. The workers make their turns, each in a thread
/// of its own, while another thread rings. Then all ends.
///
/// If no turn was refused, the machine is its journal's replay, and each ring of a line of a processor that was fresh, as the
/// bells have counted, is a Bell of that line in the journal, behind the events that it had before, or is left; the journal has
/// no other there. No premise speaks of what happened before or in between.
pub fn rings_beside_workers_become_bells<
    D: Device,
    O: Origin + Send + Sync,
    S: Ledger + Send + Sync,
    B: Ledger + Send + Sync,
    T: Ledger + Send + Sync,
    R: Threads + Wait + Sync,
    G: Gate,
    L: Ringing,
>(
    rt: &R,
    alloc: Global,
    machine: Machine<D>,
    blanks: Blanks,
    cpus: u8,
    ringing: &L,
    turns: u32,
    gate: &G,
) -> Option<(Finished<D, O, S, B, T>, Closed)>
    requires replays { IsReplayOf O.start machine }
    requires base { kind_counts machine.journal ≡ O.base }
    requires machine { machine ≡ O.machine }
    requires history { blanks.history ≡ O.book }
    requires steps { (blanks.steps.name ≡ S.name) × (blanks.steps.parts ≡ S.parts) × (S.parts ≡ cpus) }
    requires bells { (blanks.bells.name ≡ B.name) × (blanks.bells.parts ≡ B.parts) × (B.parts ≡ cpus) }
    requires others { (blanks.others.name ≡ T.name) × (blanks.others.parts ≡ T.parts) × (T.parts ≡ cpus) }
    ensures replayed { IfSome result (λ ended. replay O.start ended.0.machine.journal ≡ ended.0.machine) }
    ensures rung { IfSome result (λ ended. (c l : ℕ) → c < PROCESSOR_LIMIT → l < LINES →
        counter ended.1.fresh.rows c l ≡ count_by (rings c l) (events_since O.base ended.0.machine.journal) + bit_at (slice_index ended.1.left c) l) }
    // where it had no Bell before, these are all
    ensures all { IfSome result (λ ended. (c l : ℕ) → c < PROCESSOR_LIMIT → l < LINES → O.base.bells ≡ 0 →
        counter ended.1.fresh.rows c l ≡ count_by (rings c l) ended.0.machine.journal + bit_at (slice_index ended.1.left c) l) }
{
    let receipts = turns.checked_mul(2)?;
    let Ok((shared, ports)) = Shared::<D, O, S, B, T>::new(alloc, machine, cpus, receipts, blanks)
    else {
        return None;
    };
    let Ok((bells, ringer, takers)) = Bells::new(alloc, cpus) else {
        return None;
    };
    let workers = workers_of::<O, S, B, T>(alloc, &bells, ports, takers, turns)?;
    let (ringer, workers) = ring_beside(rt, &shared, &bells, ringer, ringing, workers, turns, gate);
    let Some(workers) = workers else {
        return None;
    };
    let Some((ports, takers)) = parts_of::<O, S, B, T>(alloc, &bells, workers) else {
        return None;
    };
    let Some((done, closed)) = no_interrupt_is_lost_or_played_twice(
        alloc, shared, ports, bells, ringer, takers,
    ) else {
        return None;
    };
    Some((done, closed))
}
