//! What was given comes back where memory is refused, and is used again. `rt try --test --fail-alloc N` refuses the Nth growth: the
//! test of this ends well for each N, since the next try finds memory.

ghost use Rattle.std.specs.Prelude.{◌≡◌, IfErr, IfSome};
ghost use Rattle.evm_model.specs.Replay.{IsReplayOf};
ghost use Rattle.evm_shared.specs.EventCounts.{kind_counts};

use super::blanks;
use super::machines::looping;
use super::meeting::Meeting;
use super::seats::{closed_of, three_of};
use evm_bells::{Bells, Taker};
use evm_core::Machine;
use evm_devs::Pins;
use evm_shared::{Blanks, Origin, Port, Refused, Shared, Worker};
use std::alloc::Global;
use std::marker::Brand;
use std::slice;
use std::sync::Wait;
use std::sync::ledger::Ledger;
use std::thread::Threads;

/// A worker; a port and a taker that come back are used again.
pub(super) fn worker_of<O: Origin, S: Ledger, B: Ledger, T: Ledger>(
    alloc: Global,
    cpu: u8,
    port: Port<O, S, B, T>,
    taker: Taker,
) -> Option<Worker<O, S, B, T>>
    ensures { IfSome result (λ w. (w.port ≡ port) × (w.taker ≡ taker)) }
{
    match Worker::new(alloc, cpu, port, taker) {
        Ok(worker) => Some(worker),
        Err((port, taker)) => Worker::new(alloc, cpu, port, taker).ok(),
    }
}

// A worker makes a turn: its port and its taker, and whether the turn was made.
fn turned<
    O: Origin + Send + Sync,
    S: Ledger + Send + Sync,
    B: Ledger + Send + Sync,
    T: Ledger + Send + Sync,
    R: Threads + Wait + Sync,
>(
    rt: &R,
    shared: &Shared<Pins, O, S, B, T>,
    bells: &Bells,
    mut worker: Worker<O, S, B, T>,
) -> (Port<O, S, B, T>, Taker, bool)
    requires { worker.taker.bells ≡ bells.now.id }
    ensures { result.1.bells ≡ bells.now.id }
{
    let gate = Meeting::new(0, 1);
    let ended = shared.run(rt, bells, slice::from_mut(&mut worker), 1, &gate);
    let (port, taker) = worker.into_parts();
    (port, taker, ended == Ok(()))
}

// A worker makes a turn, and the bells end: all ports, and whether the turn was made.
fn one_turn<
    O: Origin + Send + Sync,
    S: Ledger + Send + Sync,
    B: Ledger + Send + Sync,
    T: Ledger + Send + Sync,
    R: Threads + Wait + Sync,
>(
    rt: &R,
    alloc: Global,
    shared: &Shared<Pins, O, S, B, T>,
    mut ports: Vec<Port<O, S, B, T>>,
) -> Option<(Vec<Port<O, S, B, T>>, bool)> {
    let (bells, ringer, takers) = Bells::new(alloc, 3).ok()?;
    let (first, second, third) = three_of(&bells, takers)?;
    let worker = worker_of(alloc, 0, ports.pop()?, first)?;
    let (port, first, made) = turned(rt, shared, &bells, worker);
    ports.push(port).ok()?;
    closed_of(alloc, bells, ringer, (first, second, third))?;
    Some((ports, made))
}

// A machine under the lock for a turn: whether all went well, or the machine if it is not shared.
fn shared_once<
    O: Origin + Send + Sync,
    S: Ledger + Send + Sync,
    B: Ledger + Send + Sync,
    T: Ledger + Send + Sync,
    R: Threads + Wait + Sync,
>(
    rt: &R,
    alloc: Global,
    machine: Machine<Pins>,
    blanks: Blanks,
) -> Result<Option<bool>, Machine<Pins>>
    requires replays { IsReplayOf O.start machine }
    requires base { kind_counts machine.journal ≡ O.base }
    requires machine { machine ≡ O.machine }
    requires history { blanks.history ≡ O.book }
    requires steps { (blanks.steps.name ≡ S.name) × (blanks.steps.parts ≡ S.parts) × (S.parts ≡ 3) }
    requires bells { (blanks.bells.name ≡ B.name) × (blanks.bells.parts ≡ B.parts) × (B.parts ≡ 3) }
    requires others { (blanks.others.name ≡ T.name) × (blanks.others.parts ≡ T.parts) × (T.parts ≡ 3) }
    ensures { IfErr result (λ back. back ≡ machine) }
{
    let (shared, ports) = match Shared::<Pins, O, S, B, T>::new(alloc, machine, 3, 8, blanks) {
        Err(Refused { machine, .. }) => return Err(machine),
        Ok(made) => made,
    };
    let Some((ports, made)) = one_turn(rt, alloc, &shared, ports) else {
        return Ok(None);
    };
    match shared.finish(ports) {
        Ok(done) => Ok(Some(made && done.totals.steps == 1)),
        Err(_) => Ok(Some(false)),
    }
}

// The same with ledgers of its own.
fn tried<R: Threads + Wait + Sync>(
    rt: &R,
    alloc: Global,
    machine: Machine<Pins>,
) -> Result<Option<bool>, Machine<Pins>>
    requires { IsReplayOf machine machine }
    ensures { IfErr result (λ back. back ≡ machine) }
{
    shared_once::<Brand, Brand, Brand, Brand, R>(rt, alloc, machine, blanks())
}

/// A machine is shared, at the second try if it came back, and a worker makes a turn. None if memory is refused for what is given.
pub(super) fn gives_back<R: Threads + Wait + Sync>(rt: &R, alloc: Global) -> Option<bool> {
    let machine = looping(alloc, 1, 64)?;
    let back = match tried(rt, alloc, machine) {
        Ok(right) => return right,
        Err(back) => back,
    };
    match tried(rt, alloc, back) {
        Ok(right) => right,
        Err(_) => Some(false),
    }
}
