//! Two workers, each in a thread of its own, beside a thread that gives a command.

ghost use Rattle.std.specs.Prelude.{◌≡◌, All, IfSome};
ghost use Rattle.std.specs.Thread.{IsSync};
ghost use Rattle.evm_shared.specs.Workers.{WorkerValue};

use super::Played;
use super::giving::worker_of;
use super::meeting::Meeting;
use super::seats::three_of;
use evm_bells::{Bells, Taker};
use evm_devs::Pins;
use evm_model::{Answer, Event};
use evm_ram::BASE;
use evm_shared::{Origin, Port, Shared, Worker};
use std::alloc::Global;
use std::sync::Wait;
use std::sync::ledger::Ledger;
use std::thread;
use std::thread::Threads;

/// How many turns each worker makes beside a command.
const TURNS: u32 = 10;

/// A worker of processor 0, and one of another or of the same.
pub(super) fn workers_of<O: Origin, S: Ledger, B: Ledger, T: Ledger>(
    alloc: Global,
    bells: &Bells,
    mut ports: Vec<Port<O, S, B, T>>,
    takers: (Taker, Taker),
    second_cpu: u8,
) -> Option<Vec<Worker<O, S, B, T>>>
    requires { (takers.0.bells ≡ bells.now.id) × (takers.1.bells ≡ bells.now.id) }
    ensures { IfSome result (λ workers. All (λ (w : WorkerValue). w.taker.bells ≡ bells.now.id) workers.items) }
{
    let _cpus = bells.cpus();
    let (first, second) = takers;
    let first = worker_of(alloc, 0, ports.pop()?, first)?;
    let second = worker_of(alloc, second_cpu, ports.pop()?, second)?;
    Vec::from_array(alloc, [first, second]).ok()
}

/// Has each make its turns: whether none was refused.
pub(super) fn run_all<
    O: Origin + Send + Sync,
    S: Ledger + Send + Sync,
    B: Ledger + Send + Sync,
    T: Ledger + Send + Sync,
    R: Threads + Wait + Sync,
>(
    rt: &R,
    shared: &Shared<Pins, O, S, B, T>,
    bells: &Bells,
    mut workers: Vec<Worker<O, S, B, T>>,
    turns: u32,
    gate: &Meeting,
) -> (Vec<Worker<O, S, B, T>>, bool)
    requires { All (λ (w : WorkerValue). w.taker.bells ≡ bells.now.id) workers.items }
    ensures { All (λ (w : WorkerValue). w.taker.bells ≡ bells.now.id) result.0.items }
{
    let ended = shared.run(rt, bells, workers.as_mut_slice(), turns, gate);
    (workers, ended == Ok(()))
}

/// The ports of two workers that are done, and their takers.
pub(super) fn parts_of<O: Origin, S: Ledger, B: Ledger, T: Ledger>(
    alloc: Global,
    bells: &Bells,
    mut workers: Vec<Worker<O, S, B, T>>,
) -> Option<(Vec<Port<O, S, B, T>>, (Taker, Taker))>
    requires { All (λ (w : WorkerValue). w.taker.bells ≡ bells.now.id) workers.items }
    ensures { IfSome result (λ parts. (parts.1.0.bells ≡ bells.now.id) × (parts.1.1.bells ≡ bells.now.id)) }
{
    let _cpus = bells.cpus();
    let second = workers.pop()?;
    let first = workers.pop()?;
    let (second_port, second) = second.into_parts();
    let (first_port, first) = first.into_parts();
    let mut ports = Vec::new(alloc);
    ports.push(first_port).ok()?;
    ports.push(second_port).ok()?;
    Some((ports, (first, second)))
}

// Sets a breakpoint at the loop, or does nothing, once two workers stand before the gate, which opens then: whether all went well.
fn command<O: Origin, S: Ledger, B: Ledger, T: Ledger, R: Wait>(
    rt: &R,
    shared: &Shared<Pins, O, S, B, T>,
    mut port: Port<O, S, B, T>,
    breaks: bool,
    gate: &Meeting,
) -> (Port<O, S, B, T>, bool) {
    gate.wait_for(2);
    if !breaks {
        gate.come();
        return (port, true);
    }
    let answer = shared.command(rt, &mut port, &Event::Break(BASE));
    gate.come();
    (port, answer == Ok(Answer::Done))
}

// The workers make their turns beside the command: all ports, and whether all went well.
fn command_beside<
    O: Origin + Send + Sync,
    S: Ledger + Send + Sync,
    B: Ledger + Send + Sync,
    T: Ledger + Send + Sync,
    R: Threads + Wait + Sync,
>(
    rt: &R,
    alloc: Global,
    shared: &Shared<Pins, O, S, B, T>,
    bells: &Bells,
    workers: Vec<Worker<O, S, B, T>>,
    port: Port<O, S, B, T>,
    breaks: bool,
) -> Option<(Vec<Port<O, S, B, T>>, bool)>
    requires { All (λ (w : WorkerValue). w.taker.bells ≡ bells.now.id) workers.items }
{
    let meeting = Meeting::new(if breaks { 4 } else { 0 }, 3);
    let gate = &meeting;
    let ((port, done), (workers, ended)) = thread::join(
        rt,
        move || -> (Port<O, S, B, T>, bool)
            requires { IsSync R.row }
        { command(rt, shared, port, breaks, gate) },
        move || -> (Vec<Worker<O, S, B, T>>, bool)
            requires { IsSync R.row × All (λ (w : WorkerValue). w.taker.bells ≡ bells.now.id) workers.items }
            ensures { All (λ (w : WorkerValue). w.taker.bells ≡ bells.entry.now.id) result.0.items }
        { run_all(rt, shared, bells, workers, TURNS, gate) },
    );
    let (mut ports, _takers) = parts_of(alloc, bells, workers)?;
    ports.push(port).ok()?;
    Some((ports, done && ended && !meeting.was_missed()))
}

/// Two workers of two processors make ten turns each. They wait for each other before the first; or, if a breakpoint is set, before the
/// fifth, where a command through the third port sets it at the loop.
pub(super) fn play<
    O: Origin + Send + Sync,
    S: Ledger + Send + Sync,
    B: Ledger + Send + Sync,
    T: Ledger + Send + Sync,
    R: Threads + Wait + Sync,
>(
    rt: &R,
    alloc: Global,
    shared: &Shared<Pins, O, S, B, T>,
    mut ports: Vec<Port<O, S, B, T>>,
    breaks: bool,
) -> Option<Played<O, S, B, T>> {
    let port = ports.pop()?;
    let (bells, _ringer, takers) = Bells::new(alloc, 3).ok()?;
    let (first, second, _third) = three_of(&bells, takers)?;
    let workers = workers_of(alloc, &bells, ports, (first, second), 1)?;
    let (ports, right) = command_beside(rt, alloc, shared, &bells, workers, port, breaks)?;
    Some(Played {
        ports,
        right,
        bells: 0,
    })
}
