//! Workers of a machine that they share with a thread that has a port of its own.

ghost use Rattle.std.specs.Prelude.{◌≡◌, All};
ghost use Rattle.std.specs.Thread.{IsSync};
ghost use Rattle.evm_model.specs.Replay.{IsReplayOf};
ghost use Rattle.evm_shared.specs.EventCounts.{kind_counts};
ghost use Rattle.evm_shared.specs.Workers.{WorkerValue};

use crate::cases::PortCase;
use crate::gates::Gates;
use crate::looks::{Seen, look};
use crate::machines::machine_of;
use crate::seats::{blanks, ports_of, workers_of};
use evm_bells::Bells;
use evm_core::{Burst, Committed, Event, Machine};
use evm_devs::AnyDevice;
use evm_exec::Hart;
use evm_ram::BASE;
use evm_shared::{Blanks, Origin, Port, Shared, Worker};
use std::alloc::Global;
use std::marker::Brand;
use std::sync::Wait;
use std::sync::ledger::Ledger;
use std::thread;
use std::thread::Threads;

/// How many turns each worker makes.
const TURNS: u32 = 10;

/// How many receipts a port has room for.
const RECEIPTS: u32 = 256;

// Sets the breakpoint, if there is to be one, when the workers are held, and comes.
fn act<O: Origin, S: Ledger, B: Ledger, T: Ledger, R: Wait>(
    rt: &R,
    shared: &Shared<AnyDevice, O, S, B, T>,
    port: &mut Port<O, S, B, T>,
    breaks: bool,
    gate: &Gates,
) {
    gate.wait_for_workers();
    if breaks {
        let _ = shared.command(rt, port, &Event::Break(BASE));
    }
    gate.come();
}

// The same with a port of its own.
fn act_by<O: Origin, S: Ledger, B: Ledger, T: Ledger, R: Wait>(
    rt: &R,
    shared: &Shared<AnyDevice, O, S, B, T>,
    mut port: Port<O, S, B, T>,
    breaks: bool,
    gate: &Gates,
) -> Port<O, S, B, T> {
    act(rt, shared, &mut port, breaks, gate);
    port
}

// Has each worker make its turns: the number of the refusal that ended one, 0 for none.
fn run_all<
    O: Origin + Send + Sync,
    S: Ledger + Send + Sync,
    B: Ledger + Send + Sync,
    T: Ledger + Send + Sync,
    R: Threads + Wait + Sync,
>(
    rt: &R,
    shared: &Shared<AnyDevice, O, S, B, T>,
    bells: &Bells,
    workers: &mut [Worker<O, S, B, T>],
    gate: &Gates,
) -> u64
    requires { All (λ (w : WorkerValue). w.taker.bells ≡ bells.now.id) workers.old }
{
    match shared.run(rt, bells, workers, TURNS, gate) {
        Ok(()) => 0,
        Err(why) => u64::from(why.number()),
    }
}

// The same with workers of its own.
fn run_own<
    O: Origin + Send + Sync,
    S: Ledger + Send + Sync,
    B: Ledger + Send + Sync,
    T: Ledger + Send + Sync,
    R: Threads + Wait + Sync,
>(
    rt: &R,
    shared: &Shared<AnyDevice, O, S, B, T>,
    bells: &Bells,
    mut workers: Vec<Worker<O, S, B, T>>,
    gate: &Gates,
) -> (Vec<Worker<O, S, B, T>>, u64)
    requires { All (λ (w : WorkerValue). w.taker.bells ≡ bells.now.id) workers.items }
{
    let number = run_all(rt, shared, bells, workers.as_mut_slice(), gate);
    (workers, number)
}

/// What a play gives back.
#[derive(Drop)]
struct Played<O: Origin, S: Ledger, B: Ledger, T: Ledger> {
    port: Port<O, S, B, T>,
    workers: Vec<Worker<O, S, B, T>>,
    /// Of the refusal that ended a worker, 0 for none.
    number: u64,
}

// The workers make their turns while another thread acts beside them.
fn beside<
    O: Origin + Send + Sync,
    S: Ledger + Send + Sync,
    B: Ledger + Send + Sync,
    T: Ledger + Send + Sync,
    R: Threads + Wait + Sync,
>(
    rt: &R,
    shared: &Shared<AnyDevice, O, S, B, T>,
    bells: &Bells,
    port: Port<O, S, B, T>,
    workers: Vec<Worker<O, S, B, T>>,
    breaks: bool,
    gate: &Gates,
) -> Played<O, S, B, T>
    requires { All (λ (w : WorkerValue). w.taker.bells ≡ bells.now.id) workers.items }
{
    let (port, (workers, number)) = thread::join(
        rt,
        move || -> Port<O, S, B, T>
            requires { IsSync R.row }
        { act_by(rt, shared, port, breaks, gate) },
        move || -> (Vec<Worker<O, S, B, T>>, u64)
            requires { IsSync R.row × All (λ (w : WorkerValue). w.taker.bells ≡ bells.now.id) workers.items }
        { run_own(rt, shared, bells, workers, gate) },
    );
    Played {
        port,
        workers,
        number,
    }
}

// Commits of one Step each of processor 0.
fn commit_many<O: Origin, S: Ledger, B: Ledger, T: Ledger, R: Wait>(
    rt: &R,
    shared: &Shared<AnyDevice, O, S, B, T>,
    port: &mut Port<O, S, B, T>,
    count: u32,
) {
    let burst = Burst::empty(Hart::default());
    let mut done = Committed::none();
    for _ in 0..count {
        let _ = shared.commit_into(rt, port, 0, &burst, &mut done);
    }
}

// The turns of new workers. None if memory is refused.
fn turn<
    O: Origin + Send + Sync,
    S: Ledger + Send + Sync,
    B: Ledger + Send + Sync,
    T: Ledger + Send + Sync,
    R: Threads + Wait + Sync,
>(
    rt: &R,
    alloc: Global,
    shared: &Shared<AnyDevice, O, S, B, T>,
    mut ports: Vec<Port<O, S, B, T>>,
    case: &PortCase,
    gate: &Gates,
) -> Option<Played<O, S, B, T>> {
    let port = ports.pop()?;
    let Ok((bells, _, takers)) = Bells::new(alloc, case.workers) else {
        return None;
    };
    let workers = workers_of(alloc, &bells, ports, takers, case.workers)?;
    Some(beside(rt, shared, &bells, port, workers, case.breaks, gate))
}

// All that is done in a case: the ports, that of worker I at place I, and the number of the refusal that ended one, 0 for none.
fn play<
    O: Origin + Send + Sync,
    S: Ledger + Send + Sync,
    B: Ledger + Send + Sync,
    T: Ledger + Send + Sync,
    R: Threads + Wait + Sync,
>(
    rt: &R,
    alloc: Global,
    shared: &Shared<AnyDevice, O, S, B, T>,
    ports: Vec<Port<O, S, B, T>>,
    case: &PortCase,
    gate: &Gates,
) -> Option<(Vec<Port<O, S, B, T>>, u64)> {
    let Played {
        mut port,
        workers,
        number,
    } = turn(rt, alloc, shared, ports, case, gate)?;
    commit_many(rt, shared, &mut port, case.commits);
    let mut ports = ports_of(alloc, workers)?;
    ports.reverse();
    match ports.push(port) {
        Ok(()) => Some((ports, number)),
        Err(_) => None,
    }
}

// A machine is shared by so many ports until all is done.
fn share<
    O: Origin + Send + Sync,
    S: Ledger + Send + Sync,
    B: Ledger + Send + Sync,
    T: Ledger + Send + Sync,
    R: Threads + Wait + Sync,
>(
    rt: &R,
    alloc: Global,
    machine: Machine<AnyDevice>,
    blanks: Blanks,
    ports: u8,
    case: &PortCase,
) -> Option<(Seen, u64)>
    requires replays { IsReplayOf O.start machine }
    requires base { kind_counts machine.journal ≡ O.base }
    requires machine { machine ≡ O.machine }
    requires history { blanks.history ≡ O.book }
    requires steps { (blanks.steps.name ≡ S.name) × (blanks.steps.parts ≡ S.parts) × (S.parts ≡ ports) }
    requires bells { (blanks.bells.name ≡ B.name) × (blanks.bells.parts ≡ B.parts) × (B.parts ≡ ports) }
    requires others { (blanks.others.name ≡ T.name) × (blanks.others.parts ≡ T.parts) × (T.parts ≡ ports) }
{
    let gate = Gates::new(case.held, u64::from(ports));
    let (shared, ports) = Shared::<AnyDevice, O, S, B, T>::new(
        alloc, machine, ports, RECEIPTS, blanks,
    ).ok()?;
    let (ports, number) = play(rt, alloc, &shared, ports, case, &gate)?;
    let finished = shared.finish(ports).ok()?;
    let seen = look(alloc, case.plan, case.workers, &gate, finished)?;
    Some((seen, number))
}

/// Runs a case: what is seen of it, and the number of the refusal that ended a worker, 0 for none.
pub(crate) fn run_ports<R: Threads + Wait + Sync>(
    rt: &R,
    alloc: Global,
    case: &PortCase,
) -> Option<(Seen, u64)> {
    let ports = case.workers.saturating_add(1);
    let machine = machine_of(alloc, case.plan)?;
    share::<Brand, Brand, Brand, Brand, R>(rt, alloc, machine, blanks(ports), ports, case)
}
