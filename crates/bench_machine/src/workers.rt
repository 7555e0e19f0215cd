//! Turns of workers, each on a processor of its own, and what a turn does under the lock.

ghost use Rattle.std.specs.Prelude.{◌≡◌, ◌≤◌, ◌+◌, All, IfSome, length};
ghost use Rattle.evm_bells.specs.Seats.{IsNewTaker};
ghost use Rattle.evm_model.specs.Replay.{IsReplayOf};
ghost use Rattle.evm_shared.specs.EventCounts.{kind_counts};
ghost use Rattle.evm_shared.specs.Workers.{WorkerValue};

use crate::commits::{CAPACITY, blanks, commit_many};
use evm_bells::{Bells, Taker};
use evm_burst::{Cache, speculate};
use evm_core::{Burst, Committed, Machine};
use evm_devs::Pins;
use evm_elf::{read_image, write_bytes};
use evm_exec::Hart;
use evm_ram::Image;
use evm_shared::{Blanks, Gate, Origin, Port, Shared, Worker};
use std::alloc::Global;
use std::marker::Brand;
use std::sync::Wait;
use std::sync::ledger::Ledger;
use std::thread::Threads;

/// Spawns a task on each of processors 1 to 3 (`li a1,0`; for each `la a0,loop`, `li a2,C`, `li a7,3`, `ecall`), and then, as they
/// do, `loop: j loop`. A processor that is not there is refused by the call, and the program goes on.
const PROGRAM: [u32; 17] = [
    0x0000_0593,
    0x0000_0517,
    0x03c5_0513,
    0x0010_0613,
    0x0030_0893,
    0x0000_0073,
    0x0000_0517,
    0x0285_0513,
    0x0020_0613,
    0x0030_0893,
    0x0000_0073,
    0x0000_0517,
    0x0145_0513,
    0x0030_0613,
    0x0030_0893,
    0x0000_0073,
    0x0000_006f,
];

/// How many Steps of processor 0 come before its loop.
const SPAWNING: u32 = 16;

/// The Steps of a commit that takes a whole burst: 64 that were done ahead, and one.
const WHOLE: u32 = 65;

/// A gate that is always open.
struct OpenGate;

impl Gate for OpenGate {
    fn before(&self, _cpu: u8, _turn: u32) {}

    fn after(&self, _cpu: u8, _steps: u32) {}
}

// The image of the program.
fn program_image(alloc: Global) -> Option<Image> {
    let mut bytes = Vec::new(alloc);
    for word in PROGRAM {
        bytes.extend_from_slice(&word.to_le_bytes()).ok()?;
    }
    if bytes.len() > 1_000 {
        return None;
    }
    let file = write_bytes(alloc, bytes.as_slice()).ok()?;
    read_image(alloc, file.as_slice()).ok()
}

// Processors that are to run the program.
fn spawning(alloc: Global, cpus: u8) -> Option<Machine<Pins>>
    ensures { IfSome result (λ m. IsReplayOf m m) }
{
    let image = program_image(alloc)?;
    let mut machine = Machine::boot(alloc, cpus, 65_536, CAPACITY).ok()?;
    machine.load(&image).ok()?;
    Some(machine)
}

// A worker of a processor.
fn worker_of<O: Origin, S: Ledger, B: Ledger, T: Ledger>(
    alloc: Global,
    cpu: u8,
    port: Port<O, S, B, T>,
    taker: Taker,
) -> Option<Worker<O, S, B, T>>
    ensures { IfSome result (λ w. w.taker ≡ taker) }
{
    match Worker::new(alloc, cpu, port, taker) {
        Ok(worker) => Some(worker),
        Err(_) => None,
    }
}

// A worker for each processor.
fn workers_of<O: Origin, S: Ledger, B: Ledger, T: Ledger>(
    alloc: Global,
    bells: &Bells,
    mut ports: Vec<Port<O, S, B, T>>,
    mut takers: Vec<Taker>,
    count: u8,
) -> Option<Vec<Worker<O, S, B, T>>>
    requires { All (IsNewTaker bells.now.id) takers.items }
    ensures { IfSome result (λ workers. All (λ (w : WorkerValue). w.taker.bells ≡ bells.now.id) workers.items) }
{
    let mut workers = Vec::new(alloc);
    for cpu in 0..count {
        let (Some(port), Some(taker)) = (ports.pop(), takers.pop()) else {
            return None;
        };
        let Some(worker) = worker_of(alloc, cpu, port, taker) else {
            return None;
        };
        let Ok(()) = workers.push(worker) else {
            return None;
        };
    }
    Some(workers)
}

// How many Steps each worker has made.
fn steps_of<O: Origin, S: Ledger, B: Ledger, T: Ledger>(
    alloc: Global,
    workers: Vec<Worker<O, S, B, T>>,
) -> Option<Vec<u64>> {
    let mut steps = Vec::new(alloc);
    for worker in workers {
        let (port, _taker) = worker.into_parts();
        steps.push(port.share().steps).ok()?;
    }
    Some(steps)
}

// A task is spawned on each processor, and then as many workers make their turns.
fn turns_by<
    O: Origin + Send + Sync,
    S: Ledger + Send + Sync,
    B: Ledger + Send + Sync,
    T: Ledger + Send + Sync,
    R: Threads + Wait + Sync,
>(
    rt: &R,
    alloc: Global,
    machine: Machine<Pins>,
    blanks: Blanks,
    workers: u8,
    turns: u32,
) -> Option<Vec<u64>>
    requires few { workers ≤ 4 }
    requires replays { IsReplayOf O.start machine }
    requires base { kind_counts machine.journal ≡ O.base }
    requires machine { machine ≡ O.machine }
    requires history { blanks.history ≡ O.book }
    requires steps { (blanks.steps.name ≡ S.name) × (blanks.steps.parts ≡ S.parts) × (S.parts ≡ workers + 1) }
    requires bells { (blanks.bells.name ≡ B.name) × (blanks.bells.parts ≡ B.parts) × (B.parts ≡ workers + 1) }
    requires others { (blanks.others.name ≡ T.name) × (blanks.others.parts ≡ T.parts) × (T.parts ≡ workers + 1) }
{
    let (shared, mut ports) = Shared::<Pins, O, S, B, T>::new(
        alloc,
        machine,
        workers + 1,
        0,
        blanks,
    ).ok()?;
    let mut first = ports.pop()?;
    commit_many(rt, &shared, &mut first, SPAWNING);
    let Ok((bells, _ringer, takers)) = Bells::new(alloc, workers) else {
        return None;
    };
    let mut made = workers_of(alloc, &bells, ports, takers, workers)?;
    shared
        .run(rt, &bells, made.as_mut_slice(), turns, &OpenGate)
        .ok()?;
    steps_of(alloc, made)
}

/// Turns of 1 to 4 workers, `count` each: how many Steps each made.
pub fn turns<R: Threads + Wait + Sync>(
    rt: &R,
    alloc: Global,
    workers: u8,
    count: u32,
) -> Option<Vec<u64>> {
    if workers > 4 {
        return None;
    }
    let machine = spawning(alloc, workers)?;
    turns_by::<Brand, Brand, Brand, Brand, R>(
        rt,
        alloc,
        machine,
        blanks(workers + 1),
        workers,
        count,
    )
}

// The instructions that a worker would do ahead after a commit.
fn ahead<O: Origin, S: Ledger, B: Ledger, T: Ledger, R: Wait>(
    rt: &R,
    alloc: Global,
    shared: &Shared<Pins, O, S, B, T>,
    port: &mut Port<O, S, B, T>,
) -> Option<Burst> {
    let done = shared
        .commit(rt, port, 0, &Burst::empty(Hart::default()))
        .ok()?;
    let hart = done.next?;
    let mut cache = Cache::new(alloc).ok()?;
    cache.note(hart.pc, done.code.as_slice());
    Some(speculate(&hart, &mut cache))
}

// What a turn does under the lock, again and again: how often it made the Steps of a whole burst.
fn hold_many<O: Origin, S: Ledger, B: Ledger, T: Ledger, R: Wait>(
    rt: &R,
    shared: &Shared<Pins, O, S, B, T>,
    port: &mut Port<O, S, B, T>,
    burst: &Burst,
    count: u32,
) -> u32 {
    let mut whole = 0u32;
    let mut done = Committed::none();
    for _ in 0..count {
        if shared.commit_into(rt, port, 0, burst, &mut done).is_err() {
            return whole;
        }
        if done.steps == WHOLE {
            whole = whole.saturating_add(1);
        }
    }
    whole
}

fn hold_by<O: Origin, S: Ledger, B: Ledger, T: Ledger, R: Wait>(
    rt: &R,
    alloc: Global,
    machine: Machine<Pins>,
    blanks: Blanks,
    count: u32,
) -> Option<u32>
    requires replays { IsReplayOf O.start machine }
    requires base { kind_counts machine.journal ≡ O.base }
    requires machine { machine ≡ O.machine }
    requires history { blanks.history ≡ O.book }
    requires steps { (blanks.steps.name ≡ S.name) × (blanks.steps.parts ≡ S.parts) × (S.parts ≡ 1) }
    requires bells { (blanks.bells.name ≡ B.name) × (blanks.bells.parts ≡ B.parts) × (B.parts ≡ 1) }
    requires others { (blanks.others.name ≡ T.name) × (blanks.others.parts ≡ T.parts) × (T.parts ≡ 1) }
{
    let (shared, mut ports) = Shared::<Pins, O, S, B, T>::new(alloc, machine, 1, 0, blanks).ok()?;
    let mut port = ports.pop()?;
    commit_many(rt, &shared, &mut port, SPAWNING);
    let burst = ahead(rt, alloc, &shared, &mut port)?;
    Some(hold_many(rt, &shared, &mut port, &burst, count))
}

/// Commits of a whole burst, which was done ahead once, by one thread: how many were made.
pub fn hold<R: Wait>(rt: &R, alloc: Global, count: u32) -> Option<u32> {
    let machine = spawning(alloc, 1)?;
    hold_by::<Brand, Brand, Brand, Brand, R>(rt, alloc, machine, blanks(1), count)
}
