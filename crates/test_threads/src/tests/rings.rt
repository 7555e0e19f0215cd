//! A thread that rings beside two workers.

ghost use Rattle.std.specs.Prelude.{◌≡◌, All};
ghost use Rattle.std.specs.Thread.{IsSync};
ghost use Rattle.evm_shared.specs.Workers.{WorkerValue};

use super::Played;
use super::meeting::Meeting;
use super::seats::{closed_of, sums, three_of};
use super::workers::{parts_of, run_all, workers_of};
use evm_bells::{Bells, Ringer};
use evm_devs::Pins;
use evm_lines::LINES;
use evm_shared::{Origin, Port, Shared, Worker};
use std::alloc::Global;
use std::sync::Wait;
use std::sync::ledger::Ledger;
use std::thread;
use std::thread::Threads;

/// How many rings there are.
const RINGS: u32 = 1_000;

/// How many turns each worker makes beside them.
const TURNS: u32 = 100;

/// A ringer that has rung, and how many of its rings were fresh.
#[derive(Drop)]
struct Rung {
    ringer: Ringer,
    fresh: u64,
}

// Rings the lines of three processors in turn, once two workers have come.
fn ring_many(bells: &Bells, mut ringer: Ringer, gate: &Meeting) -> Rung
    requires { (ringer.bells ≡ bells.now.id) × (bells.now.cpus ≡ 3) }
    ensures { result.ringer.bells ≡ bells.now.id }
{
    gate.come();
    gate.wait_for(3);
    let mut fresh = 0u64;
    for round in 0..RINGS {
        let cpu = (round % 3) as u8;
        let line = (round / 3 % u32::from(LINES)) as u8;
        fresh = fresh.wrapping_add(u64::from(bells.ring(&mut ringer, cpu, line)));
        thread::yield_now();
    }
    Rung { ringer, fresh }
}

// It rings while the workers make their turns: whether all went well, too.
fn ring_beside<
    O: Origin + Send + Sync,
    S: Ledger + Send + Sync,
    B: Ledger + Send + Sync,
    T: Ledger + Send + Sync,
    R: Threads + Wait + Sync,
>(
    rt: &R,
    shared: &Shared<Pins, O, S, B, T>,
    bells: &Bells,
    ringer: Ringer,
    workers: Vec<Worker<O, S, B, T>>,
) -> (Rung, Vec<Worker<O, S, B, T>>, bool)
    requires ringer { (ringer.bells ≡ bells.now.id) × (bells.now.cpus ≡ 3) }
    requires workers { All (λ (w : WorkerValue). w.taker.bells ≡ bells.now.id) workers.items }
    ensures ringer { result.0.ringer.bells ≡ bells.now.id }
    ensures workers { All (λ (w : WorkerValue). w.taker.bells ≡ bells.now.id) result.1.items }
{
    let meeting = Meeting::new(0, 3);
    let gate = &meeting;
    let (rung, (workers, ended)) = thread::join(
        rt,
        move || -> Rung
            requires { (ringer.bells ≡ bells.now.id) × (bells.now.cpus ≡ 3) }
            ensures { result.ringer.bells ≡ bells.entry.now.id }
        { ring_many(bells, ringer, gate) },
        move || -> (Vec<Worker<O, S, B, T>>, bool)
            requires { IsSync R.row × All (λ (w : WorkerValue). w.taker.bells ≡ bells.now.id) workers.items }
            ensures { All (λ (w : WorkerValue). w.taker.bells ≡ bells.entry.now.id) result.0.items }
        { run_all(rt, shared, bells, workers, TURNS, gate) },
    );
    (rung, workers, ended && !meeting.was_missed())
}

/// A thread rings 1,000 times while two workers make 100 turns each, the second of processor 0 too or of another. Nobody takes what is
/// rung of processor 2.
pub(super) fn play<
    O: Origin + Send + Sync,
    S: Ledger + Send + Sync,
    B: Ledger + Send + Sync,
    T: Ledger + Send + Sync,
    R: Threads + Wait + Sync,
>(
    rt: &R,
    alloc: Global,
    shared: &Shared<Pins, O, S, B, T>,
    mut ports: Vec<Port<O, S, B, T>>,
    second_cpu: u8,
) -> Option<Played<O, S, B, T>> {
    let idle = ports.pop()?;
    let (bells, ringer, takers) = Bells::new(alloc, 3).ok()?;
    let (first, second, third) = three_of(&bells, takers)?;
    let workers = workers_of(alloc, &bells, ports, (first, second), second_cpu)?;
    let (rung, workers, ended) = ring_beside(rt, shared, &bells, ringer, workers);
    let (mut ports, (first, second)) = parts_of(alloc, &bells, workers)?;
    ports.push(idle).ok()?;
    let Rung {
        ringer,
        fresh: rung,
    } = rung;
    let closed = closed_of(alloc, bells, ringer, (first, second, third))?;
    let (fresh, taken) = sums(&closed)?;
    Some(Played {
        ports,
        right: ended && fresh == rung && closed.left[2] == u64::MAX,
        bells: taken,
    })
}
