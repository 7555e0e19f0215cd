//! Ledgers and workers of a sharing, and the ports of workers again.

ghost use Rattle.std.specs.Prelude.{◌≡◌, All, IfSome};
ghost use Rattle.evm_bells.specs.Seats.{IsNewTaker};
ghost use Rattle.evm_shared.specs.Workers.{WorkerValue};

use evm_bells::{Bells, Taker};
use evm_room::with_room;
use evm_shared::{BlankHistory, Blanks, Origin, Port, Worker};
use std::alloc::Global;
use std::sync::ledger::{Blank, Ledger};

/// Ledgers of a part for each port.
pub(crate) fn blanks(ports: u8) -> Blanks
    ensures { (result.steps.parts ≡ ports) × (result.bells.parts ≡ ports) × (result.others.parts ≡ ports) }
{
    Blanks {
        steps: Blank::new(u64::from(ports)),
        bells: Blank::new(u64::from(ports)),
        others: Blank::new(u64::from(ports)),
        history: BlankHistory::new(),
    }
}

// A worker of a processor.
fn worker_of<O: Origin, S: Ledger, B: Ledger, T: Ledger>(
    alloc: Global,
    cpu: u8,
    port: Port<O, S, B, T>,
    taker: Taker,
) -> Option<Worker<O, S, B, T>>
    ensures { IfSome result (λ w. w.taker ≡ taker) }
{
    match Worker::new(alloc, cpu, port, taker) {
        Ok(worker) => Some(worker),
        Err(_) => None,
    }
}

/// A worker for each of some processors.
pub(crate) fn workers_of<O: Origin, S: Ledger, B: Ledger, T: Ledger>(
    alloc: Global,
    bells: &Bells,
    mut ports: Vec<Port<O, S, B, T>>,
    mut takers: Vec<Taker>,
    count: u8,
) -> Option<Vec<Worker<O, S, B, T>>>
    requires { All (IsNewTaker bells.now.id) takers.items }
    ensures { IfSome result (λ workers. All (λ (w : WorkerValue). w.taker.bells ≡ bells.now.id) workers.items) }
{
    let mut workers = Vec::new(alloc);
    for cpu in 0..count {
        let (Some(port), Some(taker)) = (ports.pop(), takers.pop()) else {
            return None;
        };
        let Some(worker) = worker_of(alloc, cpu, port, taker) else {
            return None;
        };
        let Ok(()) = workers.push(worker) else {
            return None;
        };
    }
    Some(workers)
}

/// The ports of workers that are done, the last first.
pub(crate) fn ports_of<O: Origin, S: Ledger, B: Ledger, T: Ledger>(
    alloc: Global,
    mut workers: Vec<Worker<O, S, B, T>>,
) -> Option<Vec<Port<O, S, B, T>>> {
    let mut ports = with_room(alloc, workers.len()).ok()?;
    while let Some(worker) = workers.pop() {
        let (port, _) = worker.into_parts();
        ports.push_reserved(port);
    }
    Some(ports)
}
