ghost use Rattle.std.specs.Prelude.{◌≡◌, ℕ, ◌+◌, ◌<◌, ◌≤◌, All, IfErr, IfOk, MatchResult, length, slice_index_or, Option};
ghost use Rattle.evm_shared.specs.Lookaheads.{nothing_ahead};
ghost use Rattle.evm_shared.specs.Ports.{RefusesEither};
ghost use Rattle.evm_shared.specs.Workers.{HasTurned, MakesTurn, RefusesTurn, WorkerValue, least_refusal, lesser_refusal};

use crate::locked::Origin;
use crate::lookahead::Lookahead;
use crate::port::Port;
use crate::shared::Shared;
use evm_bells::{Bells, Taker};
use evm_core::Committed;
use evm_dev::Device;
use evm_model::Refusal;
use std::alloc::Global;
use std::marker::Model;
use std::sync::Wait;
use std::sync::ledger::Ledger;
use std::thread;
use std::thread::Threads;

/// What is called around each turn of a worker.
pub trait Gate: Sync {
    /// Before a turn. The first turn is 0.
    fn before(&self, cpu: u8, turn: u32);

    /// After a turn's commit, with the number of its Steps.
    fn after(&self, cpu: u8, steps: u32);
}

/// A processor that a thread drives, with a port and a taker. What it commits was done ahead of the machine, from the hart
/// that its last commit answered, by the words of a cache that notes the code after each commit.
#[derive(Drop)]
pub struct Worker<O: Origin, S: Ledger, B: Ledger, T: Ledger> {
    cpu: u8,
    port: Port<O, S, B, T>,
    taker: Taker,
    ahead: Lookahead,
    refused: Option<Refusal>,
}

impl<O: Origin, S: Ledger, B: Ledger, T: Ledger> Model for Worker<O, S, B, T> {
    ghost use Rattle.evm_shared.specs.Workers.{WorkerValue};

    ghost Value = { WorkerValue };

    ghost view = { λ w. record { cpu = w.cpu; port = w.port; taker = w.taker; ahead = w.ahead; refused = w.refused } };
}

// The refusal of the lesser number.
fn lesser_refusal(first: Option<Refusal>, second: Option<Refusal>) -> Option<Refusal>
    ensures { result ≡ lesser_refusal first second }
{
    let Some(why) = first else {
        return second;
    };
    let Some(other) = second else {
        return Some(why);
    };
    if why.number() <= other.number() {
        Some(why)
    } else {
        Some(other)
    }
}

// The refusal of the least number.
fn least_refusal<O: Origin, S: Ledger, B: Ledger, T: Ledger>(
    workers: &[Worker<O, S, B, T>],
) -> Option<Refusal>
    ensures { result ≡ least_refusal workers.now }
{
    match workers.split_first() {
        None => None,
        Some((worker, others)) => lesser_refusal(worker.refused, least_refusal(others)),
    }
}

impl<O: Origin, S: Ledger, B: Ledger, T: Ledger> Worker<O, S, B, T> {
    /// A worker of a processor, which has made no turn, with an empty cache.
    ///
    /// # Errors
    ///
    /// The port and the taker, if memory was refused.
    pub fn new(
        alloc: Global,
        cpu: u8,
        port: Port<O, S, B, T>,
        taker: Taker,
    ) -> Result<Worker<O, S, B, T>, (Port<O, S, B, T>, Taker)>
        ensures parts { MatchResult result (λ w. (w.cpu ≡ cpu) × (w.port ≡ port) × (w.taker ≡ taker)) (λ back. (back.0 ≡ port) × (back.1 ≡ taker)) }
        ensures ahead { IfOk result (λ w. w.ahead ≡ nothing_ahead) }
    {
        match Lookahead::new(alloc) {
            Err(_) => Err((port, taker)),
            Ok(ahead) => Ok(Worker {
                cpu,
                port,
                taker,
                ahead,
                refused: None,
            }),
        }
    }

    /// Its port and its taker.
    pub fn into_parts(self) -> (Port<O, S, B, T>, Taker)
        ensures { (result.0 ≡ self.port) × (result.1 ≡ self.taker) }
    {
        let Worker { port, taker, .. } = self;
        (port, taker)
    }

    // One turn: before, deliver, speculate, commit, note, after.
    fn turn<D: Device, R: Wait, G: Gate>(
        &mut self,
        rt: &R,
        shared: &Shared<D, O, S, B, T>,
        bells: &Bells,
        turn: u32,
        gate: &G,
    ) -> Result<(), Refusal>
        requires { self.old.taker.bells ≡ bells.now.id }
        ensures same { (self.new.cpu ≡ self.old.cpu) × (self.new.taker.bells ≡ self.old.taker.bells) × (self.new.refused ≡ self.old.refused) }
        ensures refused { IfErr result (λ why. RefusesTurn O.machine bells.now.cpus self.old self.new why) }
        ensures reason { IfErr result (λ why. RefusesEither O.machine bells.now.cpus self.old.cpu why) }
        ensures steps { IfOk result (λ _. self.old.port.share.steps + 1 ≤ self.new.port.share.steps) }
        ensures made { IfOk result (λ _. MakesTurn O.machine bells.now.cpus self.old self.new) }
    {
        gate.before(self.cpu, turn);
        shared.deliver(rt, &mut self.port, bells, &mut self.taker, self.cpu)?;
        let burst = self.ahead.burst();
        let mut done = Committed::none();
        shared.commit_into(rt, &mut self.port, self.cpu, &burst, &mut done)?;
        self.ahead.keep(&done);
        gate.after(self.cpu, done.steps);
        Ok(())
    }

    // Ends a run at a turn that was refused.
    fn stop(&mut self, why: Refusal)
        ensures { self.new ≡ (record self.old { refused = Option.Some why }) }
    {
        self.refused = Some(why);
    }

    // So many turns, or those up to the first that was refused.
    fn turns<D: Device, R: Wait, G: Gate>(
        &mut self,
        rt: &R,
        shared: &Shared<D, O, S, B, T>,
        bells: &Bells,
        turns: u32,
        gate: &G,
    )
        requires { self.old.taker.bells ≡ bells.now.id }
        ensures { HasTurned O.machine bells.now.cpus turns self.old self.new }
    {
        self.refused = None;
        for turn in 0..turns {
            if let Err(why) = self.turn(rt, shared, bells, turn, gate) {
                self.stop(why);
                return;
            }
        }
    }
}

impl<
    D: Device,
    O: Origin + Send + Sync,
    S: Ledger + Send + Sync,
    B: Ledger + Send + Sync,
    T: Ledger + Send + Sync,
> Shared<D, O, S, B, T> {
    /// Has each worker make `turns` turns, in a thread of its own: it delivers, then commits what was done ahead, at most 65
    /// Steps, and calls the gate before and after. A worker that is refused makes no further turn. A worker for which no thread can be made makes its
    /// turns on the caller's.
    ///
    /// # Errors
    ///
    /// Of the workers' refusals the one of the least number, once all workers have ended.
    pub fn run<R: Threads + Wait + Sync, G: Gate>(
        &self,
        rt: &R,
        bells: &Bells,
        workers: &mut [Worker<O, S, B, T>],
        turns: u32,
        gate: &G,
    ) -> Result<(), Refusal>
        requires bells { All (λ (w : WorkerValue). w.taker.bells ≡ bells.now.id) workers.old }
        ensures count { length workers.new ≡ length workers.old }
        ensures turns { (i : ℕ) (d : WorkerValue) → i < length workers.old → HasTurned O.machine bells.now.cpus turns (slice_index_or workers.old i d) (slice_index_or workers.new i d) }
        ensures bells { All (λ (w : WorkerValue). w.taker.bells ≡ bells.now.id) workers.new }
        ensures least { MatchResult result (λ _. least_refusal workers.new ≡ Option.None) (λ why. least_refusal workers.new ≡ Option.Some why) }
    {
        if workers.is_empty() {
            return Ok(());
        }
        let threads = workers.len();
        thread::for_each_mut(
            rt,
            workers,
            threads,
            &|_, w: &mut Worker<O, S, B, T>|
                requires { w.old.taker.bells ≡ bells.now.id }
                ensures { HasTurned O.machine bells.entry.now.cpus turns w.old w.new × (w.new.taker.bells ≡ bells.entry.now.id) }
            { w.turns(rt, self, bells, turns, gate) },
        );
        match least_refusal(workers) {
            Some(why) => Err(why),
            None => Ok(()),
        }
    }
}
