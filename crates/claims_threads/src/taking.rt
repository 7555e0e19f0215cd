//! From a line that a deliver takes to the receipt of its Bell: what is taken is said, and nothing else is.
ghost use Rattle.std.specs.Prelude.{◌≡◌, ◌+◌, ◌*◌, ◌<◌, ◌≤◌, ℕ, false, All, IfOk, IfSome, IsSome, count_by, length, slice_index, slice_index_or, sum_by};
ghost use Rattle.std.specs.Int.{bit_at};
ghost use Rattle.evm_bells.specs.Batches.{count};
ghost use Rattle.evm_lines.specs.declared.TheConstants.{LINES};
ghost use Rattle.evm_bells.specs.Rule.{whole_weight};
ghost use Rattle.evm_bells.specs.Seats.{IsNewTaker, TakerValue, taken_by};
ghost use Rattle.evm_shared.specs.Checks.{PortsHold};
ghost use Rattle.evm_shared.specs.EventCounts.{event_total, events_since};
ghost use Rattle.evm_shared.specs.Ports.{PortValue, fresh_port};
ghost use Rattle.evm_shared.specs.Workers.{WorkerValue};
ghost use Rattle.claims_threads.specs.Lines.{in_ports, in_receipts, is_bell, line_total, rings};
ghost use Rattle.claims_threads.specs.Said.{MakeTaken, MakesTaken, SayTaken, SaysTaken};

use crate::rings::each_ring_is_left_or_becomes_a_bell;
use evm_bells::{Bells, Closed, Ringer, Taker};
use evm_core::{Answer, Burst, Committed, Event, Refusal};
use evm_dev::Device;
use evm_shared::{Finished, Gate, Origin, Port, Shared, Worker};
use std::sync::Wait;
use std::sync::ledger::Ledger;
use std::thread::Threads;

/// A deliver through a port that has room for a receipt. Of each line of each processor the port's receipts say as many
/// more Bells as the taker has taken more lines, and of all lines as many more as the port has made. With room or without,
/// as many more Bells are made through the port as lines are taken.
pub fn a_deliver_says_what_it_takes<D: Device, O: Origin, S: Ledger, B: Ledger, T: Ledger, R: Wait>(
    rt: &R,
    shared: &Shared<D, O, S, B, T>,
    port: &mut Port<O, S, B, T>,
    bells: &Bells,
    taker: &mut Taker,
    cpu: u8,
) -> Result<u64, Refusal>
    requires { taker.old.bells ≡ bells.now.id }
    ensures lines { 0 < port.old.room → (c l : ℕ) → l < LINES → count taker.new.taken c l + in_receipts (rings c l) port.old.receipts ≡ count taker.old.taken c l + in_receipts (rings c l) port.new.receipts }
    ensures made { MakesTaken port.old taker.old → MakesTaken port.new taker.new }
    ensures bells { 0 < port.old.room → port.new.share.bells + in_receipts is_bell port.old.receipts ≡ port.old.share.bells + in_receipts is_bell port.new.receipts }
{
    shared.deliver(rt, port, bells, taker, cpu)
}

/// A commit through a port says no Bell, and makes none.
pub fn a_commit_says_no_bell<D: Device, O: Origin, S: Ledger, B: Ledger, T: Ledger, R: Wait>(
    rt: &R,
    shared: &Shared<D, O, S, B, T>,
    port: &mut Port<O, S, B, T>,
    cpu: u8,
    burst: &Burst,
) -> Result<Committed, Refusal>
    ensures lines { (c l : ℕ) → in_receipts (rings c l) port.new.receipts ≡ in_receipts (rings c l) port.old.receipts }
    ensures bells { (port.new.share.bells ≡ port.old.share.bells) × (in_receipts is_bell port.new.receipts ≡ in_receipts is_bell port.old.receipts) }
{
    shared.commit(rt, port, cpu, burst)
}

/// Likewise a tick, and a command of an event that is no Bell.
pub fn a_command_says_no_bell<D: Device, O: Origin, S: Ledger, B: Ledger, T: Ledger, R: Wait>(
    rt: &R,
    shared: &Shared<D, O, S, B, T>,
    port: &mut Port<O, S, B, T>,
    event: &Event,
) -> Result<Answer, Refusal>
    requires { is_bell event.now ≡ false }
    ensures lines { (c l : ℕ) → in_receipts (rings c l) port.new.receipts ≡ in_receipts (rings c l) port.old.receipts }
    ensures bells { (port.new.share.bells ≡ port.old.share.bells) × (in_receipts is_bell port.new.receipts ≡ in_receipts is_bell port.old.receipts) }
{
    shared.command(rt, port, event)
}

/// A run in which all turns were made. A worker whose port has room for two receipts a turn, and whose receipts said what its
/// taker had taken, says so after it. The workers and their takers stay. Whatever the run answers, and without receipts, as
/// many Bells were made through each port as its taker has taken lines, if it was so before.
pub fn a_run_says_what_it_takes<
    D: Device,
    O: Origin + Send + Sync,
    S: Ledger + Send + Sync,
    B: Ledger + Send + Sync,
    T: Ledger + Send + Sync,
    R: Threads + Wait + Sync,
    G: Gate,
>(
    rt: &R,
    shared: &Shared<D, O, S, B, T>,
    bells: &Bells,
    workers: &mut [Worker<O, S, B, T>],
    turns: u32,
    gate: &G,
) -> Result<(), Refusal>
    requires { All (λ (w : WorkerValue). w.taker.bells ≡ bells.now.id) workers.old }
    ensures count { length workers.new ≡ length workers.old }
    ensures bells { All (λ (w : WorkerValue). w.taker.bells ≡ bells.now.id) workers.new }
    ensures says { IfOk result (λ _. (i : ℕ) (d : WorkerValue) → i < length workers.old → 2 * turns ≤ (slice_index_or workers.old i d).port.room
        → SaysTaken (slice_index_or workers.old i d).port (slice_index_or workers.old i d).taker → SaysTaken (slice_index_or workers.new i d).port (slice_index_or workers.new i d).taker) }
    ensures made { (i : ℕ) (d : WorkerValue) → i < length workers.old
        → MakesTaken (slice_index_or workers.old i d).port (slice_index_or workers.old i d).taker → MakesTaken (slice_index_or workers.new i d).port (slice_index_or workers.new i d).taker }
    // each port is one that was made when it was
    ensures since { IfOk result (λ _. (i : ℕ) (d : WorkerValue) → i < length workers.old → (n : ℕ) → n ≤ (slice_index_or workers.old i d).port.since → n ≤ (slice_index_or workers.new i d).port.since) }
{
    shared.run(rt, bells, workers, turns, gate)
}

/// The sharing and the bells end, and each port's receipts say what the taker of its place has taken, as they do of a new port
/// and a new taker, and as each call above keeps it. If besides no Bell was made before, and the check of the receipts is
/// passed, then each fresh ring of each line is one Bell of it in the journal, or is left, and the journal has no other. Whatever
/// Bells were made before, so it is with those since then, if the ports were made no earlier.
///
/// If as many Bells were made through each port as the taker of its place has taken lines, as it is with a new port and a new
/// taker, and as each call keeps it, then as many Bells were added as lines were taken, with receipts or without.
pub fn each_ring_is_left_or_becomes_a_bell_of_a_pair<
    D: Device,
    O: Origin,
    S: Ledger,
    B: Ledger,
    T: Ledger,
>(
    shared: Shared<D, O, S, B, T>,
    ports: Vec<Port<O, S, B, T>>,
    bells: Bells,
    ringer: Ringer,
    takers: Vec<Taker>,
) -> Option<(Finished<D, O, S, B, T>, Closed)>
    requires ringer { ringer.bells ≡ bells.id }
    requires takers { All (λ (t : TakerValue). t.bells ≡ bells.id) takers.items }
    // all ends if these are all ports and all seats
    ensures ended { length ports.items ≡ shared → ringer.weight + length takers.items ≡ whole_weight bells.cpus → IsSome result }
    ensures begins { (receipts since : ℕ) (port : PortValue) (taker : TakerValue) → port ≡ fresh_port receipts since → IsNewTaker bells.id taker → SaysTaken port taker }
    ensures begins_made { (receipts since : ℕ) (port : PortValue) (taker : TakerValue) → port ≡ fresh_port receipts since → IsNewTaker bells.id taker → MakesTaken port taker }
    ensures made { IfSome result (λ ended. MakeTaken ports.items takers.items → count_by is_bell ended.0.machine.journal ≡ O.base.bells + line_total (taken_by takers.items)) }
    ensures told { SayTaken ports.items takers.items → (in_ports is_bell ports.items ≡ sum_by (λ (p : PortValue). p.share.bells) ports.items)
        × ((c l : ℕ) → l < LINES → count (taken_by takers.items) c l ≡ in_ports (rings c l) ports.items) }
    ensures lines { IfSome result (λ ended. (c l : ℕ) → l < LINES → O.base.bells ≡ 0 → SayTaken ports.items takers.items
        → PortsHold ended.0.machine ports.items (length ports.items)
        → count ringer.fresh c l ≡ count_by (rings c l) ended.0.machine.journal + bit_at (slice_index ended.1.left c) l) }
    ensures since { IfSome result (λ ended. (c l : ℕ) → l < LINES → All (λ (p : PortValue). event_total O.base ≤ p.since) ports.items → SayTaken ports.items takers.items
        → PortsHold ended.0.machine ports.items (length ports.items)
        → count ringer.fresh c l ≡ count_by (rings c l) (events_since O.base ended.0.machine.journal) + bit_at (slice_index ended.1.left c) l) }
{
    let Some((done, closed)) = each_ring_is_left_or_becomes_a_bell(
        shared, ports, bells, ringer, takers,
    ) else {
        return None;
    };
    Some((done, closed))
}
