//! From a bell that a host thread rings to its playback on a stage: all of it in one claim.
ghost use Rattle.std.specs.Prelude.{◌≡◌, ◌+◌, ◌<◌, ◌≤◌, ℕ, true, All, IfSome, Option, count_by, length, slice_get, slice_index, sum_by};
ghost use Rattle.std.specs.Int.{bit_at};
ghost use Rattle.evm_bells.specs.Batches.{count, counter};
ghost use Rattle.evm_bells.specs.Seats.{TakerValue};
ghost use Rattle.evm_bells.specs.declared.counts.TheConstants.{PROCESSOR_LIMIT};
ghost use Rattle.claims_machine.specs.Raising.{NoDevicesLine};
ghost use Rattle.evm_lines.specs.declared.TheConstants.{LINES};
ghost use Rattle.evm_model.specs.Kinds.{AStep, ABell, Another, is_same_kind, kind_of};
ghost use Rattle.evm_model.specs.Pipes.{Pipe};
ghost use Rattle.evm_model.specs.Replay.{replay};
ghost use Rattle.evm_model.specs.declared.boot.Boot.{Boot};
ghost use Rattle.evm_model.specs.declared.counts.Counts.{Counts};
ghost use Rattle.evm_shared.specs.Checks.{PortsHold, lent};
ghost use Rattle.evm_shared.specs.EventCounts.{event_total, events_since};
ghost use Rattle.evm_shared.specs.Ports.{PortValue};
ghost use Rattle.claims_threads.specs.Lines.{in_ports, raises_otherwise, rings};
ghost use Rattle.claims_threads.specs.Passing.{IsBooted, merged, pending, played};
ghost use Rattle.claims_threads.specs.Said.{SayTaken};

use crate::sharing::the_machine_under_the_lock_is_its_journals_replay;
use crate::stages::each_bell_comes_to_a_stage;
use evm_bells::{Bells, Closed, Ringer, Taker};
use evm_core::Machine;
use evm_dev::Device;
use evm_room::with_room;
use evm_shared::{Finished, Origin, Port, Shared, check_receipts};
use std::alloc::Global;
use std::sync::ledger::Ledger;

// References to some ports.
fn lend_ports<'a, O: Origin, S: Ledger, B: Ledger, T: Ledger>(
    alloc: Global,
    ports: &'a [Port<O, S, B, T>],
) -> Option<Vec<&'a Port<O, S, B, T>>>
    ensures { IfSome result (λ refs. lent refs.items ≡ ports.now) }
{
    let mut refs = with_room(alloc, ports.len()).ok()?;
    for port in ports {
        refs.push_reserved(port);
    }
    Some(refs)
}

// Whether the check of some ports is passed.
fn are_checked<D: Device, O: Origin, S: Ledger, B: Ledger, T: Ledger>(
    alloc: Global,
    machine: &Machine<D>,
    ports: &[Port<O, S, B, T>],
) -> bool
    ensures { result ≡ true → PortsHold machine.now ports.now (length ports.now) }
{
    let Some(refs) = lend_ports(alloc, ports) else {
        return false;
    };
    match check_receipts(machine, refs.as_slice()) {
        Ok(()) => true,
        Err(_) => false,
    }
}

/// No interrupt is lost, and none is played twice, from a bell that a host thread rings to its playback on a stage.
///
/// The sharing ends with its ports, the check of their receipts is passed, and the bells end with their ringer and takers.
///
/// - The machine is its journal's replay from the state that it began with, and its journal has as many Steps, Bells and
///   other events as it had when it came under the lock and as the ports have made.
/// - Let each port's receipts say what the taker of its place has taken, as they do of a new port and a new taker, and as
///   each call through the port keeps it. Then of each line of each processor, as often as it was rung fresh, the receipts
///   say a Bell of it, or it is left in its word.
/// - If besides no Bell was made before, the Bells that the receipts say are those of the journal, line by line. Whatever
///   Bells were made before, they are those since then, if the ports were made no earlier.
/// - On a machine that began with a boot, an image loaded or none, and no event, each line from 2 on that is no device's
///   was raised by the Bells and the other events of the journal that name it, and each time it merged, is pending, or was
///   played.
pub fn no_interrupt_is_lost_or_played_twice<D: Device, O: Origin, S: Ledger, B: Ledger, T: Ledger>(
    alloc: Global,
    shared: Shared<D, O, S, B, T>,
    ports: Vec<Port<O, S, B, T>>,
    bells: Bells,
    ringer: Ringer,
    takers: Vec<Taker>,
) -> Option<(Finished<D, O, S, B, T>, Closed)>
    requires ringer { ringer.bells ≡ bells.id }
    requires takers { All (λ (t : TakerValue). t.bells ≡ bells.id) takers.items }
    ensures replayed { IfSome result (λ ended. replay O.start ended.0.machine.journal ≡ ended.0.machine) }
    ensures steps { IfSome result (λ ended. count_by (λ event. is_same_kind (kind_of event) AStep) ended.0.machine.journal ≡ O.base.steps + sum_by (λ (p : PortValue). p.share.steps) ports.items) }
    ensures bells { IfSome result (λ ended. count_by (λ event. is_same_kind (kind_of event) ABell) ended.0.machine.journal ≡ O.base.bells + sum_by (λ (p : PortValue). p.share.bells) ports.items) }
    ensures others { IfSome result (λ ended. count_by (λ event. is_same_kind (kind_of event) Another) ended.0.machine.journal ≡ O.base.others + sum_by (λ (p : PortValue). p.share.others) ports.items) }
    ensures rung { IfSome result (λ ended. (c l : ℕ) → l < LINES → SayTaken ports.items takers.items →
        count ringer.fresh c l ≡ in_ports (rings c l) ports.items + bit_at (slice_index ended.1.left c) l) }
    // a line that a ring found standing has a Bell, or is left
    ensures answered { IfSome result (λ ended. (c l : ℕ) → l < LINES → 0 < count ringer.stood c l → All (λ (p : PortValue). event_total O.base ≤ p.since) ports.items → SayTaken ports.items takers.items →
        0 < count_by (rings c l) (events_since O.base ended.0.machine.journal) + bit_at (slice_index ended.1.left c) l) }
    ensures delivered { IfSome result (λ ended. (c l : ℕ) → O.base.bells ≡ 0 → SayTaken ports.items takers.items →
        in_ports (rings c l) ports.items ≡ count_by (rings c l) ended.0.machine.journal) }
    ensures since { IfSome result (λ ended. (c l : ℕ) → All (λ (p : PortValue). event_total O.base ≤ p.since) ports.items → SayTaken ports.items takers.items →
        in_ports (rings c l) ports.items ≡ count_by (rings c l) (events_since O.base ended.0.machine.journal)) }
    ensures played { IfSome result (λ ended. (boot : Boot) (c l : ℕ) (pipe : Pipe) (n : Counts) → IsBooted boot O.start →
        2 ≤ l → NoDevicesLine c l ended.0.machine.board.memory.devices →
        slice_get ended.0.machine.board.parts.pipes c ≡ Option.Some pipe → slice_get pipe.counts l ≡ Option.Some n →
        count_by (rings c l) ended.0.machine.journal + count_by (raises_otherwise c l) ended.0.machine.journal
        ≡ merged n + pending pipe l + played n) }
    // the counters that the bells have kept are exact
    ensures counters { IfSome result (λ ended. (c l : ℕ) → c < PROCESSOR_LIMIT → l < LINES → O.base.bells ≡ 0 → SayTaken ports.items takers.items →
        counter ended.1.fresh.rows c l ≡ count_by (rings c l) ended.0.machine.journal + bit_at (slice_index ended.1.left c) l) }
    ensures counters_since { IfSome result (λ ended. (c l : ℕ) → c < PROCESSOR_LIMIT → l < LINES → All (λ (p : PortValue). event_total O.base ≤ p.since) ports.items → SayTaken ports.items takers.items →
        counter ended.1.fresh.rows c l ≡ count_by (rings c l) (events_since O.base ended.0.machine.journal) + bit_at (slice_index ended.1.left c) l) }
{
    each_bell_comes_to_a_stage();
    let Some(done) = the_machine_under_the_lock_is_its_journals_replay(shared, ports) else {
        return None;
    };
    if !are_checked(alloc, &done.machine, done.ports.as_slice()) {
        return None;
    }
    done.machine.rules();
    match bells.close(ringer, takers) {
        Ok(closed) => Some((done, closed)),
        Err(_) => None,
    }
}
