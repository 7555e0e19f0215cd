//! From a bell that a host thread rings to a Bell in the journal: none is lost, and none is made twice.
ghost use Rattle.std.specs.Prelude.{◌≡◌, ◌+◌, ◌≤◌, ℕ, true, All, IfSome, IsSome, count_by, length, slice_index, sum_by};
ghost use Rattle.std.specs.Int.{bit_at};
ghost use Rattle.evm_bells.specs.Batches.{count};
ghost use Rattle.evm_bells.specs.Rule.{whole_weight};
ghost use Rattle.evm_bells.specs.Seats.{AreAnswered, TakerValue, taken_by};
ghost use Rattle.evm_shared.specs.Checks.{PortsHold, lent};
ghost use Rattle.evm_shared.specs.EventCounts.{event_total, events_since};
ghost use Rattle.evm_shared.specs.Ports.{PortValue};
ghost use Rattle.claims_threads.specs.Lines.{in_ports, is_bell, rings};

use evm_bells::{Bells, Closed, Ringer, Taker};
use evm_core::Machine;
use evm_dev::Device;
use evm_shared::{Finished, Origin, Port, Shared, check_receipts};
use std::sync::ledger::Ledger;

/// Ports whose receipts are checked, and which say as many Bells as the machine's journal has: of each line of each
/// processor they say as many as the journal has.
pub fn checked_receipts_have_each_bell<D: Device, O: Origin, S: Ledger, B: Ledger, T: Ledger>(
    machine: &Machine<D>,
    ports: &[&Port<O, S, B, T>],
) -> bool
    ensures holds { result ≡ true → PortsHold machine.now (lent ports.now) (length ports.now) }
    ensures lines { result ≡ true → in_ports is_bell (lent ports.now) ≡ count_by is_bell machine.now.journal
        → (c l : ℕ) → in_ports (rings c l) (lent ports.now) ≡ count_by (rings c l) machine.now.journal }
{
    match check_receipts(machine, ports) {
        Ok(()) => true,
        Err(_) => false,
    }
}

/// The sharing and the bells end. The journal has as many Bells as before and as the ports have made, and of each line of
/// each processor the rings that were fresh were taken or are left; a line that a ring found standing was taken or is left. If besides no Bell was made before, each Bell of the
/// ports is in a receipt, the check of the receipts is passed, and the receipts say of each line as many Bells as were
/// taken, then each fresh ring of each line is one Bell of it in the journal, or is left, and the journal has no other. Whatever
/// Bells were made before, so it is with those since then, if the ports were made no earlier.
pub fn each_ring_is_left_or_becomes_a_bell<D: Device, O: Origin, S: Ledger, B: Ledger, T: Ledger>(
    shared: Shared<D, O, S, B, T>,
    ports: Vec<Port<O, S, B, T>>,
    bells: Bells,
    ringer: Ringer,
    takers: Vec<Taker>,
) -> Option<(Finished<D, O, S, B, T>, Closed)>
    requires ringer { ringer.bells ≡ bells.id }
    requires takers { All (λ (t : TakerValue). t.bells ≡ bells.id) takers.items }
    // all ends if these are all ports and all seats
    ensures ended { length ports.items ≡ shared → ringer.weight + length takers.items ≡ whole_weight bells.cpus → IsSome result }
    ensures totals { IfSome result (λ ended. count_by is_bell ended.0.machine.journal ≡ O.base.bells + sum_by (λ (p : PortValue). p.share.bells) ports.items) }
    ensures left { IfSome result (λ ended. (c l : ℕ) → count ringer.fresh c l ≡ count (taken_by takers.items) c l + bit_at (slice_index ended.1.left c) l) }
    ensures answered { IfSome result (λ ended. AreAnswered ringer.stood (taken_by takers.items) ended.1.left) }
    ensures lines { IfSome result (λ ended. (c l : ℕ) → O.base.bells ≡ 0
        → in_ports is_bell ports.items ≡ sum_by (λ (p : PortValue). p.share.bells) ports.items
        → PortsHold ended.0.machine ports.items (length ports.items)
        → count (taken_by takers.items) c l ≡ in_ports (rings c l) ports.items
        → count ringer.fresh c l ≡ count_by (rings c l) ended.0.machine.journal + bit_at (slice_index ended.1.left c) l) }
    ensures since { IfSome result (λ ended. (c l : ℕ) → All (λ (p : PortValue). event_total O.base ≤ p.since) ports.items
        → in_ports is_bell ports.items ≡ sum_by (λ (p : PortValue). p.share.bells) ports.items
        → PortsHold ended.0.machine ports.items (length ports.items)
        → count (taken_by takers.items) c l ≡ in_ports (rings c l) ports.items
        → count ringer.fresh c l ≡ count_by (rings c l) (events_since O.base ended.0.machine.journal) + bit_at (slice_index ended.1.left c) l) }
{
    let Ok(done) = shared.finish(ports) else {
        return None;
    };
    match bells.close(ringer, takers) {
        Ok(closed) => Some((done, closed)),
        Err(_) => None,
    }
}
