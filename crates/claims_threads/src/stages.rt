//! From a Bell in the journal, and from a bell that a host thread rings, to its playback on a stage.
ghost use Rattle.std.specs.Prelude.{◌≡◌, ◌+◌, ◌≤◌, ℕ, All, IfSome, IsSome, Option, if◌then◌else◌, count_by, length, slice_get, slice_index, sum_by};
ghost use Rattle.std.specs.Int.{bit_at};
ghost use Rattle.evm_bells.specs.Batches.{count};
ghost use Rattle.evm_bells.specs.Rule.{whole_weight};
ghost use Rattle.evm_bells.specs.Seats.{TakerValue, taken_by};
ghost use Rattle.claims_machine.specs.Raising.{NoDevicesLine};
ghost use Rattle.claims_machine.specs.Reached.{Ran};
ghost use Rattle.evm_lines.specs.Lines.{has_line};
ghost use Rattle.evm_model.specs.Pipes.{Pipe};
ghost use Rattle.evm_model.specs.State.{State};
ghost use Rattle.evm_model.specs.declared.boot.Boot.{Boot};
ghost use Rattle.evm_model.specs.declared.counts.Counts.{Counts};
ghost use Rattle.evm_shared.specs.Checks.{PortsHold};
ghost use Rattle.evm_shared.specs.EventCounts.{event_total};
ghost use Rattle.evm_shared.specs.Ports.{PortValue};
ghost use Rattle.claims_threads.specs.Lines.{events_before, in_ports, is_bell, raises_otherwise, rings};

use crate::rings::each_ring_is_left_or_becomes_a_bell;
use evm_bells::{Bells, Closed, Ringer, Taker};
use evm_dev::Device;
use evm_shared::{Finished, Origin, Port, Shared};
use std::sync::ledger::Ledger;

/// After every boot, with an image loaded or none, and every list of events: each line from 2 on that is no device's was
/// raised by the Bells and the other events that name it, and each time it merged on the wire, is there still, or came to
/// one of the stages, where it merged in the log, is there still, or was played.
pub fn each_bell_comes_to_a_stage()
    ensures { (boot : Boot) (s : State) (c l : ℕ) (pipe : Pipe) (n : Counts) → Ran boot s → 2 ≤ l → NoDevicesLine c l s.board.memory.devices →
        slice_get s.board.parts.pipes c ≡ Option.Some pipe → slice_get pipe.counts l ≡ Option.Some n →
        count_by (rings c l) s.journal + count_by (raises_otherwise c l) s.journal
        ≡ n.merged + (if has_line pipe.wire l then 1 else 0)
        + (n.oob.merged + (if has_line pipe.oob.lines l then 1 else 0) + n.oob.played)
        + (n.in_band.merged + (if has_line pipe.in_band.lines l then 1 else 0) + n.in_band.played) }
{
    claims_machine::raised_as_often_as_the_journal_says();
    claims_machine::no_line_is_lost_on_its_wire();
    claims_machine::no_line_is_lost_in_a_stage();
    claims_machine::what_is_received_comes_to_a_stage();
}

/// The sharing and the bells end, with a machine that began with a boot, an image loaded or none, and no event; each Bell
/// of the ports is in a receipt, the check of the receipts is passed, and the receipts say of each line as many Bells as
/// were taken. Then each fresh ring of a line from 2 on that is no device's, with each other event that raises the line, is
/// left in its word, merged on the wire, is there still, merged in the log of a stage, is there still, or was played. This
/// holds where no Bell was made before. If the ports were made no earlier, it holds whatever Bells were made before: then
/// each Bell of the line among the first events is counted with the fresh rings.
pub fn each_ring_comes_to_a_stage<D: Device, O: Origin, S: Ledger, B: Ledger, T: Ledger>(
    shared: Shared<D, O, S, B, T>,
    ports: Vec<Port<O, S, B, T>>,
    bells: Bells,
    ringer: Ringer,
    takers: Vec<Taker>,
) -> Option<(Finished<D, O, S, B, T>, Closed)>
    requires ringer { ringer.bells ≡ bells.id }
    requires takers { All (λ (t : TakerValue). t.bells ≡ bells.id) takers.items }
    // all ends if these are all ports and all seats
    ensures ended { length ports.items ≡ shared → ringer.weight + length takers.items ≡ whole_weight bells.cpus → IsSome result }
    ensures lines { IfSome result (λ ended. (boot : Boot) (c l : ℕ) (pipe : Pipe) (n : Counts) → O.base.bells ≡ 0
        → in_ports is_bell ports.items ≡ sum_by (λ (p : PortValue). p.share.bells) ports.items
        → PortsHold ended.0.machine ports.items (length ports.items)
        → count (taken_by takers.items) c l ≡ in_ports (rings c l) ports.items
        → Ran boot ended.0.machine → 2 ≤ l → NoDevicesLine c l ended.0.machine.board.memory.devices
        → slice_get ended.0.machine.board.parts.pipes c ≡ Option.Some pipe → slice_get pipe.counts l ≡ Option.Some n
        → count ringer.fresh c l + count_by (raises_otherwise c l) ended.0.machine.journal
        ≡ bit_at (slice_index ended.1.left c) l + n.merged + (if has_line pipe.wire l then 1 else 0)
        + (n.oob.merged + (if has_line pipe.oob.lines l then 1 else 0) + n.oob.played)
        + (n.in_band.merged + (if has_line pipe.in_band.lines l then 1 else 0) + n.in_band.played)) }
    ensures since { IfSome result (λ ended. (boot : Boot) (c l : ℕ) (pipe : Pipe) (n : Counts) → All (λ (p : PortValue). event_total O.base ≤ p.since) ports.items
        → in_ports is_bell ports.items ≡ sum_by (λ (p : PortValue). p.share.bells) ports.items
        → PortsHold ended.0.machine ports.items (length ports.items)
        → count (taken_by takers.items) c l ≡ in_ports (rings c l) ports.items
        → Ran boot ended.0.machine → 2 ≤ l → NoDevicesLine c l ended.0.machine.board.memory.devices
        → slice_get ended.0.machine.board.parts.pipes c ≡ Option.Some pipe → slice_get pipe.counts l ≡ Option.Some n
        → count ringer.fresh c l + count_by (rings c l) (events_before O.base ended.0.machine.journal) + count_by (raises_otherwise c l) ended.0.machine.journal
        ≡ bit_at (slice_index ended.1.left c) l + n.merged + (if has_line pipe.wire l then 1 else 0)
        + (n.oob.merged + (if has_line pipe.oob.lines l then 1 else 0) + n.oob.played)
        + (n.in_band.merged + (if has_line pipe.in_band.lines l then 1 else 0) + n.in_band.played)) }
{
    each_bell_comes_to_a_stage();
    let Some((done, closed)) = each_ring_is_left_or_becomes_a_bell(
        shared, ports, bells, ringer, takers,
    ) else {
        return None;
    };
    Some((done, closed))
}
