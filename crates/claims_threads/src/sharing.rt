//! Whichever host threads make the events, the machine is what its journal says.
ghost use Rattle.std.specs.Prelude.{◌≡◌, ◌+◌, ◌++◌, List, All, count_by, length, sum_by, IfSome, IsSome};
ghost use mathlib.Core.List.{IsPrefix};
ghost use Rattle.evm_model.specs.Kinds.{AStep, ABell, Another, is_same_kind, kind_of};
ghost use Rattle.evm_model.specs.Replay.{replay};
ghost use Rattle.evm_shared.specs.EventCounts.{BeginsWith};
ghost use Rattle.evm_shared.specs.Histories.{log_events};
ghost use Rattle.evm_shared.specs.Ports.{PortValue};
ghost use Rattle.evm_shared.specs.declared.receipt.Made.{Made as MadeValue};

use evm_dev::Device;
use evm_shared::{Finished, Origin, Port, Shared};
use std::sync::ledger::Ledger;

/// A machine came under a lock, and events were made through its ports, by whichever threads, one after another or at
/// once. If the sharing ends with these ports, the machine is its journal's replay from the state that it began with, and
/// its journal has as many Steps, Bells and other events as it had then and as were made through the ports.
pub fn the_machine_under_the_lock_is_its_journals_replay<
    D: Device,
    O: Origin,
    S: Ledger,
    B: Ledger,
    T: Ledger,
>(shared: Shared<D, O, S, B, T>, ports: Vec<Port<O, S, B, T>>) -> Option<Finished<D, O, S, B, T>>
    // it ends if these are all ports
    ensures ended { length ports.items ≡ shared → IsSome result }
    ensures replayed { IfSome result (λ done. replay O.start done.machine.journal ≡ done.machine) }
    ensures ports { IfSome result (λ done. done.ports.items ≡ ports.items) }
    // the events that it had are the first ones
    ensures begins { IfSome result (λ done. BeginsWith O.base done.machine.journal) }
    // it is what the events of some calls have made of the machine that came under the lock, and its journal has them behind the
    // first ones; these calls, and those that each port has seen, are beginnings of one history
    ensures history { IfSome result (λ done. (log : List MadeValue) × (all : List MadeValue) × (replay O.machine (log_events log) ≡ done.machine)
        × (done.machine.journal ≡ O.machine.journal ++ log_events log) × IsPrefix log all × All (λ (p : PortValue). IsPrefix p.log all) ports.items) }
    ensures steps { IfSome result (λ done. count_by (λ event. is_same_kind (kind_of event) AStep) done.machine.journal ≡ O.base.steps + sum_by (λ (p : PortValue). p.share.steps) ports.items) }
    ensures bells { IfSome result (λ done. count_by (λ event. is_same_kind (kind_of event) ABell) done.machine.journal ≡ O.base.bells + sum_by (λ (p : PortValue). p.share.bells) ports.items) }
    ensures others { IfSome result (λ done. count_by (λ event. is_same_kind (kind_of event) Another) done.machine.journal ≡ O.base.others + sum_by (λ (p : PortValue). p.share.others) ports.items) }
{
    match shared.finish(ports) {
        Ok(done) => Some(done),
        Err(_) => None,
    }
}
