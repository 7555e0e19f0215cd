//! Each call under the lock is answered by the machine that all calls before it have made.
ghost use Rattle.std.specs.Prelude.{◌≡◌, ◌+◌, ◌<◌, ◌≤◌, ◌∷◌, ◌++◌, [], List, None, IfErr, IfOk, MatchBool, length, ◌==◌};
ghost use mathlib.Core.List.{IsPrefix};
ghost use Rattle.evm_core.specs.Steps.{steps};
ghost use Rattle.evm_lines.specs.declared.TheConstants.{LINES};
ghost use Rattle.evm_model.specs.Replay.{replay};
ghost use Rattle.evm_model.specs.State.{State};
ghost use Rattle.evm_model.specs.declared.event.Event.TheVariants as event;
ghost use Rattle.evm_model.specs.declared.refusal.Refusal.TheVariants as why;
ghost use Rattle.evm_shared.specs.Histories.{log_events};
ghost use Rattle.evm_shared.specs.declared.receipt.Made.{Made as MadeValue};
ghost use Rattle.evm_shared.specs.declared.receipt.Made.TheVariants as made;

use evm_bells::{Bells, Taker};
use evm_core::{Answer, Burst, Committed, Refusal};
use evm_dev::Device;
use evm_shared::{Origin, Port, Shared};
use std::sync::Wait;
use std::sync::ledger::Ledger;

/// A commit. The port then has seen all calls so far, which go on from those that it had seen; the last of them is the commit
/// itself if it was accepted, by a machine which those before it have made, and which accepts all its Steps. It is refused as
/// Full only if that machine's journal is full.
pub fn a_commit_is_answered_by_all_calls_before_it<
    D: Device,
    O: Origin,
    S: Ledger,
    B: Ledger,
    T: Ledger,
    R: Wait,
>(
    rt: &R,
    shared: &Shared<D, O, S, B, T>,
    port: &mut Port<O, S, B, T>,
    cpu: u8,
    burst: &Burst,
) -> Result<Committed, Refusal>
    ensures seen { IsPrefix port.old.log port.new.log }
    ensures made { IfOk result (λ done. (log : List MadeValue) × (after : State) × IsPrefix port.old.log log × (port.new.log ≡ log ++ made.Steps cpu done.steps ∷ [])
        × (steps cpu done.steps (replay O.machine (log_events log)) ≡ (after, None))) }
    ensures full { IfErr result (λ refusal. refusal ≡ why.Full → O.machine.boot.capacity ≤ length O.machine.journal + length (log_events port.new.log)) }
{
    shared.commit(rt, port, cpu, burst)
}

/// Likewise a deliver, which is the last call if it has taken a line. It is refused as Full only if the journal has room for
/// fewer events than there are lines.
pub fn a_deliver_is_answered_by_all_calls_before_it<
    D: Device,
    O: Origin,
    S: Ledger,
    B: Ledger,
    T: Ledger,
    R: Wait,
>(
    rt: &R,
    shared: &Shared<D, O, S, B, T>,
    port: &mut Port<O, S, B, T>,
    bells: &Bells,
    taker: &mut Taker,
    cpu: u8,
) -> Result<u64, Refusal>
    requires { taker.old.bells ≡ bells.now.id }
    ensures seen { IsPrefix port.old.log port.new.log }
    ensures made { IfOk result (λ word. (log : List MadeValue) × IsPrefix port.old.log log × MatchBool (word == 0) (port.new.log ≡ log) (port.new.log ≡ log ++ made.Bells cpu word ∷ [])) }
    ensures full { IfErr result (λ refusal. refusal ≡ why.Full → O.machine.boot.capacity < length O.machine.journal + length (log_events port.new.log) + LINES) }
{
    shared.deliver(rt, port, bells, taker, cpu)
}

/// Likewise a tick.
pub fn a_tick_is_answered_by_all_calls_before_it<
    D: Device,
    O: Origin,
    S: Ledger,
    B: Ledger,
    T: Ledger,
    R: Wait,
>(rt: &R, shared: &Shared<D, O, S, B, T>, port: &mut Port<O, S, B, T>) -> Result<Answer, Refusal>
    ensures seen { IsPrefix port.old.log port.new.log }
    ensures made { IfOk result (λ answer. (log : List MadeValue) × IsPrefix port.old.log log × (port.new.log ≡ log ++ made.One event.Tick ∷ [])) }
    ensures full { IfErr result (λ refusal. O.machine.boot.capacity ≤ length O.machine.journal + length (log_events port.new.log)) }
{
    shared.tick(rt, port)
}
