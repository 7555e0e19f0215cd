//! A line that is rung and delivered under the lock.

ghost use Rattle.std.specs.Prelude.{◌≡◌, ◌<◌};
ghost use Rattle.evm_model.specs.Replay.{IsReplayOf};
ghost use Rattle.evm_shared.specs.EventCounts.{kind_counts};

use crate::commits::{LINE, blanks, looping};
use evm_bells::{Bells, Ringer, Taker};
use evm_core::Machine;
use evm_devs::Pins;
use evm_shared::{Blanks, Origin, Port, Shared};
use std::alloc::Global;
use std::marker::Brand;
use std::sync::Wait;
use std::sync::ledger::Ledger;

/// How many receipts the port has room for.
const RECEIPTS: u32 = 256;

// Rings the line of processor 0 and delivers it, up to the first deliver that brings another word: how often.
fn deliver_many<O: Origin, S: Ledger, B: Ledger, T: Ledger, R: Wait>(
    rt: &R,
    shared: &Shared<Pins, O, S, B, T>,
    port: &mut Port<O, S, B, T>,
    bells: &Bells,
    mut ringer: Ringer,
    mut taker: Taker,
    count: u32,
) -> u32
    requires ringer { (ringer.bells ≡ bells.now.id) × (0 < bells.now.cpus) }
    requires taker { taker.bells ≡ bells.now.id }
{
    for made in 0..count {
        bells.ring(&mut ringer, 0, LINE);
        if shared.deliver(rt, port, bells, &mut taker, 0) != Ok(1 << LINE) {
            return made;
        }
    }
    count
}

fn deliver_by<O: Origin, S: Ledger, B: Ledger, T: Ledger, R: Wait>(
    rt: &R,
    alloc: Global,
    machine: Machine<Pins>,
    blanks: Blanks,
    count: u32,
) -> Option<u32>
    requires replays { IsReplayOf O.start machine }
    requires base { kind_counts machine.journal ≡ O.base }
    requires machine { machine ≡ O.machine }
    requires history { blanks.history ≡ O.book }
    requires steps { (blanks.steps.name ≡ S.name) × (blanks.steps.parts ≡ S.parts) × (S.parts ≡ 1) }
    requires bells { (blanks.bells.name ≡ B.name) × (blanks.bells.parts ≡ B.parts) × (B.parts ≡ 1) }
    requires others { (blanks.others.name ≡ T.name) × (blanks.others.parts ≡ T.parts) × (T.parts ≡ 1) }
{
    let (shared, mut ports) = Shared::<Pins, O, S, B, T>::new(
        alloc, machine, 1, RECEIPTS, blanks,
    ).ok()?;
    let mut port = ports.pop()?;
    let Ok((bells, ringer, mut takers)) = Bells::new(alloc, 1) else {
        return None;
    };
    let Some(taker) = takers.pop() else {
        return None;
    };
    Some(deliver_many(rt, &shared, &mut port, &bells, ringer, taker, count))
}

/// Rings and delivers by one thread: how many were made.
pub fn deliver<R: Wait>(rt: &R, alloc: Global, count: u32) -> Option<u32> {
    let machine = looping(alloc)?;
    deliver_by::<Brand, Brand, Brand, Brand, R>(rt, alloc, machine, blanks(1), count)
}
