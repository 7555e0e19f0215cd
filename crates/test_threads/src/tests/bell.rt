//! A line that one thread rings twice is delivered once by another.

ghost use Rattle.std.specs.Prelude.{◌≡◌};
ghost use Rattle.std.specs.Thread.{IsSync};

use super::Played;
use super::meeting::Meeting;
use super::seats::{closed_of, three_of};
use evm_bells::{Bells, Ringer, Taker};
use evm_devs::Pins;
use evm_model::Refusal;
use evm_shared::{Origin, Port, Shared};
use std::alloc::Global;
use std::sync::Wait;
use std::sync::ledger::Ledger;
use std::thread;
use std::thread::Threads;

// Rings line 3 of processor 0 twice, and comes: which of the rings were fresh.
fn ring_twice(bells: &Bells, mut ringer: Ringer, gate: &Meeting) -> (Ringer, [bool; 2])
    requires { (ringer.bells ≡ bells.now.id) × (bells.now.cpus ≡ 3) }
    ensures { result.0.bells ≡ bells.now.id }
{
    let first = bells.ring(&mut ringer, 0, 3);
    let second = bells.ring(&mut ringer, 0, 3);
    gate.come();
    (ringer, [first, second])
}

/// A port and a taker, and what two delivers answered.
#[derive(Drop)]
struct Delivered<O: Origin, S: Ledger, B: Ledger, T: Ledger> {
    port: Port<O, S, B, T>,
    taker: Taker,
    words: [Result<u64, Refusal>; 2],
}

// Delivers the lines of processor 0 twice, once the ringer has come.
fn deliver_twice<O: Origin, S: Ledger, B: Ledger, T: Ledger, R: Wait>(
    rt: &R,
    shared: &Shared<Pins, O, S, B, T>,
    bells: &Bells,
    mut port: Port<O, S, B, T>,
    mut taker: Taker,
    gate: &Meeting,
) -> Delivered<O, S, B, T>
    requires { taker.bells ≡ bells.now.id }
    ensures { result.taker.bells ≡ bells.now.id }
{
    gate.wait_for(1);
    let first = shared.deliver(rt, &mut port, bells, &mut taker, 0);
    let second = shared.deliver(rt, &mut port, bells, &mut taker, 0);
    Delivered {
        port,
        taker,
        words: [first, second],
    }
}

/// The first ring is fresh and the second is not; the first deliver answers 8, the second 0. Then fresh is 1, taken 1, left 0.
pub(super) fn play<
    O: Origin + Send + Sync,
    S: Ledger + Send + Sync,
    B: Ledger + Send + Sync,
    T: Ledger + Send + Sync,
    R: Threads + Wait + Sync,
>(
    rt: &R,
    alloc: Global,
    shared: &Shared<Pins, O, S, B, T>,
    mut ports: Vec<Port<O, S, B, T>>,
) -> Option<Played<O, S, B, T>> {
    let port = ports.pop()?;
    let (all_bells, ringer, takers) = Bells::new(alloc, 3).ok()?;
    let bells = &all_bells;
    let (taker, second, third) = three_of(bells, takers)?;
    let meeting = Meeting::new(0, 1);
    let gate = &meeting;
    let (rung, delivered) = thread::join(
        rt,
        move || -> (Ringer, [bool; 2])
            requires { (ringer.bells ≡ bells.now.id) × (bells.now.cpus ≡ 3) }
            ensures { result.0.bells ≡ bells.entry.now.id }
        { ring_twice(bells, ringer, gate) },
        move || -> Delivered<O, S, B, T>
            requires { IsSync R.row × (taker.bells ≡ bells.now.id) }
            ensures { result.taker.bells ≡ bells.entry.now.id }
        { deliver_twice(rt, shared, bells, port, taker, gate) },
    );
    let (ringer, fresh) = rung;
    let Delivered { port, taker, words } = delivered;
    ports.push(port).ok()?;
    let answered = fresh == [true, false] && words == [Ok(8), Ok(0)];
    let closed = closed_of(alloc, all_bells, ringer, (taker, second, third))?;
    Some(Played {
        ports,
        right: answered
            && !meeting.was_missed()
            && closed.fresh.get(0, 3) == 1
            && closed.left == [0; 8],
        bells: closed.taken.get(0, 3),
    })
}
