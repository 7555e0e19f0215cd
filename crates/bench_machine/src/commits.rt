//! Commits of one Step by several threads through the lock, ticks and commands, and Steps without one.

ghost use Rattle.std.specs.Prelude.{◌≡◌, IfSome};
ghost use Rattle.evm_model.specs.Replay.{IsReplayOf};
ghost use Rattle.evm_shared.specs.EventCounts.{kind_counts};

use evm_core::{Burst, Committed, Event, Machine};
use evm_devs::Pins;
use evm_elf::{read_image, write_bytes};
use evm_exec::Hart;
use evm_shared::{BlankHistory, Blanks, Origin, Port, Shared};
use std::alloc::Global;
use std::marker::Brand;
use std::sync::Wait;
use std::sync::ledger::{Blank, Ledger};
use std::thread;
use std::thread::Threads;

/// The largest journal.
pub(crate) const CAPACITY: u32 = 1_048_576;

/// The line that commands raise, and that is rung.
pub(crate) const LINE: u8 = 8;

/// `j .`: jal x0, 0.
const LOOP: [u8; 4] = [0x6f, 0, 0, 0];

// One processor in an endless loop.
pub(crate) fn looping(alloc: Global) -> Option<Machine<Pins>>
    ensures { IfSome result (λ m. IsReplayOf m m) }
{
    let file = write_bytes(alloc, &LOOP).ok()?;
    let image = read_image(alloc, file.as_slice()).ok()?;
    let mut machine = Machine::boot(alloc, 1, 65_536, CAPACITY).ok()?;
    machine.load(&image).ok()?;
    Some(machine)
}

/// Ledgers of a part for each port.
pub(crate) fn blanks(ports: u8) -> Blanks
    ensures { (result.steps.parts ≡ ports) × (result.bells.parts ≡ ports) × (result.others.parts ≡ ports) }
{
    Blanks {
        steps: Blank::new(u64::from(ports)),
        bells: Blank::new(u64::from(ports)),
        others: Blank::new(u64::from(ports)),
        history: BlankHistory::new(),
    }
}

/// Commits of one Step each through a port, up to the first that is refused.
pub(crate) fn commit_many<O: Origin, S: Ledger, B: Ledger, T: Ledger, R: Wait>(
    rt: &R,
    shared: &Shared<Pins, O, S, B, T>,
    port: &mut Port<O, S, B, T>,
    count: u32,
) {
    let burst = Burst::empty(Hart::default());
    let mut done = Committed::none();
    for _ in 0..count {
        if shared.commit_into(rt, port, 0, &burst, &mut done).is_err() {
            return;
        }
    }
}

// By as many threads as ports: how many Steps the journal has got.
fn commit_by<
    O: Origin + Send + Sync,
    S: Ledger + Send + Sync,
    B: Ledger + Send + Sync,
    T: Ledger + Send + Sync,
    R: Threads + Wait + Sync,
>(
    rt: &R,
    alloc: Global,
    machine: Machine<Pins>,
    blanks: Blanks,
    ports: u8,
    each: u32,
) -> Option<u64>
    requires replays { IsReplayOf O.start machine }
    requires base { kind_counts machine.journal ≡ O.base }
    requires machine { machine ≡ O.machine }
    requires history { blanks.history ≡ O.book }
    requires steps { (blanks.steps.name ≡ S.name) × (blanks.steps.parts ≡ S.parts) × (S.parts ≡ ports) }
    requires bells { (blanks.bells.name ≡ B.name) × (blanks.bells.parts ≡ B.parts) × (B.parts ≡ ports) }
    requires others { (blanks.others.name ≡ T.name) × (blanks.others.parts ≡ T.parts) × (T.parts ≡ ports) }
{
    let (shared, mut made) = Shared::<Pins, O, S, B, T>::new(
        alloc, machine, ports, 0, blanks,
    ).ok()?;
    let places = made.len();
    if places == 0 {
        return None;
    }
    thread::for_each_mut(
        rt,
        made.as_mut_slice(),
        places,
        &|_, port: &mut Port<O, S, B, T>| { commit_many(rt, &shared, port, each) },
    );
    let done = shared.finish(made).ok()?;
    Some(done.totals.steps)
}

/// Commits by some threads, a number in all: how many Steps were made.
pub fn commit<R: Threads + Wait + Sync>(
    rt: &R,
    alloc: Global,
    threads: u8,
    count: u32,
) -> Option<u32> {
    let each = count.checked_div(u32::from(threads))?;
    let machine = looping(alloc)?;
    let steps = commit_by::<Brand, Brand, Brand, Brand, R>(
        rt,
        alloc,
        machine,
        blanks(threads),
        threads,
        each,
    )?;
    u32::try_from(steps).ok()
}

// Ticks and commands in turn through a port, up to the first that is refused: how many were made.
fn make_events<O: Origin, S: Ledger, B: Ledger, T: Ledger, R: Wait>(
    rt: &R,
    shared: &Shared<Pins, O, S, B, T>,
    port: &mut Port<O, S, B, T>,
    count: u32,
) -> u32 {
    let raise = Event::Raise(0, LINE);
    for made in 0..count {
        let answer = if made % 2 == 0 {
            shared.tick(rt, port)
        } else {
            shared.command(rt, port, &raise)
        };
        if answer.is_err() {
            return made;
        }
    }
    count
}

fn events_by<O: Origin, S: Ledger, B: Ledger, T: Ledger, R: Wait>(
    rt: &R,
    alloc: Global,
    machine: Machine<Pins>,
    blanks: Blanks,
    count: u32,
) -> Option<u32>
    requires replays { IsReplayOf O.start machine }
    requires base { kind_counts machine.journal ≡ O.base }
    requires machine { machine ≡ O.machine }
    requires history { blanks.history ≡ O.book }
    requires steps { (blanks.steps.name ≡ S.name) × (blanks.steps.parts ≡ S.parts) × (S.parts ≡ 1) }
    requires bells { (blanks.bells.name ≡ B.name) × (blanks.bells.parts ≡ B.parts) × (B.parts ≡ 1) }
    requires others { (blanks.others.name ≡ T.name) × (blanks.others.parts ≡ T.parts) × (T.parts ≡ 1) }
{
    let (shared, mut ports) = Shared::<Pins, O, S, B, T>::new(alloc, machine, 1, 0, blanks).ok()?;
    let mut port = ports.pop()?;
    Some(make_events(rt, &shared, &mut port, count))
}

/// Ticks and commands by one thread: how many were made.
pub fn events<R: Wait>(rt: &R, alloc: Global, count: u32) -> Option<u32> {
    let machine = looping(alloc)?;
    events_by::<Brand, Brand, Brand, Brand, R>(rt, alloc, machine, blanks(1), count)
}

/// Steps of a machine that nobody shares: how many were made.
pub fn step(alloc: Global, count: u32) -> Option<u32> {
    let mut machine = looping(alloc)?;
    for made in 0..count {
        if machine.apply(Event::Step(0)).is_err() {
            return Some(made);
        }
    }
    Some(count)
}
