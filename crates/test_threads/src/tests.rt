//! Plays of threads on a machine in an endless loop, which they share by three ports. Each is played once more from its journal.

ghost use Rattle.std.specs.Prelude.{◌≡◌};
ghost use Rattle.evm_model.specs.Replay.{IsReplayOf};
ghost use Rattle.evm_shared.specs.EventCounts.{kind_counts};

mod bell;
mod giving;
mod journals;
mod machines;
mod meeting;
mod rings;
mod seats;
mod workers;

use self::machines::{leads_there, looping};
use evm_core::Machine;
use evm_devs::Pins;
use evm_ram::BASE;
use evm_shared::{
    BlankHistory, Blanks, EventCounts, Finished, Origin, Port, Shared, check_receipts,
};
use std::alloc::Global;
use std::marker::Brand;
use std::process::Abort;
use std::sync::Wait;
use std::sync::ledger::{Blank, Ledger};
use std::test::Fail;
use std::thread::Threads;

/// How many events the machines have room for.
const CAPACITY: u64 = 16_384;

/// Which play.
#[derive(Clone, Copy)]
enum Play {
    ThousandRings,
    TwoTakers,
    OneLine,
    TenTurns,
    Breakpoint,
}

/// All ports, whether each call answered what it must, and how many Bells were delivered.
#[derive(Drop)]
struct Played<O: Origin, S: Ledger, B: Ledger, T: Ledger> {
    ports: Vec<Port<O, S, B, T>>,
    right: bool,
    bells: u64,
}

/// What came of a play.
#[derive(Drop)]
struct Outcome {
    /// Each call answered what it must, the receipts and marks are true, and the journal has the Bells that were delivered.
    right: bool,
    totals: EventCounts,
    /// How many receipts each port has.
    receipts: [usize; 3],
    machine: Machine<Pins>,
}

// Ledgers of three parts, one for each port.
fn blanks() -> Blanks
    ensures { (result.steps.parts ≡ 3) × (result.bells.parts ≡ 3) × (result.others.parts ≡ 3) }
{
    Blanks {
        steps: Blank::new(3),
        bells: Blank::new(3),
        others: Blank::new(3),
        history: BlankHistory::new(),
    }
}

// Whether the receipts and marks of three ports are true.
fn are_true<O: Origin, S: Ledger, B: Ledger, T: Ledger>(
    machine: &Machine<Pins>,
    first: &Port<O, S, B, T>,
    second: &Port<O, S, B, T>,
    third: &Port<O, S, B, T>,
) -> bool {
    check_receipts(machine, &[first, second, third]) == Ok(())
}

// What a machine that is no longer shared shows.
fn seen<O: Origin, S: Ledger, B: Ledger, T: Ledger>(
    finished: Finished<Pins, O, S, B, T>,
    right: bool,
    bells: u64,
) -> Option<Outcome> {
    let Finished {
        machine,
        ports,
        totals,
    } = finished;
    let (first, second, third) = (ports.get(0)?, ports.get(1)?, ports.get(2)?);
    let checked = are_true(&machine, first, second, third);
    let receipts = [
        first.receipts().len(),
        second.receipts().len(),
        third.receipts().len(),
    ];
    Some(Outcome {
        right: right && checked && totals.bells == bells,
        totals,
        receipts,
        machine,
    })
}

// A play on a machine that is shared.
fn play_on<
    O: Origin + Send + Sync,
    S: Ledger + Send + Sync,
    B: Ledger + Send + Sync,
    T: Ledger + Send + Sync,
    R: Threads + Wait + Sync,
>(rt: &R, alloc: Global, machine: Machine<Pins>, blanks: Blanks, which: Play) -> Option<Outcome>
    requires replays { IsReplayOf O.start machine }
    requires base { kind_counts machine.journal ≡ O.base }
    requires machine { machine ≡ O.machine }
    requires history { blanks.history ≡ O.book }
    requires steps { (blanks.steps.name ≡ S.name) × (blanks.steps.parts ≡ S.parts) × (S.parts ≡ 3) }
    requires bells { (blanks.bells.name ≡ B.name) × (blanks.bells.parts ≡ B.parts) × (B.parts ≡ 3) }
    requires others { (blanks.others.name ≡ T.name) × (blanks.others.parts ≡ T.parts) × (T.parts ≡ 3) }
{
    let (shared, ports) = Shared::<Pins, O, S, B, T>::new(alloc, machine, 3, 256, blanks).ok()?;
    let Played {
        ports,
        right,
        bells,
    } = match which {
        Play::ThousandRings => rings::play(rt, alloc, &shared, ports, 1)?,
        Play::TwoTakers => rings::play(rt, alloc, &shared, ports, 0)?,
        Play::OneLine => bell::play(rt, alloc, &shared, ports)?,
        Play::TenTurns => workers::play(rt, alloc, &shared, ports, false)?,
        Play::Breakpoint => workers::play(rt, alloc, &shared, ports, true)?,
    };
    seen(shared.finish(ports).ok()?, right, bells)
}

// A play on a machine of `cpus` processors.
fn outcome_of<R: Threads + Wait + Sync>(
    rt: &R,
    alloc: Global,
    cpus: u64,
    which: Play,
) -> Result<Outcome, Fail> {
    let Some(machine) = looping(alloc, cpus, CAPACITY) else {
        return Err(Fail::from("no machine"));
    };
    match play_on::<Brand, Brand, Brand, Brand, R>(rt, alloc, machine, blanks(), which) {
        Some(outcome) => Ok(outcome),
        None => Err(Fail::from("the play has no end")),
    }
}

// Each worker makes a Step in each turn at least.
fn thousand_rings(rt: &impl Abort, outcome: &Outcome) {
    assert!(rt; 200 <= outcome.totals.steps);
}

fn one_line(rt: &impl Abort, outcome: &Outcome) {
    assert_eq!(rt; outcome.totals.bells, 1);
}

// The first turn of processor 0 knows no hart and makes one Step; each of the nine others makes 64 and one.
fn ten_turns(rt: &impl Abort, outcome: &Outcome) {
    assert_eq!(rt; outcome.totals.steps, 596);
    assert_eq!(rt; outcome.receipts, [10, 10, 0]);
}

// Processor 0 makes a Step, three times 65, one that hits, and five while it is stopped; processor 1 makes ten.
fn breakpoint(rt: &impl Abort, outcome: &Outcome) {
    assert_eq!(rt; outcome.totals.steps, 212);
    assert_eq!(rt; outcome.machine.event_count(), 213);
    assert_eq!(rt; outcome.machine.cpu(0).map(|cpu| cpu.stopped), Some(true));
    assert_eq!(rt; outcome.machine.hart(0).map(|hart| hart.pc), Some(BASE));
}

fn check_outcome(rt: &(impl Abort + AllocGlobal), which: Play, outcome: &mut Outcome) {
    assert!(rt; outcome.right);
    match which {
        Play::ThousandRings | Play::TwoTakers => thousand_rings(rt, outcome),
        Play::OneLine => one_line(rt, outcome),
        Play::TenTurns => ten_turns(rt, outcome),
        Play::Breakpoint => breakpoint(rt, outcome),
    }
    assert_eq!(rt; leads_there(rt.alloc(), &mut outcome.machine), Some(true));
}

// A play whose outcome is as it must be.
fn try_play<R: Threads + Wait + Sync + Abort + AllocGlobal>(
    rt: &R,
    cpus: u64,
    which: Play,
) -> Result<(), Fail> {
    let mut outcome = outcome_of(rt, rt.alloc(), cpus, which)?;
    check_outcome(rt, which, &mut outcome);
    Ok(())
}

#[test]
fn a_thousand_rings(rt: HostRuntime) -> Result<(), Fail> {
    try_play(&rt, 2, Play::ThousandRings)
}

// Both workers deliver the lines of processor 0, by a taker each.
#[test]
fn two_takers(rt: HostRuntime) -> Result<(), Fail> {
    try_play(&rt, 1, Play::TwoTakers)
}

#[test]
fn a_line_rung_twice_is_delivered_once(rt: HostRuntime) -> Result<(), Fail> {
    try_play(&rt, 1, Play::OneLine)
}

#[test]
fn two_workers_make_586_and_10_steps(rt: HostRuntime) -> Result<(), Fail> {
    try_play(&rt, 2, Play::TenTurns)
}

#[test]
fn a_breakpoint_stops_a_worker(rt: HostRuntime) -> Result<(), Fail> {
    try_play(&rt, 2, Play::Breakpoint)
}

// The second time there is memory for what the first lacked it for.
#[test]
fn gives_back(rt: HostRuntime) {
    let right = match giving::gives_back(&rt, rt.alloc()) {
        None => giving::gives_back(&rt, rt.alloc()),
        right => right,
    };
    assert_eq!(rt; right, Some(true));
}
