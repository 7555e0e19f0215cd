//! Commits of bursts that were done ahead, through a port: what is changed between the one and the other is seen.

ghost use Rattle.std.specs.Prelude.{◌≡◌};
ghost use Rattle.evm_model.specs.Replay.{IsReplayOf};
ghost use Rattle.evm_shared.specs.EventCounts.{kind_counts};

use super::{blanks, check_one, empty_burst, has_receipts, machine};
use arrayvec::ArrayVec;
use evm_burst::{Cache, speculate};
use evm_core::{Committed, Machine};
use evm_devs::Pins;
use evm_exec::{Burst, Hart};
use evm_model::{Answer, Block, Event};
use evm_ram::BASE;
use evm_shared::{Blanks, Finished, Made, Origin, Port, Receipt, Shared};
use std::alloc::Global;
use std::marker::Brand;
use std::sync::Wait;
use std::sync::ledger::Ledger;
use std::test::Fail;

// `j .`: jal x0, 0.
fn jump() -> Event {
    let mut bytes: Block = ArrayVec::new();
    for byte in 0x0000_006fu32.to_le_bytes() {
        let _ = bytes.try_push(byte);
    }
    Event::Poke(BASE, bytes)
}

// Notes the code after a commit, and does ahead what follows.
fn ahead(cache: &mut Cache, done: &Committed) -> Burst {
    let Some(hart) = done.next else {
        return Burst::empty(Hart::default());
    };
    cache.note(hart.pc, done.code.as_slice());
    speculate(&hart, cache)
}

// Whether a commit made so many Steps, the last of which has this answer, and left the pc at the first instruction.
fn made(done: &Committed, steps: u32, answer: Answer) -> bool {
    let Some(hart) = done.next else {
        return false;
    };
    done.steps == steps && done.answer == answer && hart.pc == BASE
}

fn receipt(position: u64, made: Made) -> Receipt {
    Receipt { position, made }
}

// A loop: a Step, then a burst of 64 and a Step. A breakpoint that is set behind the next burst is hit, and after Go passed.
fn breaks_a_burst<O: Origin, S: Ledger, B: Ledger, T: Ledger, R: Wait>(
    rt: &R,
    shared: &Shared<Pins, O, S, B, T>,
    port: &mut Port<O, S, B, T>,
    mut cache: Cache,
) -> Option<bool> {
    let poked = shared.command(rt, port, &jump());
    let first = shared.commit(rt, port, 0, &empty_burst()).ok()?;
    let burst = ahead(&mut cache, &first);
    let second = shared.commit(rt, port, 0, &burst).ok()?;
    let burst = ahead(&mut cache, &second);
    let broken = shared.command(rt, port, &Event::Break(BASE));
    let third = shared.commit(rt, port, 0, &burst).ok()?;
    let gone = shared.command(rt, port, &Event::Go(0));
    let fourth = shared.commit(rt, port, 0, &burst).ok()?;
    Some(
        poked == Ok(Answer::Done)
            && made(&first, 1, Answer::Ran(0))
            && made(&second, 65, Answer::Ran(0))
            && broken == Ok(Answer::Done)
            && made(&third, 1, Answer::Hit)
            && gone == Ok(Answer::Done)
            && made(&fourth, 1, Answer::Ran(0)),
    )
}

// Its receipts: positions grow by the Steps that were made.
fn has_its_receipts<O: Origin, S: Ledger, B: Ledger, T: Ledger>(port: &Port<O, S, B, T>) -> bool {
    let wanted = [
        receipt(0, Made::One(jump())),
        receipt(1, Made::Steps(0, 1)),
        receipt(2, Made::Steps(0, 65)),
        receipt(67, Made::One(Event::Break(BASE))),
        receipt(68, Made::Steps(0, 1)),
        receipt(69, Made::One(Event::Go(0))),
        receipt(70, Made::Steps(0, 1)),
    ];
    has_receipts(port, &wanted)
}

fn breaks_a_burst_of<O: Origin, S: Ledger, B: Ledger, T: Ledger, R: Wait>(
    rt: &R,
    alloc: Global,
    machine: Machine<Pins>,
    blanks: Blanks,
) -> Option<bool>
    requires replays { IsReplayOf O.start machine }
    requires base { kind_counts machine.journal ≡ O.base }
    requires machine { machine ≡ O.machine }
    requires history { blanks.history ≡ O.book }
    requires steps { (blanks.steps.name ≡ S.name) × (blanks.steps.parts ≡ S.parts) × (S.parts ≡ 1) }
    requires bells { (blanks.bells.name ≡ B.name) × (blanks.bells.parts ≡ B.parts) × (B.parts ≡ 1) }
    requires others { (blanks.others.name ≡ T.name) × (blanks.others.parts ≡ T.parts) × (T.parts ≡ 1) }
{
    let (shared, mut ports) = Shared::<Pins, O, S, B, T>::new(alloc, machine, 1, 8, blanks).ok()?;
    let mut port = ports.pop()?;
    let cache = Cache::new(alloc).ok()?;
    let right = breaks_a_burst(rt, &shared, &mut port, cache)?;
    let recorded = has_its_receipts(&port);
    ports.push(port).ok()?;
    let Finished {
        machine,
        ports,
        totals,
    } = shared.finish(ports).ok()?;
    let checked = check_one(&machine, ports.get(0)?) == Ok(());
    Some(right && recorded && checked && totals.steps == 68)
}

#[test]
fn a_burst_meets_a_breakpoint(rt: HostRuntime) -> Result<(), Fail> {
    let Some(machine) = machine(rt.alloc(), 1, 4096) else {
        return Err(Fail::from("no machine"));
    };
    let right = breaks_a_burst_of::<Brand, Brand, Brand, Brand, HostRuntime>(
        &rt,
        rt.alloc(),
        machine,
        blanks(1),
    );
    assert_eq!(rt; right, Some(true));
    Ok(())
}
