//! Calls through a port. Positions and answers are worked by hand.

ghost use Rattle.std.specs.Prelude.{◌≡◌, IfSome};
ghost use Rattle.evm_model.specs.Replay.{IsReplayOf};
ghost use Rattle.evm_shared.specs.EventCounts.{kind_counts};

mod bursts;

use evm_bells::Bells;
use evm_core::Machine;
use evm_devs::Pins;
use evm_exec::{Burst, Hart, REGISTER_COUNT};
use evm_model::{Answer, Event, PROFILE_LIMIT, Refusal};
use evm_ram::BASE;
use evm_shared::{
    BlankHistory, Blanks, Finished, Made, Mismatch, Origin, Port, Receipt, Refused, Shared,
    Unfinished, check_receipts,
};
use std::alloc::Global;
use std::marker::Brand;
use std::sync::Wait;
use std::sync::ledger::{Blank, Ledger};
use std::test::Fail;

// A machine of the newest profile with one device, and with no event.
fn machine(alloc: Global, cpus: u8, capacity: u32) -> Option<Machine<Pins>>
    ensures { IfSome result (λ m. IsReplayOf m m) }
{
    machine_as(alloc, PROFILE_LIMIT, cpus, capacity)
}

// Likewise of a profile, 1 to 3.
fn machine_as(alloc: Global, profile: u8, cpus: u8, capacity: u32) -> Option<Machine<Pins>>
    ensures { IfSome result (λ m. IsReplayOf m m) }
{
    let Ok(mut machine) = Machine::boot_as(alloc, profile, 0, cpus, 65536, capacity) else {
        return None;
    };
    match machine.attach(Pins::new()) {
        Ok(_) => Some(machine),
        Err(_) => None,
    }
}

// Ledgers of `parts` parts.
fn blanks(parts: u64) -> Blanks
    ensures { (result.steps.parts ≡ parts) × (result.bells.parts ≡ parts) × (result.others.parts ≡ parts) }
{
    Blanks {
        steps: Blank::new(parts),
        bells: Blank::new(parts),
        others: Blank::new(parts),
        history: BlankHistory::new(),
    }
}

fn empty_burst() -> Burst {
    Burst::empty(Hart {
        regs: [0; REGISTER_COUNT],
        pc: 0,
    })
}

// Whether a port has just these receipts.
fn has_receipts<O: Origin, S: Ledger, B: Ledger, T: Ledger>(
    port: &Port<O, S, B, T>,
    wanted: &[Receipt],
) -> bool {
    if port.receipts().len() != wanted.len() {
        return false;
    }
    for i in 0..wanted.len() {
        if port.receipts().get(i) != wanted.get(i) {
            return false;
        }
    }
    true
}

fn check_one<O: Origin, S: Ledger, B: Ledger, T: Ledger>(
    machine: &Machine<Pins>,
    port: &Port<O, S, B, T>,
) -> Result<(), Mismatch> {
    check_receipts(machine, &[port])
}

fn check_two<O: Origin, S: Ledger, B: Ledger, T: Ledger>(
    machine: &Machine<Pins>,
    first: &Port<O, S, B, T>,
    second: &Port<O, S, B, T>,
) -> Result<(), Mismatch> {
    check_receipts(machine, &[first, second])
}

// A breakpoint at the first instruction: a commit hits it. A deliver names a processor that is not there.
fn hits_a_breakpoint<O: Origin, S: Ledger, B: Ledger, T: Ledger, R: Wait>(
    rt: &R,
    alloc: Global,
    machine: Machine<Pins>,
    blanks: Blanks,
) -> Option<bool>
    requires replays { IsReplayOf O.start machine }
    requires base { kind_counts machine.journal ≡ O.base }
    requires machine { machine ≡ O.machine }
    requires history { blanks.history ≡ O.book }
    requires steps { (blanks.steps.name ≡ S.name) × (blanks.steps.parts ≡ S.parts) × (S.parts ≡ 1) }
    requires bells { (blanks.bells.name ≡ B.name) × (blanks.bells.parts ≡ B.parts) × (B.parts ≡ 1) }
    requires others { (blanks.others.name ≡ T.name) × (blanks.others.parts ≡ T.parts) × (T.parts ≡ 1) }
{
    let (shared, mut ports) = Shared::<Pins, O, S, B, T>::new(alloc, machine, 1, 8, blanks).ok()?;
    let Ok((bells, _ringer, mut takers)) = Bells::new(alloc, 8) else {
        return None;
    };
    let Some(mut taker) = takers.pop() else {
        return None;
    };
    let mut port = ports.pop()?;
    let broken = shared.command(rt, &mut port, &Event::Break(BASE));
    let done = shared.commit(rt, &mut port, 0, &empty_burst()).ok()?;
    let absent = shared.deliver(rt, &mut port, &bells, &mut taker, 8);
    let wanted = [
        Receipt {
            position: 0,
            made: Made::One(Event::Break(BASE)),
        },
        Receipt {
            position: 1,
            made: Made::Steps(0, 1),
        },
    ];
    let right = has_receipts(&port, &wanted)
        && broken == Ok(Answer::Done)
        && done.steps == 1
        && done.answer == Answer::Hit
        && absent == Err(Refusal::NoSuchCpu);
    ports.push(port).ok()?;
    let Finished { machine, ports, .. } = shared.finish(ports).ok()?;
    let first = ports.get(0)?;
    let checked = check_one(&machine, first) == Ok(());
    let twice = check_two(&machine, first, first) == Err(Mismatch { port: 1, index: 0 });
    Some(right && checked && twice)
}

#[test]
fn a_commit_hits_a_breakpoint(rt: HostRuntime) -> Result<(), Fail> {
    let Some(machine) = machine(rt.alloc(), 1, 4096) else {
        return Err(Fail::from("no machine"));
    };
    let right = hits_a_breakpoint::<Brand, Brand, Brand, Brand, HostRuntime>(
        &rt,
        rt.alloc(),
        machine,
        blanks(1),
    );
    assert_eq!(rt; right, Some(true));
    Ok(())
}

// A machine that is not shared comes back, and takes an event: why it is not.
fn comes_back<O: Origin, S: Ledger, B: Ledger, T: Ledger>(
    alloc: Global,
    machine: Machine<Pins>,
    ports: u8,
    receipts: u32,
    blanks: Blanks,
) -> Option<Refusal>
    requires replays { IsReplayOf O.start machine }
    requires base { kind_counts machine.journal ≡ O.base }
    requires machine { machine ≡ O.machine }
    requires history { blanks.history ≡ O.book }
    requires steps { (blanks.steps.name ≡ S.name) × (blanks.steps.parts ≡ S.parts) × (S.parts ≡ ports) }
    requires bells { (blanks.bells.name ≡ B.name) × (blanks.bells.parts ≡ B.parts) × (B.parts ≡ ports) }
    requires others { (blanks.others.name ≡ T.name) × (blanks.others.parts ≡ T.parts) × (T.parts ≡ ports) }
{
    let Err(
        Refused {
            refusal,
            mut machine,
        },
    ) = Shared::<Pins, O, S, B, T>::new(alloc, machine, ports, receipts, blanks)
    else {
        return None;
    };
    let ticked = machine.apply(Event::Tick);
    if ticked == Ok(Answer::Done) && machine.event_count() == 1 {
        Some(refusal)
    } else {
        None
    }
}

fn refuses_sharing(alloc: Global, profile: u8, ports: u8, receipts: u32) -> Option<Refusal> {
    let machine = machine_as(alloc, profile, 1, 4096)?;
    comes_back::<Brand, Brand, Brand, Brand>(
        alloc,
        machine,
        ports,
        receipts,
        blanks(u64::from(ports)),
    )
}

fn refuses_ports(alloc: Global, ports: u8, receipts: u32) -> Option<Refusal> {
    refuses_sharing(alloc, PROFILE_LIMIT, ports, receipts)
}

#[test]
fn there_are_1_to_16_ports(rt: HostRuntime) {
    assert_eq!(rt; refuses_ports(rt.alloc(), 0, 8), Some(Refusal::BadSize));
    assert_eq!(rt; refuses_ports(rt.alloc(), 17, 8), Some(Refusal::BadSize));
    assert_eq!(rt; refuses_ports(rt.alloc(), 1, 8), None);
}

// No machine of today has memory for so many receipts.
#[test]
fn receipts_want_memory(rt: HostRuntime) {
    assert_eq!(rt;
        refuses_ports(rt.alloc(), 16, u32::MAX),
        Some(Refusal::NoMemory)
    );
}

// A machine of an older profile has fewer lines than bells have. Nor is memory asked for first.
#[test]
fn only_the_newest_profile_is_shared(rt: HostRuntime) {
    for profile in 1..PROFILE_LIMIT {
        assert_eq!(rt;
            refuses_sharing(rt.alloc(), profile, 1, 8),
            Some(Refusal::BadSize)
        );
        assert_eq!(rt;
            refuses_sharing(rt.alloc(), profile, 16, u32::MAX),
            Some(Refusal::BadSize)
        );
    }
    assert_eq!(rt; refuses_sharing(rt.alloc(), 3, 1, 8), None);
}

// A journal with room for one event, and a port with room for one receipt: the second tick is refused and marked. The
// sharing does not end without the port.
fn marks_full<O: Origin, S: Ledger, B: Ledger, T: Ledger, R: Wait>(
    rt: &R,
    alloc: Global,
    machine: Machine<Pins>,
    roomy: &Machine<Pins>,
    blanks: Blanks,
) -> Option<bool>
    requires replays { IsReplayOf O.start machine }
    requires base { kind_counts machine.journal ≡ O.base }
    requires machine { machine ≡ O.machine }
    requires history { blanks.history ≡ O.book }
    requires steps { (blanks.steps.name ≡ S.name) × (blanks.steps.parts ≡ S.parts) × (S.parts ≡ 1) }
    requires bells { (blanks.bells.name ≡ B.name) × (blanks.bells.parts ≡ B.parts) × (B.parts ≡ 1) }
    requires others { (blanks.others.name ≡ T.name) × (blanks.others.parts ≡ T.parts) × (T.parts ≡ 1) }
{
    let (shared, mut ports) = Shared::<Pins, O, S, B, T>::new(alloc, machine, 1, 1, blanks).ok()?;
    let mut port = ports.pop()?;
    let first = shared.tick(rt, &mut port);
    let second = shared.tick(rt, &mut port);
    let wanted = [Receipt {
        position: 0,
        made: Made::One(Event::Tick),
    }];
    let right = first == Ok(Answer::Done)
        && second == Err(Refusal::Full)
        && port.is_full()
        && has_receipts(&port, &wanted);
    let Err(Unfinished { shared, mut ports }) = shared.finish(ports) else {
        return None;
    };
    ports.push(port).ok()?;
    let Finished {
        machine,
        ports,
        totals,
    } = shared.finish(ports).ok()?;
    let port = ports.get(0)?;
    let checked = check_one(&machine, port) == Ok(());
    let mismatch = check_one(roomy, port) == Err(Mismatch { port: 0, index: 1 });
    Some(right && totals.others == 1 && checked && mismatch)
}

// The same beside a machine that has room for another event after its tick.
fn marks_full_of_one<R: Wait>(rt: &R, alloc: Global) -> Option<bool> {
    let machine_of_one = machine(alloc, 1, 1)?;
    let mut roomy = machine(alloc, 1, 2)?;
    let Ok(_) = roomy.apply(Event::Tick) else {
        return None;
    };
    marks_full::<Brand, Brand, Brand, Brand, R>(rt, alloc, machine_of_one, &roomy, blanks(1))
}

#[test]
fn a_full_journal_is_marked(rt: HostRuntime) {
    assert_eq!(rt; marks_full_of_one(&rt, rt.alloc()), Some(true));
}
