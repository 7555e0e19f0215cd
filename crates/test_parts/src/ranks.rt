//! 10,000 events over four processors and 16 tasks, and those that they create. After each, the texts of the views `rank` of each task and
//! `stages` of each processor are those that another body writes, which computes ranks anew, and by them who runs where. Commands of the
//! debugger and the instructions before a call come beside them: after these, ranks and tasks are compared as numbers.

mod calls;
mod recomputing;
mod texts;

use calls::{Call, Generator, MUTEXES, OBJECTS, any_call, before_ecall, call_of, code_of, spawn};
use evm_debug::{Event, Machine};
use evm_devs::Pins;
use evm_model::{Block, TaskState};
use recomputing::{
    IDLE, Place, Ranks, best_of, is_stalled, place_of, places_agree, rank_in, ranks_of, settled,
};
use std::alloc::Global;
use std::test::Fail;
use texts::{places_are_shown, ranks_are_shown};

const PROCESSORS: u8 = 4;

/// Who runs on each processor.
type Places = [Place; 4];

fn places_of(machine: &Machine<Pins>) -> Places {
    let mut places = [IDLE; 4];
    for c in 0..PROCESSORS {
        if let Some(place) = places.get_mut(usize::from(c)) {
            *place = place_of(machine, c);
        }
    }
    places
}

// Whether a processor must run its best task: its out-of-band stage isn't stalled, and line 1 is not on its wire.
fn must_run_best(machine: &Machine<Pins>, c: u8) -> bool {
    match machine.wire(c) {
        None => false,
        Some(wire) => !is_stalled(machine, c) && !wire.contains(1),
    }
}

fn bests_agree(machine: &Machine<Pins>, ranks: &Ranks) -> bool {
    for c in 0..PROCESSORS {
        let best = best_of(machine, ranks, c);
        let runs = best.is_none() || place_of(machine, c).current == best;
        if !runs && must_run_best(machine, c) {
            return false;
        }
    }
    true
}

// The processor that an event lets take a step, if it isn't stopped.
fn stepping(machine: &Machine<Pins>, event: &Event<&Block>) -> Option<u8> {
    match event {
        Event::Step(c) => {
            let is_stopped = machine.cpu(*c).is_some_and(|cpu| cpu.stopped);
            if is_stopped { None } else { Some(*c) }
        }
        _ => None,
    }
}

/// What is computed anew after an event.
#[derive(Drop)]
struct Recomputed {
    ranks: Ranks,
    places: Places,
}

// Who runs on each processor: only on one that took a step may others run than before.
fn places_after(
    machine: &Machine<Pins>,
    ranks: &Ranks,
    before: &Places,
    stepped: Option<u8>,
) -> Places {
    let mut places = *before;
    if let Some(c) = stepped
        && let Some(place) = places.get_mut(usize::from(c))
    {
        *place = settled(machine, ranks, c, place);
    }
    places
}

// An event, and what is computed anew after it; None if it is refused.
fn after(machine: &mut Machine<Pins>, event: Event<&Block>) -> Option<Recomputed> {
    let before = places_of(machine);
    let stepped = stepping(machine, &event);
    if machine.apply(event).is_err() {
        return None;
    }
    let ranks = ranks_of(machine);
    let places = places_after(machine, &ranks, &before, stepped);
    Some(Recomputed { ranks, places })
}

// How many events an event is: 1, or 0 if it is refused. The views are those that are written anew.
fn happens(alloc: Global, machine: &mut Machine<Pins>, event: Event<&Block>) -> Result<u32, Fail> {
    let Some(anew) = after(machine, event) else {
        return Ok(0);
    };
    if !ranks_are_shown(alloc, machine, &anew.ranks)? {
        return Err(Fail::from("a rank is not the one computed anew"));
    }
    if !places_are_shown(alloc, machine, anew.places.as_slice())? {
        return Err(Fail::from("another task runs than the one computed anew"));
    }
    if !bests_agree(machine, &anew.ranks) {
        return Err(Fail::from("a processor does not run its best task"));
    }
    Ok(1)
}

// Whether the machine has what was computed anew.
fn agrees(machine: &Machine<Pins>, anew: &Recomputed) -> bool {
    let mut agrees = places_agree(machine, anew.places.as_slice());
    for t in 0..machine.task_count() {
        agrees = agrees && machine.rank(t) == rank_in(&anew.ranks, t);
    }
    agrees && bests_agree(machine, &anew.ranks)
}

// An event that is not counted, which may be refused.
fn passes(machine: &mut Machine<Pins>, event: Event<&Block>) -> Result<(), Fail> {
    let Some(anew) = after(machine, event) else {
        return Ok(());
    };
    if agrees(machine, &anew) {
        Ok(())
    } else {
        Err(Fail::from("a machine is not as it is computed anew"))
    }
}

fn pc_of(machine: &Machine<Pins>, c: u8) -> Option<u64> {
    let t = machine.cpu(c)?.current?;
    Some(machine.hart(t)?.pc)
}

// Steps of a processor while lines are on its wire, 8 at most.
fn receives(alloc: Global, machine: &mut Machine<Pins>, c: u8) -> Result<u32, Fail> {
    let mut count = 0u32;
    for _ in 0..8u8 {
        if machine.wire(c).is_some_and(|wire| !wire.is_empty()) {
            count = count.saturating_add(happens(alloc, machine, Event::Step(c))?);
        }
    }
    Ok(count)
}

// The current task of a processor makes a call, which may take a step that changes its stage first. The instructions before the call, which
// are put where it is, are not counted.
fn makes(alloc: Global, machine: &mut Machine<Pins>, c: u8, call: &Call) -> Result<u32, Fail> {
    let lines = receives(alloc, machine, c)?;
    if let Some(pc) = pc_of(machine, c) {
        let code = code_of(call);
        passes(machine, Event::Poke(pc, &code))?;
        for _ in 0..before_ecall(call) {
            passes(machine, Event::Step(c))?;
        }
    }
    let first = happens(alloc, machine, Event::Step(c))?;
    let second = happens(alloc, machine, Event::Step(c))?;
    Ok(lines.saturating_add(first).saturating_add(second))
}

// A command of the debugger, which is not counted.
fn command(machine: &mut Machine<Pins>, event: Event<&Block>) -> Result<u32, Fail> {
    passes(machine, event)?;
    Ok(0)
}

// A line of some that a task may wait for, or that act on an object.
fn line_of(random: &mut Generator) -> u8 {
    2 + random.below(8) as u8
}

// A tick, a line, a step of a processor, a command of the debugger, or a call.
fn round(alloc: Global, machine: &mut Machine<Pins>, random: &mut Generator) -> Result<u32, Fail> {
    let c = random.below(u64::from(PROCESSORS)) as u8;
    match random.below(32) {
        0..=2 => happens(alloc, machine, Event::Tick),
        3..=5 => happens(alloc, machine, Event::Raise(c, line_of(random))),
        6..=8 => happens(alloc, machine, Event::Bell(c, line_of(random))),
        9..=11 => happens(alloc, machine, Event::Step(c)),
        12 => command(machine, Event::Stop(c)),
        13 => command(machine, Event::SetReg(c, 10, random.below(8))),
        14..=16 => command(machine, Event::Go(c)),
        _ => {
            let call = any_call(random, machine.ticks());
            makes(alloc, machine, c, &call)
        }
    }
}

// Task 0 creates eight mutexes of all kinds, two of each other object, and the other 15 tasks.
fn begins(alloc: Global, machine: &mut Machine<Pins>) -> Result<(), Fail> {
    for m in 0..MUTEXES {
        makes(alloc, machine, 0, &call_of(9, m % 4, 20 + 10 * m, 0))?;
    }
    for _ in 0..OBJECTS {
        makes(alloc, machine, 0, &call_of(10, 1, 0, 0))?;
        makes(alloc, machine, 0, &call_of(11, 0, 0, 0))?;
        makes(alloc, machine, 0, &call_of(12, 0, 0, 0))?;
        makes(alloc, machine, 0, &call_of(13, 0, 0, 0))?;
    }
    for t in 1..16u64 {
        makes(alloc, machine, 0, &spawn(t % 4))?;
    }
    Ok(())
}

// How many tasks have ended.
fn ended(machine: &Machine<Pins>) -> u32 {
    let mut count = 0u32;
    for t in 0..machine.task_count() {
        if let Some(task) = machine.task(t)
            && task.state == TaskState::Exit
        {
            count = count.saturating_add(1);
        }
    }
    count
}

// Events until 10,000 are counted.
fn run(alloc: Global, machine: &mut Machine<Pins>) -> Result<u32, Fail> {
    let mut random = Generator::new();
    let mut events = 0u32;
    for _ in 0..20_000 {
        if events < 10_000 {
            events = events.saturating_add(round(alloc, machine, &mut random)?);
        }
    }
    Ok(events)
}

#[test]
fn ranks_and_bests_are_those_computed_anew(rt: HostRuntime) -> Result<(), Fail> {
    let Ok(mut machine) = Machine::<Pins>::boot(rt.alloc(), PROCESSORS, 65_536, 131_072) else {
        return Err(Fail::from("the boot is refused"));
    };
    begins(rt.alloc(), &mut machine)?;
    assert_eq!(rt; machine.task_count(), 16);
    assert_eq!(rt; machine.mutex_count(), 8);
    assert_eq!(rt; machine.timer_count(), 2);
    assert_eq!(rt; machine.flag_group_count(), 2);
    let events = run(rt.alloc(), &mut machine)?;
    assert!(rt; events >= 10_000);
    assert!(rt; machine.task_count() > 16);
    assert!(rt; ended(&machine) >= 8);
    Ok(())
}
