//! Commits of a burst on a machine that has changed since the burst was done ahead. Each row works on the machine that it is lent: a function
//! that owns one is dear to prove.

use super::{ADDI, JUMP, STRAIGHT};
use arrayvec::ArrayVec;
use evm_burst::{Cache, speculate};
use evm_core::{Committed, Machine};
use evm_devs::Pins;
use evm_exec::{Burst, Hart};
use evm_model::{Answer, Event};
use evm_ram::BASE;
use std::alloc::Global;
use std::process::Abort;
use std::test::Fail;

// What task 0 does by words that are noted from its pc on.
fn ahead(alloc: Global, machine: &Machine<Pins>, code: &[u32]) -> Result<Burst, Fail> {
    let Some(hart) = machine.hart(0) else {
        return Err(Fail::from("there is no task"));
    };
    let Ok(mut cache) = Cache::new(alloc) else {
        return Err(Fail::from("the cache is refused"));
    };
    cache.note(hart.pc, code);
    Ok(speculate(&hart, &mut cache))
}

fn event(rt: &impl Abort, machine: &mut Machine<Pins>, event: Event) {
    assert_eq!(rt; machine.apply(event.lend()), Ok(Answer::Done));
}

fn poke(rt: &impl Abort, machine: &mut Machine<Pins>, word: u32) {
    let mut bytes = ArrayVec::new();
    for byte in word.to_le_bytes() {
        let _ = bytes.try_push(byte);
    }
    event(rt, machine, Event::Poke(BASE, bytes));
}

// A commit on processor 0 that makes so many Steps, the last of which has this answer: the hart after it.
fn commits(
    rt: &impl Abort,
    machine: &mut Machine<Pins>,
    burst: &Burst,
    steps: u32,
    answer: Answer,
) -> Result<Hart, Fail> {
    let Ok(done) = machine.commit(0, burst) else {
        return Err(Fail::from("the commit is refused"));
    };
    assert_eq!(rt; done.steps, steps);
    assert_eq!(rt; done.answer, answer);
    match done.next {
        Some(hart) => Ok(hart),
        None => Err(Fail::from("no task is current")),
    }
}

fn register(hart: &Hart, number: usize) -> Option<u64> {
    hart.regs.get(number).copied()
}

pub fn a_loop_is_done_65_times(
    rt: &(impl Abort + AllocGlobal),
    machine: &mut Machine<Pins>,
) -> Result<(), Fail> {
    let burst = ahead(rt.alloc(), machine, &[JUMP])?;
    assert_eq!(rt; burst.len(), 64);
    commits(rt, machine, &burst, 65, Answer::Ran(0))?;
    assert_eq!(rt; machine.event_count(), 65);
    Ok(())
}

pub fn a_word_that_changed_is_done_once(
    rt: &(impl Abort + AllocGlobal),
    machine: &mut Machine<Pins>,
) -> Result<(), Fail> {
    let burst = ahead(rt.alloc(), machine, &[JUMP])?;
    poke(rt, machine, ADDI);
    let next = commits(rt, machine, &burst, 1, Answer::Ran(0))?;
    assert_eq!(rt; register(&next, 10), Some(5));
    Ok(())
}

pub fn a_word_that_is_written_again_is_the_same(
    rt: &(impl Abort + AllocGlobal),
    machine: &mut Machine<Pins>,
) -> Result<(), Fail> {
    let burst = ahead(rt.alloc(), machine, &[JUMP])?;
    poke(rt, machine, JUMP);
    commits(rt, machine, &burst, 65, Answer::Ran(0))?;
    Ok(())
}

pub fn a_raised_line_is_received_first(
    rt: &(impl Abort + AllocGlobal),
    machine: &mut Machine<Pins>,
) -> Result<(), Fail> {
    let burst = ahead(rt.alloc(), machine, &[JUMP])?;
    event(rt, machine, Event::Raise(0, 5));
    commits(rt, machine, &burst, 1, Answer::Received(5))?;
    // no line stands any more
    commits(rt, machine, &burst, 65, Answer::Ran(0))?;
    Ok(())
}

pub fn a_stopped_processor_does_nothing(
    rt: &(impl Abort + AllocGlobal),
    machine: &mut Machine<Pins>,
) -> Result<(), Fail> {
    let burst = ahead(rt.alloc(), machine, &[JUMP])?;
    event(rt, machine, Event::Stop(0));
    commits(rt, machine, &burst, 1, Answer::Stopped)?;
    Ok(())
}

// A breakpoint on the first word: it hits, and the pc stays. After Go it is passed.
pub fn a_breakpoint_is_hit_and_passed(
    rt: &(impl Abort + AllocGlobal),
    machine: &mut Machine<Pins>,
) -> Result<(), Fail> {
    let burst = ahead(rt.alloc(), machine, STRAIGHT.as_slice())?;
    event(rt, machine, Event::Break(BASE));
    let next = commits(rt, machine, &burst, 1, Answer::Hit)?;
    assert_eq!(rt; next.pc, BASE);
    event(rt, machine, Event::Go(0));
    // the loop comes back to the breakpoint, so none of its words is taken but the first, by the Step
    let next = commits(rt, machine, &burst, 1, Answer::Ran(0))?;
    assert_eq!(rt; next.pc, BASE + 4);
    Ok(())
}

// Two words that do not come back: after Go they are taken whole, the first though it stands on a breakpoint.
pub fn a_breakpoint_is_passed_by_a_burst(
    rt: &(impl Abort + AllocGlobal),
    machine: &mut Machine<Pins>,
) -> Result<(), Fail> {
    let [first, second, _] = STRAIGHT;
    let burst = ahead(rt.alloc(), machine, &[first, second])?;
    assert_eq!(rt; burst.len(), 2);
    event(rt, machine, Event::Break(BASE));
    commits(rt, machine, &burst, 1, Answer::Hit)?;
    event(rt, machine, Event::Go(0));
    let next = commits(rt, machine, &burst, 3, Answer::Ran(0))?;
    assert_eq!(rt; next.pc, BASE);
    assert_eq!(rt; register(&next, 11), Some(6));
    Ok(())
}

// Room for 64 events is too little for 64 pairs and one Step more.
pub fn a_burst_needs_room_for_one_step_more(
    rt: &(impl Abort + AllocGlobal),
    machine: &mut Machine<Pins>,
) -> Result<(), Fail> {
    let burst = ahead(rt.alloc(), machine, &[JUMP])?;
    commits(rt, machine, &burst, 65, Answer::Ran(0))?;
    commits(rt, machine, &burst, 1, Answer::Ran(0))?;
    assert_eq!(rt; machine.event_count(), 66);
    Ok(())
}

// Ten turns of a worker on processor `cpu`, without a lock: how many Steps.
fn ten_turns(alloc: Global, machine: &mut Machine<Pins>, cpu: u8) -> Result<u32, Fail> {
    let Ok(mut cache) = Cache::new(alloc) else {
        return Err(Fail::from("the cache is refused"));
    };
    let mut next = None;
    let mut steps = 0u32;
    for _ in 0..10u8 {
        let burst = burst_of(&next, &mut cache);
        let Ok(done) = machine.commit(cpu, &burst) else {
            return Err(Fail::from("a commit is refused"));
        };
        note(&mut cache, &done);
        next = done.next;
        steps = steps.saturating_add(done.steps);
    }
    Ok(steps)
}

fn burst_of(next: &Option<Hart>, cache: &mut Cache) -> Burst {
    match next {
        Some(hart) => speculate(hart, cache),
        None => Burst::empty(Hart::default()),
    }
}

fn note(cache: &mut Cache, done: &Committed) {
    if let Some(hart) = &done.next {
        cache.note(hart.pc, done.code.as_slice());
    }
}

// The first commit knows no hart and makes one Step; each of the nine others makes 64 and one. Processor 1 has no task.
pub fn ten_turns_make_586_steps(
    rt: &(impl Abort + AllocGlobal),
    machine: &mut Machine<Pins>,
) -> Result<(), Fail> {
    assert_eq!(rt; ten_turns(rt.alloc(), machine, 0)?, 586);
    assert_eq!(rt; ten_turns(rt.alloc(), machine, 1)?, 10);
    assert_eq!(rt; machine.event_count(), 596);
    Ok(())
}
