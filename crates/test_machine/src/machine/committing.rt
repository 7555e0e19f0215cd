//! Commits of the empty burst, against answers worked by hand. None takes memory: with a growth behind the boot's
//! refused (`rt try --test --fail-alloc N`) each answer stays.

use super::gauge::Gauge;
use super::{answers, poke_of, push_word};
use arrayvec::ArrayVec;
use evm_core::{Answer, Burst, Committed, Event, Machine, Refusal};
use evm_exec::Hart;
use evm_ram::BASE;
use std::process::Abort;
use std::test::Fail;

// The registers with which nothing was speculated: a commit of no pair looks at none of them.
fn nothing() -> Burst {
    Burst::empty(Hart {
        regs: [0; 32],
        pc: BASE,
    })
}

fn committed(machine: &mut Machine<Gauge>, cpu: u8) -> Result<Committed, Fail> {
    match machine.commit(cpu, &nothing()) {
        Ok(done) => Ok(done),
        Err(_) => Err(Fail::from("the commit was refused")),
    }
}

fn is_refused(rt: &impl Abort, machine: &mut Machine<Gauge>, cpu: u8, wanted: Refusal) {
    let refusal = machine.commit(cpu, &nothing()).err();
    assert_eq!(rt; refusal, Some(wanted));
}

fn pc(done: &Committed) -> Option<u64> {
    match done.next {
        Some(hart) => Some(hart.pc),
        None => None,
    }
}

fn does(rt: &impl Abort, done: &Committed, answer: Answer, at: Option<u64>, code: &[u32]) {
    assert_eq!(rt; done.steps, 1);
    assert_eq!(rt; done.answer, answer);
    assert_eq!(rt; pc(done), at);
    assert_eq!(rt; done.code.as_slice(), code);
}

// The last two words of RAM: a nop, and an ebreak behind which RAM ends.
fn last_words() -> Event {
    let mut bytes = ArrayVec::new();
    push_word(&mut bytes, 0x0000_0013);
    push_word(&mut bytes, 0x0010_0073);
    Event::Poke(BASE + 65_528, bytes)
}

pub fn code_ends_with_ram(rt: &impl Abort, machine: &mut Machine<Gauge>) -> Result<(), Fail> {
    answers(rt, machine, last_words(), Answer::Done);
    answers(rt, machine, Event::Stop(0), Answer::Done);
    let place = Event::SetPc(0, BASE + 65_528);
    answers(rt, machine, place, Answer::Done);
    answers(rt, machine, Event::Go(0), Answer::Done);
    let done = committed(machine, 0)?;
    does(
        rt,
        &done,
        Answer::Ran(0),
        Some(BASE + 65_532),
        &[0x0010_0073],
    );
    let done = committed(machine, 0)?;
    does(rt, &done, Answer::Ran(0), Some(BASE + 65_536), &[]);
    let done = committed(machine, 0)?;
    does(rt, &done, Answer::Stopped, Some(BASE + 65_536), &[]);
    // no task is on processor 1
    let done = committed(machine, 1)?;
    does(rt, &done, Answer::Idle, None, &[]);
    is_refused(rt, machine, 8, Refusal::NoSuchCpu);
    answers(rt, machine, Event::Tick, Answer::Done);
    is_refused(rt, machine, 8, Refusal::Full);
    assert_eq!(rt; machine.event_count(), 9);
    Ok(())
}

// A breakpoint that was set meanwhile: one Step is made, and it hits. Once passed, the next begins one word on.
pub fn a_breakpoint_is_hit(rt: &impl Abort, machine: &mut Machine<Gauge>) -> Result<(), Fail> {
    // addi x5, x5, 1; jal x0, -4
    let code = poke_of(&[0x0012_8293, 0xffdf_f06f]);
    answers(rt, machine, code, Answer::Done);
    answers(rt, machine, Event::Break(BASE), Answer::Done);
    let mut words = [0u32; 16];
    words[0] = 0x0012_8293;
    words[1] = 0xffdf_f06f;
    let done = committed(machine, 0)?;
    does(rt, &done, Answer::Hit, Some(BASE), &words);
    answers(rt, machine, Event::Go(0), Answer::Done);
    let mut words = [0u32; 16];
    words[0] = 0xffdf_f06f;
    let done = committed(machine, 0)?;
    does(rt, &done, Answer::Ran(0), Some(BASE + 4), &words);
    Ok(())
}
