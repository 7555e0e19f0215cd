//! Each kind of event once, accepted and refused, against answers worked by hand. After boot no event takes memory:
//! with a growth behind the boot's refused (`rt try --test --fail-alloc N`) each answer stays.

mod attaching;
mod boxes;
mod committing;
mod gauge;
mod lent;

use arrayvec::ArrayVec;
use evm_core::{Answer, Event, Machine, Refusal};
use evm_dev::Device;
use evm_model::POKE_LIMIT;
use evm_ram::BASE;
use gauge::Gauge;
use std::process::Abort;
use std::test::Fail;

// One instruction of each format, from RAM's first byte on (RISC-V Unprivileged ISA 20191213); zeros follow.
const CODE: [u32; 16] = [
    0x0050_0293, // addi x5, x0, 5
    0x8000_08b7, // lui x17, 0x80000: a number that is no call's
    0x0000_0317, // auipc x6, 0
    0x0022_9393, // slli x7, x5, 2
    0x0052_83b3, // add x7, x5, x5
    0x0052_83bb, // addw x7, x5, x5
    0x0453_3023, // sd x5, 64(x6)
    0x0403_3383, // ld x7, 64(x6)
    0x0050_0463, // beq x0, x5, 8
    0x0052_8263, // beq x5, x5, 4
    0x0040_00ef, // jal x1, 4
    0x0000_0317, // auipc x6, 0
    0x0083_00e7, // jalr x1, 8(x6)
    0x0ff0_000f, // fence
    0x0000_0073, // ecall
    0x0010_0073, // ebreak
];

fn push_word(bytes: &mut ArrayVec<u8, POKE_LIMIT>, word: u32) {
    let [a, b, c, d] = word.to_le_bytes();
    let _a = bytes.try_push(a);
    let _b = bytes.try_push(b);
    let _c = bytes.try_push(c);
    let _d = bytes.try_push(d);
}

fn poke_of(words: &[u32]) -> Event {
    let mut bytes = ArrayVec::new();
    for word in words {
        push_word(&mut bytes, *word);
    }
    Event::Poke(BASE, bytes)
}

fn answers<D: Device>(rt: &impl Abort, machine: &mut Machine<D>, event: Event, wanted: Answer) {
    assert_eq!(rt; machine.apply(event.lend()), Ok(wanted));
}

fn refuses(rt: &impl Abort, machine: &mut Machine<Gauge>, event: Event, wanted: Refusal) {
    assert_eq!(rt; machine.apply(event.lend()), Err(wanted));
}

// The debugger's commands, up to the task's second instruction.
fn commands(rt: &impl Abort, machine: &mut Machine<Gauge>) {
    answers(rt, machine, poke_of(&CODE), Answer::Done);
    answers(rt, machine, Event::Break(BASE), Answer::Done);
    answers(rt, machine, Event::Step(0), Answer::Hit);
    answers(rt, machine, Event::Step(0), Answer::Stopped);
    answers(rt, machine, Event::Unbreak(BASE), Answer::Done);
    answers(rt, machine, Event::StepI(0), Answer::Done);
    answers(rt, machine, Event::SetReg(0, 5, 5), Answer::Done);
    refuses(rt, machine, Event::SetReg(0, 0, 5), Refusal::BadRegister);
    answers(rt, machine, Event::SetPc(0, BASE + 4), Answer::Done);
    answers(rt, machine, Event::Go(0), Answer::Done);
}

// The instructions up to the one that stops its processor; then a word that is none, which ends the task.
fn instructions(rt: &impl Abort, machine: &mut Machine<Gauge>) {
    for _ in 1..CODE.len() {
        answers(rt, machine, Event::Step(0), Answer::Ran(0));
    }
    answers(rt, machine, Event::Step(0), Answer::Stopped);
    answers(rt, machine, Event::Go(0), Answer::Done);
    answers(rt, machine, Event::Step(0), Answer::Ran(0));
    answers(rt, machine, Event::Step(0), Answer::Idle);
}

// A tick, a raise and a bell that merge, and their receipts.
fn interrupts(rt: &impl Abort, machine: &mut Machine<Gauge>) {
    answers(rt, machine, Event::Tick, Answer::Done);
    answers(rt, machine, Event::Raise(1, 5), Answer::Done);
    answers(rt, machine, Event::Bell(1, 5), Answer::Done);
    answers(rt, machine, Event::Step(0), Answer::Received(0));
    answers(rt, machine, Event::Step(1), Answer::Received(0));
    answers(rt, machine, Event::Step(1), Answer::Received(5));
    answers(rt, machine, Event::Step(1), Answer::Idle);
    answers(rt, machine, Event::Stop(1), Answer::Done);
}

// One event for each reason that an event of today can have, on a machine whose processor 1 is stopped without a task.
fn refusals(rt: &impl Abort, machine: &mut Machine<Gauge>) {
    refuses(rt, machine, Event::Step(2), Refusal::NoSuchCpu);
    refuses(rt, machine, Event::Raise(0, 64), Refusal::NoSuchLine);
    refuses(rt, machine, Event::Go(0), Refusal::NotStopped);
    refuses(rt, machine, Event::SetReg(1, 5, 0), Refusal::NoTask);
    refuses(rt, machine, Event::Break(BASE + 2), Refusal::BadAddress);
    refuses(rt, machine, poke_of(&[]), Refusal::BadAddress);
    refuses(rt, machine, Event::Unbreak(BASE), Refusal::NoBreakpoint);
}

pub fn each_kind_of_event(rt: &impl Abort, machine: &mut Machine<Gauge>) -> Result<(), Fail> {
    commands(rt, machine);
    instructions(rt, machine);
    interrupts(rt, machine);
    refusals(rt, machine);
    answers(rt, machine, Event::Go(1), Answer::Done);
    refuses(rt, machine, Event::Tick, Refusal::Full);
    assert_eq!(rt; machine.room(), 0);
    Ok(())
}

fn steps(rt: &impl Abort, machine: &mut Machine<Gauge>, count: u32, wanted: Result<(), Refusal>) {
    assert_eq!(rt; machine.steps(0, count), wanted);
}

fn register<D: Device>(machine: &Machine<D>, r: usize) -> u64 {
    match machine.hart(0) {
        Some(hart) if r < 32 => hart.regs[r],
        _ => 0,
    }
}

// A loop of two instructions, a breakpoint in it, and a journal that ends.
pub fn many_steps(rt: &impl Abort, machine: &mut Machine<Gauge>) -> Result<(), Fail> {
    // addi x5, x5, 1; jal x0, -4
    answers(
        rt,
        machine,
        poke_of(&[0x0012_8293, 0xffdf_f06f]),
        Answer::Done,
    );
    steps(rt, machine, 11, Ok(()));
    assert_eq!(rt; register(machine, 5), 6);
    answers(rt, machine, Event::Break(BASE), Answer::Done);
    steps(rt, machine, 5, Ok(()));
    assert_eq!(rt; register(machine, 5), 6);
    assert_eq!(rt; machine.event_count(), 18);
    answers(rt, machine, Event::Step(0), Answer::Stopped);
    answers(rt, machine, Event::Unbreak(BASE), Answer::Done);
    answers(rt, machine, Event::Go(0), Answer::Done);
    steps(rt, machine, 0, Ok(()));
    steps(rt, machine, 1000, Err(Refusal::Full));
    assert_eq!(rt; machine.room(), 0);
    // 43 Steps more: 22 of them from BASE
    assert_eq!(rt; register(machine, 5), 28);
    Ok(())
}

// A raised line comes before the next instruction, and a processor that isn't there takes no Step.
pub fn steps_behind_a_raise(rt: &impl Abort, machine: &mut Machine<Gauge>) -> Result<(), Fail> {
    // addi x5, x5, 1; jal x0, -4
    answers(
        rt,
        machine,
        poke_of(&[0x0012_8293, 0xffdf_f06f]),
        Answer::Done,
    );
    steps(rt, machine, 2, Ok(()));
    answers(rt, machine, Event::Raise(0, 5), Answer::Done);
    steps(rt, machine, 2, Ok(()));
    assert_eq!(rt; register(machine, 5), 2);
    assert_eq!(rt; machine.steps(1, 0), Ok(()));
    assert_eq!(rt; machine.steps(1, 1), Err(Refusal::NoSuchCpu));
    assert_eq!(rt; machine.event_count(), 6);
    Ok(())
}

// A store changes an instruction that was done before: the next time the new one is done.
pub fn steps_of_changed_code(rt: &impl Abort, machine: &mut Machine<Gauge>) -> Result<(), Fail> {
    // nop; sw x6, 0(x5); jal x0, -8
    let code = poke_of(&[0x0000_0013, 0x0062_a023, 0xff9f_f06f]);
    answers(rt, machine, code, Answer::Done);
    answers(rt, machine, Event::Stop(0), Answer::Done);
    answers(rt, machine, Event::SetReg(0, 5, BASE), Answer::Done);
    // addi x7, x7, 7
    answers(rt, machine, Event::SetReg(0, 6, 0x0073_8393), Answer::Done);
    answers(rt, machine, Event::Go(0), Answer::Done);
    steps(rt, machine, 12, Ok(()));
    assert_eq!(rt; register(machine, 7), 21);
    Ok(())
}

#[test]
fn names_each_refusal(rt: HostRuntime) {
    for (refusal, number, name) in [
        (Refusal::Full, 1, "Full"),
        (Refusal::NoSuchCpu, 2, "NoSuchCpu"),
        (Refusal::NoSuchLine, 3, "NoSuchLine"),
        (Refusal::NotStopped, 4, "NotStopped"),
        (Refusal::NoTask, 5, "NoTask"),
        (Refusal::BadAddress, 6, "BadAddress"),
        (Refusal::BadRegister, 7, "BadRegister"),
        (Refusal::NoSlot, 8, "NoSlot"),
        (Refusal::NoBreakpoint, 9, "NoBreakpoint"),
        (Refusal::BadSize, 10, "BadSize"),
        (Refusal::NoMemory, 11, "NoMemory"),
        (Refusal::Started, 12, "Started"),
        (Refusal::PortsOut, 13, "PortsOut"),
        (Refusal::SeatsOut, 14, "SeatsOut"),
    ] {
        assert_eq!(rt; refusal.number(), number, "of {name}");
    }
}
