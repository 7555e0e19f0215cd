//! Calls by chance, and the instructions that make them.

ghost use Rattle.std.specs.Prelude.{◌<◌};

use evm_model::Block;

/// How many mutexes there are.
pub(super) const MUTEXES: u64 = 8;

/// How many there are of each other kind of object.
pub(super) const OBJECTS: u64 = 2;

// How many tasks there are at the beginning.
const TASKS: u64 = 16;

/// A linear congruential generator (Knuth, "The Art of Computer Programming", volume 2, section 3.3.4: MMIX).
#[derive(Drop)]
pub(super) struct Generator {
    state: u64,
}

impl Generator {
    pub(super) fn new() -> Generator {
        Generator { state: 1 }
    }

    /// A number below this one.
    pub(super) fn below(&mut self, limit: u64) -> u64
        requires { 0 < limit }
        ensures { result < limit }
    {
        self.state = self
            .state
            .wrapping_mul(6_364_136_223_846_793_005)
            .wrapping_add(1_442_695_040_888_963_407);
        (self.state >> 33) % limit
    }
}

/// A call, by its number and its arguments, each below 2,048.
#[derive(Clone, Copy)]
pub(super) struct Call {
    number: u64,
    first: u64,
    second: u64,
    third: u64,
}

pub(super) fn call_of(number: u64, first: u64, second: u64, third: u64) -> Call {
    Call {
        number,
        first,
        second,
        third,
    }
}

// A priority from 1 to 99, out of 64 of them.
fn priority(random: &mut Generator) -> u64 {
    1 + random.below(64)
}

// No deadline, or one a few ticks ahead.
fn deadline(random: &mut Generator, ticks: u64) -> u64 {
    if random.below(2) == 0 {
        0
    } else {
        ticks.saturating_add(1 + random.below(8))
    }
}

// A call on a mutex, or on an event and a mutex.
fn mutex_call(random: &mut Generator, ticks: u64) -> Call {
    let mutex = random.below(MUTEXES);
    let until = deadline(random, ticks);
    match random.below(8) {
        0..=2 => call_of(36, mutex, until, 0),
        3 => call_of(37, mutex, 0, 0),
        4 | 5 => call_of(38, mutex, 0, 0),
        6 => call_of(42, random.below(OBJECTS), mutex, until),
        _ => call_of(43 + random.below(2), random.below(OBJECTS), 0, 0),
    }
}

// A call on a semaphore, a flag group or a timer.
fn object_call(random: &mut Generator, ticks: u64) -> Call {
    let object = random.below(OBJECTS);
    let until = deadline(random, ticks);
    match random.below(8) {
        0 => call_of(39, object, until, 0),
        1 => call_of(40, object, 0, 0),
        2 => call_of(41, object, 0, 0),
        3 => call_of(45, object, until, 0),
        4 => call_of(46, object, 1 + random.below(8), 0),
        5 => call_of(48, object, until, random.below(4)),
        6 => call_of(49, object, 0, 0),
        _ => call_of(14, 2 + random.below(8), random.below(3), object),
    }
}

/// A task of this processor is created, which begins where RAM begins.
pub(super) fn spawn(cpu: u64) -> Call {
    call_of(SPAWN, 0, 0, cpu)
}

// The caller ends, or creates a task, or moves, or yields.
fn life_call(random: &mut Generator) -> Call {
    match random.below(8) {
        0 | 1 => call_of(0, 0, 0, 0),
        2 => spawn(random.below(4)),
        3 => call_of(55, random.below(4), 0, 0),
        4 => call_of(2, 0, 0, 0),
        _ => call_of(50, 0, 0, 0),
    }
}

// A stage of the caller's processor is stalled, or more often plays lines again; or the caller waits for a line.
fn line_call(random: &mut Generator) -> Call {
    match random.below(8) {
        0 => call_of(4, 0, 0, 0),
        1 | 2 => call_of(5, 0, 0, 0),
        3 => call_of(51, 0, 0, 0),
        4..=6 => call_of(52, 0, 0, 0),
        _ => call_of(6, 2 + random.below(8), 0, 0),
    }
}

// A call on the caller's or another task's place.
fn task_call(random: &mut Generator, ticks: u64) -> Call {
    let class = 1 + random.below(4);
    match random.below(15) {
        0..=3 => call_of(7, class, priority(random), 0),
        4 => call_of(8, 0, 0, 0),
        5 | 6 => call_of(34, random.below(TASKS), class, priority(random)),
        7 => call_of(47, ticks.saturating_add(random.below(8)), 0, 0),
        8 | 9 => call_of(32 + random.below(2), 0, 0, 0),
        10..=12 => line_call(random),
        _ => life_call(random),
    }
}

pub(super) fn any_call(random: &mut Generator, ticks: u64) -> Call {
    match random.below(4) {
        0 => object_call(random, ticks),
        1 => mutex_call(random, ticks),
        _ => task_call(random, ticks),
    }
}

const SPAWN: u64 = 3;

// auipc a0, 0; srli a0, a0, 16; slli a0, a0, 16: where the first 64 KB of RAM begin
const START: [u32; 3] = [0x0000_0517, 0x0105_5513, 0x0105_1513];

const ECALL: u32 = 0x0000_0073;

// jal x0, -20
const BACK_5: u32 = 0xfedf_f06f;

// jal x0, -28
const BACK_7: u32 = 0xfe5f_f06f;

// addi register, x0, number
fn li(register: u32, number: u64) -> u32 {
    ((number % 2_048) as u32)
        .wrapping_mul(0x10_0000)
        .wrapping_add(register.wrapping_mul(0x80))
        .wrapping_add(0x13)
}

fn push(code: &mut Block, word: u32) {
    let _ = code.try_extend_from_slice(word.to_le_bytes().as_slice());
}

// The first argument of a spawn is where RAM begins.
fn push_first(code: &mut Block, call: &Call) {
    if call.number == SPAWN {
        for word in START {
            push(code, word);
        }
    } else {
        push(code, li(10, call.first));
    }
}

/// How many instructions come before the ECALL.
pub(super) fn before_ecall(call: &Call) -> u8 {
    if call.number == SPAWN { 6 } else { 4 }
}

/// Instructions that make a call, and go back to the first of them.
pub(super) fn code_of(call: &Call) -> Block {
    let mut code = Block::new();
    push_first(&mut code, call);
    push(&mut code, li(11, call.second));
    push(&mut code, li(12, call.third));
    push(&mut code, li(17, call.number));
    push(&mut code, ECALL);
    let back = if call.number == SPAWN { BACK_7 } else { BACK_5 };
    push(&mut code, back);
    code
}
