//! Bursts on small programs, against answers worked by hand by the rules of a commit and of a Step.

ghost use Rattle.std.specs.Prelude.{◌≤◌, length};

mod commits;

use evm_core::Machine;
use evm_devs::Pins;
use evm_elf::{read_image, write_bytes};
use std::alloc::Global;
use std::process::Abort;
use std::test::Fail;

// `j .`: jal x0, 0.
const JUMP: u32 = 0x0000_006f;

const JUMP_BYTES: [u8; 4] = [0x6f, 0x00, 0x00, 0x00];
// addi x10, x0, 5
const ADDI: u32 = 0x0050_0513;
// addi x10, x0, 5; addi x11, x0, 6; j -8
const STRAIGHT: [u32; 3] = [ADDI, 0x0060_0593, 0xff9f_f06f];

const STRAIGHT_BYTES: [u8; 12] = [
    0x13, 0x05, 0x50, 0x00, 0x93, 0x05, 0x60, 0x00, 0x6f, 0xf0, 0x9f, 0xff,
];

// A machine that has had no event, with an image of these bytes, which begins with the first of them.
fn loaded(alloc: Global, cpus: u8, capacity: u32, bytes: &[u8]) -> Result<Machine<Pins>, Fail>
    requires { length bytes.now ≤ 16777216 }
{
    let Ok(file) = write_bytes(alloc, bytes) else {
        return Err(Fail::from("no memory for a file"));
    };
    let Ok(image) = read_image(alloc, file.as_slice()) else {
        return Err(Fail::from("the file is no image"));
    };
    let Ok(mut machine) = Machine::boot(alloc, cpus, 65_536, capacity) else {
        return Err(Fail::from("the boot is refused"));
    };
    match machine.load(&image) {
        Ok(()) => Ok(machine),
        Err(_) => Err(Fail::from("the image is refused")),
    }
}

#[derive(Clone, Copy)]
enum Row {
    Loop,
    ChangedWord,
    SameWord,
    RaisedLine,
    Stopped,
    BreakpointInLoop,
    BreakpointInLine,
    Room,
    TenTurns,
}

fn try_row(
    rt: &(impl Abort + AllocGlobal),
    row: Row,
    machine: &mut Machine<Pins>,
) -> Result<(), Fail> {
    match row {
        Row::Loop => commits::a_loop_is_done_65_times(rt, machine),
        Row::ChangedWord => commits::a_word_that_changed_is_done_once(rt, machine),
        Row::SameWord => commits::a_word_that_is_written_again_is_the_same(rt, machine),
        Row::RaisedLine => commits::a_raised_line_is_received_first(rt, machine),
        Row::Stopped => commits::a_stopped_processor_does_nothing(rt, machine),
        Row::BreakpointInLoop => commits::a_breakpoint_is_hit_and_passed(rt, machine),
        Row::BreakpointInLine => commits::a_breakpoint_is_passed_by_a_burst(rt, machine),
        Row::Room => commits::a_burst_needs_room_for_one_step_more(rt, machine),
        Row::TenTurns => commits::ten_turns_make_586_steps(rt, machine),
    }
}

// Tries a row on a machine of these processors, with room for so many events, that runs `j .`.
fn on_jump(rt: &(impl Abort + AllocGlobal), cpus: u8, capacity: u32, row: Row) -> Result<(), Fail> {
    let mut machine = loaded(rt.alloc(), cpus, capacity, JUMP_BYTES.as_slice())?;
    try_row(rt, row, &mut machine)
}

// Tries a row on a machine that runs the three words of STRAIGHT.
fn on_straight(rt: &(impl Abort + AllocGlobal), row: Row) -> Result<(), Fail> {
    let mut machine = loaded(rt.alloc(), 1, 4096, STRAIGHT_BYTES.as_slice())?;
    try_row(rt, row, &mut machine)
}

#[test]
fn a_loop_is_done_65_times(rt: HostRuntime) -> Result<(), Fail> {
    on_jump(&rt, 1, 4096, Row::Loop)
}

#[test]
fn a_word_that_changed_is_done_once(rt: HostRuntime) -> Result<(), Fail> {
    on_jump(&rt, 1, 4096, Row::ChangedWord)
}

#[test]
fn a_word_that_is_written_again_is_the_same(rt: HostRuntime) -> Result<(), Fail> {
    on_jump(&rt, 1, 4096, Row::SameWord)
}

#[test]
fn a_raised_line_is_received_first(rt: HostRuntime) -> Result<(), Fail> {
    on_jump(&rt, 1, 4096, Row::RaisedLine)
}

#[test]
fn a_stopped_processor_does_nothing(rt: HostRuntime) -> Result<(), Fail> {
    on_jump(&rt, 1, 4096, Row::Stopped)
}

#[test]
fn a_breakpoint_is_hit_and_passed(rt: HostRuntime) -> Result<(), Fail> {
    on_straight(&rt, Row::BreakpointInLoop)
}

#[test]
fn a_breakpoint_is_passed_by_a_burst(rt: HostRuntime) -> Result<(), Fail> {
    on_straight(&rt, Row::BreakpointInLine)
}

#[test]
fn a_burst_needs_room_for_one_step_more(rt: HostRuntime) -> Result<(), Fail> {
    on_jump(&rt, 1, 129, Row::Room)
}

#[test]
fn ten_turns_make_586_steps(rt: HostRuntime) -> Result<(), Fail> {
    on_jump(&rt, 2, 4096, Row::TenTurns)
}
