//! The rows that need one machine, each on a machine of its own that it is lent: a function that owns one is dear to prove.

use super::gauge::Gauge;
use super::{attaching, committing};
use evm_core::Machine;
use std::process::Abort;
use std::test::Fail;

#[derive(Clone, Copy)]
enum Row {
    EachKindOfEvent,
    ManySteps,
    StepsBehindARaise,
    StepsOfChangedCode,
    AfterAnEvent,
    PinsOfOurOwn,
    CodeEndsWithRam,
    ABreakpointIsHit,
}

fn try_row(rt: &impl Abort, row: Row, machine: &mut Machine<Gauge>) -> Result<(), Fail> {
    match row {
        Row::EachKindOfEvent => super::each_kind_of_event(rt, machine),
        Row::ManySteps => super::many_steps(rt, machine),
        Row::StepsBehindARaise => super::steps_behind_a_raise(rt, machine),
        Row::StepsOfChangedCode => super::steps_of_changed_code(rt, machine),
        Row::AfterAnEvent => attaching::after_an_event(rt, machine),
        Row::PinsOfOurOwn => attaching::pins_of_our_own(rt, machine),
        Row::CodeEndsWithRam => committing::code_ends_with_ram(rt, machine),
        Row::ABreakpointIsHit => committing::a_breakpoint_is_hit(rt, machine),
    }
}

// Tries a row on a machine of these processors, with room for so many events.
fn on_machine(
    rt: &(impl Abort + AllocGlobal),
    cpus: u8,
    capacity: u32,
    row: Row,
) -> Result<(), Fail> {
    let Ok(mut machine) = Machine::<Gauge>::boot(rt.alloc(), cpus, 65_536, capacity) else {
        return Err(Fail::from("the boot was refused"));
    };
    try_row(rt, row, &mut machine)
}

#[test]
fn each_kind_of_event(rt: HostRuntime) -> Result<(), Fail> {
    on_machine(&rt, 2, 37, Row::EachKindOfEvent)
}

#[test]
fn many_steps(rt: HostRuntime) -> Result<(), Fail> {
    on_machine(&rt, 2, 64, Row::ManySteps)
}

#[test]
fn steps_behind_a_raise(rt: HostRuntime) -> Result<(), Fail> {
    on_machine(&rt, 1, 64, Row::StepsBehindARaise)
}

#[test]
fn steps_of_changed_code(rt: HostRuntime) -> Result<(), Fail> {
    on_machine(&rt, 1, 64, Row::StepsOfChangedCode)
}

#[test]
fn after_an_event(rt: HostRuntime) -> Result<(), Fail> {
    on_machine(&rt, 1, 64, Row::AfterAnEvent)
}

#[test]
fn pins_of_our_own(rt: HostRuntime) -> Result<(), Fail> {
    on_machine(&rt, 1, 64, Row::PinsOfOurOwn)
}

#[test]
fn code_ends_with_ram(rt: HostRuntime) -> Result<(), Fail> {
    on_machine(&rt, 2, 9, Row::CodeEndsWithRam)
}

#[test]
fn a_breakpoint_is_hit(rt: HostRuntime) -> Result<(), Fail> {
    on_machine(&rt, 1, 64, Row::ABreakpointIsHit)
}
