//! Tasks and objects by name, and where tasks are.

use crate::answers::{put_line, put_place};
use crate::page::Page;
use evm_exec::Hart;
use evm_model::TaskState;
use evm_room::NoMemory;
use evm_serve::{AnyDevice, Machine};
use text_symbols::{CodeSpot, Names, ObjectKind, SourceLine, Standing};

/// Where RAM begins.
const RAM_START: u64 = 0x8000_0000;

/// The registers ra, sp and tp.
const RA: usize = 1;

const SP: usize = 2;

const TP: usize = 4;

// The bytes of RAM.
fn ram_of(machine: &Machine<AnyDevice>) -> &[u8] {
    machine
        .bytes(RAM_START, machine.boot_numbers().ram)
        .unwrap_or(&[])
}

fn name_of<'a>(
    names: &'a Names,
    machine: &'a Machine<AnyDevice>,
    kind: ObjectKind,
    number: u8,
) -> Option<&'a str> {
    let ram = ram_of(machine);
    match kind {
        ObjectKind::Task => names.task(ram, number, machine.hart(number)?.regs[TP]),
        _ => names.object(ram, kind, number),
    }
}

/// The name of an object behind its number, if it has one: ` (low)`.
pub(crate) fn put_name(
    page: &mut Page,
    names: &Names,
    machine: &Machine<AnyDevice>,
    kind: ObjectKind,
    number: u8,
) -> Result<(), NoMemory> {
    match name_of(names, machine, kind, number) {
        None => Ok(()),
        Some(name) => {
            page.put(" (")?;
            page.put(name)?;
            page.put(")")
        }
    }
}

/// An object by its kind and number, and its name if it has one: `task 1 (low)`.
pub fn put_object(
    page: &mut Page,
    names: &Names,
    machine: &Machine<AnyDevice>,
    kind: ObjectKind,
    number: u8,
) -> Result<(), NoMemory> {
    page.put(kind.word())?;
    page.put(" ")?;
    page.put_decimal(u64::from(number))?;
    put_name(page, names, machine, kind, number)
}

/// The line of a source that a task is at, whose pc less some bytes is an instruction of it; of code of the kit's library that which has
/// called it.
pub fn source_line<'a>(
    names: &'a Names,
    machine: &Machine<AnyDevice>,
    hart: &Hart,
    back: u64,
) -> Option<SourceLine<'a>> {
    let standing = Standing {
        pc: hart.pc.wrapping_sub(back),
        ra: hart.regs[RA],
        sp: hart.regs[SP],
    };
    match names.code_of(ram_of(machine), standing) {
        Some(CodeSpot::Source(line)) => Some(line),
        _ => None,
    }
}

/// Where a task is whose pc less some bytes is an instruction of it: the line of a source, or else the address by name.
pub fn put_standing(
    page: &mut Page,
    names: &Names,
    machine: &Machine<AnyDevice>,
    hart: &Hart,
    back: u64,
) -> Result<(), NoMemory> {
    match source_line(names, machine, hart, back) {
        Some(line) => put_line(page, line),
        None => put_place(page, names, hart.pc.wrapping_sub(back)),
    }
}

/// Where a task is in a state: the line of a source, where it waits that of its call, or else its pc by name.
pub(crate) fn put_pc(
    page: &mut Page,
    names: &Names,
    machine: &Machine<AnyDevice>,
    hart: &Hart,
    state: TaskState,
) -> Result<(), NoMemory> {
    let back = match state {
        TaskState::Waits(_) => 4,
        _ => 0,
    };
    match source_line(names, machine, hart, back) {
        Some(line) => put_line(page, line),
        None => put_place(page, names, hart.pc),
    }
}
