//! Parts of answers: places by name, states and answers of calls in words.

use crate::errno::{call_name, errno_name};
use crate::naming::put_object;
use crate::page::Page;
use evm_exec::Hart;
use evm_model::{TaskState, Wait};
use evm_room::NoMemory;
use evm_serve::{AnyDevice, LastCall, Machine};
use text_symbols::{CodeSpot, Names, ObjectKind, SourceLine};

/// The word of ECALL.
const ECALL: &[u8] = b"\x73\0\0\0";

/// An address by name: `NAME`, `NAME+0xN`, or its number where no symbol begins at it or before it.
pub fn put_place(page: &mut Page, names: &Names, address: u64) -> Result<(), NoMemory> {
    match names.symbols.at(address) {
        None => page.put_hexadecimal(address),
        Some((name, 0)) => page.put(name),
        Some((name, offset)) => {
            page.put(name)?;
            page.put("+0x")?;
            page.put_hexadecimal(offset)
        }
    }
}

/// A line of a source: `queue.c:41 (evl_get_sem)`.
pub fn put_line(page: &mut Page, line: SourceLine<'_>) -> Result<(), NoMemory> {
    page.put(line.file)?;
    page.put(":")?;
    page.put_decimal(line.line)?;
    let shown = line.shown();
    if shown.is_empty() {
        return Ok(());
    }
    page.put(" (")?;
    page.put(shown)?;
    page.put(")")
}

/// The place of an instruction: the line of a source that it comes from, or else its address by name.
pub(crate) fn put_code(page: &mut Page, names: &Names, address: u64) -> Result<(), NoMemory> {
    match names.code(address) {
        Some(CodeSpot::Source(line)) => put_line(page, line),
        _ => put_place(page, names, address),
    }
}

fn put_numbered(page: &mut Page, words: &str, number: u8) -> Result<(), NoMemory> {
    page.put(words)?;
    page.put_decimal(u64::from(number))
}

fn put_wait(
    page: &mut Page,
    names: &Names,
    machine: &Machine<AnyDevice>,
    wait: Wait,
) -> Result<(), NoMemory> {
    let (kind, number) = match wait {
        Wait::Sleep => return page.put("sleeps"),
        Wait::Line(line) => return put_numbered(page, "waits for line ", line),
        Wait::Lock(mutex) => (ObjectKind::Mutex, mutex),
        Wait::Reacquire { mutex, .. } => (ObjectKind::Mutex, mutex),
        Wait::Semaphore(number) => (ObjectKind::Semaphore, number),
        Wait::Event(number) => (ObjectKind::Event, number),
        Wait::Flags(number) => (ObjectKind::Flags, number),
        Wait::Timer(number) => (ObjectKind::Timer, number),
    };
    page.put("waits for ")?;
    put_object(page, names, machine, kind, number)
}

/// The state of a task in words.
pub fn put_state(
    page: &mut Page,
    names: &Names,
    machine: &Machine<AnyDevice>,
    state: TaskState,
) -> Result<(), NoMemory> {
    match state {
        TaskState::InReady => page.put("ready in-band"),
        TaskState::OobReady => page.put("ready out-of-band"),
        TaskState::Waits(wait) => put_wait(page, names, machine, wait),
        TaskState::Exit => page.put("has ended"),
        TaskState::Faulted(fault) => put_numbered(page, "ended by fault ", fault.number()),
    }
}

/// An answer: as an errno, if it is one, and else in decimal.
pub fn put_answer(page: &mut Page, answer: u64) -> Result<(), NoMemory> {
    match errno_name(answer) {
        Some(name) => page.put(name),
        None => page.put_decimal(answer),
    }
}

/// Whether the instruction before the pc is an ECALL.
pub fn is_behind_call(machine: &Machine<AnyDevice>, hart: &Hart) -> bool {
    match machine.bytes(hart.pc.wrapping_sub(4), 4) {
        Some(word) => word == ECALL,
        None => false,
    }
}

// A call by its number and its name.
fn put_call_name(page: &mut Page, number: u64) -> Result<(), NoMemory> {
    page.put_decimal(number)?;
    match call_name(number) {
        None => Ok(()),
        Some(name) => {
            page.put(" ")?;
            page.put(name)
        }
    }
}

/// The call that a task is behind, and what a0 holds.
pub fn put_call(page: &mut Page, hart: &Hart) -> Result<(), NoMemory> {
    page.put(", behind call ")?;
    put_call_name(page, hart.regs[17])?;
    page.put(", a0 ")?;
    put_answer(page, hart.regs[10])
}

/// The last call that a task has made, and what it returned.
pub fn put_last_call(page: &mut Page, call: LastCall) -> Result<(), NoMemory> {
    page.put(", last call ")?;
    put_call_name(page, call.number)?;
    match call.answer {
        None => Ok(()),
        Some(answer) => {
            page.put(" returned ")?;
            put_answer(page, answer)
        }
    }
}
