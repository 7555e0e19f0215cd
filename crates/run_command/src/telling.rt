//! The end of a run in words.

use crate::machine::{Named, fault_words};
use evm_core::EventLine;
use evm_exec::Hart;
use evm_model::{Fault, TaskState};
use evm_room::NoMemory;
use run_schedule::{AnyDevice, FinishedRun, Machine, RunEnd};
use sh_answers::{Names, Page, SourceLine, put_line, source_line};

/// The word of EBREAK.
const EBREAK: u32 = 0x0010_0073;

/// The function of the kit that stops the processor.
const BREAK_CALL: &str = "evl_break";

// Three digits behind others.
fn put_group(page: &mut Page, group: u64) -> Result<(), NoMemory> {
    page.put(if group < 10 {
        ",00"
    } else if group < 100 {
        ",0"
    } else {
        ","
    })?;
    page.put_decimal(group)
}

// A number with a comma before the last three digits, and before the last six.
fn put_grouped(page: &mut Page, number: u64) -> Result<(), NoMemory> {
    if number < 1_000 {
        return page.put_decimal(number);
    }
    if number < 1_000_000 {
        page.put_decimal(number / 1_000)?;
        return put_group(page, number % 1_000);
    }
    page.put_decimal(number / 1_000_000)?;
    put_group(page, number / 1_000 % 1_000)?;
    put_group(page, number % 1_000)
}

fn put_count(page: &mut Page, count: u64, one: &str, more: &str) -> Result<(), NoMemory> {
    put_grouped(page, count)?;
    page.put(if count == 1 { one } else { more })
}

// How many Steps a journal has.
fn steps_of(machine: &Machine<AnyDevice>) -> u64 {
    let mut steps = 0u64;
    for i in 0..machine.journal_line_count() {
        if let Some(EventLine::Steps(_, count)) = machine.journal_line(i) {
            steps = steps.saturating_add(u64::from(count));
        }
    }
    steps
}

// How long a run took.
fn put_length(page: &mut Page, machine: &Machine<AnyDevice>) -> Result<(), NoMemory> {
    put_count(page, steps_of(machine), " step and ", " steps and ")?;
    put_count(page, machine.ticks(), " tick", " ticks")
}

fn put_behind(page: &mut Page, words: &str, machine: &Machine<AnyDevice>) -> Result<(), NoMemory> {
    page.put(words)?;
    page.put(" after ")?;
    put_length(page, machine)
}

// Whether an instruction behind which a task is is EBREAK.
fn is_behind_break(machine: &Machine<AnyDevice>, hart: &Hart) -> bool {
    word_at(machine, hart.pc.wrapping_sub(4)) == Some(EBREAK)
}

// The line of an evl_assert that failed: EBREAK, with the number of the line in a0.
fn assertion<'a>(named: Named<'a>, hart: &Hart) -> Option<SourceLine<'a>> {
    let line = source_line(named.names, named.machine, hart, 4)?;
    if line.call == BREAK_CALL && line.line == hart.regs[10] {
        return Some(SourceLine { call: "", ..line });
    }
    None
}

// A task behind EBREAK.
fn put_ebreak(page: &mut Page, named: Named<'_>, t: u8, hart: &Hart) -> Result<(), NoMemory> {
    if let Some(line) = assertion(named, hart) {
        put_behind(page, "EBREAK, an evl_assert that failed,", named.machine)?;
        page.put(": ")?;
        named.put_task(page, t)?;
        page.put(" at ")?;
        return put_line(page, line);
    }
    put_behind(page, "EBREAK", named.machine)?;
    page.put(": ")?;
    named.put_task(page, t)?;
    named.put_at(page, t, 4)?;
    named.put_a0(page, t)
}

// The task of a processor that is stopped.
fn put_stopped_task(page: &mut Page, named: Named<'_>, c: u8, t: u8) -> Result<(), NoMemory> {
    let Some(hart) = named.machine.hart(t) else {
        return Ok(());
    };
    if is_behind_break(named.machine, &hart) {
        return put_ebreak(page, named, t, &hart);
    }
    put_stop(page, named.machine, c)?;
    page.put(": ")?;
    named.put_task(page, t)?;
    named.put_at(page, t, 0)
}

// A processor that is stopped, and how long the run took.
fn put_stop(page: &mut Page, machine: &Machine<AnyDevice>, c: u8) -> Result<(), NoMemory> {
    page.put("processor ")?;
    page.put_decimal(u64::from(c))?;
    put_behind(page, " stopped", machine)
}

// A processor that stopped, at EBREAK unless a script stopped it.
fn put_break(page: &mut Page, named: Named<'_>, c: u8) -> Result<(), NoMemory> {
    match named.machine.cpu(c) {
        Some(processor) => match processor.current {
            Some(t) => put_stopped_task(page, named, c, t)?,
            None => put_stop(page, named.machine, c)?,
        },
        None => {}
    }
    page.put("\n")
}

// The word at an address.
fn word_at(machine: &Machine<AnyDevice>, address: u64) -> Option<u32> {
    match machine.bytes(address, 4) {
        Some([a, b, c, d]) => Some(u32::from_le_bytes([*a, *b, *c, *d])),
        _ => None,
    }
}

// The number of the register that a load or a store adds its offset to.
fn base_of(word: u32) -> usize {
    (word / 0x8000 % 32) as usize
}

// The offset of a load or a store, of 12 bits with a sign.
fn offset_of(fault: Fault, word: u32) -> u64 {
    let high = word / 0x0200_0000;
    let low = match fault {
        Fault::Store => word / 0x80 % 32,
        _ => word / 0x0010_0000 % 32,
    };
    let offset = u64::from(high * 32 + low);
    if offset < 2_048 {
        offset
    } else {
        offset.wrapping_sub(4_096)
    }
}

// The address that a load or a store at the pc of a task is of.
fn address_of(machine: &Machine<AnyDevice>, t: u8, fault: Fault) -> Option<u64> {
    let Some(hart) = machine.hart(t) else {
        return None;
    };
    let Some(word) = word_at(machine, hart.pc) else {
        return None;
    };
    match hart.regs.get(base_of(word)) {
        Some(base) => Some(base.wrapping_add(offset_of(fault, word))),
        None => None,
    }
}

// A task that ended by a fault.
fn put_fault(page: &mut Page, named: Named<'_>, t: u8, fault: Fault) -> Result<(), NoMemory> {
    put_behind(page, fault_words(fault), named.machine)?;
    page.put(": ")?;
    named.put_task(page, t)?;
    named.put_at(page, t, 0)?;
    if let Fault::Load | Fault::Store = fault
        && let Some(address) = address_of(named.machine, t, fault)
    {
        page.put(", of address ")?;
        page.put_hexadecimal(address)?;
    }
    page.put("\n")
}

fn put_faulted(page: &mut Page, named: Named<'_>, t: u8) -> Result<(), NoMemory> {
    match named.machine.task(t) {
        Some(task) => match task.state {
            TaskState::Faulted(fault) => put_fault(page, named, t, fault),
            _ => Ok(()),
        },
        None => Ok(()),
    }
}

fn put_bound(page: &mut Page, machine: &Machine<AnyDevice>) -> Result<(), NoMemory> {
    page.put("not all tasks ended within ")?;
    put_count(page, machine.event_count(), " event: ", " events: ")?;
    put_length(page, machine)?;
    page.put("\n")
}

// A script ended before all tasks.
fn put_over(page: &mut Page, machine: &Machine<AnyDevice>) -> Result<(), NoMemory> {
    page.put("not all tasks ended within the script: ")?;
    put_length(page, machine)?;
    page.put("\n")
}

// What a run has come to, in a line.
fn put_ending(page: &mut Page, named: Named<'_>, ending: RunEnd) -> Result<(), NoMemory> {
    let words = match ending {
        RunEnd::Break(c) => return put_break(page, named, c),
        RunEnd::Fault(t) => return put_faulted(page, named, t),
        RunEnd::Refused(_) => return put_bound(page, named.machine),
        RunEnd::AllEnded => "all tasks ended",
        RunEnd::Deadlock => "deadlock",
        RunEnd::Idle => "idle",
        RunEnd::Over => return put_over(page, named.machine),
    };
    put_behind(page, words, named.machine)?;
    page.put(match ending {
        RunEnd::Deadlock => { ": no task can run, and no deadline, timer or line is to come\n" }
        RunEnd::Idle => ": no processor has anything to do\n",
        _ => "\n",
    })
}

/// The end of a run: how it ended; if tasks are left, who runs, who waits and who owns; and the notices. The last line of the console is
/// ended first.
pub(crate) fn put_finished(
    page: &mut Page,
    names: &Names,
    done: &FinishedRun,
) -> Result<(), NoMemory> {
    let named = Named {
        machine: &done.machine,
        names,
    };
    if done.is_open {
        page.put("\n")?;
    }
    put_ending(page, named, done.ending)?;
    if done.ending != RunEnd::AllEnded {
        named.put_machine(page)?;
    }
    if done.ending == RunEnd::Deadlock {
        named.put_lines(page)?;
    }
    named.put_notices(page)
}
