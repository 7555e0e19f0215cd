//! What stands behind the text of a view, decoded.

use crate::answers::{is_behind_call, put_answer, put_call, put_code, put_last_call, put_state};
use crate::naming::{put_object, put_pc};
use crate::page::Page;
use evm_exec::Hart;
use evm_lines::{LINES, LineSet};
use evm_model::{Notice, NoticeKind, StageLog, TaskState};
use evm_room::NoMemory;
use evm_serve::{AnyDevice, LastCall, Machine, Notes, View};
use text_symbols::{Names, ObjectKind};

fn put_lines(page: &mut Page, words: &str, lines: LineSet) -> Result<(), NoMemory> {
    if lines.is_empty() {
        return Ok(());
    }
    page.put(words)?;
    for line in 0..LINES {
        if lines.contains(line) {
            page.put(" ")?;
            page.put_decimal(u64::from(line))?;
        }
    }
    page.put("\n")
}

// The lines of a log, and whether its stage is stalled.
fn put_log(page: &mut Page, words: &str, stalled: &str, log: StageLog) -> Result<(), NoMemory> {
    put_lines(page, words, log.lines)?;
    if log.stalled {
        page.put(stalled)?;
    }
    Ok(())
}

fn put_stages(page: &mut Page, machine: &Machine<AnyDevice>, c: u8) -> Result<(), NoMemory> {
    let Some(stages) = machine.stages(c) else {
        return Ok(());
    };
    put_lines(page, "  on the wire: lines", stages.wire)?;
    let oob = stages.oob;
    let in_band = stages.in_band;
    put_log(
        page,
        "  in the out-of-band log: lines",
        "  out-of-band is stalled\n",
        oob,
    )?;
    put_log(
        page,
        "  in the in-band log: lines",
        "  in-band is stalled\n",
        in_band,
    )
}

/// A notice of the health monitor.
pub fn put_notice(
    page: &mut Page,
    names: &Names,
    machine: &Machine<AnyDevice>,
    notice: &Notice,
) -> Result<(), NoMemory> {
    page.put("  notice ")?;
    page.put(match notice.kind {
        NoticeKind::DemotedByCall => "1, demoted by a call, of ",
        NoticeKind::DemotedByFault => "2, demoted by a fault, of ",
        NoticeKind::Deadlock => "3, a lock that would never end, of ",
        NoticeKind::NotOwner => "4, an unlock of another's mutex, of ",
        NoticeKind::Overran => "5, demoted by the watchdog, of ",
    })?;
    put_object(page, names, machine, ObjectKind::Task, notice.task)?;
    page.put(" at tick ")?;
    page.put_decimal(notice.tick)?;
    page.put("\n")
}

// The call that a task is behind, or else the last that it has made.
fn put_calls(
    page: &mut Page,
    machine: &Machine<AnyDevice>,
    hart: &Hart,
    last: Option<LastCall>,
) -> Result<(), NoMemory> {
    if is_behind_call(machine, hart) {
        return put_call(page, hart);
    }
    match last {
        None => Ok(()),
        Some(call) => put_last_call(page, call),
    }
}

fn put_task(
    page: &mut Page,
    names: &Names,
    machine: &Machine<AnyDevice>,
    notes: &Notes,
    t: u8,
) -> Result<(), NoMemory> {
    let (Some(task), Some(hart)) = (machine.task(t), machine.hart(t)) else {
        return Ok(());
    };
    page.put("  ")?;
    put_object(page, names, machine, ObjectKind::Task, t)?;
    page.put(" at ")?;
    put_pc(page, names, machine, &hart, task.state)?;
    page.put(", ")?;
    put_state(page, names, machine, task.state)?;
    if !matches!(task.state, TaskState::Exit) {
        put_calls(page, machine, &hart, notes.last_call(t))?;
    }
    page.put("\n")
}

fn put_regs(
    page: &mut Page,
    names: &Names,
    machine: &Machine<AnyDevice>,
    c: u8,
) -> Result<(), NoMemory> {
    let Some(processor) = machine.cpu(c) else {
        return Ok(());
    };
    let Some(t) = processor.current else {
        return Ok(());
    };
    let Some(hart) = machine.hart(t) else {
        return Ok(());
    };
    page.put("  pc ")?;
    put_code(page, names, hart.pc)?;
    page.put(", ra ")?;
    put_code(page, names, hart.regs[1])?;
    page.put(", a0 ")?;
    put_answer(page, hart.regs[10])?;
    page.put("\n")
}

/// What a view says, in names and words, behind its text.
pub fn put_decoded(
    page: &mut Page,
    names: &Names,
    machine: &Machine<AnyDevice>,
    notes: &Notes,
    view: &View,
) -> Result<(), NoMemory> {
    match view {
        View::Stages(c) => put_stages(page, machine, *c),
        View::Regs(c) => put_regs(page, names, machine, *c),
        View::Tasks => {
            for t in 0..machine.task_count() {
                put_task(page, names, machine, notes, t)?;
            }
            Ok(())
        }
        View::Notices => {
            for i in 0..machine.notice_count() {
                if let Some(notice) = machine.notice(i) {
                    put_notice(page, names, machine, &notice)?;
                }
            }
            Ok(())
        }
        _ => Ok(()),
    }
}
