//! A machine in the words of the shell: who runs, who waits for what and since when, who owns it, and which interrupts are pending.

use crate::session::GdbSession;
use evm_exec::Hart;
use evm_model::{Task, TaskState};
use evm_room::NoMemory;
use gdb_tape::cut_line;
use sh_answers::{Notes, ObjectKind, Page, View, put_decoded, put_object, put_standing};
use std::alloc::Global;

// What a view of a session's machine says, in names and words.
fn put_view(
    page: &mut Page,
    session: &GdbSession,
    notes: &Notes,
    view: &View,
) -> Result<(), NoMemory> {
    put_decoded(page, &session.names, &session.tape.machine, notes, view)
}

fn put_named(
    page: &mut Page,
    session: &GdbSession,
    kind: ObjectKind,
    number: u8,
) -> Result<(), NoMemory> {
    put_object(page, &session.names, &session.tape.machine, kind, number)
}

// The line of a task among those of all, without the two blanks in front.
fn line_of(lines: &[u8], task: u8) -> &[u8] {
    let mut rest = lines;
    'lines: for _ in 0..task {
        rest = match cut_line(rest) {
            Some((_, after)) => after,
            None => return b"",
        };
    }
    match cut_line(rest) {
        Some((line, _)) => line.strip_prefix(b"  ").unwrap_or(line),
        None => b"",
    }
}

// The event since which a task has been in its state; nothing if it began so.
fn put_since(
    alloc: Global,
    page: &mut Page,
    session: &GdbSession,
    task: u8,
) -> Result<(), NoMemory> {
    let Ok(Some(event)) = session.tape.since(alloc, task) else {
        return Ok(());
    };
    page.put("since event ")?;
    page.put_decimal(event)?;
    page.put(", ")
}

// The tick at which a wait ends.
fn put_deadline(page: &mut Page, task: &Task) -> Result<(), NoMemory> {
    if task.deadline == 0 || !matches!(task.state, TaskState::Waits(_)) {
        return Ok(());
    }
    page.put("until tick ")?;
    page.put_decimal(task.deadline)?;
    page.put(", ")
}

/// A task, and its line among those of all.
#[derive(Clone, Copy)]
struct ListedTask<'a> {
    number: u8,
    task: &'a Task,
    line: &'a [u8],
}

// What the line of a task says, and since when it is so, its rank and its processor.
fn put_task(
    alloc: Global,
    page: &mut Page,
    session: &GdbSession,
    listed: ListedTask<'_>,
) -> Result<(), NoMemory> {
    page.put_bytes(listed.line)?;
    page.put("; ")?;
    put_since(alloc, page, session, listed.number)?;
    put_deadline(page, listed.task)?;
    page.put("rank ")?;
    page.put_decimal(u64::from(session.tape.machine.rank(listed.number)))?;
    page.put(", processor ")?;
    page.put_decimal(u64::from(listed.task.cpu))
}

/// What there is to say of a task: its name, its state and since which event, its rank and its processor.
pub(crate) fn put_thread(
    alloc: Global,
    page: &mut Page,
    session: &GdbSession,
    number: u8,
) -> Result<(), NoMemory> {
    let Some(task) = session.tape.machine.task(number) else {
        return Ok(());
    };
    let notes = Notes::new(alloc)?;
    let mut lines = Page::new(alloc);
    put_view(&mut lines, session, &notes, &View::Tasks)?;
    let listed = ListedTask {
        number,
        task: &task,
        line: line_of(lines.bytes(), number),
    };
    put_task(alloc, page, session, listed)
}

// Where a processor runs its task.
fn put_at(page: &mut Page, session: &GdbSession, hart: &Hart) -> Result<(), NoMemory> {
    page.put(" at ")?;
    put_standing(page, &session.names, &session.tape.machine, hart, 0)
}

// The task of a processor, if it has one.
fn put_current(page: &mut Page, session: &GdbSession, current: Option<u8>) -> Result<(), NoMemory> {
    let Some(task) = current else {
        return page.put("no task");
    };
    put_named(page, session, ObjectKind::Task, task)?;
    match session.tape.machine.hart(task) {
        Some(hart) => put_at(page, session, &hart),
        None => Ok(()),
    }
}

// A processor: its task, and the interrupts that are pending on it.
fn put_processor(
    page: &mut Page,
    session: &GdbSession,
    notes: &Notes,
    cpu: u8,
) -> Result<(), NoMemory> {
    let Some(processor) = session.tape.machine.cpu(cpu) else {
        return Ok(());
    };
    page.put("processor ")?;
    page.put_decimal(u64::from(cpu))?;
    page.put(" runs ")?;
    put_current(page, session, processor.current)?;
    page.put("\n")?;
    put_view(page, session, notes, &View::Stages(cpu))
}

// Whether a processor runs a task.
fn runs(session: &GdbSession, task: u8) -> bool {
    for cpu in 0..session.tape.machine.cpu_count() {
        if let Some(processor) = session.tape.machine.cpu(cpu)
            && processor.current == Some(task)
        {
            return true;
        }
    }
    false
}

// A task that has not ended by exit and that no processor runs.
fn put_other(
    alloc: Global,
    page: &mut Page,
    session: &GdbSession,
    line: &[u8],
    number: u8,
) -> Result<(), NoMemory> {
    let Some(task) = session.tape.machine.task(number) else {
        return Ok(());
    };
    if task.state == TaskState::Exit || runs(session, number) {
        return Ok(());
    }
    let listed = ListedTask {
        number,
        task: &task,
        line,
    };
    put_task(alloc, page, session, listed)?;
    page.put("\n")
}

// A mutex that has an owner, and the rank of the owner.
fn put_owned(page: &mut Page, session: &GdbSession, number: u8) -> Result<(), NoMemory> {
    let Some(mutex) = session.tape.machine.mutex(number) else {
        return Ok(());
    };
    let Some(owner) = mutex.owner else {
        return Ok(());
    };
    put_named(page, session, ObjectKind::Mutex, number)?;
    page.put(" is owned by ")?;
    put_named(page, session, ObjectKind::Task, owner)?;
    page.put(", of rank ")?;
    page.put_decimal(u64::from(session.tape.machine.rank(owner)))?;
    page.put("\n")
}

/// Who runs and which interrupts are pending, who waits for what since which event, and who owns which mutex, a line each. Tasks
/// that have ended by exit aren't named.
pub(crate) fn put_machine(
    alloc: Global,
    page: &mut Page,
    session: &GdbSession,
) -> Result<(), NoMemory> {
    let notes = Notes::new(alloc)?;
    for cpu in 0..session.tape.machine.cpu_count() {
        put_processor(page, session, &notes, cpu)?;
    }
    let mut lines = Page::new(alloc);
    put_view(&mut lines, session, &notes, &View::Tasks)?;
    for task in 0..session.tape.machine.task_count() {
        let line = line_of(lines.bytes(), task);
        put_other(alloc, page, session, line, task)?;
    }
    for mutex in 0..session.tape.machine.mutex_count() {
        put_owned(page, session, mutex)?;
    }
    Ok(())
}
