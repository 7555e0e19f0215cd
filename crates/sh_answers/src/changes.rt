//! What has changed since a snapshot.

use crate::answers::{put_place, put_state};
use crate::naming::{put_name, put_object, put_pc, put_standing};
use crate::page::Page;
use crate::registers::register_name;
use crate::snapshot::{Snapshot, TaskShot};
use evm_exec::Hart;
use evm_room::NoMemory;
use evm_serve::{AnyDevice, Machine};
use text_symbols::{Names, ObjectKind};

fn put_task(
    page: &mut Page,
    names: &Names,
    machine: &Machine<AnyDevice>,
    t: u8,
) -> Result<(), NoMemory> {
    page.put("  ")?;
    put_object(page, names, machine, ObjectKind::Task, t)
}

fn put_cpu(page: &mut Page, c: u8) -> Result<(), NoMemory> {
    page.put("  cpu ")?;
    page.put_decimal(u64::from(c))
}

fn put_owner(
    page: &mut Page,
    names: &Names,
    machine: &Machine<AnyDevice>,
    owner: Option<u8>,
) -> Result<(), NoMemory> {
    match owner {
        None => page.put("none"),
        Some(t) => {
            page.put_decimal(u64::from(t))?;
            put_name(page, names, machine, ObjectKind::Task, t)
        }
    }
}

fn put_current(
    page: &mut Page,
    names: &Names,
    machine: &Machine<AnyDevice>,
    current: Option<u8>,
) -> Result<(), NoMemory> {
    match current {
        None => page.put("no task"),
        Some(t) => put_object(page, names, machine, ObjectKind::Task, t),
    }
}

// Where a processor is stopped: at the pc of its task.
fn put_stop(
    page: &mut Page,
    names: &Names,
    machine: &Machine<AnyDevice>,
    current: Option<u8>,
) -> Result<(), NoMemory> {
    let Some(t) = current else {
        return page.put(", without a task");
    };
    match machine.hart(t) {
        None => Ok(()),
        Some(hart) => {
            page.put(" at ")?;
            put_standing(page, names, machine, &hart, 0)
        }
    }
}

// So many steps did nothing.
fn put_steps(page: &mut Page, count: u32) -> Result<(), NoMemory> {
    page.put(", ")?;
    page.put_decimal(u64::from(count))?;
    page.put(if count == 1 { " step" } else { " steps" })?;
    page.put(" swallowed")
}

/// How many steps of a processor did nothing, since it is stopped.
pub fn put_swallowed(
    page: &mut Page,
    names: &Names,
    machine: &Machine<AnyDevice>,
    c: u8,
    count: u32,
) -> Result<(), NoMemory> {
    let Some(processor) = machine.cpu(c) else {
        return Ok(());
    };
    put_cpu(page, c)?;
    page.put(" is stopped")?;
    put_stop(page, names, machine, processor.current)?;
    put_steps(page, count)?;
    page.put("\n")
}

/// The last steps of a processor, which did nothing, since it had stopped.
#[derive(Clone, Copy, Debug)]
pub struct Swallowed {
    pub cpu: u8,
    pub steps: u32,
}

// How many steps of a processor were swallowed.
fn swallowed_by(c: u8, swallowed: Option<Swallowed>) -> u32 {
    match swallowed {
        Some(swallowed) if swallowed.cpu == c => swallowed.steps,
        _ => 0,
    }
}

/// A machine, with its names, beside what it was.
#[derive(Clone, Copy)]
pub struct Comparison<'a> {
    pub names: &'a Names,
    pub machine: &'a Machine<AnyDevice>,
    pub old: &'a Snapshot,
}

impl Comparison<'_> {
    // The current task of a processor, if it is another, and whether the processor was stopped or let go.
    fn put_processor(&self, page: &mut Page, c: u8, swallowed: u32) -> Result<(), NoMemory> {
        let (Some(old), Some(new)) = (self.old.processors.get(usize::from(c)), self.machine.cpu(c))
        else {
            return Ok(());
        };
        if old.current != new.current {
            put_cpu(page, c)?;
            page.put(" runs ")?;
            put_current(page, self.names, self.machine, new.current)?;
            page.put(", before: ")?;
            put_current(page, self.names, self.machine, old.current)?;
            page.put("\n")?;
        }
        if old.stopped != new.stopped {
            put_cpu(page, c)?;
            page.put(if new.stopped { " stopped" } else { " goes on" })?;
            put_stop(page, self.names, self.machine, new.current)?;
            if swallowed != 0 {
                put_steps(page, swallowed)?;
            }
            page.put("\n")?;
        }
        Ok(())
    }

    // The state of a task, if it is another.
    fn put_state_change(&self, page: &mut Page, t: u8, new: &TaskShot) -> Result<(), NoMemory> {
        let Some(old) = self.old.tasks.get(usize::from(t)) else {
            put_task(page, self.names, self.machine, t)?;
            page.put(" is new, ")?;
            put_state(page, self.names, self.machine, new.state)?;
            return page.put("\n");
        };
        if old.state == new.state {
            return Ok(());
        }
        put_task(page, self.names, self.machine, t)?;
        page.put(" at ")?;
        put_pc(page, self.names, self.machine, &new.hart, new.state)?;
        page.put(" ")?;
        put_state(page, self.names, self.machine, new.state)?;
        page.put(", was: ")?;
        put_state(page, self.names, self.machine, old.state)?;
        page.put("\n")
    }

    /// The processors that were stopped or let go, or run another task, and the tasks whose state is another. A processor that
    /// has stopped may have swallowed steps.
    pub fn put_states(
        &self,
        page: &mut Page,
        swallowed: Option<Swallowed>,
    ) -> Result<(), NoMemory> {
        for c in 0..self.machine.cpu_count() {
            self.put_processor(page, c, swallowed_by(c, swallowed))?;
        }
        for t in 0..self.machine.task_count() {
            if let Some(task) = self.machine.task(t)
                && let Some(hart) = self.machine.hart(t)
            {
                let state = task.state;
                self.put_state_change(page, t, &TaskShot { state, hart })?;
            }
        }
        Ok(())
    }

    fn put_registers(
        &self,
        page: &mut Page,
        t: u8,
        old: &Hart,
        new: &Hart,
    ) -> Result<(), NoMemory> {
        for r in 1..32usize {
            if old.regs[r] != new.regs[r] {
                put_task(page, self.names, self.machine, t)?;
                page.put(" ")?;
                page.put(register_name(r))?;
                page.put(" ")?;
                page.put_hexadecimal(old.regs[r])?;
                page.put(" -> ")?;
                page.put_hexadecimal(new.regs[r])?;
                page.put("\n")?;
            }
        }
        Ok(())
    }

    fn put_move(&self, page: &mut Page, t: u8, old: &Hart, new: &Hart) -> Result<(), NoMemory> {
        if old.pc == new.pc {
            return Ok(());
        }
        put_task(page, self.names, self.machine, t)?;
        page.put(" pc ")?;
        put_place(page, self.names, old.pc)?;
        page.put(" -> ")?;
        put_place(page, self.names, new.pc)?;
        page.put("\n")
    }

    /// The pcs and registers that are others.
    pub fn put_harts(&self, page: &mut Page) -> Result<(), NoMemory> {
        for t in 0..self.machine.task_count() {
            if let Some(before) = self.old.tasks.get(usize::from(t))
                && let Some(now) = self.machine.hart(t)
            {
                self.put_move(page, t, &before.hart, &now)?;
                self.put_registers(page, t, &before.hart, &now)?;
            }
        }
        Ok(())
    }

    /// The mutexes that have another owner.
    pub fn put_owners(&self, page: &mut Page) -> Result<(), NoMemory> {
        for m in 0..self.machine.mutex_count() {
            let before = self.old.owners.get(usize::from(m)).copied().flatten();
            if let Some(mutex) = self.machine.mutex(m)
                && mutex.owner != before
            {
                page.put("  ")?;
                put_object(page, self.names, self.machine, ObjectKind::Mutex, m)?;
                page.put(" owner ")?;
                put_owner(page, self.names, self.machine, before)?;
                page.put(" -> ")?;
                put_owner(page, self.names, self.machine, mutex.owner)?;
                page.put("\n")?;
            }
        }
        Ok(())
    }
}
