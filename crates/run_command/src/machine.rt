//! A machine in words: who runs, who waits for what, who owns it.

use evm_lines::LINES;
use evm_model::{Action, Fault, Task, TaskState, Wait};
use evm_room::NoMemory;
use run_schedule::{AnyDevice, Machine};
use sh_answers::{Names, ObjectKind, Page, put_notice, put_object, put_standing};

/// A machine, and the names of what is in it.
#[derive(Clone, Copy)]
pub(crate) struct Named<'a> {
    pub(crate) machine: &'a Machine<AnyDevice>,
    pub(crate) names: &'a Names,
}

/// What a fault is.
pub(crate) fn fault_words(fault: Fault) -> &'static str {
    match fault {
        Fault::Misaligned => "fault 0, a jump to an address that is no multiple of 4,",
        Fault::Fetch => "fault 1, a pc outside RAM,",
        Fault::Illegal => "fault 2, a word that is no instruction,",
        Fault::Load => "fault 5, a load from outside memory,",
        Fault::Store => "fault 7, a store to outside memory,",
    }
}

impl Named<'_> {
    pub(crate) fn put_task(&self, page: &mut Page, t: u8) -> Result<(), NoMemory> {
        put_object(page, self.names, self.machine, ObjectKind::Task, t)
    }

    fn put_kind(&self, page: &mut Page, kind: ObjectKind, number: u8) -> Result<(), NoMemory> {
        put_object(page, self.names, self.machine, kind, number)
    }

    // Where a task is: its pc less some bytes.
    pub(crate) fn put_at(&self, page: &mut Page, t: u8, back: u64) -> Result<(), NoMemory> {
        let Some(hart) = self.machine.hart(t) else {
            return Ok(());
        };
        page.put(" at ")?;
        put_standing(page, self.names, self.machine, &hart, back)
    }

    /// What a0 of a task holds.
    pub(crate) fn put_a0(&self, page: &mut Page, t: u8) -> Result<(), NoMemory> {
        let Some(hart) = self.machine.hart(t) else {
            return Ok(());
        };
        page.put(", a0 ")?;
        page.put_decimal(hart.regs[10])
    }

    // A mutex for which a task waits, and who owns it.
    fn put_lock(&self, page: &mut Page, mutex: u8) -> Result<(), NoMemory> {
        self.put_kind(page, ObjectKind::Mutex, mutex)?;
        let Some(known) = self.machine.mutex(mutex) else {
            return Ok(());
        };
        let Some(owner) = known.owner else {
            return Ok(());
        };
        page.put(", which ")?;
        self.put_task(page, owner)?;
        page.put(" owns,")
    }

    // A timer for which a task waits, and when it is due.
    fn put_timer(&self, page: &mut Page, number: u8) -> Result<(), NoMemory> {
        self.put_kind(page, ObjectKind::Timer, number)?;
        let Some(timer) = self.machine.timer(number) else {
            return Ok(());
        };
        if timer.due == 0 {
            return page.put(", which is off,");
        }
        page.put(", due at tick ")?;
        page.put_decimal(timer.due)?;
        page.put(",")
    }

    fn put_wait(&self, page: &mut Page, wait: Wait) -> Result<(), NoMemory> {
        page.put(match wait {
            Wait::Sleep => " sleeps",
            _ => " waits for ",
        })?;
        match wait {
            Wait::Sleep => Ok(()),
            Wait::Line(line) => {
                page.put("line ")?;
                page.put_decimal(u64::from(line))
            }
            Wait::Lock(mutex) => self.put_lock(page, mutex),
            Wait::Reacquire { mutex, .. } => self.put_lock(page, mutex),
            Wait::Semaphore(number) => self.put_kind(page, ObjectKind::Semaphore, number),
            Wait::Event(number) => self.put_kind(page, ObjectKind::Event, number),
            Wait::Flags(number) => self.put_kind(page, ObjectKind::Flags, number),
            Wait::Timer(number) => self.put_timer(page, number),
        }
    }

    fn put_waiting(&self, page: &mut Page, t: u8, task: &Task, wait: Wait) -> Result<(), NoMemory> {
        self.put_wait(page, wait)?;
        self.put_at(page, t, 4)?;
        if task.deadline == 0 {
            return Ok(());
        }
        page.put(", until tick ")?;
        page.put_decimal(task.deadline)
    }

    fn put_ready(&self, page: &mut Page, t: u8, task: &Task, stage: &str) -> Result<(), NoMemory> {
        page.put(" is ready ")?;
        page.put(stage)?;
        page.put(" on processor ")?;
        page.put_decimal(u64::from(task.cpu))?;
        self.put_at(page, t, 0)
    }

    // What a task does that no processor runs.
    fn put_state(&self, page: &mut Page, t: u8, task: &Task) -> Result<(), NoMemory> {
        match task.state {
            TaskState::InReady => self.put_ready(page, t, task, "in-band"),
            TaskState::OobReady => self.put_ready(page, t, task, "out-of-band"),
            TaskState::Waits(wait) => self.put_waiting(page, t, task, wait),
            TaskState::Exit => page.put(" has ended"),
            TaskState::Faulted(fault) => {
                page.put(" ended by ")?;
                page.put(fault_words(fault))?;
                self.put_at(page, t, 0)
            }
        }
    }

    // Whether a processor runs a task.
    fn runs(&self, t: u8) -> bool {
        for c in 0..self.machine.cpu_count() {
            if let Some(processor) = self.machine.cpu(c)
                && processor.current == Some(t)
            {
                return true;
            }
        }
        false
    }

    fn put_processor(&self, page: &mut Page, c: u8) -> Result<(), NoMemory> {
        let Some(processor) = self.machine.cpu(c) else {
            return Ok(());
        };
        page.put("  processor ")?;
        page.put_decimal(u64::from(c))?;
        let Some(t) = processor.current else {
            return page.put(if processor.stopped {
                " is stopped\n"
            } else {
                " runs no task\n"
            });
        };
        page.put(if processor.stopped {
            " is stopped: "
        } else {
            " runs "
        })?;
        self.put_task(page, t)?;
        self.put_at(page, t, 0)?;
        page.put("\n")
    }

    // Whether a program asks for a line from outside: a task waits for it, or it has an action.
    fn asks_for(&self, line: u8) -> bool {
        if self.machine.action(line) != Action::Nothing {
            return true;
        }
        for t in 0..self.machine.task_count() {
            if let Some(task) = self.machine.task(t)
                && task.state == TaskState::Waits(Wait::Line(line))
            {
                return true;
            }
        }
        false
    }

    /// Says which lines the program asks for, which none is to raise.
    pub(crate) fn put_lines(&self, page: &mut Page) -> Result<(), NoMemory> {
        for line in 2..LINES {
            if self.asks_for(line) {
                page.put("  line ")?;
                page.put_decimal(u64::from(line))?;
                page.put(" is asked for: see --lines\n")?;
            }
        }
        Ok(())
    }

    // A task that has not ended by exit and that no processor runs.
    fn put_other(&self, page: &mut Page, t: u8) -> Result<(), NoMemory> {
        let Some(task) = self.machine.task(t) else {
            return Ok(());
        };
        if task.state == TaskState::Exit || self.runs(t) {
            return Ok(());
        }
        page.put("  ")?;
        self.put_task(page, t)?;
        self.put_state(page, t, &task)?;
        page.put("\n")
    }

    // A mutex that has an owner.
    fn put_owned(&self, page: &mut Page, m: u8) -> Result<(), NoMemory> {
        let Some(mutex) = self.machine.mutex(m) else {
            return Ok(());
        };
        let Some(owner) = mutex.owner else {
            return Ok(());
        };
        page.put("  ")?;
        self.put_kind(page, ObjectKind::Mutex, m)?;
        page.put(" is owned by ")?;
        self.put_task(page, owner)?;
        page.put("\n")
    }

    /// The notices of the health monitor that are kept, a line each.
    pub(crate) fn put_notices(&self, page: &mut Page) -> Result<(), NoMemory> {
        for i in 0..self.machine.notice_count() {
            if let Some(notice) = self.machine.notice(i) {
                put_notice(page, self.names, self.machine, &notice)?;
            }
        }
        Ok(())
    }

    /// Who runs, who waits and who owns, a line each. Tasks that have ended by exit aren't named.
    pub(crate) fn put_machine(&self, page: &mut Page) -> Result<(), NoMemory> {
        for c in 0..self.machine.cpu_count() {
            self.put_processor(page, c)?;
        }
        for t in 0..self.machine.task_count() {
            self.put_other(page, t)?;
        }
        for m in 0..self.machine.mutex_count() {
            self.put_owned(page, m)?;
        }
        Ok(())
    }
}
