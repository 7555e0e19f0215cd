//! What rows do to one task.

ghost use Rattle.std.specs.Prelude.{◌≡◌, ◌<◌, ◌≤◌, ◌+◌, false, slice_get, Option, length};
ghost use Rattle.evm_model.specs.Bounds.{HasStamps};
ghost use Rattle.evm_model.specs.InBandCalls.{add_task};
ghost use Rattle.evm_model.specs.Passing.{end_task};
ghost use Rattle.evm_model.specs.State.{new_task};
ghost use Rattle.evm_model.specs.Tasks.{restamp, set_state, leave_in_band};
ghost use Rattle.evm_model.specs.Waits.{awaits_line, begin_wait, wake, wake_below, wake_waiter};
ghost use Rattle.evm_parts.specs.Waking.{woken_with};

use crate::parts::Parts;
use evm_model::{Class, MUTEX_LIMIT, Mode, Stage, TASK_LIMIT, Task, TaskState, Wait};

// An unattached in-band task.
fn new_task(cpu: u8, stamp: u64) -> Task
    ensures { result ≡ new_task cpu stamp }
{
    Task {
        cpu,
        class: Class::Unattached,
        priority: 0,
        slice: 0,
        mode: Mode { bits: 0 },
        stamp,
        deadline: 0,
        state: TaskState::InReady,
    }
}

impl Parts {
    /// Gives a task a fresh stamp.
    #[inline(always)]
    #[tactic(auto, unfolding(evm_model::specs::Tasks::restamp))]
    pub fn restamp(&mut self, t: u8)
        requires room { HasStamps 1 self.old }
        ensures row { self.new ≡ restamp t self.old }
        ensures stamps { self.new.stamps ≡ self.old.stamps + 1 }
    {
        let stamp = self.stamps;
        self.schedule
            .set_stamp(&mut self.tasks, &self.mutexes, t, stamp);
        self.stamps = stamp + 1;
    }

    /// A task has another state.
    #[tactic(auto, unfolding(evm_model::specs::Tasks::set_state))]
    pub fn set_state(&mut self, t: u8, state: TaskState)
        ensures row { self.new ≡ set_state t state self.old }
        ensures stamps { self.new.stamps ≡ self.old.stamps }
    {
        self.schedule
            .set_state(&mut self.tasks, &self.mutexes, t, state);
    }

    // A task has another state and a fresh stamp.
    #[tactic(auto, unfolding(evm_model::specs::Tasks::restamp, evm_model::specs::Tasks::set_state))]
    pub(crate) fn requeue(&mut self, t: u8, state: TaskState)
        requires room { HasStamps 1 self.old }
        ensures row { self.new ≡ restamp t (set_state t state self.old) }
        ensures stamps { self.new.stamps ≡ self.old.stamps + 1 }
    {
        let stamp = self.stamps;
        self.schedule
            .set_state_and_stamp(&mut self.tasks, &self.mutexes, t, state, stamp);
        self.stamps = stamp + 1;
    }

    /// A processor has no in-band current task.
    #[tactic(auto, unfolding(evm_model::specs::Tasks::leave_in_band))]
    pub fn leave_in_band(&mut self, c: u8)
        ensures row { self.new ≡ leave_in_band c self.old }
    {
        self.set_in_band_task(c, None);
    }

    /// A task ends: its mutexes pass on, in-band isn't stalled on its processor afterwards, and it is in-band current
    /// no more.
    #[tactic(auto, unfolding(evm_model::specs::Passing::end_task))]
    pub fn end_task(&mut self, c: u8, t: u8, state: TaskState)
        requires room { HasStamps MUTEX_LIMIT self.old }
        ensures row { self.new ≡ end_task c t state self.old }
    {
        self.hand_over_all(t);
        self.set_stall(c, Stage::InBand, false);
        self.leave_in_band(c);
        self.set_state(t, state);
    }

    /// One task more: unattached, ready in-band, its registers 0 except a0.
    #[tactic(auto, unfolding(evm_model::specs::InBandCalls::add_task))]
    pub fn add_task(&mut self, entry: u64, value: u64, cpu: u8)
        requires room { HasStamps 1 self.old }
        requires harts { length self.old.harts < TASK_LIMIT }
        requires tasks { length self.old.tasks < TASK_LIMIT }
        ensures row { self.new ≡ add_task entry value cpu self.old }
    {
        let stamp = self.stamps;
        self.harts.push_spawned(entry, value);
        self.schedule
            .push(&mut self.tasks, &self.mutexes, new_task(cpu, stamp));
        self.stamps = stamp + 1;
    }

    /// A task waits, until a deadline if that is not 0.
    #[inline]
    #[tactic(auto, unfolding(evm_model::specs::Waits::begin_wait, evm_model::specs::Tasks::restamp))]
    pub fn begin_wait(&mut self, t: u8, wait: Wait, deadline: u64)
        requires room { HasStamps 1 self.old }
        ensures row { self.new ≡ begin_wait t wait deadline self.old }
        ensures stamps { self.new.stamps ≡ self.old.stamps + 1 }
    {
        let stamp = self.stamps;
        self.schedule
            .begin_wait(&mut self.tasks, &self.mutexes, t, wait, deadline, stamp);
        self.stamps = stamp + 1;
    }

    /// A task wakes, and its call is answered: it is ready on the stage on which it waited, but in-band if it is weak
    /// and owns no mutex.
    #[inline(never)]
    #[tactic(auto, unfolding(evm_model::specs::Waits::wake))]
    pub fn wake(&mut self, t: u8, value: u64)
        requires room { HasStamps 1 self.old }
        ensures row { self.new ≡ wake t value self.old }
        ensures stamps { self.new.stamps ≡ self.old.stamps + 1 }
    {
        let owns = self.mutexes.owns_any(t);
        self.wake_with(t, value, owns);
    }

    // A task wakes, and its call is answered: in-band if it is weak, unless it owns a mutex.
    #[inline(always)]
    #[tactic(auto, unfolding(evm_model::specs::Tasks::restamp))]
    pub(crate) fn wake_with(&mut self, t: u8, value: u64, owns: bool)
        requires room { HasStamps 1 self.old }
        ensures row { self.new ≡ woken_with t value owns self.old }
        ensures stamps { self.new.stamps ≡ self.old.stamps + 1 }
    {
        let stamp = self.stamps;
        self.harts.set_a0(t, value);
        self.schedule
            .end_wait(&mut self.tasks, &self.mutexes, t, owns, stamp);
        self.stamps = stamp + 1;
    }

    // Whether a task waits on a processor for a line.
    fn awaits_line(&self, c: u8, line: u8, t: u8) -> bool
        ensures { result ≡ awaits_line c line (slice_get self.now.tasks t) }
    {
        let Some(task) = self.tasks.get(t) else {
            return false;
        };
        match task.state {
            TaskState::Waits(Wait::Line(l)) => l == line && task.cpu == c,
            _ => false,
        }
    }

    // Wakes a task that waits on a processor for a line.
    fn wake_waiter(&mut self, c: u8, line: u8, t: u8)
        requires room { HasStamps 1 self.old }
        ensures row { self.new ≡ wake_waiter c line t self.old }
        ensures stamps { self.new.stamps ≤ self.old.stamps + 1 }
    {
        if self.awaits_line(c, line, t) {
            self.wake(t, 0);
        }
    }

    /// Wakes the tasks that wait on a processor for a line, by number.
    #[tactic(auto, using(crate::proofs::Wakes::wakes))]
    pub fn wake_waiters(&mut self, c: u8, line: u8)
        requires room { HasStamps TASK_LIMIT self.old }
        ensures row { self.new ≡ wake_below c line (length self.old.tasks) self.old }
        ensures stamps { self.new.stamps ≤ self.old.stamps + TASK_LIMIT }
    {
        'waking: for t in 0..self.tasks.count() {
            self.wake_waiter(c, line, t);
        }
    }
}
