ghost use Rattle.std.specs.Prelude.{◌≡◌, ◌<◌, ◌≤◌, [], ◌∷◌, ◌++◌, length, slice_get};
ghost use Rattle.arrayvec.specs.ArrayVec.{array_vec_len};
ghost use Rattle.evm_model.specs.Calls.{is_weak_oob};
ghost use Rattle.evm_model.specs.Deadlines.{deadline, is_due};
ghost use Rattle.evm_model.specs.Lists.{change};
ghost use Rattle.evm_model.specs.declared.limits.TheConstants.{SLICE};
ghost use Rattle.evm_model.specs.Ranks.{first, leader};
ghost use Rattle.evm_model.specs.OobCalls.{is_scheduled_task, mode_of, moved};
ghost use Rattle.evm_model.specs.Settle.{is_oob};
ghost use Rattle.evm_model.specs.Stages.{is_attached_task};
ghost use Rattle.evm_model.specs.State.{no_mode};
ghost use Rattle.evm_model.specs.Tasks.{is_live};
ghost use Rattle.evm_model.specs.Waits.{kept_of, woken};
ghost use Rattle.evm_task.specs.Early.{IsEarly, lowered};

use crate::woken::{migrate, wake};
use arrayvec::ArrayVec;
use evm_model::{Class, Mode, SLICE, TASK_LIMIT, Task, TaskState, Wait};
use evm_room::copy_list;
use std::marker::Model;

/// The tasks, in the order of their numbers.
#[derive(Debug, Drop)]
pub struct Tasks {
    tasks: ArrayVec<Task, TASK_LIMIT>,
    // no task has an earlier deadline
    earliest: u64,
}

impl Model for Tasks {
    ghost use Rattle.std.specs.Prelude.{List};
    ghost use Rattle.evm_model.specs.declared.task.Task.{Task};

    ghost Value = { List Task };

    ghost use Rattle.evm_task.specs.Early.{IsEarly};

    ghost invariant = { λ t. IsEarly t.earliest t.tasks.items };

    ghost view = { λ t. t.tasks.items };
}

// The bound of the deadlines with one more; 0 is none.
fn lowered(bound: u64, deadline: u64) -> u64
    ensures { result ≡ lowered bound deadline }
{
    if deadline != 0 && deadline < bound {
        deadline
    } else {
        bound
    }
}

fn is_live(state: TaskState) -> bool
    ensures { result ≡ is_live state }
{
    !matches!(state, TaskState::Exit | TaskState::Faulted(_))
}

impl Tasks {
    /// The first task, with room for all others.
    #[tactic(auto, using(crate::proofs::Early::none))]
    pub fn of_first(task: Task) -> Tasks
        ensures { result ≡ task ∷ [] }
    {
        let mut tasks = Tasks {
            tasks: ArrayVec::new(),
            earliest: u64::MAX,
        };
        tasks.push(task);
        tasks
    }

    /// The tasks are those of another list. Takes no memory.
    pub fn copy_from(&mut self, other: &Tasks)
        ensures { self.new ≡ other.now }
    {
        copy_list(&mut self.tasks, &other.tasks);
        self.earliest = other.earliest;
    }

    /// How many there are, 64 at the most.
    #[inline]
    pub fn count(&self) -> u8
        ensures count { result ≡ length self.now }
        ensures limit { result ≤ TASK_LIMIT }
    {
        self.tasks.len() as u8
    }

    /// The task of this number.
    pub fn get(&self, t: u8) -> Option<Task>
        ensures { result ≡ slice_get self.now t }
    {
        self.tasks.as_slice().get(t as usize).copied()
    }

    /// A task has another state.
    pub fn set_state(&mut self, t: u8, state: TaskState)
        ensures { self.new ≡ change (λ task. record task { state = state }) self.old t }
    {
        let Some(task) = self.tasks.get_mut(t as usize) else {
            return;
        };
        task.state = state;
    }

    /// A task waits, until a deadline if that is not 0.
    pub fn begin_wait(&mut self, t: u8, wait: Wait, deadline: u64)
        ensures { self.new ≡ change (λ task. record task { state = TaskState.Waits wait; deadline = deadline }) self.old t }
    {
        if let Some(task) = self.tasks.get_mut(t as usize) {
            task.state = TaskState::Waits(wait);
            task.deadline = deadline;
            self.earliest = lowered(self.earliest, deadline);
        }
    }

    /// The wait of a task is over: it is ready on the stage on which it waited, but in-band if it is weak and owns no
    /// mutex.
    pub fn end_wait(&mut self, t: u8, owns: bool)
        ensures { self.new ≡ change (woken owns) self.old t }
    {
        let Some(task) = self.tasks.get_mut(t as usize) else {
            return;
        };
        wake(task, owns);
    }

    /// A task goes on another processor: it is ready there out-of-band, but in-band if it is weak and owns no mutex.
    pub fn migrate(&mut self, t: u8, cpu: u8, owns: bool)
        ensures { self.new ≡ change (moved cpu owns) self.old t }
    {
        let Some(task) = self.tasks.get_mut(t as usize) else {
            return;
        };
        migrate(task, cpu, owns);
    }

    /// A task has another stamp.
    pub fn set_stamp(&mut self, t: u8, stamp: u64)
        ensures { self.new ≡ change (λ task. record task { stamp = stamp }) self.old t }
    {
        let Some(task) = self.tasks.get_mut(t as usize) else {
            return;
        };
        task.stamp = stamp;
    }

    /// A task has this many ticks left.
    pub fn set_slice(&mut self, t: u8, slice: u8)
        ensures { self.new ≡ change (λ task. record task { slice = slice }) self.old t }
    {
        let Some(task) = self.tasks.get_mut(t as usize) else {
            return;
        };
        task.slice = slice;
    }

    /// A task has a class and a priority, and a whole slice.
    pub fn set_policy(&mut self, t: u8, class: Class, priority: u8)
        ensures { self.new ≡ change (λ task. record task { class = class; priority = priority; slice = SLICE }) self.old t }
    {
        let Some(task) = self.tasks.get_mut(t as usize) else {
            return;
        };
        task.class = class;
        task.priority = priority;
        task.slice = SLICE;
    }

    /// A task has no class, no priority and no mode bits.
    pub fn clear_policy(&mut self, t: u8)
        ensures { self.new ≡ change (λ task. record task { class = Class.Unattached; priority = 0; mode = no_mode }) self.old t }
    {
        let Some(task) = self.tasks.get_mut(t as usize) else {
            return;
        };
        task.class = Class::Unattached;
        task.priority = 0;
        task.mode = Mode { bits: 0 };
    }

    /// A task has these mode bits.
    pub fn set_mode(&mut self, t: u8, bits: u8)
        ensures { self.new ≡ change (λ task. record task { mode = record { bits = bits } }) self.old t }
    {
        let Some(task) = self.tasks.get_mut(t as usize) else {
            return;
        };
        task.mode = Mode { bits };
    }

    /// One task more, the last.
    pub fn push(&mut self, task: Task)
        requires { length self.old < TASK_LIMIT }
        ensures { self.new ≡ self.old ++ task ∷ [] }
    {
        self.earliest = lowered(self.earliest, task.deadline);
        self.tasks.push(task);
    }

    /// Whether there is such a task and it is ready out-of-band.
    pub fn is_oob(&self, task: Option<u8>) -> bool
        ensures { result ≡ is_oob task self.now }
    {
        let Some(t) = task else {
            return false;
        };
        match self.get(t) {
            None => false,
            Some(task) => task.state == TaskState::OobReady,
        }
    }

    /// Whether there is such a task and it has a class.
    pub fn is_attached(&self, t: u8) -> bool
        ensures { result ≡ is_attached_task (slice_get self.now t) }
    {
        match self.get(t) {
            None => false,
            Some(task) => task.class != Class::Unattached,
        }
    }

    /// Whether there is such a task, it has not ended, and it has a class.
    pub fn is_scheduled(&self, t: u8) -> bool
        ensures { result ≡ is_scheduled_task (slice_get self.now t) }
    {
        match self.get(t) {
            None => false,
            Some(task) => is_live(task.state) && task.class != Class::Unattached,
        }
    }

    /// Whether a task is ready out-of-band and of the weak class.
    pub fn is_weak_oob(&self, t: u8) -> bool
        ensures { result ≡ is_weak_oob (slice_get self.now t) }
    {
        match self.get(t) {
            None => false,
            Some(task) => task.state == TaskState::OobReady && task.class == Class::Weak,
        }
    }

    /// The sum of a task's mode bits.
    pub fn mode_bits(&self, t: u8) -> u8
        ensures { result ≡ mode_of (slice_get self.now t) }
    {
        match self.get(t) {
            None => 0,
            Some(task) => task.mode.bits,
        }
    }

    /// The answer that a task keeps while it waits for its mutex again; 0 for others.
    pub fn kept(&self, t: u8) -> u64
        ensures { result ≡ kept_of (slice_get self.now t) }
    {
        let Some(task) = self.get(t) else {
            return 0;
        };
        match task.state {
            TaskState::Waits(Wait::Reacquire { answer, .. }) => answer,
            _ => 0,
        }
    }

    /// All of them.
    #[inline]
    pub fn as_slice(&self) -> &[Task]
        ensures value { result.now ≡ self.now }
        ensures limit { length result.now ≤ TASK_LIMIT }
    {
        self.tasks.as_slice()
    }

    // The deadline of task t, 0 where it has none.
    fn deadline(&self, t: u8) -> u64
        ensures { result ≡ deadline self.now t }
    {
        match self.tasks.as_slice().get(t as usize) {
            None => 0,
            Some(task) => task.deadline,
        }
    }

    // Whether task t of processor c has a deadline that has come.
    fn is_due(&self, c: u8, now: u64, t: u8) -> bool
        ensures { result ≡ is_due c now self.now t }
    {
        match self.tasks.as_slice().get(t as usize) {
            None => false,
            Some(task) => task.deadline != 0 && task.deadline <= now && task.cpu == c,
        }
    }

    // Of the one that leads so far and another, the one of lesser deadline.
    fn earlier_of(&self, leading: Option<u8>, t: u8) -> u8
        ensures { result ≡ leader (λ _. 0) (deadline self.now) leading t }
    {
        match leading {
            Some(u) if self.deadline(u) <= self.deadline(t) => u,
            _ => t,
        }
    }

    // Of the tasks of a processor whose deadlines have come the one of least deadline, then of least number.
    #[tactic(auto, using(evm_ready::proofs::Scans::scans))]
    fn first_due(&self, c: u8, now: u64) -> Option<u8>
        ensures { result ≡ first (is_due c now self.now) (λ _. 0) (deadline self.now) (length self.now) }
    {
        let mut leading = None;
        for t in 0..self.count() {
            if self.is_due(c, now, t) {
                leading = Some(self.earlier_of(leading, t));
            }
        }
        leading
    }

    // The least of the deadlines.
    #[tactic(auto, using(crate::proofs::Early::scans))]
    fn least_deadline(&self) -> u64
        ensures { IsEarly result self.now }
    {
        let mut least = u64::MAX;
        for t in 0..self.count() {
            least = lowered(least, self.deadline(t));
        }
        least
    }

    /// Of the tasks of a processor whose deadlines have come the number of the one of least deadline, then of least
    /// number. No task is looked at while no deadline at all has come.
    pub fn next_due(&mut self, c: u8, now: u64) -> Option<u8>
        ensures same { self.new ≡ self.old }
        ensures due { result ≡ first (is_due c now self.old) (λ _. 0) (deadline self.old) (length self.old) }
    {
        if now < self.earliest {
            return None;
        }
        let due = self.first_due(c, now);
        if due.is_none() {
            self.earliest = self.least_deadline();
        }
        due
    }
}
