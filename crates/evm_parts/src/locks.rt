//! What rows do to a mutex, and to the tasks that wait for it.

ghost use Rattle.std.specs.Prelude.{◌≡◌, ◌<◌, ◌≤◌, ◌+◌, Some, None, length, slice_get};
ghost use Rattle.evm_model.specs.Bounds.{HasStamps};
ghost use Rattle.evm_model.specs.Lists.{change};
ghost use Rattle.evm_model.specs.Locks.{add_mutex, take_mutex};
ghost use Rattle.evm_model.specs.Mutexes.{freed, owns_any, held_by, waits_on};
ghost use Rattle.evm_model.specs.Passing.{hand_over, hand_over_if, hand_over_below};
ghost use Rattle.evm_model.specs.Ranks.{best, next_in_band, rank};
ghost use Rattle.evm_model.specs.State.{on_mutex};
ghost use Rattle.evm_model.specs.Waits.{first_waiter};
ghost use Rattle.evm_model.specs.declared.task.Task.{Task};
ghost use Rattle.evm_model.specs.Waits.{wake};
ghost use Rattle.evm_model.specs.Boosts.{reaches};
ghost use Rattle.evm_boost.specs.evm_ready.Oob.{has_oob};

use crate::parts::Parts;
use evm_model::{MUTEX_LIMIT, Mutex, TASK_LIMIT, Wait};

impl Parts {
    /// The rank of a task; 0 where there is none.
    #[tactic(auto, using(crate::proofs::Chosen::there))]
    pub fn rank(&self, t: u8) -> u16
        ensures there { (task : Task) → slice_get self.now.tasks t ≡ Some task → result ≡ rank self.now.mutexes self.now.tasks t }
        ensures absent { slice_get self.now.tasks t ≡ None → result ≡ 0 }
    {
        if t >= self.tasks.count() {
            return 0;
        }
        self.schedule.rank(t)
    }

    /// The number of the out-of-band task that a processor should run.
    #[inline]
    pub fn best(&self, c: u8) -> Option<u8>
        ensures { result ≡ best c self.now.mutexes self.now.tasks }
    {
        self.schedule.best(c)
    }

    /// The number of the in-band task that a processor should take up.
    pub fn next_in_band(&self, c: u8) -> Option<u8>
        ensures { result ≡ next_in_band c self.now.tasks }
    {
        self.schedule.next_in_band(c)
    }

    /// Whether any task is ready out-of-band, on whichever processor.
    pub fn has_oob(&self) -> bool
        ensures { result ≡ has_oob self.now.tasks }
    {
        self.schedule.has_oob()
    }

    /// Whether a task owns a mutex.
    pub fn owns_any(&self, t: u8) -> bool
        ensures { result ≡ owns_any t self.now.mutexes }
    {
        self.mutexes.owns_any(t)
    }

    /// Whether a task owns another mutex than this.
    pub fn owns_other(&self, t: u8, m: u8) -> bool
        ensures { result ≡ owns_any t (change freed self.now.mutexes m) }
    {
        self.mutexes.owns_other(t, m)
    }

    /// Whether task u waits for task t by some chain, or is it.
    pub fn reaches(&self, t: u8, u: u8) -> bool
        ensures { result ≡ reaches (waits_on self.now.mutexes self.now.tasks) t TASK_LIMIT (Some u) }
    {
        self.mutexes.reaches(&self.tasks, t, u)
    }

    /// One mutex more.
    #[tactic(auto, unfolding(evm_model::specs::Locks::add_mutex))]
    pub fn add_mutex(&mut self, mutex: Mutex)
        requires { length self.old.mutexes < MUTEX_LIMIT }
        ensures row { self.new ≡ add_mutex mutex self.old }
    {
        self.schedule.create(&mut self.mutexes, &self.tasks, mutex);
    }

    // As `hold_mutex`, within its caller.
    #[inline(always)]
    fn hold(&mut self, t: u8, m: u8, count: u64)
        ensures row { self.new ≡ on_mutex m (held_by t count) self.old }
        ensures stamps { self.new.stamps ≡ self.old.stamps }
    {
        self.schedule
            .hold(&mut self.mutexes, &self.tasks, m, t, count);
    }

    /// A task has a mutex, locked so often.
    #[inline(never)]
    pub fn hold_mutex(&mut self, t: u8, m: u8, count: u64)
        ensures row { self.new ≡ on_mutex m (held_by t count) self.old }
        ensures stamps { self.new.stamps ≡ self.old.stamps }
    {
        self.hold(t, m, count);
    }

    /// A task has a mutex that was free.
    #[tactic(auto, unfolding(evm_model::specs::Locks::take_mutex))]
    pub fn take_mutex(&mut self, t: u8, m: u8)
        ensures row { self.new ≡ take_mutex t m self.old }
    {
        self.hold_mutex(t, m, 1);
    }

    /// The first task that waits for this: the one of greatest rank, then of least stamp.
    #[inline]
    #[tactic(auto, unfolding(evm_model::specs::Waits::first_waiter))]
    pub fn first_waiter(&self, wait: Wait) -> Option<u8>
        ensures { result ≡ first_waiter wait self.now }
    {
        self.schedule.first_waiter(wait)
    }

    // Nobody has a mutex.
    #[inline]
    fn leave_mutex(&mut self, m: u8)
        ensures row { self.new ≡ on_mutex m freed self.old }
        ensures stamps { self.new.stamps ≡ self.old.stamps }
    {
        self.schedule.leave(&mut self.mutexes, &self.tasks, m);
    }

    // Whether a task owns a mutex once it has this one.
    #[tactic(auto, using(crate::proofs::Giving::owners))]
    fn owns_with(&self, t: u8, m: u8) -> bool
        ensures { result ≡ owns_any t (change (held_by t 1) self.now.mutexes m) }
    {
        match self.mutexes.get(m) {
            None => self.mutexes.owns_any(t),
            Some(_) => true,
        }
    }

    // A task that waits has a mutex, and wakes with an answer. It is ready before it has the mutex, so that no chain of
    // tasks that wait closes meanwhile.
    #[inline]
    fn give_mutex(&mut self, t: u8, m: u8, value: u64)
        requires room { HasStamps 1 self.old }
        ensures row { self.new ≡ wake t value (on_mutex m (held_by t 1) self.old) }
        ensures stamps { self.new.stamps ≡ self.old.stamps + 1 }
    {
        let owns = self.owns_with(t, m);
        self.wake_with(t, value, owns);
        self.hold(t, m, 1);
    }

    /// A task that waited for a mutex owns it and wakes, with the answer that it kept if it waited for it again; if there
    /// is none, the mutex is free.
    #[tactic(auto, unfolding(evm_model::specs::Passing::hand_over))]
    pub fn hand_over(&mut self, m: u8)
        requires room { HasStamps 1 self.old }
        ensures row { self.new ≡ hand_over m self.old }
        ensures stamps { self.new.stamps ≤ self.old.stamps + 1 }
    {
        match self.first_waiter(Wait::Lock(m)) {
            None => self.leave_mutex(m),
            Some(t) => {
                let kept = self.tasks.kept(t);
                self.give_mutex(t, m, kept);
            }
        }
    }

    // A mutex passes on if the task owns it.
    fn hand_over_if(&mut self, t: u8, m: u8)
        requires room { HasStamps 1 self.old }
        ensures row { self.new ≡ hand_over_if t m self.old }
        ensures stamps { self.new.stamps ≤ self.old.stamps + 1 }
    {
        if self.mutexes.is_owner(m, t) {
            self.hand_over(m);
        }
    }

    /// The mutexes of a task pass on, by number.
    #[tactic(auto, using(crate::proofs::Passes::passes))]
    pub fn hand_over_all(&mut self, t: u8)
        requires room { HasStamps MUTEX_LIMIT self.old }
        ensures row { self.new ≡ hand_over_below t (length self.old.mutexes) self.old }
    {
        'passing: for m in 0..self.mutexes.count() {
            self.hand_over_if(t, m);
        }
    }
}
