//! The schedule: the tasks in the order in which they go, and their ranks, kept as tasks and mutexes change.

ghost use Rattle.std.specs.Prelude.{◌≡◌, ◌<◌, ◌≤◌, ◌++◌, [], ◌∷◌, true, false, Some, None, List, Option, length, option_map, slice_get, IfOk, IfErr, ℕ};
ghost use Rattle.evm_boost.specs.Lent.{first_waiting};
ghost use Rattle.evm_boost.specs.Scheduled.{IsScheduled};
ghost use Rattle.evm_boost.specs.Settling.{entered_as, IsCalm, BoostsNobody, RaisesNobody, IsOpen, IsRelinked, fallen_owner, raised_heir, stamped};
ghost use Rattle.evm_model.specs.Lists.{change};
ghost use Rattle.evm_model.specs.Mutexes.{boosts, freed, heir_by, held_by, waits_on};
ghost use Rattle.evm_model.specs.OobCalls.{moved};
ghost use Rattle.evm_model.specs.Ranks.{best, first, next_in_band, rank, stamp};
ghost use Rattle.evm_model.specs.State.{no_mode};
ghost use Rattle.evm_model.specs.Waits.{awaits, woken};
ghost use Rattle.evm_model.specs.declared.limits.TheConstants.{SLICE};
ghost use Rattle.evm_model.specs.declared.mutex.Mutex.{Mutex as AMutex};
ghost use Rattle.evm_model.specs.declared.mutex.Protocol.TheVariants.{Inheritance};
ghost use Rattle.evm_model.specs.declared.task.Task.{Task as ATask};
ghost use Rattle.evm_model.specs.declared.task.TaskState.TheVariants.{Waits};
ghost use Rattle.evm_model.specs.declared.task.Wait.TheVariants.{Lock};
ghost use Rattle.evm_model.specs.Boosts.{reaches};
ghost use Rattle.evm_ready.specs.Oob.{has_oob};
ghost use Rattle.evm_ready.specs.Places.{ready_place, stamped_place};
ghost use Rattle.evm_wait.specs.Waiters.{awaited, stamped_waiter};

use crate::mutexes::Mutexes;
use crate::ranks::{class_rank, class_rank_at};
use evm_model::{Class, MUTEX_LIMIT, Mutex, Protocol, TASK_LIMIT, Task, TaskState, Wait};
use evm_ready::{Place, READY_QUEUE_LIMIT, Ready, place_of};
use evm_room::Refused;
use evm_task::Tasks;
use evm_wait::{Waiter, Waiting, waiter_of};
use std::alloc::Global;
use std::marker::Model;

/// The order in which the tasks go: where each is ready, what it waits for, and its rank. Each change of tasks or
/// mutexes that bears on this goes through here, and costs what the links cost that it touches.
#[derive(Debug, Drop)]
pub struct Schedule {
    pub(crate) ready: Ready,
    pub(crate) waiting: Waiting,
    // no chain of boosts is known to close
    pub(crate) sound: bool,
}

impl Model for Schedule {
    ghost use Rattle.std.specs.Prelude.{◌≡◌};
    ghost use Rattle.evm_boost.specs.Scheduled.{Scheduled};

    ghost Value = { Scheduled };

    ghost invariant = { λ s. s.ready.ranks ≡ s.waiting.ranks };

    ghost view = { λ s. record {
      places = s.ready.places;
      waiters = s.waiting.waiters;
      ranks = s.ready.ranks;
      sound = s.sound;
    } };
}

fn is_nobody(task: Option<u8>) -> bool
    ensures { result ≡ true → task ≡ None }
{
    match task {
        None => true,
        Some(_) => false,
    }
}

impl Schedule {
    /// The schedule of the first task, where there is no mutex, with queues for this many processors.
    pub fn of_first(alloc: Global, processors: u8, task: Task) -> Result<Schedule, Refused>
        ensures ok { IfOk result (λ schedule. IsScheduled schedule [] (task ∷ [])) }
        ensures refused { IfErr result (λ asked. asked ≤ READY_QUEUE_LIMIT) }
    {
        let mut ready = Ready::new(alloc, processors)?;
        let mut waiting = Waiting::new(alloc)?;
        let rank = class_rank(task.class, task.priority);
        ready.push(place_of(&task), rank);
        waiting.push(waiter_of(&task), rank);
        Ok(Schedule {
            ready,
            waiting,
            sound: true,
        })
    }

    /// The tasks go in the order of another schedule. As many processors have queues as before. Takes no memory.
    pub fn copy_from(&mut self, other: &Schedule)
        ensures { self.new ≡ other.now }
    {
        self.ready.copy_from(&other.ready);
        self.waiting.copy_from(&other.waiting);
        self.sound = other.sound;
    }

    // The entries of task t are what it says.
    fn enter(&mut self, tasks: &Tasks, t: u8)
        ensures places { self.new.places ≡ entered_as ready_place (slice_get tasks.now t) t self.old.places }
        ensures waiters { self.new.waiters ≡ entered_as awaited (slice_get tasks.now t) t self.old.waiters }
        ensures ranks { self.new.ranks ≡ self.old.ranks }
        ensures sound { self.new.sound ≡ self.old.sound }
    {
        if let Some(task) = tasks.as_slice().get(t as usize) {
            self.ready.set(t, place_of(task));
            self.waiting.set(t, waiter_of(task));
        }
    }

    // Task t has its entries since another stamp.
    fn restamp(&mut self, t: u8, stamp: u64)
        ensures places { self.new.places ≡ change (option_map (stamped_place stamp)) self.old.places t }
        ensures waiters { self.new.waiters ≡ change (option_map (stamped_waiter stamp)) self.old.waiters t }
        ensures ranks { self.new.ranks ≡ self.old.ranks }
        ensures sound { self.new.sound ≡ self.old.sound }
    {
        self.ready.restamp(t, stamp);
        self.waiting.restamp(t, stamp);
    }

    // Task t waits for this, and is ready nowhere.
    fn enter_wait(&mut self, t: u8, waiter: Waiter)
        ensures places { self.new.places ≡ change (λ _. None) self.old.places t }
        ensures waiters { self.new.waiters ≡ change (λ _. Some waiter) self.old.waiters t }
        ensures ranks { self.new.ranks ≡ self.old.ranks }
        ensures sound { self.new.sound ≡ self.old.sound }
    {
        self.ready.set(t, None);
        if self.waiting.is_free(t) {
            self.waiting.enter(t, waiter);
        } else {
            self.move_wait(t, waiter.wait, waiter.stamp);
        }
    }

    // A task that may wait already waits for this. Apart, as it is rare.
    #[inline(never)]
    fn move_wait(&mut self, t: u8, wait: Wait, stamp: u64)
        ensures places { self.new.places ≡ self.old.places }
        ensures waiters { self.new.waiters ≡ change (λ _. Some (record { wait = wait; stamp = stamp })) self.old.waiters t }
        ensures ranks { self.new.ranks ≡ self.old.ranks }
        ensures sound { self.new.sound ≡ self.old.sound }
    {
        self.waiting.set(t, Some(Waiter { wait, stamp }));
    }

    // Task t waits for nothing, and is ready where it says.
    fn enter_ready(&mut self, tasks: &Tasks, t: u8)
        ensures places { self.new.places ≡ entered_as ready_place (slice_get tasks.now t) t self.old.places }
        ensures waiters { self.new.waiters ≡ change (λ _. None) self.old.waiters t }
        ensures ranks { self.new.ranks ≡ self.old.ranks }
        ensures sound { self.new.sound ≡ self.old.sound }
    {
        self.waiting.set(t, None);
        let Some(task) = tasks.as_slice().get(t as usize) else {
            return;
        };
        match place_of(task) {
            Some(place) if self.ready.is_away(t) => self.ready.enter(t, place),
            place => self.move_ready(t, place),
        }
    }

    // A task that may be ready already is ready there, or isn't ready. Apart, as it is rare.
    #[inline(never)]
    fn move_ready(&mut self, t: u8, place: Option<Place>)
        ensures places { self.new.places ≡ change (λ _. place) self.old.places t }
        ensures waiters { self.new.waiters ≡ self.old.waiters }
        ensures ranks { self.new.ranks ≡ self.old.ranks }
        ensures sound { self.new.sound ≡ self.old.sound }
    {
        self.ready.set(t, place);
    }

    // Whether chains stay open where a task boosts this one, if any.
    fn is_open(&self, mutexes: &Mutexes, tasks: &Tasks, t: u8, heir: Option<u8>) -> bool
        ensures sound { result ≡ true → self.now.sound ≡ true }
        ensures opens { result ≡ true → (u : ℕ) → heir ≡ Some u → IsOpen mutexes.now tasks.now t u }
    {
        let Some(u) = heir else {
            return self.sound;
        };
        self.sound && u < tasks.count() && !mutexes.reaches(tasks, t, u)
    }

    // Whether chains stay open where a task that is there boosts nobody.
    fn is_free(&self, mutexes: &Mutexes, tasks: &Tasks, t: u8) -> bool
        ensures sound { result ≡ true → self.now.sound ≡ true }
        ensures free { result ≡ true → BoostsNobody mutexes.now tasks.now t }
    {
        self.sound && t < tasks.count() && is_nobody(mutexes.boosts(tasks, t))
    }

    // Whether chains stay open where there is no such task.
    fn is_sound_without(&self, task: Option<u8>) -> bool
        ensures sound { result ≡ true → self.now.sound ≡ true }
        ensures nobody { result ≡ true → task ≡ None }
    {
        self.sound && is_nobody(task)
    }

    // The heir of task t, if t may raise it.
    fn raised_heir(&self, t: u8, heir: Option<u8>) -> Option<u8>
        ensures { result ≡ raised_heir self.now.ranks t heir }
    {
        match heir {
            Some(u) if self.ready.rank(u) < self.ready.rank(t) => Some(u),
            _ => None,
        }
    }

    // The owner of a mutex, if it may fall when the mutex leaves it, or a task that waits for it.
    fn fallen_owner(&self, tasks: &Tasks, owner: Option<u8>) -> Option<u8>
        ensures { result ≡ fallen_owner self.now.ranks tasks.now owner }
    {
        match owner {
            Some(u) if class_rank_at(tasks, u) < self.ready.rank(u) => Some(u),
            _ => None,
        }
    }

    // Ranks follow where task t may boost another than before.
    #[inline(always)]
    fn relink(&mut self, mutexes: &Mutexes, tasks: &Tasks, t: u8, before: Option<u8>)
        requires { IsRelinked self.old mutexes.now tasks.now t before }
        ensures { IsScheduled self.new mutexes.now tasks.now }
    {
        let heir = mutexes.boosts(tasks, t);
        let open = self.is_open(mutexes, tasks, t, heir);
        self.trust(open);
        let raised = self.raised_heir(t, heir);
        self.mend(mutexes, tasks, before, raised);
    }

    // As `relink`, for callers on whose path it is rare.
    #[inline(never)]
    fn relink_apart(&mut self, mutexes: &Mutexes, tasks: &Tasks, t: u8, before: Option<u8>)
        requires { IsRelinked self.old mutexes.now tasks.now t before }
        ensures { IsScheduled self.new mutexes.now tasks.now }
    {
        self.relink(mutexes, tasks, t, before);
    }

    // The same where task t boosts nobody now, so that no chain closes.
    #[inline(always)]
    fn unlink(&mut self, mutexes: &Mutexes, tasks: &Tasks, t: u8, before: Option<u8>)
        requires relinked { IsRelinked self.old mutexes.now tasks.now t before }
        requires alone { boosts mutexes.now tasks.now t ≡ None }
        ensures { IsScheduled self.new mutexes.now tasks.now }
    {
        let fallen = self.fallen_owner(tasks, before);
        self.mend(mutexes, tasks, fallen, None);
    }

    /// A task has another state.
    pub fn set_state(&mut self, tasks: &mut Tasks, mutexes: &Mutexes, t: u8, state: TaskState)
        requires { IsScheduled self.old mutexes.now tasks.old }
        ensures tasks { tasks.new ≡ change (λ task. record task { state = state }) tasks.old t }
        ensures scheduled { IsScheduled self.new mutexes.now tasks.new }
    {
        let before = mutexes.boosts(tasks, t);
        tasks.set_state(t, state);
        self.enter(tasks, t);
        self.relink_apart(mutexes, tasks, t, before);
    }

    /// A task has another state and another stamp.
    pub fn set_state_and_stamp(
        &mut self,
        tasks: &mut Tasks,
        mutexes: &Mutexes,
        t: u8,
        state: TaskState,
        stamp: u64,
    )
        requires { IsScheduled self.old mutexes.now tasks.old }
        ensures tasks { tasks.new ≡ change (stamped stamp) (change (λ task. record task { state = state }) tasks.old t) t }
        ensures scheduled { IsScheduled self.new mutexes.now tasks.new }
    {
        let before = mutexes.boosts(tasks, t);
        tasks.set_state(t, state);
        tasks.set_stamp(t, stamp);
        self.enter(tasks, t);
        self.relink_apart(mutexes, tasks, t, before);
    }

    /// A task waits, until a deadline if that is not 0, and has another stamp.
    pub fn begin_wait(
        &mut self,
        tasks: &mut Tasks,
        mutexes: &Mutexes,
        t: u8,
        wait: Wait,
        deadline: u64,
        stamp: u64,
    )
        requires { IsScheduled self.old mutexes.now tasks.old }
        ensures tasks { tasks.new ≡ change (stamped stamp) (change (λ task. record task { state = TaskState.Waits wait; deadline = deadline }) tasks.old t) t }
        ensures scheduled { IsScheduled self.new mutexes.now tasks.new }
    {
        let before = mutexes.boosts(tasks, t);
        tasks.begin_wait(t, wait, deadline);
        tasks.set_stamp(t, stamp);
        self.enter_wait(t, Waiter { wait, stamp });
        self.relink(mutexes, tasks, t, before);
    }

    /// The wait of a task is over: it is ready on the stage on which it waited, but in-band if it is weak and owns no
    /// mutex. It has another stamp.
    pub fn end_wait(&mut self, tasks: &mut Tasks, mutexes: &Mutexes, t: u8, owns: bool, stamp: u64)
        requires { IsScheduled self.old mutexes.now tasks.old }
        ensures tasks { tasks.new ≡ change (stamped stamp) (change (woken owns) tasks.old t) t }
        ensures scheduled { IsScheduled self.new mutexes.now tasks.new }
    {
        let before = mutexes.boosts(tasks, t);
        tasks.end_wait(t, owns);
        tasks.set_stamp(t, stamp);
        self.enter_ready(tasks, t);
        self.unlink(mutexes, tasks, t, before);
    }

    /// A task goes on another processor: it is ready there out-of-band, but in-band if it is weak and owns no mutex. It
    /// has another stamp.
    pub fn migrate(
        &mut self,
        tasks: &mut Tasks,
        mutexes: &Mutexes,
        t: u8,
        cpu: u8,
        owns: bool,
        stamp: u64,
    )
        requires { IsScheduled self.old mutexes.now tasks.old }
        ensures tasks { tasks.new ≡ change (stamped stamp) (change (moved cpu owns) tasks.old t) t }
        ensures scheduled { IsScheduled self.new mutexes.now tasks.new }
    {
        let before = mutexes.boosts(tasks, t);
        tasks.migrate(t, cpu, owns);
        tasks.set_stamp(t, stamp);
        self.enter(tasks, t);
        self.relink_apart(mutexes, tasks, t, before);
    }

    /// A task has another stamp.
    pub fn set_stamp(&mut self, tasks: &mut Tasks, mutexes: &Mutexes, t: u8, stamp: u64)
        requires { IsScheduled self.old mutexes.now tasks.old }
        ensures tasks { tasks.new ≡ change (stamped stamp) tasks.old t }
        ensures scheduled { IsScheduled self.new mutexes.now tasks.new }
    {
        tasks.set_stamp(t, stamp);
        self.restamp(t, stamp);
        self.mend(mutexes, tasks, None, None);
    }

    /// A task has a class and a priority, and a whole slice.
    pub fn set_policy(
        &mut self,
        tasks: &mut Tasks,
        mutexes: &Mutexes,
        t: u8,
        class: Class,
        priority: u8,
    )
        requires { IsScheduled self.old mutexes.now tasks.old }
        ensures tasks { tasks.new ≡ change (λ task. record task { class = class; priority = priority; slice = SLICE }) tasks.old t }
        ensures scheduled { IsScheduled self.new mutexes.now tasks.new }
    {
        tasks.set_policy(t, class, priority);
        self.mend(mutexes, tasks, Some(t), None);
    }

    /// A task has no class, no priority and no mode bits.
    pub fn clear_policy(&mut self, tasks: &mut Tasks, mutexes: &Mutexes, t: u8)
        requires { IsScheduled self.old mutexes.now tasks.old }
        ensures tasks { tasks.new ≡ change (λ task. record task { class = Class.Unattached; priority = 0; mode = no_mode }) tasks.old t }
        ensures scheduled { IsScheduled self.new mutexes.now tasks.new }
    {
        tasks.clear_policy(t);
        self.mend(mutexes, tasks, Some(t), None);
    }

    /// A task has this many ticks left.
    pub fn set_slice(&mut self, tasks: &mut Tasks, mutexes: &Mutexes, t: u8, slice: u8)
        requires { IsScheduled self.old mutexes.now tasks.old }
        ensures tasks { tasks.new ≡ change (λ task. record task { slice = slice }) tasks.old t }
        ensures scheduled { IsScheduled self.new mutexes.now tasks.new }
    {
        tasks.set_slice(t, slice);
        self.mend(mutexes, tasks, None, None);
    }

    /// A task has these mode bits.
    pub fn set_mode(&mut self, tasks: &mut Tasks, mutexes: &Mutexes, t: u8, bits: u8)
        requires { IsScheduled self.old mutexes.now tasks.old }
        ensures tasks { tasks.new ≡ change (λ task. record task { mode = record { bits = bits } }) tasks.old t }
        ensures scheduled { IsScheduled self.new mutexes.now tasks.new }
    {
        tasks.set_mode(t, bits);
        self.mend(mutexes, tasks, None, None);
    }

    // One task more, with no rank yet.
    fn add(&mut self, task: &Task)
        requires places { length self.old.places < TASK_LIMIT }
        requires waiters { length self.old.waiters < TASK_LIMIT }
        ensures places { self.new.places ≡ self.old.places ++ ready_place task.now ∷ [] }
        ensures waiters { self.new.waiters ≡ self.old.waiters ++ awaited task.now ∷ [] }
        ensures ranks { self.new.ranks ≡ self.old.ranks ++ 0 ∷ [] }
        ensures sound { self.new.sound ≡ self.old.sound }
    {
        self.ready.push(place_of(task), 0);
        self.waiting.push(waiter_of(task), 0);
    }

    /// One task more, the last.
    pub fn push(&mut self, tasks: &mut Tasks, mutexes: &Mutexes, task: Task)
        requires room { length tasks.old < TASK_LIMIT }
        requires scheduled { IsScheduled self.old mutexes.now tasks.old }
        ensures tasks { tasks.new ≡ tasks.old ++ task ∷ [] }
        ensures scheduled { IsScheduled self.new mutexes.now tasks.new }
    {
        let t = tasks.count();
        self.add(&task);
        tasks.push(task);
        let open = self.is_sound_without(mutexes.boosts(tasks, t));
        self.trust(open);
        self.mend(mutexes, tasks, Some(t), None);
    }

    /// One mutex more, the last.
    pub fn create(&mut self, mutexes: &mut Mutexes, tasks: &Tasks, mutex: Mutex)
        requires room { length mutexes.old < MUTEX_LIMIT }
        requires scheduled { IsScheduled self.old mutexes.old tasks.now }
        ensures mutexes { mutexes.new ≡ mutexes.old ++ mutex ∷ [] }
        ensures scheduled { IsScheduled self.new mutexes.new tasks.now }
    {
        let open = self.is_sound_without(mutex.owner);
        mutexes.create(mutex);
        self.trust(open);
        self.mend(mutexes, tasks, None, None);
    }

    // Whether a mutex raises nobody, whoever owns it: it is one of inheritance, and no task waits for it.
    fn is_idle(&self, mutexes: &Mutexes, m: u8) -> bool
        ensures { result ≡ true → RaisesNobody self.now mutexes.now m }
    {
        let Some(mutex) = mutexes.get(m) else {
            return true;
        };
        mutex.protocol == Protocol::Inheritance && is_nobody(self.waiting.first(Wait::Lock(m)))
    }

    // Whether no rank changes where task t has mutex m.
    fn is_calm(&self, mutexes: &Mutexes, m: u8, t: u8) -> bool
        ensures { result ≡ true → IsCalm self.now mutexes.now m t }
    {
        mutexes.is_owner(m, t) || self.is_idle(mutexes, m)
    }

    /// Task t has mutex m, locked this many times.
    #[inline(always)]
    pub fn hold(&mut self, mutexes: &mut Mutexes, tasks: &Tasks, m: u8, t: u8, count: u64)
        requires { IsScheduled self.old mutexes.old tasks.now }
        ensures mutexes { mutexes.new ≡ change (held_by t count) mutexes.old m }
        ensures scheduled { IsScheduled self.new mutexes.new tasks.now }
    {
        if self.is_calm(mutexes, m, t) {
            mutexes.hold(m, t, count);
            self.mend(mutexes, tasks, None, None);
            return;
        }
        let before = mutexes.owner(m);
        mutexes.hold(m, t, count);
        let open = self.is_free(mutexes, tasks, t);
        self.trust(open);
        self.mend(mutexes, tasks, before, Some(t));
    }

    /// Nobody has mutex m.
    pub fn leave(&mut self, mutexes: &mut Mutexes, tasks: &Tasks, m: u8)
        requires { IsScheduled self.old mutexes.old tasks.now }
        ensures mutexes { mutexes.new ≡ change freed mutexes.old m }
        ensures scheduled { IsScheduled self.new mutexes.new tasks.now }
    {
        if self.is_idle(mutexes, m) {
            mutexes.leave(m);
            self.mend(mutexes, tasks, None, None);
            return;
        }
        let owner = mutexes.owner(m);
        mutexes.leave(m);
        let fallen = self.fallen_owner(tasks, owner);
        self.mend(mutexes, tasks, fallen, None);
    }

    /// The rank of a task; 0 where there is none.
    #[inline]
    pub fn rank(&self, t: u8) -> u16
        ensures there { (mutexes : List AMutex) (tasks : List ATask) → IsScheduled self.now mutexes tasks → t < length tasks → result ≡ rank mutexes tasks t }
        ensures absent { (mutexes : List AMutex) (tasks : List ATask) → IsScheduled self.now mutexes tasks → length tasks ≤ t → result ≡ 0 }
    {
        self.ready.rank(t)
    }

    /// The number of the out-of-band task that a processor should run: of those that may run there the one of greatest
    /// rank, then of least stamp.
    #[inline]
    pub fn best(&self, c: u8) -> Option<u8>
        ensures { (mutexes : List AMutex) (tasks : List ATask) → IsScheduled self.now mutexes tasks → result ≡ best c mutexes tasks }
    {
        self.ready.best(c)
    }

    /// The number of the in-band task that a processor should take up: of those that may run there the one of least
    /// stamp.
    #[inline]
    pub fn next_in_band(&self, c: u8) -> Option<u8>
        ensures { (mutexes : List AMutex) (tasks : List ATask) → IsScheduled self.now mutexes tasks → result ≡ next_in_band c tasks }
    {
        self.ready.next_in_band(c)
    }

    /// The number of the first task that waits for this: the one of greatest rank, then of least stamp.
    #[inline]
    pub fn first_waiter(&self, wait: Wait) -> Option<u8>
        ensures { (mutexes : List AMutex) (tasks : List ATask) → IsScheduled self.now mutexes tasks → result ≡ first (awaits wait tasks) (rank mutexes tasks) (stamp tasks) (length tasks) }
    {
        self.waiting.first(wait)
    }

    /// Whether any task is ready out-of-band, on whichever processor.
    #[inline]
    pub fn has_oob(&self) -> bool
        ensures { (mutexes : List AMutex) (tasks : List ATask) → IsScheduled self.now mutexes tasks → result ≡ has_oob tasks }
    {
        self.ready.has_oob()
    }
}
