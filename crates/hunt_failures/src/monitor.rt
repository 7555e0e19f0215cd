//! What is counted over a run: how long a mutex is held, how long a task is kept from running, and how long it does not run.

ghost use Rattle.std.specs.Prelude.{◌≡◌, ℕ, List, true, IfSome, slice_get};
ghost use Rattle.evm_model.specs.Event.{Event};
ghost use Rattle.evm_model.specs.State.{State};
ghost use Rattle.evm_model.specs.declared.event.Answer.{Answer};
ghost use Rattle.hunt_failures.specs.Failures.{Fails, IsKeptBack, IsPassedOver, RunsLower, is_held, is_kept, is_kept_task, is_passed_over};

use crate::failure::{Failure, current, owner_of};
use crate::looks::is_stuck_task;
use crate::rounds::Rounds;
use crate::wanted::Wanted;
use evm_core::{Answer, Machine};
use evm_devs::AnyDevice;
use evm_lines::LineSet;
use evm_model::{MUTEX_LIMIT, Mutex, TASK_LIMIT, TaskState, Wait};

/// Who has a mutex, and since which tick.
#[derive(Clone, Copy, Debug)]
struct Hold {
    owner: Option<u8>,
    since: u64,
}

/// What is counted over a run.
#[derive(Debug, Drop)]
pub struct Monitor {
    holds: [Hold; MUTEX_LIMIT],
    kept: [u32; TASK_LIMIT],
    rounds: Rounds,
}

// Whether a mutex has an owner.
fn is_held(mutex: Option<Mutex>) -> bool
    ensures { result ≡ is_held mutex }
{
    match mutex {
        None => false,
        Some(mutex) => mutex.owner.is_some(),
    }
}

// Whether a task of this state is kept from running: it is ready and not current, or waits for a mutex or a semaphore.
fn is_kept(state: TaskState, is_current: bool) -> bool
    ensures { result ≡ is_kept is_current state }
{
    match state {
        TaskState::InReady | TaskState::OobReady => !is_current,
        TaskState::Waits(Wait::Lock(_) | Wait::Reacquire { .. } | Wait::Semaphore(_)) => true,
        _ => false,
    }
}

// Whether a task is kept from running.
fn is_kept_task(machine: &Machine<AnyDevice>, t: u8) -> bool
    ensures { result ≡ is_kept_task t (slice_get machine.now.board.parts.tasks t) machine.now }
{
    match machine.task(t) {
        None => false,
        Some(task) => is_kept(task.state, current(machine, task.cpu) == Some(t)),
    }
}

// Whether a processor runs a task of a lower rank than that of another.
fn runs_lower(machine: &Machine<AnyDevice>, c: u8, t: u8) -> bool
    ensures { result ≡ true → RunsLower c t machine.now }
{
    let Some(lower) = current(machine, c) else {
        return false;
    };
    let Some(_lower) = machine.task(lower) else {
        return false;
    };
    let Some(_task) = machine.task(t) else {
        return false;
    };
    machine.rank(lower) < machine.rank(t)
}

// Whether a task is kept from running while one of a lower rank runs.
fn is_kept_back(machine: &Machine<AnyDevice>, t: u8) -> bool
    ensures { result ≡ true → IsKeptBack t machine.now }
{
    if !is_kept_task(machine, t) {
        return false;
    }
    for c in 0..machine.cpu_count() {
        if runs_lower(machine, c, t) {
            return true;
        }
    }
    false
}

// Whether a task is ready, or waits without a deadline for another.
fn is_passed_over(machine: &Machine<AnyDevice>, lines: LineSet, t: u8) -> bool
    ensures { result ≡ is_passed_over lines machine.now.board.parts.timers (slice_get machine.now.board.parts.tasks t) }
{
    let Some(task) = machine.task(t) else {
        return false;
    };
    match task.state {
        TaskState::InReady | TaskState::OobReady => true,
        TaskState::Waits(_) => is_stuck_task(machine, lines, Some(task)),
        TaskState::Exit | TaskState::Faulted(_) => false,
    }
}

// Whether another task runs in place of one.
fn is_skipped(machine: &Machine<AnyDevice>, lines: LineSet, runner: u8, t: u8) -> bool
    ensures { result ≡ true → IsPassedOver lines t (Answer.Ran runner) machine.now }
{
    if runner == t {
        return false;
    }
    is_passed_over(machine, lines, t)
}

impl Monitor {
    /// Nothing was counted.
    pub fn new() -> Monitor {
        Monitor {
            holds: [Hold {
                owner: None,
                since: 0,
            }; MUTEX_LIMIT],
            kept: [0; TASK_LIMIT],
            rounds: Rounds::new(),
        }
    }

    // Whether a mutex has had its owner for more than `ticks`.
    fn is_held_long(&mut self, machine: &Machine<AnyDevice>, m: u8, ticks: u64) -> bool {
        let owner = owner_of(machine, m);
        let now = machine.ticks();
        let Some(hold) = self.holds.get_mut(usize::from(m)) else {
            return false;
        };
        if hold.owner != owner {
            *hold = Hold { owner, since: now };
        }
        owner.is_some() && now.saturating_sub(hold.since) > ticks
    }

    /// The failure of a mutex that one task has for more than `ticks`.
    pub(crate) fn held(&mut self, machine: &Machine<AnyDevice>, ticks: u64) -> Option<Failure>
        ensures { (lines : List ℕ) (before : State) (event : Event) (answer : Answer) → IfSome result (λ failure. Fails lines failure before event answer machine.now) }
    {
        for m in 0..machine.mutex_count() {
            if self.is_held_long(machine, m, ticks) && is_held(machine.mutex(m)) {
                return Some(Failure::Held(m));
            }
        }
        None
    }

    // Counts a step in which a task is kept back or isn't: whether there are more than `steps` in a row.
    fn is_kept_long(&mut self, t: u8, is_kept: bool, steps: u32) -> bool {
        let Some(count) = self.kept.get_mut(usize::from(t)) else {
            return false;
        };
        *count = if is_kept { count.saturating_add(1) } else { 0 };
        *count > steps
    }

    /// The failure of a task of a greater rank than `rank` that is kept back by a lower one for more than `steps`.
    pub(crate) fn kept_back(
        &mut self,
        machine: &Machine<AnyDevice>,
        rank: u16,
        steps: u32,
    ) -> Option<Failure>
        ensures { (lines : List ℕ) (before : State) (event : Event) (answer : Answer) → IfSome result (λ failure. Fails lines failure before event answer machine.now) }
    {
        for t in 0..machine.task_count() {
            let is_kept = machine.rank(t) > rank && is_kept_back(machine, t);
            if self.is_kept_long(t, is_kept, steps) && is_kept_back(machine, t) {
                return Some(Failure::KeptBack(t));
            }
        }
        None
    }

    // Counts a step that another task runs in place of one or doesn't: whether that one has not run for more than `rounds`.
    fn is_stuck(&mut self, t: u8, is_skipped: bool, rounds: u32) -> bool
        ensures { result ≡ true → is_skipped ≡ true }
    {
        if !is_skipped {
            self.rounds.renew(t);
            return false;
        }
        self.rounds.is_past(t, rounds)
    }

    /// The failure of a task that does not run for more rounds than are looked for while others do.
    pub(crate) fn stuck(
        &mut self,
        machine: &Machine<AnyDevice>,
        cpu: u8,
        answer: Answer,
        wanted: &Wanted,
    ) -> Option<Failure>
        ensures { (before : State) (event : Event) → IfSome result (λ failure. Fails wanted.now.lines failure before event answer machine.now) }
    {
        let Some(rounds) = wanted.stuck else {
            return None;
        };
        self.rounds.step(machine, cpu);
        let Answer::Ran(runner) = answer else {
            return None;
        };
        for t in 0..machine.task_count() {
            let is_skipped = is_skipped(machine, wanted.lines, runner, t);
            if self.is_stuck(t, is_skipped, rounds) {
                return Some(Failure::Stuck(t));
            }
        }
        None
    }
}
