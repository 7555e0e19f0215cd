ghost use Rattle.std.specs.Prelude.{◌≡◌};
ghost use Rattle.evm_model.specs.Waits.{same_wait};
ghost use Rattle.evm_ready.specs.Queues.{turn_for};
ghost use Rattle.evm_wait.specs.Waiters.{awaited, waits_for};
ghost use Rattle.evm_wait.specs.WaitTurns.{wait_queue, waiter_turn};

use evm_model::{Task, TaskState, Wait};
use evm_ready::Turn;

/// What a task waits for, and since when.
#[derive(Clone, Copy, Debug)]
pub struct Waiter {
    pub wait: Wait,
    /// Of two tasks of one rank the one with the lesser stamp goes first.
    pub stamp: u64,
}

/// What a task waits for, if it waits.
pub fn waiter_of(task: &Task) -> Option<Waiter>
    ensures { result ≡ awaited task.now }
{
    match task.state {
        TaskState::Waits(wait) => Some(Waiter {
            wait,
            stamp: task.stamp,
        }),
        _ => None,
    }
}

// Whether the first wait, of a task, is for the second; one that reacquires a mutex waits as for its lock.
fn is_same(a: Wait, b: Wait) -> bool
    ensures { result ≡ same_wait a b }
{
    match (a, b) {
        (Wait::Line(l), Wait::Line(m)) => l == m,
        (Wait::Lock(l), Wait::Lock(m)) => l == m,
        (Wait::Reacquire { mutex, .. }, Wait::Lock(m)) => mutex == m,
        (Wait::Semaphore(l), Wait::Semaphore(m)) => l == m,
        (Wait::Event(l), Wait::Event(m)) => l == m,
        (Wait::Flags(l), Wait::Flags(m)) => l == m,
        (Wait::Sleep, Wait::Sleep) => true,
        (Wait::Timer(l), Wait::Timer(m)) => l == m,
        _ => false,
    }
}

// Whether it waits for this.
pub(crate) fn waits_for(waiter: Option<Waiter>, wait: Wait) -> bool
    ensures { result ≡ waits_for wait waiter }
{
    match waiter {
        None => false,
        Some(waiter) => is_same(waiter.wait, wait),
    }
}

// The queue of a task that waits for this, if there are queues for its kind.
pub(crate) fn wait_queue(wait: Wait) -> Option<u16>
    ensures { result ≡ wait_queue wait }
{
    match wait {
        Wait::Line(_) => None,
        Wait::Lock(m) => Some(m as u16 * 8),
        Wait::Reacquire { mutex, .. } => Some(mutex as u16 * 8),
        Wait::Semaphore(s) => Some(s as u16 * 8 + 1),
        Wait::Event(e) => Some(e as u16 * 8 + 2),
        Wait::Flags(f) => Some(f as u16 * 8 + 3),
        Wait::Sleep => None,
        Wait::Timer(n) => Some(n as u16 * 8 + 4),
    }
}

// The turn of a task of this rank that waits for this, or doesn't wait.
pub(crate) fn turn_of(waiter: Option<Waiter>, rank: u16) -> Turn
    ensures { result ≡ turn_for waiter_turn waiter rank }
{
    match waiter {
        None => Turn {
            queue: None,
            rank,
            stamp: 0,
        },
        Some(waiter) => Turn {
            queue: wait_queue(waiter.wait),
            rank,
            stamp: waiter.stamp,
        },
    }
}
