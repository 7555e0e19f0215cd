//! Who waits for whom.

ghost use Rattle.std.specs.Prelude.{◌≡◌, Some};
ghost use Rattle.evm_model.specs.Mutexes.{lock_at, waits_on, heir_by, heir_of, boosts};
ghost use Rattle.evm_model.specs.declared.limits.TheConstants.{TASK_LIMIT};
ghost use Rattle.evm_model.specs.Boosts.{reaches};

use crate::mutexes::Mutexes;
use evm_model::{Mutex, Protocol, TASK_LIMIT, TaskState, Wait};
use evm_task::Tasks;

// The mutex that a task waits for.
fn lock_at(tasks: &Tasks, u: u8) -> Option<u8>
    ensures { result ≡ lock_at tasks.now u }
{
    let Some(task) = tasks.as_slice().get(u as usize) else {
        return None;
    };
    match task.state {
        TaskState::Waits(Wait::Lock(m)) => Some(m),
        TaskState::Waits(Wait::Reacquire { mutex, .. }) => Some(mutex),
        _ => None,
    }
}

// The task that inherits the ranks of those which wait for a mutex.
fn heir_of(mutex: Option<Mutex>) -> Option<u8>
    ensures { result ≡ heir_of mutex }
{
    let Some(mutex) = mutex else {
        return None;
    };
    match mutex.protocol {
        Protocol::Inheritance => mutex.owner,
        Protocol::Ceiling(_) => None,
    }
}

impl Mutexes {
    /// The task that task u waits for: the owner of its mutex.
    pub fn waits_on(&self, tasks: &Tasks, u: u8) -> Option<u8>
        ensures { result ≡ waits_on self.now tasks.now u }
    {
        match lock_at(tasks, u) {
            None => None,
            Some(m) => self.owner(m),
        }
    }

    /// The task that task u boosts: the owner of its mutex, where that is one of inheritance.
    pub fn boosts(&self, tasks: &Tasks, u: u8) -> Option<u8>
        ensures { result ≡ boosts self.now tasks.now u }
    {
        match lock_at(tasks, u) {
            None => None,
            Some(m) => heir_of(self.get(m)),
        }
    }

    /// Whether task u waits for task t by some chain, or is it.
    pub fn reaches(&self, tasks: &Tasks, t: u8, u: u8) -> bool
        ensures { result ≡ reaches (waits_on self.now tasks.now) t TASK_LIMIT (Some u) }
    {
        let mut at = u;
        for link in 0..TASK_LIMIT {
            if at == t {
                return true;
            }
            let Some(next) = self.waits_on(tasks, at) else {
                return false;
            };
            at = next;
        }
        at == t
    }
}
