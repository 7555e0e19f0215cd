//! Two tasks that wait for each other, which no call lets happen: their ranks are reckoned anew.

use evm_boost::{Mutexes, Schedule};
use evm_model::{Class, Mode, Mutex, Protocol, SLICE, Task, TaskState, Wait};
use evm_task::Tasks;
use std::alloc::Global;
use std::test::Fail;

const FREE: Mutex = Mutex {
    recursive: false,
    protocol: Protocol::Inheritance,
    owner: None,
    count: 0,
};

fn task(priority: u8, stamp: u64) -> Task {
    Task {
        cpu: 0,
        class: Class::Fifo,
        priority,
        slice: SLICE,
        mode: Mode { bits: 0 },
        stamp,
        deadline: 0,
        state: TaskState::OobReady,
    }
}

fn ranks(schedule: &Schedule) -> [u16; 2] {
    [schedule.rank(0), schedule.rank(1)]
}

// The ranks of two tasks: while each waits for the other's mutex, as they are reckoned anew then, once the second waits no
// more, and once the first has priority 50.
fn ranks_of_a_cycle(alloc: Global) -> Result<[[u16; 2]; 4], Fail> {
    let first = task(10, 1);
    let mut schedule = Schedule::of_first(alloc, 1, first)?;
    let mut tasks = Tasks::of_first(first);
    let mut mutexes = Mutexes::new();
    schedule.push(&mut tasks, &mutexes, task(20, 2));
    schedule.create(&mut mutexes, &tasks, FREE);
    schedule.create(&mut mutexes, &tasks, FREE);
    schedule.hold(&mut mutexes, &tasks, 0, 0, 1);
    schedule.hold(&mut mutexes, &tasks, 1, 1, 1);
    schedule.begin_wait(&mut tasks, &mutexes, 0, Wait::Lock(1), 9, 1);
    schedule.begin_wait(&mut tasks, &mutexes, 1, Wait::Lock(0), 9, 2);
    let closed = ranks(&schedule);
    let anew = mutexes.ranks(&tasks);
    schedule.end_wait(&mut tasks, &mutexes, 1, true, 2);
    let open = ranks(&schedule);
    schedule.set_policy(&mut tasks, &mutexes, 0, Class::Fifo, 50);
    Ok([closed, [anew[0], anew[1]], open, ranks(&schedule)])
}

#[test]
fn a_cycle_is_reckoned(rt: HostRuntime) -> Result<(), Fail> {
    let had = ranks_of_a_cycle(rt.alloc())?;
    assert_eq!(rt; had, [[120, 120], [120, 120], [110, 120], [150, 150]]);
    Ok(())
}
