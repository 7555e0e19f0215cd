//! A hash of a state, by which a search finds states that may be alike. What is said of a state doesn't rest on it.

use hunt_schedules::{AnyDevice, Machine};

// One number of two (a step of the generator SplitMix64).
fn mixed(a: u64, b: u64) -> u64 {
    let z = (a ^ b.wrapping_mul(0x9e37_79b9_7f4a_7c15)).wrapping_add(0x9e37_79b9_7f4a_7c15);
    let z = (z ^ (z >> 30)).wrapping_mul(0xbf58_476d_1ce4_e5b9);
    let z = (z ^ (z >> 27)).wrapping_mul(0x94d0_49bb_1331_11eb);
    z ^ (z >> 31)
}

// The hash of a processor's in-band task, whether it is stopped, and its watchdog.
fn processor_hash(machine: &Machine<AnyDevice>, c: u8, start: u64) -> u64 {
    match machine.cpu(c) {
        Some(processor) => {
            let hash = mixed(start, u64::from(processor.in_band_task.unwrap_or(255)));
            let hash = mixed(hash, u64::from(processor.stopped));
            mixed(hash, u64::from(machine.watch(c)))
        }
        None => start,
    }
}

// The hash of a task's priority.
fn task_hash(machine: &Machine<AnyDevice>, t: u8, start: u64) -> u64 {
    match machine.task(t) {
        Some(task) => mixed(start, u64::from(task.priority)),
        None => start,
    }
}

/// The hash of what [`alike_hash_of`](hunt_states::alike_hash_of) leaves out and is compared, with another hash.
pub(crate) fn whole_hash(machine: &Machine<AnyDevice>, start: u64) -> u64 {
    let mut hash = mixed(start, machine.notice_total());
    for c in 0..machine.cpu_count() {
        hash = processor_hash(machine, c, hash);
    }
    for t in 0..machine.task_count() {
        hash = task_hash(machine, t, hash);
    }
    for e in 0..machine.event_object_count() {
        hash = mixed(hash, u64::from(machine.event_mutex(e).unwrap_or(255)));
    }
    hash | 1
}
