//! A hash of a state, by which a search finds states that may be the same. What is said of a state doesn't rest on it.

use evm_core::{Machine, Stages};
use evm_devs::AnyDevice;
use evm_model::{Event, NoBytes, TaskState, Wait};

/// The opcode of stores, in the low seven bits of an instruction.
const STORE: u64 = 0x23;

/// Two doublewords of RAM, the first at an address that is a multiple of 8.
#[derive(Clone, Copy, Debug)]
struct Window {
    address: u64,
    words: [u64; 2],
}

/// The sum of the hashes of RAM's doublewords, less that at the boot.
#[derive(Clone, Copy, Debug)]
pub struct Trail {
    ram: u64,
}

/// What an event may store to, as it was before.
#[derive(Clone, Copy, Debug)]
pub struct Store {
    window: Option<Window>,
}

// One number of two (a step of the generator SplitMix64).
fn mixed(a: u64, b: u64) -> u64 {
    let z = (a ^ b.wrapping_mul(0x9e37_79b9_7f4a_7c15)).wrapping_add(0x9e37_79b9_7f4a_7c15);
    let z = (z ^ (z >> 30)).wrapping_mul(0xbf58_476d_1ce4_e5b9);
    let z = (z ^ (z >> 27)).wrapping_mul(0x94d0_49bb_1331_11eb);
    z ^ (z >> 31)
}

// The little-endian number of up to eight bytes of RAM; 0 where one is outside.
fn number_at(machine: &Machine<AnyDevice>, address: u64, count: u64) -> u64 {
    let mut number = 0u64;
    if let Some(bytes) = machine.bytes(address, count) {
        for (i, byte) in bytes.iter().enumerate() {
            number |= u64::from(*byte) << (8 * (i as u64 & 7));
        }
    }
    number
}

// The address that a store instruction stores to.
fn store_address(machine: &Machine<AnyDevice>, t: u8) -> Option<u64> {
    let hart = machine.hart(t)?;
    let word = number_at(machine, hart.pc, 4);
    if word & 0x7f != STORE {
        return None;
    }
    let low = (word >> 7) & 31;
    let high = ((word >> 25) & 127) << 5;
    let offset = low | high;
    let offset = if offset >= 2048 {
        offset.wrapping_sub(4096)
    } else {
        offset
    };
    let base = hart.regs[((word >> 15) & 31) as usize];
    Some(base.wrapping_add(offset))
}

fn window_at(machine: &Machine<AnyDevice>, address: u64) -> Window {
    let address = address & !7;
    Window {
        address,
        words: [
            number_at(machine, address, 8),
            number_at(machine, address.wrapping_add(8), 8),
        ],
    }
}

// The hash of two doublewords at their address.
fn hash_of_window(window: &Window) -> u64 {
    let [first, second] = window.words;
    mixed(window.address, first).wrapping_add(mixed(window.address.wrapping_add(8), second))
}

/// What an event may store to.
pub fn store_of(machine: &Machine<AnyDevice>, event: Event<NoBytes>) -> Store {
    let address = match event {
        Event::Step(c) => match machine.cpu(c) {
            Some(processor) => match processor.current {
                Some(t) => store_address(machine, t),
                None => None,
            },
            None => None,
        },
        _ => None,
    };
    match address {
        Some(address) => Store {
            window: Some(window_at(machine, address)),
        },
        None => Store { window: None },
    }
}

impl Trail {
    /// At the boot.
    pub fn new() -> Trail {
        Trail { ram: 0 }
    }

    /// Takes in what an event has stored.
    pub fn follow(&mut self, machine: &Machine<AnyDevice>, store: &Store) {
        if let Some(old) = &store.window {
            let new = window_at(machine, old.address);
            let change = hash_of_window(&new).wrapping_sub(hash_of_window(old));
            self.ram = self.ram.wrapping_add(change);
        }
    }
}

// The hash of a task's registers.
fn hart_hash(machine: &Machine<AnyDevice>, t: u8, start: u64) -> u64 {
    let mut hash = start;
    if let Some(hart) = machine.hart(t) {
        hash = mixed(hash, hart.pc);
        for value in &hart.regs {
            hash = mixed(hash, *value);
        }
    }
    hash
}

// The hash of a task: its registers, and what the scheduler does with it.
fn task_hash(machine: &Machine<AnyDevice>, t: u8, start: u64) -> u64 {
    let mut hash = hart_hash(machine, t, start);
    if let Some(task) = machine.task(t) {
        hash = mixed(hash, task.stamp);
        hash = mixed(hash, task.deadline);
    }
    hash
}

// How many tasks have a lesser stamp than this.
fn stamps_below(machine: &Machine<AnyDevice>, stamp: u64) -> u64 {
    let mut count = 0u64;
    for t in 0..machine.task_count() {
        if let Some(task) = machine.task(t) {
            if task.stamp < stamp {
                count = count.wrapping_add(1);
            }
        }
    }
    count
}

// What a task waits for, as a number.
fn wait_number(wait: Wait) -> u64 {
    match wait {
        Wait::Line(line) => 0x100 | u64::from(line),
        Wait::Lock(mutex) => 0x200 | u64::from(mutex),
        Wait::Reacquire { mutex, answer } => mixed(0x300 | u64::from(mutex), answer),
        Wait::Semaphore(semaphore) => 0x400 | u64::from(semaphore),
        Wait::Event(event) => 0x500 | u64::from(event),
        Wait::Flags(flags) => 0x600 | u64::from(flags),
        Wait::Sleep => 0x700,
        Wait::Timer(timer) => 0x800 | u64::from(timer),
    }
}

// Where a task is, as a number.
fn state_number(state: TaskState) -> u64 {
    match state {
        TaskState::InReady => 1,
        TaskState::OobReady => 2,
        TaskState::Waits(wait) => wait_number(wait),
        TaskState::Exit => 3,
        TaskState::Faulted(_) => 4,
    }
}

// Likewise, with the order of its stamp among the others' in place of the stamp.
fn alike_task_hash(machine: &Machine<AnyDevice>, t: u8, start: u64) -> u64 {
    let mut hash = hart_hash(machine, t, start);
    if let Some(task) = machine.task(t) {
        hash = mixed(hash, stamps_below(machine, task.stamp));
        hash = mixed(hash, task.deadline);
        hash = mixed(hash, state_number(task.state));
        hash = mixed(hash, u64::from(task.slice));
    }
    hash
}

// The hash of how often what happened to a line of a processor.
fn line_hash(machine: &Machine<AnyDevice>, c: u8, line: u8, start: u64) -> u64 {
    match machine.counts(c, line) {
        Some(counts) => {
            let hash = mixed(start, counts.raised);
            let hash = mixed(hash, counts.merged);
            let hash = mixed(hash, counts.oob.played);
            mixed(hash, counts.in_band.played)
        }
        None => start,
    }
}

// The hash of a processor's current task.
fn current_hash(machine: &Machine<AnyDevice>, c: u8, start: u64) -> u64 {
    match machine.cpu(c) {
        Some(processor) => mixed(start, u64::from(processor.current.unwrap_or(255))),
        None => start,
    }
}

// The hash of a processor: its current task, and its first two lines.
fn processor_hash(machine: &Machine<AnyDevice>, c: u8, start: u64) -> u64 {
    let mut hash = current_hash(machine, c, start);
    for line in 0..2 {
        hash = line_hash(machine, c, line, hash);
    }
    hash
}

// The hash of the lines that wait, and of which stages are stalled.
fn stages_hash(stages: &Stages, start: u64) -> u64 {
    let hash = mixed(start, stages.wire.word());
    let hash = mixed(hash, stages.oob.lines.word());
    let hash = mixed(hash, stages.in_band.lines.word());
    let hash = mixed(hash, u64::from(stages.oob.stalled));
    mixed(hash, u64::from(stages.in_band.stalled))
}

// Likewise, with the lines that wait in place of what has happened to lines.
fn alike_processor_hash(machine: &Machine<AnyDevice>, c: u8, start: u64) -> u64 {
    let hash = current_hash(machine, c, start);
    match machine.stages(c) {
        Some(stages) => stages_hash(&stages, hash),
        None => hash,
    }
}

// The hash of the kernel objects.
fn object_hash(machine: &Machine<AnyDevice>, start: u64) -> u64 {
    let mut hash = start;
    for m in 0..machine.mutex_count() {
        if let Some(mutex) = machine.mutex(m) {
            hash = mixed(hash, u64::from(mutex.owner.unwrap_or(255)));
        }
    }
    for s in 0..machine.semaphore_count() {
        hash = mixed(hash, u64::from(machine.semaphore(s).unwrap_or(0)));
    }
    hash
}

// The hash of what else kernel objects have.
fn more_object_hash(machine: &Machine<AnyDevice>, start: u64) -> u64 {
    let mut hash = start;
    for m in 0..machine.mutex_count() {
        if let Some(mutex) = machine.mutex(m) {
            hash = mixed(hash, mutex.count);
        }
    }
    for f in 0..machine.flag_group_count() {
        hash = mixed(hash, u64::from(machine.flag_group(f).unwrap_or(0)));
    }
    for n in 0..machine.timer_count() {
        if let Some(timer) = machine.timer(n) {
            hash = mixed(hash, timer.due);
            hash = mixed(hash, timer.expiries);
        }
    }
    hash
}

/// The hash of a machine on which a processor stepped last, not 0.
pub fn hash_of(machine: &Machine<AnyDevice>, cpu: u8, trail: &Trail) -> u64 {
    let mut hash = mixed(trail.ram, u64::from(cpu));
    hash = mixed(hash, machine.ticks());
    hash = mixed(hash, machine.next_stamp());
    for t in 0..machine.task_count() {
        hash = task_hash(machine, t, hash);
    }
    for c in 0..machine.cpu_count() {
        hash = processor_hash(machine, c, hash);
    }
    object_hash(machine, hash) | 1
}

// The hash of what is compared of boards that are alike, without the clock and RAM, not 0.
fn alike_board_hash(machine: &Machine<AnyDevice>, start: u64) -> u64 {
    let mut hash = start;
    for t in 0..machine.task_count() {
        hash = alike_task_hash(machine, t, hash);
    }
    for c in 0..machine.cpu_count() {
        hash = alike_processor_hash(machine, c, hash);
    }
    more_object_hash(machine, object_hash(machine, hash)) | 1
}

/// The hash of a machine on which a processor stepped last, not 0: the same for boards that are alike, whatever path led to them, if the
/// trails are the same.
pub fn alike_hash_of(machine: &Machine<AnyDevice>, cpu: u8, trail: &Trail) -> u64 {
    let start = mixed(trail.ram, u64::from(cpu));
    alike_board_hash(machine, mixed(start, machine.ticks()))
}

/// Likewise for boards that are alike without their clocks.
pub fn timeless_hash_of(machine: &Machine<AnyDevice>, cpu: u8, trail: &Trail) -> u64 {
    alike_board_hash(machine, mixed(trail.ram, u64::from(cpu)))
}
