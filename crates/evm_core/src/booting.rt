ghost use Rattle.std.specs.Prelude.{◌≡◌, ◌≤◌, [], ◌∷◌, replicate, IfErr, IfOk, Option, false};
ghost use Rattle.evm_board.specs.evm_boost.Scheduled.{IsScheduled};
ghost use Rattle.evm_model.specs.Harts.{first_hart};
ghost use Rattle.evm_model.specs.Pipes.{idle_pipe};
ghost use Rattle.evm_model.specs.State.{booted, booted_parts, first_processor, first_task, newest, no_notices};
ghost use Rattle.evm_model.specs.Replay.{bad_boot, bad_watchdog, BootAnswers};

use crate::machine::Machine;
use arrayvec::ArrayVec;
use evm_board::{
    Actions, Board, Breakpoints, Console, Devices, Events, Flags, Harts, Memory, Mutexes, Notices,
    Parts, Pipe, Schedule, Semaphores, Slots, Tasks, Timers, Watches,
};
use evm_dev::Device;
use evm_exec::{Hart, REGISTER_COUNT};
use evm_model::{
    Boot, CAPACITY_LIMIT, Class, Mode, PROCESSOR_LIMIT, PROFILE_LIMIT, Processor, Profile,
    RAM_LEAST, RAM_UNIT, Refusal, Task, TaskState, WATCHDOG_LIMIT, WIDE_PROFILE,
};
use evm_ram::{BASE, Ram, SIZE_LIMIT};
use evm_room::Refused;
use std::alloc::Global;

// Whether a watchdog of so many ticks is outside the limits of a profile.
fn is_bad_watchdog(profile: u64, ticks: u64) -> bool
    ensures { result ≡ bad_watchdog profile ticks }
{
    ticks > u64::from(WATCHDOG_LIMIT) || profile < u64::from(WIDE_PROFILE) && ticks != 0
}

fn is_bad(boot: &Boot) -> bool
    ensures { result ≡ bad_boot boot.now }
{
    boot.profile == 0
        || boot.profile > u64::from(PROFILE_LIMIT)
        || is_bad_watchdog(boot.profile, boot.watchdog)
        || boot.cpus == 0
        || boot.cpus > PROCESSOR_LIMIT as u64
        || boot.ram < RAM_LEAST
        || boot.ram > SIZE_LIMIT
        || boot.ram % RAM_UNIT != 0
        || boot.capacity == 0
        || boot.capacity > CAPACITY_LIMIT
}

fn processor_with(task: Option<u8>) -> Processor
    ensures { result ≡ first_processor task }
{
    Processor {
        current: task,
        in_band_task: task,
        stopped: false,
        skip: false,
    }
}

fn hart_zero(ram: u64) -> Hart
    requires { ram ≤ SIZE_LIMIT }
    ensures { result ≡ first_hart ram }
{
    let mut regs = [0; REGISTER_COUNT];
    regs[2] = BASE + ram;
    Hart { regs, pc: BASE }
}

fn task_zero() -> Task
    ensures { result ≡ first_task }
{
    Task {
        cpu: 0,
        class: Class::Unattached,
        priority: 0,
        slice: 0,
        mode: Mode { bits: 0 },
        stamp: 0,
        deadline: 0,
        state: TaskState::InReady,
    }
}

// Processors that idle.
#[tactic(auto, using(crate::proofs::Lists::one_more))]
fn processors_of(count: u64) -> ArrayVec<Processor, PROCESSOR_LIMIT>
    requires { count ≤ PROCESSOR_LIMIT }
    ensures { result.items ≡ replicate count (first_processor Option.None) }
{
    let mut processors = ArrayVec::new();
    for c in 0..count {
        processors.push(processor_with(None));
    }
    processors
}

// Pipes where nothing has happened.
#[tactic(auto, using(crate::proofs::Lists::one_more))]
fn pipes_of(count: u64) -> ArrayVec<Pipe, PROCESSOR_LIMIT>
    requires { count ≤ PROCESSOR_LIMIT }
    ensures { result.items ≡ replicate count idle_pipe }
{
    let mut pipes = ArrayVec::new();
    for c in 0..count {
        pipes.push(Pipe::new());
    }
    pipes
}

// The parts at boot: task 0 is current on processor 0.
#[tactic(auto, unfolding(evm_model::specs::State::booted_parts))]
fn parts_of(boot: &Boot, schedule: Schedule, console: Console, notices: Notices) -> Parts
    requires schedule { IsScheduled schedule [] (first_task ∷ []) }
    requires fits { bad_boot boot.now ≡ false }
    requires empty { console ≡ [] }
    requires none { notices ≡ no_notices }
    ensures { result ≡ booted_parts boot.now }
{
    let mut processors = processors_of(boot.cpus);
    let first = processor_with(Some(0));
    if let Some(place) = processors.get_mut(0) {
        *place = first;
    }
    Parts {
        profile: Profile {
            ram: boot.ram,
            version: boot.profile as u8,
            watchdog: boot.watchdog as u32,
        },
        ticks: 0,
        harts: Harts::of_first(hart_zero(boot.ram)),
        tasks: Tasks::of_first(task_zero()),
        processors,
        pipes: pipes_of(boot.cpus),
        watches: Watches::new(boot.cpus),
        stamps: 1,
        mutexes: Mutexes::new(),
        schedule,
        semaphores: Semaphores::new(),
        events: Events::new(),
        flags: Flags::new(),
        timers: Timers::new(),
        actions: Actions::new(),
        console,
        notices,
    }
}

// All that events change, at boot.
#[tactic(auto, unfolding(evm_model::specs::State::booted))]
fn board_of<D: Device>(alloc: Global, boot: &Boot, devices: Devices<D>) -> Result<Board<D>, Refused>
    requires { bad_boot boot.now ≡ false }
    ensures booted { IfOk result (λ board. board ≡ booted devices boot.now) }
    ensures refused { IfErr result (λ asked. asked ≤ boot.now.ram) }
{
    let ram = Ram::new(alloc, boot.ram)?;
    let schedule = Schedule::of_first(alloc, boot.cpus as u8, task_zero())?;
    let console = Console::new(alloc)?;
    let notices = Notices::new(alloc)?;
    Ok(Board {
        memory: Memory::new(ram, devices),
        breakpoints: Breakpoints::new(),
        parts: parts_of(boot, schedule, console, notices),
        slots: Slots::new(alloc)?,
    })
}

impl<D: Device> Machine<D> {
    /// Boots a machine of the newest profile, without a watchdog or devices: RAM is zero, and task 0 is current on
    /// processor 0, at RAM's first byte. It has room for its whole journal and all else that events will take. Returns
    /// `BadSize` if and only if a number is outside its limits: processors 1 to 8, RAM 65,536 to 16,777,216 bytes in
    /// multiples of 4,096, capacity 1 to 1,048,576 events.
    pub fn boot(alloc: Global, cpus: u8, ram: u64, capacity: u32) -> Result<Machine<D>, Refusal>
        ensures { BootAnswers [] (newest cpus ram capacity) result }
    {
        Machine::bare(
            alloc,
            Boot::newest(u64::from(cpus), ram, u64::from(capacity)),
        )
    }

    /// Boots a machine of a profile, 1 to 3, with a watchdog of 1 to 1,000,000 ticks; 0 is none, which profiles 1 and 2
    /// always have. Returns `BadSize` if these or the numbers of `boot` are outside their limits.
    pub fn boot_as(
        alloc: Global,
        profile: u8,
        watchdog: u32,
        cpus: u8,
        ram: u64,
        capacity: u32,
    ) -> Result<Machine<D>, Refusal>
        ensures { BootAnswers [] (record { profile = profile; watchdog = watchdog; cpus = cpus; ram = ram; capacity = capacity }) result }
    {
        let boot = Boot {
            profile: u64::from(profile),
            watchdog: u64::from(watchdog),
            cpus: u64::from(cpus),
            ram,
            capacity: u64::from(capacity),
        };
        Machine::bare(alloc, boot)
    }

    // A machine without devices.
    fn bare(alloc: Global, boot: Boot) -> Result<Machine<D>, Refusal>
        ensures { BootAnswers [] boot result }
    {
        if is_bad(&boot) {
            return Err(Refusal::BadSize);
        }
        match Devices::new(alloc) {
            Err(refused) => {
                refused.within();
                Err(Refusal::NoMemory)
            }
            Ok(devices) => Machine::from_boot(alloc, boot, devices),
        }
    }

    /// Like `boot_as`, from the numbers of a boot line, which may be any, and with devices.
    pub fn from_boot(alloc: Global, boot: Boot, devices: Devices<D>) -> Result<Machine<D>, Refusal>
        ensures { BootAnswers devices boot result }
    {
        if is_bad(&boot) {
            return Err(Refusal::BadSize);
        }
        match board_of(alloc, &boot, devices) {
            Err(refused) => {
                refused.within();
                Err(Refusal::NoMemory)
            }
            Ok(board) => Machine::of_board(alloc, boot, board),
        }
    }
}
