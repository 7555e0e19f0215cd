//! What the tasks and objects of a run are called.

use crate::cursor::WalkStop;
use crate::walk::Walk;
use evm_dev::Device;
use evm_diagnostics::Devices;
use evm_journal::Machine;
use evm_model::Wait;
use evm_ram::Image;
use evm_room::{NoMemory, Refused, grow, push_text};
use run_marks::Mark;
use std::alloc::Global;
use text_symbols::{Kind, Names, Symbols};

/// A name, and what has it.
#[derive(Drop)]
pub struct Named {
    pub kind: Kind,
    pub number: u8,
    /// Printable characters of ASCII, at least one.
    pub name: String,
}

/// The names of the tasks and objects of a run.
#[derive(Drop)]
pub struct RunNames {
    named: Vec<Named>,
}

/// Where the kit's tasks begin, and where a program does: the function that they call is the one that names them.
const TASK_START: &str = "evl_task_start";

const PROGRAM_START: &str = "_start";

const MAIN: &str = "main";

/// The registers of a task's value and of its thread.
const VALUE: usize = 10;

const THREAD: usize = 4;

/// Where RAM begins.
const RAM: u64 = 0x8000_0000;

fn dword_at<D: Device>(machine: &Machine<D>, address: u64) -> Option<u64> {
    match machine.bytes(address, 8)? {
        [a, b, c, d, e, f, g, h] => Some(u64::from_le_bytes([*a, *b, *c, *d, *e, *f, *g, *h])),
        _ => None,
    }
}

// The function that a task runs which has just begun.
fn function_of<D: Device>(machine: &Machine<D>, symbols: &Symbols, task: u8) -> Option<u64> {
    let hart = machine.lent_hart(task)?;
    let (name, _) = symbols.at(hart.pc)?;
    if name == TASK_START {
        dword_at(machine, hart.regs[VALUE])
    } else if name == PROGRAM_START {
        symbols.address(MAIN)
    } else {
        Some(hart.pc)
    }
}

// The name of the tasks that run a function.
fn function_name(symbols: &Symbols, address: u64) -> Option<&str> {
    match symbols.at(address) {
        Some((name, 0)) => Some(name),
        _ => None,
    }
}

// Whether a name has only printable characters of ASCII, and at least one.
fn is_plain(name: &str) -> bool {
    !name.is_empty()
        && name
            .as_bytes()
            .iter()
            .all(|byte| *byte >= b' ' && *byte <= b'~')
}

// The object that is waited for, by its kind and number; None of lines and ticks.
fn object_of(wait: Wait) -> Option<(Kind, u8)> {
    match wait {
        Wait::Line(_) | Wait::Sleep => None,
        Wait::Lock(mutex) | Wait::Reacquire { mutex, .. } => Some((Kind::Mutex, mutex)),
        Wait::Semaphore(number) => Some((Kind::Semaphore, number)),
        Wait::Event(number) => Some((Kind::Event, number)),
        Wait::Flags(number) => Some((Kind::Flags, number)),
        Wait::Timer(number) => Some((Kind::Timer, number)),
    }
}

fn ram_of<D: Device>(machine: &Machine<D>) -> &[u8] {
    machine
        .bytes(RAM, machine.boot_numbers().ram)
        .unwrap_or(&[])
}

const OBJECTS: [Kind; 5] = [
    Kind::Mutex,
    Kind::Semaphore,
    Kind::Event,
    Kind::Flags,
    Kind::Timer,
];

// How many there are of a kind.
fn count_of<D: Device>(machine: &Machine<D>, kind: Kind) -> u8 {
    match kind {
        Kind::Task => machine.task_count(),
        Kind::Mutex => machine.mutex_count(),
        Kind::Semaphore => machine.semaphore_count(),
        Kind::Event => machine.event_object_count(),
        Kind::Flags => machine.flag_group_count(),
        Kind::Timer => machine.timer_count(),
    }
}

impl RunNames {
    /// No names.
    pub fn new(alloc: Global) -> RunNames {
        RunNames {
            named: Vec::new(alloc),
        }
    }

    /// All of them.
    pub fn all(&self) -> &[Named] {
        self.named.as_slice()
    }

    /// The name of an object; of several the last.
    pub fn of(&self, kind: Kind, number: u8) -> Option<&str> {
        let mut found = None;
        for one in self.named.as_slice() {
            if one.kind == kind && one.number == number {
                found = Some(one.name.as_str());
            }
        }
        found
    }

    /// The name of a task.
    pub fn task(&self, task: u8) -> Option<&str> {
        self.of(Kind::Task, task)
    }

    /// The name of what is waited for.
    pub fn waited(&self, wait: Wait) -> Option<&str> {
        let (kind, number) = object_of(wait)?;
        self.of(kind, number)
    }

    // A name more, if it is one.
    fn add(
        &mut self,
        alloc: Global,
        kind: Kind,
        number: u8,
        name: Option<&str>,
    ) -> Result<(), Refused> {
        let Some(text) = name else {
            return Ok(());
        };
        if !is_plain(text) {
            return Ok(());
        }
        let mut name = String::new(alloc);
        push_text(&mut name, text)?;
        grow(&mut self.named, 1)?;
        self.named.push_reserved(Named { kind, number, name });
        Ok(())
    }

    // The name of a task that has just begun.
    fn add_task<D: Device>(
        &mut self,
        alloc: Global,
        machine: &Machine<D>,
        symbols: &Symbols,
        task: u8,
    ) -> Result<(), Refused> {
        let Some(function) = function_of(machine, symbols, task) else {
            return Ok(());
        };
        self.add(alloc, Kind::Task, task, function_name(symbols, function))
    }

    // The names of the tasks that were created.
    fn add_created<D: Device>(
        &mut self,
        alloc: Global,
        machine: &Machine<D>,
        symbols: &Symbols,
        marks: &[Mark],
    ) -> Result<(), Refused> {
        for mark in marks {
            if let Mark::Created { task } = mark {
                self.add_task(alloc, machine, symbols, *task)?;
            }
        }
        Ok(())
    }

    // The names of the tasks by the map.
    fn add_mapped_tasks<D: Device>(
        &mut self,
        alloc: Global,
        machine: &Machine<D>,
        image: &Names,
    ) -> Result<(), Refused> {
        let ram = ram_of(machine);
        for task in 0..machine.task_count() {
            if let Some(hart) = machine.lent_hart(task) {
                let name = image.task(ram, task, hart.regs[THREAD]);
                self.add(alloc, Kind::Task, task, name)?;
            }
        }
        Ok(())
    }

    // The names of the objects of a kind by the map.
    fn add_mapped<D: Device>(
        &mut self,
        alloc: Global,
        machine: &Machine<D>,
        image: &Names,
        kind: Kind,
    ) -> Result<(), Refused> {
        let ram = ram_of(machine);
        for number in 0..count_of(machine, kind) {
            self.add(alloc, kind, number, image.object(ram, kind, number))?;
        }
        Ok(())
    }

    // The names of a run that is walked from its first event to its end, or to its first fault.
    fn of_walk<D: Device>(
        alloc: Global,
        walk: &mut Walk<D>,
        image: &Names,
    ) -> Result<RunNames, WalkStop> {
        let mut names = RunNames::new(alloc);
        let symbols = &image.symbols;
        names.add_task(alloc, walk.machine(), symbols, 0)?;
        let mut found = Vec::new(alloc);
        for _ in 0..walk.event_count() {
            match walk.next(&mut found) {
                Ok(Some(_)) => {}
                Ok(None) | Err(WalkStop::AtFault(_)) => break,
                Err(WalkStop::NoMemory) => return Err(WalkStop::NoMemory),
            }
            names.add_created(alloc, walk.machine(), symbols, found.as_slice())?;
        }
        names.add_mapped_tasks(alloc, walk.machine(), image)?;
        for kind in OBJECTS {
            names.add_mapped(alloc, walk.machine(), image, kind)?;
        }
        Ok(names)
    }

    // Owns the walk, so that the function above works on what is lent.
    fn of_run<D: Device>(
        alloc: Global,
        mut walk: Walk<D>,
        image: &Names,
    ) -> Result<RunNames, NoMemory> {
        RunNames::of_walk(alloc, &mut walk, image).map_err(|_| NoMemory)
    }

    /// The names of the run of a journal's text, which is replayed up to its end or its first fault: those that the image's map gives,
    /// and of a task without one that of the function that it runs. Without symbols there is none, and nothing is replayed.
    ///
    /// # Errors
    ///
    /// Memory was refused.
    pub fn of_journal<D: Device>(
        alloc: Global,
        image: &Image,
        devices: Devices<D>,
        journal: &str,
        names: &Names,
    ) -> Result<RunNames, NoMemory> {
        if names.symbols.symbols().is_empty() {
            return Ok(RunNames::new(alloc));
        }
        match Walk::start(alloc, image, devices, journal) {
            Ok(walk) => RunNames::of_run(alloc, walk, names),
            Err(WalkStop::AtFault(_)) => Ok(RunNames::new(alloc)),
            Err(WalkStop::NoMemory) => Err(NoMemory),
        }
    }
}
