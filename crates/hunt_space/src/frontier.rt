//! The paths of a search, in the order in which they are gone.

ghost use Rattle.std.specs.Prelude.{◌≡◌, ◌≢◌, ◌<◌, ◌≤◌, ◌∷◌, ◌++◌, ℕ, [], false, true, length, IfOk, MatchOption, OnErr, OnOk, Option, slice_get};
ghost use Rattle.evm_lines.specs.Lines.{has_line};
ghost use Rattle.hunt_schedules.specs.declared.branch.Choice.{Choice};
ghost use Rattle.hunt_space.specs.Exploring.{HasFork, HasForks};
ghost use Rattle.hunt_space.specs.Space.{IsPathAt, KeepsPaths};

use crate::path::Path;
use evm_lines::LineSet;
use evm_room::NoMemory;
use hunt_failures::current;
use hunt_schedules::{AnyDevice, Choice, Machine};
use hunt_states::Trail;
use std::alloc::Global;

/// Paths, and whether one was left out.
#[derive(Debug, Drop)]
pub struct Frontier {
    /// The paths, the boot first.
    pub paths: Vec<Path>,
    /// How many there may be.
    pub most: u64,
    /// Whether there would be more.
    pub cut: bool,
    /// Where a call reads the clock or names a time that may not, the first that was found.
    pub clock: Option<u64>,
    /// Whether a store hits the text from which private rows are taken.
    pub hit: bool,
}

/// A state from which paths fork: some steps behind the turns of a path.
#[derive(Clone, Copy)]
pub struct Fork<'a> {
    /// What gives memory.
    pub alloc: Global,
    /// The path.
    pub path: &'a Path,
    /// The steps.
    pub steps: u32,
    /// What was stored up to there.
    pub trail: Trail,
}

/// What may come at a state.
#[derive(Clone, Copy)]
pub struct Choices<'a> {
    /// The processors that may step.
    pub awake: &'a [u8],
    /// How many processors there are.
    pub cpus: u8,
    /// The lines that may be raised on each of them.
    pub lines: LineSet,
    /// Whether a tick may come.
    pub tick: bool,
}

// Adds a path.
fn add(paths: &mut Vec<Path>, path: Path) -> Result<(), NoMemory>
    ensures added { OnOk result (paths.new.items ≡ paths.old.items ++ path ∷ []) }
    ensures same { OnErr result (paths.new.items ≡ paths.old.items) }
{
    match paths.push(path) {
        Ok(()) => Ok(()),
        Err(_) => Err(NoMemory),
    }
}

impl Frontier {
    /// The boot alone.
    ///
    /// # Errors
    ///
    /// Memory was refused.
    pub(crate) fn new(alloc: Global, most: u64) -> Result<Frontier, NoMemory>
        ensures { IfOk result (λ frontier. (root : Path) × (frontier.paths.items ≡ root ∷ []) × (root.turns.items ≡ [])) }
    {
        let mut paths = Vec::new(alloc);
        match paths.push(Path::root(alloc)) {
            Ok(()) => Ok(Frontier {
                paths,
                most,
                cut: false,
                clock: None,
                hit: false,
            }),
            Err(_) => Err(NoMemory),
        }
    }

    /// Notes where a processor may read the clock.
    pub(crate) fn note_clock(&mut self, machine: &Machine<AnyDevice>, cpu: u8)
        ensures paths { self.new.paths ≡ self.old.paths }
        ensures cut { self.new.cut ≡ self.old.cut }
    {
        if self.clock.is_some() {
            return;
        }
        self.clock = match current(machine, cpu) {
            Some(t) => machine.hart(t).map(|hart| hart.pc),
            None => None,
        };
    }

    /// A path by its number, the boot at 0; None if there are fewer.
    ///
    /// # Errors
    ///
    /// Memory was refused.
    pub(crate) fn get(&self, alloc: Global, number: u32) -> Result<Option<Path>, NoMemory>
        ensures { IfOk result (λ found. MatchOption found (length self.now.paths.items ≤ number) (λ path. IsPathAt self.now.paths.items number path.turns.items path.cpu)) }
    {
        match self.paths.get(number as usize) {
            Some(path) => match path.copied(alloc) {
                Ok(path) => Ok(Some(path)),
                Err(fault) => Err(fault),
            },
            None => Ok(None),
        }
    }

    // The path that makes a choice, if there may be more paths.
    fn fork(&mut self, from: &Fork<'_>, choice: Choice) -> Result<(), NoMemory>
        ensures keeps { KeepsPaths self.old.paths.items self.new.paths.items }
        ensures cut { self.new.cut ≡ false → self.old.cut ≡ false }
        ensures forks { OnOk result (self.new.cut ≡ false → HasFork self.new.paths.items from.now.path.now from.now.steps choice) }
    {
        if self.paths.len() as u64 >= self.most {
            self.cut = true;
            return Ok(());
        }
        let path = match from.path.forked(from.alloc, from.steps, choice, from.trail) {
            Ok(path) => path,
            Err(fault) => return Err(fault),
        };
        match add(&mut self.paths, path) {
            Ok(()) => Ok(()),
            Err(fault) => Err(fault),
        }
    }

    // The path of which a processor steps that is not the path's own.
    fn fork_step(&mut self, from: &Fork<'_>, cpu: u8) -> Result<(), NoMemory>
        ensures keeps { KeepsPaths self.old.paths.items self.new.paths.items }
        ensures cut { self.new.cut ≡ false → self.old.cut ≡ false }
        ensures has { OnOk result (self.new.cut ≡ false → cpu ≢ from.now.path.now.cpu → HasFork self.new.paths.items from.now.path.now from.now.steps (Choice.Step cpu)) }
    {
        if cpu == from.path.cpu {
            return Ok(());
        }
        self.fork(from, Choice::Step(cpu))
    }

    // The paths of which another processor steps.
    fn fork_steps(&mut self, from: &Fork<'_>, awake: &[u8]) -> Result<(), NoMemory>
        ensures keeps { KeepsPaths self.old.paths.items self.new.paths.items }
        ensures cut { self.new.cut ≡ false → self.old.cut ≡ false }
        ensures has { OnOk result (self.new.cut ≡ false → (i d : ℕ) → slice_get awake.now i ≡ Option.Some d → d ≢ from.now.path.now.cpu → HasFork self.new.paths.items from.now.path.now from.now.steps (Choice.Step d)) }
    {
        'awake: for cpu in awake {
            match self.fork_step(from, *cpu) {
                Ok(()) => {}
                Err(fault) => return Err(fault),
            }
        }
        Ok(())
    }

    // The paths of which a line is raised on a processor.
    fn fork_raises(&mut self, from: &Fork<'_>, cpus: u8, line: u8) -> Result<(), NoMemory>
        ensures keeps { KeepsPaths self.old.paths.items self.new.paths.items }
        ensures cut { self.new.cut ≡ false → self.old.cut ≡ false }
        ensures has { OnOk result (self.new.cut ≡ false → (d : ℕ) → d < cpus → HasFork self.new.paths.items from.now.path.now from.now.steps (Choice.Raise d line)) }
    {
        'cpus: for cpu in 0..cpus {
            match self.fork(from, Choice::Raise(cpu, line)) {
                Ok(()) => {}
                Err(fault) => return Err(fault),
            }
        }
        Ok(())
    }

    // The paths of which one of some lines is raised.
    fn fork_lines(&mut self, from: &Fork<'_>, cpus: u8, lines: LineSet) -> Result<(), NoMemory>
        ensures keeps { KeepsPaths self.old.paths.items self.new.paths.items }
        ensures cut { self.new.cut ≡ false → self.old.cut ≡ false }
        ensures has { OnOk result (self.new.cut ≡ false → (d line : ℕ) → d < cpus → has_line lines line ≡ true → HasFork self.new.paths.items from.now.path.now from.now.steps (Choice.Raise d line)) }
    {
        let mut left = lines;
        'lines: while let Some(line) = left.pop() {
            match self.fork_raises(from, cpus, line) {
                Ok(()) => {}
                Err(fault) => return Err(fault),
            }
        }
        Ok(())
    }

    // The path of which a tick comes, if one may.
    fn fork_tick(&mut self, from: &Fork<'_>, tick: bool) -> Result<(), NoMemory>
        ensures keeps { KeepsPaths self.old.paths.items self.new.paths.items }
        ensures cut { self.new.cut ≡ false → self.old.cut ≡ false }
        ensures has { OnOk result (self.new.cut ≡ false → tick ≡ true → HasFork self.new.paths.items from.now.path.now from.now.steps Choice.Tick) }
    {
        if !tick {
            return Ok(());
        }
        self.fork(from, Choice::Tick)
    }

    /// The paths of all that may come at a state, but a step of the path's own processor.
    ///
    /// # Errors
    ///
    /// Memory was refused.
    pub(crate) fn fork_all(
        &mut self,
        from: &Fork<'_>,
        choices: &Choices<'_>,
    ) -> Result<(), NoMemory>
        ensures keeps { KeepsPaths self.old.paths.items self.new.paths.items }
        ensures cut { self.new.cut ≡ false → self.old.cut ≡ false }
        ensures has { OnOk result (self.new.cut ≡ false → HasForks self.new.paths.items from.now.path.now from.now.steps choices.now.awake.now choices.now.cpus choices.now.lines choices.now.tick) }
    {
        match self.fork_steps(from, choices.awake) {
            Ok(()) => {}
            Err(fault) => return Err(fault),
        }
        match self.fork_tick(from, choices.tick) {
            Ok(()) => {}
            Err(fault) => return Err(fault),
        }
        match self.fork_lines(from, choices.cpus, choices.lines) {
            Ok(()) => Ok(()),
            Err(fault) => Err(fault),
        }
    }
}
