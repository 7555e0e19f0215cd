//! The branches of a search, in the order in which they are looked at.

ghost use Rattle.std.specs.Prelude.{◌≡◌, ◌∷◌, [], ◌≢◌, ℕ, ◌<◌, false, true, OnOk, IfOk, Option, slice_get};
ghost use Rattle.evm_lines.specs.Lines.{has_line};
ghost use Rattle.hunt_schedules.specs.Branches.{HasBranch, HasSwitches, KeepsBranches, forked};
ghost use Rattle.hunt_schedules.specs.declared.branch.Choice.{Choice};

use crate::branch::{Branch, Choice};
use evm_lines::LineSet;
use evm_room::NoMemory;
use std::alloc::Global;

/// Branches, and whether there were more than may be looked at.
#[derive(Debug, Drop)]
pub struct Queue {
    /// The branches.
    pub branches: Vec<Branch>,
    /// How many there may be.
    pub most: u64,
    /// Whether one was left out.
    pub cut: bool,
}

/// Which ways a branch may go.
#[derive(Clone, Copy)]
pub struct Ways<'a> {
    /// The processors that may step.
    pub awake: &'a [u8],
    /// How many processors there are.
    pub cpus: u8,
    /// The lines that may be raised on each of them.
    pub lines: LineSet,
}

impl Queue {
    /// The root alone.
    ///
    /// # Errors
    ///
    /// Memory was refused.
    pub fn new(alloc: Global, most: u64) -> Result<Queue, NoMemory>
        ensures { IfOk result (λ queue. queue.branches.items ≡ record { turns = record { items = [] }; cpu = 0 } ∷ []) }
    {
        let mut branches = Vec::new(alloc);
        match branches.push(Branch::root()) {
            Ok(()) => Ok(Queue {
                branches,
                most,
                cut: false,
            }),
            Err(_) => Err(NoMemory),
        }
    }

    /// A branch by its number, the root at 0.
    pub fn get(&self, place: u64) -> Option<Branch>
        ensures { result ≡ slice_get self.now.branches.items place }
    {
        match self.branches.get(place as usize) {
            Some(branch) => Some(branch.copied()),
            None => None,
        }
    }

    // One more, if there may be more.
    fn push(&mut self, branch: Branch) -> Result<(), NoMemory>
        ensures keeps { KeepsBranches self.old.branches.items self.new.branches.items }
        ensures cut { self.new.cut ≡ false → self.old.cut ≡ false }
        ensures pushes { OnOk result (self.new.cut ≡ false → HasBranch self.new.branches.items branch) }
    {
        if self.branches.len() as u64 >= self.most {
            self.cut = true;
            return Ok(());
        }
        match self.branches.push(branch) {
            Ok(()) => Ok(()),
            Err(_) => Err(NoMemory),
        }
    }

    /// The branch that goes another way behind some steps of one.
    ///
    /// # Errors
    ///
    /// Memory was refused.
    pub fn fork(&mut self, branch: &Branch, steps: u32, choice: Choice) -> Result<(), NoMemory>
        ensures keeps { KeepsBranches self.old.branches.items self.new.branches.items }
        ensures cut { self.new.cut ≡ false → self.old.cut ≡ false }
        ensures pushes { OnOk result (self.new.cut ≡ false → HasBranch self.new.branches.items (forked branch.now steps choice)) }
    {
        match branch.forked(steps, choice) {
            Some(forked) => self.push(forked),
            None => {
                self.cut = true;
                Ok(())
            }
        }
    }

    // The branch of which another processor steps.
    fn fork_step(&mut self, branch: &Branch, steps: u32, cpu: u8) -> Result<(), NoMemory>
        ensures keeps { KeepsBranches self.old.branches.items self.new.branches.items }
        ensures cut { self.new.cut ≡ false → self.old.cut ≡ false }
        ensures has { OnOk result (self.new.cut ≡ false → cpu ≢ branch.now.cpu → HasBranch self.new.branches.items (forked branch.now steps (Choice.Step cpu))) }
    {
        if cpu == branch.cpu {
            return Ok(());
        }
        self.fork(branch, steps, Choice::Step(cpu))
    }

    // The branches of which another processor steps.
    fn fork_steps(&mut self, branch: &Branch, steps: u32, awake: &[u8]) -> Result<(), NoMemory>
        ensures keeps { KeepsBranches self.old.branches.items self.new.branches.items }
        ensures cut { self.new.cut ≡ false → self.old.cut ≡ false }
        ensures has { OnOk result (self.new.cut ≡ false → (i d : ℕ) → slice_get awake.now i ≡ Option.Some d → d ≢ branch.now.cpu → HasBranch self.new.branches.items (forked branch.now steps (Choice.Step d))) }
    {
        'awake: for cpu in awake {
            match self.fork_step(branch, steps, *cpu) {
                Ok(()) => {}
                Err(fault) => return Err(fault),
            }
        }
        Ok(())
    }

    // The branches of which a line is raised on a processor.
    fn fork_raises(
        &mut self,
        branch: &Branch,
        steps: u32,
        cpus: u8,
        line: u8,
    ) -> Result<(), NoMemory>
        ensures keeps { KeepsBranches self.old.branches.items self.new.branches.items }
        ensures cut { self.new.cut ≡ false → self.old.cut ≡ false }
        ensures has { OnOk result (self.new.cut ≡ false → (d : ℕ) → d < cpus → HasBranch self.new.branches.items (forked branch.now steps (Choice.Raise d line))) }
    {
        'cpus: for cpu in 0..cpus {
            match self.fork(branch, steps, Choice::Raise(cpu, line)) {
                Ok(()) => {}
                Err(fault) => return Err(fault),
            }
        }
        Ok(())
    }

    // The branches of which one of some lines is raised.
    fn fork_lines(
        &mut self,
        branch: &Branch,
        steps: u32,
        cpus: u8,
        lines: LineSet,
    ) -> Result<(), NoMemory>
        ensures keeps { KeepsBranches self.old.branches.items self.new.branches.items }
        ensures cut { self.new.cut ≡ false → self.old.cut ≡ false }
        ensures has { OnOk result (self.new.cut ≡ false → (d line : ℕ) → d < cpus → has_line lines line ≡ true → HasBranch self.new.branches.items (forked branch.now steps (Choice.Raise d line))) }
    {
        let mut left = lines;
        'lines: while let Some(line) = left.pop() {
            match self.fork_raises(branch, steps, cpus, line) {
                Ok(()) => {}
                Err(fault) => return Err(fault),
            }
        }
        Ok(())
    }

    /// All branches that go another way behind some steps of one: a step of another of the processors that are awake, a tick, and a raise of
    /// one of the lines on a processor.
    ///
    /// # Errors
    ///
    /// Memory was refused.
    pub fn fork_all(&mut self, branch: &Branch, steps: u32, ways: &Ways<'_>) -> Result<(), NoMemory>
        ensures keeps { KeepsBranches self.old.branches.items self.new.branches.items }
        ensures cut { self.new.cut ≡ false → self.old.cut ≡ false }
        ensures has { OnOk result (self.new.cut ≡ false → HasSwitches self.new.branches.items branch.now steps ways.now.awake.now ways.now.cpus ways.now.lines) }
    {
        match self.fork_steps(branch, steps, ways.awake) {
            Ok(()) => {}
            Err(fault) => return Err(fault),
        }
        match self.fork(branch, steps, Choice::Tick) {
            Ok(()) => {}
            Err(fault) => return Err(fault),
        }
        match self.fork_lines(branch, steps, ways.cpus, ways.lines) {
            Ok(()) => Ok(()),
            Err(fault) => Err(fault),
        }
    }
}
