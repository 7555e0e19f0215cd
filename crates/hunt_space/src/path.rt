//! Paths: turns that lead from the boot to a state, and the processor that goes on from there.

ghost use Rattle.std.specs.Prelude.{◌≡◌, [], IfOk};
ghost use Rattle.hunt_schedules.specs.Branches.{event_of_choice};
ghost use Rattle.hunt_schedules.specs.Schedules.{stepped};
ghost use Rattle.hunt_space.specs.Space.{with_turn};

use evm_room::NoMemory;
use hunt_schedules::{Choice, CpuTurn};
use hunt_states::Trail;
use std::alloc::Global;

/// Turns, and then steps of one processor.
#[derive(Debug, Drop)]
pub struct Path {
    /// The turns.
    pub turns: Vec<CpuTurn>,
    /// The processor that goes on.
    pub cpu: u8,
    /// What was stored up to the choice that ends the last turn.
    pub trail: Trail,
}
// The processor that has stepped last behind a choice.
fn stepped_by(choice: Choice, before: u8) -> u8
    ensures { result ≡ stepped before (event_of_choice choice) }
{
    match choice {
        Choice::Step(cpu) => cpu,
        Choice::Tick | Choice::Raise(_, _) => before,
    }
}

impl Path {
    /// The boot, from which processor 0 goes on.
    pub(crate) fn root(alloc: Global) -> Path
        ensures { result.turns.items ≡ [] }
    {
        Path {
            turns: Vec::new(alloc),
            cpu: 0,
            trail: Trail::new(),
        }
    }

    /// The same path once more.
    ///
    /// # Errors
    ///
    /// Memory was refused.
    pub(crate) fn copied(&self, alloc: Global) -> Result<Path, NoMemory>
        ensures turns { IfOk result (λ path. path.turns.items ≡ self.now.turns.items) }
        ensures cpu { IfOk result (λ path. path.cpu ≡ self.now.cpu) }
    {
        let mut turns = Vec::new(alloc);
        match turns.extend_from_slice(self.turns.as_slice()) {
            Ok(()) => Ok(Path {
                turns,
                cpu: self.cpu,
                trail: self.trail,
            }),
            Err(_) => Err(NoMemory),
        }
    }

    /// The path that makes a choice behind some steps.
    ///
    /// # Errors
    ///
    /// Memory was refused.
    pub(crate) fn forked(
        &self,
        alloc: Global,
        steps: u32,
        choice: Choice,
        trail: Trail,
    ) -> Result<Path, NoMemory>
        ensures turns { IfOk result (λ path. path.turns.items ≡ with_turn self.now.turns.items self.now.cpu steps choice) }
        ensures cpu { IfOk result (λ path. path.cpu ≡ stepped self.now.cpu (event_of_choice choice)) }
    {
        let turn = CpuTurn {
            cpu: self.cpu,
            steps,
            choice,
        };
        let mut path = self.copied(alloc)?;
        match path.turns.push(turn) {
            Ok(()) => {}
            Err(_) => return Err(NoMemory),
        }
        path.cpu = stepped_by(choice, self.cpu);
        path.trail = trail;
        Ok(path)
    }
}
