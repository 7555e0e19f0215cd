//! What is seen of a machine before and after an event.

ghost use Rattle.std.specs.Prelude.{◌≡◌, ◌<◌, [], true, OnOk, IfOk};
ghost use Rattle.std.specs.Option.{IfSome};
ghost use Rattle.evm_model.specs.Good.{GoodState};
ghost use Rattle.evm_model.specs.State.{Parts, State};
ghost use Rattle.run_marks.specs.Marks.{AreMarks};
ghost use Rattle.evm_model.specs.declared.limits.TheConstants.{PROCESSOR_LIMIT as PROCESSORS};
ghost use Rattle.run_walk.specs.Observers.{AreWaitingFor, IsObserverOf};
ghost use Rattle.run_marks.specs.Tallies.{IsWithinReach, OnlyRaises};
ghost use Rattle.run_walk.specs.Walks.{IsLedBy, IsMarkedAs};

use crate::item::Item;
use evm_dev::Device;
use evm_journal::Machine;
use evm_lines::LineSet;
use evm_model::PROCESSOR_LIMIT;
use evm_room::Refused;
use run_marks::{Mark, Observation, Reach, Tally, marks, push_raise, reach_of};
use std::alloc::Global;
use std::mem;

/// What was seen of a machine before the next event, and room for what is seen after it.
#[derive(Drop)]
pub struct Observer {
    pub(crate) before: Observation,
    pub(crate) after: Observation,
    pub(crate) tally: Tally,
    // this is of the machine as it is
    pub(crate) fresh: bool,
}

// The line that an event raises which does nothing else, and its processor.
fn raised_line(reach: &Reach) -> Option<(u8, u8)>
    ensures { IfSome result (λ it. (reach.now ≡ Reach.ByLine it.0 it.1) × (it.0 < PROCESSORS)) }
{
    match reach {
        Reach::ByLine(cpu, line) if usize::from(*cpu) < PROCESSOR_LIMIT => Some((*cpu, *line)),
        _ => None,
    }
}

impl Observer {
    /// Looks at a machine before its first event.
    pub(crate) fn of<D: Device>(alloc: Global, machine: &Machine<D>) -> Result<Observer, Refused>
        ensures { IfOk result (λ observer. IsObserverOf observer machine.now.board.parts) }
    {
        let before = Observation::of(alloc, machine)?;
        let mut tally = Tally::new();
        tally.see(machine);
        Ok(Observer {
            before,
            after: Observation::new(alloc),
            tally,
            fresh: true,
        })
    }

    /// Looks at the machine anew, where the last look was at another or failed.
    pub(crate) fn refresh<D: Device>(&mut self, machine: &Machine<D>) -> Result<(), Refused>
        requires { self.old.fresh ≡ true → IsObserverOf self.old machine.now.board.parts }
        ensures ok { OnOk result (IsObserverOf self.new machine.now.board.parts) }
        ensures fresh { self.new.fresh ≡ true → IsObserverOf self.new machine.now.board.parts }
    {
        if self.fresh {
            return Ok(());
        }
        self.before.see(machine)?;
        self.tally.see(machine);
        self.fresh = true;
        Ok(())
    }

    /// Looks at the machine after an event that reaches so far, and appends the marks.
    pub(crate) fn follow<D: Device>(
        &mut self,
        found: &mut Vec<Mark>,
        machine: &Machine<D>,
        reach: &Reach,
    ) -> Result<(), Refused>
        requires { found.old.items ≡ [] }
        ensures seen { (was : Parts) → IsObserverOf self.old was → IsWithinReach reach.now was machine.now.board.parts → OnOk result (IsObserverOf self.new machine.now.board.parts) }
        ensures fresh { self.new.fresh ≡ self.old.fresh }
        ensures marks { (was : Parts) → IsObserverOf self.old was → IsWithinReach reach.now was machine.now.board.parts → OnOk result (AreMarks was machine.now.board.parts found.new.items) }
    {
        self.after.see(machine)?;
        marks(
            found,
            &self.before,
            &self.after,
            &mut self.tally,
            machine,
            reach,
        )?;
        mem::swap(&mut self.before, &mut self.after);
        Ok(())
    }

    // Looks at the machine after a line of a processor was raised and nothing else changed, and appends the marks.
    fn follow_line<D: Device>(
        &mut self,
        found: &mut Vec<Mark>,
        machine: &Machine<D>,
        cpu: u8,
        line: u8,
    ) -> Result<(), Refused>
        requires empty { found.old.items ≡ [] }
        requires cpu { cpu < PROCESSORS }
        ensures ok { (was : Parts) → IsObserverOf self.old was → OnlyRaises cpu line was machine.now.board.parts → OnOk result (IsObserverOf self.new machine.now.board.parts × AreMarks was machine.now.board.parts found.new.items) }
        ensures fresh { self.new.fresh ≡ self.old.fresh }
    {
        push_raise(found, &mut self.tally, machine, cpu, line)
    }

    /// Appends the marks of an item, which led the machine here from the one that was seen before. `waiting` has the lines that waited
    /// for the processor of a Step.
    pub(crate) fn tell<D: Device>(
        &mut self,
        found: &mut Vec<Mark>,
        machine: &Machine<D>,
        item: &Item,
        waiting: LineSet,
    ) -> Result<(), Refused>
        requires { found.old.items ≡ [] }
        ensures ok { (was : State) → GoodState was → IsObserverOf self.old was.board.parts → AreWaitingFor item.now.event waiting was.board.parts → IsLedBy item.now was machine.now → OnOk result (IsObserverOf self.new machine.now.board.parts × IsMarkedAs item.now.quiet was machine.now found.new.items) }
        ensures fresh { self.new.fresh ≡ self.old.fresh }
    {
        if item.quiet {
            return Ok(());
        }
        let reach = reach_of(&item.event, waiting);
        if let Some((cpu, line)) = raised_line(&reach) {
            return self.follow_line(found, machine, cpu, line);
        }
        self.follow(found, machine, &reach)
    }
}
