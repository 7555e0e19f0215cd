ghost use Rattle.std.specs.Prelude.{◌≡◌, ◌<◌, Option};
ghost use Rattle.evm_model.specs.Bounds.{COUNT_LIMIT, STAMPS_PER_EVENT, HasRoom};
ghost use Rattle.evm_model.specs.Good.{Good};
ghost use Rattle.evm_model.specs.Event.{event_lent};
ghost use Rattle.evm_model.specs.Refusals.{board_refusal};
ghost use Rattle.evm_model.specs.Rows.{row};

use crate::board::Board;
use crate::commands::{set_bits, set_pc, set_register};
use crate::instructions::stop;
use evm_dev::Device;
use evm_model::{Answer, Block, Event};

impl<D: Device> Board<D> {
    /// Does what an event that isn't refused does.
    #[tactic(auto, using(crate::proofs::Rooms::wider), unfolding(evm_model::specs::Rows::row, evm_model::specs::Refusals::board_refusal))]
    pub fn row(&mut self, event: &Event<&Block>) -> Answer
        requires accepted { board_refusal (event_lent event.now) self.old ≡ Option.None }
        requires good { Good self.old.parts }
        requires clock { self.old.parts.ticks < COUNT_LIMIT }
        requires room { HasRoom STAMPS_PER_EVENT self.old.parts }
        ensures { (self.new, result) ≡ row (event_lent event.now) self.old }
    {
        match event {
            Event::Step(c) => return self.step(*c),
            Event::Tick => self.tick(),
            Event::Raise(c, line) | Event::Bell(c, line) => self.parts.raise(*c, *line),
            Event::Stop(c) => stop(&mut self.parts, *c),
            Event::Go(c) => set_bits(&mut self.parts, false, true, *c),
            Event::StepI(c) => self.single_step(*c),
            Event::SetReg(c, r, value) => set_register(&mut self.parts, *c, *r, *value),
            Event::SetPc(c, pc) => set_pc(&mut self.parts, *c, *pc),
            Event::Poke(address, bytes) => self.memory.poke(*address, bytes.as_slice()),
            Event::Break(address) => self.set_breakpoint(*address),
            Event::Unbreak(address) => self.unset_breakpoint(*address),
        }
        Answer::Done
    }
}
