//! The actions of lines.

ghost use Rattle.std.specs.Prelude.{◌≡◌, ◌<◌, ◌≤◌, ◌+◌, ◌-◌, ◌^◌};
ghost use Rattle.evm_model.specs.Actions.{act, action_at, receive_line};
ghost use Rattle.evm_model.specs.Bounds.{COUNT_LIMIT, HasStamps, PipesUpTo};
ghost use Rattle.evm_model.specs.Pipes.{stage_of};
ghost use Rattle.evm_model.specs.State.{on_action};

use crate::parts::Parts;
use evm_lines::LINES;
use evm_model::{Action, FLAG_BITS, Stage};

// The stage that receives a line with this action: out-of-band for lines 0 and 1, and where it has one.
fn stage_of(action: Action, line: u8) -> Stage
    ensures { result ≡ stage_of action line }
{
    if line < 2 {
        return Stage::OutOfBand;
    }
    match action {
        Action::Nothing => Stage::InBand,
        _ => Stage::OutOfBand,
    }
}

// The bit of a line in the word of a flag group.
fn bit_of(line: u8) -> u32
    requires { line < FLAG_BITS }
    ensures { result ≡ 2 ^ line }
{
    1 << line
}

impl Parts {
    /// The action of a line.
    pub fn action_at(&self, line: u8) -> Action
        ensures { result ≡ action_at line self.now }
    {
        self.actions.get(line)
    }

    /// A line has another action.
    pub fn set_action(&mut self, line: u8, action: Action)
        ensures row { self.new ≡ on_action line (λ _. action) self.old }
    {
        self.actions.set(line, action);
    }

    /// Takes a line from a processor's wire into the log of the stage that its action says now.
    #[tactic(auto, unfolding(evm_model::specs::Actions::receive_line))]
    pub fn receive_line(&mut self, c: u8, line: u8)
        requires line { line < LINES }
        requires room { PipesUpTo (COUNT_LIMIT - 1) self.old.pipes }
        ensures { self.new ≡ receive_line c line self.old }
    {
        let stage = stage_of(self.action_at(line), line);
        if let Some(pipe) = self.pipes.get_mut(c as usize) {
            pipe.receive(stage, line);
        }
    }

    /// What a line does by an action: it puts one into a semaphore, unless that has its greatest count, or posts its own
    /// bit to a flag group, whose word has the bits of lines 0 to 31.
    #[tactic(auto, unfolding(evm_model::specs::Actions::act))]
    pub fn act(&mut self, action: Action, line: u8)
        requires line { line < LINES }
        requires room { HasStamps 1 self.old }
        ensures row { self.new ≡ act action line self.old }
        ensures stamps { self.new.stamps ≤ self.old.stamps + 1 }
    {
        match action {
            Action::Nothing => {}
            Action::Puts(s) => {
                let _outcome = self.sem_put(s);
            }
            Action::Posts(f) => {
                if line < FLAG_BITS {
                    self.post(f, bit_of(line));
                }
            }
        }
    }
}
