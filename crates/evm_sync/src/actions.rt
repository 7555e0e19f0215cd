ghost use Rattle.std.specs.Prelude.{◌≡◌, replicate};
ghost use Rattle.evm_lines.specs.declared.TheConstants.{LINES};
ghost use Rattle.evm_model.specs.Actions.{action_in};
ghost use Rattle.evm_model.specs.Lists.{change};
ghost use Rattle.evm_model.specs.declared.action.Action.TheVariants.{Nothing};

use evm_lines::LINE_COUNT;
use evm_model::Action;
use std::marker::Model;

/// The actions of the lines, in the order of their numbers.
#[derive(Debug, Drop)]
pub struct Actions {
    actions: [Action; LINE_COUNT],
}

impl Model for Actions {
    ghost use Rattle.std.specs.Prelude.{List};
    ghost use Rattle.evm_model.specs.declared.action.Action.{Action};

    ghost Value = { List Action };

    ghost view = { λ a. a.actions };
}

impl Actions {
    /// No line has one.
    pub fn new() -> Actions
        ensures { result ≡ replicate LINES Nothing }
    {
        Actions {
            actions: [Action::Nothing; LINE_COUNT],
        }
    }

    /// Each line has the action that it has elsewhere.
    pub fn copy_from(&mut self, other: &Actions)
        ensures { self.new ≡ other.now }
    {
        self.actions = other.actions;
    }

    /// The action of a line.
    pub fn get(&self, line: u8) -> Action
        ensures { result ≡ action_in self.now line }
    {
        match self.actions.get(line as usize) {
            None => Action::Nothing,
            Some(action) => *action,
        }
    }

    /// A line has another action.
    pub fn set(&mut self, line: u8, action: Action)
        ensures { self.new ≡ change (λ _. action) self.old line }
    {
        let index = line as usize;
        if self.actions.get(index).is_some() {
            self.actions[index] = action;
        }
    }
}
