//! Which mutexes each task owns.

ghost use Rattle.std.specs.Prelude.{◌≡◌, ◌<◌, ◌==◌, ℕ, Some, None, Option, slice_get};
ghost use Rattle.evm_lines.specs.Lines.{with_line, without_line};
ghost use Rattle.evm_boost.specs.Owning.{AreOwned, given};
ghost use Rattle.evm_model.specs.Lists.{change};

use evm_lines::{LINES, LineSet};
use std::marker::Model;

// How many numbers a task can have.
const NUMBERS: usize = 256;

// The mutexes of each task, by the task's number. A set of mutexes is a set of lines: there are as many of them.
#[derive(Debug, Drop)]
pub(crate) struct Owned {
    sets: [LineSet; NUMBERS],
}

impl Model for Owned {
    ghost use Rattle.std.specs.Prelude.{ℕ, List};

    ghost Value = { List (List ℕ) };

    ghost view = { λ o. o.sets };
}

impl Owned {
    // No task owns a mutex.
    pub(crate) fn none() -> Owned
        ensures { AreOwned result (λ _. None) }
    {
        Owned {
            sets: [LineSet::new(); NUMBERS],
        }
    }

    // Each task owns what another owns.
    pub(crate) fn copy_from(&mut self, other: &Owned)
        ensures { self.new ≡ other.now }
    {
        self.sets = other.sets;
    }

    // The mutexes of task t.
    pub(crate) fn of(&self, t: u8) -> LineSet
        ensures { slice_get self.now t ≡ Some result }
    {
        self.sets[t as usize]
    }

    // The set of task t has mutex m too.
    fn join(&mut self, t: u8, m: u8)
        requires { m < LINES }
        ensures { self.new ≡ change (λ set. with_line set m) self.old t }
    {
        self.sets[t as usize].insert(m);
    }

    // The set of task t lacks mutex m.
    fn part(&mut self, t: u8, m: u8)
        requires { m < LINES }
        ensures { self.new ≡ change (λ set. without_line set m) self.old t }
    {
        self.sets[t as usize].remove(m);
    }

    // Task t owns mutex m, which nobody owned.
    pub(crate) fn hold(&mut self, t: u8, m: u8)
        requires { m < LINES }
        ensures { (owner : ℕ → Option ℕ) → owner m ≡ None → AreOwned self.old owner → AreOwned self.new (given owner m (Some t)) }
    {
        self.join(t, m);
    }

    // Nobody owns mutex m, which this task owned, if any did.
    pub(crate) fn leave(&mut self, task: Option<u8>, m: u8)
        requires { m < LINES }
        ensures { (owner : ℕ → Option ℕ) → owner m ≡ task → AreOwned self.old owner → AreOwned self.new (given owner m None) }
    {
        if let Some(t) = task {
            self.part(t, m);
        }
    }
}
