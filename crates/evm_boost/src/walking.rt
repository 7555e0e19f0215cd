//! How the ranks that are kept follow a change: by walks along the links that it touches, and no others.

ghost use Rattle.std.specs.Prelude.{◌≡◌, ◌<◌, ◌≤◌, true, false, length, ℕ, Bool};
ghost use Rattle.evm_boost.specs.Lent.{first_waiting, lent_rank, lent_by, rank_of};
ghost use Rattle.evm_boost.specs.Scatter.{class_rank_at, AreRanks};
ghost use Rattle.evm_boost.specs.Scheduled.{AreEntered, IsScheduled};
ghost use Rattle.evm_boost.specs.Settling.{IsSettling};
ghost use Rattle.evm_model.specs.Lists.{change};
ghost use Rattle.evm_model.specs.Mutexes.{boosts, owner};
ghost use Rattle.evm_model.specs.declared.task.Wait.TheVariants.{Lock};
ghost use Rattle.evm_model.specs.Boosts.{greatest};
ghost use Rattle.evm_model.specs.Mending.{no_task, with_task};
ghost use Rattle.evm_ready.specs.ListedRanks.{listed_rank};

use crate::mutexes::Mutexes;
use crate::ranks::{class_rank_at, greater};
use crate::schedule::Schedule;
use evm_model::{Protocol, TASK_LIMIT, Wait};
use evm_ready::listed_rank;
use evm_task::Tasks;

impl Schedule {
    // The rank of the first task that waits for mutex m; 0 where none does.
    fn first_rank(&self, m: u8) -> u16
        ensures { result ≡ rank_of self.now.ranks (first_waiting self.now (Lock m)) }
    {
        match self.waiting.first(Wait::Lock(m)) {
            None => 0,
            Some(t) => self.waiting.rank(t),
        }
    }

    // The rank that a mutex lends to its owner: of its first waiter, or of its ceiling.
    fn lent_rank(&self, mutexes: &Mutexes, m: u8) -> u16
        ensures { result ≡ lent_rank self.now mutexes.now m }
    {
        let Some(mutex) = mutexes.get(m) else {
            return 0;
        };
        match mutex.protocol {
            Protocol::Inheritance => self.first_rank(m),
            Protocol::Ceiling(priority) => 100 + u16::from(priority),
        }
    }

    // The rank of a task, by its class and what its mutexes lend.
    fn rank_now(&self, mutexes: &Mutexes, tasks: &Tasks, t: u8) -> u16
        ensures { result ≡ greatest (owner mutexes.now) (lent_rank self.now mutexes.now) t (class_rank_at tasks.now t) (length mutexes.now) }
    {
        let mut rank = class_rank_at(tasks, t);
        let mut left = mutexes.owned(t);
        'lending: while let Some(m) = left.pop() {
            rank = greater(rank, self.lent_rank(mutexes, m));
        }
        rank
    }

    // Task t has another rank.
    fn set_rank(&mut self, t: u8, rank: u16)
        ensures places { self.new.places ≡ self.old.places }
        ensures waiters { self.new.waiters ≡ self.old.waiters }
        ensures ranks { self.new.ranks ≡ change (λ _. rank) self.old.ranks t }
        ensures sound { self.new.sound ≡ self.old.sound }
    {
        self.ready.set_rank(t, rank);
        self.waiting.set_rank(t, rank);
    }

    // Task t has its rank; where that is another, the task that it boosts is the next.
    fn mend_one(&mut self, mutexes: &Mutexes, tasks: &Tasks, t: u8) -> Option<u8>
        ensures settled { (rest : ℕ → Bool) → IsSettling (with_task (Some t) rest) self.old mutexes.now tasks.now → IsSettling (with_task result rest) self.new mutexes.now tasks.now }
        ensures next { (u : ℕ) → result ≡ Some u → boosts mutexes.now tasks.now t ≡ Some u }
        ensures sound { self.new.sound ≡ self.old.sound }
    {
        if t >= tasks.count() {
            return None;
        }
        let rank = self.rank_now(mutexes, tasks, t);
        if rank == self.ready.rank(t) {
            return None;
        }
        self.set_rank(t, rank);
        mutexes.boosts(tasks, t)
    }

    // A walk from a task on to those that it boosts, as far as ranks change.
    fn walk_from(&mut self, mutexes: &Mutexes, tasks: &Tasks, from: u8)
        ensures settled { (rest : ℕ → Bool) → IsSettling (with_task (Some from) rest) self.old mutexes.now tasks.now → IsSettling rest self.new mutexes.now tasks.now }
        ensures sound { self.new.sound ≡ self.old.sound }
    {
        let mut at = Some(from);
        for link in 0..TASK_LIMIT + 1 {
            let Some(t) = at else {
                return;
            };
            at = self.mend_one(mutexes, tasks, t);
        }
    }

    // A walk from a task, if there is one.
    #[inline(always)]
    fn settle(&mut self, mutexes: &Mutexes, tasks: &Tasks, from: Option<u8>)
        ensures settled { (rest : ℕ → Bool) → IsSettling (with_task from rest) self.old mutexes.now tasks.now → IsSettling rest self.new mutexes.now tasks.now }
        ensures sound { self.new.sound ≡ self.old.sound }
    {
        if let Some(t) = from {
            self.walk_from(mutexes, tasks, t);
        }
    }

    // All ranks are reckoned anew.
    fn reckon(&mut self, mutexes: &Mutexes, tasks: &Tasks)
        requires entered { AreEntered self.old tasks.now }
        requires unsound { self.old.sound ≡ false }
        ensures { IsScheduled self.new mutexes.now tasks.now }
    {
        let ranks = mutexes.ranks(tasks);
        for t in 0..tasks.count() {
            self.set_rank(t, listed_rank(&ranks, t));
        }
    }

    // Whether no chain of boosts is known to close from now on.
    pub(crate) fn trust(&mut self, sound: bool)
        ensures places { self.new.places ≡ self.old.places }
        ensures waiters { self.new.waiters ≡ self.old.waiters }
        ensures ranks { self.new.ranks ≡ self.old.ranks }
        ensures sound { self.new.sound ≡ sound }
    {
        self.sound = sound;
    }

    // The ranks follow a change after which those of two tasks at most may be others. Where a chain may have closed, all
    // are reckoned anew, now and after each later change.
    #[inline(always)]
    pub(crate) fn mend(
        &mut self,
        mutexes: &Mutexes,
        tasks: &Tasks,
        first: Option<u8>,
        second: Option<u8>,
    )
        requires { IsSettling (with_task first (with_task second no_task)) self.old mutexes.now tasks.now }
        ensures { IsScheduled self.new mutexes.now tasks.now }
    {
        if !self.sound {
            self.reckon(mutexes, tasks);
            return;
        }
        self.settle(mutexes, tasks, first);
        self.settle(mutexes, tasks, second);
    }
}
