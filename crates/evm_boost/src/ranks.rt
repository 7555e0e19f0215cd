//! The ranks of the tasks.

ghost use Rattle.std.specs.Prelude.{◌≡◌, ◌<◌, ◌≤◌, true, length, slice_set};
ghost use Rattle.evm_boost.specs.Scatter.{filled, raise_to, class_rank_at, own_ranks, next_ranks, AreRanks};
ghost use Rattle.evm_model.specs.Mutexes.{ceiling_owner, ceiling};
ghost use Rattle.evm_model.specs.Ranks.{class_rank};
ghost use Rattle.evm_model.specs.Boosts.{greater};
ghost use Rattle.evm_ready.specs.ListedRanks.{listed_rank};

use crate::mutexes::Mutexes;
use evm_model::{Class, Protocol, TASK_LIMIT};
use evm_ready::listed_rank;
use evm_task::Tasks;

pub(crate) fn class_rank(class: Class, priority: u8) -> u16
    ensures { result ≡ class_rank class priority }
{
    match class {
        Class::Unattached => 0,
        Class::Fifo | Class::RoundRobin => 100 + u16::from(priority),
        Class::Weak => u16::from(priority),
    }
}

// The rank of a task's class.
pub(crate) fn class_rank_at(tasks: &Tasks, t: u8) -> u16
    ensures { result ≡ class_rank_at tasks.now t }
{
    match tasks.as_slice().get(t as usize) {
        None => 0,
        Some(task) => class_rank(task.class, task.priority),
    }
}

pub(crate) fn greater(a: u16, b: u16) -> u16
    ensures { result ≡ greater a b }
{
    if a <= b { b } else { a }
}

// Task t has another rank.
fn rerank(ranks: &mut [u16], t: u8, rank: u16)
    ensures { ranks.new ≡ slice_set ranks.old t rank }
{
    let t = t as usize;
    if t < ranks.len() {
        ranks[t] = rank;
    }
}

// The rank of a task, if there is one, is at least this.
fn raise(ranks: &mut [u16], task: Option<u8>, least: u16)
    ensures { ranks.new ≡ raise_to task least ranks.old }
{
    if let Some(t) = task {
        if (t as usize) < ranks.len() {
            let rank = greater(ranks[t as usize], least);
            rerank(ranks, t, rank);
        }
    }
}

fn is_same(now: &[u16], next: &[u16]) -> bool
    ensures { (result ≡ true) → now.now ≡ next.now }
{
    now == next
}

// The ranks of the tasks' classes.
#[tactic(auto, using(crate::proofs::Fills::fills))]
fn class_ranks(tasks: &Tasks, ranks: &mut [u16])
    ensures ranks { ranks.new ≡ filled (class_rank_at tasks.now) ranks.old (length tasks.now) }
    ensures limit { length tasks.now ≤ TASK_LIMIT }
{
    for t in 0..tasks.count() {
        rerank(ranks, t, class_rank_at(tasks, t));
    }
}

impl Mutexes {
    // The task that mutex m raises to its ceiling: its owner.
    fn ceiling_owner(&self, m: u8) -> Option<u8>
        ensures { result ≡ ceiling_owner self.now m }
    {
        let Some(mutex) = self.get(m) else {
            return None;
        };
        match mutex.protocol {
            Protocol::Inheritance => None,
            Protocol::Ceiling(_) => mutex.owner,
        }
    }

    // The rank of mutex m's ceiling.
    fn ceiling(&self, m: u8) -> u16
        ensures { result ≡ ceiling self.now m }
    {
        let Some(mutex) = self.get(m) else {
            return 0;
        };
        match mutex.protocol {
            Protocol::Inheritance => 0,
            Protocol::Ceiling(priority) => 100 + u16::from(priority),
        }
    }

    // The own ranks of the tasks: those of their classes, and of the ceiling mutexes that they own.
    #[tactic(auto, using(crate::proofs::Fills::scatters), unfolding(crate::specs::Scatter::own_ranks))]
    fn own_ranks(&self, tasks: &Tasks, ranks: &mut [u16])
        ensures ranks { ranks.new ≡ own_ranks self.now tasks.now ranks.old }
        ensures limit { length tasks.now ≤ TASK_LIMIT }
    {
        class_ranks(tasks, ranks);
        for m in 0..self.count() {
            raise(ranks, self.ceiling_owner(m), self.ceiling(m));
        }
    }

    // One more round: each task raises the one that it boosts.
    #[tactic(auto, using(crate::proofs::Fills::scatters), unfolding(crate::specs::Scatter::next_ranks))]
    fn next_ranks(&self, tasks: &Tasks, now: &[u16], ranks: &mut [u16])
        ensures { ranks.new ≡ next_ranks self.now tasks.now ranks.old now.now }
    {
        for u in 0..tasks.count() {
            raise(ranks, self.boosts(tasks, u), listed_rank(now, u));
        }
    }

    /// The ranks of all tasks, by their numbers: the own ones, raised by those that each task keeps waiting. The
    /// rounds end early where one changes nothing, and there is none where there is no mutex.
    pub fn ranks(&self, tasks: &Tasks) -> [u16; TASK_LIMIT]
        ensures { AreRanks result self.now tasks.now }
    {
        let mut own = [0; TASK_LIMIT];
        self.own_ranks(tasks, &mut own);
        let mut now = own;
        let mut moves = self.count() > 0;
        let mut rounds = 0;
        while moves && rounds < TASK_LIMIT {
            let mut next = own;
            self.next_ranks(tasks, &now, &mut next);
            moves = !is_same(&now, &next);
            now = next;
            rounds += 1;
        }
        now
    }
}
