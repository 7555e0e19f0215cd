ghost use Rattle.std.specs.Prelude.{◌≡◌, ◌<◌, ◌≤◌, ◌++◌, ◌∷◌, [], true, Option, length, option_map, IfOk, IfErr, IfSome};
ghost use Rattle.arrayvec.specs.ArrayVec.{array_vec_len};
ghost use Rattle.evm_model.specs.Lists.{change};
ghost use Rattle.evm_model.specs.Ranks.{first, leader};
ghost use Rattle.evm_ready.specs.Places.{entry};
ghost use Rattle.evm_ready.specs.ListedRanks.{listed_rank};
ghost use Rattle.evm_wait.specs.Waiters.{stamped_waiter, waiter_stamp, waits_for};
ghost use Rattle.evm_wait.specs.WaitTurns.{IsQueueFor};

use crate::WAIT_QUEUE_LIMIT;
use crate::waiter::{Waiter, turn_of, wait_queue, waits_for};
use arrayvec::ArrayVec;
use evm_model::{TASK_LIMIT, Wait};
use evm_ready::{Turns, is_before, listed_rank};
use evm_room::{Refused, copy_list};
use std::alloc::Global;
use std::marker::Model;

/// What each task waits for, and its rank, by its number, with room for all from the start.
#[derive(Debug, Drop)]
pub struct Waiting {
    waiters: ArrayVec<Option<Waiter>, TASK_LIMIT>,
    ranks: ArrayVec<u16, TASK_LIMIT>,
    turns: Turns,
}

impl Model for Waiting {
    ghost use Rattle.evm_wait.specs.Waiters.{WaitingTasks};
    ghost use Rattle.evm_wait.specs.WaitTurns.{AreWaiting};

    ghost Value = { WaitingTasks };

    ghost invariant = { λ w. AreWaiting w.waiters.items w.ranks.items w.turns };

    ghost view = { λ w. record {
      waiters = w.waiters.items;
      ranks = w.ranks.items;
    } };
}

impl Waiting {
    /// No task. The room for the queues is taken at once.
    ///
    /// # Errors
    ///
    /// Where an allocation of their room failed.
    pub fn new(alloc: Global) -> Result<Waiting, Refused>
        ensures waiters { IfOk result (λ waiting. waiting.waiters ≡ []) }
        ensures ranks { IfOk result (λ waiting. waiting.ranks ≡ []) }
        ensures refused { IfErr result (λ asked. asked ≤ WAIT_QUEUE_LIMIT) }
    {
        let turns = Turns::new(alloc, 4)?;
        Ok(Waiting {
            waiters: ArrayVec::new(),
            ranks: ArrayVec::new(),
            turns,
        })
    }

    /// How many tasks there are, whether they wait or not; 64 at the most.
    pub fn len(&self) -> u8
        ensures count { result ≡ length self.now.waiters }
        ensures ranked { result ≡ length self.now.ranks }
        ensures limit { result ≤ TASK_LIMIT }
    {
        self.waiters.len() as u8
    }

    /// One task more, the last, of this rank: it waits for this, or doesn't wait.
    pub fn push(&mut self, waiter: Option<Waiter>, rank: u16)
        requires { length self.old.waiters < TASK_LIMIT }
        ensures waiters { self.new.waiters ≡ self.old.waiters ++ waiter ∷ [] }
        ensures ranks { self.new.ranks ≡ self.old.ranks ++ rank ∷ [] }
    {
        self.waiters.push(waiter);
        self.ranks.push(rank);
        self.turns.push(turn_of(waiter, rank));
    }

    /// The tasks wait for what others wait for. Takes no memory.
    pub fn copy_from(&mut self, other: &Waiting)
        ensures { self.new ≡ other.now }
    {
        copy_list(&mut self.waiters, &other.waiters);
        copy_list(&mut self.ranks, &other.ranks);
        self.turns.copy_from(&other.turns);
    }

    /// Task t waits for this, or doesn't wait.
    #[inline(always)]
    pub fn set(&mut self, t: u8, waiter: Option<Waiter>)
        ensures waiters { self.new.waiters ≡ change (λ _. waiter) self.old.waiters t }
        ensures ranks { self.new.ranks ≡ self.old.ranks }
    {
        if self.get(t).is_some() || waiter.is_some() {
            self.replace(t, waiter);
        }
    }

    // The same, where something may change.
    #[inline(always)]
    fn replace(&mut self, t: u8, waiter: Option<Waiter>)
        ensures waiters { self.new.waiters ≡ change (λ _. waiter) self.old.waiters t }
        ensures ranks { self.new.ranks ≡ self.old.ranks }
    {
        let rank = self.rank(t);
        if let Some(entry) = self.waiters.get_mut(t as usize) {
            *entry = waiter;
            self.turns.set(t, turn_of(waiter, rank));
        }
    }

    /// Whether task t waits for nothing.
    #[inline(always)]
    pub fn is_free(&self, t: u8) -> bool
        ensures { result ≡ true → entry self.now.waiters t ≡ Option.None }
    {
        self.get(t).is_none()
    }

    /// Task t, which waits for nothing, waits for this.
    #[inline(always)]
    pub fn enter(&mut self, t: u8, waiter: Waiter)
        requires { entry self.old.waiters t ≡ Option.None }
        ensures waiters { self.new.waiters ≡ change (λ _. Option.Some waiter) self.old.waiters t }
        ensures ranks { self.new.ranks ≡ self.old.ranks }
    {
        let rank = self.rank(t);
        if let Some(entry) = self.waiters.get_mut(t as usize) {
            *entry = Some(waiter);
            self.turns.enter(t, turn_of(Some(waiter), rank));
        }
    }

    /// Task t waits since this stamp, if it waits.
    #[inline(always)]
    pub fn restamp(&mut self, t: u8, stamp: u64)
        ensures waiters { self.new.waiters ≡ change (option_map (stamped_waiter stamp)) self.old.waiters t }
        ensures ranks { self.new.ranks ≡ self.old.ranks }
    {
        let Some(waiter) = self.get(t) else {
            return;
        };
        if let Some(entry) = self.waiters.get_mut(t as usize) {
            *entry = Some(Waiter { stamp, ..waiter });
            self.turns.restamp(t, stamp);
        }
    }

    /// Task t has this rank.
    pub fn set_rank(&mut self, t: u8, rank: u16)
        ensures waiters { self.new.waiters ≡ self.old.waiters }
        ensures ranks { self.new.ranks ≡ change (λ _. rank) self.old.ranks t }
    {
        let waiter = self.get(t);
        if let Some(entry) = self.ranks.get_mut(t as usize) {
            *entry = rank;
            self.turns.set(t, turn_of(waiter, rank));
        }
    }

    /// The rank of task t; 0 if there is no such task.
    pub fn rank(&self, t: u8) -> u16
        ensures { result ≡ listed_rank self.now.ranks t }
    {
        listed_rank(self.ranks.as_slice(), t)
    }

    fn get(&self, t: u8) -> Option<Waiter>
        ensures { result ≡ entry self.now.waiters t }
    {
        match self.waiters.as_slice().get(t as usize) {
            None => None,
            Some(waiter) => *waiter,
        }
    }

    fn stamp(&self, t: u8) -> u64
        ensures { result ≡ waiter_stamp (entry self.now.waiters t) }
    {
        match self.get(t) {
            None => 0,
            Some(waiter) => waiter.stamp,
        }
    }

    // Of the one that leads so far and another, the one that goes first.
    fn leader_of(&self, leading: Option<u8>, t: u8) -> u8
        ensures { result ≡ leader (listed_rank self.now.ranks) (λ u. waiter_stamp (entry self.now.waiters u)) leading t }
    {
        let Some(u) = leading else {
            return t;
        };
        let before = is_before(self.rank(t), self.stamp(t), self.rank(u), self.stamp(u));
        if before { t } else { u }
    }

    /// Whether task t waits for this.
    pub fn awaits(&self, wait: Wait, t: u8) -> bool
        ensures { result ≡ waits_for wait (entry self.now.waiters t) }
    {
        waits_for(self.get(t), wait)
    }

    /// The number of the task that goes first of those that wait for this: the one of greatest rank, then of least
    /// stamp.
    // Callers name the kind of wait, so that its queue is known.
    #[inline(always)]
    pub fn first(&self, wait: Wait) -> Option<u8>
        ensures { result ≡ first (λ t. waits_for wait (entry self.now.waiters t)) (listed_rank self.now.ranks) (λ t. waiter_stamp (entry self.now.waiters t)) (length self.now.waiters) }
    {
        match asked_queue(wait) {
            Some(q) => self.turns.head(q),
            None => self.first_of_all(wait),
        }
    }

    // The same by a look at each task, for what has no queue.
    #[inline(never)]
    #[tactic(auto, using(evm_ready::proofs::Scans::scans))]
    fn first_of_all(&self, wait: Wait) -> Option<u8>
        ensures { result ≡ first (λ t. waits_for wait (entry self.now.waiters t)) (listed_rank self.now.ranks) (λ t. waiter_stamp (entry self.now.waiters t)) (length self.now.waiters) }
    {
        let mut leading = None;
        for t in 0..self.len() {
            if self.awaits(wait, t) {
                leading = Some(self.leader_of(leading, t));
            }
        }
        leading
    }
}

// The queue that has all tasks that wait for this and no others, if there is one.
fn asked_queue(wait: Wait) -> Option<u16>
    ensures { IfSome result (λ q. IsQueueFor wait q) }
{
    if let Wait::Reacquire { .. } = wait {
        return None;
    }
    match wait_queue(wait) {
        Some(q) if q < WAIT_QUEUE_LIMIT as u16 => Some(q),
        _ => None,
    }
}
