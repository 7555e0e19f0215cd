ghost use Rattle.std.specs.Prelude.{◌≡◌, ◌≢◌, ◌≤◌, ◌<◌, ◌+◌, ◌*◌, ◌++◌, ◌∷◌, ℕ, [], true, length, option_and_then, slice_get, Option, IfOk, IfErr, IfSome, IfNone};
ghost use Rattle.arrayvec.specs.ArrayVec.{array_vec_len};
ghost use Rattle.evm_model.specs.Lists.{change};
ghost use Rattle.evm_model.specs.Ranks.{first};
ghost use Rattle.evm_ready.specs.declared.bitmap.TheConstants.{BITMAP_WORDS};
ghost use Rattle.evm_ready.specs.Queues.{is_in, restamped, turn_rank, turn_stamp, NoneIn};

use crate::queues::Queues;
use crate::turn::Turn;
use arrayvec::ArrayVec;
use evm_model::TASK_LIMIT;
use evm_room::Refused;
use std::alloc::Global;
use std::marker::Model;

/// The turn of each task, by its number, and the queues in which the tasks are. The room for them is there from the
/// start.
#[derive(Debug, Drop)]
pub struct Turns {
    turns: ArrayVec<Turn, TASK_LIMIT>,
    queues: Queues,
}

impl Model for Turns {
    ghost use Rattle.std.specs.Prelude.{length};
    ghost use Rattle.evm_ready.specs.Queues.{AreQueued, Queued};

    ghost Value = { Queued };

    ghost invariant = { λ t. AreQueued t.turns.items t.queues };

    ghost view = { λ t. record {
      turns = t.turns.items;
      count = length t.queues;
    } };
}

impl Turns {
    /// No task, and 64 queues for each word of their bitmap.
    ///
    /// # Errors
    ///
    /// Where the allocation of their room failed.
    pub fn new(alloc: Global, words: u8) -> Result<Turns, Refused>
        requires { words ≤ BITMAP_WORDS }
        ensures turns { IfOk result (λ made. made.turns ≡ []) }
        ensures count { IfOk result (λ made. made.count ≡ words * 64) }
        ensures refused { IfErr result (λ asked. asked ≡ words * 64) }
    {
        let queues = Queues::new(alloc, words)?;
        Ok(Turns {
            turns: ArrayVec::new(),
            queues,
        })
    }

    /// One task more, the last.
    pub fn push(&mut self, turn: Turn)
        requires { length self.old.turns < TASK_LIMIT }
        ensures turns { self.new.turns ≡ self.old.turns ++ turn ∷ [] }
        ensures count { self.new.count ≡ self.old.count }
    {
        let t = self.turns.len() as u8;
        self.turns.push(turn);
        self.queues.join_apart(self.turns.as_slice(), t);
    }

    // No task.
    #[tactic(auto, using(crate::proofs::Cleared::none_queued))]
    fn clear(&mut self)
        ensures turns { self.new.turns ≡ [] }
        ensures count { self.new.count ≡ self.old.count }
    {
        self.queues.clear();
        self.turns.clear();
    }

    // As many tasks as there are turns have these.
    fn fill(&mut self, turns: &[Turn])
        requires { length turns.now ≤ TASK_LIMIT }
        ensures turns { self.new.turns ≡ turns.now }
        ensures count { self.new.count ≡ self.old.count }
    {
        self.clear();
        for turn in turns {
            self.push(*turn);
        }
    }

    // Whether the turn of task t is this one.
    fn has_turn(&self, t: u8, turn: &Turn) -> bool
        ensures { result ≡ true → slice_get self.now.turns t ≡ Option.Some turn.now }
    {
        match self.turns.as_slice().get(t as usize) {
            None => false,
            Some(own) => own == turn,
        }
    }

    // Task t has its turn of these.
    fn follow(&mut self, turns: &[Turn], t: u8)
        requires { length self.old.turns ≡ length turns.now }
        ensures this { slice_get self.new.turns t ≡ slice_get turns.now t }
        ensures others { (u : ℕ) → u ≢ t → slice_get self.new.turns u ≡ slice_get self.old.turns u }
        ensures tasks { length self.new.turns ≡ length self.old.turns }
        ensures count { self.new.count ≡ self.old.count }
    {
        let Some(turn) = turns.get(t as usize) else {
            return;
        };
        if !self.has_turn(t, turn) {
            self.set(t, *turn);
        }
    }

    /// The tasks have the turns of others. There are as many queues as before. Takes no memory.
    // Of as many tasks as there were, only those move whose turns differ.
    pub fn copy_from(&mut self, other: &Turns)
        ensures turns { self.new.turns ≡ other.now.turns }
        ensures count { self.new.count ≡ self.old.count }
    {
        let turns = other.turns.as_slice();
        if self.turns.len() != turns.len() {
            self.fill(turns);
            return;
        }
        for t in 0..turns.len() as u8 {
            self.follow(turns, t);
        }
    }

    /// Task t has this turn.
    // A turn that is passed by its address is stored in parts and read as a whole.
    #[inline(always)]
    pub fn set(&mut self, t: u8, turn: Turn)
        ensures turns { self.new.turns ≡ change (λ _. turn) self.old.turns t }
        ensures count { self.new.count ≡ self.old.count }
    {
        self.queues.leave(self.turns.as_slice(), t);
        set_turn(&mut self.turns, t, turn);
        if turn.queue.is_some() {
            self.queues.join_apart(self.turns.as_slice(), t);
        }
    }

    /// Task t, which is in no queue, has this turn.
    #[inline(always)]
    pub fn enter(&mut self, t: u8, turn: Turn)
        requires { option_and_then (λ turn. turn.queue) (slice_get self.old.turns t) ≡ Option.None }
        ensures turns { self.new.turns ≡ change (λ _. turn) self.old.turns t }
        ensures count { self.new.count ≡ self.old.count }
    {
        set_turn(&mut self.turns, t, turn);
        self.queues.join(self.turns.as_slice(), t);
    }

    /// Task t has another stamp; its queue and its rank stay.
    #[inline(always)]
    pub fn restamp(&mut self, t: u8, stamp: u64)
        ensures turns { self.new.turns ≡ change (restamped stamp) self.old.turns t }
        ensures count { self.new.count ≡ self.old.count }
    {
        self.queues.restamp(&mut self.turns, t, stamp);
    }

    /// The task that goes first of those whose turn is in queue q: the one of greatest rank, then of least stamp.
    pub fn head(&self, q: u16) -> Option<u8>
        requires { q < self.now.count }
        ensures { result ≡ first (is_in self.now.turns q) (turn_rank self.now.turns) (turn_stamp self.now.turns) (length self.now.turns) }
    {
        self.queues.head(q as usize)
    }

    /// The first queue with a task in it, of those of word `from` up to those of word `to`.
    pub fn first_used(&self, from: u8, to: u8) -> Option<u16>
        requires { to * 64 ≤ self.now.count }
        ensures above { IfSome result (λ q. from * 64 ≤ q) }
        ensures below { IfSome result (λ q. q < to * 64) }
        ensures least { IfSome result (λ q. NoneIn self.now.turns (from * 64) q) }
        ensures used { IfSome result (λ q. (t : ℕ) × (is_in self.now.turns q t ≡ true)) }
        ensures none { IfNone result (NoneIn self.now.turns (from * 64) (to * 64)) }
    {
        self.queues.first_used(from, to)
    }
}

fn set_turn(turns: &mut ArrayVec<Turn, TASK_LIMIT>, t: u8, turn: Turn)
    ensures { turns.new.items ≡ change (λ _. turn) turns.old.items t }
{
    if let Some(entry) = turns.get_mut(t as usize) {
        *entry = turn;
    }
}
