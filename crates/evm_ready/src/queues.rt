ghost use Rattle.std.specs.Prelude.{◌≡◌, ◌≤◌, ◌<◌, ◌*◌, [], true, length, replicate, vec_capacity, slice_get, option_and_then, MatchOption, IfOk, IfErr, IfSome, IfNone, ℕ, List};
ghost use Rattle.arrayvec.specs.ArrayVec.{array_vec_len};
ghost use Rattle.evm_model.specs.Lists.{change};
ghost use Rattle.evm_ready.specs.Queues.{AreEmpty, AreQueued, AreQueuedBut, restamped};

use crate::bitmap::{BITMAP_WORDS, clear_bit, first_bit, set_bit};
use crate::queue::Queue;
use crate::turn::Turn;
use arrayvec::ArrayVec;
use evm_model::TASK_LIMIT;
use evm_room::{Refused, with_room};
use std::alloc::Global;
use std::marker::Model;

// Queues by their numbers, under a bitmap of those that have a task.
#[derive(Debug, Drop)]
pub(crate) struct Queues {
    queues: Vec<Queue>,
    words: [u64; BITMAP_WORDS],
}

impl Model for Queues {
    ghost use Rattle.std.specs.Prelude.{ℕ, List};
    ghost use Rattle.evm_ready.specs.Queues.{IsBitmap};

    ghost Value = { List (List ℕ) };

    ghost view = { λ q. q.queues.items };

    ghost invariant = { λ q. IsBitmap q.words q.queues.items };
}

impl Queues {
    // Empty queues, 64 for each word.
    pub(crate) fn new(alloc: Global, words: u8) -> Result<Queues, Refused>
        requires { words ≤ BITMAP_WORDS }
        ensures empty { IfOk result (λ queues. queues ≡ replicate (words * 64) []) }
        ensures refused { IfErr result (λ asked. asked ≡ words * 64) }
    {
        let queues = empty_queues(alloc, words as usize * 64)?;
        Ok(Queues {
            queues,
            words: [0; BITMAP_WORDS],
        })
    }

    // How many queues there are.
    pub(crate) fn len(&self) -> usize
        ensures { result ≡ length self.now }
    {
        self.queues.len()
    }

    // All tasks go.
    #[tactic(auto, using(crate::proofs::Cleared::bitmap_clear))]
    pub(crate) fn clear(&mut self)
        ensures empty { AreEmpty self.new 0 (length self.new) }
        ensures count { length self.new ≡ length self.old }
    {
        clear_all(&mut self.queues);
        self.words = [0; BITMAP_WORDS];
    }

    // Task t comes to the queue of its turn.
    #[inline(always)]
    pub(crate) fn join(&mut self, turns: &[Turn], t: u8)
        requires queued { AreQueuedBut t turns.now self.old }
        requires limit { length turns.now ≤ TASK_LIMIT }
        ensures queued { AreQueued turns.now self.new }
        ensures count { length self.new ≡ length self.old }
    {
        let Some(q) = queue_of(turns, t) else {
            return;
        };
        if let Some(queue) = self.queues.get_mut(q) {
            queue.insert(turns, t);
            set_bit(&mut self.words, q);
        }
    }

    // As `join`, for callers on whose path it is rare.
    #[inline(never)]
    pub(crate) fn join_apart(&mut self, turns: &[Turn], t: u8)
        requires queued { AreQueuedBut t turns.now self.old }
        requires limit { length turns.now ≤ TASK_LIMIT }
        ensures queued { AreQueued turns.now self.new }
        ensures count { length self.new ≡ length self.old }
    {
        self.join(turns, t);
    }

    // Task t goes from the queue of its turn.
    pub(crate) fn leave(&mut self, turns: &[Turn], t: u8)
        requires { AreQueued turns.now self.old }
        ensures queued { AreQueuedBut t turns.now self.new }
        ensures count { length self.new ≡ length self.old }
    {
        let Some(q) = queue_of(turns, t) else {
            return;
        };
        if let Some(queue) = self.queues.get_mut(q) {
            queue.remove(turns, t);
            if queue.head().is_none() {
                clear_bit(&mut self.words, q);
            }
        }
    }

    // Task t has another stamp, and comes to its place in the queue of its turn, which stays.
    #[inline(always)]
    pub(crate) fn restamp(&mut self, turns: &mut ArrayVec<Turn, TASK_LIMIT>, t: u8, stamp: u64)
        requires { AreQueued turns.old.items self.old }
        ensures turns { turns.new.items ≡ change (restamped stamp) turns.old.items t }
        ensures queued { AreQueued turns.new.items self.new }
        ensures count { length self.new ≡ length self.old }
    {
        let Some(q) = queue_of(turns.as_slice(), t) else {
            set_stamp(turns, t, stamp);
            return;
        };
        let Some(queue) = self.queues.get_mut(q) else {
            set_stamp(turns, t, stamp);
            return;
        };
        queue.remove(turns.as_slice(), t);
        set_stamp(turns, t, stamp);
        queue.insert(turns.as_slice(), t);
    }

    // The task at the head of queue q.
    pub(crate) fn head(&self, q: usize) -> Option<u8>
        ensures { result ≡ option_and_then (λ queue. slice_get queue 0) (slice_get self.now q) }
    {
        match self.queues.get(q) {
            None => None,
            Some(queue) => queue.head(),
        }
    }

    // The first queue that has a task, of those of word `from` up to those of word `to`.
    pub(crate) fn first_used(&self, from: u8, to: u8) -> Option<u16>
        requires { to * 64 ≤ length self.now }
        ensures above { IfSome result (λ q. from * 64 ≤ q) }
        ensures below { IfSome result (λ q. q < to * 64) }
        ensures least { IfSome result (λ q. AreEmpty self.now (from * 64) q) }
        ensures used { IfSome result (λ q. (slice_get self.now q ≡ Some []) → ⊥) }
        ensures none { IfNone result (AreEmpty self.now (from * 64) (to * 64)) }
    {
        first_bit(&self.words, from, to)
    }
}

// Task t has another stamp.
fn set_stamp(turns: &mut ArrayVec<Turn, TASK_LIMIT>, t: u8, stamp: u64)
    ensures { turns.new.items ≡ change (restamped stamp) turns.old.items t }
{
    if let Some(turn) = turns.get_mut(t as usize) {
        turn.stamp = stamp;
    }
}

// The queue of the turn of task t.
fn queue_of(turns: &[Turn], t: u8) -> Option<usize>
    ensures { result ≡ option_and_then (λ turn. turn.queue) (slice_get turns.now t) }
{
    match turns.get(t as usize) {
        Some(Turn { queue: Some(q), .. }) => Some(*q as usize),
        _ => None,
    }
}

// All tasks go.
fn clear_all(queues: &mut Vec<Queue>)
    ensures empty { AreEmpty queues.new.items 0 (length queues.new.items) }
    ensures count { length queues.new.items ≡ length queues.old.items }
{
    for queue in queues.iter_mut() {
        queue.clear();
    }
}

fn empty_queues(alloc: Global, count: usize) -> Result<Vec<Queue>, Refused>
    ensures empty { IfOk result (λ queues. queues.items ≡ replicate count []) }
    ensures refused { IfErr result (λ asked. asked ≡ count) }
{
    let mut queues = with_room(alloc, count)?;
    for _ in 0..count {
        queues.push_reserved(Queue::new());
    }
    Ok(queues)
}
