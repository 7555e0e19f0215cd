ghost use Rattle.std.specs.Prelude.{◌≡◌, ◌<◌, ◌≤◌, ◌+◌, ◌==◌, ◌&&◌, ◌∷◌, ◌++◌, ℕ, [], true, false, not, length, drop, remove, slice_get, slice_set, IfSome, IfNone};
ghost use Rattle.evm_ready.specs.Queues.{has, precedes, IsInOrder};

use crate::turn::{Turn, precedes};
use evm_model::TASK_LIMIT;
use std::marker::Model;

// Numbers of tasks, in the order in which they go. They lie in the array from `start` on, and go on at its beginning
// where they reach its end, so that neither a task that goes from the head nor one that comes to the end moves another.
#[derive(Debug, Drop)]
pub(crate) struct Queue {
    tasks: [u8; TASK_LIMIT],
    start: u8,
    len: u8,
}

impl Model for Queue {
    ghost use Rattle.std.specs.Prelude.{ℕ, List, ◌<◌, ◌≤◌};
    ghost use Rattle.evm_model.specs.declared.limits.TheConstants.{TASK_LIMIT};
    ghost use Rattle.evm_ready.specs.Ring.{ring};

    ghost Value = { List ℕ };

    ghost view = { λ queue. ring queue.tasks queue.start queue.len };

    ghost invariant = { λ queue. (queue.start < TASK_LIMIT) × (queue.len ≤ TASK_LIMIT) };
}

impl Queue {
    // No task.
    pub(crate) fn new() -> Queue
        ensures { result ≡ [] }
    {
        Queue {
            tasks: [0; TASK_LIMIT],
            start: 0,
            len: 0,
        }
    }

    // All tasks go.
    #[inline]
    pub(crate) fn clear(&mut self)
        ensures { self.new ≡ [] }
    {
        self.len = 0;
    }

    // The task that goes first.
    #[inline]
    pub(crate) fn head(&self) -> Option<u8>
        ensures { result ≡ slice_get self.now 0 }
    {
        if self.len() == 0 {
            None
        } else {
            Some(self.get(0))
        }
    }

    // Task t comes to its place.
    #[inline(always)]
    pub(crate) fn insert(&mut self, turns: &[Turn], t: u8)
        requires room { length self.old < TASK_LIMIT }
        requires order { IsInOrder turns.now self.old }
        requires new { has self.old t ≡ false }
        ensures order { IsInOrder turns.now self.new }
        ensures members { (u : ℕ) → has self.new u ≡ has (t ∷ self.old) u }
    {
        if self.is_behind(turns, t) {
            self.push(t);
        } else if self.leads(turns, t) {
            self.push_head(t);
        } else {
            self.insert_between(turns, t);
        }
    }

    // Task t goes, if it is there.
    #[inline]
    pub(crate) fn remove(&mut self, turns: &[Turn], t: u8)
        requires { IsInOrder turns.now self.old }
        ensures order { IsInOrder turns.now self.new }
        ensures members { (u : ℕ) → has self.new u ≡ (not (t == u) && has self.old u) }
    {
        if self.is_head(t) {
            self.drop_head();
        } else {
            self.remove_between(turns, t);
        }
    }

    // Whether the place of task t is behind all that are there.
    #[inline]
    fn is_behind(&self, turns: &[Turn], t: u8) -> bool
        ensures { result ≡ true → (i u : ℕ) → i + 1 ≡ length self.now → slice_get self.now i ≡ Some u → precedes turns.now t u ≡ false }
    {
        let len = self.len();
        len == 0 || !precedes(turns, t, self.get(len - 1))
    }

    // Whether task t precedes the first that is there, as a preempted task does.
    #[inline]
    fn leads(&self, turns: &[Turn], t: u8) -> bool
        ensures { result ≡ true → (u : ℕ) → slice_get self.now 0 ≡ Some u → precedes turns.now t u ≡ true }
    {
        self.len() > 0 && precedes(turns, t, self.get(0))
    }

    // Whether task t goes first.
    #[inline]
    fn is_head(&self, t: u8) -> bool
        ensures { result ≡ true → slice_get self.now 0 ≡ Some t }
    {
        self.len() > 0 && self.get(0) == t
    }

    // Task t comes to its place, and those that it precedes move.
    // What is seldom done stands apart, so that the rest has the registers.
    #[inline(never)]
    fn insert_between(&mut self, turns: &[Turn], t: u8)
        requires room { length self.old < TASK_LIMIT }
        requires order { IsInOrder turns.now self.old }
        requires new { has self.old t ≡ false }
        ensures order { IsInOrder turns.now self.new }
        ensures members { (u : ℕ) → has self.new u ≡ has (t ∷ self.old) u }
    {
        let mut place = self.len();
        self.push(t);
        while place > 0 && precedes(turns, t, self.get(place - 1)) {
            let behind = self.get(place - 1);
            self.put(place, behind);
            place -= 1;
        }
        self.put(place, t);
    }

    // Task t goes, if it is there, and others move.
    #[inline(never)]
    fn remove_between(&mut self, turns: &[Turn], t: u8)
        requires { IsInOrder turns.now self.old }
        ensures order { IsInOrder turns.now self.new }
        ensures members { (u : ℕ) → has self.new u ≡ (not (t == u) && has self.old u) }
    {
        if let Some(place) = self.position(t) {
            self.remove_at(place);
        }
    }

    // Where task t is.
    fn position(&self, t: u8) -> Option<usize>
        ensures found { IfSome result (λ i. slice_get self.now i ≡ Some t) }
        ensures none { IfNone result (has self.now t ≡ false) }
    {
        for i in 0..self.len() {
            if self.get(i) == t {
                return Some(i);
            }
        }
        None
    }

    // Those before `place` move up over it, and then the head goes: as many move as were passed in the search.
    fn remove_at(&mut self, place: usize)
        requires { place < length self.old }
        ensures { self.new ≡ remove self.old place }
    {
        let mut i = place;
        while i > 0 {
            let before = self.get(i - 1);
            self.put(i, before);
            i -= 1;
        }
        self.drop_head();
    }

    #[inline]
    fn len(&self) -> usize
        ensures length { result ≡ length self.now }
        ensures limit { result ≤ TASK_LIMIT }
    {
        self.len as usize
    }

    // The task at place i of the queue.
    #[inline]
    fn get(&self, i: usize) -> u8
        requires { i < length self.now }
        ensures { slice_get self.now i ≡ Some result }
    {
        self.tasks[(self.start as usize + i) % TASK_LIMIT]
    }

    // Task t takes place i.
    #[inline]
    fn put(&mut self, i: usize, t: u8)
        requires { i < length self.old }
        ensures { self.new ≡ slice_set self.old i t }
    {
        self.tasks[(self.start as usize + i) % TASK_LIMIT] = t;
    }

    // Task t comes to the end.
    #[inline]
    fn push(&mut self, t: u8)
        requires { length self.old < TASK_LIMIT }
        ensures { self.new ≡ self.old ++ t ∷ [] }
    {
        self.tasks[(self.start as usize + self.len as usize) % TASK_LIMIT] = t;
        self.len += 1;
    }

    // Task t comes to the head.
    #[inline]
    fn push_head(&mut self, t: u8)
        requires { length self.old < TASK_LIMIT }
        ensures { self.new ≡ t ∷ self.old }
    {
        let start = (self.start as usize + (TASK_LIMIT - 1)) % TASK_LIMIT;
        self.tasks[start] = t;
        self.start = start as u8;
        self.len += 1;
    }

    // The first goes.
    #[inline]
    fn drop_head(&mut self)
        requires { 0 < length self.old }
        ensures { self.new ≡ drop 1 self.old }
    {
        self.start = (self.start + 1) % TASK_LIMIT as u8;
        self.len -= 1;
    }
}
