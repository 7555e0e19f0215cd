ghost use Rattle.std.specs.Prelude.{◌≡◌, ◌<◌, ◌≤◌, ◌+◌, ◌*◌, ◌++◌, ◌∷◌, ℕ, List, Option, [], true, length, option_map, IfOk, IfErr};
ghost use Rattle.arrayvec.specs.ArrayVec.{array_vec_len};
ghost use Rattle.evm_model.specs.Lists.{change};
ghost use Rattle.evm_model.specs.Ranks.{first, leader};
ghost use Rattle.evm_ready.specs.Places.{any_oob, entry, runs_oob, runs_in_band, place_stamp, stamped_place};
ghost use Rattle.evm_ready.specs.ListedRanks.{listed_rank};
ghost use Rattle.evm_ready.specs.ReadyTurns.{ready_turns};
ghost use Rattle.evm_ready.specs.declared.place.Place.{Place};

use crate::READY_QUEUE_LIMIT;
use crate::order::{is_before, listed_rank};
use crate::place::{IN_BAND_LEVEL, LEVELS, Place, oob_bit, runs_in_band, runs_oob, turn_of};
use crate::turns::Turns;
use arrayvec::ArrayVec;
use evm_model::{PROCESSOR_LIMIT, TASK_LIMIT};
use evm_room::{Refused, copy_list};
use std::alloc::Global;
use std::marker::Model;

/// Where each task is ready, and its rank, by its number, with room for all from the start.
#[derive(Debug, Drop)]
pub struct Ready {
    places: ArrayVec<Option<Place>, TASK_LIMIT>,
    ranks: ArrayVec<u16, TASK_LIMIT>,
    // how many are ready out-of-band
    oob: u8,
    turns: Turns,
    // how many processors have queues
    processors: u8,
}

impl Model for Ready {
    ghost use Rattle.evm_ready.specs.Places.{ReadyTasks};
    ghost use Rattle.evm_ready.specs.ReadyTurns.{AreReady};

    ghost Value = { ReadyTasks };

    ghost invariant = { λ r. AreReady r.oob r.places.items r.ranks.items r.turns r.processors };

    ghost view = { λ r. record {
      places = r.places.items;
      ranks = r.ranks.items;
    } };
}

impl Ready {
    /// No task. The room for the queues of this many processors is taken at once; 8 at the most have queues.
    ///
    /// # Errors
    ///
    /// Where an allocation of their room failed.
    pub fn new(alloc: Global, processors: u8) -> Result<Ready, Refused>
        ensures places { IfOk result (λ ready. ready.places ≡ []) }
        ensures ranks { IfOk result (λ ready. ready.ranks ≡ []) }
        ensures refused { IfErr result (λ asked. asked ≤ READY_QUEUE_LIMIT) }
    {
        let processors = processors.min(PROCESSOR_LIMIT as u8);
        let turns = Turns::new(alloc, processors * 4)?;
        Ok(Ready {
            places: ArrayVec::new(),
            ranks: ArrayVec::new(),
            oob: 0,
            turns,
            processors,
        })
    }

    /// How many tasks there are, ready or not; 64 at the most.
    pub fn len(&self) -> u8
        ensures count { result ≡ length self.now.places }
        ensures ranked { result ≡ length self.now.ranks }
        ensures limit { result ≤ TASK_LIMIT }
    {
        self.places.len() as u8
    }

    /// One task more, the last, of this rank: it is ready there, or isn't ready.
    #[tactic(auto, using(crate::proofs::Counts::counts))]
    pub fn push(&mut self, place: Option<Place>, rank: u16)
        requires { length self.old.places < TASK_LIMIT }
        ensures places { self.new.places ≡ self.old.places ++ place ∷ [] }
        ensures ranks { self.new.ranks ≡ self.old.ranks ++ rank ∷ [] }
    {
        self.oob += oob_bit(place);
        self.places.push(place);
        self.ranks.push(rank);
        self.turns.push(turn_of(place, rank));
    }

    /// The tasks are where others are. As many processors have queues as before. Takes no memory.
    pub fn copy_from(&mut self, other: &Ready)
        ensures { self.new ≡ other.now }
    {
        copy_list(&mut self.places, &other.places);
        copy_list(&mut self.ranks, &other.ranks);
        self.oob = other.oob;
        self.turns.copy_from(&other.turns);
    }

    fn get(&self, t: u8) -> Option<Place>
        ensures { result ≡ entry self.now.places t }
    {
        match self.places.as_slice().get(t as usize) {
            None => None,
            Some(place) => *place,
        }
    }

    /// Task t is ready there, or isn't ready.
    #[inline(always)]
    pub fn set(&mut self, t: u8, place: Option<Place>)
        ensures places { self.new.places ≡ change (λ _. place) self.old.places t }
        ensures ranks { self.new.ranks ≡ self.old.ranks }
    {
        if self.get(t).is_some() || place.is_some() {
            self.replace(t, place);
        }
    }

    // The same, where something may change.
    #[inline(always)]
    fn replace(&mut self, t: u8, place: Option<Place>)
        ensures places { self.new.places ≡ change (λ _. place) self.old.places t }
        ensures ranks { self.new.ranks ≡ self.old.ranks }
    {
        let rank = self.rank(t);
        if let Some(entry) = self.places.get_mut(t as usize) {
            self.oob = self.oob - oob_bit(*entry) + oob_bit(place);
            *entry = place;
            self.turns.set(t, turn_of(place, rank));
        }
    }

    /// Whether task t is ready nowhere.
    #[inline(always)]
    pub fn is_away(&self, t: u8) -> bool
        ensures { result ≡ true → entry self.now.places t ≡ Option.None }
    {
        self.get(t).is_none()
    }

    /// Task t, which is ready nowhere, is ready there.
    #[inline(always)]
    pub fn enter(&mut self, t: u8, place: Place)
        requires { entry self.old.places t ≡ Option.None }
        ensures places { self.new.places ≡ change (λ _. Option.Some place) self.old.places t }
        ensures ranks { self.new.ranks ≡ self.old.ranks }
    {
        let rank = self.rank(t);
        if let Some(entry) = self.places.get_mut(t as usize) {
            self.oob += oob_bit(Some(place));
            *entry = Some(place);
            self.turns.enter(t, turn_of(Some(place), rank));
        }
    }

    /// Task t is ready since this stamp, where it is ready, if it is.
    #[inline(always)]
    pub fn restamp(&mut self, t: u8, stamp: u64)
        ensures places { self.new.places ≡ change (option_map (stamped_place stamp)) self.old.places t }
        ensures ranks { self.new.ranks ≡ self.old.ranks }
    {
        let Some(place) = self.get(t) else {
            return;
        };
        if let Some(entry) = self.places.get_mut(t as usize) {
            *entry = Some(Place { stamp, ..place });
            self.turns.restamp(t, stamp);
        }
    }

    /// Task t has this rank.
    pub fn set_rank(&mut self, t: u8, rank: u16)
        ensures places { self.new.places ≡ self.old.places }
        ensures ranks { self.new.ranks ≡ change (λ _. rank) self.old.ranks t }
    {
        let place = self.get(t);
        if let Some(entry) = self.ranks.get_mut(t as usize) {
            *entry = rank;
            self.turns.set(t, turn_of(place, rank));
        }
    }

    /// The rank of task t; 0 if there is no such task.
    pub fn rank(&self, t: u8) -> u16
        ensures { result ≡ listed_rank self.now.ranks t }
    {
        listed_rank(self.ranks.as_slice(), t)
    }

    /// Whether any task is ready out-of-band, on whichever processor.
    #[tactic(auto, using(crate::proofs::Counts::counts))]
    pub fn has_oob(&self) -> bool
        ensures { result ≡ any_oob self.now.places }
    {
        self.oob > 0
    }

    fn stamp(&self, t: u8) -> u64
        ensures { result ≡ place_stamp (entry self.now.places t) }
    {
        match self.get(t) {
            None => 0,
            Some(place) => place.stamp,
        }
    }

    // Of the one that leads so far and another, the one that goes first.
    fn leader_of(&self, leading: Option<u8>, t: u8) -> u8
        ensures { result ≡ leader (listed_rank self.now.ranks) (λ u. place_stamp (entry self.now.places u)) leading t }
    {
        let Some(u) = leading else {
            return t;
        };
        let before = is_before(self.rank(t), self.stamp(t), self.rank(u), self.stamp(u));
        if before { t } else { u }
    }

    // Of the one that leads so far and another, the one of lesser stamp.
    fn least_stamped_of(&self, leading: Option<u8>, t: u8) -> u8
        ensures { result ≡ leader (λ _. 0) (λ u. place_stamp (entry self.now.places u)) leading t }
    {
        match leading {
            Some(u) if self.stamp(u) <= self.stamp(t) => u,
            _ => t,
        }
    }

    /// The number of the out-of-band task that processor c should run: of those that are ready there, the one of
    /// greatest rank, then of least stamp.
    pub fn best(&self, c: u8) -> Option<u8>
        ensures { result ≡ first (λ t. runs_oob c (entry self.now.places t)) (listed_rank self.now.ranks) (λ t. place_stamp (entry self.now.places t)) (length self.now.places) }
    {
        if c < self.processors {
            best_in(&self.turns, c)
        } else {
            self.best_of_all(c)
        }
    }

    // The same by a look at each task, for a processor that has no queues.
    #[inline(never)]
    #[tactic(auto, using(crate::proofs::Scans::scans))]
    fn best_of_all(&self, c: u8) -> Option<u8>
        ensures { result ≡ first (λ t. runs_oob c (entry self.now.places t)) (listed_rank self.now.ranks) (λ t. place_stamp (entry self.now.places t)) (length self.now.places) }
    {
        let mut leading = None;
        for t in 0..self.len() {
            if runs_oob(self.get(t), c) {
                leading = Some(self.leader_of(leading, t));
            }
        }
        leading
    }

    /// The number of the in-band task that processor c should take up: of those that are ready there, the one of
    /// least stamp.
    pub fn next_in_band(&self, c: u8) -> Option<u8>
        ensures { result ≡ first (λ t. runs_in_band c (entry self.now.places t)) (λ _. 0) (λ t. place_stamp (entry self.now.places t)) (length self.now.places) }
    {
        if c < self.processors {
            self.turns.head(c as u16 * LEVELS + IN_BAND_LEVEL)
        } else {
            self.next_of_all(c)
        }
    }

    // The same by a look at each task, for a processor that has no queues.
    #[inline(never)]
    #[tactic(auto, using(crate::proofs::Scans::scans))]
    fn next_of_all(&self, c: u8) -> Option<u8>
        ensures { result ≡ first (λ t. runs_in_band c (entry self.now.places t)) (λ _. 0) (λ t. place_stamp (entry self.now.places t)) (length self.now.places) }
    {
        let mut leading = None;
        for t in 0..self.len() {
            if runs_in_band(self.get(t), c) {
                leading = Some(self.least_stamped_of(leading, t));
            }
        }
        leading
    }
}

// The head of the first level of processor c at which a task is ready out-of-band.
fn best_in(turns: &Turns, c: u8) -> Option<u8>
    requires limit { c < PROCESSOR_LIMIT }
    requires queues { c * LEVELS + LEVELS ≤ turns.now.count }
    ensures { (places : List (Option Place)) (ranks : List ℕ) → length ranks ≡ length places → turns.now.turns ≡ ready_turns places ranks → result ≡ first (λ t. runs_oob c (entry places t)) (listed_rank ranks) (λ t. place_stamp (entry places t)) (length places) }
{
    let Some(q) = turns.first_used(c * 4, c * 4 + 4) else {
        return None;
    };
    if q < c as u16 * LEVELS + IN_BAND_LEVEL {
        turns.head(q)
    } else {
        None
    }
}
