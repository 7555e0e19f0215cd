//! What rows do to the stage of a task, and to its policy.

ghost use Rattle.std.specs.Prelude.{◌≡◌, ◌≤◌, ◌+◌};
ghost use Rattle.evm_model.specs.Bounds.{HasStamps};
ghost use Rattle.evm_model.specs.OobCalls.{move_task};
ghost use Rattle.evm_model.specs.Settle.{spend};
ghost use Rattle.evm_model.specs.Stages.{is_stalled, is_attached, may_promote, stage_at};
ghost use Rattle.evm_model.specs.Tasks.{demote, promote, set_policy, clear_policy, set_mode_bits, set_slice, spend_slice};

use crate::parts::Parts;
use evm_model::{Class, SLICE, Stage, TaskState};

impl Parts {
    /// A task goes in-band: it is ready there, and out-of-band isn't stalled on its processor.
    #[tactic(auto, unfolding(evm_model::specs::Tasks::demote))]
    pub fn demote(&mut self, c: u8, t: u8)
        requires room { HasStamps 1 self.old }
        ensures row { self.new ≡ demote c t self.old }
    {
        self.set_stall(c, Stage::OutOfBand, false);
        self.requeue(t, TaskState::InReady);
    }

    /// A task goes out-of-band: it is ready there, and in-band current no more.
    #[tactic(auto, unfolding(evm_model::specs::Tasks::promote))]
    pub fn promote(&mut self, c: u8, t: u8)
        requires room { HasStamps 1 self.old }
        ensures row { self.new ≡ promote c t self.old }
    {
        self.requeue(t, TaskState::OobReady);
        self.leave_in_band(c);
    }

    /// A task goes on another processor: it is ready there out-of-band, but in-band if it is weak and owns no mutex. It has
    /// a fresh stamp.
    #[tactic(auto, unfolding(evm_model::specs::OobCalls::move_task, evm_model::specs::Tasks::restamp))]
    pub fn move_task(&mut self, t: u8, cpu: u8)
        requires room { HasStamps 1 self.old }
        ensures row { self.new ≡ move_task t cpu self.old }
    {
        let stamp = self.stamps;
        let owns = self.mutexes.owns_any(t);
        self.schedule
            .migrate(&mut self.tasks, &self.mutexes, t, cpu, owns, stamp);
        self.stamps = stamp + 1;
    }

    /// A task has a class and a priority, and a whole slice.
    #[tactic(auto, unfolding(evm_model::specs::Tasks::set_policy))]
    pub fn set_policy(&mut self, t: u8, class: Class, priority: u8)
        ensures row { self.new ≡ set_policy t class priority self.old }
        ensures stamps { self.new.stamps ≡ self.old.stamps }
    {
        self.schedule
            .set_policy(&mut self.tasks, &self.mutexes, t, class, priority);
    }

    /// A task has no class, no priority and no mode bits.
    #[tactic(auto, unfolding(evm_model::specs::Tasks::clear_policy))]
    pub fn clear_policy(&mut self, t: u8)
        ensures row { self.new ≡ clear_policy t self.old }
    {
        self.schedule
            .clear_policy(&mut self.tasks, &self.mutexes, t);
    }

    /// A task has these mode bits.
    #[tactic(auto, unfolding(evm_model::specs::Tasks::set_mode_bits))]
    pub fn set_mode_bits(&mut self, t: u8, bits: u8)
        ensures row { self.new ≡ set_mode_bits t bits self.old }
    {
        self.schedule
            .set_mode(&mut self.tasks, &self.mutexes, t, bits);
    }

    // A task has this many ticks left.
    #[tactic(auto, unfolding(evm_model::specs::Tasks::set_slice))]
    fn set_slice(&mut self, t: u8, slice: u8)
        ensures row { self.new ≡ set_slice t slice self.old }
        ensures stamps { self.new.stamps ≡ self.old.stamps }
    {
        self.schedule
            .set_slice(&mut self.tasks, &self.mutexes, t, slice);
    }

    // A tick less of a task's slice; the last one gives a whole slice, and a fresh stamp.
    #[tactic(auto, unfolding(evm_model::specs::Tasks::spend_slice))]
    fn spend_slice(&mut self, t: u8, slice: u8)
        requires room { HasStamps 1 self.old }
        ensures row { self.new ≡ spend_slice t slice self.old }
        ensures stamps { self.new.stamps ≤ self.old.stamps + 1 }
    {
        if slice <= 1 {
            self.set_slice(t, SLICE);
            self.restamp(t);
        } else {
            self.set_slice(t, slice - 1);
        }
    }

    /// A tick of the slice of a task, if there is one that is ready out-of-band and of the round-robin class.
    #[tactic(auto, unfolding(evm_model::specs::Settle::spend))]
    pub fn spend(&mut self, task: Option<u8>)
        requires room { HasStamps 1 self.old }
        ensures row { self.new ≡ spend task self.old }
        ensures stamps { self.new.stamps ≤ self.old.stamps + 1 }
    {
        let Some(t) = task else {
            return;
        };
        let Some(task) = self.tasks.get(t) else {
            return;
        };
        if task.state == TaskState::OobReady && task.class == Class::RoundRobin {
            self.spend_slice(t, task.slice);
        }
    }

    /// Whether a stage of a processor is stalled.
    pub fn is_stalled(&self, c: u8, stage: Stage) -> bool
        ensures { result ≡ is_stalled stage c self.now }
    {
        match self.pipe(c) {
            None => false,
            Some(pipe) => pipe.log(stage).stalled,
        }
    }

    /// Whether a task has a class.
    pub fn is_attached(&self, t: u8) -> bool
        ensures { result ≡ is_attached t self.now }
    {
        self.tasks.is_attached(t)
    }

    /// The stage that a task is on.
    pub fn stage_at(&self, t: u8) -> Stage
        ensures { result ≡ stage_at t self.now }
    {
        if self.tasks.is_oob(Some(t)) {
            Stage::OutOfBand
        } else {
            Stage::InBand
        }
    }

    /// Whether a task of a processor may go out-of-band: it has a class, and in-band isn't stalled there.
    pub fn may_promote(&self, c: u8, t: u8) -> bool
        ensures { result ≡ may_promote c t self.now }
    {
        self.is_attached(t) && !self.is_stalled(c, Stage::InBand)
    }
}
