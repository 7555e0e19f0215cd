ghost use Rattle.std.specs.Prelude.{◌≡◌, ◌<◌, ◌≤◌, true, false, length, slice_get, option_copied, Option};
ghost use Rattle.evm_model.specs.Bounds.{COUNT_LIMIT, PipesUpTo};
ghost use Rattle.evm_model.specs.Profiles.{line_count};
ghost use Rattle.evm_model.specs.Pipes.{raise, arrive, play, set_stall};
ghost use Rattle.evm_model.specs.Settle.{current};
ghost use Rattle.evm_model.specs.State.{on_pipe, on_processor};

use crate::console::Console;
use arrayvec::ArrayVec;
use evm_boost::{Mutexes, Schedule};
use evm_health::Notices;
use evm_lines::LINES;
use evm_model::{FIRST_LINES, PROCESSOR_LIMIT, Processor, Profile, Stage, WIDE_PROFILE};
use evm_pipe::Pipe;
use evm_room::copy_list;
use evm_sync::{Actions, Events, Flags, Semaphores};
use evm_task::{Harts, Tasks};
use evm_tick::{Timers, Watches};
use std::marker::Model;

/// What calls may change. No field can grow past the room that it has from the start.
#[derive(Debug, Drop)]
pub struct Parts {
    /// What never changes.
    pub profile: Profile,
    /// How many ticks there were.
    pub ticks: u64,
    /// The registers and pc of each task.
    pub harts: Harts,
    /// What the scheduler knows of each task.
    pub tasks: Tasks,
    /// What each processor runs.
    pub processors: ArrayVec<Processor, PROCESSOR_LIMIT>,
    /// The interrupts of each processor.
    pub pipes: ArrayVec<Pipe, PROCESSOR_LIMIT>,
    /// What the watchdog has counted on each processor.
    pub watches: Watches,
    /// The stamp that is given next.
    pub stamps: u64,
    /// The mutexes.
    pub mutexes: Mutexes,
    /// The ranks of the tasks, and the queues of those that are ready or wait.
    pub schedule: Schedule,
    /// The counts of the semaphores.
    pub semaphores: Semaphores,
    /// The mutexes of the tasks that wait for the events.
    pub events: Events,
    /// The words of the flag groups.
    pub flags: Flags,
    /// The timers.
    pub timers: Timers,
    /// The actions of the lines.
    pub actions: Actions,
    /// What was put to the console.
    pub console: Console,
    /// The notices of the health monitor.
    pub notices: Notices,
}

impl Model for Parts {
    ghost use Rattle.evm_boost.specs.Scheduled.{IsScheduled};
    ghost use Rattle.evm_model.specs.State as model;

    ghost Value = { model.Parts };

    ghost invariant = { λ k. IsScheduled k.schedule k.mutexes k.tasks };

    ghost view = { λ k. record {
      profile = k.profile;
      ticks = k.ticks;
      harts = k.harts;
      tasks = k.tasks;
      processors = k.processors.items;
      pipes = k.pipes.items;
      watches = k.watches;
      stamps = k.stamps;
      mutexes = k.mutexes;
      semaphores = k.semaphores;
      events = k.events;
      flags = k.flags;
      timers = k.timers;
      actions = k.actions;
      console = k.console;
      notices = k.notices;
    } };
}

impl Parts {
    /// Each part is that of another machine. Takes no memory.
    pub fn copy_from(&mut self, other: &Parts)
        ensures { self.new ≡ other.now }
    {
        self.profile = other.profile;
        self.ticks = other.ticks;
        self.harts.copy_from(&other.harts);
        self.tasks.copy_from(&other.tasks);
        copy_list(&mut self.processors, &other.processors);
        copy_list(&mut self.pipes, &other.pipes);
        self.watches.copy_from(&other.watches);
        self.stamps = other.stamps;
        self.mutexes.copy_from(&other.mutexes);
        self.schedule.copy_from(&other.schedule);
        self.semaphores.copy_from(&other.semaphores);
        self.events.copy_from(&other.events);
        self.flags.copy_from(&other.flags);
        self.timers.copy_from(&other.timers);
        self.actions.copy_from(&other.actions);
        self.console.copy_from(&other.console);
        self.notices.copy_from(&other.notices);
    }

    /// How many interrupt lines a processor has.
    pub fn line_count(&self) -> u8
        ensures { result ≡ line_count self.now.profile }
    {
        if self.profile.version < WIDE_PROFILE {
            FIRST_LINES
        } else {
            LINES
        }
    }

    /// How many processors there are, 8 at the most.
    pub fn processor_count(&self) -> u8
        ensures count { result ≡ length self.now.processors }
        ensures limit { result ≤ PROCESSOR_LIMIT }
    {
        self.processors.len() as u8
    }

    /// The same number, of their pipes.
    pub fn pipe_count(&self) -> u8
        ensures count { result ≡ length self.now.pipes }
        ensures limit { result ≤ PROCESSOR_LIMIT }
    {
        self.pipes.len() as u8
    }

    /// What a processor runs.
    pub fn processor(&self, c: u8) -> Option<Processor>
        ensures { result ≡ slice_get self.now.processors c }
    {
        self.processors.as_slice().get(c as usize).copied()
    }

    /// The interrupts of a processor.
    pub fn pipe(&self, c: u8) -> Option<&Pipe>
        ensures { option_copied result ≡ slice_get self.now.pipes c }
    {
        self.pipes.as_slice().get(c as usize)
    }

    /// The number of the task that a processor runs.
    pub fn current(&self, c: u8) -> Option<u8>
        ensures { result ≡ current c self.now }
    {
        match self.processors.as_slice().get(c as usize) {
            None => None,
            Some(processor) => processor.current,
        }
    }

    /// Makes a task current on a processor, or none.
    pub fn set_current(&mut self, c: u8, task: Option<u8>)
        ensures { self.new ≡ on_processor c (λ p. record p { current = task }) self.old }
    {
        if let Some(processor) = self.processors.get_mut(c as usize) {
            processor.current = task;
        }
    }

    /// Sets or clears the in-band current task of a processor.
    pub fn set_in_band_task(&mut self, c: u8, task: Option<u8>)
        ensures { self.new ≡ on_processor c (λ p. record p { in_band_task = task }) self.old }
    {
        if let Some(processor) = self.processors.get_mut(c as usize) {
            processor.in_band_task = task;
        }
    }

    /// The task that a processor runs on both stages: its in-band current task, or none.
    pub fn run_in_band(&mut self, c: u8, task: Option<u8>)
        ensures { self.new ≡ on_processor c (λ p. record p { current = task; in_band_task = task }) self.old }
    {
        if let Some(processor) = self.processors.get_mut(c as usize) {
            processor.current = task;
            processor.in_band_task = task;
        }
    }

    /// A processor is stopped.
    pub fn stop(&mut self, c: u8)
        ensures { self.new ≡ on_processor c (λ p. record p { stopped = true }) self.old }
    {
        if let Some(processor) = self.processors.get_mut(c as usize) {
            processor.stopped = true;
        }
    }

    /// The breakpoint at a processor's pc isn't passed any more.
    pub fn clear_skip(&mut self, c: u8)
        ensures { self.new ≡ on_processor c (λ p. record p { skip = false }) self.old }
    {
        if let Some(processor) = self.processors.get_mut(c as usize) {
            processor.skip = false;
        }
    }

    /// A processor has these stop and skip bits.
    pub fn set_bits(&mut self, stopped: bool, skip: bool, c: u8)
        ensures { self.new ≡ on_processor c (λ p. record p { stopped = stopped; skip = skip }) self.old }
    {
        if let Some(processor) = self.processors.get_mut(c as usize) {
            processor.stopped = stopped;
            processor.skip = skip;
        }
    }

    /// Raises a line of a processor.
    pub fn raise(&mut self, c: u8, line: u8)
        requires line { line < LINES }
        requires room { PipesUpTo COUNT_LIMIT self.old.pipes }
        ensures { self.new ≡ on_pipe c (raise line) self.old }
    {
        if let Some(pipe) = self.pipes.get_mut(c as usize) {
            pipe.raise(line);
        }
    }

    /// Puts a line into the log of a stage of a processor.
    pub fn arrive(&mut self, c: u8, stage: Stage, line: u8)
        requires line { line < LINES }
        requires room { PipesUpTo COUNT_LIMIT self.old.pipes }
        ensures { self.new ≡ on_pipe c (arrive stage line) self.old }
    {
        if let Some(pipe) = self.pipes.get_mut(c as usize) {
            pipe.arrive(stage, line);
        }
    }

    /// Takes a line from the log of a stage of a processor, to be played.
    pub fn play(&mut self, c: u8, stage: Stage, line: u8)
        requires line { line < LINES }
        requires room { PipesUpTo COUNT_LIMIT self.old.pipes }
        ensures { self.new ≡ on_pipe c (play stage line) self.old }
    {
        if let Some(pipe) = self.pipes.get_mut(c as usize) {
            pipe.play(stage, line);
        }
    }

    /// Stalls a stage of a processor, or lets it go on.
    pub fn set_stall(&mut self, c: u8, stage: Stage, stalled: bool)
        ensures { self.new ≡ on_pipe c (set_stall stage stalled) self.old }
    {
        if let Some(pipe) = self.pipes.get_mut(c as usize) {
            pipe.set_stall(stage, stalled);
        }
    }
}
