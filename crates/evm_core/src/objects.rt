//! The kernel objects of a machine, but its mutexes: semaphores, events, flag groups, timers, and the actions of lines.

ghost use Rattle.std.specs.Prelude.{◌≡◌, ◌≤◌, length, slice_get};
ghost use Rattle.evm_model.specs.Actions.{action_in};
ghost use Rattle.evm_model.specs.Events.{bound_of};

use crate::machine::Machine;
use evm_dev::Device;
use evm_model::{Action, EVENT_LIMIT, FLAGS_LIMIT, SEMAPHORE_LIMIT, TIMER_LIMIT, Timer};

impl<D: Device> Machine<D> {
    /// The stamp that is given next.
    pub fn next_stamp(&self) -> u64
        ensures { result ≡ self.now.board.parts.stamps }
    {
        self.board.parts.stamps
    }

    /// How many semaphores there are, up to 32.
    pub fn semaphore_count(&self) -> u8
        ensures count { result ≡ length self.now.board.parts.semaphores }
        ensures limit { result ≤ SEMAPHORE_LIMIT }
    {
        self.board.parts.semaphores.count()
    }

    /// The count of a semaphore.
    pub fn semaphore(&self, s: u8) -> Option<u32>
        ensures { result ≡ slice_get self.now.board.parts.semaphores s }
    {
        self.board.parts.semaphores.get(s)
    }

    /// How many EVL events there are, up to 32. [`Machine::event_count`] counts the journal.
    pub fn event_object_count(&self) -> u8
        ensures count { result ≡ length self.now.board.parts.events }
        ensures limit { result ≤ EVENT_LIMIT }
    {
        self.board.parts.events.count()
    }

    /// The mutex of the tasks that wait for an EVL event: the one that was named last.
    pub fn event_mutex(&self, e: u8) -> Option<u8>
        ensures { result ≡ bound_of (slice_get self.now.board.parts.events e) }
    {
        self.board.parts.events.bound(e)
    }

    /// How many flag groups there are, up to 32.
    pub fn flag_group_count(&self) -> u8
        ensures count { result ≡ length self.now.board.parts.flags }
        ensures limit { result ≤ FLAGS_LIMIT }
    {
        self.board.parts.flags.count()
    }

    /// The word of a flag group.
    pub fn flag_group(&self, f: u8) -> Option<u32>
        ensures { result ≡ slice_get self.now.board.parts.flags f }
    {
        self.board.parts.flags.get(f)
    }

    /// How many timers there are, up to 32.
    pub fn timer_count(&self) -> u8
        ensures count { result ≡ length self.now.board.parts.timers }
        ensures limit { result ≤ TIMER_LIMIT }
    {
        self.board.parts.timers.count()
    }

    /// A timer by its number.
    pub fn timer(&self, n: u8) -> Option<Timer>
        ensures { result ≡ slice_get self.now.board.parts.timers n }
    {
        self.board.parts.timers.get(n)
    }

    /// What a line does when it is received and played.
    pub fn action(&self, line: u8) -> Action
        ensures { result ≡ action_in self.now.board.parts.actions line }
    {
        self.board.parts.actions.get(line)
    }
}
