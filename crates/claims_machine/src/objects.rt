//! Events, flag groups, timers and the actions of lines: the rules that hold after every event, and in which order waits end
//! by their deadlines and timers expire.
ghost use Rattle.std.specs.Prelude.{◌≡◌, ◌≢◌, ◌+◌, ◌<◌, ◌≤◌, ◌↔◌, ◌⊎◌, ℕ, List, Option, slice_get, slice_index, length};
ghost use Rattle.std.specs.List.{Contains, fold};
ghost use Rattle.std.specs.List.Sorted.{IsStrictlyIncreasing};
ghost use Rattle.evm_lines.specs.declared.TheConstants.{LINES};
ghost use Rattle.evm_model.specs.Deadlines.{deadline, end_wait, end_waits};
ghost use Rattle.evm_model.specs.State.{State, Parts};
ghost use Rattle.evm_model.specs.Timers.{expire, expire_timers};
ghost use Rattle.evm_model.specs.declared.action.Action.{Action};
ghost use Rattle.evm_model.specs.declared.boot.Boot.{Boot};
ghost use Rattle.evm_model.specs.declared.limits.TheConstants.{EVENT_LIMIT, FLAGS_LIMIT, TIMER_LIMIT};
ghost use Rattle.evm_model.specs.declared.mutex.Mutex.{Mutex};
ghost use Rattle.evm_model.specs.declared.task.Task.{Task};
ghost use Rattle.evm_model.specs.declared.task.TaskState.{TaskState};
ghost use Rattle.evm_model.specs.declared.task.Wait.{Wait};
ghost use Rattle.evm_model.specs.declared.timer.Timer.{Timer};
ghost use Rattle.claims_machine.specs.Reached.{Reached};

/// After every boot whose numbers are inside their limits, with an image loaded or none, and every list of events: there are
/// 32 flag groups at the most, and no word is above 4294967295.
pub fn each_flag_group_is_within_its_bound()
    ensures few { (boot : Boot) (s : State) → Reached boot s → length s.board.parts.flags ≤ FLAGS_LIMIT }
    ensures bounded { (boot : Boot) (s : State) (group word : ℕ) → Reached boot s →
        slice_get s.board.parts.flags group ≡ Option.Some word → word ≤ 4294967295 }
{
    law_rules::rules_hold();
}

/// Likewise: there are 32 timers at the most; a period is at most 9223372036854775807, and a timer is due at most that many
/// ticks after now. A timer that is on has expired less often than the number of the tick at which it is due; one that is off
/// no more often than there were ticks.
pub fn each_timer_is_within_its_bound()
    ensures few { (boot : Boot) (s : State) → Reached boot s → length s.board.parts.timers ≤ TIMER_LIMIT }
    ensures period { (boot : Boot) (s : State) (n : ℕ) (timer : Timer) → Reached boot s →
        slice_get s.board.parts.timers n ≡ Option.Some timer → timer.period ≤ 9223372036854775807 }
    ensures due { (boot : Boot) (s : State) (n : ℕ) (timer : Timer) → Reached boot s →
        slice_get s.board.parts.timers n ≡ Option.Some timer → timer.due ≤ 9223372036854775807 + s.board.parts.ticks }
    ensures on { (boot : Boot) (s : State) (n : ℕ) (timer : Timer) → Reached boot s →
        slice_get s.board.parts.timers n ≡ Option.Some timer → timer.due ≢ 0 → timer.expiries < timer.due }
    ensures off { (boot : Boot) (s : State) (n : ℕ) (timer : Timer) → Reached boot s →
        slice_get s.board.parts.timers n ≡ Option.Some timer → timer.due ≡ 0 → timer.expiries ≤ s.board.parts.ticks }
{
    law_rules::rules_hold();
}

/// Likewise: there is an action for each of the 64 lines. Lines 0 and 1 have none; one that puts into a semaphore, or posts
/// to a flag group, names one that is there.
pub fn each_action_names_what_is_there()
    ensures count { (boot : Boot) (s : State) → Reached boot s → length s.board.parts.actions ≡ LINES }
    ensures fixed { (boot : Boot) (s : State) (l : ℕ) (action : Action) → Reached boot s → l < 2 →
        slice_get s.board.parts.actions l ≡ Option.Some action → action ≡ Action.Nothing }
    ensures puts { (boot : Boot) (s : State) (l semaphore : ℕ) → Reached boot s →
        slice_get s.board.parts.actions l ≡ Option.Some (Action.Puts semaphore) → semaphore < length s.board.parts.semaphores }
    ensures posts { (boot : Boot) (s : State) (l group : ℕ) → Reached boot s →
        slice_get s.board.parts.actions l ≡ Option.Some (Action.Posts group) → group < length s.board.parts.flags }
{
    law_rules::rules_hold();
}

/// Likewise: there are 32 events at the most. An event for which a task waits has a mutex that is there, and that task owns
/// no mutex.
pub fn a_task_that_waits_for_an_event_owns_no_mutex()
    ensures few { (boot : Boot) (s : State) → Reached boot s → length s.board.parts.events ≤ EVENT_LIMIT }
    ensures named { (boot : Boot) (s : State) (t e : ℕ) (task : Task) → Reached boot s →
        slice_get s.board.parts.tasks t ≡ Option.Some task → task.state ≡ TaskState.Waits (Wait.Event e) →
        (m : ℕ) × ((slice_get s.board.parts.events e ≡ Option.Some (Option.Some m)) × (m < length s.board.parts.mutexes)) }
    ensures idle { (boot : Boot) (s : State) (t e m : ℕ) (task : Task) (mutex : Mutex) → Reached boot s →
        slice_get s.board.parts.tasks t ≡ Option.Some task → task.state ≡ TaskState.Waits (Wait.Event e) →
        slice_get s.board.parts.mutexes m ≡ Option.Some mutex → mutex.owner ≢ Option.Some t }
{
    law_rules::rules_hold();
}

/// Likewise: a task that doesn't wait has no deadline.
pub fn a_task_that_does_not_wait_has_no_deadline()
    ensures { (boot : Boot) (s : State) (t : ℕ) (task : Task) → Reached boot s →
        slice_get s.board.parts.tasks t ≡ Option.Some task → ((wait : Wait) → task.state ≢ TaskState.Waits wait) → task.deadline ≡ 0 }
{
    law_rules::rules_hold();
}

/// Where each event for which a task waits has a mutex that is there, and a task that doesn't wait has no deadline: the waits
/// on a processor whose deadlines have come, and no others, end one after another, by deadline, then by number.
pub fn waits_end_by_deadline_then_by_number()
    ensures { (c : ℕ) (k : Parts) →
        ((t e : ℕ) (task : Task) → slice_get k.tasks t ≡ Option.Some task → task.state ≡ TaskState.Waits (Wait.Event e) →
        (m : ℕ) × ((slice_get k.events e ≡ Option.Some (Option.Some m)) × (m < length k.mutexes))) →
        ((t : ℕ) (task : Task) → slice_get k.tasks t ≡ Option.Some task → ((wait : Wait) → task.state ≢ TaskState.Waits wait) → task.deadline ≡ 0) →
        (late : List ℕ) × (((t : ℕ) → Contains late t ↔ ((task : Task) × ((slice_get k.tasks t ≡ Option.Some task) × (task.deadline ≢ 0)
        × (task.deadline ≤ k.ticks) × (task.cpu ≡ c))))
        × ((i j : ℕ) → i < j → j < length late → (deadline k.tasks (slice_index late i) < deadline k.tasks (slice_index late j))
        ⊎ ((deadline k.tasks (slice_index late i) ≡ deadline k.tasks (slice_index late j)) × (slice_index late i < slice_index late j)))
        × (end_waits c k ≡ fold (λ x t. end_wait t x) k late)) }
{
    law_runs::goes_when_due(); // the clause ends
}

/// The timers of a processor that are on and due, and no others, expire one after another, in rising order of their numbers.
pub fn timers_expire_by_number()
    ensures { (c : ℕ) (k : Parts) → (due : List ℕ) × (IsStrictlyIncreasing due
        × ((n : ℕ) → Contains due n ↔ ((timer : Timer) × ((slice_get k.timers n ≡ Option.Some timer) × (timer.due ≢ 0)
        × (timer.due ≤ k.ticks) × (timer.cpu ≡ c))))
        × (expire_timers c k ≡ fold (λ x n. expire c n x) k due)) }
{
    law_runs::goes_when_due(); // the clause expires
}
