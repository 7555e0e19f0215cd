//! What is noted before an event, and the failure that the event has made.

ghost use Rattle.std.specs.Prelude.{◌≡◌, ℕ, true, is_some, slice_get, IfSome, MatchOption, Option};
ghost use Rattle.evm_model.specs.Current.{current};
ghost use Rattle.evm_model.specs.Event.{Event as Happening, short_event};
ghost use Rattle.evm_model.specs.State.{State};
ghost use Rattle.evm_model.specs.declared.errno.Errno.{Errno};
ghost use Rattle.hunt_failures.specs.Failures.{Fails, IsAbandoned, IsAnsweredLate, IsAtCall, IsCaller, IsDemoted, IsRefused, IsSeen, IsUnawaited, IsWokenLate, call_in, is_to_stay, looks_at_calls, step_of};
ghost use Rattle.hunt_failures.specs.Eves.{IsEve, IsNothingLeft, IsQuietStep, NoneAbandoned, NoneAnsweredLate, NoneDemoted, NoneRefused, NoneWokenLate, noted_owner, noted_waiter, owner_wanted, waiter_wanted};

use crate::calls::{Caller, caller_on, refused};
use crate::expiries::{TimerWaiters, answered_late, timer_waiters, woken_late};
use crate::failure::Failure;
use crate::leaving::{Owners, abandoned, owners_of};
use crate::lines::{Unawaited, first_unawaited, lost};
use crate::looks::{deadlocked, notice_left, ran, stopped};
use crate::monitor::Monitor;
use crate::stages::{demoted, staying_on};
use crate::wanted::Wanted;
use evm_core::{Answer, Machine};
use evm_devs::AnyDevice;
use evm_model::{Event, NoBytes};

/// What is noted of a machine before an event.
#[derive(Debug, Drop)]
pub struct Eve {
    /// The processor that the event steps.
    pub(crate) cpu: Option<u8>,
    /// How many notices there were.
    pub(crate) notices: u64,
    /// The task that is about to make a call.
    pub(crate) caller: Option<Caller>,
    /// A line that nobody waits for.
    pub(crate) line: Option<Unawaited>,
    /// Who has which mutex.
    pub(crate) owners: Option<Owners>,
    /// The task that is to stay out-of-band.
    pub(crate) staying: Option<u8>,
    /// Who waits for a timer.
    pub(crate) waiters: Option<TimerWaiters>,
}

/// The processor that an event steps.
pub(crate) fn stepping(event: Event<NoBytes>) -> Option<u8>
    ensures { result ≡ step_of (short_event event) }
{
    match event {
        Event::Step(c) => Some(c),
        _ => None,
    }
}

// The task that is about to make a call, if calls are looked at.
fn caller_of(machine: &Machine<AnyDevice>, c: u8, wanted: &Wanted) -> Option<Caller>
    ensures { MatchOption result (looks_at_calls wanted.now ≡ true → (t pc : ℕ) → current c machine.now.board.parts ≡ Option.Some t → IsAtCall t pc machine.now → ⊥) (λ caller. (current c machine.now.board.parts ≡ Option.Some caller.task) × IsAtCall caller.task caller.pc machine.now × (caller.call ≡ call_in (slice_get machine.now.board.parts.harts caller.task))) }
{
    if wanted.looks_at_calls() {
        caller_on(machine, c)
    } else {
        None
    }
}

// A line that nobody waits for, if lost lines are looked for.
fn line_of(machine: &Machine<AnyDevice>, c: u8, wanted: &Wanted) -> Option<Unawaited>
    ensures { IfSome result (λ line. IsUnawaited line.cpu line.line line.played machine.now) }
{
    if wanted.lost {
        first_unawaited(machine, c, wanted.lines)
    } else {
        None
    }
}

// Who has which mutex, if abandoned ones are looked for.
fn owners_for(machine: &Machine<AnyDevice>, wanted: &Wanted) -> Option<Owners>
    ensures { (m : ℕ) → noted_owner result m ≡ owner_wanted wanted.now.abandoned m machine.now }
{
    if wanted.abandoned {
        Some(owners_of(machine))
    } else {
        None
    }
}

// The task of a processor that is to stay out-of-band, if demotions are looked for.
fn staying_of(machine: &Machine<AnyDevice>, c: u8, wanted: &Wanted) -> Option<u8>
    ensures { MatchOption result (wanted.now.demotion ≡ true → (t : ℕ) → current c machine.now.board.parts ≡ Option.Some t → is_to_stay t machine.now ≡ true → ⊥) (λ t. (current c machine.now.board.parts ≡ Option.Some t) × (is_to_stay t machine.now ≡ true)) }
{
    if wanted.demotion {
        staying_on(machine, c)
    } else {
        None
    }
}

// Who waits for a timer, if late answers are looked for.
fn waiters_for(machine: &Machine<AnyDevice>, wanted: &Wanted) -> Option<TimerWaiters>
    ensures { (t : ℕ) → noted_waiter result t ≡ waiter_wanted wanted.now.overrun t machine.now }
{
    if wanted.overrun {
        Some(timer_waiters(machine))
    } else {
        None
    }
}

/// What is noted before an event.
pub fn eve_of(machine: &Machine<AnyDevice>, event: Event<NoBytes>, wanted: &Wanted) -> Eve
    ensures { IsEve result wanted.now (short_event event) machine.now }
{
    let notices = machine.notice_total();
    let owners = owners_for(machine, wanted);
    let waiters = waiters_for(machine, wanted);
    match stepping(event) {
        Some(c) => Eve {
            cpu: Some(c),
            notices,
            caller: caller_of(machine, c, wanted),
            line: line_of(machine, c, wanted),
            owners,
            staying: staying_of(machine, c, wanted),
            waiters,
        },
        None => Eve {
            cpu: None,
            notices,
            caller: None,
            line: None,
            owners,
            staying: None,
            waiters,
        },
    }
}

// The failure of a call that was refused.
fn refused_call(machine: &Machine<AnyDevice>, eve: &Eve, wanted: &Wanted) -> Option<Failure>
    ensures { (before : State) (event : Happening) → IsEve eve.now wanted.now event before → MatchOption result (NoneRefused wanted.now before event machine.now) (λ failure. (t : ℕ) × (e : Errno) × (failure ≡ Failure.Refused t e) × IsCaller t before event × IsRefused t e before machine.now) }
{
    let Some(errors) = wanted.errors else {
        return None;
    };
    let Some(caller) = eve.caller else {
        return None;
    };
    refused(machine, caller, &errors)
}

// The failure of a mutex that was abandoned.
fn abandoned_mutex(machine: &Machine<AnyDevice>, eve: &Eve) -> Option<Failure>
    ensures { (before : State) (wanted : Wanted) (event : Happening) → IsEve eve.now wanted event before → MatchOption result (NoneAbandoned wanted before machine.now) (λ failure. (t : ℕ) × (m : ℕ) × (failure ≡ Failure.Abandoned t m) × IsAbandoned t m before machine.now) }
{
    match &eve.owners {
        None => None,
        Some(owners) => abandoned(machine, owners.as_slice()),
    }
}

// The failure of a task that was demoted.
fn demoted_task(machine: &Machine<AnyDevice>, eve: &Eve) -> Option<Failure>
    ensures { (before : State) (wanted : Wanted) (event : Happening) → IsEve eve.now wanted event before → MatchOption result (NoneDemoted wanted before event machine.now) (λ failure. (t : ℕ) × (failure ≡ Failure.Demoted t) × IsDemoted t before event machine.now) }
{
    match eve.staying {
        None => None,
        Some(t) => demoted(machine, t),
    }
}

// The failure of a task that waited for a timer.
fn woken_task(machine: &Machine<AnyDevice>, eve: &Eve) -> Option<Failure>
    ensures { (before : State) (wanted : Wanted) (event : Happening) → IsEve eve.now wanted event before → MatchOption result (NoneWokenLate wanted before machine.now) (λ failure. (t : ℕ) × (failure ≡ Failure.Overrun t) × IsWokenLate t before machine.now) }
{
    match &eve.waiters {
        None => None,
        Some(waiters) => woken_late(machine, waiters.as_slice()),
    }
}

// The failure of a task that did not have to wait for a timer.
fn answered_task(machine: &Machine<AnyDevice>, eve: &Eve, wanted: &Wanted) -> Option<Failure>
    ensures { (before : State) (event : Happening) → IsEve eve.now wanted.now event before → MatchOption result (NoneAnsweredLate wanted.now before event machine.now) (λ failure. (t : ℕ) × (failure ≡ Failure.Overrun t) × IsAnsweredLate t before event machine.now) }
{
    if !wanted.overrun {
        return None;
    }
    match eve.caller {
        None => None,
        Some(caller) => answered_late(machine, caller),
    }
}

// The failure of what a task has left by a step: a mutex abandoned, its stage, expiries of a timer.
fn left(machine: &Machine<AnyDevice>, eve: &Eve, wanted: &Wanted) -> Option<Failure>
    ensures { (before : State) (event : Happening) (answer : Answer) → is_some (step_of event) ≡ true → IsEve eve.now wanted.now event before → MatchOption result (IsNothingLeft wanted.now before event machine.now) (λ failure. Fails wanted.now.lines failure before event answer machine.now) }
{
    match abandoned_mutex(machine, eve) {
        Some(failure) => return Some(failure),
        None => {}
    }
    match demoted_task(machine, eve) {
        Some(failure) => return Some(failure),
        None => {}
    }
    match woken_task(machine, eve) {
        Some(failure) => return Some(failure),
        None => {}
    }
    answered_task(machine, eve, wanted)
}

// The failure of a line that was lost.
fn lost_line(machine: &Machine<AnyDevice>, eve: &Eve) -> Option<Failure>
    ensures { (before : State) (wanted : Wanted) (event : Happening) (answer : Answer) → IsEve eve.now wanted event before → IfSome result (λ failure. Fails wanted.lines failure before event answer machine.now) }
{
    match eve.line {
        Some(line) => lost(machine, line),
        None => None,
    }
}

// The failure of what has gone on for too long.
fn too_long(
    machine: &Machine<AnyDevice>,
    c: u8,
    answer: Answer,
    wanted: &Wanted,
    monitor: &mut Monitor,
) -> Option<Failure>
    ensures { (before : State) (event : Happening) → IfSome result (λ failure. Fails wanted.now.lines failure before event answer machine.now) }
{
    if let Some(ticks) = wanted.held
        && let Some(failure) = monitor.held(machine, ticks)
    {
        return Some(failure);
    }
    if let Some(inversion) = wanted.inversion
        && let Some(failure) = monitor.kept_back(machine, inversion.rank, inversion.steps)
    {
        return Some(failure);
    }
    monitor.stuck(machine, c, answer, wanted)
}

// The failure of a step: an EBREAK, a fault, a deadlock.
fn stepped(machine: &Machine<AnyDevice>, c: u8, answer: Answer, wanted: &Wanted) -> Option<Failure>
    ensures { (before : State) (event : Happening) → step_of event ≡ Option.Some c → MatchOption result (IsQuietStep wanted.now c answer machine.now) (λ failure. Fails wanted.now.lines failure before event answer machine.now) }
{
    match stopped(machine, c, wanted) {
        Some(failure) => return Some(failure),
        None => {}
    }
    match ran(machine, answer, wanted) {
        Some(failure) => return Some(failure),
        None => {}
    }
    deadlocked(machine, wanted)
}

// The failure of an event that comes from outside.
fn outside(machine: &Machine<AnyDevice>, eve: &Eve, wanted: &Wanted) -> Option<Failure>
    ensures { (before : State) (event : Happening) (answer : Answer) → step_of event ≡ Option.None → IsEve eve.now wanted.now event before → IsSeen wanted.now before event answer machine.now result }
{
    match notice_left(machine, eve.notices, wanted) {
        Some(failure) => return Some(failure),
        None => {}
    }
    deadlocked(machine, wanted)
}

// The failure of a step that one event shows: a call refused, a notice, an EBREAK, a fault, a deadlock, a mutex abandoned, a task demoted, a
// timer that was late.
fn shown(
    machine: &Machine<AnyDevice>,
    c: u8,
    answer: Answer,
    eve: &Eve,
    wanted: &Wanted,
) -> Option<Failure>
    ensures { (before : State) (event : Happening) → step_of event ≡ Option.Some c → IsEve eve.now wanted.now event before → IsSeen wanted.now before event answer machine.now result }
{
    match refused_call(machine, eve, wanted) {
        Some(failure) => return Some(failure),
        None => {}
    }
    match notice_left(machine, eve.notices, wanted) {
        Some(failure) => return Some(failure),
        None => {}
    }
    match stepped(machine, c, answer, wanted) {
        Some(failure) => return Some(failure),
        None => {}
    }
    left(machine, eve, wanted)
}

/// The failure that an event has made, the first in this order: a call refused, a notice, an EBREAK, a fault, a deadlock, a mutex abandoned, a
/// task demoted, a timer that was late, a line lost, a mutex held, a task kept back or stuck for too long.
pub fn looked(
    machine: &Machine<AnyDevice>,
    answer: Answer,
    eve: &Eve,
    wanted: &Wanted,
    monitor: &mut Monitor,
) -> Option<Failure>
    ensures { (before : State) (event : Happening) → IsEve eve.now wanted.now event before → IsSeen wanted.now before event answer machine.now result }
{
    let Some(c) = eve.cpu else {
        return outside(machine, eve, wanted);
    };
    match shown(machine, c, answer, eve, wanted) {
        Some(failure) => return Some(failure),
        None => {}
    }
    match lost_line(machine, eve) {
        Some(failure) => return Some(failure),
        None => {}
    }
    too_long(machine, c, answer, wanted, monitor)
}
