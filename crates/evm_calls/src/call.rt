//! The ECALL itself.

ghost use Rattle.std.specs.Prelude.{◌≡◌};
ghost use Rattle.evm_exec.specs.declared.hart.Hart.{Hart};
ghost use Rattle.evm_model.specs.Bounds.{PER_CALL, HasRoom, HasStamps};
ghost use Rattle.evm_model.specs.Calls.{perform, return_weak, answered, finish_call, ask_oob, call_on, call_stage, call};
ghost use Rattle.evm_model.specs.Notices.{notify};
ghost use Rattle.evm_model.specs.Profiles.{offered};
ghost use Rattle.evm_model.specs.Tasks.{demote};
ghost use Rattle.evm_model.specs.declared.notice.NoticeKind.TheVariants.{DemotedByCall};
ghost use Rattle.evm_calls.specs.Asking.{IsAsked, IsMade};
ghost use Rattle.evm_parts.specs.evm_task.Asks.{AskedBy};
ghost use Rattle.law_rules.specs.Few.{AreFew};

use crate::actions::set_line;
use crate::clock::clock;
use crate::console::putc;
use crate::deadlines::sleep_until;
use crate::events::{broadcast, event_wait, new_event, signal};
use crate::flags::{flags_post, flags_wait, new_flags};
use crate::lines::wait_line;
use crate::mutexes::{lock, new_mutex, try_lock, unlock};
use crate::policies::{attach, detach, set_mode, set_sched};
use crate::refused::refused;
use crate::semaphores::{new_semaphore, sem_get, sem_put, sem_try_get};
use crate::stages::{migrate, stall, state_bits, switch_in_band, switch_oob};
use crate::tasks::{exit, spawn, yield_now, yield_oob};
use crate::timers::{new_timer, timer_set, timer_wait};
use evm_model::{Call, Errno, MIGRATION_PROFILE, NoticeKind, Outcome, Profile, Stage};
use evm_parts::{Asked, Parts};

// What a call does.
fn perform(parts: &mut Parts, call: Call, asked: Asked, c: u8, t: u8) -> Outcome
    requires room { HasRoom PER_CALL parts.old }
    ensures { (hart : Hart) → AskedBy asked hart → (parts.new, result) ≡ perform call hart c t parts.old }
{
    match call {
        Call::Exit => exit(parts, c, t),
        Call::Putc => putc(parts, asked.first),
        Call::Yield => yield_now(parts, c, t),
        Call::Spawn => spawn(parts, asked.first, asked.second, asked.third),
        Call::Stall => stall(parts, Stage::InBand, true, c),
        Call::Unstall => stall(parts, Stage::InBand, false, c),
        Call::WaitLine => wait_line(parts, c, t, asked.first),
        Call::Attach => attach(parts, t, asked.first, asked.second),
        Call::Detach => detach(parts, t),
        Call::NewMutex => new_mutex(parts, asked.first, asked.second),
        Call::NewSemaphore => new_semaphore(parts, asked.first),
        Call::NewEvent => new_event(parts),
        Call::NewFlags => new_flags(parts),
        Call::NewTimer => new_timer(parts),
        Call::SetLine => set_line(parts, asked.first, asked.second, asked.third),
        Call::SwitchOob => switch_oob(parts),
        Call::SwitchInBand => switch_in_band(parts, c, t),
        Call::SetSched => set_sched(parts, asked.first, asked.second, asked.third),
        Call::SetMode => set_mode(parts, t, asked.first),
        Call::Lock => lock(parts, c, t, asked.first, asked.second),
        Call::TryLock => try_lock(parts, t, asked.first),
        Call::Unlock => unlock(parts, t, asked.first),
        Call::SemGet => sem_get(parts, c, t, asked.first, asked.second),
        Call::SemTryGet => sem_try_get(parts, asked.first),
        Call::SemPut => sem_put(parts, asked.first),
        Call::EventWait => event_wait(parts, c, t, asked.first, asked.second, asked.third),
        Call::Signal => signal(parts, asked.first),
        Call::Broadcast => broadcast(parts, asked.first),
        Call::FlagsWait => flags_wait(parts, c, t, asked.first, asked.second),
        Call::FlagsPost => flags_post(parts, asked.first, asked.second),
        Call::SleepUntil => sleep_until(parts, c, t, asked.first),
        Call::TimerSet => timer_set(parts, c, asked.first, asked.second, asked.third),
        Call::TimerWait => timer_wait(parts, c, t, asked.first),
        Call::YieldOob => yield_oob(parts, t),
        Call::StallOob => stall(parts, Stage::OutOfBand, true, c),
        Call::UnstallOob => stall(parts, Stage::OutOfBand, false, c),
        Call::Clock => clock(parts),
        Call::StateBits => state_bits(parts, c, t),
        Call::Migrate => migrate(parts, c, t, asked.first),
    }
}

// A weak task that owns no mutex stays out-of-band only until its call is answered.
#[tactic(auto, unfolding(evm_model::specs::Calls::return_weak))]
fn return_weak(parts: &mut Parts, c: u8, t: u8)
    requires room { HasStamps 1 parts.old }
    ensures { parts.new ≡ return_weak c t parts.old }
{
    if parts.tasks.is_weak_oob(t) && !parts.owns_any(t) {
        parts.demote(c, t);
    }
}

// A call is answered, or its task waits, or has left.
fn answer(parts: &mut Parts, outcome: Outcome, c: u8, t: u8)
    requires room { HasStamps 1 parts.old }
    ensures { parts.new ≡ answered outcome c t parts.old }
{
    match outcome {
        Outcome::Returns(value) => {
            parts.harts.answer(t, value);
            return_weak(parts, c, t);
        }
        Outcome::Blocks => parts.harts.advance(t),
        Outcome::Exits => {}
    }
}

// What a call does, and what comes of it.
fn finish(parts: &mut Parts, call: Call, asked: Asked, c: u8, t: u8)
    requires room { HasRoom PER_CALL parts.old }
    requires few { AreFew parts.old }
    requires made { IsMade call asked c t parts.old }
    ensures { (hart : Hart) → AskedBy asked hart → parts.new ≡ finish_call c t (perform call hart c t parts.old) }
{
    let outcome = perform(parts, call, asked, c, t);
    answer(parts, outcome, c, t);
}

// A task that may goes out-of-band, its pc unchanged, so that it makes its call again there.
#[tactic(auto, unfolding(evm_model::specs::Calls::ask_oob))]
fn ask_oob(parts: &mut Parts, c: u8, t: u8)
    requires room { HasStamps 1 parts.old }
    ensures { parts.new ≡ ask_oob c t parts.old }
{
    if parts.may_promote(c, t) {
        parts.promote(c, t);
    } else {
        answer(parts, refused(Errno::NotPermitted), c, t);
    }
}

// The task goes in-band, its pc unchanged, so that it makes its call again there. With T_WOSS it gets a notice.
#[tactic(auto, using(crate::proofs::Notices::demoted))]
fn demote(parts: &mut Parts, c: u8, t: u8)
    requires room { HasRoom PER_CALL parts.old }
    ensures { parts.new ≡ notify DemotedByCall t (demote c t parts.old) }
{
    parts.demote(c, t);
    parts.notify(NoticeKind::DemotedByCall, t);
}

// A call of the other stage changes the task's stage first; one of either stage never does.
#[tactic(auto, using(crate::proofs::Asked::made))]
fn call_on(parts: &mut Parts, call: Call, asked: Asked, c: u8, t: u8)
    requires room { HasRoom PER_CALL parts.old }
    requires few { AreFew parts.old }
    requires asked { IsAsked call asked c t parts.old }
    ensures { (hart : Hart) → AskedBy asked hart → parts.new ≡ call_on (call_stage call) call hart c t parts.old }
{
    let is_oob = parts.tasks.is_oob(Some(t));
    match call.stage() {
        Some(Stage::InBand) if is_oob => demote(parts, c, t),
        Some(Stage::OutOfBand) if !is_oob => ask_oob(parts, c, t),
        _ => finish(parts, call, asked, c, t),
    }
}

// A call, unless the profile lacks it.
fn offered(profile: Profile, call: Option<Call>) -> Option<Call>
    ensures { result ≡ offered profile call }
{
    match call {
        Some(Call::Migrate) if profile.version < MIGRATION_PROFILE => None,
        call => call,
    }
}

/// Does the ECALL of the current task of a processor. A call of the in-band kernel by an out-of-band task demotes it; with
/// T_WOSS the task gets a notice. A call of the out-of-band kernel by an in-band task promotes it, or returns -1 where it
/// can't. The pc stays at the ECALL, so the task calls again on the other stage. Returns -38 if the profile has no call of
/// that number.
#[tactic(auto, unfolding(evm_model::specs::Calls::call))]
pub fn call(parts: &mut Parts, c: u8, t: u8)
    requires room { HasRoom PER_CALL parts.old }
    requires few { AreFew parts.old }
    ensures { parts.new ≡ call c t parts.old }
{
    let Some(asked) = parts.harts.asked(t) else {
        return;
    };
    match offered(parts.profile, Call::of_number(asked.number)) {
        None => answer(parts, refused(Errno::NoSuchCall), c, t),
        Some(call) => call_on(parts, call, asked, c, t),
    }
}
