ghost use Rattle.std.specs.Prelude.{◌≡◌, ◌≤◌, ◌+◌, ◌-◌, ℕ, true, slice_get, IfSome, Option};
ghost use Rattle.evm_model.specs.Bounds.{COUNT_LIMIT, PER_IN_BAND_LOG, PER_OOB_LOG, PER_SETTLING, HasStamps, PipesUpTo};
ghost use Rattle.evm_model.specs.Settle.{turn_in_band, settle_in_band, run_in_band, nudge, settle_and_nudge, play_in_band_pipe};
ghost use Rattle.evm_model.specs.Watch.{watch, rest_watch};
ghost use Rattle.law_rules.specs.Within.{AreWithin};
ghost use Rattle.evm_settle.specs.Steps.{play_oob_pipe, chooses, choose};

use crate::nudging::nudge;
use crate::playing::{play_in_band_lines, play_oob_lines};
use evm_lines::LINES;
use evm_model::Stage;
use evm_parts::Parts;

// Unless it is stalled the out-of-band log is played. Answers whether the best task is to be current then.
#[tactic(auto, unfolding(evm_model::specs::Settle::play_oob_lines))]
fn play_oob_log(parts: &mut Parts, was: Option<u8>, c: u8) -> bool
    requires room { PipesUpTo (COUNT_LIMIT - PER_OOB_LOG) parts.old.pipes }
    requires stamps { HasStamps PER_OOB_LOG parts.old }
    requires clock { parts.old.ticks ≤ COUNT_LIMIT }
    requires notices { parts.old.notices.total + LINES ≤ COUNT_LIMIT }
    ensures row { parts.new ≡ play_oob_pipe (slice_get parts.old.pipes c) was c parts.old }
    ensures stamps { parts.new.stamps ≤ parts.old.stamps + PER_OOB_LOG }
    ensures chooses { result ≡ chooses (slice_get parts.old.pipes c) }
{
    let Some(pipe) = parts.pipe(c) else {
        return false;
    };
    let log = pipe.log(Stage::OutOfBand);
    if log.stalled {
        return false;
    }
    if !log.lines.is_empty() {
        play_oob_lines(parts, was, c, log.lines);
    }
    true
}

// Takes up an in-band task where there is none, and makes it current.
fn run_in_band(parts: &mut Parts, c: u8)
    ensures { parts.new ≡ run_in_band c parts.old }
{
    let Some(processor) = parts.processor(c) else {
        return;
    };
    let task = match processor.in_band_task {
        Some(task) => Some(task),
        None => parts.next_in_band(c),
    };
    parts.run_in_band(c, task);
}

// Unless it is stalled the in-band log is played.
#[tactic(auto, unfolding(evm_model::specs::Settle::play_in_band_lines))]
fn play_in_band_log(parts: &mut Parts, c: u8)
    requires room { PipesUpTo (COUNT_LIMIT - PER_IN_BAND_LOG) parts.old.pipes }
    requires stamps { HasStamps PER_IN_BAND_LOG parts.old }
    ensures { parts.new ≡ play_in_band_pipe (slice_get parts.old.pipes c) c parts.old }
{
    let Some(pipe) = parts.pipe(c) else {
        return;
    };
    let log = pipe.log(Stage::InBand);
    if log.stalled {
        return;
    }
    if !log.lines.is_empty() {
        play_in_band_lines(parts, c, log.lines);
    }
}

// As `turn_in_band`, where lines may wait in the in-band log. Apart, as after most events none does.
#[inline(never)]
#[tactic(auto, unfolding(evm_model::specs::Settle::turn_in_band))]
fn play_and_turn(parts: &mut Parts, c: u8)
    requires room { PipesUpTo (COUNT_LIMIT - PER_IN_BAND_LOG) parts.old.pipes }
    requires stamps { HasStamps PER_IN_BAND_LOG parts.old }
    ensures { parts.new ≡ turn_in_band c parts.old }
{
    play_in_band_log(parts, c);
    run_in_band(parts, c);
}

// Whether the in-band log has nothing to play.
#[tactic(auto, using(crate::proofs::Steps::unplayed))]
fn plays_nothing_in_band(parts: &Parts, c: u8) -> bool
    ensures { result ≡ true → play_in_band_pipe (slice_get parts.now.pipes c) c parts.now ≡ parts.now }
{
    let Some(pipe) = parts.pipe(c) else {
        return true;
    };
    let log = pipe.log(Stage::InBand);
    if log.stalled {
        return true;
    }
    log.lines.is_empty()
}

// The in-band log is played, and an in-band task is current.
#[tactic(auto, unfolding(evm_model::specs::Settle::turn_in_band))]
fn turn_in_band(parts: &mut Parts, c: u8)
    requires room { PipesUpTo (COUNT_LIMIT - PER_IN_BAND_LOG) parts.old.pipes }
    requires stamps { HasStamps PER_IN_BAND_LOG parts.old }
    ensures { parts.new ≡ turn_in_band c parts.old }
{
    if plays_nothing_in_band(parts, c) {
        run_in_band(parts, c);
    } else {
        play_and_turn(parts, c);
    }
}

// The in-band part, where no out-of-band task is current.
#[tactic(auto, unfolding(evm_model::specs::Settle::settle_in_band))]
fn settle_in_band(parts: &mut Parts, c: u8)
    requires room { PipesUpTo (COUNT_LIMIT - PER_IN_BAND_LOG) parts.old.pipes }
    requires stamps { HasStamps PER_IN_BAND_LOG parts.old }
    ensures { parts.new ≡ settle_in_band c parts.old }
{
    if !parts.tasks.is_oob(parts.current(c)) {
        turn_in_band(parts, c);
    }
}

// The best task is current, if it is to be, and the in-band part follows. A best task is out-of-band, so nothing follows it.
#[tactic(auto, using(crate::proofs::Steps::chosen))]
fn choose_and_settle(parts: &mut Parts, c: u8, chooses: bool)
    requires room { AreWithin (COUNT_LIMIT - PER_IN_BAND_LOG) parts.old }
    requires stamps { HasStamps PER_IN_BAND_LOG parts.old }
    ensures { parts.new ≡ settle_in_band c (choose chooses c parts.old) }
{
    if chooses {
        let best = parts.best(c);
        parts.set_current(c, best);
        if best.is_some() && parts.processor(c).is_some() {
            return;
        }
    }
    settle_in_band(parts, c);
}

// What follows once the out-of-band log is played, where a task is ready out-of-band and the watchdog may have counted.
#[inline(never)]
#[tactic(auto, using(crate::proofs::Steps::steps))]
fn settle_watched(parts: &mut Parts, was: Option<u8>, c: u8, chooses: bool)
    requires room { AreWithin (COUNT_LIMIT - PER_IN_BAND_LOG) parts.old }
    requires stamps { HasStamps PER_IN_BAND_LOG parts.old }
    ensures { parts.new ≡ nudge c (rest_watch was c (settle_in_band c (choose chooses c parts.old))) }
{
    choose_and_settle(parts, c, chooses);
    parts.rest_watch(was, c);
    nudge(parts, c);
}

// The same where the watchdog has counted nothing: then it doesn't matter which task was current.
#[tactic(auto, using(crate::proofs::Steps::steps))]
fn settle_unwatched(parts: &mut Parts, c: u8, chooses: bool)
    requires room { AreWithin (COUNT_LIMIT - PER_IN_BAND_LOG) parts.old }
    requires stamps { HasStamps PER_IN_BAND_LOG parts.old }
    requires at_rest { watch c parts.old ≡ 0 }
    ensures { (was : Option ℕ) → parts.new ≡ nudge c (rest_watch was c (settle_in_band c (choose chooses c parts.old))) }
{
    choose_and_settle(parts, c, chooses);
    nudge(parts, c);
}

// What follows once the out-of-band log is played, where a task is ready out-of-band.
fn settle_oob_ready(parts: &mut Parts, was: Option<u8>, c: u8, chooses: bool)
    requires room { AreWithin (COUNT_LIMIT - PER_IN_BAND_LOG) parts.old }
    requires stamps { HasStamps PER_IN_BAND_LOG parts.old }
    ensures { parts.new ≡ nudge c (rest_watch was c (settle_in_band c (choose chooses c parts.old))) }
{
    if parts.watches.is_at_rest() {
        settle_unwatched(parts, c, chooses);
    } else {
        settle_watched(parts, was, c, chooses);
    }
}

// What follows once the out-of-band log is played. Where no task is ready out-of-band no processor has a best one, so the
// in-band part is all of it, and no task is watched.
#[inline(always)]
#[tactic(auto, using(crate::proofs::Quiet::quiet))]
fn settle_played(parts: &mut Parts, was: Option<u8>, c: u8, chooses: bool)
    requires room { AreWithin (COUNT_LIMIT - PER_IN_BAND_LOG) parts.old }
    requires stamps { HasStamps PER_IN_BAND_LOG parts.old }
    ensures { parts.new ≡ nudge c (rest_watch was c (settle_in_band c (choose chooses c parts.old))) }
{
    if parts.has_oob() {
        settle_oob_ready(parts, was, c, chooses);
    } else {
        turn_in_band(parts, c);
        parts.rest(c);
    }
}

// As `settle_and_nudge`, where lines may wait in the out-of-band log. Apart, as after most events none does: a function that
// ends in its calls saves no registers.
#[inline(never)]
#[tactic(auto, using(crate::proofs::Steps::steps))]
fn play_and_settle(parts: &mut Parts, was: Option<u8>, c: u8)
    requires room { AreWithin (COUNT_LIMIT - PER_SETTLING) parts.old }
    requires stamps { HasStamps PER_SETTLING parts.old }
    requires clock { parts.old.ticks ≤ COUNT_LIMIT }
    requires notices { parts.old.notices.total + LINES ≤ COUNT_LIMIT }
    ensures { parts.new ≡ settle_and_nudge was c parts.old }
{
    let chooses = play_oob_log(parts, was, c);
    settle_played(parts, was, c, chooses);
}

// Where the out-of-band log has nothing to play: whether the best task is to be current then.
#[tactic(auto, using(crate::proofs::Steps::unplayed))]
fn chooses_at_once(parts: &Parts, c: u8) -> Option<bool>
    ensures chooses { IfSome result (λ b. b ≡ chooses (slice_get parts.now.pipes c)) }
    ensures plays_nothing { IfSome result (λ _. (was : Option ℕ) → play_oob_pipe (slice_get parts.now.pipes c) was c parts.now ≡ parts.now) }
{
    let Some(pipe) = parts.pipe(c) else {
        return Some(false);
    };
    let oob = pipe.log(Stage::OutOfBand);
    if oob.stalled {
        Some(false)
    } else if oob.lines.is_empty() {
        Some(true)
    } else {
        None
    }
}

/// A processor settles after an event, and tells the others that should run another task. `was` is the task that was
/// current there before the event.
#[tactic(auto, using(crate::proofs::Steps::steps))]
pub fn settle_and_nudge(parts: &mut Parts, was: Option<u8>, c: u8)
    requires room { AreWithin (COUNT_LIMIT - PER_SETTLING) parts.old }
    requires stamps { HasStamps PER_SETTLING parts.old }
    requires clock { parts.old.ticks ≤ COUNT_LIMIT }
    requires notices { parts.old.notices.total + LINES ≤ COUNT_LIMIT }
    ensures { parts.new ≡ settle_and_nudge was c parts.old }
{
    match chooses_at_once(parts, c) {
        Some(chooses) => settle_played(parts, was, c, chooses),
        None => play_and_settle(parts, was, c),
    }
}
