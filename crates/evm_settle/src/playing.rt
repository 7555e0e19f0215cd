ghost use Rattle.std.specs.Prelude.{◌≡◌, ◌≤◌, ◌<◌, ◌+◌, ◌-◌, length};
ghost use Rattle.evm_model.specs.Bounds.{COUNT_LIMIT, PER_IN_BAND_LOG, PER_OOB_LINE, PER_OOB_LOG, HasStamps, PipesUpTo};
ghost use Rattle.evm_model.specs.Settle.{play_tick, play_oob, play_in_band, play_oob_lines, play_in_band_lines};

use evm_lines::{LINES, LineSet};
use evm_model::{Stage, TASK_LIMIT};
use evm_parts::Parts;

// Plays the timer's line: it goes on into the in-band log, waits end by their deadlines, timers expire, the slice of the
// task that was current takes a tick, and so does the watchdog. Apart, so that other lines have the registers.
#[inline(never)]
#[tactic(auto, using(crate::proofs::Rooms::clocks), unfolding(evm_model::specs::Settle::play_tick))]
fn play_tick(parts: &mut Parts, was: Option<u8>, c: u8)
    requires room { PipesUpTo COUNT_LIMIT parts.old.pipes }
    requires stamps { HasStamps PER_OOB_LINE parts.old }
    requires clock { parts.old.ticks ≤ COUNT_LIMIT }
    requires notices { parts.old.notices.total ≤ COUNT_LIMIT }
    ensures row { parts.new ≡ play_tick was c parts.old }
    ensures stamps { parts.new.stamps ≤ parts.old.stamps + PER_OOB_LINE }
    ensures notices { parts.new.notices.total ≤ parts.old.notices.total + 1 }
{
    parts.arrive(c, Stage::InBand, 0);
    parts.end_waits(c);
    parts.expire_timers(c);
    parts.spend(was);
    parts.watch_was(was, c);
}

// Plays a line out-of-band: the timer's line, or one that does what its action says.
#[tactic(auto, using(crate::proofs::Rooms::rooms), unfolding(evm_model::specs::Settle::play_oob))]
fn play_oob(parts: &mut Parts, was: Option<u8>, c: u8, line: u8)
    requires line { line < LINES }
    requires room { PipesUpTo (COUNT_LIMIT - 1) parts.old.pipes }
    requires stamps { HasStamps PER_OOB_LINE parts.old }
    requires clock { parts.old.ticks ≤ COUNT_LIMIT }
    requires notices { parts.old.notices.total ≤ COUNT_LIMIT }
    ensures row { parts.new ≡ play_oob was c line parts.old }
    ensures notices { parts.new.notices.total ≤ parts.old.notices.total + 1 }
    ensures stamps { parts.new.stamps ≤ parts.old.stamps + PER_OOB_LINE }
    ensures clock { parts.new.ticks ≡ parts.old.ticks }
{
    parts.play(c, Stage::OutOfBand, line);
    if line == 0 {
        play_tick(parts, was, c);
    } else {
        parts.act(parts.action_at(line), line);
    }
}

// Plays lines out-of-band, the least first. Apart, as after most events there are none.
#[inline(never)]
#[tactic(auto, unfolding(evm_model::specs::Settle::play_oob_lines))]
pub(crate) fn play_oob_lines(parts: &mut Parts, was: Option<u8>, c: u8, lines: LineSet)
    requires few { length lines ≤ LINES }
    requires room { PipesUpTo (COUNT_LIMIT - PER_OOB_LOG) parts.old.pipes }
    requires stamps { HasStamps PER_OOB_LOG parts.old }
    requires clock { parts.old.ticks ≤ COUNT_LIMIT }
    requires notices { parts.old.notices.total + LINES ≤ COUNT_LIMIT }
    ensures row { parts.new ≡ play_oob_lines was c lines parts.old }
    ensures stamps { parts.new.stamps ≤ parts.old.stamps + PER_OOB_LOG }
{
    let mut left = lines;
    'playing: while let Some(line) = left.pop() {
        play_oob(parts, was, c, line);
    }
}

// Plays a line in-band: the tasks that wait for it wake.
#[tactic(auto, unfolding(evm_model::specs::Settle::play_in_band))]
fn play_in_band(parts: &mut Parts, c: u8, line: u8)
    requires line { line < LINES }
    requires room { PipesUpTo COUNT_LIMIT parts.old.pipes }
    requires stamps { HasStamps TASK_LIMIT parts.old }
    ensures row { parts.new ≡ play_in_band c line parts.old }
    ensures stamps { parts.new.stamps ≤ parts.old.stamps + TASK_LIMIT }
{
    parts.play(c, Stage::InBand, line);
    parts.wake_waiters(c, line);
}

// Plays lines in-band, the least first. Apart, as after most events there are none.
#[inline(never)]
#[tactic(auto, unfolding(evm_model::specs::Settle::play_in_band_lines))]
pub(crate) fn play_in_band_lines(parts: &mut Parts, c: u8, lines: LineSet)
    requires few { length lines ≤ LINES }
    requires room { PipesUpTo (COUNT_LIMIT - PER_IN_BAND_LOG) parts.old.pipes }
    requires stamps { HasStamps PER_IN_BAND_LOG parts.old }
    ensures { parts.new ≡ play_in_band_lines c lines parts.old }
{
    let mut left = lines;
    'playing: while let Some(line) = left.pop() {
        play_in_band(parts, c, line);
    }
}
