//! Waiting for interrupt lines.

ghost use Rattle.std.specs.Prelude.{◌≡◌};
ghost use Rattle.evm_model.specs.Bounds.{PER_CALL, HasRoom};
ghost use Rattle.evm_model.specs.InBandCalls.{wait_line};

use crate::refused::refused;
use crate::waits::wait_refusal;
use evm_model::{Errno, Outcome, Stage, Wait};
use evm_parts::Parts;

/// Call 6: waits until the line is played in-band on the task's processor. Returns 0 then, -22 if there is no such line,
/// and -1 while the in-band stage is stalled.
#[tactic(auto, unfolding(evm_model::specs::InBandCalls::wait_line))]
pub fn wait_line(parts: &mut Parts, c: u8, t: u8, line: u64) -> Outcome
    requires room { HasRoom PER_CALL parts.old }
    ensures { (parts.new, result) ≡ wait_line c t line parts.old }
{
    if line >= u64::from(parts.line_count()) {
        return refused(Errno::Invalid);
    }
    if let Some(error) = wait_refusal(parts, c, Stage::InBand, None, 0) {
        return refused(error);
    }
    parts.begin_wait(t, Wait::Line(line as u8), 0);
    parts.leave_in_band(c);
    Outcome::Blocks
}
