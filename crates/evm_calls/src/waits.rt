//! How a task waits, or why it may not.

ghost use Rattle.std.specs.Prelude.{◌≡◌};
ghost use Rattle.evm_model.specs.Bounds.{PER_CALL, HasRoom};
ghost use Rattle.evm_model.specs.Stages.{is_stalled, late, wait_refusal, wait_unless};
ghost use Rattle.evm_model.specs.declared.stage.Stage.TheVariants.{OutOfBand};

use crate::refused::refused;
use evm_model::{Errno, Outcome, Stage, Wait};
use evm_parts::Parts;

// A deadline that has come; 0 is none.
fn late(now: u64, deadline: u64) -> Option<Errno>
    ensures { result ≡ late now deadline }
{
    if deadline != 0 && deadline <= now {
        Some(Errno::TimedOut)
    } else {
        None
    }
}

/// Returns why a call may not wait on a stage, the first of: -1 if the stage is stalled, the call's own reason, -110 if its
/// deadline has come.
pub fn wait_refusal(
    parts: &Parts,
    c: u8,
    stage: Stage,
    own: Option<Errno>,
    deadline: u64,
) -> Option<Errno>
    ensures { result ≡ wait_refusal (is_stalled stage c parts.now) own parts.now.ticks deadline }
{
    if parts.is_stalled(c, stage) {
        return Some(Errno::NotPermitted);
    }
    match own {
        Some(error) => Some(error),
        None => late(parts.ticks, deadline),
    }
}

/// The task waits out-of-band, until `deadline` in ticks if that isn't 0, unless `wait_refusal` has a reason, which is
/// returned.
pub fn wait_unless(
    parts: &mut Parts,
    c: u8,
    t: u8,
    wait: Wait,
    own: Option<Errno>,
    deadline: u64,
) -> Outcome
    requires room { HasRoom PER_CALL parts.old }
    ensures { (parts.new, result) ≡ wait_unless (wait_refusal (is_stalled OutOfBand c parts.old) own parts.old.ticks deadline) t wait deadline parts.old }
{
    if let Some(error) = wait_refusal(parts, c, Stage::OutOfBand, own, deadline) {
        return refused(error);
    }
    parts.begin_wait(t, wait, deadline);
    Outcome::Blocks
}
