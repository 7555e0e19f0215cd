//! The sleep.

ghost use Rattle.std.specs.Prelude.{◌≡◌};
ghost use Rattle.evm_model.specs.Bounds.{PER_CALL, HasRoom};
ghost use Rattle.evm_model.specs.Deadlines.{sleep_until};

use crate::waits::wait_unless;
use evm_model::{Outcome, Wait};
use evm_parts::Parts;

/// Call 47: waits until the clock is at least `until`, in ticks. Returns 0, at once if it is already. Returns -1 if it
/// would wait while the out-of-band stage is stalled.
#[tactic(auto, unfolding(evm_model::specs::Deadlines::sleep_until))]
pub fn sleep_until(parts: &mut Parts, c: u8, t: u8, until: u64) -> Outcome
    requires room { HasRoom PER_CALL parts.old }
    ensures { (parts.new, result) ≡ sleep_until c t until parts.old }
{
    if until <= parts.ticks {
        return Outcome::Returns(0);
    }
    wait_unless(parts, c, t, Wait::Sleep, None, until)
}
