ghost use Rattle.std.specs.Prelude.{◌≡◌, ◌-◌, true};
ghost use Rattle.evm_model.specs.Bounds.{COUNT_LIMIT, PipesUpTo};
ghost use Rattle.evm_model.specs.Settle.{nudge, wants_nudge};
ghost use Rattle.evm_settle.specs.Nudges.{nudge_one};

use evm_model::{PROCESSOR_LIMIT, Stage};
use evm_parts::{Parts, Pipe, is_other};

// Whether a processor has a better task than its current one, and can be nudged.
pub(crate) fn wants_nudge(parts: &Parts, d: u8, pipe: &Pipe) -> bool
    ensures { result ≡ wants_nudge d pipe.now parts.now }
{
    !pipe.log(Stage::OutOfBand).stalled
        && !pipe.wire().contains(1)
        && is_other(parts.best(d), parts.current(d))
}

// Raises line 1 of another processor that wants it.
pub(crate) fn nudge_one(parts: &mut Parts, c: u8, d: u8)
    requires { PipesUpTo COUNT_LIMIT parts.old.pipes }
    ensures { parts.new ≡ nudge_one c d parts.old }
{
    if d == c {
        return;
    }
    let Some(pipe) = parts.pipe(d) else {
        return;
    };
    if wants_nudge(parts, d, pipe) {
        parts.raise(d, 1);
    }
}

// Whether there is no other processor than c.
#[tactic(auto, using(crate::proofs::Nudges::alone))]
fn is_alone(parts: &Parts, c: u8) -> bool
    ensures { result ≡ true → nudge c parts.now ≡ parts.now }
{
    c == 0 && parts.pipe_count() <= 1
}

// Raises line 1 of each other processor that wants it.
pub(crate) fn nudge(parts: &mut Parts, c: u8)
    requires { PipesUpTo (COUNT_LIMIT - PROCESSOR_LIMIT) parts.old.pipes }
    ensures { parts.new ≡ nudge c parts.old }
{
    if !is_alone(parts, c) {
        nudge_others(parts, c);
    }
}

// As `nudge`, where there may be others. Apart, so that a lone processor has no loop to pass.
#[inline(never)]
fn nudge_others(parts: &mut Parts, c: u8)
    requires { PipesUpTo (COUNT_LIMIT - PROCESSOR_LIMIT) parts.old.pipes }
    ensures { parts.new ≡ nudge c parts.old }
{
    for d in 0..parts.pipe_count() {
        nudge_one(parts, c, d);
    }
}
