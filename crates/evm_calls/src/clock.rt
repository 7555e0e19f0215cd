ghost use Rattle.std.specs.Prelude.{◌≡◌};
ghost use Rattle.evm_model.specs.OobCalls.{clock};

use evm_model::Outcome;
use evm_parts::Parts;

/// Call 53, on either stage: returns the number of ticks since boot.
#[tactic(auto, unfolding(evm_model::specs::OobCalls::clock))]
pub fn clock(parts: &Parts) -> Outcome
    ensures { (parts.now, result) ≡ clock parts.now }
{
    Outcome::Returns(parts.ticks)
}
