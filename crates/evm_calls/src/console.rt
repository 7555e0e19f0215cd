ghost use Rattle.std.specs.Prelude.{◌≡◌};
ghost use Rattle.evm_model.specs.InBandCalls.{putc};

use evm_model::Outcome;
use evm_parts::Parts;

/// Call 1: writes the low byte to the console. Returns 0.
#[tactic(auto, unfolding(evm_model::specs::InBandCalls::putc))]
pub fn putc(parts: &mut Parts, byte: u64) -> Outcome
    ensures { (parts.new, result) ≡ putc byte parts.old }
{
    parts.console.push((byte % 256) as u8);
    Outcome::Returns(0)
}
