ghost use Rattle.std.specs.Prelude.{◌≡◌};
ghost use Rattle.evm_model.specs.Errnos.{refusal_answer};

use evm_model::{Errno, Outcome};

/// Returns from a call at once with an error.
pub fn refused(error: Errno) -> Outcome
    ensures { result ≡ Outcome.Returns (refusal_answer error) }
{
    Outcome::Returns(error.answer())
}
