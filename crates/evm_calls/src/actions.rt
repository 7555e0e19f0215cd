//! The actions of lines.

ghost use Rattle.std.specs.Prelude.{◌≡◌};
ghost use Rattle.evm_model.specs.Actions.{action_of, set_line};

use crate::refused::refused;
use evm_model::{Action, Errno, FLAG_BITS, Outcome};
use evm_parts::Parts;

// The action of a line by a number and an object: 0 none, 1 puts into a semaphore, 2 posts to a flag group, which has the
// bits of lines 0 to 31.
#[tactic(auto, using(crate::proofs::Objects::objects))]
fn action_of(parts: &Parts, line: u8, action: u64, object: u64) -> Option<Action>
    ensures { result ≡ action_of line action object parts.now }
{
    match action {
        0 => Some(Action::Nothing),
        1 if object < u64::from(parts.semaphores.count()) => Some(Action::Puts(object as u8)),
        2 if line < FLAG_BITS && object < u64::from(parts.flags.count()) => {
            Some(Action::Posts(object as u8))
        }
        _ => None,
    }
}

/// Call 14: sets what out-of-band plays of a line do, on all processors: 0 nothing, 1 puts the semaphore `object`, 2 posts
/// the bit of the line's number to the flag group `object`. Returns 0, or -22 if the line isn't 2 to 31 (2 to 63 in profile
/// 3), `action` is above 2, there is no such object, or a line above 31 is to post.
#[tactic(auto, unfolding(evm_model::specs::Actions::set_line))]
pub fn set_line(parts: &mut Parts, line: u64, action: u64, object: u64) -> Outcome
    ensures { (parts.new, result) ≡ set_line line action object parts.old }
{
    if line < 2 || line >= u64::from(parts.line_count()) {
        return refused(Errno::Invalid);
    }
    let Some(action) = action_of(parts, line as u8, action, object) else {
        return refused(Errno::Invalid);
    };
    parts.set_action(line as u8, action);
    Outcome::Returns(0)
}
