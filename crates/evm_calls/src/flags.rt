//! Flag groups.

ghost use Rattle.std.specs.Prelude.{◌≡◌};
ghost use Rattle.evm_model.specs.Bounds.{PER_CALL, HasRoom};
ghost use Rattle.evm_model.specs.Flags.{flags_post, flags_wait, new_flags};

use crate::refused::refused;
use crate::waits::wait_unless;
use evm_model::{Errno, FLAGS_LIMIT, FLAGS_WORD_LIMIT, Outcome, Wait};
use evm_parts::Parts;

/// Call 12: creates a flag group with the word 0 and returns its number. Returns -12 if there are 32 flag groups.
#[tactic(auto, unfolding(evm_model::specs::Flags::new_flags))]
pub fn new_flags(parts: &mut Parts) -> Outcome
    ensures { (parts.new, result) ≡ new_flags parts.old }
{
    let number = parts.flags.count();
    if number as usize >= FLAGS_LIMIT {
        return refused(Errno::NoNumber);
    }
    parts.add_flags();
    Outcome::Returns(u64::from(number))
}

/// Call 45: returns the word of the flag group and sets it to 0. Waits while it is 0, until `deadline` in ticks if that
/// isn't 0. Returns -22 if there is no such flag group; if it would wait, -1 while the out-of-band stage is stalled, and
/// -110 if the deadline has come, at the call or later.
#[tactic(auto, unfolding(evm_model::specs::Flags::flags_wait))]
pub fn flags_wait(parts: &mut Parts, c: u8, t: u8, flags: u64, deadline: u64) -> Outcome
    requires room { HasRoom PER_CALL parts.old }
    ensures { (parts.new, result) ≡ flags_wait c t flags deadline parts.old }
{
    if flags >= u64::from(parts.flags.count()) {
        return refused(Errno::Invalid);
    }
    let f = flags as u8;
    match parts.flags.get(f) {
        None => refused(Errno::Invalid),
        Some(0) => wait_unless(parts, c, t, Wait::Flags(f), None, deadline),
        Some(word) => {
            parts.set_flags(f, 0);
            Outcome::Returns(u64::from(word))
        }
    }
}

/// Call 46, on either stage: sets bits in the word of the flag group; the first task that waits for it takes the word.
/// Returns 0, or -22 if there is no such flag group, or `bits` is 0 or has more than 32 bits.
#[tactic(auto, unfolding(evm_model::specs::Flags::flags_post))]
pub fn flags_post(parts: &mut Parts, flags: u64, bits: u64) -> Outcome
    requires room { HasRoom PER_CALL parts.old }
    ensures { (parts.new, result) ≡ flags_post flags bits parts.old }
{
    if flags >= u64::from(parts.flags.count()) {
        return refused(Errno::Invalid);
    }
    if bits == 0 || bits > u64::from(FLAGS_WORD_LIMIT) {
        return refused(Errno::Invalid);
    }
    parts.post(flags as u8, bits as u32);
    Outcome::Returns(0)
}
