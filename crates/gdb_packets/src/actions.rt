//! How the program goes on.

ghost use Rattle.std.specs.Prelude.{◌≡◌};
ghost use Rattle.evm_text.specs.Reading.{ReadsAs};
ghost use Rattle.gdb_packets.specs.Commands.{acted, action_named, follows, is_end, pace_at, resume_said, signal_behind};

use crate::command::{Command, Pace};
use crate::fields::thread_at;
use evm_text::after_word;

// What is behind the two digits of a signal.
fn signal_behind(bytes: &[u8]) -> Option<&[u8]>
    ensures { ReadsAs (λ x. x.now) result (signal_behind bytes.now) }
{
    match bytes {
        [_, _, rest @ ..] => Some(rest),
        _ => None,
    }
}

// How an action resumes; a signal is of no use here.
#[tactic(auto, unfolding(crate::specs::Commands::pace_at))]
fn pace_at(bytes: &[u8]) -> Option<(Pace, &[u8])>
    ensures { ReadsAs (λ x. (x.0, x.1.now)) result (pace_at bytes.now) }
{
    if let Some(rest) = after_word(b"s", bytes) {
        return Some((Pace::Step, rest));
    }
    if let Some(rest) = after_word(b"c", bytes) {
        return Some((Pace::Continue, rest));
    }
    if let Some(rest) = after_word(b"S", bytes) {
        return Some((Pace::Step, signal_behind(rest)?));
    }
    let rest = after_word(b"C", bytes)?;
    Some((Pace::Continue, signal_behind(rest)?))
}

fn is_end(bytes: &[u8]) -> bool
    ensures { result ≡ is_end bytes.now }
{
    match bytes {
        [] => true,
        [first, ..] => *first == b';',
    }
}

// Whether another action stands behind one.
fn follows(bytes: &[u8]) -> bool
    ensures { result ≡ follows bytes.now }
{
    !bytes.is_empty()
}

// The thread of an action, up to the next action, and whether there is one.
#[tactic(auto, unfolding(crate::specs::Commands::acted))]
fn acted(bytes: &[u8]) -> Option<(Option<u8>, bool)>
    ensures { result ≡ acted bytes.now }
{
    if is_end(bytes) {
        return Some((None, follows(bytes)));
    }
    let (thread, rest) = thread_at(after_word(b":", bytes)?)?;
    if is_end(rest) {
        Some((thread, follows(rest)))
    } else {
        None
    }
}

/// The first action decides; other threads are resumed as the schedule says.
#[tactic(auto, unfolding(crate::specs::Commands::action_named))]
pub(crate) fn action_named(bytes: &[u8]) -> Option<Command>
    ensures { result ≡ action_named bytes.now }
{
    let (pace, rest) = pace_at(bytes)?;
    let (thread, others) = acted(rest)?;
    Some(Command::ResumeThread(pace, thread, others))
}

/// An action with nothing behind it.
#[tactic(auto, unfolding(crate::specs::Commands::resume_said))]
pub(crate) fn resume_said(bytes: &[u8]) -> Option<Command>
    ensures { result ≡ resume_said bytes.now }
{
    let (pace, rest) = pace_at(bytes)?;
    if rest.is_empty() {
        Some(Command::Resume(pace))
    } else {
        None
    }
}
