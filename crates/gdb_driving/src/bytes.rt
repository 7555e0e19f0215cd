//! Parts of answers.

ghost use Rattle.std.specs.Prelude.{◌≡◌, ◌<◌, ◌≤◌, ◌++◌, min, OnOk};
ghost use Rattle.std.specs.Int.{w64, to_le_bytes};
ghost use Rattle.gdb_driving.specs.Shown.{error_text, outcome_text, thread_text, word_text};

use evm_model::Refusal;
use evm_room::{Refused, grow};
use gdb_packets::push_digits;

/// Appends bytes.
pub fn push_bytes(out: &mut Vec<u8>, bytes: &[u8]) -> Result<(), Refused>
    ensures ok { OnOk result (out.new.items ≡ out.old.items ++ bytes.now) }
{
    grow(out, bytes.len())?;
    let Ok(()) = out.extend_from_slice(bytes) else {
        unreachable!();
    };
    Ok(())
}

/// Appends a number of 64 bits as digits, its low byte first.
pub fn push_word(out: &mut Vec<u8>, word: u64) -> Result<(), Refused>
    ensures ok { OnOk result (out.new.items ≡ out.old.items ++ word_text word) }
{
    push_digits(out, &word.to_le_bytes())
}

/// Appends the name of a task as a thread: its number and 1, as two digits. Thread 0 would be any thread.
pub fn push_thread(out: &mut Vec<u8>, task: u8) -> Result<(), Refused>
    ensures ok { OnOk result (out.new.items ≡ out.old.items ++ thread_text task) }
{
    push_digits(out, &[task.wrapping_add(1)])
}

/// Appends `E` and a number as two digits.
pub fn push_error(out: &mut Vec<u8>, number: u8) -> Result<(), Refused>
    ensures ok { OnOk result (out.new.items ≡ out.old.items ++ error_text number) }
{
    push_bytes(out, b"E")?;
    push_digits(out, &[number])
}

/// Appends `OK`, or the error of a refusal.
pub fn push_outcome(out: &mut Vec<u8>, outcome: Result<(), Refusal>) -> Result<(), Refused>
    ensures ok { OnOk result (out.new.items ≡ out.old.items ++ outcome_text outcome) }
{
    match outcome {
        Ok(()) => push_bytes(out, b"OK"),
        Err(refusal) => push_error(out, refusal.number()),
    }
}

/// The length of a part of at most `most` bytes.
pub fn part_len(len: usize, most: usize) -> usize
    requires { 0 < most }
    ensures within { result ≤ len }
    ensures some { 0 < len → 0 < result }
    ensures least { result ≡ min most len }
{
    if len < most { len } else { most }
}
