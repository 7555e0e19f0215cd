//! The words of a device.

ghost use Rattle.std.specs.Prelude.{◌≡◌, ◌<◌, ◌≤◌, ◌+◌, ◌++◌, Option, Result, length, slice_get, IfOk, IfErr, OnOk, OnErr, IsOkAnd};
ghost use Rattle.std.specs.String.{string_bytes, string_capacity, string_len};
ghost use Rattle.evm_journal.specs.evm_text.Appending.{Appends};
ghost use Rattle.evm_debug.specs.Pieces.{words_in};
ghost use Rattle.evm_debug.specs.Views.{blank_word, words_below, words_text, words_of};

use crate::piece::{Piece, push_pieces};
use evm_dev::Device;
use evm_journal::{Machine, Refusal};
use evm_room::{Refused, push_text};

fn push_word(out: &mut String, word: u64) -> Result<(), Refused>
    ensures { Appends (blank_word (Option.Some word)) out.old out.new result }
{
    let pieces = [Piece::Text(" "), Piece::Word(word)];
    push_pieces(out, &pieces)
}

// The words of a device, each behind a blank; none if there is no such device.
fn push_each_word<D: Device>(out: &mut String, i: u8, machine: &Machine<D>) -> Result<(), Refused>
    ensures { Appends (words_below (length (words_in (slice_get machine.now.board.memory.devices i))) (words_in (slice_get machine.now.board.memory.devices i))) out.old out.new result }
{
    machine.rules();
    let mut k = 0usize;
    'words: while let Some(word) = machine.device_word(i, k) {
        push_word(out, word)?;
        k += 1;
    }
    Ok(())
}

#[tactic(auto, using(crate::proofs::Below::lengths))]
fn push_words<D: Device>(out: &mut String, i: u8, machine: &Machine<D>) -> Result<(), Refused>
    ensures { Appends (words_text (words_in (slice_get machine.now.board.memory.devices i))) out.old out.new result }
{
    push_text(out, "words")?;
    push_each_word(out, i, machine)?;
    push_text(out, "\n")
}

/// Appends the words of a device, as far as memory goes, or answers that there is no such device.
pub(crate) fn push_device<D: Device>(
    out: &mut String,
    i: u8,
    machine: &Machine<D>,
) -> Result<Result<(), Refused>, Refusal>
    ensures ok { IfOk result (λ pushed. IsOkAnd (words_of (slice_get machine.now.board.memory.devices i)) (λ text. OnOk pushed (string_bytes out.new ≡ string_bytes out.old ++ text))) }
    ensures full { IfOk result (λ pushed. IsOkAnd (words_of (slice_get machine.now.board.memory.devices i)) (λ text. OnErr pushed (string_capacity out.old < string_len out.old + length text))) }
    ensures refused { IfOk result (λ pushed. IsOkAnd (words_of (slice_get machine.now.board.memory.devices i)) (λ text. IfErr pushed (λ asked. asked ≤ length text))) }
    ensures err { IfErr result (λ refusal. words_of (slice_get machine.now.board.memory.devices i) ≡ Result.Err refusal) }
{
    if usize::from(i) < machine.device_count() {
        Ok(push_words(out, i, machine))
    } else {
        Err(Refusal::NoSlot)
    }
}
