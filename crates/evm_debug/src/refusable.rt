//! Views that are refused if what they show isn't there.

ghost use Rattle.std.specs.Prelude.{◌≡◌, ◌<◌, ◌≤◌, ◌+◌, ◌++◌, Result, length, slice_get, codes, IfOk, IfErr, OnOk, OnErr, IsOkAnd};
ghost use Rattle.std.specs.String.{string_bytes, string_capacity, string_len};
ghost use Rattle.evm_journal.specs.evm_core.Views.{stages_at};
ghost use Rattle.evm_journal.specs.evm_text.Appending.{Appends};
ghost use Rattle.evm_journal.specs.evm_text.Written.{pairs};
ghost use Rattle.evm_debug.specs.Views.{counts_in, counts_shown, mem_of, stages_of};

use crate::views::{push_counts, push_stages};
use evm_dev::Device;
use evm_journal::{Machine, push_pairs};
use evm_model::{POKE_LIMIT, Refusal};
use evm_room::{Refused, push_text};

#[tactic(auto, using(crate::proofs::Below::lengths))]
fn push_bytes(out: &mut String, bytes: &[u8]) -> Result<(), Refused>
    ensures { Appends (pairs bytes.now ++ codes "\n") out.old out.new result }
{
    push_pairs(out, bytes)?;
    push_text(out, "\n")
}

/// Appends bytes of RAM, as far as memory goes, or answers that they are none, too many or outside RAM.
pub(crate) fn push_memory<D: Device>(
    out: &mut String,
    address: u64,
    count: u64,
    machine: &Machine<D>,
) -> Result<Result<(), Refused>, Refusal>
    ensures ok { IfOk result (λ pushed. IsOkAnd (mem_of address count machine.now.board.memory) (λ text. OnOk pushed (string_bytes out.new ≡ string_bytes out.old ++ text))) }
    ensures full { IfOk result (λ pushed. IsOkAnd (mem_of address count machine.now.board.memory) (λ text. OnErr pushed (string_capacity out.old < string_len out.old + length text))) }
    ensures refused { IfOk result (λ pushed. IsOkAnd (mem_of address count machine.now.board.memory) (λ text. IfErr pushed (λ asked. asked ≤ length text))) }
    ensures err { IfErr result (λ refusal. mem_of address count machine.now.board.memory ≡ Result.Err refusal) }
{
    if count == 0 || count > POKE_LIMIT as u64 {
        return Err(Refusal::BadAddress);
    }
    match machine.bytes(address, count) {
        None => Err(Refusal::BadAddress),
        Some(bytes) => Ok(push_bytes(out, bytes)),
    }
}

/// Appends the stages of a processor, as far as memory goes, or answers that there is no such processor.
pub(crate) fn push_cpu_stages<D: Device>(
    out: &mut String,
    c: u8,
    machine: &Machine<D>,
) -> Result<Result<(), Refused>, Refusal>
    ensures ok { IfOk result (λ pushed. IsOkAnd (stages_of c (slice_get machine.now.board.parts.processors c) (stages_at c machine.now.board.parts)) (λ text. OnOk pushed (string_bytes out.new ≡ string_bytes out.old ++ text))) }
    ensures full { IfOk result (λ pushed. IsOkAnd (stages_of c (slice_get machine.now.board.parts.processors c) (stages_at c machine.now.board.parts)) (λ text. OnErr pushed (string_capacity out.old < string_len out.old + length text))) }
    ensures refused { IfOk result (λ pushed. IsOkAnd (stages_of c (slice_get machine.now.board.parts.processors c) (stages_at c machine.now.board.parts)) (λ text. IfErr pushed (λ asked. asked ≤ length text))) }
    ensures err { IfErr result (λ refusal. stages_of c (slice_get machine.now.board.parts.processors c) (stages_at c machine.now.board.parts) ≡ Result.Err refusal) }
{
    let Some(processor) = machine.cpu(c) else {
        return Err(Refusal::NoSuchCpu);
    };
    match machine.stages(c) {
        None => Err(Refusal::NoSuchCpu),
        Some(stages) => Ok(push_stages(out, c, &processor, &stages)),
    }
}

/// Appends the counts of a line, as far as memory goes, or answers that there is no such processor or line.
pub(crate) fn push_line_counts<D: Device>(
    out: &mut String,
    c: u8,
    line: u8,
    machine: &Machine<D>,
) -> Result<Result<(), Refused>, Refusal>
    ensures ok { IfOk result (λ pushed. IsOkAnd (counts_shown (stages_at c machine.now.board.parts) (counts_in c line machine.now.board.parts)) (λ text. OnOk pushed (string_bytes out.new ≡ string_bytes out.old ++ text))) }
    ensures full { IfOk result (λ pushed. IsOkAnd (counts_shown (stages_at c machine.now.board.parts) (counts_in c line machine.now.board.parts)) (λ text. OnErr pushed (string_capacity out.old < string_len out.old + length text))) }
    ensures refused { IfOk result (λ pushed. IsOkAnd (counts_shown (stages_at c machine.now.board.parts) (counts_in c line machine.now.board.parts)) (λ text. IfErr pushed (λ asked. asked ≤ length text))) }
    ensures err { IfErr result (λ refusal. counts_shown (stages_at c machine.now.board.parts) (counts_in c line machine.now.board.parts) ≡ Result.Err refusal) }
{
    let Some(_) = machine.stages(c) else {
        return Err(Refusal::NoSuchCpu);
    };
    if line >= machine.line_count() {
        return Err(Refusal::NoSuchLine);
    }
    match machine.counts(c, line) {
        None => Err(Refusal::NoSuchLine),
        Some(counts) => Ok(push_counts(out, &counts)),
    }
}
