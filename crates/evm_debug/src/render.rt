ghost use Rattle.std.specs.Prelude.{◌≡◌, ◌<◌, ◌≤◌, ◌+◌, ◌++◌, length, Result, MatchResult, OnOk, OnErr, IfOk, IfErr, IsOkAnd, codes};
ghost use Rattle.std.specs.String.{string_bytes, string_capacity, string_len};
ghost use Rattle.evm_journal.specs.evm_text.Appending.{Appends};
ghost use Rattle.evm_journal.specs.evm_text.Written.{pairs};
ghost use Rattle.evm_debug.specs.Views.{shown, Shows, ViewFails};

use crate::device::push_device;
use crate::health::push_notices;
use crate::line::View;
use crate::look::ViewRefusal;
use crate::refusable::{push_cpu_stages, push_line_counts, push_memory};
use crate::views::{push_owners, push_rank, push_regs, push_tasks};
use evm_dev::Device;
use evm_journal::{Machine, push_journal, push_pairs};
use evm_model::Refusal;
use evm_room::{Refused, push_text};
use std::alloc::Global;

// Appends the text of a view, as far as memory goes, or answers why it is refused.
#[tactic(auto, unfolding(crate::specs::Views::shown))]
fn push_shown<D: Device>(
    out: &mut String,
    machine: &Machine<D>,
    what: &View,
) -> Result<Result<(), Refused>, Refusal>
    ensures ok { IfOk result (λ pushed. IsOkAnd (shown what.now machine.now) (λ text. OnOk pushed (string_bytes out.new ≡ string_bytes out.old ++ text))) }
    ensures full { IfOk result (λ pushed. IsOkAnd (shown what.now machine.now) (λ text. OnErr pushed (string_capacity out.old < string_len out.old + length text))) }
    ensures refused { IfOk result (λ pushed. IsOkAnd (shown what.now machine.now) (λ text. IfErr pushed (λ asked. asked ≤ length text))) }
    ensures err { IfErr result (λ refusal. shown what.now machine.now ≡ Result.Err refusal) }
{
    match what {
        View::Journal => Ok(push_journal(out, machine)),
        View::Regs(c) => match machine.cpu(*c) {
            None => Err(Refusal::NoSuchCpu),
            Some(processor) => Ok(push_regs(out, processor.current, machine)),
        },
        View::Mem(address, count) => push_memory(out, *address, *count, machine),
        View::Stages(c) => push_cpu_stages(out, *c, machine),
        View::Tasks => Ok(push_tasks(out, machine)),
        View::Owners => Ok(push_owners(out, machine)),
        View::Rank(t) => match machine.task(*t) {
            None => Err(Refusal::NoTask),
            Some(_) => Ok(push_rank(out, machine.rank(*t))),
        },
        View::Notices => Ok(push_notices(out, machine)),
        View::Words(i) => push_device(out, *i, machine),
        View::Console => {
            let (older, newer) = machine.console();
            Ok(push_console(out, older, newer))
        }
        View::Counts(c, line) => push_line_counts(out, *c, *line, machine),
    }
}

/// Appends the text of a view.
///
/// # Errors
///
/// `Refused` if the machine refuses the view; `NoMemory` if an allocation fails: then a part of the text may have been appended.
#[tactic(auto, using(crate::proofs::Shown::lacks))]
pub fn push_view<D: Device>(
    out: &mut String,
    machine: &Machine<D>,
    what: &View,
) -> Result<(), ViewRefusal>
    ensures ok { OnOk result (Shows (shown what.now machine.now) (string_bytes out.old) (string_bytes out.new)) }
    ensures err { IfErr result (λ e. ViewFails e (shown what.now machine.now)) }
    // Memory is refused only where there is no room for the text.
    ensures full { result ≡ Result.Err ViewRefusal.NoMemory → IsOkAnd (shown what.now machine.now) (λ text. string_capacity out.old < string_len out.old + length text) }
{
    match push_shown(out, machine, what) {
        Err(refusal) => Err(ViewRefusal::Refused(refusal)),
        Ok(Ok(())) => Ok(()),
        Ok(Err(refused)) => {
            refused.within();
            Err(ViewRefusal::NoMemory)
        }
    }
}

/// The text of a view.
///
/// # Errors
///
/// `Refused` if the machine refuses the view; `NoMemory` if an allocation fails.
#[tactic(auto, using(crate::proofs::Shown::shows_all))]
pub fn view<D: Device>(
    alloc: Global,
    machine: &Machine<D>,
    what: &View,
) -> Result<String, ViewRefusal>
    ensures { MatchResult result (λ text. shown what.now machine.now ≡ Result.Ok (string_bytes text)) (λ e. ViewFails e (shown what.now machine.now)) }
{
    let mut text = String::new(alloc);
    match push_view(&mut text, machine, what) {
        Ok(()) => Ok(text),
        Err(refusal) => Err(refusal),
    }
}

#[tactic(auto, using(crate::proofs::Below::consoles))]
fn push_console(out: &mut String, older: &[u8], newer: &[u8]) -> Result<(), Refused>
    ensures { Appends (pairs (older.now ++ newer.now) ++ codes "\n") out.old out.new result }
{
    push_pairs(out, older)?;
    push_pairs(out, newer)?;
    push_text(out, "\n")?;
    Ok(())
}
