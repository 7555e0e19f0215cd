//! A failing schedule as a journal, and as a script.

ghost use Rattle.std.specs.Prelude.{IfOk};
ghost use Rattle.std.specs.String.{string_bytes};
ghost use Rattle.evm_model.specs.Replay.{IsReplayOf};
ghost use Rattle.evm_model.specs.State.{State};
ghost use Rattle.evm_journal.specs.JournalLaws.{BringsBack};

use crate::found::Found;
use crate::reporting::{push_events, push_found};
use evm_journal::{push_boot_line, push_decimal, write_journal};
use evm_room::{NoMemory, Refused, push_text};
use hunt_schedules::{AnyDevice, Machine};
use std::alloc::Global;
use text_symbols::Names;

/// The journal of a machine that has failed: replayed from the same boot and image it is that machine.
///
/// # Errors
///
/// Memory was refused.
pub fn journal_text(alloc: Global, found: &Found) -> Result<String, NoMemory>
    ensures { IfOk result (λ text. (first : State) → IsReplayOf first found.now.machine → BringsBack (string_bytes text) first found.now.machine) }
{
    write_journal(alloc, &found.machine)
}

// Appends a comment on what fails.
fn push_head(out: &mut String, found: &Found, seed: u64, names: &Names) -> Result<(), Refused> {
    push_text(out, "# vardozek hunt: ")?;
    push_found(out, found, seed, names)?;
    push_text(out, "\n")
}

// Appends a view of each processor.
fn push_processors(out: &mut String, view: &str, count: u8) -> Result<(), Refused> {
    for c in 0..count {
        push_text(out, view)?;
        push_decimal(out, u64::from(c))?;
        push_text(out, "\n")?;
    }
    Ok(())
}

// Appends the views.
fn push_views(out: &mut String, machine: &Machine<AnyDevice>) -> Result<(), Refused> {
    push_text(out, "# the machine that has failed\n")?;
    push_processors(out, "stages ", machine.cpu_count())?;
    push_text(out, "tasks\nowners\nnotices\n")
}

fn push_script(out: &mut String, found: &Found, seed: u64, names: &Names) -> Result<(), Refused> {
    push_head(out, found, seed, names)?;
    push_boot_line(out, &found.machine.boot_numbers())?;
    push_text(out, "\n")?;
    push_events(out, &found.machine)?;
    push_views(out, &found.machine)
}

/// A script that makes the machine fail and shows it, for `evltool run`.
///
/// # Errors
///
/// Memory was refused.
pub fn failing_script(
    alloc: Global,
    found: &Found,
    seed: u64,
    names: &Names,
) -> Result<String, NoMemory> {
    let mut text = String::new(alloc);
    match push_script(&mut text, found, seed, names) {
        Ok(()) => Ok(text),
        Err(_) => Err(NoMemory),
    }
}
