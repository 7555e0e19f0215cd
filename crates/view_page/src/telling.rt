//! The entries of a journal that is walked, written one behind the other.

ghost use Rattle.std.specs.Prelude.{◌≡◌, ◌++◌, ◌∷◌, OnOk, ℕ, List, flat_map};
ghost use Rattle.std.specs.String.{string_bytes};
ghost use Rattle.text_markup.specs.Text.{text};
ghost use Rattle.run_walk.specs.Walks.{Walked};
ghost use Rattle.view_page.specs.Entries.{Entry, entries_text, entry_text, head_numbers, mark_numbers};
ghost use Rattle.view_page.specs.Rows.{row_json};
ghost use Rattle.view_page.specs.Pages.{TellsAll};

use crate::details::{Known, put_details, put_task};
use crate::heads::put_head;
use crate::marks::{put_marks, stage_number};
use crate::row::{push_line, push_row, put};
use evm_dev::Device;
use evm_room::{Refused, push_text};
use evm_streams::Meter;
use run_marks::{Mark, Observation};
use run_walk::{Item, Machine, Walk, WalkStop};
use std::alloc::Global;

// Which tasks the processors run.
fn put_running(row: &mut Vec<u64>, observation: &Observation) -> Result<(), Refused> {
    let mut cpu = 0u64;
    for lane in observation.lanes.as_slice() {
        if let Some(running) = lane.running {
            let task = u64::from(running.task);
            put(row, &[100, cpu, task, stage_number(running.stage)])?;
        }
        cpu = cpu.saturating_add(1);
    }
    Ok(())
}

// What is seen of a machine before its first event: its boot numbers, its tasks, and which of them run.
fn put_start<D: Device>(
    row: &mut Vec<u64>,
    machine: &Machine<D>,
    observation: &Observation,
) -> Result<(), Refused> {
    let boot = machine.boot_numbers();
    put(
        row,
        &[
            boot.profile,
            boot.watchdog,
            boot.cpus,
            boot.ram,
            boot.capacity,
        ],
    )?;
    for task in 0..machine.task_count() {
        put_task(row, machine, task)?;
    }
    put_running(row, observation)
}

// The row of an item and its marks.
fn put_item(row: &mut Vec<u64>, item: &Item, marks: &[Mark]) -> Result<(), Refused>
    ensures { OnOk result (row.new.items ≡ row.old.items ++ (head_numbers item.now ++ flat_map mark_numbers marks.now)) }
{
    put_head(row, item)?;
    put_marks(row, marks)
}

// Appends an entry.
fn push_entry(
    out: &mut String,
    row: &mut Vec<u64>,
    item: &Item,
    marks: &[Mark],
    details: &[u64],
) -> Result<(), Refused>
    ensures { OnOk result (string_bytes out.new ≡ string_bytes out.old ++ entry_text (record { item = item.now; marks = marks.now; details = details.now })) }
{
    row.clear();
    put_item(row, item, marks)?;
    push_line(out, row.as_slice(), details)
}

// Appends the row of the start.
fn push_start<D: Device>(
    out: &mut String,
    row: &mut Vec<u64>,
    walk: &Walk<D>,
) -> Result<(), Refused>
    ensures { OnOk result ((start : List ℕ) × (string_bytes out.new ≡ string_bytes out.old ++ text (row_json start))) }
{
    row.clear();
    put_start(row, walk.machine(), walk.observation())?;
    push_row(out, row.as_slice())
}

// Appends the entries of a journal, from the place of a walk on.
fn push_entries<D: Device, M: Meter>(
    alloc: Global,
    out: &mut String,
    walk: &mut Walk<D>,
    meter: &mut M,
) -> Result<(), WalkStop>
    ensures { OnOk result ((entries : List Entry) × TellsAll walk.old entries × (string_bytes out.new ≡ string_bytes out.old ++ flat_map entry_text entries)) }
{
    let mut found = Vec::new(alloc);
    let mut row = Vec::new(alloc);
    let mut details = Vec::new(alloc);
    let mut known = Known::new();
    for _item in walk.next_event()..walk.event_count() {
        known.caller = walk.next_caller();
        let Some(item) = walk.next(&mut found)? else {
            break;
        };
        details.clear();
        put_details(&mut details, walk, &mut known, &item, found.as_slice())?;
        push_entry(out, &mut row, &item, found.as_slice(), details.as_slice())?;
        meter.passed(walk.next_event());
    }
    let _ = walk.next_event();
    Ok(())
}

/// Appends a run in JSON: what is seen before its first event, and an entry for each event or run of quiet Steps.
pub(crate) fn push_run<D: Device, M: Meter>(
    alloc: Global,
    out: &mut String,
    walk: &mut Walk<D>,
    meter: &mut M,
) -> Result<(), WalkStop>
    ensures { OnOk result ((start : List ℕ) × (entries : List Entry) × TellsAll walk.old entries × (string_bytes out.new ≡ string_bytes out.old ++ entries_text start entries)) }
{
    let mut row = Vec::new(alloc);
    push_text(out, "[")?;
    push_start(out, &mut row, walk)?;
    push_entries(alloc, out, walk, meter)?;
    push_text(out, "]")?;
    Ok(())
}
