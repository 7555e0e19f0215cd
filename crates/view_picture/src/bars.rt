//! Which task runs on which stage and where a stage is stalled; which task owns a mutex and where one waits for it.

ghost use Rattle.std.specs.Prelude.{◌≡◌, ◌<◌, false, IfOk, length};

use crate::layout::{CELL, ROW, x_of};
use crate::names::bar_name;
use crate::shapes::{label, shape};
use evm_model::{Stage, Wait};
use evm_room::Refused;
use std::alloc::Global;
use text_markup::{Draft, Key, Tag};
use view_timeline::{
    Cell, Naming, Piece, held_in, is_stalled, push_task, push_waited, say, stage_name, task_on,
};

/// What a row shows.
#[derive(Clone, Copy)]
pub(crate) enum Subject {
    /// The task that a processor runs on a stage, and stalls.
    Stage(u8, Stage),
    /// The task that owns a mutex, and waits for it.
    Mutex(u8),
}

/// A row of a strip, where it stands, and what its words are made of.
#[derive(Clone, Copy)]
pub(crate) struct Row<'a> {
    pub(crate) alloc: Global,
    pub(crate) subject: Subject,
    pub(crate) y: u32,
    pub(crate) naming: Naming<'a>,
}

// The task of a row, before the events of a cell.
fn task_at(cell: &Cell, row: &Row<'_>) -> Option<u8> {
    match row.subject {
        Subject::Stage(cpu, stage) => task_on(cell, cpu, stage),
        Subject::Mutex(mutex) => held_in(cell, mutex).owner,
    }
}

// Whether a row is shaded there.
fn is_shaded(cell: &Cell, row: &Row<'_>) -> bool {
    match row.subject {
        Subject::Stage(cpu, stage) => is_stalled(cell, cpu, stage),
        Subject::Mutex(mutex) => held_in(cell, mutex).waited,
    }
}

fn same_task(one: Option<u8>, two: Option<u8>) -> bool {
    match (one, two) {
        (None, None) => true,
        (Some(one), Some(two)) => one == two,
        _ => false,
    }
}

/// The class of a task's colour.
pub(crate) fn task_class(task: u8) -> &'static str {
    match task % 8 {
        0 => "t0",
        1 => "t1",
        2 => "t2",
        3 => "t3",
        4 => "t4",
        5 => "t5",
        6 => "t6",
        _ => "t7",
    }
}

// Appends which events cells hold.
fn push_range(out: &mut String, first: &Cell, last: &Cell) -> Result<(), Refused> {
    let end = last.first.saturating_add(last.count.saturating_sub(1));
    if end <= first.first {
        return say(out, &[Piece::Text("event "), Piece::Number(end)]);
    }
    let pieces = [
        Piece::Text("events "),
        Piece::Number(first.first),
        Piece::Text(" to "),
        Piece::Number(end),
    ];
    say(out, &pieces)
}

fn bar_words(row: &Row<'_>, task: u8, first: &Cell, last: &Cell) -> Result<String, Refused> {
    let mut words = String::new(row.alloc);
    push_range(&mut words, first, last)?;
    say(&mut words, &[Piece::Text(": ")])?;
    push_task(&mut words, task, row.naming)?;
    match row.subject {
        Subject::Stage(cpu, stage) => {
            let pieces = [
                Piece::Text(" runs "),
                Piece::Text(stage_name(stage)),
                Piece::Text(" on processor "),
                Piece::Number(u64::from(cpu)),
            ];
            say(&mut words, &pieces)?;
        }
        Subject::Mutex(mutex) => {
            say(&mut words, &[Piece::Text(" owns ")])?;
            push_waited(&mut words, Wait::Lock(mutex), row.naming)?;
        }
    }
    Ok(words)
}

fn shade_words(row: &Row<'_>, first: &Cell, last: &Cell) -> Result<String, Refused> {
    let mut words = String::new(row.alloc);
    push_range(&mut words, first, last)?;
    match row.subject {
        Subject::Stage(cpu, stage) => {
            let pieces = [
                Piece::Text(": the "),
                Piece::Text(stage_name(stage)),
                Piece::Text(" stage of processor "),
                Piece::Number(u64::from(cpu)),
                Piece::Text(" is stalled"),
            ];
            say(&mut words, &pieces)?;
        }
        Subject::Mutex(mutex) => {
            say(&mut words, &[Piece::Text(": a task waits for ")])?;
            push_waited(&mut words, Wait::Lock(mutex), row.naming)?;
        }
    }
    Ok(words)
}

fn span_sides(row: &Row<'_>, column: usize, count: usize) -> [(Key, u32); 4] {
    let x = x_of(column);
    let width = x_of(column.saturating_add(count)).saturating_sub(x);
    [
        (Key::X, x),
        (Key::Y, row.y),
        (Key::Width, width),
        (Key::Height, ROW),
    ]
}

fn bar(
    draft: Draft,
    row: &Row<'_>,
    column: usize,
    cells: &[Cell],
    task: u8,
) -> Result<Draft, Refused>
    requires content { draft.in_tag ≡ false }
    requires inside { 0 < length draft.tags }
    ensures { IfOk result (λ new. new ≡ draft) }
{
    let (Some(first), Some(last)) = (cells.first(), cells.last()) else {
        return Ok(draft);
    };
    let words = bar_words(row, task, first, last)?;
    let at = span_sides(row, column, cells.len());
    shape(draft, Tag::Rectangle, task_class(task), &at, words.as_str())
}

// The name of a task on its bar, of so many cells.
fn named(
    draft: Draft,
    row: &Row<'_>,
    column: usize,
    count: usize,
    task: u8,
) -> Result<Draft, Refused>
    requires content { draft.in_tag ≡ false }
    requires inside { 0 < length draft.tags }
    ensures { IfOk result (λ new. new ≡ draft) }
{
    let width = CELL.saturating_mul(u32::try_from(count).unwrap_or(u32::MAX));
    let name = bar_name(row.alloc, task, row.naming, width)?;
    let x = x_of(column).saturating_add(4);
    let y = row.y.saturating_add(13);
    let class = if task % 8 == 2 || task % 8 == 4 || task % 8 == 5 {
        "n w"
    } else {
        "n k"
    };
    label(draft, class, x, y, name.as_str())
}

fn stall(draft: Draft, row: &Row<'_>, column: usize, cells: &[Cell]) -> Result<Draft, Refused>
    requires content { draft.in_tag ≡ false }
    requires inside { 0 < length draft.tags }
    ensures { IfOk result (λ new. new ≡ draft) }
{
    let (Some(first), Some(last)) = (cells.first(), cells.last()) else {
        return Ok(draft);
    };
    let words = shade_words(row, first, last)?;
    let at = span_sides(row, column, cells.len());
    shape(draft, Tag::Rectangle, "stall", &at, words.as_str())
}

// How many cells from the first on have its task on a row.
fn task_run(cells: &[Cell], row: &Row<'_>, task: Option<u8>) -> usize {
    let mut count = 0usize;
    for cell in cells {
        if !same_task(task_at(cell, row), task) {
            break;
        }
        count = count.saturating_add(1);
    }
    count
}

fn stall_run(cells: &[Cell], row: &Row<'_>, on: bool) -> usize {
    let mut count = 0usize;
    for cell in cells {
        if is_shaded(cell, row) != on {
            break;
        }
        count = count.saturating_add(1);
    }
    count
}

// The first cells.
fn front(cells: &[Cell], count: usize) -> &[Cell] {
    let at = count.min(cells.len());
    &cells[..at]
}

// Whether a cell has another task on a row than the one before it.
fn changes_task(cells: &[Cell], row: &Row<'_>, i: usize) -> bool {
    match (i.checked_sub(1), cells.get(i)) {
        (Some(before), Some(cell)) => match cells.get(before) {
            None => true,
            Some(last) => !same_task(task_at(last, row), task_at(cell, row)),
        },
        _ => true,
    }
}

// Whether a stall of a row begins in a cell.
fn begins_stall(cells: &[Cell], row: &Row<'_>, i: usize) -> bool {
    let now = match cells.get(i) {
        None => false,
        Some(cell) => is_shaded(cell, row),
    };
    let before = match i.checked_sub(1) {
        None => false,
        Some(before) => match cells.get(before) {
            None => false,
            Some(cell) => is_shaded(cell, row),
        },
    };
    now && !before
}

// The run of a task that begins in the first of the cells.
fn task_bar(draft: Draft, row: &Row<'_>, column: usize, cells: &[Cell]) -> Result<Draft, Refused>
    requires content { draft.in_tag ≡ false }
    requires inside { 0 < length draft.tags }
    ensures { IfOk result (λ new. new ≡ draft) }
{
    let Some(cell) = cells.first() else {
        return Ok(draft);
    };
    match task_at(cell, row) {
        None => Ok(draft),
        Some(task) => {
            let count = task_run(cells, row, Some(task));
            bar(draft, row, column, front(cells, count), task)
        }
    }
}

// The name of a task whose run begins in the first of the cells.
fn task_name(draft: Draft, row: &Row<'_>, column: usize, cells: &[Cell]) -> Result<Draft, Refused>
    requires content { draft.in_tag ≡ false }
    requires inside { 0 < length draft.tags }
    ensures { IfOk result (λ new. new ≡ draft) }
{
    let Some(cell) = cells.first() else {
        return Ok(draft);
    };
    match task_at(cell, row) {
        None => Ok(draft),
        Some(task) => {
            let count = task_run(cells, row, Some(task));
            named(draft, row, column, count, task)
        }
    }
}

/// The names of the tasks of a row, on their bars.
pub(crate) fn bar_names(draft: Draft, row: &Row<'_>, cells: &[Cell]) -> Result<Draft, Refused>
    requires content { draft.in_tag ≡ false }
    requires inside { 0 < length draft.tags }
    ensures { IfOk result (λ new. new ≡ draft) }
{
    let mut draft = draft;
    for i in 0..cells.len() {
        if changes_task(cells, row, i) {
            draft = task_name(draft, row, i, &cells[i..])?;
        }
    }
    Ok(draft)
}

/// The bars of the tasks of a row.
pub(crate) fn bars(draft: Draft, row: &Row<'_>, cells: &[Cell]) -> Result<Draft, Refused>
    requires content { draft.in_tag ≡ false }
    requires inside { 0 < length draft.tags }
    ensures { IfOk result (λ new. new ≡ draft) }
{
    let mut draft = draft;
    for i in 0..cells.len() {
        if changes_task(cells, row, i) {
            draft = task_bar(draft, row, i, &cells[i..])?;
        }
    }
    Ok(draft)
}

/// The shades of a row: its stalls, or where a task waits for its mutex.
pub(crate) fn stalls(draft: Draft, row: &Row<'_>, cells: &[Cell]) -> Result<Draft, Refused>
    requires content { draft.in_tag ≡ false }
    requires inside { 0 < length draft.tags }
    ensures { IfOk result (λ new. new ≡ draft) }
{
    let mut draft = draft;
    for i in 0..cells.len() {
        if begins_stall(cells, row, i) {
            let count = stall_run(&cells[i..], row, true);
            draft = stall(draft, row, i, front(&cells[i..], count))?;
        }
    }
    Ok(draft)
}
