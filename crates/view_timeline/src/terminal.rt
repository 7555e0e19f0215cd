//! A timeline in characters.

use crate::cells::{Cell, Shown};
use crate::picture::Picture;
use crate::pieces::{Piece, say};
use crate::places::{Naming, push_name};
use crate::seen::{held_in, is_stalled, letter, share, task_on};
use crate::strips::{PARTING, STRIP, column_in, column_of, strip_count};
use crate::words::{push_cell, push_deed};
use evm_model::{PROCESSOR_LIMIT, Stage, Wait};
use evm_room::{Refused, push_text};
use std::alloc::Global;

const TASKS: &str = "0123456789abcdefghijklmnopqrstuvwxyzABCDEFGHIJKLMNOPQRSTUVWXYZ+*";

// The character of a task.
fn task_sign(task: Option<u8>) -> &'static str {
    match task {
        None => ".",
        Some(task) => {
            let at = usize::from(task).min(63);
            TASKS.get(at..at + 1).unwrap_or("?")
        }
    }
}

fn push_tasks(
    out: &mut String,
    name: &str,
    cpu: u8,
    stage: Stage,
    cells: &[Cell],
) -> Result<(), Refused> {
    push_text(out, name)?;
    for cell in cells {
        push_text(out, task_sign(task_on(cell, cpu, stage)))?;
    }
    push_text(out, "\n")
}

fn stall_sign(cell: &Cell, cpu: u8) -> &'static str {
    let oob = is_stalled(cell, cpu, Stage::OutOfBand);
    let in_band = is_stalled(cell, cpu, Stage::InBand);
    match (oob, in_band) {
        (false, false) => ".",
        (true, false) => "o",
        (false, true) => "i",
        (true, true) => "#",
    }
}

fn push_stalls(out: &mut String, cpu: u8, cells: &[Cell]) -> Result<(), Refused> {
    push_text(out, "      stalled     ")?;
    for cell in cells {
        push_text(out, stall_sign(cell, cpu))?;
    }
    push_text(out, "\n")
}

// The sign of a cell on a lane: a letter for an event, a digit for a run or several.
fn cell_sign(cell: &Cell, lane: usize) -> &'static str {
    let share = share(cell, lane);
    if share == 0 {
        return ".";
    }
    if cell.count <= 1 {
        return letter(&cell.event);
    }
    if share < 10 {
        task_sign(Some((share % 10) as u8))
    } else {
        "+"
    }
}

fn push_events(out: &mut String, name: &str, lane: usize, cells: &[Cell]) -> Result<(), Refused> {
    push_text(out, name)?;
    for cell in cells {
        push_text(out, cell_sign(cell, lane))?;
    }
    push_text(out, "\n")
}

fn push_cpu(out: &mut String, cpu: u8, cells: &[Cell]) -> Result<(), Refused> {
    say(out, &[Piece::Text("cpu "), Piece::Number(u64::from(cpu))])?;
    push_tasks(out, " out-of-band ", cpu, Stage::OutOfBand, cells)?;
    push_tasks(out, "      in-band     ", cpu, Stage::InBand, cells)?;
    push_stalls(out, cpu, cells)?;
    push_events(out, "      events      ", usize::from(cpu), cells)
}

const UNITS: [u64; 7] = [1_000_000, 100_000, 10_000, 1_000, 100, 10, 1];

// The digit of a number at a power of ten; a dot where the number is less.
fn digit(number: u64, unit: u64) -> &'static str {
    if number < unit {
        "."
    } else {
        task_sign(Some((number / unit.max(1) % 10) as u8))
    }
}

// The most Steps that a column holds.
fn most_steps(cells: &[Cell]) -> u64 {
    let mut most = 0u64;
    for cell in cells {
        most = most.max(cell.steps);
    }
    most
}

fn push_digits(out: &mut String, name: &str, unit: u64, cells: &[Cell]) -> Result<(), Refused> {
    push_text(out, name)?;
    for cell in cells {
        push_text(out, digit(cell.steps, unit))?;
    }
    push_text(out, "\n")
}

// How many Steps the columns hold, a digit below the other, if one has more than its sign says.
fn push_steps(out: &mut String, cells: &[Cell]) -> Result<(), Refused> {
    let most = most_steps(cells);
    if most < 10 {
        return Ok(());
    }
    let mut name = "steps             ";
    for unit in UNITS {
        if unit <= most {
            push_digits(out, name, unit, cells)?;
            name = "                  ";
        }
    }
    Ok(())
}

// Whether a task waits for a mutex.
fn push_awaited(out: &mut String, mutex: u8, cells: &[Cell]) -> Result<(), Refused> {
    push_text(out, "        awaited   ")?;
    for cell in cells {
        let sign = if held_in(cell, mutex).waited {
            "w"
        } else {
            "."
        };
        push_text(out, sign)?;
    }
    push_text(out, "\n")
}

// Who owns a mutex, its name, and where a task waits for it.
fn push_mutex(
    out: &mut String,
    mutex: u8,
    naming: Naming<'_>,
    cells: &[Cell],
) -> Result<(), Refused> {
    let pieces = [
        Piece::Text("mutex "),
        Piece::Number(u64::from(mutex)),
        Piece::Text(if mutex < 10 {
            " owner     "
        } else {
            " owner    "
        }),
    ];
    say(out, &pieces)?;
    for cell in cells {
        push_text(out, task_sign(held_in(cell, mutex).owner))?;
    }
    push_name(out, naming.run.waited(Wait::Lock(mutex)))?;
    push_text(out, "\n")?;
    push_awaited(out, mutex, cells)
}

// A caret below a column.
fn push_caret(out: &mut String, column: Option<usize>) -> Result<(), Refused> {
    let Some(column) = column else {
        return Ok(());
    };
    push_text(out, "                  ")?;
    for _ in 0..column {
        push_text(out, " ")?;
    }
    say(
        out,
        &[Piece::Text("^ "), Piece::Text(PARTING), Piece::Text("\n")],
    )
}

fn push_strip(
    out: &mut String,
    cells: &[Cell],
    picture: &Picture<'_>,
    column: Option<usize>,
) -> Result<(), Refused> {
    if let (Some(first), Some(last)) = (cells.first(), cells.last()) {
        let end = last.first.saturating_add(last.count.saturating_sub(1));
        let pieces = [
            Piece::Text("events "),
            Piece::Number(first.first),
            Piece::Text(" to "),
            Piece::Number(end),
            Piece::Text("\n"),
        ];
        say(out, &pieces)?;
    }
    push_steps(out, cells)?;
    push_events(out, "machine           ", PROCESSOR_LIMIT, cells)?;
    for cpu in 0..picture.timeline.cpu_count {
        push_cpu(out, cpu, cells)?;
    }
    for mutex in 0..picture.mutex_count() {
        push_mutex(out, mutex, picture.naming, cells)?;
    }
    push_caret(out, column)?;
    push_text(out, "\n")
}

fn push_marks(out: &mut String, naming: Naming<'_>, marks: &[Shown]) -> Result<(), Refused> {
    for shown in marks {
        push_text(out, "    ")?;
        push_deed(out, shown, naming)?;
        push_text(out, "\n")?;
    }
    Ok(())
}

// A cell in words, and its marks, if it has some.
fn push_listed(
    out: &mut String,
    naming: Naming<'_>,
    cell: &Cell,
    marks: &[Shown],
) -> Result<(), Refused> {
    if marks.is_empty() {
        return Ok(());
    }
    push_cell(out, cell, naming)?;
    push_text(out, "\n")?;
    push_marks(out, naming, marks)?;
    if cell.dropped > 0 {
        let pieces = [
            Piece::Text("    and "),
            Piece::Number(cell.dropped),
            Piece::Text(" marks more\n"),
        ];
        return say(out, &pieces);
    }
    Ok(())
}

fn push_list(out: &mut String, picture: &Picture<'_>) -> Result<(), Refused> {
    let mut rest = picture.timeline.marks.as_slice();
    for cell in picture.timeline.cells.as_slice() {
        let at = (cell.kept as usize).min(rest.len());
        push_listed(out, picture.naming, cell, &rest[..at])?;
        rest = &rest[at..];
    }
    Ok(())
}

/// A timeline in characters: for each processor the task that runs on each stage, the stalls and the events; then each event that
/// did more than change registers and RAM, in words. The event where journals part is marked.
///
/// # Errors
///
/// Memory was refused.
pub fn written(alloc: Global, picture: &Picture<'_>) -> Result<String, Refused> {
    let mut out = String::new(alloc);
    let mut cells = picture.timeline.cells.as_slice();
    let count = cells.len();
    let parts = match picture.parts {
        None => None,
        Some(event) => column_of(cells, event),
    };
    for number in 0..strip_count(count) {
        let at = STRIP.min(cells.len());
        let column = column_in(number, parts, count);
        push_strip(&mut out, &cells[..at], picture, column)?;
        cells = &cells[at..];
    }
    push_list(&mut out, picture)?;
    Ok(out)
}
