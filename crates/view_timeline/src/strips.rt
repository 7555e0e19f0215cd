//! Strips of cells that stand side by side.

ghost use Rattle.std.specs.Prelude.{◌≡◌};
ghost use Rattle.view_timeline.specs.Strips.{strips_of};

use crate::cells::Cell;

/// How many cells stand side by side; those behind them begin the next strip.
pub const STRIP: usize = 64;

/// How many strips there are.
pub fn strip_count(cells: usize) -> usize
    ensures { result ≡ strips_of cells }
{
    cells / STRIP + if cells % STRIP == 0 { 0 } else { 1 }
}

/// What is written beside the event where two journals part.
pub const PARTING: &str = "they part here";

fn is_in(cell: &Cell, event: u64) -> bool {
    cell.first <= event && event < cell.first.saturating_add(cell.count)
}

/// The number of the cell that has an event; that behind the last cell if the event would be the next. None elsewhere.
pub fn column_of(cells: &[Cell], event: u64) -> Option<usize> {
    let mut column = 0usize;
    for cell in cells {
        if is_in(cell, event) {
            return Some(column);
        }
        column = column.saturating_add(1);
    }
    match cells.last() {
        Some(last) if last.first.saturating_add(last.count) == event => Some(column),
        _ => None,
    }
}

/// The column of a cell in a strip, by the numbers of both; `cells` is how many cells there are. None where another strip has it.
pub fn column_in(strip: usize, column: Option<usize>, cells: usize) -> Option<usize> {
    let column = column?;
    let from = strip.saturating_mul(STRIP);
    let here = column.checked_sub(from)?;
    if here < STRIP || (here == STRIP && column == cells) {
        Some(here)
    } else {
        None
    }
}
