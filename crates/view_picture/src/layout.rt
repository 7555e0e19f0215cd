//! Where things stand in the picture, in pixels.

use view_timeline::STRIP;

/// The width of a cell.
pub(crate) const CELL: u32 = 16;

/// Where the first cell begins.
pub(crate) const LEFT: u32 = 104;

/// Where the names of rows begin, in front of their cells.
pub(crate) const NAMES: u32 = 30;

/// Where the first strip begins.
pub(crate) const TOP: u32 = 44;

/// The height of a lane of a processor.
pub(crate) const LANE: u32 = 166;

/// The height of the ruler and the lane of the machine.
pub(crate) const HEAD: u32 = 44;

/// What is left free below a strip.
const GAP: u32 = 22;

/// The height of the legend.
pub(crate) const LEGEND: u32 = 96;

/// The width of a character of a label.
const CHARACTER: u32 = 6;

/// The height of a row of tasks.
pub(crate) const ROW: u32 = 18;

/// Where in a lane its parts begin: three rows of flags, two of the labels of arrows, both stages, raises, receives and events.
pub(crate) const FLAGS: u32 = 11;

pub(crate) const ARROWS: u32 = 44;

pub(crate) const BAND: u32 = 57;

pub(crate) const OUT_OF_BAND: u32 = 72;

pub(crate) const IN_BAND: u32 = 92;

pub(crate) const RAISED: u32 = 112;

pub(crate) const RECEIVED: u32 = 126;

pub(crate) const EVENTS: u32 = 143;

/// The height of a row of labels.
pub(crate) const LABEL: u32 = 11;

/// Where the cell of a number in its strip begins.
pub(crate) fn x_of(column: usize) -> u32 {
    let column = u32::try_from(column).unwrap_or(u32::MAX);
    LEFT.saturating_add(column.saturating_mul(CELL))
}

/// The height of the lanes of mutexes.
fn mutexes_height(mutex_count: u8) -> u32 {
    u32::from(mutex_count).saturating_mul(ROW + 2)
}

/// The height of a strip.
fn strip_height(cpu_count: u8, mutex_count: u8) -> u32 {
    HEAD.saturating_add(u32::from(cpu_count).saturating_mul(LANE))
        .saturating_add(mutexes_height(mutex_count))
        .saturating_add(GAP)
}

/// Where the strip of a number begins.
pub(crate) fn strip_top(strip: usize, cpu_count: u8, mutex_count: u8) -> u32 {
    let strip = u32::try_from(strip).unwrap_or(u32::MAX);
    TOP.saturating_add(strip.saturating_mul(strip_height(cpu_count, mutex_count)))
}

/// Where the lane of a mutex begins, below those of the processors.
pub(crate) fn mutex_y(top: u32, cpu_count: u8, mutex: u8) -> u32 {
    y_of(top, cpu_count, 0).saturating_add(mutexes_height(mutex))
}

/// Where a part of the lane of a processor begins.
pub(crate) fn y_of(top: u32, cpu: u8, part: u32) -> u32 {
    top.saturating_add(HEAD)
        .saturating_add(u32::from(cpu).saturating_mul(LANE))
        .saturating_add(part)
}

/// The width of a picture.
pub(crate) fn width(columns: usize) -> u32 {
    x_of(columns.min(STRIP).max(40)).saturating_add(CELL)
}

/// The width of a label.
pub(crate) fn label_width(text: &str) -> u32 {
    let count = u32::try_from(text.len()).unwrap_or(u32::MAX);
    count.saturating_mul(CHARACTER)
}
