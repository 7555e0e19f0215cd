//! The picture of a timeline.

ghost use Rattle.std.specs.Prelude.{◌≡◌, ◌<◌, false, IfOk, length};
ghost use Rattle.view_picture.specs.Boxes.{boxes_of, lane_boxes, strip_boxes, with_boxes};
ghost use Rattle.text_markup.specs.Xml.{IsElement};

use crate::arrows::arrow_sign;
use crate::bars::{Row, Subject, bar_names, bars, stalls};
use crate::events::{EventLane, boxes};
use crate::flags::flag_sign;
use crate::layout::{
    CELL, EVENTS, IN_BAND, LEFT, LEGEND, NAMES, OUT_OF_BAND, RAISED, RECEIVED, ROW, mutex_y,
    strip_top, width, x_of, y_of,
};
use crate::legend::legend;
use crate::lines::{Place, line_sign};
use crate::names::mutex_name;
use crate::parting::{Fork, parting_sign};
use crate::room::Rows;
use crate::shapes::{label, plain};
use crate::sheet::{begun, heading};
use evm_model::{PROCESSOR_LIMIT, Stage};
use evm_room::Refused;
use std::alloc::Global;
use text_markup::{Draft, Key, Tag, finished};
use view_timeline::{
    Cell, Naming, Picture, Piece, STRIP, Shown, column_in, column_of, say, stage_name, strip_count,
};

// Cells that stand side by side, with their marks.
#[derive(Clone, Copy)]
struct Strip<'a> {
    alloc: Global,
    cells: &'a [Cell],
    marks: &'a [Shown],
    naming: Naming<'a>,
    top: u32,
    cpu_count: u8,
    mutex_count: u8,
    // where two journals part
    fork: Option<Fork>,
}

fn cpu_name(alloc: Global, cpu: u8) -> Result<String, Refused> {
    let mut name = String::new(alloc);
    say(
        &mut name,
        &[Piece::Text("cpu "), Piece::Number(u64::from(cpu))],
    )?;
    Ok(name)
}

fn stage_row<'a>(strip: &Strip<'a>, cpu: u8, stage: Stage, part: u32) -> Row<'a> {
    Row {
        alloc: strip.alloc,
        subject: Subject::Stage(cpu, stage),
        y: y_of(strip.top, cpu, part),
        naming: strip.naming,
    }
}

fn rows_of<'a>(strip: &Strip<'a>, cpu: u8) -> [Row<'a>; 2] {
    [
        stage_row(strip, cpu, Stage::OutOfBand, OUT_OF_BAND),
        stage_row(strip, cpu, Stage::InBand, IN_BAND),
    ]
}

fn row_words(row: &Row<'_>) -> Result<String, Refused> {
    match row.subject {
        Subject::Mutex(mutex) => mutex_name(row.alloc, mutex, row.naming),
        Subject::Stage(_, stage) => {
            let mut words = String::new(row.alloc);
            say(&mut words, &[Piece::Text(stage_name(stage))])?;
            Ok(words)
        }
    }
}

fn draw_row(draft: Draft, row: &Row<'_>, cells: &[Cell]) -> Result<Draft, Refused>
    requires content { draft.in_tag ≡ false }
    requires inside { 0 < length draft.tags }
    ensures { IfOk result (λ new. new ≡ draft) }
{
    let sides = [
        (Key::X, LEFT),
        (Key::Y, row.y),
        (Key::Width, x_of(cells.len()).saturating_sub(LEFT)),
        (Key::Height, ROW),
    ];
    let words = row_words(row)?;
    let draft = plain(draft, Tag::Rectangle, "row", &sides)?;
    let draft = label(draft, "d", NAMES, row.y.saturating_add(13), words.as_str())?;
    let draft = bars(draft, row, cells)?;
    let draft = stalls(draft, row, cells)?;
    bar_names(draft, row, cells)
}

// The lanes of the mutexes, below those of the processors.
fn mutex_lanes(draft: Draft, strip: &Strip<'_>) -> Result<Draft, Refused>
    requires content { draft.in_tag ≡ false }
    requires inside { 0 < length draft.tags }
    ensures { IfOk result (λ new. new ≡ draft) }
{
    let mut draft = draft;
    for mutex in 0..strip.mutex_count {
        let row = Row {
            alloc: strip.alloc,
            subject: Subject::Mutex(mutex),
            y: mutex_y(strip.top, strip.cpu_count, mutex),
            naming: strip.naming,
        };
        draft = draw_row(draft, &row, strip.cells)?;
    }
    Ok(draft)
}

// The name of a row of a lane, beside it.
fn row_name(
    draft: Draft,
    strip: &Strip<'_>,
    cpu: u8,
    part: u32,
    name: &str,
) -> Result<Draft, Refused>
    requires content { draft.in_tag ≡ false }
    requires inside { 0 < length draft.tags }
    ensures { IfOk result (λ new. new ≡ draft) }
{
    let y = y_of(strip.top, cpu, part).saturating_add(11);
    label(draft, "d", NAMES, y, name)
}

fn lane(draft: Draft, strip: &Strip<'_>, cpu: u8) -> Result<Draft, Refused>
    requires content { draft.in_tag ≡ false }
    requires inside { 0 < length draft.tags }
    ensures { IfOk result (λ new. new ≡ with_boxes (lane_boxes cpu strip.now.cells.now) draft) }
{
    let name = cpu_name(strip.alloc, cpu)?;
    let y = y_of(strip.top, cpu, 60);
    let mut draft = label(draft, "b", 8, y, name.as_str())?;
    for one in &rows_of(strip, cpu) {
        draft = draw_row(draft, one, strip.cells)?;
    }
    let draft = row_name(draft, strip, cpu, RAISED, "raised")?;
    let draft = row_name(draft, strip, cpu, RECEIVED, "received")?;
    let draft = row_name(draft, strip, cpu, EVENTS, "events")?;
    let lane = EventLane {
        alloc: strip.alloc,
        naming: strip.naming,
        number: usize::from(cpu),
        y: y_of(strip.top, cpu, EVENTS),
    };
    boxes(draft, &lane, strip.cells)
}

fn tick(draft: Draft, alloc: Global, cell: &Cell, x: u32, top: u32) -> Result<Draft, Refused>
    requires content { draft.in_tag ≡ false }
    requires inside { 0 < length draft.tags }
    ensures { IfOk result (λ new. new ≡ draft) }
{
    let x = x.saturating_add(CELL / 2);
    let sides = [
        (Key::X1, x),
        (Key::Y1, top.saturating_add(13)),
        (Key::X2, x),
        (Key::Y2, top.saturating_add(18)),
    ];
    let draft = plain(draft, Tag::Line, "tick", &sides)?;
    let mut number = String::new(alloc);
    say(&mut number, &[Piece::Number(cell.first)])?;
    label(draft, "r", x, top.saturating_add(10), number.as_str())
}

// The numbers of the events, at each fourth cell.
fn ruler(draft: Draft, strip: &Strip<'_>) -> Result<Draft, Refused>
    requires content { draft.in_tag ≡ false }
    requires inside { 0 < length draft.tags }
    ensures { IfOk result (λ new. new ≡ draft) }
{
    let mut draft = label(draft, "d", 8, strip.top.saturating_add(10), "event")?;
    let mut column = 0usize;
    for cell in strip.cells {
        if column % 4 == 0 {
            draft = tick(draft, strip.alloc, cell, x_of(column), strip.top)?;
        }
        column = column.saturating_add(1);
    }
    Ok(draft)
}

fn sign(
    draft: Draft,
    at: Place<'_>,
    shown: &Shown,
    flags: &mut Rows,
    arrows: &mut Rows,
) -> Result<Draft, Refused>
    requires content { draft.in_tag ≡ false }
    requires inside { 0 < length draft.tags }
    ensures { IfOk result (λ new. new ≡ draft) }
{
    let draft = line_sign(draft, at, shown)?;
    let draft = flag_sign(draft, at, shown, flags)?;
    arrow_sign(draft, at, shown, arrows)
}

// The signs of a cell, of the first marks.
fn cell_signs(
    draft: Draft,
    at: Place<'_>,
    marks: &[Shown],
    flags: &mut Rows,
    arrows: &mut Rows,
) -> Result<Draft, Refused>
    requires content { draft.in_tag ≡ false }
    requires inside { 0 < length draft.tags }
    ensures { IfOk result (λ new. new ≡ draft) }
{
    let mut draft = draft;
    for shown in marks {
        draft = sign(draft, at, shown, flags, arrows)?;
    }
    Ok(draft)
}

// The first marks, and those behind them.
fn cut(marks: &[Shown], count: u32) -> (&[Shown], &[Shown]) {
    let at = (count as usize).min(marks.len());
    (&marks[..at], &marks[at..])
}

fn signs(draft: Draft, strip: &Strip<'_>) -> Result<Draft, Refused>
    requires content { draft.in_tag ≡ false }
    requires inside { 0 < length draft.tags }
    ensures { IfOk result (λ new. new ≡ draft) }
{
    let mut draft = draft;
    let mut flags = Rows::new();
    let mut arrows = Rows::new();
    let mut rest = strip.marks;
    let mut column = 0usize;
    for cell in strip.cells {
        let at = Place {
            alloc: strip.alloc,
            x: x_of(column),
            top: strip.top,
            naming: strip.naming,
        };
        let (marks, others) = cut(rest, cell.kept);
        draft = cell_signs(draft, at, marks, &mut flags, &mut arrows)?;
        rest = others;
        column = column.saturating_add(1);
    }
    Ok(draft)
}

fn draw_strip(draft: Draft, strip: &Strip<'_>) -> Result<Draft, Refused>
    requires content { draft.in_tag ≡ false }
    requires inside { 0 < length draft.tags }
    ensures { IfOk result (λ new. new ≡ with_boxes (strip_boxes strip.now.cpu_count strip.now.cells.now) draft) }
{
    let draft = ruler(draft, strip)?;
    let draft = label(draft, "b", 8, strip.top.saturating_add(33), "machine")?;
    let machine = EventLane {
        alloc: strip.alloc,
        naming: strip.naming,
        number: PROCESSOR_LIMIT,
        y: strip.top.saturating_add(22),
    };
    let mut draft = boxes(draft, &machine, strip.cells)?;
    for cpu in 0..strip.cpu_count {
        draft = lane(draft, strip, cpu)?;
    }
    let draft = signs(draft, strip)?;
    let draft = mutex_lanes(draft, strip)?;
    match strip.fork {
        None => Ok(draft),
        Some(fork) => parting_sign(draft, strip.alloc, strip.top, strip.cpu_count, fork),
    }
}

// How many marks cells keep.
fn kept_in(cells: &[Cell]) -> u32 {
    let mut kept = 0u32;
    for cell in cells {
        kept = kept.saturating_add(cell.kept);
    }
    kept
}

// The strip of a number, of the first cells and marks.
fn strip_of<'a>(
    alloc: Global,
    picture: &Picture<'a>,
    number: usize,
    cells: &'a [Cell],
    marks: &'a [Shown],
) -> Strip<'a>
    ensures cells { result.cells.now ≡ cells.now }
    ensures count { result.cpu_count ≡ picture.now.timeline.now.cpu_count }
{
    let timeline = picture.timeline;
    let fork = match picture.parts {
        None => None,
        Some(event) => {
            let all = timeline.cells.as_slice();
            match column_in(number, column_of(all, event), all.len()) {
                None => None,
                Some(column) => Some(Fork { column, event }),
            }
        }
    };
    Strip {
        alloc,
        cells,
        marks,
        naming: picture.naming,
        top: strip_top(number, timeline.cpu_count, picture.mutex_count()),
        cpu_count: timeline.cpu_count,
        mutex_count: picture.mutex_count(),
        fork,
    }
}

fn strips(draft: Draft, alloc: Global, picture: &Picture<'_>) -> Result<Draft, Refused>
    requires content { draft.in_tag ≡ false }
    requires inside { 0 < length draft.tags }
    ensures { IfOk result (λ new. new ≡ with_boxes (boxes_of picture.now.timeline.now.cpu_count picture.now.timeline.now.cells.items) draft) }
{
    let mut draft = draft;
    let mut cells = picture.timeline.cells.as_slice();
    let mut marks = picture.timeline.marks.as_slice();
    for number in 0..strip_count(cells.len()) {
        let at = STRIP.min(cells.len());
        let (here, others) = cut(marks, kept_in(&cells[..at]));
        let one = strip_of(alloc, picture, number, &cells[..at], here);
        draft = draw_strip(draft, &one)?;
        marks = others;
        cells = &cells[at..];
    }
    Ok(draft)
}

/// The picture of a timeline, an SVG file.
///
/// # Errors
///
/// Memory was refused.
pub fn drawn(alloc: Global, picture: &Picture<'_>) -> Result<Vec<u8>, Refused>
    ensures { IfOk result (λ bytes. ∥ IsElement Tag.Svg (boxes_of picture.now.timeline.now.cpu_count picture.now.timeline.now.cells.items) bytes.items ∥₁) }
{
    let timeline = picture.timeline;
    let end = strip_top(
        strip_count(timeline.cells.len()),
        timeline.cpu_count,
        picture.mutex_count(),
    );
    let width = width(timeline.cells.len());
    let draft = begun(alloc, width, end.saturating_add(LEGEND))?;
    let heading = heading(alloc, timeline)?;
    let draft = label(draft, "b", 8, 22, heading.as_str())?;
    let draft = strips(draft, alloc, picture)?;
    finished(legend(draft, alloc, end)?)
}
