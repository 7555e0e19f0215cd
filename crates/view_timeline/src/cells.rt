//! A window of a journal as a bounded row of cells.

ghost use Rattle.std.specs.Prelude.{◌≡◌, ◌+◌, ◌<◌, ◌==◌, ◌^◌, ◌++◌, ◌∷◌, [], ℕ, List, IfOk, OnOk, drop, get_or, if◌then◌else◌, replicate};
ghost use Rattle.view_timeline.specs.Rows.{Halves, IsRow, Outline, Summarizes, lane_in, event_lane, stretch};
ghost use Rattle.view_timeline.specs.declared.cells.TheConstants.{LANE_LIMIT};

use evm_model::{MUTEX_LIMIT, PROCESSOR_LIMIT, Wait};
use evm_room::{Refused, grow};
use run_marks::{Lane, Mark};
use run_walk::{Event, Item, actor_of};
use std::alloc::Global;

/// The most cells that a timeline has.
pub const CELL_LIMIT: usize = 320;

/// The most marks that are kept of one cell.
pub const MARK_LIMIT: u32 = 8;

/// How many lanes there may be: one for each processor, and behind them that of the machine.
pub const LANE_LIMIT: usize = PROCESSOR_LIMIT + 1;

/// What is seen of a mutex.
#[derive(Clone, Copy)]
pub struct Held {
    pub owner: Option<u8>,
    /// A task waits for it.
    pub waited: bool,
}

/// What is seen of a machine.
#[derive(Clone, Copy)]
pub struct Seen {
    pub lanes: [Option<Lane>; PROCESSOR_LIMIT],
    pub mutexes: [Held; MUTEX_LIMIT],
}

/// What an event did.
#[derive(Clone, Copy)]
pub enum Deed {
    /// The machine differs by this.
    Mark(Mark),
    /// A task's put, signal or post of this object woke no task.
    Wasted(u8, Wait),
}

/// What an event did, with what is said beside it.
#[derive(Clone, Copy)]
pub struct Shown {
    pub deed: Deed,
    /// The number of its event.
    pub event: u64,
    /// The processor of the event.
    pub actor: Option<u8>,
    /// The processor of the task, line or stage that it is about.
    pub subject: Option<u8>,
    /// The task that owns the mutex that is waited for.
    pub owner: Option<u8>,
}

/// Neighbouring events that are drawn in one column.
#[derive(Clone, Copy)]
pub struct Cell {
    /// The number of its first event.
    pub first: u64,
    /// How many events it has, at least 1.
    pub count: u64,
    /// How many of them are of each processor, and behind those how many have none.
    pub shares: [u64; LANE_LIMIT],
    /// How many of them are Steps.
    pub steps: u64,
    /// How many events and runs were joined.
    pub items: u64,
    /// The first event.
    pub event: Event<u8>,
    /// Where its instruction is, if it is a Step.
    pub pc: Option<u64>,
    /// What was seen before its first event.
    pub seen: Seen,
    /// How many of its marks are kept.
    pub kept: u32,
    /// How many are not.
    pub dropped: u64,
}

/// A window of a journal.
#[derive(Drop)]
pub struct Timeline {
    /// How many processors there are.
    pub cpu_count: u8,
    /// How many mutexes there are behind the window.
    pub mutex_count: u8,
    /// The cells, one behind the other.
    pub cells: Vec<Cell>,
    /// Their marks, one behind the other.
    pub marks: Vec<Shown>,
    // how many events and runs a cell has
    span: u64,
}

fn lane_index(lane: Option<u8>) -> usize
    ensures lane { result ≡ lane_in lane }
    ensures limit { result < LANE_LIMIT }
{
    match lane {
        Some(cpu) => usize::from(cpu).min(PROCESSOR_LIMIT),
        None => PROCESSOR_LIMIT,
    }
}

// How many events of an item are of each lane.
fn shares_of(item: &Item) -> [u64; LANE_LIMIT]
    ensures { (lane : ℕ) → lane < LANE_LIMIT → get_or result lane 0 ≡ (if event_lane item.now.event == lane then item.now.count else 0) }
{
    let mut shares = [0; LANE_LIMIT];
    shares[lane_index(actor_of(&item.event))] = u64::from(item.count);
    shares
}

// How many of the events of an item are Steps.
fn steps_of(item: &Item) -> u64 {
    match item.event {
        Event::Step(_) | Event::StepI(_) => u64::from(item.count),
        _ => 0,
    }
}

// How many marks of an item are kept, and how many are not.
#[derive(Clone, Copy)]
struct Kept {
    kept: u32,
    dropped: u64,
}

fn cell_of(item: &Item, seen: &Seen, marks: Kept) -> Cell
    ensures first { result.first ≡ item.now.first }
    ensures count { result.count ≡ item.now.count }
    ensures tells { 0 < item.now.count → Summarizes result (replicate item.now.count item.now.event) }
{
    Cell {
        first: item.first,
        count: u64::from(item.count),
        shares: shares_of(item),
        steps: steps_of(item),
        items: 1,
        event: item.event,
        pc: item.pc,
        seen: *seen,
        kept: marks.kept,
        dropped: marks.dropped,
    }
}

fn summed(one: &[u64; LANE_LIMIT], two: &[u64; LANE_LIMIT]) -> [u64; LANE_LIMIT]
    ensures { (lane : ℕ) → lane < LANE_LIMIT → get_or one.now lane 0 + get_or two.now lane 0 < 2 ^ 64 → get_or result lane 0 ≡ get_or one.now lane 0 + get_or two.now lane 0 }
{
    let mut shares = *one;
    for i in 0..LANE_LIMIT {
        shares[i] = one[i].saturating_add(two[i]);
    }
    shares
}

// How many of so many marks are kept.
fn kept_of(one: u32, two: u32) -> u32 {
    one.saturating_add(two).min(MARK_LIMIT)
}

// The second cell is joined to the first, where that stands.
fn join(one: &mut Cell, two: &Cell)
    ensures first { one.new.first ≡ one.old.first }
    ensures tells { (front back : List Outline) → one.old.count + two.now.count < 2 ^ 64 → Summarizes one.old front → Summarizes two.now back → Summarizes one.new (front ++ back) }
{
    let kept = kept_of(one.kept, two.kept);
    let lost = u64::from(one.kept.saturating_add(two.kept).saturating_sub(kept));
    one.count = one.count.saturating_add(two.count);
    one.shares = summed(&one.shares, &two.shares);
    one.steps = one.steps.saturating_add(two.steps);
    one.items = one.items.saturating_add(two.items);
    one.kept = kept;
    one.dropped = one.dropped.saturating_add(two.dropped).saturating_add(lost);
}

// So many events more of a lane.
fn add_share(shares: &mut [u64; LANE_LIMIT], lane: usize, count: u32)
    requires { lane < LANE_LIMIT }
    ensures { (other : ℕ) → other < LANE_LIMIT → get_or shares.old other 0 + count < 2 ^ 64 → get_or shares.new other 0 ≡ get_or shares.old other 0 + (if lane == other then count else 0) }
{
    shares[lane] = shares[lane].saturating_add(u64::from(count));
}

// An item is joined to a cell, where that stands.
fn join_item(cell: &mut Cell, item: &Item, marks: Kept)
    ensures first { cell.new.first ≡ cell.old.first }
    ensures tells { (front : List Outline) → cell.old.count + item.now.count < 2 ^ 64 → Summarizes cell.old front → Summarizes cell.new (front ++ replicate item.now.count item.now.event) }
{
    cell.count = cell.count.saturating_add(u64::from(item.count));
    add_share(
        &mut cell.shares,
        lane_index(actor_of(&item.event)),
        item.count,
    );
    cell.steps = cell.steps.saturating_add(steps_of(item));
    cell.items = cell.items.saturating_add(1);
    cell.kept = cell.kept.saturating_add(marks.kept);
    cell.dropped = cell.dropped.saturating_add(marks.dropped);
}

fn put<T: Drop>(items: &mut Vec<T>, item: T) -> Result<(), Refused>
    ensures { OnOk result (items.new.items ≡ items.old.items ++ item ∷ []) }
{
    grow(items, 1)?;
    items.push_reserved(item);
    Ok(())
}

// Appends the first marks of a slice.
fn copy_marks(to: &mut Vec<Shown>, from: &[Shown], count: u32) -> Result<(), Refused> {
    for shown in from.iter().take(count as usize) {
        put(to, *shown)?;
    }
    Ok(())
}

// The marks behind the first ones.
fn behind(marks: &[Shown], count: u32) -> &[Shown] {
    let at = (count as usize).min(marks.len());
    &marks[at..]
}

// The marks that are kept where each two neighbouring cells are joined.
fn halved_marks(alloc: Global, cells: &[Cell], marks: &[Shown]) -> Result<Vec<Shown>, Refused> {
    let mut new = Vec::new(alloc);
    let mut left = marks;
    let mut rest = cells;
    while let [one, two, others @ ..] = rest {
        copy_marks(&mut new, left, kept_of(one.kept, two.kept))?;
        left = behind(left, one.kept.saturating_add(two.kept));
        rest = others;
    }
    if let Some(cell) = rest.first() {
        copy_marks(&mut new, left, cell.kept)?;
    }
    Ok(new)
}

// A cell more, which is joined to the last.
fn put_joined(cells: &mut Vec<Cell>, cell: &Cell) -> Result<(), Refused>
    ensures { (events : List Outline) (from : ℕ) → cell.now.first + cell.now.count < 2 ^ 64 → 0 < cell.now.count → Summarizes cell.now (stretch events cell.now.first cell.now.count)
        → IsRow events from cells.old.items cell.now.first → OnOk result (IsRow events from cells.new.items (cell.now.first + cell.now.count)) }
{
    let last = cells.len().saturating_sub(1);
    match cells.get_mut(last) {
        Some(last) => {
            join(last, cell);
            Ok(())
        }
        None => put(cells, *cell),
    }
}

// A cell more, joined to the last or not.
fn put_cell(cells: &mut Vec<Cell>, cell: &Cell, joins: bool) -> Result<(), Refused>
    ensures { (events : List Outline) (from : ℕ) → cell.now.first + cell.now.count < 2 ^ 64 → 0 < cell.now.count → Summarizes cell.now (stretch events cell.now.first cell.now.count)
        → IsRow events from cells.old.items cell.now.first → OnOk result (IsRow events from cells.new.items (cell.now.first + cell.now.count)) }
{
    if joins {
        put_joined(cells, cell)
    } else {
        put(cells, *cell)
    }
}

// An item more, joined to the last cell or not. A cell is large: it is made where one begins, no more.
fn put_item(
    cells: &mut Vec<Cell>,
    item: &Item,
    seen: &Seen,
    marks: Kept,
    joins: bool,
) -> Result<(), Refused>
    ensures { (events : List Outline) (from : ℕ) → item.now.first + item.now.count < 2 ^ 64 → 0 < item.now.count
        → stretch events item.now.first item.now.count ≡ replicate item.now.count item.now.event → IsRow events from cells.old.items item.now.first
        → OnOk result (IsRow events from cells.new.items (item.now.first + item.now.count)) }
{
    if !joins {
        return put(cells, cell_of(item, seen, marks));
    }
    let last = cells.len().saturating_sub(1);
    match cells.get_mut(last) {
        Some(last) => {
            join_item(last, item, marks);
            Ok(())
        }
        None => put(cells, cell_of(item, seen, marks)),
    }
}

// A cell more by its number, if there is one: each second is joined to the one before it.
fn put_numbered(new: &mut Vec<Cell>, cells: &[Cell], i: usize) -> Result<(), Refused>
    ensures { (events : List Outline) (from to : ℕ) → to < 2 ^ 64 → Halves events from (drop i cells.now) to new.old.items → OnOk result (Halves events from (drop (i + 1) cells.now) to new.new.items) }
{
    match cells.get(i) {
        None => Ok(()),
        Some(cell) => put_cell(new, cell, i % 2 == 1),
    }
}

// Each two neighbouring cells joined.
fn halved(alloc: Global, cells: &[Cell]) -> Result<Vec<Cell>, Refused>
    ensures { (events : List Outline) (from to : ℕ) → to < 2 ^ 64 → IsRow events from cells.now to → IfOk result (λ new. IsRow events from new.items to) }
{
    let mut new = Vec::new(alloc);
    for i in 0..cells.len() {
        put_numbered(&mut new, cells, i)?;
    }
    Ok(new)
}

// How many marks the last cell keeps, if it has room for one event or run more.
fn room_of(cells: &[Cell], span: u64) -> Option<u32> {
    match cells.last() {
        Some(cell) if cell.items < span => Some(cell.kept),
        _ => None,
    }
}

// Appends the marks that are kept of those found, beside so many: how many.
fn keep(marks: &mut Vec<Shown>, found: &[Shown], before: u32) -> Result<u32, Refused> {
    let room = MARK_LIMIT.saturating_sub(before);
    let kept = u32::try_from(found.len()).unwrap_or(u32::MAX).min(room);
    copy_marks(marks, found, kept)?;
    Ok(kept)
}

impl Timeline {
    /// No cell. Takes no memory.
    pub fn new(alloc: Global, cpu_count: u8) -> Timeline
        ensures cells { result.cells.items ≡ [] }
        ensures count { result.cpu_count ≡ cpu_count }
    {
        Timeline {
            cpu_count,
            mutex_count: 0,
            cells: Vec::new(alloc),
            marks: Vec::new(alloc),
            span: 1,
        }
    }

    // Joins each two neighbouring cells.
    fn halve(&mut self, alloc: Global) -> Result<(), Refused>
        ensures row { (events : List Outline) (from to : ℕ) → to < 2 ^ 64 → IsRow events from self.old.cells.items to → OnOk result (IsRow events from self.new.cells.items to) }
        ensures count { self.new.cpu_count ≡ self.old.cpu_count }
    {
        let marks = halved_marks(alloc, self.cells.as_slice(), self.marks.as_slice())?;
        let cells = halved(alloc, self.cells.as_slice())?;
        self.marks = marks;
        self.cells = cells;
        self.span = self.span.saturating_mul(2);
        Ok(())
    }

    // Joins them, where there are as many cells as there may be.
    fn bound(&mut self, alloc: Global) -> Result<(), Refused>
        ensures row { (events : List Outline) (from to : ℕ) → to < 2 ^ 64 → IsRow events from self.old.cells.items to → OnOk result (IsRow events from self.new.cells.items to) }
        ensures count { self.new.cpu_count ≡ self.old.cpu_count }
    {
        if self.cells.len() >= CELL_LIMIT {
            self.halve(alloc)
        } else {
            Ok(())
        }
    }

    /// An event or a run more, with what was seen before it and its marks. Where the cells stood one behind the other up to it,
    /// they do so up to its end.
    pub fn add(
        &mut self,
        alloc: Global,
        item: &Item,
        seen: &Seen,
        found: &[Shown],
    ) -> Result<(), Refused>
        ensures row { (events : List Outline) (from : ℕ) → item.now.first + item.now.count < 2 ^ 64 → 0 < item.now.count
            → stretch events item.now.first item.now.count ≡ replicate item.now.count item.now.event → IsRow events from self.old.cells.items item.now.first
            → OnOk result (IsRow events from self.new.cells.items (item.now.first + item.now.count)) }
        ensures count { self.new.cpu_count ≡ self.old.cpu_count }
    {
        let room = room_of(self.cells.as_slice(), self.span);
        let kept = keep(&mut self.marks, found, room.unwrap_or(0))?;
        let dropped = (found.len() as u64).saturating_sub(u64::from(kept));
        let marks = Kept { kept, dropped };
        put_item(&mut self.cells, item, seen, marks, room.is_some())?;
        self.bound(alloc)
    }
}
