//! The counts of the lines as they were last looked at, and how far an event reaches.

ghost use Rattle.std.specs.Prelude.{◌≡◌, ◌≢◌, ◌<◌, ℕ, List, Option, false, true, length, slice_get};
ghost use Rattle.evm_lines.specs.Lines.{has_line};
ghost use Rattle.evm_lines.specs.declared.TheConstants.{LINES as LINE_LIMIT};
ghost use Rattle.evm_model.specs.Pipes.{Pipe};
ghost use Rattle.evm_model.specs.declared.counts.Counts as count;
ghost use Rattle.evm_model.specs.declared.limits.TheConstants.{PROCESSOR_LIMIT as PROCESSORS};
ghost use Rattle.run_marks.specs.Tallies.{belongs_to_devices, reach_of, waits_in, IsTallyOf, SameRaised};

use evm_dev::Device;
use evm_journal::{Machine, Stages};
use evm_lines::{LINE_COUNT, LineSet};
use evm_model::{Counts, DEVICE_LIMIT, DEVICE_LINE, Event, PROCESSOR_LIMIT, Passage};

/// A Step of a processor.
#[derive(Clone, Copy)]
pub struct Stepped {
    pub cpu: u8,
    /// The lines that waited for the processor before, on its wire or in a log.
    pub waiting: LineSet,
}

/// How far an event reaches.
#[derive(Clone, Copy)]
pub enum Reach {
    /// It only raises this line of this processor.
    ByLine(u8, u8),
    /// It is a Step, which changes counts of the lines that waited, and raises lines.
    ByStep(Stepped),
    /// It may change the counts of every processor.
    All,
}

/// How far an event reaches; `waiting` has the lines that waited for the processor of a Step.
pub fn reach_of(event: &Event<u8>, waiting: LineSet) -> Reach
    ensures { result ≡ reach_of event.now waiting }
{
    match event {
        Event::Step(cpu) => Reach::ByStep(Stepped { cpu: *cpu, waiting }),
        Event::Raise(cpu, line) | Event::Bell(cpu, line) => Reach::ByLine(*cpu, *line),
        Event::Tick
        | Event::Stop(_)
        | Event::Go(_)
        | Event::StepI(_)
        | Event::SetReg(_, _, _)
        | Event::SetPc(_, _)
        | Event::Poke(_, _)
        | Event::Break(_)
        | Event::Unbreak(_) => Reach::All,
    }
}

/// The counts of the lines: row c has those of processor c.
#[derive(Drop)]
pub struct Tally {
    pub rows: [[Counts; LINE_COUNT]; PROCESSOR_LIMIT],
}

const NO_PASSAGE: Passage = Passage {
    arrivals: 0,
    merged: 0,
    played: 0,
};

const NO_COUNTS: Counts = Counts {
    raised: 0,
    merged: 0,
    received: 0,
    oob: NO_PASSAGE,
    in_band: NO_PASSAGE,
};

// The counts of a line are those that it has here.
fn copy_line(row: &mut [Counts], line: u8, counts: &[Counts])
    requires row { line < length row.old }
    requires counts { line < length counts.now }
    ensures here { slice_get row.new line ≡ slice_get counts.now line }
    ensures others { (l : ℕ) → l ≢ line → slice_get row.new l ≡ slice_get row.old l }
{
    row[usize::from(line)] = counts[usize::from(line)];
}

impl Tally {
    /// Nothing is counted yet.
    pub fn new() -> Tally {
        Tally {
            rows: [[NO_COUNTS; LINE_COUNT]; PROCESSOR_LIMIT],
        }
    }

    /// The counts of processor c.
    pub(crate) fn row(&self, c: u8) -> &[Counts]
        requires { c < PROCESSORS }
        ensures here { slice_get self.now.rows c ≡ Option.Some result.now }
        ensures lines { length result.now ≡ LINE_LIMIT }
    {
        &self.rows[usize::from(c)]
    }

    /// The counts of processor c are these.
    pub(crate) fn keep(&mut self, c: u8, counts: &[Counts])
        requires row { c < PROCESSORS }
        requires lines { length counts.now ≡ LINE_LIMIT }
        ensures here { slice_get self.new.rows c ≡ Option.Some counts.now }
        ensures others { (d : ℕ) → d ≢ c → slice_get self.new.rows d ≡ slice_get self.old.rows d }
    {
        self.rows[usize::from(c)].copy_from_slice(counts);
    }

    /// The counts of a line of processor c are those that it has here.
    pub(crate) fn keep_line(&mut self, c: u8, line: u8, counts: &[Counts])
        requires row { c < PROCESSORS }
        requires lines { length counts.now ≡ LINE_LIMIT }
        ensures here { (row : List count.Counts) → slice_get self.old.rows c ≡ Option.Some row → (new : List count.Counts) × (slice_get self.new.rows c ≡ Option.Some new) × (slice_get new line ≡ slice_get counts.now line) × ((l : ℕ) → l ≢ line → slice_get new l ≡ slice_get row l) }
        ensures others { (d : ℕ) → d ≢ c → slice_get self.new.rows d ≡ slice_get self.old.rows d }
    {
        if usize::from(line) < self.row(c).len() {
            copy_line(&mut self.rows[usize::from(c)], line, counts);
        }
    }

    // Looks at processor c.
    fn see_one<D: Device>(&mut self, machine: &Machine<D>, c: u8)
        requires { c < PROCESSORS }
        ensures here { (pipe : Pipe) → slice_get machine.now.board.parts.pipes c ≡ Option.Some pipe → slice_get self.new.rows c ≡ Option.Some pipe.counts }
        ensures others { (d : ℕ) → d ≢ c → slice_get self.new.rows d ≡ slice_get self.old.rows d }
    {
        machine.rules();
        if let Some(counts) = machine.line_counts(c) {
            self.keep(c, counts);
        }
    }

    /// Looks at each processor.
    pub fn see<D: Device>(&mut self, machine: &Machine<D>)
        ensures { IsTallyOf self.new.rows machine.now.board.parts }
    {
        machine.rules();
        for c in 0..machine.cpu_count() {
            self.see_one(machine, c);
        }
    }
}

// The lines of one set, and those of another.
fn joined(one: LineSet, other: LineSet) -> LineSet
    ensures one { (l : ℕ) → l < LINE_LIMIT → has_line one l ≡ true → has_line result l ≡ true }
    ensures other { (l : ℕ) → l < LINE_LIMIT → has_line other l ≡ true → has_line result l ≡ true }
{
    let mut all = one;
    let mut left = other;
    'lines: while let Some(line) = left.pop() {
        all.insert(line);
    }
    all
}

/// The lines that wait for a processor, on its wire or in a log.
pub fn waiting_lines<D: Device>(machine: &Machine<D>, cpu: u8) -> LineSet
    ensures { (l : ℕ) → l < LINE_LIMIT → waits_in l (slice_get machine.now.board.parts.pipes cpu) ≡ true → has_line result l ≡ true }
{
    match machine.stages(cpu) {
        None => LineSet::new(),
        Some(stages) => joined(joined(stages.wire, stages.oob.lines), stages.in_band.lines),
    }
}

/// The lines that are on a processor's wire.
pub(crate) fn wire_lines<D: Device>(machine: &Machine<D>, cpu: u8) -> LineSet
    ensures { (pipe : Pipe) → slice_get machine.now.board.parts.pipes cpu ≡ Option.Some pipe → result ≡ pipe.wire }
{
    match machine.wire(cpu) {
        None => LineSet::new(),
        Some(wire) => wire,
    }
}

// Whether a line was raised as often in one as in the other.
#[inline(always)]
fn same_raised(line: u8, before: &[Counts], after: &[Counts]) -> bool
    ensures { result ≡ true → SameRaised line before.now after.now }
{
    let at = usize::from(line);
    match (before.get(at), after.get(at)) {
        (Some(one), Some(two)) => one.raised == two.raised,
        _ => true,
    }
}

/// Some lines, and those lines of devices that were raised more often in one than in the other.
pub(crate) fn with_raised(lines: LineSet, before: &[Counts], after: &[Counts]) -> LineSet
    ensures lines { (l : ℕ) → l < LINE_LIMIT → has_line lines l ≡ true → has_line result l ≡ true }
    ensures raised { (l : ℕ) → belongs_to_devices l ≡ true → has_line result l ≡ false → SameRaised l before.now after.now }
{
    let mut all = lines;
    for device in 0..DEVICE_LIMIT {
        let line = DEVICE_LINE + device as u8;
        if !same_raised(line, before, after) {
            all.insert(line);
        }
    }
    all
}
