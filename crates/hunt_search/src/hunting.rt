//! The schedules of many seeds.

ghost use Rattle.std.specs.Prelude.{◌≡◌, [], ◌∷◌, ◌++◌, true, false, IfOk, OnOk, Option};
ghost use Rattle.evm_model.specs.Replay.{IsReplayOf};
ghost use Rattle.hunt_schedules.specs.Beginning.{Begins, ComesFrom};
ghost use Rattle.hunt_schedules.specs.Runs.{Ends, IsFound};
ghost use Rattle.hunt_search.specs.Hunts.{AreFound};
ghost use Rattle.hunt_search.specs.Searches.{is_failed};

use crate::asking::add_asked;
use crate::key::FailureKey;
use crate::onlooker::Onlooker;
use crate::target::Target;
use evm_lines::LineSet;
use evm_room::NoMemory;
use hunt_failures::Failure;
use hunt_schedules::{
    AnyDevice, Chooser, Cycle, HuntStop, Machine, Orders, RunOutcome, Stretches, Way, begin,
    go_back, run_schedule, schedule_of,
};
use std::alloc::Global;

/// Which schedules are looked at.
#[derive(Clone, Copy, Debug)]
pub struct Plan {
    /// How they choose.
    pub way: Way,
    /// The first seed.
    pub first: u64,
    /// The last seed.
    pub last: u64,
    /// Whether the orders of locks are looked at.
    pub orders: bool,
}

/// Which schedules were looked at.
#[derive(Clone, Copy, Debug, PartialEq, Eq)]
pub enum SearchSpan {
    /// Those of the seeds from one on.
    Seeds(u64),
    /// Those with at most this number of switches.
    Switches(u8),
    /// All.
    All(SpaceCounts),
}

/// What a search of all schedules has counted.
#[derive(Clone, Copy, Debug, PartialEq, Eq)]
pub struct SpaceCounts {
    /// The most ticks of a schedule; None for any number.
    pub ticks: Option<u64>,
    /// The most raises of a schedule; None for any number.
    pub raises: Option<u64>,
    /// The states that were visited.
    pub states: u64,
    /// The events that were made at them.
    pub events: u64,
    /// The states at which nothing more can happen.
    pub ends: u64,
    /// Where a call reads the clock or names a time, which ended the search.
    pub clock: Option<u64>,
}

/// A schedule that was looked at.
#[derive(Clone, Copy)]
pub struct HuntRun<'a> {
    /// The seed, or the number of the schedule.
    pub seed: u64,
    /// The machine that it has made.
    pub machine: &'a Machine<AnyDevice>,
    /// How it ended.
    pub outcome: RunOutcome,
}

/// A failure, once for each kind and place.
#[derive(Debug, Drop)]
pub struct Row {
    /// The kind and the place.
    pub key: FailureKey,
    /// What has failed; None of two locks that close a cycle.
    pub failure: Option<Failure>,
    /// Of two locks that close a cycle the place of the other.
    pub other: Option<u64>,
    /// The first seed whose schedule failed so.
    pub seed: u64,
    /// The schedule up to the failure.
    pub schedule: Stretches,
    /// How many events it has.
    pub events: u64,
}

/// What a hunt came to.
#[derive(Debug, Drop)]
pub struct Report {
    /// The failures, in the order in which they were found.
    pub rows: Vec<Row>,
    /// How many schedules were looked at.
    pub schedules: u64,
    /// How many events they have.
    pub events: u64,
    /// How many of them ended with a full journal.
    pub full: u64,
    /// Whether there were more schedules than may be looked at.
    pub cut: bool,
    /// The lines that some task waited for, or that had an action.
    pub asked: LineSet,
    /// The orders of locks, if they are looked at.
    pub orders: Option<Orders>,
}

impl Report {
    /// Nothing was looked at. `orders` says whether the orders of locks are.
    pub fn new(alloc: Global, orders: bool) -> Report
        ensures { result.rows.items ≡ [] }
    {
        Report {
            rows: Vec::new(alloc),
            schedules: 0,
            events: 0,
            full: 0,
            cut: false,
            asked: LineSet::new(),
            orders: if orders { Some(Orders::new()) } else { None },
        }
    }

    // Whether a failure was found before.
    fn knows(&self, key: &FailureKey) -> bool
        ensures { result ≡ true → self.now.rows.items ≡ [] → ⊥ }
    {
        for row in &self.rows {
            if row.key.is(key) {
                return true;
            }
        }
        false
    }

    // Counts a schedule.
    fn count(&mut self, run: &HuntRun<'_>)
        ensures { self.new.rows ≡ self.old.rows }
    {
        self.schedules = self.schedules.saturating_add(1);
        self.events = self.events.saturating_add(run.machine.event_count());
        if let RunOutcome::Full = run.outcome {
            self.full = self.full.saturating_add(1);
        }
        add_asked(run.machine, &mut self.asked);
    }

    /// Says whether there were more schedules than may be looked at.
    pub fn set_cut(&mut self, cut: bool)
        ensures rows { self.new.rows ≡ self.old.rows }
        ensures cut { self.new.cut ≡ cut }
    {
        self.cut = cut;
    }

    // Adds a failure that was not found before, and shows it.
    fn add<O: Onlooker>(&mut self, row: Row, onlooker: &mut O) -> Result<(), HuntStop>
        ensures { OnOk result (self.new.rows.items ≡ self.old.rows.items ++ row ∷ []) }
    {
        onlooker.found(&row);
        match self.rows.push(row) {
            Ok(()) => Ok(()),
            Err(_) => Err(HuntStop::NoMemory),
        }
    }
}

// The row of a schedule that has failed.
fn row_of(
    alloc: Global,
    run: &HuntRun<'_>,
    failure: Failure,
    key: FailureKey,
) -> Result<Row, NoMemory>
    ensures { IfOk result (λ row. row.failure ≡ Option.Some failure) }
{
    match schedule_of(alloc, run.machine) {
        Ok(schedule) => Ok(Row {
            key,
            failure: Some(failure),
            other: None,
            seed: run.seed,
            schedule,
            events: run.machine.event_count(),
        }),
        Err(NoMemory) => Err(NoMemory),
    }
}

// The row of two locks that close a cycle.
fn cycle_row(alloc: Global, cycle: Cycle, events: u64, seed: u64) -> Row
    ensures { result.failure ≡ Option.None }
{
    Row {
        key: FailureKey {
            kind: "order",
            place: cycle.place,
        },
        failure: None,
        other: Some(cycle.other),
        seed,
        schedule: Vec::new(alloc),
        events,
    }
}

// Adds the orders of the locks of a schedule, if they are looked at.
fn add_orders<O: Onlooker>(
    target: &Target<'_>,
    run: &HuntRun<'_>,
    report: &mut Report,
    onlooker: &mut O,
) -> Result<(), HuntStop>
    requires { AreFound target.now.image.now target.now.boot.now target.now.wanted.now.lines report.old.rows.items }
    ensures found { OnOk result (AreFound target.now.image.now target.now.boot.now target.now.wanted.now.lines report.new.rows.items) }
    ensures rows { OnOk result (report.new.rows.items ≡ [] → report.old.rows.items ≡ []) }
{
    // they are large, so they are moved only where they are looked at
    if report.orders.is_none() {
        return Ok(());
    }
    let Some(mut orders) = report.orders.take() else {
        return Ok(());
    };
    let closed = orders.add_run(target.alloc, target.image, target.boot, run.machine);
    report.orders = Some(orders);
    let (cycle, events) = match closed {
        Ok(Some(closed)) => closed,
        Ok(None) => return Ok(()),
        Err(stop) => return Err(stop),
    };
    let row = cycle_row(target.alloc, cycle, events, run.seed);
    if report.knows(&row.key) {
        return Ok(());
    }
    report.add(row, onlooker)
}

// Adds the failure of a schedule, if it is new.
fn add_failure<O: Onlooker>(
    target: &Target<'_>,
    run: &HuntRun<'_>,
    failure: Failure,
    report: &mut Report,
    onlooker: &mut O,
) -> Result<(), HuntStop>
    requires found { AreFound target.now.image.now target.now.boot.now target.now.wanted.now.lines report.old.rows.items }
    requires failed { IsFound target.now.image.now target.now.boot.now target.now.wanted.now.lines failure run.now.machine.now }
    ensures found { OnOk result (AreFound target.now.image.now target.now.boot.now target.now.wanted.now.lines report.new.rows.items) }
    ensures some { OnOk result (report.new.rows.items ≡ [] → ⊥) }
{
    let key = FailureKey::of(run.machine, failure);
    if report.knows(&key) {
        return Ok(());
    }
    match row_of(target.alloc, run, failure, key) {
        Ok(row) => report.add(row, onlooker),
        Err(fault) => Err(HuntStop::from(fault)),
    }
}

/// Adds what a schedule came to.
///
/// # Errors
///
/// Memory was refused.
pub fn note<O: Onlooker>(
    target: &Target<'_>,
    run: &HuntRun<'_>,
    report: &mut Report,
    onlooker: &mut O,
) -> Result<(), HuntStop>
    requires found { AreFound target.now.image.now target.now.boot.now target.now.wanted.now.lines report.old.rows.items }
    requires ended { ComesFrom target.now.image.now target.now.boot.now run.now.machine.now × Ends target.now.wanted.now.lines run.now.outcome run.now.machine.now }
    ensures found { OnOk result (AreFound target.now.image.now target.now.boot.now target.now.wanted.now.lines report.new.rows.items) }
    ensures rows { OnOk result (report.new.rows.items ≡ [] → report.old.rows.items ≡ []) }
    ensures none { OnOk result (report.new.rows.items ≡ [] → is_failed run.now.outcome ≡ false) }
{
    report.count(run);
    add_orders(target, run, report, onlooker)?;
    match run.outcome {
        RunOutcome::Failed(failure) => add_failure(target, run, failure, report, onlooker),
        RunOutcome::Over | RunOutcome::Full => Ok(()),
    }
}

// A seed, and how its schedule is chosen.
#[derive(Clone, Copy)]
struct Seed {
    number: u64,
    way: Way,
}

// The schedule of a seed, on a machine that has had no event.
fn look<O: Onlooker>(
    target: &Target<'_>,
    seed: Seed,
    machine: &mut Machine<AnyDevice>,
    report: &mut Report,
    onlooker: &mut O,
) -> Result<(), HuntStop>
    requires found { AreFound target.now.image.now target.now.boot.now target.now.wanted.now.lines report.old.rows.items }
    requires begins { Begins target.now.image.now target.now.boot.now machine.old }
    requires fresh { IsReplayOf machine.old machine.old }
    ensures { OnOk result (AreFound target.now.image.now target.now.boot.now target.now.wanted.now.lines report.new.rows.items) }
{
    let mut chooser = Chooser::new(seed.number, seed.way, target.wanted.lines);
    let outcome = run_schedule(machine, &mut chooser, target.wanted);
    let run = HuntRun {
        seed: seed.number,
        machine,
        outcome,
    };
    note(target, &run, report, onlooker)
}

// Looks at the schedules of a plan. For each the machine is taken back to the first one.
fn hunt_from<O: Onlooker>(
    target: &Target<'_>,
    plan: &Plan,
    first: &Machine<AnyDevice>,
    machine: &mut Machine<AnyDevice>,
    onlooker: &mut O,
) -> Result<Report, HuntStop>
    requires begins { Begins target.now.image.now target.now.boot.now first.now }
    requires fresh { IsReplayOf first.now first.now }
    ensures { IfOk result (λ report. AreFound target.now.image.now target.now.boot.now target.now.wanted.now.lines report.rows.items) }
{
    let mut report = Report::new(target.alloc, plan.orders);
    'seeds: for number in plan.first..=plan.last {
        let seed = Seed {
            number,
            way: plan.way,
        };
        go_back(machine, first)?;
        look(target, seed, machine, &mut report, onlooker)?;
        if !onlooker.goes_on(report.schedules, report.rows.len() as u64) {
            return Ok(report);
        }
    }
    Ok(report)
}

/// Looks at the schedules of a plan, at least at one, until the onlooker ends the hunt: each failure once by its kind and place.
///
/// # Errors
///
/// Memory was refused, or no machine boots with the image.
pub fn hunt<O: Onlooker>(
    target: &Target<'_>,
    plan: &Plan,
    onlooker: &mut O,
) -> Result<Report, HuntStop>
    // each failure is one of a machine that was booted with the image
    ensures { IfOk result (λ report. AreFound target.now.image.now target.now.boot.now target.now.wanted.now.lines report.rows.items) }
{
    let first = begin(target.alloc, target.image, target.boot)?;
    let mut machine = begin(target.alloc, target.image, target.boot)?;
    hunt_from(target, plan, &first, &mut machine, onlooker)
}

/// How often the first random schedule of a mixed hunt chooses the processor that steps: change points of the others are spread among this
/// number of choices.
///
/// # Errors
///
/// Why there is no machine.
pub fn first_choices(target: &Target<'_>) -> Result<u32, HuntStop> {
    let mut machine = begin(target.alloc, target.image, target.boot)?;
    let mut chooser = Chooser::new(0, Way::Mixed { length: 0 }, target.wanted.lines);
    run_schedule(&mut machine, &mut chooser, target.wanted);
    Ok(chooser.choices())
}

/// How many events the random schedule of seed 0 has: the change points of other schedules are spread among this number of steps.
///
/// # Errors
///
/// Why there is no machine.
pub fn first_length(target: &Target<'_>) -> Result<u32, HuntStop> {
    let mut machine = begin(target.alloc, target.image, target.boot)?;
    let mut chooser = Chooser::new(0, Way::Random, target.wanted.lines);
    run_schedule(&mut machine, &mut chooser, target.wanted);
    Ok(machine.event_count().min(1 << 20) as u32)
}
