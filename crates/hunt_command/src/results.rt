//! What a hunt shows at its end.

use crate::PROGRAM;
use crate::cases::Cases;
use crate::files::write_files;
use crate::job::HuntJob;
use evm_host::{Message, System, USAGE, World, report as report_message, show};
use evm_lines::{LINES, LineSet};
use evm_room::NoMemory;
use evm_streams::Numeral;
use hunt_search::{
    Found, HuntStop, Report, Row, SearchSpan, clock_text, counts_text, row_text, schedule_text,
    shortest, unreached_text,
};
use hunt_space::ReachedText;

/// The status of a hunt that has found a failure.
const FOUND: u8 = 1;

/// What a hunt came to.
#[derive(Drop)]
pub(crate) struct Hunted {
    pub(crate) report: Report,
    pub(crate) span: SearchSpan,
    /// What of the program's text every schedule together has reached.
    pub(crate) text: Option<ReachedText>,
}

/// What a hunt shows of its failures.
#[derive(Drop)]
struct Results<'a> {
    job: HuntJob<'a>,
    cases: Cases<'a>,
    /// The fewest events of a machine so far.
    fewest: u64,
}

// The first of two statuses that isn't 0.
fn first_failed(status: u8, next: u8) -> u8 {
    if status == 0 { next } else { status }
}

impl<'a> Results<'a> {
    // Nothing was shown.
    fn new(job: HuntJob<'a>) -> Results<'a> {
        Results {
            job,
            cases: Cases::new(job),
            fewest: u64::MAX,
        }
    }

    // Writes a text and keeps it; the status.
    fn tell_text<S: System>(
        &mut self,
        text: String,
        row: &Row,
        world: &mut World<S>,
    ) -> Result<u8, NoMemory> {
        let status = show(PROGRAM, text.as_str(), world);
        self.cases.add(row.key.kind, text)?;
        Ok(status)
    }

    // Writes the journal and the script of a machine, if it has the fewest events so far; the status.
    fn write_fewest<S: System>(
        &mut self,
        found: &Found,
        seed: u64,
        world: &mut World<S>,
    ) -> Result<u8, NoMemory> {
        let events = found.machine.event_count();
        if events >= self.fewest {
            return Ok(0);
        }
        self.fewest = events;
        match self.job.options.out {
            Some(name) => write_files(&self.job, name, found, seed, world),
            None => Ok(0),
        }
    }

    // Shows a machine that has failed; the status.
    fn tell_found<S: System>(
        &mut self,
        found: &Found,
        row: &Row,
        world: &mut World<S>,
    ) -> Result<u8, NoMemory> {
        let alloc = self.job.target.alloc;
        let kind = row.key.kind;
        let mut status = self.write_fewest(found, row.seed, world)?;
        let written = self.cases.write_files(kind, found, row.seed, world)?;
        status = first_failed(status, written);
        let text = schedule_text(alloc, found, row.seed, self.job.names)?;
        let told = self.tell_text(text, row, world)?;
        Ok(first_failed(status, told))
    }

    // Shows a failure by its shortest schedule; the status.
    fn tell_row<S: System>(&mut self, row: &Row, world: &mut World<S>) -> Result<u8, HuntStop> {
        match shortest(&self.job.target, row)? {
            Some(found) => Ok(self.tell_found(&found, row, world)?),
            None => {
                let text = row_text(self.job.target.alloc, row, self.job.names)?;
                self.cases.add(row.key.kind, text)?;
                Ok(0)
            }
        }
    }
}

// Says which lines the program asks for, where none is raised.
fn tell_asked<S: System>(asked: LineSet, world: &mut World<S>) {
    let mut left = asked;
    for _ in 0..LINES {
        let Some(line) = left.pop() else {
            return;
        };
        let message = Message::WithOne(
            "line ",
            Numeral::Decimal(u64::from(line)),
            " is asked for: see --lines",
        );
        report_message(PROGRAM, message, &mut world.errors);
    }
}

// Shows where a call reads the clock, which ended the search; the status.
fn tell_clock<S: System>(
    job: &HuntJob<'_>,
    address: u64,
    world: &mut World<S>,
) -> Result<u8, NoMemory> {
    let text = clock_text(job.target.alloc, address, job.names)?;
    let status = show(PROGRAM, text.as_str(), world);
    let message = Message::Plain("a call reads the clock or names a time: see --ticks");
    report_message(PROGRAM, message, &mut world.errors);
    Ok(first_failed(status, USAGE))
}

// Shows which text no schedule reaches; the status.
fn tell_gaps<S: System>(
    job: &HuntJob<'_>,
    reached: &ReachedText,
    world: &mut World<S>,
) -> Result<u8, NoMemory> {
    let mut last = None;
    let mut status = 0;
    for _ in 0..reached.count() {
        let Some(gap) = reached.gap_after(last) else {
            return Ok(status);
        };
        let text = unreached_text(job.target.alloc, gap.first, gap.last, job.names)?;
        status = first_failed(status, show(PROGRAM, text.as_str(), world));
        last = Some(gap);
    }
    Ok(status)
}

// Shows which text no schedule reaches, where all schedules were looked at and none fails; the status.
fn tell_unreached<S: System>(
    job: &HuntJob<'_>,
    hunted: &Hunted,
    world: &mut World<S>,
) -> Result<u8, NoMemory> {
    match &hunted.text {
        Some(reached) if hunted.report.rows.is_empty() && !hunted.report.cut => {
            tell_gaps(job, reached, world)
        }
        _ => Ok(0),
    }
}

/// Shows what a hunt came to, and returns the status.
///
/// # Errors
///
/// Memory was refused: nothing more is shown.
pub(crate) fn tell<S: System>(
    job: &HuntJob<'_>,
    hunted: &Hunted,
    world: &mut World<S>,
) -> Result<u8, HuntStop> {
    let report = &hunted.report;
    let mut results = Results::new(*job);
    let mut status = 0;
    for row in &report.rows {
        status = first_failed(status, results.tell_row(row, world)?);
    }
    status = first_failed(status, results.cases.write(world)?);
    if job.options.wanted.lines.is_empty() {
        tell_asked(report.asked, world);
    }
    let mut found = if report.rows.is_empty() { 0 } else { FOUND };
    status = first_failed(status, tell_unreached(job, hunted, world)?);
    if let SearchSpan::All(counts) = hunted.span
        && let Some(address) = counts.clock
    {
        found = first_failed(found, tell_clock(job, address, world)?);
    }
    let text = counts_text(job.target.alloc, report, hunted.span)?;
    status = first_failed(status, show(PROGRAM, text.as_str(), world));
    status = first_failed(status, found);
    Ok(status)
}
