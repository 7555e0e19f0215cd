//! The marks of the lines of one processor.

ghost use Rattle.std.specs.Prelude.{◌≡◌, ◌≢◌, ◌+◌, ◌++◌, ◌-◌, ◌<◌, ℕ, [], IfSome, List, OnOk, Option, false, length, nat_lt, option_copied, slice_get};
ghost use Rattle.evm_journal.specs.evm_core.Views.{line_counts_at};
ghost use Rattle.evm_lines.specs.declared.TheConstants.{LINES as LINE_LIMIT};
ghost use Rattle.evm_model.specs.Pipes.{Pipe};
ghost use Rattle.evm_model.specs.State.{Parts};
ghost use Rattle.evm_model.specs.declared.counts.Counts as count;
ghost use Rattle.evm_model.specs.declared.limits.TheConstants.{PROCESSOR_LIMIT as PROCESSORS};
ghost use Rattle.run_marks.specs.Marks.{counted_marks, line_marks, lines_marks, marks_of, pipe_marks, when};
ghost use Rattle.run_marks.specs.declared.observation.Observation.{Observation};
ghost use Rattle.run_marks.specs.Tallies.{DifferAt, IsTallyOf, IsTallyUpTo, IsWithinReach, OnlyRaises, StepLeaves};

use crate::mark::Mark;
use crate::marking::push_when;
use crate::tally::{Reach, Stepped, Tally, wire_lines, with_raised};
use evm_dev::Device;
use evm_journal::Machine;
use evm_lines::{LINES, LineSet};
use evm_model::{Counts, Stage};
use evm_room::Refused;

fn push_raised(
    marks: &mut Vec<Mark>,
    cpu: u8,
    line: u8,
    before: u64,
    after: u64,
) -> Result<(), Refused>
    ensures { OnOk result (marks.new.items ≡ marks.old.items ++ (when (nat_lt before after) (Mark.Raised cpu line (after - before)))) }
{
    let times = after.saturating_sub(before);
    push_when(marks, before < after, Mark::Raised { cpu, line, times })
}

fn push_received(
    marks: &mut Vec<Mark>,
    cpu: u8,
    line: u8,
    before: u64,
    after: u64,
) -> Result<(), Refused>
    ensures { OnOk result (marks.new.items ≡ marks.old.items ++ (when (nat_lt before after) (Mark.Received cpu line (after - before)))) }
{
    let times = after.saturating_sub(before);
    push_when(marks, before < after, Mark::Received { cpu, line, times })
}

fn push_played(
    marks: &mut Vec<Mark>,
    cpu: u8,
    line: u8,
    stage: Stage,
    before: u64,
    after: u64,
) -> Result<(), Refused>
    ensures { OnOk result (marks.new.items ≡ marks.old.items ++ (when (nat_lt before after) (Mark.Played cpu stage line (after - before)))) }
{
    let times = after.saturating_sub(before);
    push_when(
        marks,
        before < after,
        Mark::Played {
            cpu,
            stage,
            line,
            times,
        },
    )
}

#[tactic(auto, using(crate::proofs::Lemmas::numbered))]
fn push_counted(
    marks: &mut Vec<Mark>,
    cpu: u8,
    line: u8,
    before: &Counts,
    after: &Counts,
) -> Result<(), Refused>
    ensures { OnOk result (marks.new.items ≡ marks.old.items ++ (counted_marks cpu line before.now after.now)) }
{
    push_raised(marks, cpu, line, before.raised, after.raised)?;
    push_received(marks, cpu, line, before.received, after.received)?;
    push_played(
        marks,
        cpu,
        line,
        Stage::OutOfBand,
        before.oob.played,
        after.oob.played,
    )?;
    push_played(
        marks,
        cpu,
        line,
        Stage::InBand,
        before.in_band.played,
        after.in_band.played,
    )
}

// Whether a count of those that are marked has grown.
#[inline]
fn is_grown(before: &Counts, after: &Counts) -> bool
    ensures { (c l : ℕ) → result ≡ false → counted_marks c l before.now after.now ≡ [] }
{
    before.raised < after.raised
        || before.received < after.received
        || before.oob.played < after.oob.played
        || before.in_band.played < after.in_band.played
}

// Most lines have no mark.
#[inline]
#[tactic(auto, using(crate::proofs::Lemmas::numbered))]
fn push_grown(
    marks: &mut Vec<Mark>,
    cpu: u8,
    line: u8,
    before: &Counts,
    after: &Counts,
) -> Result<(), Refused>
    ensures { OnOk result (marks.new.items ≡ marks.old.items ++ (counted_marks cpu line before.now after.now)) }
{
    if is_grown(before, after) {
        push_counted(marks, cpu, line, before, after)
    } else {
        Ok(())
    }
}

#[tactic(auto, unfolding(crate::specs::Marks::line_marks), using(crate::proofs::Lemmas::numbered))]
fn push_line(
    marks: &mut Vec<Mark>,
    cpu: u8,
    line: u8,
    before: Option<&Counts>,
    after: Option<&Counts>,
) -> Result<(), Refused>
    ensures { OnOk result (marks.new.items ≡ marks.old.items ++ (line_marks cpu line (option_copied before.entry) (option_copied after.entry))) }
{
    match (before, after) {
        (Some(before), Some(after)) => push_grown(marks, cpu, line, before, after),
        _ => Ok(()),
    }
}

#[inline(always)]
#[tactic(auto, using(crate::proofs::Lemmas::numbered))]
fn push_line_at(
    marks: &mut Vec<Mark>,
    cpu: u8,
    line: u8,
    before: &[Counts],
    after: &[Counts],
) -> Result<(), Refused>
    ensures { OnOk result (marks.new.items ≡ marks.old.items ++ (line_marks cpu line (slice_get before.now line) (slice_get after.now line))) }
{
    let at = usize::from(line);
    push_line(marks, cpu, line, before.get(at), after.get(at))
}

#[tactic(auto, unfolding(crate::specs::Marks::lines_marks), using(crate::proofs::Lemmas::numbered))]
fn push_lines(
    marks: &mut Vec<Mark>,
    cpu: u8,
    before: &[Counts],
    after: &[Counts],
) -> Result<(), Refused>
    ensures { OnOk result (marks.new.items ≡ marks.old.items ++ (lines_marks cpu before.now after.now)) }
{
    for line in 0..LINES {
        push_line_at(marks, cpu, line, before, after)?;
    }
    Ok(())
}

// Those lines of a processor whose counts its own Step may have changed; they were these.
fn own_lines(step: &Stepped, before: &[Counts], after: &[Counts]) -> LineSet
    ensures { (was : Parts) (now : Parts) (p : Pipe) (q : Pipe) → StepLeaves step.now was now → slice_get was.pipes step.now.cpu ≡ Option.Some p → slice_get now.pipes step.now.cpu ≡ Option.Some q → p.counts ≡ before.now → q.counts ≡ after.now → DifferAt result before.now after.now }
{
    // devices raise their lines on processor 0
    if step.cpu == 0 {
        with_raised(step.waiting, before, after)
    } else {
        step.waiting
    }
}

// Those lines of a processor whose counts a Step may have changed; they were these.
fn step_lines<D: Device>(
    step: &Stepped,
    cpu: u8,
    machine: &Machine<D>,
    before: &[Counts],
    after: &[Counts],
) -> LineSet
    ensures { (was : Parts) (p : Pipe) (q : Pipe) → StepLeaves step.now was machine.now.board.parts → slice_get was.pipes cpu ≡ Option.Some p → slice_get machine.now.board.parts.pipes cpu ≡ Option.Some q → p.counts ≡ before.now → q.counts ≡ after.now → DifferAt result before.now after.now }
{
    if cpu == step.cpu {
        own_lines(step, before, after)
    } else {
        wire_lines(machine, cpu)
    }
}

// Those lines of a processor whose counts an event that reaches so far may have changed; they were these. None: it may be all.
fn touched_lines<D: Device>(
    reach: &Reach,
    cpu: u8,
    machine: &Machine<D>,
    before: &[Counts],
    after: &[Counts],
) -> Option<LineSet>
    ensures { IfSome result (λ lines. (was : Parts) (p : Pipe) (q : Pipe) → IsWithinReach reach.now was machine.now.board.parts → slice_get was.pipes cpu ≡ Option.Some p → slice_get machine.now.board.parts.pipes cpu ≡ Option.Some q → p.counts ≡ before.now → q.counts ≡ after.now → DifferAt lines before.now after.now) }
{
    match reach {
        Reach::ByLine(acting, _) if cpu != *acting => Some(LineSet::new()),
        Reach::ByStep(step) => Some(step_lines(step, cpu, machine, before, after)),
        Reach::ByLine(_, _) | Reach::All => None,
    }
}

// Appends the marks of some lines of a processor, and keeps their counts.
fn push_touched(
    marks: &mut Vec<Mark>,
    cpu: u8,
    lines: LineSet,
    tally: &mut Tally,
    counts: &[Counts],
) -> Result<(), Refused>
    requires cpu { cpu < PROCESSORS }
    requires counts { length counts.now ≡ LINE_LIMIT }
    ensures ok { (row : List count.Counts) → slice_get tally.old.rows cpu ≡ Option.Some row → length row ≡ LINE_LIMIT → DifferAt lines row counts.now → OnOk result ((marks.new.items ≡ marks.old.items ++ lines_marks cpu row counts.now) × (slice_get tally.new.rows cpu ≡ Option.Some counts.now)) }
    ensures others { (d : ℕ) → d ≢ cpu → slice_get tally.new.rows d ≡ slice_get tally.old.rows d }
{
    let _least = lines.first();
    let mut left = lines;
    'lines: while let Some(touched) = left.pop() {
        push_line_at(marks, cpu, touched, tally.row(cpu), counts)?;
        tally.keep_line(cpu, touched, counts);
    }
    Ok(())
}

/// Appends the marks of a processor's lines after an event that reaches so far, and keeps their counts.
pub(crate) fn push_pipe<D: Device>(
    marks: &mut Vec<Mark>,
    cpu: u8,
    tally: &mut Tally,
    machine: &Machine<D>,
    reach: &Reach,
) -> Result<(), Refused>
    requires { cpu < PROCESSORS }
    ensures { (was : Parts) → IsTallyUpTo cpu tally.old.rows was machine.now.board.parts → IsWithinReach reach.now was machine.now.board.parts → OnOk result ((marks.new.items ≡ marks.old.items ++ pipe_marks cpu (line_counts_at cpu was) (line_counts_at cpu machine.now.board.parts)) × IsTallyUpTo (cpu + 1) tally.new.rows was machine.now.board.parts) }
{
    machine.rules();
    let Some(counts) = machine.line_counts(cpu) else {
        return Ok(());
    };
    match touched_lines(reach, cpu, machine, tally.row(cpu), counts) {
        Some(lines) => push_touched(marks, cpu, lines, tally, counts),
        None => {
            push_lines(marks, cpu, tally.row(cpu), counts)?;
            tally.keep(cpu, counts);
            Ok(())
        }
    }
}

/// Appends the marks of a line that an event raised, which changed nothing else, and keeps its counts.
pub fn push_raise<D: Device>(
    marks: &mut Vec<Mark>,
    tally: &mut Tally,
    machine: &Machine<D>,
    cpu: u8,
    line: u8,
) -> Result<(), Refused>
    requires { cpu < PROCESSORS }
    ensures { (was : Parts) (seen : Observation) → seen.cpu_count ≡ length machine.now.board.parts.processors → IsTallyOf tally.old.rows was → OnlyRaises cpu line was machine.now.board.parts → OnOk result ((marks.new.items ≡ marks.old.items ++ marks_of seen seen was machine.now.board.parts) × IsTallyOf tally.new.rows machine.now.board.parts) }
{
    machine.rules();
    let Some(counts) = machine.line_counts(cpu) else {
        return Ok(());
    };
    push_line_at(marks, cpu, line, tally.row(cpu), counts)?;
    tally.keep_line(cpu, line, counts);
    Ok(())
}
