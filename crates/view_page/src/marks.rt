//! What an entry says of a mark: numbers of its row.

ghost use Rattle.std.specs.Prelude.{◌≡◌, ◌<◌, ◌++◌, OnOk, flat_map};
ghost use Rattle.view_page.specs.Entries.{fault_code, line_numbers, mark_numbers, notice_code, owner_number, processor_numbers, stage_number, task_numbers, wait_numbers, yes};

use crate::row::put;
use evm_model::{Fault, NoticeKind, Stage, Wait};
use evm_room::Refused;
use run_marks::Mark;

fn yes(on: bool) -> u64
    ensures { result ≡ yes on }
{
    if on { 1 } else { 0 }
}

/// The number of a stage.
pub(crate) fn stage_number(stage: Stage) -> u64
    ensures { result ≡ stage_number stage }
{
    match stage {
        Stage::OutOfBand => 0,
        Stage::InBand => 1,
    }
}

fn fault_code(fault: Fault) -> u64
    ensures { result ≡ fault_code fault }
{
    match fault {
        Fault::Misaligned => 0,
        Fault::Fetch => 1,
        Fault::Illegal => 2,
        Fault::Load => 5,
        Fault::Store => 7,
    }
}

fn notice_code(kind: NoticeKind) -> u64
    ensures { result ≡ notice_code kind }
{
    match kind {
        NoticeKind::DemotedByCall => 1,
        NoticeKind::DemotedByFault => 2,
        NoticeKind::Deadlock => 3,
        NoticeKind::NotOwner => 4,
        NoticeKind::Overran => 5,
    }
}

// 0, or 1 more than the number of a task.
fn owner_number(owner: Option<u8>) -> u64
    ensures { result ≡ owner_number owner }
{
    match owner {
        None => 0,
        Some(task) => u64::from(task) + 1,
    }
}

// A line that came so far, once or more often.
fn put_line(row: &mut Vec<u64>, passage: u64, cpu: u8, line: u8, times: u64) -> Result<(), Refused>
    requires { passage < 4 }
    ensures { OnOk result (row.new.items ≡ row.old.items ++ line_numbers passage cpu line times) }
{
    let place = passage * 512 + u64::from(cpu) * 64 + u64::from(line);
    if times == 1 {
        put(row, &[1000 + place])
    } else {
        put(row, &[4000 + place, times])
    }
}

/// What is waited for: a kind and a number.
fn put_wait(row: &mut Vec<u64>, wait: Wait) -> Result<(), Refused>
    ensures { OnOk result (row.new.items ≡ row.old.items ++ wait_numbers wait) }
{
    match wait {
        Wait::Line(line) => put(row, &[1, u64::from(line)]),
        Wait::Lock(mutex) => put(row, &[2, u64::from(mutex)]),
        Wait::Reacquire { mutex, .. } => put(row, &[3, u64::from(mutex)]),
        Wait::Semaphore(semaphore) => put(row, &[4, u64::from(semaphore)]),
        Wait::Event(event) => put(row, &[5, u64::from(event)]),
        Wait::Flags(group) => put(row, &[6, u64::from(group)]),
        Wait::Sleep => put(row, &[7, 0]),
        Wait::Timer(timer) => put(row, &[8, u64::from(timer)]),
    }
}

// A mark of a processor; of another nothing.
#[tactic(auto, unfolding(crate::specs::Entries::processor_numbers))]
fn put_processor_mark(row: &mut Vec<u64>, mark: &Mark) -> Result<(), Refused>
    ensures { OnOk result (row.new.items ≡ row.old.items ++ processor_numbers mark.now) }
{
    match *mark {
        Mark::Runs { cpu, task, stage } => put(
            row,
            &[100, u64::from(cpu), u64::from(task), stage_number(stage)],
        ),
        Mark::Idles { cpu } => put(row, &[101, u64::from(cpu)]),
        Mark::Stop { cpu, on } => put(row, &[102, u64::from(cpu), yes(on)]),
        Mark::Stall { cpu, stage, on } => put(
            row,
            &[103, u64::from(cpu), stage_number(stage), yes(on)],
        ),
        Mark::Raised { cpu, line, times } => put_line(row, 0, cpu, line, times),
        Mark::Received { cpu, line, times } => put_line(row, 1, cpu, line, times),
        Mark::Played {
            cpu,
            stage,
            line,
            times,
        } => put_line(row, 2 + stage_number(stage), cpu, line, times),
        _ => Ok(()),
    }
}

// A mark of a task, a mutex or the machine; of a processor nothing.
#[tactic(auto, unfolding(crate::specs::Entries::task_numbers))]
fn put_task_mark(row: &mut Vec<u64>, mark: &Mark) -> Result<(), Refused>
    ensures { OnOk result (row.new.items ≡ row.old.items ++ task_numbers mark.now) }
{
    match *mark {
        Mark::Created { task } => put(row, &[110, u64::from(task)]),
        Mark::Waits { task, wait } => {
            put(row, &[111, u64::from(task)])?;
            put_wait(row, wait)
        }
        Mark::Woken { task, wait } => {
            put(row, &[112, u64::from(task)])?;
            put_wait(row, wait)
        }
        Mark::Deadline { task, tick } => put(row, &[113, u64::from(task), tick]),
        Mark::Moves { task, stage } => put(row, &[114, u64::from(task), stage_number(stage)]),
        Mark::Rank { task, from, to } => put(
            row,
            &[115, u64::from(task), u64::from(from), u64::from(to)],
        ),
        Mark::Ended { task } => put(row, &[116, u64::from(task)]),
        Mark::Faulted { task, fault } => put(row, &[117, u64::from(task), fault_code(fault)]),
        Mark::Owner { mutex, from, to } => put(
            row,
            &[118, u64::from(mutex), owner_number(from), owner_number(to)],
        ),
        Mark::Ticked { times } => put(row, &[119, times]),
        Mark::Notice { kind, task, times } => put(
            row,
            &[120, notice_code(kind), u64::from(task), times],
        ),
        Mark::Migrates { task, cpu } => put(row, &[121, u64::from(task), u64::from(cpu)]),
        _ => Ok(()),
    }
}

#[tactic(auto, unfolding(crate::specs::Entries::mark_numbers))]
fn put_mark(row: &mut Vec<u64>, mark: &Mark) -> Result<(), Refused>
    ensures { OnOk result (row.new.items ≡ row.old.items ++ mark_numbers mark.now) }
{
    put_processor_mark(row, mark)?;
    put_task_mark(row, mark)
}

/// Appends the numbers of marks, one behind the other.
pub(crate) fn put_marks(row: &mut Vec<u64>, marks: &[Mark]) -> Result<(), Refused>
    ensures { OnOk result (row.new.items ≡ row.old.items ++ flat_map mark_numbers marks.now) }
{
    for mark in marks {
        put_mark(row, mark)?;
    }
    Ok(())
}
