//! What happened, in words.

use crate::cells::{Cell, Deed, Shown};
use crate::pieces::{Piece, say};
use crate::places::{Naming, push_place, push_task, push_waited};
use Piece::{Address, Number, Text};
use evm_model::{Fault, NoticeKind, Stage, Wait};
use evm_room::{Refused, push_text};
use run_marks::Mark;
use run_walk::Event;

/// The name of a stage.
pub fn stage_name(stage: Stage) -> &'static str {
    match stage {
        Stage::OutOfBand => "out-of-band",
        Stage::InBand => "in-band",
    }
}

fn fault_name(fault: Fault) -> &'static str {
    match fault {
        Fault::Misaligned => "a jump to an address that is no multiple of 4",
        Fault::Fetch => "a fetch from outside RAM",
        Fault::Illegal => "a word that is no instruction",
        Fault::Load => "a load from outside memory",
        Fault::Store => "a store to outside memory",
    }
}

fn notice_name(kind: NoticeKind) -> &'static str {
    match kind {
        NoticeKind::DemotedByCall => "demoted by a call",
        NoticeKind::DemotedByFault => "demoted by a fault",
        NoticeKind::Deadlock => "its lock would never end",
        NoticeKind::NotOwner => "it unlocked a mutex that it does not own",
        NoticeKind::Overran => "the watchdog demoted the task",
    }
}

fn numeral(number: u8) -> Piece<'static> {
    Number(u64::from(number))
}

fn push_times(out: &mut String, times: u64) -> Result<(), Refused> {
    if times > 1 {
        say(out, &[Text(", "), Number(times), Text(" times")])
    } else {
        Ok(())
    }
}

fn push_line(out: &mut String, line: u8, what: &str, cpu: u8, times: u64) -> Result<(), Refused> {
    let pieces = [
        Text("line "),
        numeral(line),
        Text(what),
        Text("processor "),
        numeral(cpu),
    ];
    say(out, &pieces)?;
    push_times(out, times)
}

fn push_waits(
    out: &mut String,
    task: u8,
    wait: Wait,
    owner: Option<u8>,
    naming: Naming<'_>,
) -> Result<(), Refused> {
    push_told(out, task, " waits for ", naming)?;
    push_waited(out, wait, naming)?;
    match owner {
        None => Ok(()),
        Some(owner) => {
            push_text(out, ", which ")?;
            push_told(out, owner, " owns", naming)
        }
    }
}

fn push_owner(
    out: &mut String,
    mutex: u8,
    from: Option<u8>,
    to: Option<u8>,
    naming: Naming<'_>,
) -> Result<(), Refused> {
    push_waited(out, Wait::Lock(mutex), naming)?;
    match (from, to) {
        (Some(from), Some(to)) => {
            push_text(out, " passes from ")?;
            push_told(out, from, " to ", naming)?;
            push_task(out, to, naming)
        }
        (Some(from), None) => {
            push_text(out, " is given back by ")?;
            push_task(out, from, naming)
        }
        (None, Some(to)) => {
            push_text(out, " is owned by ")?;
            push_task(out, to, naming)
        }
        (None, None) => push_text(out, " is free"),
    }
}

fn push_stall(out: &mut String, cpu: u8, stage: Stage, on: bool) -> Result<(), Refused> {
    let pieces = [
        Text("the "),
        Text(stage_name(stage)),
        Text(" stage of processor "),
        numeral(cpu),
        Text(if on {
            " is stalled"
        } else {
            " is stalled no more"
        }),
    ];
    say(out, &pieces)
}

fn push_runs(
    out: &mut String,
    cpu: u8,
    task: u8,
    stage: Stage,
    naming: Naming<'_>,
) -> Result<(), Refused> {
    push_cpu(out, cpu, " runs ")?;
    push_told(out, task, " ", naming)?;
    push_text(out, stage_name(stage))
}

// Appends a task, and what is told of it.
fn push_told(out: &mut String, task: u8, what: &str, naming: Naming<'_>) -> Result<(), Refused> {
    push_task(out, task, naming)?;
    push_text(out, what)
}

fn push_rank(
    out: &mut String,
    task: u8,
    from: u16,
    to: u16,
    naming: Naming<'_>,
) -> Result<(), Refused> {
    push_task(out, task, naming)?;
    let pieces = [
        Text(if from < to {
            " rises from rank "
        } else {
            " falls from rank "
        }),
        Number(u64::from(from)),
        Text(" to rank "),
        Number(u64::from(to)),
    ];
    say(out, &pieces)
}

fn push_cpu(out: &mut String, cpu: u8, what: &str) -> Result<(), Refused> {
    say(out, &[Text("processor "), numeral(cpu), Text(what)])
}

fn push_processor_mark(out: &mut String, mark: &Mark, naming: Naming<'_>) -> Result<(), Refused> {
    match *mark {
        Mark::Runs { cpu, task, stage } => push_runs(out, cpu, task, stage, naming),
        Mark::Idles { cpu } => push_cpu(out, cpu, " runs no task"),
        Mark::Stop { cpu, on: true } => push_cpu(out, cpu, " is stopped by the debugger"),
        Mark::Stop { cpu, on: false } => push_cpu(out, cpu, " goes on"),
        Mark::Stall { cpu, stage, on } => push_stall(out, cpu, stage, on),
        Mark::Raised { cpu, line, times } => push_line(out, line, " is raised on ", cpu, times),
        Mark::Received { cpu, line, times } => {
            push_line(out, line, " is received by ", cpu, times)
        }
        Mark::Played {
            cpu,
            stage: Stage::OutOfBand,
            line,
            times,
        } => push_line(out, line, " is played out-of-band on ", cpu, times),
        Mark::Played {
            cpu,
            stage: Stage::InBand,
            line,
            times,
        } => push_line(out, line, " is played in-band on ", cpu, times),
        _ => Ok(()),
    }
}

fn push_end(out: &mut String, task: u8, fault: Fault, naming: Naming<'_>) -> Result<(), Refused> {
    push_told(out, task, " ends by a fault: ", naming)?;
    push_text(out, fault_name(fault))
}

fn push_woken(out: &mut String, task: u8, wait: Wait, naming: Naming<'_>) -> Result<(), Refused> {
    push_told(out, task, " waits no more for ", naming)?;
    push_waited(out, wait, naming)
}

fn push_deadline(out: &mut String, task: u8, tick: u64, naming: Naming<'_>) -> Result<(), Refused> {
    push_told(out, task, " waits no more: its deadline was tick ", naming)?;
    say(out, &[Number(tick)])
}

fn push_migrates(out: &mut String, task: u8, cpu: u8, naming: Naming<'_>) -> Result<(), Refused> {
    push_told(out, task, " moves to processor ", naming)?;
    say(out, &[numeral(cpu)])
}

fn push_notice(
    out: &mut String,
    kind: NoticeKind,
    task: u8,
    naming: Naming<'_>,
) -> Result<(), Refused> {
    push_told(out, task, " has a notice: ", naming)?;
    push_text(out, notice_name(kind))
}

fn push_task_mark(
    out: &mut String,
    mark: &Mark,
    owner: Option<u8>,
    naming: Naming<'_>,
) -> Result<(), Refused> {
    match *mark {
        Mark::Created { task } => push_told(out, task, " is created", naming),
        Mark::Waits { task, wait } => push_waits(out, task, wait, owner, naming),
        Mark::Woken { task, wait } => push_woken(out, task, wait, naming),
        Mark::Deadline { task, tick } => push_deadline(out, task, tick, naming),
        Mark::Migrates { task, cpu } => push_migrates(out, task, cpu, naming),
        Mark::Moves {
            task,
            stage: Stage::OutOfBand,
        } => push_told(out, task, " is promoted: it goes out-of-band", naming),
        Mark::Moves {
            task,
            stage: Stage::InBand,
        } => push_told(out, task, " is demoted: it goes in-band", naming),
        Mark::Rank { task, from, to } => push_rank(out, task, from, to, naming),
        Mark::Ended { task } => push_told(out, task, " ends", naming),
        Mark::Faulted { task, fault } => push_end(out, task, fault, naming),
        Mark::Notice { kind, task, .. } => push_notice(out, kind, task, naming),
        Mark::Owner { mutex, from, to } => push_owner(out, mutex, from, to, naming),
        Mark::Ticked { times } => {
            push_text(out, "the clock ticks")?;
            push_times(out, times)
        }
        _ => Ok(()),
    }
}

// Appends a put, signal or post that woke no task.
fn push_wasted(
    out: &mut String,
    task: u8,
    object: Wait,
    naming: Naming<'_>,
) -> Result<(), Refused> {
    let what = match object {
        Wait::Semaphore(_) => " puts ",
        Wait::Event(_) => " signals ",
        _ => " posts to ",
    };
    push_told(out, task, what, naming)?;
    push_waited(out, object, naming)?;
    push_text(out, ", and no task wakes")
}

/// Appends what an event did, without the event.
pub fn push_deed(out: &mut String, shown: &Shown, naming: Naming<'_>) -> Result<(), Refused> {
    match shown.deed {
        Deed::Mark(mark) => {
            push_processor_mark(out, &mark, naming)?;
            push_task_mark(out, &mark, shown.owner, naming)
        }
        Deed::Wasted(task, object) => push_wasted(out, task, object, naming),
    }
}

/// Appends what an event did, behind its number.
pub fn push_shown(out: &mut String, shown: &Shown, naming: Naming<'_>) -> Result<(), Refused> {
    say(out, &[Text("event "), Number(shown.event), Text(": ")])?;
    push_deed(out, shown, naming)
}

// Appends a word and an address.
fn push_at(out: &mut String, word: &str, address: u64, naming: Naming<'_>) -> Result<(), Refused> {
    push_text(out, word)?;
    push_place(out, address, naming)
}

/// Appends an event as a journal writes it, with the number of its bytes in place of a poke's bytes, and with symbols.
pub fn push_event(out: &mut String, event: &Event<u8>, naming: Naming<'_>) -> Result<(), Refused> {
    match *event {
        Event::Step(c) => say(out, &[Text("step "), numeral(c)]),
        Event::Tick => say(out, &[Text("tick")]),
        Event::Raise(c, line) => say(out, &[Text("raise "), numeral(c), Text(" "), numeral(line)]),
        Event::Bell(c, line) => say(out, &[Text("bell "), numeral(c), Text(" "), numeral(line)]),
        Event::Stop(c) => say(out, &[Text("stop "), numeral(c)]),
        Event::Go(c) => say(out, &[Text("go "), numeral(c)]),
        Event::StepI(c) => say(out, &[Text("stepi "), numeral(c)]),
        Event::SetReg(c, r, value) => say(
            out,
            &[
                Text("set "),
                numeral(c),
                Text(" "),
                numeral(r),
                Text(" "),
                Address(value),
            ],
        ),
        Event::SetPc(c, pc) => {
            say(out, &[Text("setpc "), numeral(c)])?;
            push_at(out, " ", pc, naming)
        }
        Event::Poke(address, bytes) => {
            push_at(out, "poke ", address, naming)?;
            say(out, &[Text(", "), numeral(bytes), Text(" bytes")])
        }
        Event::Break(address) => push_at(out, "break ", address, naming),
        Event::Unbreak(address) => push_at(out, "unbreak ", address, naming),
    }
}

// The event of a cell, and where its instruction is.
fn push_placed(out: &mut String, cell: &Cell, naming: Naming<'_>) -> Result<(), Refused> {
    push_event(out, &cell.event, naming)?;
    match cell.pc {
        None => Ok(()),
        Some(pc) => push_at(out, " at ", pc, naming),
    }
}

/// Appends what a cell holds.
pub fn push_cell(out: &mut String, cell: &Cell, naming: Naming<'_>) -> Result<(), Refused> {
    if cell.count <= 1 {
        say(out, &[Text("event "), Number(cell.first), Text(": ")])?;
        return push_placed(out, cell, naming);
    }
    let last = cell.first.saturating_add(cell.count.saturating_sub(1));
    let pieces = [
        Text("events "),
        Number(cell.first),
        Text(" to "),
        Number(last),
        Text(": "),
    ];
    say(out, &pieces)?;
    if cell.items > 1 {
        return say(
            out,
            &[
                Number(cell.count),
                Text(" events, "),
                Number(cell.steps),
                Text(" of them steps"),
            ],
        );
    }
    push_placed(out, cell, naming)?;
    say(
        out,
        &[
            Text(", "),
            Number(cell.count),
            Text(" steps that change only registers and RAM"),
        ],
    )
}
