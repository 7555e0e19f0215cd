//! Lines of a script, as a monitor takes them.

ghost use Rattle.gdb_tape.specs.gdb_driving.Kept.{KeepsJournal};
ghost use Rattle.gdb_tape.specs.Tape.{KeepsTape};

use crate::session::{GdbSession, TURN_LIMIT, each_processor};
use crate::words::put_machine;
use arrayvec::ArrayVec;
use evm_dev::Device;
use evm_room::{NoMemory, Refused, push_text};
use evm_text::{after_word, decimal_at, decimal_last, push_decimal};
use gdb_tape::{Line, Machine, Refusal, View, ViewRefusal, push_view, read_line};
use sh_answers::Page;
use std::alloc::Global;

/// What came of a line.
#[derive(Clone, Copy, Debug, PartialEq, Eq)]
pub enum LineEnd {
    /// It was done.
    Done,
    /// It is outside the grammar.
    Bad,
    /// The machine refuses it.
    Refused(Refusal),
    /// It would boot a second time.
    BootsAgain,
}

fn refused_or_done(outcome: Result<(), Refusal>) -> LineEnd {
    match outcome {
        Ok(()) => LineEnd::Done,
        Err(refusal) => LineEnd::Refused(refusal),
    }
}

// Appends the text of a view.
fn look<D: Device>(
    machine: &Machine<D>,
    what: &View,
    text: &mut String,
) -> Result<LineEnd, NoMemory> {
    match push_view(text, machine, what) {
        Ok(()) => Ok(LineEnd::Done),
        Err(ViewRefusal::Refused(refusal)) => Ok(LineEnd::Refused(refusal)),
        Err(ViewRefusal::NoMemory) => Err(NoMemory),
    }
}

/// Does a line of a script on a machine that is booted, and appends the text of a view.
///
/// # Errors
///
/// Memory for the text was refused.
#[tactic(auto, using(crate::proofs::Kept::keeps_same))]
pub fn run_line<D: Device>(
    machine: &mut Machine<D>,
    line: &[u8],
    text: &mut String,
) -> Result<LineEnd, NoMemory>
    ensures kept { KeepsJournal machine.old machine.new }
{
    let Ok(line) = read_line(line) else {
        return Ok(LineEnd::Bad);
    };
    match line {
        Line::Blank => Ok(LineEnd::Done),
        Line::Boot(_) => Ok(LineEnd::BootsAgain),
        Line::Steps(c, count) => Ok(refused_or_done(machine.steps(c, count))),
        Line::One(event) => match machine.apply(event.lend()) {
            Ok(_) => Ok(LineEnd::Done),
            Err(refusal) => Ok(LineEnd::Refused(refusal)),
        },
        Line::Show(what) => look(machine, &what, text),
    }
}

// The processors of a schedule, with one blank between them.
fn turns_at(bytes: &[u8], cpus: u8) -> Option<ArrayVec<u8, TURN_LIMIT>> {
    let mut turns = ArrayVec::new();
    let mut rest = bytes;
    'turns: for _ in 0..TURN_LIMIT {
        let (number, behind) = decimal_at(rest)?;
        if number >= u64::from(cpus) {
            return None;
        }
        let Ok(()) = turns.try_push(number as u8) else {
            return None;
        };
        if behind.is_empty() {
            return Some(turns);
        }
        rest = after_word(b" ", behind)?;
    }
    None
}

/// A line of the monitor that is no line of a script.
enum Own<'a> {
    /// `limit N`.
    Limit(u32),
    /// `schedule ..`.
    Turns(ArrayVec<u8, TURN_LIMIT>),
    /// `clock N`.
    Clock(u32),
    /// `restart`.
    Restart,
    /// `machine`.
    Machine,
    /// `save NAME`.
    Save(&'a str),
    /// `help`.
    Help,
}

// What a line of the monitor's own asks for.
fn own_line<'a>(line: &'a [u8], cpus: u8) -> Option<Own<'a>> {
    if line == b"help".as_slice() {
        return Some(Own::Help);
    }
    if line == b"restart".as_slice() {
        return Some(Own::Restart);
    }
    if line == b"machine".as_slice() {
        return Some(Own::Machine);
    }
    if line == b"schedule round-robin".as_slice() {
        return Some(Own::Turns(each_processor(cpus)));
    }
    if let Some(rest) = after_word(b"save ", line) {
        return match std::str::from_utf8(rest) {
            Ok(name) if !name.is_empty() => Some(Own::Save(name)),
            _ => None,
        };
    }
    if let Some(rest) = after_word(b"schedule ", line) {
        return Some(Own::Turns(turns_at(rest, cpus)?));
    }
    if let Some(rest) = after_word(b"clock ", line) {
        return Some(Own::Clock(number_up_to(rest, 1_048_576)?));
    }
    match number_up_to(after_word(b"limit ", line)?, 1_048_576)? {
        0 => None,
        number => Some(Own::Limit(number)),
    }
}

// A number at the end of a line, up to another.
fn number_up_to(bytes: &[u8], most: u32) -> Option<u32> {
    let number = decimal_last(bytes)?;
    if number > u64::from(most) {
        None
    } else {
        Some(number as u32)
    }
}

/// What `monitor help` shows.
pub(crate) const HELP: &str = "limit N               a continue makes at most N events, 1 to 1048576
clock N               the clock ticks behind N rounds of turns, and when all
                      tasks wait and something is due; 0 for never
restart               the machine is as it was when the session began
machine               says who runs, waits and owns, which interrupts are pending,
                      and where the session stands
save NAME             writes the journal, NAME.journal, and as a script, NAME.script
schedule C C ..       in a continue these processors step, one after the other
schedule round-robin  in a continue each processor steps in turn
step C N, tick, raise C L, stop C, go C, stepi C, set C R V, setpc C V,
poke A HEX, break A, unbreak A                             events of a script
regs C, mem A N, stages C, tasks, owners, rank T, notices, counts C L,
journal, console, words I                                  views of a script
";

// Does a line of a script. Where it makes events, those behind the place are dropped.
#[tactic(auto, using(gdb_tape::proofs::Keeping::keeps_same, gdb_tape::proofs::Keeping::keeps_changed))]
fn run_script_line(
    session: &mut GdbSession,
    line: &[u8],
    text: &mut String,
) -> Result<LineEnd, NoMemory>
    ensures kept { KeepsTape session.old.tape session.new.tape }
{
    match read_line(line) {
        Err(_) => Ok(LineEnd::Bad),
        Ok(Line::Blank) => Ok(LineEnd::Done),
        Ok(Line::Boot(_)) => Ok(LineEnd::BootsAgain),
        Ok(Line::Show(what)) => look(&session.tape.machine, &what, text),
        Ok(Line::Steps(_, _)) | Ok(Line::One(_)) => {
            session.forget();
            run_line(&mut session.tape.machine, line, text)
        }
    }
}

// Appends a number and what it counts.
fn push_count(out: &mut String, number: u64, words: &str) -> Result<(), Refused> {
    push_decimal(out, number)?;
    push_text(out, words)
}

// Appends what the machine has, and where the session stands.
fn push_counts(out: &mut String, session: &GdbSession) -> Result<(), Refused> {
    let machine = &session.tape.machine;
    let boot = machine.boot_numbers();
    push_count(out, boot.cpus, " processors\n")?;
    push_count(out, boot.ram, " bytes of RAM from 80000000 on\n")?;
    push_count(out, boot.capacity, " events in the journal at most\n")?;
    push_count(out, session.tape.end().event_count(), " events made\n")?;
    push_count(out, machine.event_count(), " events before this place\n")?;
    push_count(out, machine.ticks(), " ticks\n")?;
    push_count(
        out,
        u64::from(session.limit),
        " events in a continue at most\n",
    )?;
    push_count(out, u64::from(session.clock), " rounds from tick to tick\n")
}

// The same, behind who runs, waits and owns.
fn answer_machine(
    alloc: Global,
    session: &GdbSession,
    text: &mut String,
) -> Result<LineEnd, NoMemory> {
    let mut page = Page::new(alloc);
    put_machine(alloc, &mut page, session)?;
    let words = std::str::from_utf8(page.bytes()).unwrap_or("");
    if push_text(text, words).is_err() || push_counts(text, session).is_err() {
        return Err(NoMemory);
    }
    Ok(LineEnd::Done)
}

// Goes to where the session began, and drops the events behind that.
#[tactic(auto, using(gdb_tape::proofs::Keeping::keeps_same, gdb_tape::proofs::Keeping::keeps_more))]
fn restart(alloc: Global, session: &mut GdbSession) -> LineEnd
    ensures kept { KeepsTape session.old.tape session.new.tape }
{
    let begin = session.begin;
    match session.tape.go_to(alloc, begin) {
        Ok(()) => {
            session.forget();
            session.told_full = false;
            LineEnd::Done
        }
        Err(refusal) => LineEnd::Refused(refusal),
    }
}

/// Does a line of the monitor, and appends its text.
///
/// # Errors
///
/// Memory for the text was refused.
#[tactic(auto, using(gdb_tape::proofs::Keeping::keeps_same))]
pub(crate) fn run_monitor(
    alloc: Global,
    session: &mut GdbSession,
    line: &[u8],
    text: &mut String,
) -> Result<LineEnd, NoMemory>
    ensures kept { KeepsTape session.old.tape session.new.tape }
{
    match own_line(line, session.tape.machine.cpu_count()) {
        None => run_script_line(session, line, text),
        Some(Own::Limit(limit)) => {
            session.limit = limit;
            Ok(LineEnd::Done)
        }
        Some(Own::Clock(clock)) => {
            session.clock = clock;
            Ok(LineEnd::Done)
        }
        Some(Own::Turns(turns)) => {
            session.turns = turns;
            Ok(LineEnd::Done)
        }
        Some(Own::Restart) => Ok(restart(alloc, session)),
        Some(Own::Save(name)) => {
            session.save.clear();
            match push_text(&mut session.save, name) {
                Ok(()) => Ok(LineEnd::Done),
                Err(_) => Err(NoMemory),
            }
        }
        Some(Own::Machine) => answer_machine(alloc, session, text),
        Some(Own::Help) => match push_text(text, HELP) {
            Ok(()) => Ok(LineEnd::Done),
            Err(_) => Err(NoMemory),
        },
    }
}
