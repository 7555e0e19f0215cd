//! The program goes on, and why it is stopped again.

ghost use Rattle.std.specs.Prelude.{◌≡◌, IfOk};
ghost use Rattle.gdb_answers.specs.Answers.{outcome_told, refusal_told, why_told};
ghost use Rattle.gdb_tape.specs.Tape.{KeepsTape, StandsAt, events};
ghost use Rattle.gdb_tape.specs.gdb_driving.Interrupts.{lacks_room};

use crate::response::Reply;
use crate::serving::Server;
use crate::session::GdbSession;
use evm_dev::Device;
use evm_room::{Refused, push_text};
use gdb_packets::Pace;
use gdb_tape::{
    Going, Interrupts, Machine, Refusal, TargetHalt, Why, lacks_room, push_error, push_halt,
    resume, step,
};
use std::alloc::Global;

/// How GDB lets the program go on.
#[derive(Clone, Copy, Debug)]
pub(crate) struct Resumption {
    /// By one instruction, or until something stops it.
    pub(crate) pace: Pace,
    /// The task that goes on; None for any.
    pub(crate) thread: Option<u8>,
    /// The other tasks go on too.
    pub(crate) others: bool,
}

// Who goes on if GDB named nobody.
fn processor_to_step<D: Device>(machine: &Machine<D>, looked: u8) -> u8 {
    match machine.task(looked) {
        Some(task) => task.cpu,
        None => 0,
    }
}

// The turns of one processor alone, or of all.
fn pick<'a>(alone: bool, own: &'a [u8], all: &'a [u8]) -> &'a [u8] {
    if alone { own } else { all }
}

// Lets the machine go on from its last event: the processor of a task by one instruction, or all by the schedule.
#[tactic(auto, using(crate::proofs::Kept::keeps_same, gdb_tape::proofs::Keeping::keeps_changed))]
fn go_live<I: Interrupts>(
    session: &mut GdbSession,
    resumption: Resumption,
    interrupts: &I,
) -> Result<TargetHalt, Refusal>
    ensures kept { KeepsTape session.old.tape session.new.tape }
{
    session.forget();
    let looked = session.looked;
    let task = resumption.thread.unwrap_or(looked);
    let own = [processor_to_step(&session.tape.machine, task)];
    if resumption.pace == Pace::Step && !resumption.others {
        return step(&mut session.tape.machine, &session.points, own[0], looked);
    }
    let alone = !resumption.others && resumption.thread.is_some();
    let going = Going {
        turns: pick(alone, own.as_slice(), session.turns.as_slice()),
        points: &session.points,
        limit: session.limit,
        clock: session.clock,
        looked,
        until: if resumption.pace == Pace::Step {
            Some(task)
        } else {
            None
        },
    };
    resume(
        &mut session.tape.machine,
        &going,
        &mut session.round,
        interrupts,
    )
}

// Does again what was done, up to the last event.
#[tactic(auto, using(gdb_tape::proofs::Keeping::keeps_same))]
fn go_again(
    alloc: Global,
    session: &mut GdbSession,
    resumption: Resumption,
) -> Result<TargetHalt, Refusal>
    ensures kept { KeepsTape session.old.tape session.new.tape }
{
    let looked = session.looked;
    match resumption.pace {
        Pace::Step => session
            .tape
            .step_on(alloc, resumption.thread.unwrap_or(looked)),
        Pace::Continue => session.tape.continue_on(alloc, &session.points, looked),
    }
}

// Goes back.
#[tactic(auto, using(gdb_tape::proofs::Keeping::keeps_same))]
fn go_back(alloc: Global, session: &mut GdbSession, pace: Pace) -> Result<TargetHalt, Refusal>
    ensures stands { IfOk result (λ halt. StandsAt halt session.new.tape) }
    ensures events { events session.new.tape ≡ events session.old.tape }
    ensures kept { KeepsTape session.old.tape session.new.tape }
{
    match pace {
        Pace::Step => {
            let task = session.chosen.unwrap_or(session.looked);
            session.tape.step_back(alloc, task)
        }
        Pace::Continue => session.tape.continue_back(alloc, &session.points),
    }
}

/// A refusal in words.
pub(crate) fn refusal_text(refusal: Refusal) -> &'static str {
    match refusal {
        Refusal::Full => "vardozek gdb: refused: the journal is full (Full, 1)\n",
        Refusal::NoSuchCpu => "vardozek gdb: refused: there is no such processor (NoSuchCpu, 2)\n",
        Refusal::NoSuchLine => "vardozek gdb: refused: there is no such line (NoSuchLine, 3)\n",
        Refusal::NotStopped =>
            "vardozek gdb: refused: the processor is not stopped (NotStopped, 4)\n",
        Refusal::NoTask => "vardozek gdb: refused: no processor runs the task (NoTask, 5)\n",
        Refusal::BadAddress =>
            "vardozek gdb: refused: address or byte count out of range (BadAddress, 6)\n",
        Refusal::BadRegister =>
            "vardozek gdb: refused: there is no such register (BadRegister, 7)\n",
        Refusal::NoSlot => "vardozek gdb: refused: there is no slot (NoSlot, 8)\n",
        Refusal::NoMemory => "vardozek gdb: refused: there is no memory (NoMemory, 11)\n",
        Refusal::NoBreakpoint =>
            "vardozek gdb: refused: no breakpoint at this address (NoBreakpoint, 9)\n",
        _ => "vardozek gdb: refused\n",
    }
}

/// What is said once where the journal has no room for another event.
const FULL: &str =
    "vardozek gdb: the journal is full, so the machine stops here and nothing is lost: monitor save NAME writes it, monitor restart and run begin again\n";

// What a stop means, where a signal doesn't say it.
fn note_of(session: &mut GdbSession, why: Why) -> &'static str
    ensures { session.new.tape ≡ session.old.tape }
{
    match why {
        Why::Full if session.told_full => "",
        Why::Full => {
            session.told_full = true;
            FULL
        }
        Why::Limit =>
            "vardozek gdb: stopped after as many events as a continue may make (monitor limit N)\n",
        Why::Idle =>
            "vardozek gdb: no task is ready and no line is raised on the processors that step\n",
        _ => "",
    }
}

/// What is said once where events behind a place were dropped.
#[tactic(auto, using(gdb_tape::proofs::Keeping::keeps_same))]
pub(crate) fn dropped_text(session: &mut GdbSession) -> &'static str
    ensures { session.new.tape ≡ session.old.tape }
{
    if session.dropped {
        session.dropped = false;
        "vardozek gdb: the events behind this place are dropped\n"
    } else {
        ""
    }
}

// The answer to why the program is stopped, or why it didn't go on.
#[tactic(auto, using(gdb_tape::proofs::Keeping::keeps_same))]
fn answer_halt(
    session: &mut GdbSession,
    outcome: Result<TargetHalt, Refusal>,
    reply: &mut Reply,
) -> Result<(), Refused>
    ensures { session.new.tape ≡ session.old.tape }
{
    push_text(&mut reply.told, dropped_text(session))?;
    match outcome {
        Ok(halt) => {
            session.halt = halt;
            session.looked = halt.task;
            let note = note_of(session, halt.why);
            push_text(&mut reply.told, note)?;
            push_halt(&mut reply.payload, &halt)
        }
        Err(refusal) => {
            push_text(&mut reply.told, refusal_text(refusal))?;
            push_error(&mut reply.payload, refusal.number())
        }
    }
}

// Why a continue ended: at its limit, or at the end of the journal.
fn why_told(full: bool, why: Why) -> Why
    ensures { result ≡ why_told full why }
{
    match why {
        Why::Limit if full => Why::Full,
        _ => why,
    }
}

// What a refusal means to GDB: where the journal has no room for another event, the machine is stopped.
fn refusal_told(looked: u8, refusal: Refusal) -> Result<TargetHalt, Refusal>
    ensures { result ≡ refusal_told looked refusal }
{
    match refusal {
        Refusal::Full => Ok(TargetHalt {
            task: looked,
            why: Why::Full,
        }),
        _ => Err(refusal),
    }
}

// A stop because the journal has no room for another event, where that is why the machine didn't go on.
fn full_or<D: Device>(
    machine: &Machine<D>,
    looked: u8,
    outcome: Result<TargetHalt, Refusal>,
) -> Result<TargetHalt, Refusal>
    ensures { result ≡ outcome_told (lacks_room machine.now) looked outcome }
{
    match outcome {
        Ok(halt) => Ok(TargetHalt {
            task: halt.task,
            why: why_told(lacks_room(machine), halt.why),
        }),
        Err(refusal) => refusal_told(looked, refusal),
    }
}

// Lets the machine go on: it does again what was done, or is at its last event.
#[tactic(auto, using(gdb_tape::proofs::Keeping::keeps_same))]
fn go_on<I: Interrupts>(
    server: &Server<'_, I>,
    session: &mut GdbSession,
    resumption: Resumption,
) -> Result<TargetHalt, Refusal>
    ensures kept { KeepsTape session.old.tape session.new.tape }
{
    if session.tape.is_back() {
        go_again(server.alloc, session, resumption)
    } else {
        let looked = session.looked;
        let outcome = go_live(session, resumption, server.interrupts);
        full_or(&session.tape.machine, looked, outcome)
    }
}

/// The answer to a command that lets the program go on: why it is stopped again.
#[tactic(auto, using(gdb_tape::proofs::Keeping::keeps_same))]
pub(crate) fn answer_resumed<I: Interrupts>(
    server: &Server<'_, I>,
    session: &mut GdbSession,
    resumption: Resumption,
    reply: &mut Reply,
) -> Result<(), Refused>
    ensures kept { KeepsTape session.old.tape session.new.tape }
{
    let outcome = go_on(server, session, resumption);
    answer_halt(session, outcome, reply)
}

/// The answer to a command that lets the program go back: where it is, and why.
#[tactic(auto, using(gdb_tape::proofs::Keeping::keeps_same))]
pub(crate) fn answer_reversed(
    alloc: Global,
    session: &mut GdbSession,
    pace: Pace,
    reply: &mut Reply,
) -> Result<(), Refused>
    ensures kept { KeepsTape session.old.tape session.new.tape }
    ensures events { events session.new.tape ≡ events session.old.tape }
{
    let outcome = go_back(alloc, session, pace);
    answer_halt(session, outcome, reply)
}
