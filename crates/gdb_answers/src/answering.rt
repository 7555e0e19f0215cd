//! The answer to a command.

ghost use Rattle.std.specs.Prelude.{◌≡◌, true, ◌++◌, ℕ, List, IfSome, OnSome, Option, OnOk};
ghost use Rattle.gdb_answers.specs.Answers.{answer_text};
ghost use Rattle.gdb_answers.specs.Asking.{ArePointsSet, IsCarriedOut, asked, asked_by, has_digits, points_asked};
ghost use Rattle.gdb_tape.specs.gdb_driving.Points.{IsSetTo};
ghost use Rattle.gdb_tape.specs.gdb_driving.Shown.{error_text, outcome_text};
ghost use Rattle.gdb_tape.specs.Tape.{KeepsTape};
ghost use Rattle.gdb_packets.specs.Hexadecimal.{bytes_of_digits};

use crate::carrying::carry_out;
use crate::monitor::{LineEnd, run_monitor};
use crate::questions::answer_question;
use crate::response::Reply;
use crate::resuming::{Resumption, answer_resumed, answer_reversed, dropped_text, refusal_text};
use crate::serving::Server;
use crate::session::GdbSession;
use crate::starting::answer_start;
use crate::words::put_thread;
use evm_devs::AnyDevice;
use evm_room::{NoMemory, Refused, push_text};
use gdb_packets::{Command, Pace, push_digits, read_digits};
use gdb_tape::{
    Interrupts, Machine, Points, Refusal, WatchPoint, push_bytes, push_error, push_outcome,
};
use sh_answers::Page;
use std::alloc::Global;

/// The error of a packet whose digits or numbers are wrong: 22 (EINVAL).
pub(crate) const MALFORMED: u8 = 22;

// Sets a breakpoint or a watchpoint, or takes one away; none where a command is another.
fn change_points(
    points: &mut Points,
    machine: &Machine<AnyDevice>,
    command: Command,
) -> Result<(), Refusal>
    ensures { IfSome (points_asked machine.now points.old command) (λ outcome. IsSetTo outcome result points.old points.new) }
{
    match command {
        Command::Insert(kind, address) => points.insert(machine, kind, address),
        Command::Remove(kind, address) => points.remove(kind, address),
        Command::Watch(kind, address, count) => points.watch(
            machine,
            WatchPoint {
                kind,
                address,
                count,
            },
        ),
        Command::Unwatch(kind, address, count) => points.unwatch(WatchPoint {
            kind,
            address,
            count,
        }),
        _ => Ok(()),
    }
}

// The answer to a command that sets a breakpoint or a watchpoint, or takes one away.
#[tactic(auto, using(gdb_tape::proofs::Keeping::keeps_same))]
fn answer_points(
    session: &mut GdbSession,
    command: Command,
    out: &mut Vec<u8>,
) -> Result<(), Refused>
    ensures points { OnOk result (IfSome (points_asked session.old.tape.machine session.old.points command) (λ outcome. ArePointsSet outcome_text outcome session.old.points session.new.points out.old.items out.new.items)) }
    ensures kept { KeepsTape session.old.tape session.new.tape }
{
    let outcome = change_points(&mut session.points, &session.tape.machine, command);
    push_outcome(out, outcome)
}

// Looks at a task from now on.
#[tactic(auto, using(gdb_tape::proofs::Keeping::keeps_same))]
fn look_at(session: &mut GdbSession, thread: Option<u8>, out: &mut Vec<u8>) -> Result<(), Refused>
    ensures kept { KeepsTape session.old.tape session.new.tape }
{
    if let Some(task) = thread {
        if task >= session.tape.machine.task_count() {
            return push_error(out, Refusal::NoTask.number());
        }
        session.looked = task;
    }
    push_bytes(out, b"OK")
}

// The answer to a command that changes what GDB has chosen, or by which it leaves.
#[tactic(auto, using(gdb_tape::proofs::Keeping::keeps_same))]
fn answer_choice(
    session: &mut GdbSession,
    command: Command,
    out: &mut Vec<u8>,
) -> Result<(), Refused>
    ensures kept { KeepsTape session.old.tape session.new.tape }
{
    match command {
        Command::SelectThread(thread) => look_at(session, thread, out),
        Command::Choose(thread) => {
            session.chosen = thread;
            push_bytes(out, b"OK")
        }
        Command::NoAcknowledgements => {
            session.acknowledges = false;
            push_bytes(out, b"OK")
        }
        Command::Detach => {
            session.over = true;
            push_bytes(out, b"OK")
        }
        _ => Ok(()),
    }
}

// Does a line of the monitor, of digits.
#[tactic(auto, using(gdb_tape::proofs::Keeping::keeps_same))]
fn answer_monitor(
    alloc: Global,
    session: &mut GdbSession,
    line: &[u8],
    reply: &mut Reply,
) -> Result<(), NoMemory>
    ensures kept { KeepsTape session.old.tape session.new.tape }
{
    let end = run_monitor(alloc, session, line, &mut reply.told)?;
    let said = match end {
        LineEnd::Done => dropped_text(session),
        LineEnd::Bad => "vardozek gdb: no line of a script; monitor help lists them\n",
        LineEnd::BootsAgain => "vardozek gdb: the machine is booted\n",
        LineEnd::Refused(refusal) => refusal_text(refusal),
    };
    match push_text(&mut reply.told, said) {
        Ok(()) => {}
        Err(_) => return Err(NoMemory),
    }
    match push_bytes(&mut reply.payload, b"OK") {
        Ok(()) => Ok(()),
        Err(_) => Err(NoMemory),
    }
}

// The answer to a command that has digits or bytes, which are these.
#[tactic(auto, using(gdb_tape::proofs::Keeping::keeps_same))]
fn answer_data(
    alloc: Global,
    session: &mut GdbSession,
    command: Command,
    bytes: &[u8],
    reply: &mut Reply,
) -> Result<(), NoMemory>
    ensures done { OnOk result (IfSome (asked_by session.old.looked bytes.now session.old.tape.machine command) (λ events. IsCarriedOut outcome_text events session.old.tape.machine session.new.tape.machine reply.old.payload.items reply.new.payload.items)) }
    ensures quiet { OnSome (asked_by session.old.looked bytes.now session.old.tape.machine command) (reply.new.told ≡ reply.old.told) }
    ensures kept { KeepsTape session.old.tape session.new.tape }
{
    let outcome = match command {
        Command::Monitor => return answer_monitor(alloc, session, bytes, reply),
        _ => carry_out(session, command, bytes),
    };
    match push_outcome(&mut reply.payload, outcome) {
        Ok(()) => Ok(()),
        Err(_) => Err(NoMemory),
    }
}

// The answer to a command that has digits: what they say, or that they are none.
#[tactic(auto, using(gdb_tape::proofs::Keeping::keeps_same))]
fn answer_digits(
    alloc: Global,
    session: &mut GdbSession,
    command: Command,
    digits: &[u8],
    reply: &mut Reply,
) -> Result<(), NoMemory>
    ensures done { (bytes : List ℕ) → bytes_of_digits digits.now ≡ Option.Some bytes → OnOk result (IfSome (asked_by session.old.looked bytes session.old.tape.machine command) (λ events. IsCarriedOut outcome_text events session.old.tape.machine session.new.tape.machine reply.old.payload.items reply.new.payload.items)) }
    ensures kept { KeepsTape session.old.tape session.new.tape }
    ensures quiet { (bytes : List ℕ) → bytes_of_digits digits.now ≡ Option.Some bytes → OnSome (asked_by session.old.looked bytes session.old.tape.machine command) (reply.new.told ≡ reply.old.told) }
    ensures malformed { bytes_of_digits digits.now ≡ Option.None → session.new ≡ session.old }
    ensures told { bytes_of_digits digits.now ≡ Option.None → OnOk result (reply.new.payload.items ≡ reply.old.payload.items ++ error_text MALFORMED) }
{
    let mut data = Vec::new(alloc);
    match read_digits(digits, &mut data) {
        Ok(true) => answer_data(alloc, session, command, data.as_slice(), reply),
        Ok(false) => match push_error(&mut reply.payload, MALFORMED) {
            Ok(()) => Ok(()),
            Err(_) => Err(NoMemory),
        },
        Err(_) => Err(NoMemory),
    }
}

// The answer to a command that changes what GDB has chosen, or lets the program go on.
#[tactic(auto, using(gdb_tape::proofs::Keeping::keeps_same))]
fn answer_order<I: Interrupts>(
    server: &Server<'_, I>,
    session: &mut GdbSession,
    command: Command,
    reply: &mut Reply,
) -> Result<(), Refused>
    ensures points { OnOk result (IfSome (points_asked session.old.tape.machine session.old.points command) (λ outcome. ArePointsSet outcome_text outcome session.old.points session.new.points reply.old.payload.items reply.new.payload.items)) }
    ensures quiet { OnSome (points_asked session.old.tape.machine session.old.points command) (reply.new.told ≡ reply.old.told) }
    ensures kept { KeepsTape session.old.tape session.new.tape }
    ensures said { (text : List ℕ) → answer_text session.old.looked session.old.halt session.old.tape.machine command ≡ Option.Some text → OnOk result (reply.new.payload.items ≡ reply.old.payload.items ++ text) }
    ensures unchanged { (text : List ℕ) → answer_text session.old.looked session.old.halt session.old.tape.machine command ≡ Option.Some text → session.new ≡ session.old }
    ensures untold { (text : List ℕ) → answer_text session.old.looked session.old.halt session.old.tape.machine command ≡ Option.Some text → reply.new.told ≡ reply.old.told }
{
    match command {
        Command::Resume(pace) => {
            let resumption = Resumption {
                pace,
                thread: session.chosen,
                others: pace == Pace::Continue,
            };
            answer_resumed(server, session, resumption, reply)
        }
        Command::ResumeThread(pace, thread, others) => {
            let resumption = Resumption {
                pace,
                thread,
                others,
            };
            answer_resumed(server, session, resumption, reply)
        }
        Command::Reverse(pace) => answer_reversed(server.alloc, session, pace, reply),
        Command::Insert(_, _)
        | Command::Remove(_, _)
        | Command::Watch(_, _, _)
        | Command::Unwatch(_, _, _) => answer_points(session, command, &mut reply.payload),
        Command::SelectThread(_)
        | Command::Choose(_)
        | Command::NoAcknowledgements
        | Command::Detach => answer_choice(session, command, &mut reply.payload),
        Command::Kill => {
            session.over = !session.extended;
            Ok(())
        }
        Command::Extended | Command::Run(_) | Command::Restart | Command::KillProcess => {
            answer_start(session, command, &mut reply.payload)
        }
        _ => answer_question(session, command, &mut reply.payload),
    }
}

// The answer to what there is to say of a thread, as digits.
fn answer_text(
    alloc: Global,
    session: &GdbSession,
    thread: Option<u8>,
    out: &mut Vec<u8>,
) -> Result<(), NoMemory> {
    let Some(task) = thread else {
        return Ok(());
    };
    let mut page = Page::new(alloc);
    put_thread(alloc, &mut page, session, task)?;
    match push_digits(out, page.bytes()) {
        Ok(()) => Ok(()),
        Err(_) => Err(NoMemory),
    }
}

/// Does a command, and appends its answer to `reply`.
///
/// # Errors
///
/// Memory was refused.
#[tactic(auto, using(gdb_tape::proofs::Keeping::keeps_same))]
pub(crate) fn answer<I: Interrupts>(
    server: &Server<'_, I>,
    session: &mut GdbSession,
    command: Command,
    behind: &[u8],
    reply: &mut Reply,
) -> Result<(), NoMemory>
    ensures done { OnOk result (IfSome (asked session.old.looked behind.now session.old.tape.machine command) (λ events. IsCarriedOut outcome_text events session.old.tape.machine session.new.tape.machine reply.old.payload.items reply.new.payload.items)) }
    ensures quiet { OnSome (asked session.old.looked behind.now session.old.tape.machine command) (reply.new.told ≡ reply.old.told) }
    ensures malformed { has_digits command ≡ true → bytes_of_digits behind.now ≡ Option.None → session.new ≡ session.old }
    ensures refused { has_digits command ≡ true → bytes_of_digits behind.now ≡ Option.None → OnOk result (reply.new.payload.items ≡ reply.old.payload.items ++ error_text MALFORMED) }
    ensures kept { KeepsTape session.old.tape session.new.tape }
    ensures points { OnOk result (IfSome (points_asked session.old.tape.machine session.old.points command) (λ outcome. ArePointsSet outcome_text outcome session.old.points session.new.points reply.old.payload.items reply.new.payload.items)) }
    ensures silent { OnSome (points_asked session.old.tape.machine session.old.points command) (reply.new.told ≡ reply.old.told) }
    ensures said { (text : List ℕ) → answer_text session.old.looked session.old.halt session.old.tape.machine command ≡ Option.Some text → OnOk result (reply.new.payload.items ≡ reply.old.payload.items ++ text) }
    ensures unchanged { (text : List ℕ) → answer_text session.old.looked session.old.halt session.old.tape.machine command ≡ Option.Some text → session.new ≡ session.old }
    ensures untold { (text : List ℕ) → answer_text session.old.looked session.old.halt session.old.tape.machine command ≡ Option.Some text → reply.new.told ≡ reply.old.told }
{
    match command {
        Command::WriteBytes(_, _) => answer_data(server.alloc, session, command, behind, reply),
        Command::Monitor
        | Command::SetRegisters
        | Command::SetRegister(_)
        | Command::WriteDigits(_, _) => {
            answer_digits(server.alloc, session, command, behind, reply)
        }
        Command::ThreadText(thread) => {
            answer_text(server.alloc, session, thread, &mut reply.payload)
        }
        _ => match answer_order(server, session, command, reply) {
            Ok(()) => Ok(()),
            Err(_) => Err(NoMemory),
        },
    }
}
