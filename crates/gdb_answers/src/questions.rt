//! Answers to questions, which change nothing.

ghost use Rattle.std.specs.Prelude.{◌≡◌, ◌++◌, ℕ, List, Option, OnOk, length, slice_get};
ghost use Rattle.gdb_answers.specs.Answers.{alive_text, answer_text, is_thread, register_reply, task_registers};

use crate::session::GdbSession;
use crate::target::{ACTIONS, DESCRIPTION, SUPPORTED, memory_map, push_part};
use evm_dev::Device;
use evm_room::Refused;
use gdb_packets::Command;
use gdb_tape::{
    Machine, Refusal, push_bytes, push_error, push_halt, push_memory, push_registers, push_thread,
    push_threads, push_word, register,
};

// Appends the registers of the task that is looked at.
fn answer_registers(session: &GdbSession, out: &mut Vec<u8>) -> Result<(), Refused>
    ensures ok { OnOk result (out.new.items ≡ out.old.items ++ task_registers (slice_get session.now.tape.machine.board.parts.harts session.now.looked)) }
{
    match session.tape.machine.hart(session.looked) {
        Some(hart) => push_registers(out, &hart),
        None => push_error(out, Refusal::NoTask.number()),
    }
}

// Appends a register of the task that is looked at.
fn answer_register(session: &GdbSession, number: u64, out: &mut Vec<u8>) -> Result<(), Refused>
    ensures ok { OnOk result (out.new.items ≡ out.old.items ++ register_reply number (slice_get session.now.tape.machine.board.parts.harts session.now.looked)) }
{
    if number > 32 {
        return push_error(out, Refusal::BadRegister.number());
    }
    match session.tape.machine.hart(session.looked) {
        Some(hart) => push_word(out, register(&hart, number as u8)),
        None => push_error(out, Refusal::NoTask.number()),
    }
}

// The answer to whether a task is there.
fn answer_thread<D: Device>(
    machine: &Machine<D>,
    thread: Option<u8>,
    out: &mut Vec<u8>,
) -> Result<(), Refused>
    ensures ok { OnOk result (out.new.items ≡ out.old.items ++ alive_text (is_thread (length machine.now.board.parts.tasks) thread)) }
{
    if is_thread(machine, thread) {
        push_bytes(out, b"OK")
    } else {
        push_error(out, Refusal::NoTask.number())
    }
}

// Whether there is a task; any is there.
fn is_thread<D: Device>(machine: &Machine<D>, thread: Option<u8>) -> bool
    ensures { result ≡ is_thread (length machine.now.board.parts.tasks) thread }
{
    match thread {
        Some(task) => task < machine.task_count(),
        None => true,
    }
}

/// The answer to a question, which changes nothing.
pub(crate) fn answer_question(
    session: &GdbSession,
    command: Command,
    out: &mut Vec<u8>,
) -> Result<(), Refused>
    ensures said { (text : List ℕ) → answer_text session.now.looked session.now.halt session.now.tape.machine command ≡ Option.Some text → OnOk result (out.new.items ≡ out.old.items ++ text) }
{
    match command {
        Command::Why => push_halt(out, &session.halt),
        Command::Registers => answer_registers(session, out),
        Command::Register(r) => answer_register(session, r, out),
        Command::Memory(address, count) => push_memory(out, &session.tape.machine, address, count),
        Command::IsThread(thread) => answer_thread(&session.tape.machine, thread, out),
        Command::Looked => {
            push_bytes(out, b"QC")?;
            push_thread(out, session.looked)
        }
        Command::Threads => push_threads(out, session.tape.machine.task_count()),
        Command::MoreThreads => push_bytes(out, b"l"),
        Command::Supported => push_bytes(out, SUPPORTED.as_bytes()),
        Command::Attached => push_bytes(out, b"1"),
        Command::Description(offset, count) => {
            push_part(out, DESCRIPTION.as_bytes(), offset, count)
        }
        Command::MemoryMap(offset, count) => {
            let machine = &session.tape.machine;
            let map = memory_map(machine.boot_numbers().ram, machine.device_count());
            push_part(out, map.as_slice(), offset, count)
        }
        Command::Actions => push_bytes(out, ACTIONS.as_bytes()),
        _ => Ok(()),
    }
}
