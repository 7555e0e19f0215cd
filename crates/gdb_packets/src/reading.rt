//! The command of a payload.

ghost use Rattle.std.specs.Prelude.{◌≡◌};
ghost use Rattle.evm_text.specs.Reading.{ReadsAs};
ghost use Rattle.gdb_packets.specs.Commands.{bare, bytes_said, command_at, description_said, digits_said, killed_said, long_at, map_said, memory_said, named_command, register_said, restart_said, run_said, thread_said};

use crate::actions::{action_named, resume_said};
use crate::command::{Command, Pace};
use crate::fields::{number_to, span_at, thread_last, write_in};
use crate::stopping::breakpoint_at;
use evm_text::{after_word, hexadecimal_last};

#[tactic(auto, unfolding(crate::specs::Commands::memory_said))]
fn memory_said(bytes: &[u8]) -> Option<Command>
    ensures { result ≡ memory_said bytes.now }
{
    let ((address, count), rest) = span_at(bytes)?;
    if rest.is_empty() {
        Some(Command::Memory(address, count))
    } else {
        None
    }
}

#[tactic(auto, unfolding(crate::specs::Commands::digits_said))]
fn digits_said(bytes: &[u8]) -> Option<(Command, &[u8])>
    ensures { ReadsAs (λ x. (x.0, x.1.now)) result (digits_said bytes.now) }
{
    let ((address, count), digits) = write_in(bytes)?;
    Some((Command::WriteDigits(address, count), digits))
}

#[tactic(auto, unfolding(crate::specs::Commands::bytes_said))]
fn bytes_said(bytes: &[u8]) -> Option<(Command, &[u8])>
    ensures { ReadsAs (λ x. (x.0, x.1.now)) result (bytes_said bytes.now) }
{
    let ((address, count), others) = write_in(bytes)?;
    Some((Command::WriteBytes(address, count), others))
}

#[tactic(auto, unfolding(crate::specs::Commands::register_said))]
fn register_said(bytes: &[u8]) -> Option<(Command, &[u8])>
    ensures { ReadsAs (λ x. (x.0, x.1.now)) result (register_said bytes.now) }
{
    let (register, digits) = number_to(b"=", bytes)?;
    Some((Command::SetRegister(register), digits))
}

#[tactic(auto, unfolding(crate::specs::Commands::description_said))]
fn description_said(bytes: &[u8]) -> Option<Command>
    ensures { result ≡ description_said bytes.now }
{
    let ((offset, count), rest) = span_at(bytes)?;
    if rest.is_empty() {
        Some(Command::Description(offset, count))
    } else {
        None
    }
}

#[tactic(auto, unfolding(crate::specs::Commands::map_said))]
fn map_said(bytes: &[u8]) -> Option<Command>
    ensures { result ≡ map_said bytes.now }
{
    let ((offset, count), rest) = span_at(bytes)?;
    if rest.is_empty() {
        Some(Command::MemoryMap(offset, count))
    } else {
        None
    }
}

// Nothing behind it names the program that is there, without arguments.
fn run_said(rest: &[u8]) -> Option<Command>
    ensures { result ≡ run_said rest.now }
{
    Some(Command::Run(rest.is_empty()))
}

// The number of a process is of no use here, as there is one.
#[tactic(auto, unfolding(crate::specs::Commands::killed_said))]
fn killed_said(rest: &[u8]) -> Option<Command>
    ensures { result ≡ killed_said rest.now }
{
    let _process = hexadecimal_last(rest)?;
    Some(Command::KillProcess)
}

// So is the number of a restart, which must be there.
fn restart_said(rest: &[u8]) -> Option<Command>
    ensures { result ≡ restart_said rest.now }
{
    if rest.is_empty() {
        None
    } else {
        Some(Command::Restart)
    }
}

#[tactic(auto, unfolding(crate::specs::Commands::thread_said))]
fn thread_said(bytes: &[u8]) -> Option<Command>
    ensures { result ≡ thread_said bytes.now }
{
    if let Some(rest) = after_word(b"Hg", bytes) {
        return Some(Command::SelectThread(thread_last(rest)?));
    }
    if let Some(rest) = after_word(b"Hc", bytes) {
        return Some(Command::Choose(thread_last(rest)?));
    }
    if let Some(rest) = after_word(b"T", bytes) {
        return Some(Command::IsThread(thread_last(rest)?));
    }
    if let Some(rest) = after_word(b"qThreadExtraInfo,", bytes) {
        return Some(Command::ThreadText(thread_last(rest)?));
    }
    breakpoint_at(bytes)
}

// A command that is one word.
fn bare(command: Command, rest: &[u8]) -> Option<Command>
    ensures { result ≡ bare command rest.now }
{
    if rest.is_empty() { Some(command) } else { None }
}

#[tactic(auto, unfolding(crate::specs::Commands::named_command))]
fn named_command(bytes: &[u8]) -> Option<Command>
    ensures { result ≡ named_command bytes.now }
{
    if let Some(rest) = after_word(b"?", bytes) {
        return bare(Command::Why, rest);
    }
    if let Some(rest) = after_word(b"g", bytes) {
        return bare(Command::Registers, rest);
    }
    if let Some(rest) = after_word(b"D", bytes) {
        return bare(Command::Detach, rest);
    }
    if let Some(rest) = after_word(b"k", bytes) {
        return bare(Command::Kill, rest);
    }
    if let Some(rest) = after_word(b"qC", bytes) {
        return bare(Command::Looked, rest);
    }
    if let Some(rest) = after_word(b"qfThreadInfo", bytes) {
        return bare(Command::Threads, rest);
    }
    if let Some(rest) = after_word(b"qsThreadInfo", bytes) {
        return bare(Command::MoreThreads, rest);
    }
    if let Some(rest) = after_word(b"qAttached", bytes) {
        return bare(Command::Attached, rest);
    }
    if let Some(rest) = after_word(b"QStartNoAckMode", bytes) {
        return bare(Command::NoAcknowledgements, rest);
    }
    if let Some(rest) = after_word(b"vCont?", bytes) {
        return bare(Command::Actions, rest);
    }
    if let Some(rest) = after_word(b"!", bytes) {
        return bare(Command::Extended, rest);
    }
    if let Some(rest) = after_word(b"bs", bytes) {
        return bare(Command::Reverse(Pace::Step), rest);
    }
    if let Some(rest) = after_word(b"bc", bytes) {
        return bare(Command::Reverse(Pace::Continue), rest);
    }
    thread_said(bytes)
}

#[tactic(auto, unfolding(crate::specs::Commands::long_at))]
fn long_at(bytes: &[u8]) -> Option<Command>
    ensures { result ≡ long_at bytes.now }
{
    if let Some(_) = after_word(b"qSupported", bytes) {
        return Some(Command::Supported);
    }
    if let Some(rest) = after_word(b"qXfer:features:read:target.xml:", bytes) {
        return description_said(rest);
    }
    if let Some(rest) = after_word(b"qXfer:memory-map:read::", bytes) {
        return map_said(rest);
    }
    if let Some(rest) = after_word(b"vCont;", bytes) {
        return action_named(rest);
    }
    if let Some(rest) = after_word(b"vRun;", bytes) {
        return run_said(rest);
    }
    if let Some(rest) = after_word(b"vKill;", bytes) {
        return killed_said(rest);
    }
    if let Some(rest) = after_word(b"R", bytes) {
        return restart_said(rest);
    }
    if let Some(rest) = after_word(b"p", bytes) {
        return Some(Command::Register(hexadecimal_last(rest)?));
    }
    if let Some(rest) = after_word(b"m", bytes) {
        return memory_said(rest);
    }
    if let Some(command) = resume_said(bytes) {
        return Some(command);
    }
    named_command(bytes)
}

/// What a payload asks for, and the digits or bytes behind that. None where it is of no kind that is answered.
#[tactic(auto, unfolding(crate::specs::Commands::command_at))]
pub fn read_command(bytes: &[u8]) -> Option<(Command, &[u8])>
    ensures { ReadsAs (λ x. (x.0, x.1.now)) result (command_at bytes.now) }
{
    if let Some(rest) = after_word(b"G", bytes) {
        return Some((Command::SetRegisters, rest));
    }
    if let Some(rest) = after_word(b"P", bytes) {
        return register_said(rest);
    }
    if let Some(rest) = after_word(b"M", bytes) {
        return digits_said(rest);
    }
    if let Some(rest) = after_word(b"X", bytes) {
        return bytes_said(rest);
    }
    if let Some(rest) = after_word(b"qRcmd,", bytes) {
        return Some((Command::Monitor, rest));
    }
    let command = long_at(bytes)?;
    Some((command, &bytes[bytes.len()..]))
}
