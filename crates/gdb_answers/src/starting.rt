//! The program is started or ended, and when the machine boots anew for that.

ghost use Rattle.std.specs.Prelude.{◌≡◌, ◌++◌, ℕ, List, OnOk, Option};
ghost use Rattle.std.specs.List.{list_all};
ghost use Rattle.gdb_answers.specs.Starting.{are_digits, asks_boot, begin_text, booted_text, has_reply, loads_program, may_boot, payload_boots, starting_text, waits_for_boot, writes_whole};
ghost use Rattle.gdb_answers.specs.Turns.{pause};
ghost use Rattle.gdb_packets.specs.Hexadecimal.{is_hexadecimal};
ghost use Rattle.gdb_tape.specs.Tape.{KeepsTape};

use crate::answering::MALFORMED;
use crate::serving::Ended;
use crate::session::{Booting, GdbSession};
use evm_room::Refused;
use gdb_packets::{Command, PacketItem, is_hexadecimal, read_command};
use gdb_tape::{is_inside, push_bytes, push_error, push_halt};

/// The most bytes that a variable at the entry of a program could have.
const LONGEST_WORD: u64 = 8;

// Whether bytes are those of a program that is loaded: more than a word, over the entry.
fn loads_program(entry: u64, address: u64, count: u64) -> bool
    ensures { result ≡ loads_program entry address count }
{
    count > LONGEST_WORD && address <= entry && entry - address < count
}

// Whether the machine is to boot anew before a command is answered: where GDB starts or ends the program that it may start again, or
// loads one.
fn asks_boot(extended: bool, entry: u64, command: Command) -> bool
    ensures { result ≡ asks_boot extended entry command }
{
    match command {
        Command::Run(is_default) => extended && is_default,
        Command::Restart | Command::Kill | Command::KillProcess => extended,
        Command::WriteDigits(address, count) | Command::WriteBytes(address, count) => {
            loads_program(entry, address, count)
        }
        _ => false,
    }
}

/// Whether GDB waits for an answer to a command.
pub(crate) fn has_reply(extended: bool, command: Command) -> bool
    ensures { result ≡ has_reply extended command }
{
    match command {
        Command::Kill => false,
        Command::Restart => !extended,
        _ => true,
    }
}

// The answer behind a boot: why the program is stopped at its begin. Where its image could not be read that is refused.
fn answer_booted(session: &GdbSession, out: &mut Vec<u8>) -> Result<(), Refused>
    ensures said { OnOk result (out.new.items ≡ out.old.items ++ booted_text session.now.booting session.now.halt) }
{
    match session.booting {
        Booting::Done => push_halt(out, &session.halt),
        Booting::Idle | Booting::Asked | Booting::Failed => push_error(out, MALFORMED),
    }
}

// The answer to a program that is started. Another program and arguments are refused.
#[tactic(auto, using(crate::proofs::Extending::behind_nothing))]
fn answer_run(session: &GdbSession, is_default: bool, out: &mut Vec<u8>) -> Result<(), Refused>
    ensures said { OnOk result (out.new.items ≡ out.old.items ++ begin_text session.now.extended is_default session.now.booting session.now.halt) }
{
    if !session.extended {
        return Ok(());
    }
    if is_default {
        answer_booted(session, out)
    } else {
        push_error(out, MALFORMED)
    }
}

/// The answer to a command by which GDB starts or ends the program, or says that it will.
#[tactic(auto, using(gdb_tape::proofs::Keeping::keeps_same, crate::proofs::Extending::behind_nothing))]
pub(crate) fn answer_start(
    session: &mut GdbSession,
    command: Command,
    out: &mut Vec<u8>,
) -> Result<(), Refused>
    ensures said { (text : List ℕ) → starting_text session.old.extended session.old.booting session.old.halt command ≡ Option.Some text → OnOk result (out.new.items ≡ out.old.items ++ text) }
    ensures kept { KeepsTape session.old.tape session.new.tape }
{
    match command {
        Command::Extended => {
            session.extended = true;
            push_bytes(out, b"OK")
        }
        Command::Run(is_default) => answer_run(session, is_default, out),
        Command::KillProcess => {
            session.over = !session.extended;
            push_bytes(out, b"OK")
        }
        _ => Ok(()),
    }
}

// Whether each of them is a hexadecimal digit.
fn are_hexadecimal(digits: &[u8]) -> bool
    ensures { result ≡ list_all is_hexadecimal digits.now }
{
    digits.iter().all(|digit| is_hexadecimal(*digit))
}

// Whether these are the digits of a number of bytes.
fn are_digits(count: u64, digits: &[u8]) -> bool
    ensures { result ≡ are_digits count digits.now }
{
    digits.len() % 2 == 0 && (digits.len() / 2) as u64 == count && are_hexadecimal(digits)
}

// Whether a command that writes has as many bytes as it says, and they are all in RAM. Of others nothing is asked.
fn writes_whole(session: &GdbSession, command: Command, behind: &[u8]) -> bool
    ensures { result ≡ writes_whole behind.now session.now.tape.machine command }
{
    let machine = &session.tape.machine;
    match command {
        Command::WriteDigits(address, count) => {
            are_digits(count, behind) && is_inside(machine, address, count)
        }
        Command::WriteBytes(address, count) => {
            behind.len() as u64 == count && is_inside(machine, address, count)
        }
        _ => true,
    }
}

// Whether a payload asks that the machine boots anew.
fn payload_boots(session: &GdbSession, payload: &[u8]) -> bool
    ensures { result ≡ payload_boots session.now.extended session.now.tape.image.entry payload.now session.now.tape.machine }
{
    match read_command(payload) {
        Some((command, behind)) => {
            let entry = session.tape.image.entry();
            asks_boot(session.extended, entry, command) && writes_whole(session, command, behind)
        }
        None => false,
    }
}

// Whether no boot was tried for the packet.
fn may_boot(booting: Booting) -> bool
    ensures { result ≡ may_boot booting }
{
    matches!(booting, Booting::Idle | Booting::Asked)
}

/// Whether the machine is to boot anew before an item is answered; once it has, or could not, it is answered.
pub(crate) fn waits_for_boot(session: &GdbSession, item: PacketItem, payload: &[u8]) -> bool
    ensures { result ≡ waits_for_boot session.now.booting item (payload_boots session.now.extended session.now.tape.image.entry payload.now session.now.tape.machine) }
{
    match item {
        PacketItem::Packet => may_boot(session.booting) && payload_boots(session, payload),
        _ => false,
    }
}

/// Why the server pauses behind the items that it has answered, if it does.
pub(crate) fn pause_of(session: &GdbSession) -> Option<Ended>
    ensures { result ≡ pause session.now }
{
    if session.over {
        Some(Ended::Left)
    } else if !session.save.is_empty() {
        Some(Ended::Saves)
    } else if matches!(session.booting, Booting::Asked) {
        Some(Ended::Boots)
    } else {
        None
    }
}
