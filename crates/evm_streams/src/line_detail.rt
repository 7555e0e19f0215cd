//! The message of a line outside the grammar: the first byte that is not printable, or the form of the command.

use crate::line_fault::LineFault;
use crate::message::{Message, Numeral};
use crate::near::{command_word, near_command, spacing};
use crate::printable::odd_byte;

/// The command `step` without its operands; `stepi` is another.
const STEP: &[u8] = b"step";

const STEP_FORM: &str =
    "bad line: step wants C N: a processor below 256 and a count of 1 to 1048576, decimal without leading zeros";

// The other commands, and the form that each wants. A command stands before those with which it begins.
const FORMS: [(&str, &str); 23] = [
    (
        "boot",
        "bad line: boot wants P RAM CAP or P RAM CAP W: processors, bytes, events and the ticks of a watchdog, decimal without leading zeros",
    ),
    ("tick", "bad line: tick stands alone on its line"),
    (
        "raise",
        "bad line: raise wants C L: a processor and an interrupt line, decimal, below 256",
    ),
    (
        "bell",
        "bad line: bell wants C L: a processor and an interrupt line, decimal, below 256",
    ),
    (
        "stop",
        "bad line: stop wants C: a processor, decimal, below 256",
    ),
    (
        "go",
        "bad line: go wants C: a processor, decimal, below 256",
    ),
    (
        "stepi",
        "bad line: stepi wants C: a processor, decimal, below 256",
    ),
    (
        "setpc",
        "bad line: setpc wants C V: a processor, decimal, and the pc, lower-case hexadecimal without 0x",
    ),
    (
        "set",
        "bad line: set wants C R V: a processor and a register, decimal, and a value, lower-case hexadecimal without 0x",
    ),
    (
        "poke",
        "bad line: poke wants A HEX: an address, lower-case hexadecimal without 0x, and 1 to 64 bytes of two digits each",
    ),
    (
        "break",
        "bad line: break wants A: an address, lower-case hexadecimal without 0x",
    ),
    (
        "unbreak",
        "bad line: unbreak wants A: an address, lower-case hexadecimal without 0x",
    ),
    (
        "regs",
        "bad line: regs wants C: a processor, decimal, below 256",
    ),
    (
        "mem",
        "bad line: mem wants A N: an address, lower-case hexadecimal without 0x, and a decimal count",
    ),
    (
        "stages",
        "bad line: stages wants C: a processor, decimal, below 256",
    ),
    ("tasks", "bad line: tasks stands alone on its line"),
    ("owners", "bad line: owners stands alone on its line"),
    ("rank", "bad line: rank wants T: a task, decimal, below 256"),
    (
        "counts",
        "bad line: counts wants C L: a processor and an interrupt line, decimal, below 256",
    ),
    ("journal", "bad line: journal stands alone on its line"),
    ("console", "bad line: console stands alone on its line"),
    ("notices", "bad line: notices stands alone on its line"),
    (
        "words",
        "bad line: words wants I: a device, decimal, below 256",
    ),
];

/// The message of a line that has a byte which is not printable.
pub fn byte_detail(byte: u8) -> Message {
    if byte == b'\r' {
        Message::Plain("bad line: a carriage return; save the file with Unix line ends")
    } else if byte == b'\t' {
        Message::Plain("bad line: a tab; one blank separates words")
    } else if byte == 0xef {
        Message::Plain(
            "bad line: byte ef, which begins a byte order mark; save the file without one",
        )
    } else {
        Message::WithOne(
            "bad line: byte ",
            Numeral::Hexadecimal(u64::from(byte)),
            " is not printable ASCII",
        )
    }
}

// A line whose first word is no command.
fn other_form(line: &[u8]) -> &'static str {
    if line.starts_with(b"evl-journal ") {
        return "bad line: this is a journal, not a script; evltool replay and vardozek view take it";
    }
    match near_command(command_word(line)) {
        Some(words) => words,
        None =>
            "bad line: no such command; there are boot, step, tick, raise, bell, stop, go, stepi, set, setpc, poke, break, unbreak, regs, mem, stages, tasks, owners, rank, notices, counts, journal, console and words",
    }
}

// The form that the first word of a line wants, if it is a command.
fn command_form(line: &[u8]) -> Option<&'static str> {
    if line.starts_with(b"step ") || line == STEP {
        return Some(STEP_FORM);
    }
    for (command, form) in FORMS {
        if line.starts_with(command.as_bytes()) {
            return Some(form);
        }
    }
    None
}

// A line of printable bytes.
fn printable_detail(line: &[u8]) -> &'static str {
    if let Some(words) = spacing(line) {
        return words;
    }
    match command_form(line) {
        Some(form) => form,
        None => other_form(line),
    }
}

/// The message of a line outside the grammar.
pub fn grammar_detail(line: &[u8]) -> Message {
    match odd_byte(line) {
        Some(byte) => byte_detail(byte),
        None => Message::Plain(printable_detail(line)),
    }
}

/// The message of a bad line of a script.
pub fn bad_line_detail(fault: LineFault, line: Option<&[u8]>) -> Message {
    match (fault, line) {
        (LineFault::OutsideGrammar, Some(line)) => grammar_detail(line),
        _ => Message::Plain(fault.message()),
    }
}
