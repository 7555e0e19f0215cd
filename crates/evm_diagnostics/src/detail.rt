//! The message of a fault of a script or a journal, from the line that has the fault.

use crate::fault::InputFault;
use crate::lookup::{ends_in_line, has_boot, is_of_version_3, line_numbered, line_read};
use crate::refusal_detail::refusal_detail;
use evm_debug::{JournalFault, JournalFaultKind, Line, read_line};
use evm_ram::Image;
use evm_streams::{Message, bad_line_detail, byte_detail, grammar_detail, odd_byte};

// The form that one of the first two lines of a journal should have. That of the second goes by the version.
fn header_form(number: u64, text: &[u8]) -> &'static str {
    if number == 1 && has_boot(text) && !text.starts_with(b"evl-journal") {
        "this is a script, not a journal; vardozek run --script makes its journal, as does its view `journal`"
    } else if number == 1 {
        "line 1 must be `evl-journal 1`, `evl-journal 2` or `evl-journal 3`"
    } else if is_of_version_3(text) {
        "line 2 of a journal of version 3 must be `boot P RAM CAP W`; without a watchdog W is 0"
    } else {
        "line 2 of a journal of version 1 or 2 must be `boot P RAM CAP`"
    }
}

// The first two lines of a journal.
fn header_detail(number: u64, text: &[u8], line: Option<&[u8]>) -> Message {
    match line {
        Some(line) => match odd_byte(line) {
            Some(byte) => byte_detail(byte),
            None => Message::Plain(header_form(number, text)),
        },
        None => Message::Plain(header_form(number, text)),
    }
}

// A line that is an event, or no line of a journal at all; whether the text ends with it.
fn other_line_detail(line: &Line, is_cut: bool) -> &'static str {
    match line {
        Line::Blank => "bad line: a journal has no comments and no empty lines",
        Line::Boot(_) => "bad line: only line 2 of a journal is a boot line",
        Line::Show(_) => "bad line: a journal has no views",
        Line::Steps(_, _) | Line::One(_) => {
            if is_cut {
                "bad line: no newline at the end of the journal"
            } else {
                "bad line: a journal has at most 1048576 events"
            }
        }
    }
}

// A line behind the second of a text.
fn event_line_detail(text: &[u8], line: Option<&[u8]>) -> Message {
    match line {
        Some(line) => match read_line(line) {
            Ok(read) => Message::Plain(other_line_detail(&read, ends_in_line(text, line))),
            Err(_) => grammar_detail(line),
        },
        None => Message::Plain(JournalFaultKind::Line.message()),
    }
}

fn journal_detail(text: &[u8], fault: JournalFault, line: Option<&[u8]>) -> Message {
    match fault.kind {
        JournalFaultKind::Header => header_detail(fault.line, text, line),
        JournalFaultKind::Line => event_line_detail(text, line),
        JournalFaultKind::NotCanonical => {
            Message::Plain("consecutive steps of one processor must be on one line")
        }
        JournalFaultKind::NoMemory => Message::Plain(JournalFaultKind::NoMemory.message()),
    }
}

/// The message of a fault of a script or a journal, whose machine boots with the image, if there is one: the number
/// that is out of range with its limits, or the form that the line should have.
pub fn fault_detail(image: Option<&Image>, text: &[u8], fault: InputFault) -> Message {
    match fault {
        InputFault::BadLine(number, fault) => bad_line_detail(fault, line_numbered(number, text)),
        InputFault::Refused(number, cpu, refusal) => {
            let line = line_read(number, text);
            refusal_detail(image, text, line.as_ref(), cpu, refusal)
        }
        InputFault::NoJournal(fault) => journal_detail(
            text,
            fault,
            line_numbered(fault.line, text),
        ),
        InputFault::NoProgram(fault) => Message::Plain(fault.kind.message()),
    }
}
