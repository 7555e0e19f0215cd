//! The pieces of a line, and the text of each.

ghost use Rattle.std.specs.Prelude.{◌≡◌, ◌++◌};
ghost use Rattle.evm_journal.specs.evm_text.Appending.{Appends};
ghost use Rattle.evm_journal.specs.evm_text.Written.{decimal};
ghost use Rattle.evm_debug.specs.Views.{state_codes, wait_text, class_text, number_or_none};
ghost use Rattle.evm_debug.specs.Pieces.{piece_text, pieces_text};

use evm_journal::{push_decimal, push_hexadecimal_padded};
use evm_lines::{LINES, LineSet};
use evm_model::{Class, TaskState, Wait};
use evm_room::{Refused, push_text};

/// A piece of a line.
#[derive(Drop)]
pub(crate) enum Piece<'a> {
    Text(&'a str),
    Decimal(u64),
    /// 16 hexadecimal digits.
    Word(u64),
    /// 16 hexadecimal digits, bit l for line l.
    Lines(LineSet),
    Bit(bool),
    /// A task's number, or `none`.
    Number(Option<u8>),
    State(TaskState),
    Class(Class),
    /// The stage of a current task in this state.
    Stage(TaskState),
}

fn class_name(class: Class) -> &'static str
    ensures { result.now ≡ class_text class }
{
    match class {
        Class::Unattached => "none",
        Class::Fifo => "fifo",
        Class::RoundRobin => "rr",
        Class::Weak => "weak",
    }
}

// A word and a number behind it.
#[tactic(auto, using(crate::proofs::Below::lengths))]
fn push_numbered(out: &mut String, word: &str, number: u8) -> Result<(), Refused>
    ensures { Appends (word.now ++ decimal number) out.old out.new result }
{
    push_text(out, word)?;
    push_decimal(out, u64::from(number))
}

fn push_wait(out: &mut String, wait: Wait) -> Result<(), Refused>
    ensures { Appends (wait_text wait) out.old out.new result }
{
    match wait {
        Wait::Line(line) => push_numbered(out, "in-wait ", line),
        Wait::Lock(number) => push_numbered(out, "lock ", number),
        Wait::Reacquire { mutex, .. } => push_numbered(out, "lock ", mutex),
        Wait::Semaphore(number) => push_numbered(out, "semaphore ", number),
        Wait::Event(number) => push_numbered(out, "event ", number),
        Wait::Flags(number) => push_numbered(out, "flags ", number),
        Wait::Sleep => push_text(out, "sleep"),
        Wait::Timer(number) => push_numbered(out, "timer ", number),
    }
}

fn push_state(out: &mut String, state: TaskState) -> Result<(), Refused>
    ensures { Appends (state_codes state) out.old out.new result }
{
    match state {
        TaskState::InReady => push_text(out, "in-ready"),
        TaskState::OobReady => push_text(out, "oob-ready"),
        TaskState::Waits(wait) => push_wait(out, wait),
        TaskState::Exit => push_text(out, "exit"),
        TaskState::Faulted(fault) => push_numbered(out, "fault ", fault.number()),
    }
}

fn push_number(out: &mut String, task: Option<u8>) -> Result<(), Refused>
    ensures { Appends (number_or_none task) out.old out.new result }
{
    match task {
        None => push_text(out, "none"),
        Some(t) => push_decimal(out, u64::from(t)),
    }
}

fn push_piece(out: &mut String, piece: &Piece<'_>) -> Result<(), Refused>
    ensures { Appends (piece_text piece.now) out.old out.new result }
{
    match piece {
        Piece::Text(text) => push_text(out, text),
        Piece::Decimal(n) => push_decimal(out, *n),
        Piece::Word(n) => push_hexadecimal_padded(out, 16, *n),
        Piece::Lines(lines) => push_hexadecimal_padded(out, LINES / 4, lines.word()),
        Piece::Bit(bit) => push_text(out, if *bit { "1" } else { "0" }),
        Piece::Number(task) => push_number(out, *task),
        Piece::State(state) => push_state(out, *state),
        Piece::Class(class) => push_text(out, class_name(*class)),
        Piece::Stage(state) => push_text(
            out,
            if *state == TaskState::OobReady {
                "oob"
            } else {
                "in"
            },
        ),
    }
}

/// Appends the pieces, one behind another.
#[tactic(auto, using(crate::proofs::Below::lengths))]
pub(crate) fn push_pieces(out: &mut String, pieces: &[Piece<'_>]) -> Result<(), Refused>
    ensures { Appends (pieces_text pieces.now) out.old out.new result }
{
    for piece in pieces {
        push_piece(out, piece)?;
    }
    Ok(())
}
