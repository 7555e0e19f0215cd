//! Where two journals part, in words.

use crate::comparing::Parting;
use evm_room::{Refused, push_text};
use std::alloc::Global;
use view_picture::{Boot, EventLine, Piece, push_boot_line, push_event_line, say};

/// The names of two journals.
#[derive(Clone, Copy)]
pub(crate) struct Sides<'a> {
    pub(crate) journal: &'a str,
    pub(crate) other: &'a str,
}

// Appends the name of a journal and its event.
fn push_side(out: &mut String, name: &str, line: &Option<EventLine>) -> Result<(), Refused> {
    say(
        out,
        &[Piece::Text("  "), Piece::Text(name), Piece::Text(": ")],
    )?;
    match line {
        None => push_text(out, "it ends\n"),
        Some(line) => {
            push_event_line(out, line)?;
            push_text(out, "\n")
        }
    }
}

/// What is said of journals that part.
pub(crate) fn parting_text(
    alloc: Global,
    names: Sides<'_>,
    parting: &Parting,
) -> Result<String, Refused> {
    let mut out = String::new(alloc);
    say(
        &mut out,
        &[
            Piece::Text("the journals part at event "),
            Piece::Number(parting.event),
            Piece::Text("\n"),
        ],
    )?;
    push_side(&mut out, names.journal, &parting.first)?;
    push_side(&mut out, names.other, &parting.second)?;
    Ok(out)
}

// Appends the name of a journal and its boot numbers.
fn push_boot_side(out: &mut String, name: &str, boot: &Boot) -> Result<(), Refused> {
    say(
        out,
        &[Piece::Text("  "), Piece::Text(name), Piece::Text(": ")],
    )?;
    push_boot_line(out, boot)?;
    push_text(out, "\n")
}

/// What is said of journals whose boot numbers differ.
pub(crate) fn boots_text(
    alloc: Global,
    names: Sides<'_>,
    one: &Boot,
    two: &Boot,
) -> Result<String, Refused> {
    let mut out = String::new(alloc);
    push_text(&mut out, "the journals part at their boot numbers\n")?;
    push_boot_side(&mut out, names.journal, one)?;
    push_boot_side(&mut out, names.other, two)?;
    Ok(out)
}

/// What is said of journals that are alike.
pub(crate) fn alike_text(alloc: Global, events: u64) -> Result<String, Refused> {
    let mut out = String::new(alloc);
    let pieces = [
        Piece::Text("the journals are alike: "),
        Piece::Number(events),
        Piece::Text(" events\n"),
    ];
    say(&mut out, &pieces)?;
    Ok(out)
}
