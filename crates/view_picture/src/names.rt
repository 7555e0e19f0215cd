//! Names on bars and beside rows, as far as there is room.

use crate::layout::{LEFT, NAMES, label_width};
use evm_model::Wait;
use evm_room::{Refused, push_text};
use std::alloc::Global;
use view_timeline::{Naming, Piece, say};

// A word, a number, and a name, if there is one.
fn push_numbered(out: &mut String, word: &str, number: u8, name: &str) -> Result<(), Refused> {
    push_text(out, word)?;
    say(out, &[Piece::Number(u64::from(number))])?;
    if name.is_empty() {
        return Ok(());
    }
    push_text(out, " ")?;
    push_text(out, name)
}

// A number, with the word and the name as far as there is room for them.
fn numbered_name(
    alloc: Global,
    word: &str,
    number: u8,
    name: &str,
    room: u32,
) -> Result<String, Refused> {
    let mut text = String::new(alloc);
    push_numbered(&mut text, word, number, name)?;
    if label_width(text.as_str()) > room {
        text.clear();
        push_numbered(&mut text, "", number, name)?;
    }
    if label_width(text.as_str()) > room {
        text.clear();
        push_numbered(&mut text, word, number, "")?;
    }
    if label_width(text.as_str()) > room {
        text.clear();
        push_numbered(&mut text, "", number, "")?;
    }
    Ok(text)
}

/// The name of a task on a bar of this width.
pub(crate) fn bar_name(
    alloc: Global,
    task: u8,
    naming: Naming<'_>,
    width: u32,
) -> Result<String, Refused> {
    let name = naming.run.task(task).unwrap_or("");
    numbered_name(alloc, "task ", task, name, width.saturating_sub(6))
}

/// The name of a mutex in front of its row.
pub(crate) fn mutex_name(alloc: Global, mutex: u8, naming: Naming<'_>) -> Result<String, Refused> {
    let name = naming.run.waited(Wait::Lock(mutex)).unwrap_or("");
    numbered_name(alloc, "mutex ", mutex, name, LEFT - NAMES)
}
