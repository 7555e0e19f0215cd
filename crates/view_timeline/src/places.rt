//! Addresses, tasks and objects, with the names that the image has for them.

use crate::pieces::{Piece, say};
use Piece::{Address, Number, Text};
use evm_model::Wait;
use evm_room::Refused;
use run_walk::{Names, RunNames};
use text_symbols::{CodeSpot, push_code};

/// The names that a text may use.
#[derive(Clone, Copy)]
pub struct Naming<'a> {
    /// The symbols of the image, and its map.
    pub image: &'a Names,
    /// The names of the tasks and objects.
    pub run: &'a RunNames,
}

// Whether a name has only printable characters of ASCII: others may not be XML's.
fn is_plain(name: &str) -> bool {
    name.as_bytes()
        .iter()
        .all(|byte| *byte > b' ' && *byte <= b'~')
}

/// Appends an address in hexadecimal, and the line of a source or the symbol that it belongs to, if there is one.
pub(crate) fn push_place(
    out: &mut String,
    address: u64,
    naming: Naming<'_>,
) -> Result<(), Refused> {
    say(out, &[Address(address)])?;
    match naming.image.code(address) {
        None => Ok(()),
        Some(CodeSpot::Symbol(name, _)) if !is_plain(name) => Ok(()),
        Some(spot) => {
            say(out, &[Text(" (")])?;
            push_code(out, spot)?;
            say(out, &[Text(")")])
        }
    }
}

/// Appends a name in parentheses, if there is one.
pub(crate) fn push_name(out: &mut String, name: Option<&str>) -> Result<(), Refused> {
    match name {
        None => Ok(()),
        Some(name) => say(out, &[Text(" ("), Text(name), Text(")")]),
    }
}

/// Appends a task: its number, and its name if it has one.
pub fn push_task(out: &mut String, task: u8, naming: Naming<'_>) -> Result<(), Refused> {
    say(out, &[Text("task "), Number(u64::from(task))])?;
    push_name(out, naming.run.task(task))
}

/// The name of what is waited for, and its number, if it has one.
pub fn wait_name(wait: Wait) -> (&'static str, Option<u8>) {
    match wait {
        Wait::Line(line) => ("line ", Some(line)),
        Wait::Lock(mutex) | Wait::Reacquire { mutex, .. } => ("mutex ", Some(mutex)),
        Wait::Semaphore(semaphore) => ("semaphore ", Some(semaphore)),
        Wait::Event(event) => ("event object ", Some(event)),
        Wait::Flags(group) => ("flag group ", Some(group)),
        Wait::Sleep => ("a tick", None),
        Wait::Timer(timer) => ("timer ", Some(timer)),
    }
}

/// Appends what is waited for, and its name if it has one.
pub fn push_waited(out: &mut String, wait: Wait, naming: Naming<'_>) -> Result<(), Refused> {
    let (kind, number) = wait_name(wait);
    say(out, &[Text(kind)])?;
    match number {
        None => Ok(()),
        Some(number) => {
            say(out, &[Number(u64::from(number))])?;
            push_name(out, naming.run.waited(wait))
        }
    }
}
