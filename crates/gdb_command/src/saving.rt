//! A session is saved: the events up to its place, as a journal and as a script.

ghost use Rattle.std.specs.Prelude.{◌≡◌, ◌++◌, OnOk};
ghost use Rattle.std.specs.String.{string_bytes};
ghost use Rattle.gdb_command.specs.Saved.{IsKept, IsSaved};

use crate::command::PROGRAM;
use evm_host::{Ending, System, World, ended, memory_refused, not_created, write_all};
use evm_room::push_text;
use gdb_answers::{GdbSession, write_journal};
use std::alloc::Global;

// Writes a file whose name ends so.
fn save_file<S: System>(
    alloc: Global,
    name: &str,
    ending: &str,
    text: &str,
    world: &mut World<S>,
) -> Result<(), u8>
    ensures { OnOk result (IsKept S.creates S.Created.takes (name.now ++ ending.now) text.now world.old.files world.new.files) }
{
    let mut path = String::new(alloc);
    if push_text(&mut path, name).is_err() {
        return Err(memory_refused(PROGRAM, world));
    }
    if push_text(&mut path, ending).is_err() {
        return Err(memory_refused(PROGRAM, world));
    }
    let mut file = match world.files.create(path.as_str()) {
        Ok(file) => file,
        Err(fault) => return Err(not_created(path.as_str(), fault, &mut world.errors)),
    };
    match write_all(&mut file, text.as_bytes()) {
        Ok(()) => Ok(()),
        Err(fault) => {
            let ending = Ending::WriteFailed(fault);
            Err(ended(path.as_str(), &ending, &mut world.errors))
        }
    }
}

// The lines of a journal that are those of a script: all but the first.
fn script_of(journal: &str) -> &str {
    match journal.split_once('\n') {
        Some((_, script)) => script,
        None => "",
    }
}

// Saves the events up to the place of a session under a name.
fn save_as<S: System>(alloc: Global, session: &GdbSession, world: &mut World<S>) -> Result<(), u8>
    ensures { OnOk result (IsSaved S.creates S.Created.takes (string_bytes session.now.save) session.now.tape.machine world.old.files world.new.files) }
{
    let Ok(text) = write_journal(alloc, &session.tape.machine) else {
        return Err(memory_refused(PROGRAM, world));
    };
    let name = session.save.as_str();
    save_file(alloc, name, ".journal", text.as_str(), world)?;
    save_file(alloc, name, ".script", script_of(text.as_str()), world)
}

/// Saves the events up to the place of a session, as a journal and as a script, under the name that it is to be saved as.
///
/// # Errors
///
/// The status of the job: memory was refused, or a file can't be created or written, which is reported.
pub(crate) fn save<S: System>(
    alloc: Global,
    session: &mut GdbSession,
    world: &mut World<S>,
) -> Result<(), u8>
    ensures saved { OnOk result (IsSaved S.creates S.Created.takes (string_bytes session.old.save) session.old.tape.machine world.old.files world.new.files) }
    ensures kept { session.new.tape ≡ session.old.tape }
{
    let outcome = save_as(alloc, session, world);
    session.save.clear();
    outcome
}
