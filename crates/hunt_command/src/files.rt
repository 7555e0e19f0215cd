//! The files that a hunt writes.

use crate::job::HuntJob;
use evm_host::{
    FAILED, Message, System, World, failed_write_message, not_created, report, write_all,
};
use evm_room::NoMemory;
use hunt_search::{Found, failing_script, journal_text};

/// Creates a file and writes bytes to it, and returns the status: 0 if they were written.
pub(crate) fn write_file<S: System>(path: &str, bytes: &[u8], world: &mut World<S>) -> u8 {
    let mut file = match world.files.create(path) {
        Ok(file) => file,
        Err(fault) => return not_created(path, fault, &mut world.errors),
    };
    match write_all(&mut file, bytes) {
        Ok(()) => 0,
        Err(fault) => {
            let message = Message::Plain(failed_write_message(fault.cause));
            report(path, message, &mut world.errors);
            FAILED
        }
    }
}

/// Writes the journal and the script of a machine that has failed, to two files of a name, and returns the status: 0 if both were written.
///
/// # Errors
///
/// Memory was refused.
pub(crate) fn write_files<S: System>(
    job: &HuntJob<'_>,
    name: &str,
    found: &Found,
    seed: u64,
    world: &mut World<S>,
) -> Result<u8, NoMemory> {
    let alloc = job.target.alloc;
    let journal = journal_text(alloc, found)?;
    let script = failing_script(alloc, found, seed, job.names)?;
    let (Ok(journal_path), Ok(script_path)) = (
        format!(in alloc; "{name}.journal"),
        format!(in alloc; "{name}.script"),
    ) else {
        return Err(NoMemory);
    };
    let status = write_file(journal_path.as_str(), journal.as_bytes(), world);
    if status != 0 {
        return Ok(status);
    }
    Ok(write_file(script_path.as_str(), script.as_bytes(), world))
}
