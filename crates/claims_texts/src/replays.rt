//! Laws over whole scripts and whole machines: what they leave behind is given back by its journal.

ghost use Rattle.std.specs.Prelude.{IfOk, OnErr, length};
ghost use Rattle.std.specs.String.{string_bytes};
ghost use Rattle.evm_room.specs.Growth.{RefusedWithin};
ghost use Rattle.evm_serve.specs.evm_journal.Journal.{journal_text};
ghost use Rattle.claims_texts.specs.Machines.{ShowsAgain, WritesItAgain};
ghost use Rattle.claims_texts.specs.Scripts.{PrintsItsJournal, ShowsItsMachine};

use evm_dev::Device;
use evm_room::NoMemory;
use evm_serve::{Machine, replays_saved, write_journal};
use std::alloc::Global;

/// Of every script that comes to its end with an image in its machine: one more line `journal` prints the journal of
/// the machine that it leaves, and that text, replayed with the same devices and the same image, shows that
/// machine, with status 0. Nothing else is asked of the script, of its numbers, of the devices or of the image.
pub fn a_printed_journal_shows_its_machine()
    ensures prints { PrintsItsJournal }
    ensures shows { ShowsItsMachine }
{}

/// A journal that was read and replayed to its end is written again byte for byte, in the version that it had.
pub(crate) fn a_replayed_journal_is_written_again()
    ensures { WritesItAgain }
{}

/// The journal of a machine: of one that was booted with devices, loaded with an image and driven, however it was, the
/// text, replayed with the same devices and the same image, shows that machine, with status 0. Nothing else is
/// asked of the machine.
pub fn a_written_journal_shows_its_machine<D: Device>(
    alloc: Global,
    machine: &Machine<D>,
) -> Result<String, NoMemory>
    ensures again { IfOk result (λ text. ShowsAgain (string_bytes text) machine.now) }
    // It gives up only where a growth was refused that is no greater than the text.
    ensures refused { OnErr result (RefusedWithin (length (journal_text machine.now.boot machine.now.journal))) }
{
    replays_saved(machine);
    match write_journal(alloc, machine) {
        Ok(text) => Ok(text),
        Err(_) => Err(NoMemory),
    }
}
