//! What the journal of a script gives back.

ghost use Rattle.claims_texts.specs.Machines.{WritesItAgain};
ghost use Rattle.claims_texts.specs.Scripts.{PrintsItsJournal, ShowsItsMachine};

use crate::replays::{a_printed_journal_shows_its_machine, a_replayed_journal_is_written_again};

/// One more line `journal` after a script with an image prints the journal of the machine that the script leaves; that
/// text, replayed with the same devices and image, shows that machine, with status 0. The machine that a journal makes
/// has that journal, byte for byte.
pub fn a_script_is_its_journal()
    ensures prints { PrintsItsJournal }
    ensures shows { ShowsItsMachine }
    ensures again { WritesItAgain }
{
    a_printed_journal_shows_its_machine();
    a_replayed_journal_is_written_again();
}
