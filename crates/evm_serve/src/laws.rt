//! Laws of replays, of sessions, and of runs over known bytes: each is a contract that nothing has to be done for.

ghost use Rattle.evm_serve.specs.ReplayLaws.{RefusedOnItsLine, ReplaysSaved};
ghost use Rattle.evm_serve.specs.SessionLaws.{TextIsScript};
ghost use Rattle.evm_serve.specs.Known.{ServesKnown, ServesKnownText, ImportsKnownFile, AssemblesIntoKnown};

use evm_dev::Device;
use evm_diagnostics::Machine;
use std::io::{Read, Write};

/// A refused event is reported with the number of the line on which it stands in the journal.
pub fn refused_on_its_line()
    ensures { RefusedOnItsLine }
{}

/// The journal that a machine saved, replayed with the devices and the image that it booted with, shows that machine.
pub fn replays_saved<D: Device>(machine: &Machine<D>)
    ensures { ReplaysSaved machine.now }
{
    machine.rules();
}

/// The text of a session's lines, each with a newline, is a script of these lines: it leaves the session's machine.
pub fn text_is_script()
    ensures { TextIsScript }
{}

/// A run over a reader and a writer of std whose bytes are known, as a slice's and a `Vec`'s are, is the run of these
/// bytes: what it writes stands behind what the writer held.
pub fn known_inputs_are_served<R: Read, W: Write>()
    ensures { ServesKnown R.remaining W.contents }
{}

/// Likewise a run that reads a text, as a replay does.
pub fn known_texts_are_served<R: Read, W: Write>()
    ensures { ServesKnownText R.remaining W.contents }
{}

/// An image read from known bytes is the image of these bytes.
pub fn known_files_are_imported<R: Read, W: Write>()
    ensures { ImportsKnownFile R.remaining W.contents }
{}

/// A file and a report written behind known contents stand there.
pub fn known_contents_are_assembled_into<W: Write, T: Write>()
    ensures { AssemblesIntoKnown W.contents T.contents }
{}
