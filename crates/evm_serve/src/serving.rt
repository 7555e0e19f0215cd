ghost use Rattle.std.specs.Prelude.{List, ℕ, Result};
ghost use Rattle.evm_streams.specs.declared.source.ReadStop.{ReadStop};
ghost use Rattle.evm_streams.specs.Reads.{Reads};
ghost use Rattle.evm_serve.specs.Script.{script_report};
ghost use Rattle.evm_serve.specs.Playing.{Plays};
ghost use Rattle.evm_serve.specs.RunNotes.{notes, PlaysNotes, EndsNotes};
ghost use Rattle.evm_serve.specs.Serving.{Finishes, Serves};

use crate::ending::{Ending, Halt, Reply, Verdict};
use crate::nowhere::Nowhere;
use crate::options::RunOptions;
use crate::run_end::{ended, unread, write_fault};
use crate::script_line::{Bootable, NumberedLine, run_line};
use evm_dev::Device;
use evm_diagnostics::{cut_line, report_ended, report_note};
use evm_streams::{Sink, Source, read_all, write_all};
use std::alloc::Global;

/// A script, and the name that its messages begin with.
#[derive(Clone, Copy)]
struct NamedScript<'a> {
    name: &'a str,
    text: &'a [u8],
}

// Runs the lines of a script.
fn play<W: Sink, E: Sink, D: Device>(
    alloc: Global,
    options: RunOptions<'_, D>,
    script: &NamedScript<'_>,
    writer: &mut W,
    errors: &mut E,
) -> Result<Verdict, Halt>
    ensures report { Plays W.takes (script_report options.entry script.now.text.now) writer.old writer.new result }
    ensures noted { PlaysNotes E.takes (notes options.entry script.now.name.now script.now.text.now) result errors.old errors.new }
{
    let RunOptions { image, devices } = options;
    let mut run = Bootable {
        devices: Some(devices),
        machine: None,
    };
    let mut text = String::new(alloc);
    let mut rest = script.text;
    let mut number = 1u64;
    'lines: while let Some((line, after)) = cut_line(rest) {
        let line = NumberedLine { number, text: line };
        match run_line(alloc, image, &line, &mut run, &mut text) {
            Err(_) => return Err(Halt::NoMemory),
            Ok(Reply::Goes(note)) => {
                report_note(script.name, number, note, errors);
                if let Err(fault) = write_all(writer, text.as_bytes()) {
                    return Err(Halt::WriteFailed(fault));
                }
            }
            Ok(Reply::Ends(fault)) => return write_fault(alloc, fault, writer),
        }
        rest = after;
        number += 1;
    }
    report_ended(script.name, &run.machine, errors);
    Ok(Verdict::Done)
}

/// Runs the lines of a script and writes its report. The boot line boots the machine with the devices and the image of the options.
/// `errors` gets the notes on lines whose processor is stopped, and on tasks that ended by a fault.
pub fn run_script<W: Sink, E: Sink, D: Device>(
    alloc: Global,
    options: RunOptions<'_, D>,
    name: &str,
    script: &[u8],
    writer: &mut W,
    errors: &mut E,
) -> Ending
    ensures report { Finishes W.takes (script_report options.entry script.now) writer.old writer.new result }
    ensures noted { EndsNotes E.takes (notes options.entry name.now script.now) result errors.old errors.new }
{
    let named = NamedScript { name, text: script };
    let outcome = play(alloc, options, &named, writer, errors);
    ended(outcome, writer)
}

/// Like `run_script`, without notes.
pub fn serve_script<W: Sink, D: Device>(
    alloc: Global,
    script: &[u8],
    writer: &mut W,
    options: RunOptions<'_, D>,
) -> Ending
    ensures { Finishes W.takes (script_report options.entry script.now) writer.old writer.new result }
{
    run_script(alloc, options, "", script, writer, &mut Nowhere)
}

/// Like `serve_script`, of a script that it reads to its end. If the script can't be read, or has more than 16,777,216 bytes,
/// nothing is written.
pub fn serve<R: Source, W: Sink, D: Device>(
    alloc: Global,
    reader: &mut R,
    writer: &mut W,
    options: RunOptions<'_, D>,
) -> Ending
    ensures { (read : Result (List ℕ) ReadStop) × Reads R.gives reader.old reader.new read × Serves W.takes (script_report options.entry) read writer.old writer.new result }
{
    match read_all(alloc, reader) {
        Ok(script) => serve_script(alloc, script.as_slice(), writer, options),
        Err(stop) => unread(stop, writer),
    }
}
