//! A line that a booted machine does.

ghost use Rattle.std.specs.Prelude.{◌≡◌, [], OnOk, OnErr, Some, None};
ghost use Rattle.std.specs.String.{string_bytes};
ghost use Rattle.evm_diagnostics.specs.evm_core.Steps.{steps};
ghost use Rattle.evm_diagnostics.specs.evm_debug.LineReading.{line_at};
ghost use Rattle.evm_diagnostics.specs.evm_debug.Views.{shown};
ghost use Rattle.evm_model.specs.Replay.{apply};
ghost use Rattle.evm_serve.specs.Noted.{noted_ahead};
ghost use Rattle.evm_serve.specs.Noting.{event_ahead, noted_line, noted_read, noted_steps};
ghost use Rattle.evm_serve.specs.Scripted.{after_event, after_view, after_line, after_read, unless_refused, text_shown, line_text};

use crate::notes::Notes;
use crate::noting::{event_ahead, noted_steps};
use crate::stop::ScriptStop;
use evm_dev::Device;
use evm_diagnostics::{Event, Line, Machine, Refusal, View, ViewRefusal, push_view, read_line};

/// All of the Steps, or none of them.
fn run_steps<D: Device>(
    machine: &mut Machine<D>,
    c: u8,
    count: u32,
    notes: &mut Notes,
) -> Result<(), ScriptStop>
    requires { notes.old.swallowed ≡ 0 }
    ensures ok { OnOk result (unless_refused (steps c count machine.old).1 (steps c count machine.old).0 ≡ Some machine.new) }
    ensures noted { OnOk result (notes.new ≡ noted_steps c count machine.old notes.old) }
    ensures err { OnErr result (machine.new ≡ machine.old) }
{
    if u64::from(count) > machine.room() {
        return Err(ScriptStop::Refused(Refusal::Full));
    }
    if c >= machine.cpu_count() {
        return Err(ScriptStop::Refused(Refusal::NoSuchCpu));
    }
    machine.rules();
    match noted_steps(machine, c, count, notes) {
        Ok(()) => Ok(()),
        Err(_) => unreachable!(),
    }
}

fn run_event<D: Device>(
    machine: &mut Machine<D>,
    event: &Event,
    notes: &mut Notes,
) -> Result<(), ScriptStop>
    ensures ok { OnOk result (after_event (apply machine.old event.now) ≡ Some machine.new) }
    ensures noted { OnOk result (notes.new ≡ noted_ahead (event_ahead event.now machine.old) notes.old) }
    ensures err { OnErr result (machine.new ≡ machine.old) }
{
    let ahead = event_ahead(machine, event);
    match machine.apply(event.lend()) {
        Ok(_) => {
            notes.note_ahead(ahead);
            Ok(())
        }
        Err(refusal) => Err(ScriptStop::Refused(refusal)),
    }
}

fn run_view<D: Device>(
    machine: &Machine<D>,
    view: &View,
    text: &mut String,
) -> Result<(), ScriptStop>
    requires { string_bytes text.old ≡ [] }
    ensures ok { OnOk result (after_view (shown view.now machine.now) machine.now ≡ Some machine.now) }
    ensures text { OnOk result (string_bytes text.new ≡ text_shown (shown view.now machine.now)) }
{
    match push_view(text, machine, view) {
        Ok(()) => Ok(()),
        Err(ViewRefusal::Refused(refusal)) => Err(ScriptStop::Refused(refusal)),
        Err(ViewRefusal::NoMemory) => Err(ScriptStop::NoMemory),
    }
}

fn run_line<D: Device>(
    machine: &mut Machine<D>,
    line: Line,
    text: &mut String,
    notes: &mut Notes,
) -> Result<(), ScriptStop>
    requires empty { string_bytes text.old ≡ [] }
    requires quiet { notes.old.swallowed ≡ 0 }
    ensures ok { OnOk result (after_line line machine.old ≡ Some machine.new) }
    ensures text { OnOk result (string_bytes text.new ≡ line_text (Some line) machine.old) }
    ensures noted { OnOk result (notes.new ≡ noted_line line machine.old notes.old) }
    ensures err { OnErr result (machine.new ≡ machine.old) }
{
    match line {
        Line::Blank => Ok(()),
        Line::Boot(_) => Err(ScriptStop::BootedAgain),
        Line::Steps(c, count) => run_steps(machine, c, count, notes),
        Line::One(event) => run_event(machine, &event, notes),
        Line::Show(view) => run_view(machine, &view, text),
    }
}

/// Does a line of a script, and leaves the text of its view in `text`. Where it is not done the machine is as before.
pub(crate) fn run_on<D: Device>(
    machine: &mut Machine<D>,
    line: &[u8],
    text: &mut String,
    notes: &mut Notes,
) -> Result<(), ScriptStop>
    requires { string_bytes text.old ≡ [] }
    ensures ok { OnOk result (after_read (line_at line.now) machine.old ≡ Some machine.new) }
    ensures text { OnOk result (string_bytes text.new ≡ line_text (line_at line.now) machine.old) }
    ensures noted { OnOk result (notes.new ≡ noted_read (line_at line.now) machine.old notes.old) }
    ensures err { OnErr result (machine.new ≡ machine.old) }
{
    notes.begin();
    match read_line(line) {
        Ok(line) => run_line(machine, line, text, notes),
        Err(_) => Err(ScriptStop::Misspelt),
    }
}
