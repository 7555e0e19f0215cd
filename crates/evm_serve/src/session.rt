//! A session: a machine, and the lines of a script that made it.

ghost use Rattle.std.specs.Prelude.{◌≡◌, List, [], ◌∷◌, IfOk, OnOk, OnErr, Some};
ghost use Rattle.std.specs.String.{string_bytes};
ghost use Rattle.evm_ram.specs.Images.{Contents};
ghost use Rattle.evm_model.specs.Devices.{Attached};
ghost use Rattle.evm_serve.specs.Noting.{noted_read};
ghost use Rattle.evm_serve.specs.Scripted.{IsScripted, IsLineDone, booted_by};
ghost use Rattle.evm_diagnostics.specs.evm_debug.LineReading.{line_at};

use crate::booting::boot;
use crate::notes::Notes;
use crate::plain::{PlainLine, is_one_line};
use crate::running::run_on;
use crate::stop::ScriptStop;
use evm_dev::Device;
use evm_diagnostics::{Devices, Machine};
use evm_ram::Image;
use evm_room::grow;
use std::alloc::Global;
use std::marker::Model;

/// A machine that only lines of a script change, and these lines.
#[derive(Debug, Drop)]
pub struct Session<D: Device> {
    machine: Machine<D>,
    lines: Vec<PlainLine>,
}

impl<D: Device> Model for Session<D> {
    ghost use Rattle.evm_serve.specs.Sitting.{Sitting};

    ghost Value = { Sitting };

    ghost view = { λ s. record { machine = s.machine; lines = s.lines.items } };
}

impl<D: Device> Session<D> {
    /// Begins a session by a boot line, without its newline. The machine has the devices, and the image is loaded.
    ///
    /// # Errors
    ///
    /// `NotBooted` if the line is another one; else why no such machine boots.
    #[tactic(auto, using(crate::proofs::Behind::first))]
    pub fn boot(
        alloc: Global,
        image: &Image,
        devices: Devices<D>,
        line: &[u8],
    ) -> Result<Session<D>, ScriptStop>
        ensures scripted { IfOk result (λ session. IsScripted devices image.now session) }
        ensures booted { IfOk result (λ session. (booted_by devices image.now (line_at line.now) ≡ Some session.machine) × (session.lines ≡ line.now ∷ [])) }
    {
        let mut lines = Vec::new(alloc);
        if !is_one_line(line) {
            return Err(ScriptStop::Misspelt);
        }
        let Ok(plain) = PlainLine::copied(alloc, line) else {
            return Err(ScriptStop::NoMemory);
        };
        let Ok(()) = grow(&mut lines, 1) else {
            return Err(ScriptStop::NoMemory);
        };
        lines.push_reserved(plain);
        let machine = boot(alloc, image, devices, line)?;
        Ok(Session { machine, lines })
    }

    // A line, and that it is behind the others then.
    fn add(
        &mut self,
        alloc: Global,
        line: &[u8],
        text: &mut String,
        notes: &mut Notes,
    ) -> Result<(), ScriptStop>
        requires { string_bytes text.old ≡ [] }
        ensures done { OnOk result (IsLineDone line.now self.old self.new (string_bytes text.new)) }
        ensures noted { OnOk result (notes.new ≡ noted_read (line_at line.now) self.old.machine notes.old) }
        ensures refused { OnErr result (self.new ≡ self.old) }
    {
        if !is_one_line(line) {
            return Err(ScriptStop::Misspelt);
        }
        let Ok(plain) = PlainLine::copied(alloc, line) else {
            return Err(ScriptStop::NoMemory);
        };
        let Ok(()) = grow(&mut self.lines, 1) else {
            return Err(ScriptStop::NoMemory);
        };
        run_on(&mut self.machine, line, text, notes)?;
        self.lines.push_reserved(plain);
        Ok(())
    }

    /// Does one more line of a script, without its newline, and replaces `text` by the text of its view. `notes` gets its Steps and the calls
    /// of tasks.
    ///
    /// # Errors
    ///
    /// Why the line is not done. The session is unchanged.
    pub fn run(
        &mut self,
        alloc: Global,
        line: &[u8],
        text: &mut String,
        notes: &mut Notes,
    ) -> Result<(), ScriptStop>
        ensures done { OnOk result (IsLineDone line.now self.old self.new (string_bytes text.new)) }
        ensures noted { OnOk result (notes.new ≡ noted_read (line_at line.now) self.old.machine notes.old) }
        ensures refused { OnErr result (self.new ≡ self.old) }
        // The lines still make the machine.
        ensures scripted { (devices : List Attached) (image : Contents) → IsScripted devices image self.old → IsScripted devices image self.new }
    {
        text.clear();
        match self.add(alloc, line, text, notes) {
            Ok(()) => Ok(()),
            Err(stop) => Err(stop),
        }
    }

    /// The machine.
    pub fn machine(&self) -> &Machine<D>
        ensures { result.now ≡ self.now.machine }
    {
        &self.machine
    }

    /// The lines, the boot line first.
    pub fn lines(&self) -> &[PlainLine]
        ensures { result.now ≡ self.now.lines }
    {
        &self.lines
    }
}
