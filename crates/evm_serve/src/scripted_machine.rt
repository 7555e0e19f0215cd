//! A scripted machine: one that only lines of a script boot and change.

ghost use Rattle.std.specs.Prelude.{◌≡◌, OnOk, OnErr, None, option_copied};
ghost use Rattle.std.specs.String.{string_bytes};
ghost use Rattle.evm_serve.specs.ScriptedMachine.{IsDoneBy, LeavesMachine, NotedFrom, ReplaysMachine, lines_done, machine_in};

use crate::notes::Notes;
use crate::plain::PlainLine;
use crate::session::Session;
use crate::stop::ScriptStop;
use evm_devs::{AnyDevice, program_devices};
use evm_diagnostics::Machine;
use evm_ram::Image;
use evm_room::NoMemory;
use std::alloc::Global;
use std::marker::Model;

/// An image, and the machine that lines of a script have made with it, if one has booted it. Nothing else changes the
/// machine: the lines that were done, as a script, leave it.
#[derive(Drop)]
pub struct ScriptedMachine<'a> {
    image: &'a Image,
    session: Option<Session<AnyDevice>>,
}

impl<'a> Model for ScriptedMachine<'a> {
    ghost use Rattle.evm_serve.specs.ScriptedMachine.{ScriptedMachineState, IsScriptedIn};

    ghost Value = { ScriptedMachineState };

    ghost view = { λ b. record { image = b.image.now; sitting = b.session } };

    ghost invariant = { λ b. IsScriptedIn b.image.now b.session };
}

impl<'a> ScriptedMachine<'a> {
    /// No machine yet; a boot line loads the image.
    pub fn new(image: &'a Image) -> Self
        ensures { result ≡ record { image = image.now; sitting = None } }
    {
        ScriptedMachine {
            image,
            session: None,
        }
    }

    /// Does a line of a script, without its newline, and replaces `text` by the text of its view. The first line boots the machine. `notes`
    /// gets the Steps of the line and the calls of tasks.
    ///
    /// # Errors
    ///
    /// Why the line is not done. The machine is unchanged.
    pub fn run(
        &mut self,
        alloc: Global,
        line: &[u8],
        text: &mut String,
        notes: &mut Notes,
    ) -> Result<(), ScriptStop>
        ensures done { OnOk result (IsDoneBy line.now self.old self.new (string_bytes text.new)) }
        ensures noted { OnOk result (NotedFrom self.old.sitting line.now notes.old notes.new) }
        ensures refused { OnErr result (self.new ≡ self.old) }
    {
        text.clear();
        if let Some(session) = &mut self.session {
            return session.run(alloc, line, text, notes);
        }
        notes.begin();
        let Ok(devices) = program_devices(alloc) else {
            return Err(ScriptStop::NoMemory);
        };
        let session = Session::boot(alloc, self.image, devices, line)?;
        self.session = Some(session);
        Ok(())
    }

    /// The machine, if it is booted.
    pub fn machine(&self) -> Option<&Machine<AnyDevice>>
        ensures { option_copied result ≡ machine_in self.now.sitting }
    {
        match &self.session {
            None => None,
            Some(session) => Some(session.machine()),
        }
    }

    /// The lines that were done, the boot line first.
    pub fn lines(&self) -> &[PlainLine]
        ensures { result.now ≡ lines_done self.now.sitting }
    {
        match &self.session {
            None => &[],
            Some(session) => session.lines(),
        }
    }

    /// The lines that were done, each with a newline, are a script whose run makes the machine. The journal of the machine,
    /// replayed with the image, makes it too.
    #[tactic(auto, using(crate::proofs::SessionTexts::leaves))]
    pub fn rules(&self)
        ensures script { LeavesMachine self.now.image self.now.sitting }
        ensures journal { ReplaysMachine self.now.image self.now.sitting }
    {
        let _ = &self.image;
        match &self.session {
            None => {}
            Some(session) => session.machine().rules(),
        }
    }
}
