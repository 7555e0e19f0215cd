//! Loads and stores of places outside RAM: of registers of devices, or faults.

ghost use Rattle.std.specs.Prelude.{◌≡◌, Some, false};
ghost use Rattle.evm_board.specs.Steps.{IsRunning};
ghost use Rattle.evm_board.specs.Ticks.{IsLineNumber};
ghost use Rattle.evm_exec.specs.declared.outcome.Effect.TheVariants as effects;
ghost use Rattle.evm_model.specs.Bounds.{STAMPS_PER_EVENT, HasRoom};
ghost use Rattle.evm_model.specs.Devices.{raise_line};
ghost use Rattle.evm_model.specs.Harts.{advance, set_register};
ghost use Rattle.evm_model.specs.Instructions.{finish};
ghost use Rattle.evm_model.specs.Settle.{settle_and_nudge};
ghost use Rattle.evm_model.specs.State.{on_hart, on_parts};
ghost use Rattle.law_rules.specs.Few.{AreFew};

use crate::access::Access;
use crate::board::Board;
use crate::instructions::fault_and_settle;
use crate::ticking::raise_line;
use evm_dev::Device;
use evm_exec::{load_width, loaded};
use evm_isa::{LoadOp, Register};
use evm_model::Fault;
use evm_ram::Width;
use evm_settle::{Parts, settle_and_nudge};

// A register has what was loaded, and the pc goes on.
fn load(parts: &mut Parts, t: u8, rd: Register, value: u64)
    ensures { parts.new ≡ on_hart t (λ hart. advance (set_register rd value hart)) parts.old }
{
    parts.harts.write_and_advance(t, rd, value);
}

// The pc goes on.
fn advance(parts: &mut Parts, t: u8)
    ensures { parts.new ≡ on_hart t advance parts.old }
{
    parts.harts.advance(t);
}

// A register has what was loaded and the pc goes on, the line of a device is raised, and the processor settles.
fn load_and_settle(parts: &mut Parts, c: u8, t: u8, rd: Register, value: u64, line: Option<u8>)
    requires line { IsLineNumber line }
    requires room { HasRoom STAMPS_PER_EVENT parts.old }
    requires few { AreFew parts.old }
    ensures { parts.new ≡ settle_and_nudge (Some t) c (raise_line line (on_hart t (λ hart. advance (set_register rd value hart)) parts.old)) }
{
    load(parts, t, rd, value);
    raise_line(parts, line);
    settle_and_nudge(parts, Some(t), c);
}

// The pc goes on, the line of a device is raised, and the processor settles.
fn advance_and_settle(parts: &mut Parts, c: u8, t: u8, line: Option<u8>)
    requires line { IsLineNumber line }
    requires room { HasRoom STAMPS_PER_EVENT parts.old }
    requires few { AreFew parts.old }
    ensures { parts.new ≡ settle_and_nudge (Some t) c (raise_line line (on_hart t advance parts.old)) }
{
    advance(parts, t);
    raise_line(parts, line);
    settle_and_nudge(parts, Some(t), c);
}

impl<D: Device> Board<D> {
    /// A load from a place outside RAM.
    #[tactic(auto, unfolding(evm_model::specs::Instructions::finish))]
    pub(crate) fn finish_load(&mut self, c: u8, t: u8, op: LoadOp, rd: Register, address: u64)
        requires { IsRunning false c t self.old }
        ensures { self.new ≡ on_parts (settle_and_nudge (Some t) c) (finish (effects.Load op rd address) c t self.old) }
    {
        match self.memory.read(address, load_width(op)) {
            None => fault_and_settle(&mut self.parts, c, t, Fault::Load),
            Some(Access { number, line }) => {
                load_and_settle(&mut self.parts, c, t, rd, loaded(op, number), line)
            }
        }
    }

    /// A store to a place outside RAM.
    #[tactic(auto, unfolding(evm_model::specs::Instructions::finish))]
    pub(crate) fn finish_store(&mut self, c: u8, t: u8, width: Width, address: u64, value: u64)
        requires { IsRunning false c t self.old }
        ensures { self.new ≡ on_parts (settle_and_nudge (Some t) c) (finish (effects.Store width address value) c t self.old) }
    {
        match self.memory.write(address, width, value) {
            None => fault_and_settle(&mut self.parts, c, t, Fault::Store),
            Some(Access { line, .. }) => advance_and_settle(&mut self.parts, c, t, line),
        }
    }
}
