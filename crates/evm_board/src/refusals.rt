ghost use Rattle.std.specs.Prelude.{◌≡◌, if◌then◌else◌, not, Option, length};
ghost use Rattle.evm_model.specs.Commands.{is_set};
ghost use Rattle.evm_model.specs.Event.{event_lent};
ghost use Rattle.evm_model.specs.Refusals.{board_refusal, no_such_cpu, no_such_line, not_stopped, runs_no_task, bad_register, misaligned, bad_bytes, bad_place, no_slot};

use crate::board::Board;
use evm_dev::Device;
use evm_exec::REGISTERS;
use evm_model::{BREAKPOINT_LIMIT, Block, Event, POKE_LIMIT, Refusal};

fn is_misaligned(address: u64) -> bool
    ensures { result ≡ misaligned address }
{
    address % 4 != 0
}

fn is_bad_register(r: u8) -> bool
    ensures { result ≡ bad_register r }
{
    r == 0 || r >= REGISTERS
}

impl<D: Device> Board<D> {
    fn lacks_cpu(&self, c: u8) -> bool
        ensures { result ≡ no_such_cpu c self.now }
    {
        self.parts.processor(c).is_none()
    }

    fn runs(&self, c: u8) -> bool
        ensures { result ≡ not_stopped c self.now }
    {
        match self.parts.processor(c) {
            None => true,
            Some(processor) => !processor.stopped,
        }
    }

    fn is_idle(&self, c: u8) -> bool
        ensures { result ≡ runs_no_task c self.now }
    {
        self.parts.current(c).is_none()
    }

    fn lacks_bytes(&self, address: u64, bytes: &[u8]) -> bool
        ensures { result ≡ bad_bytes address (length bytes.now) self.now }
    {
        bytes.is_empty()
            || bytes.len() > POKE_LIMIT
            || self.memory.bytes(address, bytes.len() as u64).is_none()
    }

    fn is_bad_place(&self, address: u64) -> bool
        ensures { result ≡ bad_place address self.now }
    {
        is_misaligned(address) || self.memory.bytes(address, 1).is_none()
    }

    fn lacks_slot(&self, address: u64) -> bool
        ensures { result ≡ no_slot address self.now }
    {
        self.breakpoint_count() >= BREAKPOINT_LIMIT && !self.is_breakpoint(address)
    }

    fn cpu_refusal(&self, c: u8) -> Option<Refusal>
        ensures { result ≡ (if no_such_cpu c self.now then Option.Some Refusal.NoSuchCpu else Option.None) }
    {
        if self.lacks_cpu(c) {
            Some(Refusal::NoSuchCpu)
        } else {
            None
        }
    }

    fn line_refusal(&self, c: u8, line: u8) -> Option<Refusal>
        ensures { result ≡ (if no_such_cpu c self.now then Option.Some Refusal.NoSuchCpu else (if no_such_line line self.now then Option.Some Refusal.NoSuchLine else Option.None)) }
    {
        if self.lacks_cpu(c) {
            Some(Refusal::NoSuchCpu)
        } else if line >= self.parts.line_count() {
            Some(Refusal::NoSuchLine)
        } else {
            None
        }
    }

    fn stopped_refusal(&self, c: u8) -> Option<Refusal>
        ensures { result ≡ (if no_such_cpu c self.now then Option.Some Refusal.NoSuchCpu else (if not_stopped c self.now then Option.Some Refusal.NotStopped else Option.None)) }
    {
        if self.lacks_cpu(c) {
            Some(Refusal::NoSuchCpu)
        } else if self.runs(c) {
            Some(Refusal::NotStopped)
        } else {
            None
        }
    }

    fn register_refusal(&self, c: u8, r: u8) -> Option<Refusal>
        ensures { result ≡ (if no_such_cpu c self.now then Option.Some Refusal.NoSuchCpu else (if not_stopped c self.now then Option.Some Refusal.NotStopped else (if runs_no_task c self.now then Option.Some Refusal.NoTask else (if bad_register r then Option.Some Refusal.BadRegister else Option.None)))) }
    {
        if self.lacks_cpu(c) {
            Some(Refusal::NoSuchCpu)
        } else if self.runs(c) {
            Some(Refusal::NotStopped)
        } else if self.is_idle(c) {
            Some(Refusal::NoTask)
        } else if is_bad_register(r) {
            Some(Refusal::BadRegister)
        } else {
            None
        }
    }

    fn pc_refusal(&self, c: u8, pc: u64) -> Option<Refusal>
        ensures { result ≡ (if no_such_cpu c self.now then Option.Some Refusal.NoSuchCpu else (if not_stopped c self.now then Option.Some Refusal.NotStopped else (if runs_no_task c self.now then Option.Some Refusal.NoTask else (if misaligned pc then Option.Some Refusal.BadAddress else Option.None)))) }
    {
        if self.lacks_cpu(c) {
            Some(Refusal::NoSuchCpu)
        } else if self.runs(c) {
            Some(Refusal::NotStopped)
        } else if self.is_idle(c) {
            Some(Refusal::NoTask)
        } else if is_misaligned(pc) {
            Some(Refusal::BadAddress)
        } else {
            None
        }
    }

    fn poke_refusal(&self, address: u64, bytes: &[u8]) -> Option<Refusal>
        ensures { result ≡ (if bad_bytes address (length bytes.now) self.now then Option.Some Refusal.BadAddress else Option.None) }
    {
        if self.lacks_bytes(address, bytes) {
            Some(Refusal::BadAddress)
        } else {
            None
        }
    }

    fn break_refusal(&self, address: u64) -> Option<Refusal>
        ensures { result ≡ (if bad_place address self.now then Option.Some Refusal.BadAddress else (if no_slot address self.now then Option.Some Refusal.NoSlot else Option.None)) }
    {
        if self.is_bad_place(address) {
            Some(Refusal::BadAddress)
        } else if self.lacks_slot(address) {
            Some(Refusal::NoSlot)
        } else {
            None
        }
    }

    fn unbreak_refusal(&self, address: u64) -> Option<Refusal>
        ensures { result ≡ (if bad_place address self.now then Option.Some Refusal.BadAddress else (if not (is_set self.now.breakpoints address) then Option.Some Refusal.NoBreakpoint else Option.None)) }
    {
        if self.is_bad_place(address) {
            Some(Refusal::BadAddress)
        } else if !self.is_breakpoint(address) {
            Some(Refusal::NoBreakpoint)
        } else {
            None
        }
    }

    /// Why an event is refused that finds room in the journal: the first reason by its number.
    #[tactic(auto, unfolding(evm_model::specs::Refusals::board_refusal))]
    pub fn refusal(&self, event: &Event<&Block>) -> Option<Refusal>
        ensures { result ≡ board_refusal (event_lent event.now) self.now }
    {
        match event {
            Event::Tick => None,
            Event::Step(c) | Event::Stop(c) => self.cpu_refusal(*c),
            Event::Raise(c, line) | Event::Bell(c, line) => self.line_refusal(*c, *line),
            Event::Go(c) | Event::StepI(c) => self.stopped_refusal(*c),
            Event::SetReg(c, r, _) => self.register_refusal(*c, *r),
            Event::SetPc(c, pc) => self.pc_refusal(*c, *pc),
            Event::Poke(address, bytes) => self.poke_refusal(*address, bytes.as_slice()),
            Event::Break(address) => self.break_refusal(*address),
            Event::Unbreak(address) => self.unbreak_refusal(*address),
        }
    }
}
