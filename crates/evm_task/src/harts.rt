ghost use Rattle.std.specs.Prelude.{◌≡◌, ◌<◌, ◌∷◌, ◌++◌, [], length, slice_get, option_copied};
ghost use Rattle.evm_model.specs.Harts.{A0, set_register, set_pc, advance, answer, spawned_hart};
ghost use Rattle.evm_task.specs.Asks.{Asks};
ghost use Rattle.evm_task.specs.Lending.{lends_hart};
ghost use Rattle.std.specs.Borrow.{sem};
ghost use Rattle.std.specs.Option.{option_copied_mut};
ghost use Rattle.evm_model.specs.Lists.{change};

use arrayvec::ArrayVec;
use evm_exec::{Hart, REGISTER_COUNT};
use evm_isa::Register;
use evm_model::TASK_LIMIT;
use evm_room::copy_list;
use std::marker::Model;

/// What a task asks of a kernel at an ECALL.
#[derive(Clone, Copy, Debug)]
pub struct Asked {
    /// a7: the number of the call.
    pub number: u64,
    /// a0.
    pub first: u64,
    /// a1.
    pub second: u64,
    /// a2.
    pub third: u64,
}

/// The registers and pc of each task, in the order of their numbers.
#[derive(Debug, Drop)]
pub struct Harts {
    harts: ArrayVec<Hart, TASK_LIMIT>,
}

impl Model for Harts {
    ghost use Rattle.std.specs.Prelude.{List};
    ghost use Rattle.evm_exec.specs.declared.hart.Hart.{Hart};

    ghost Value = { List Hart };

    ghost view = { λ h. h.harts.items };
}

impl Harts {
    /// The first task's, with room for those of all others.
    pub fn of_first(hart: Hart) -> Harts
        ensures { result ≡ hart ∷ [] }
    {
        let mut harts = ArrayVec::new();
        harts.push(hart);
        Harts { harts }
    }

    /// Each task has the registers and pc that another has. Takes no memory.
    pub fn copy_from(&mut self, other: &Harts)
        ensures { self.new ≡ other.now }
    {
        copy_list(&mut self.harts, &other.harts);
    }

    /// The registers and pc of a task.
    pub fn get(&self, t: u8) -> Option<&Hart>
        ensures { option_copied result ≡ slice_get self.now t }
    {
        self.harts.as_slice().get(t as usize)
    }

    /// The registers and pc of a task, to be changed in place.
    #[inline(always)]
    pub fn get_mut(&mut self, t: u8) -> Option<&mut Hart>
        ensures* writes_back { sem 𝓛 (lends_hart self.entry t result) }
        ensures value { option_copied_mut result ≡ slice_get self.old t }
    {
        self.harts.get_mut(t as usize)
    }

    /// One more, the last: all registers are 0 but a0, and the pc is this.
    pub fn push_spawned(&mut self, entry: u64, value: u64)
        requires { length self.old < TASK_LIMIT }
        ensures { self.new ≡ self.old ++ spawned_hart entry value ∷ [] }
    {
        let mut regs = [0; REGISTER_COUNT];
        regs[10] = value;
        self.harts.push(Hart { regs, pc: entry });
    }

    /// What a call asks: the number in a7, and the first three arguments.
    pub fn asked(&self, t: u8) -> Option<Asked>
        ensures { Asks result (slice_get self.now t) }
    {
        match self.harts.as_slice().get(t as usize) {
            None => None,
            Some(hart) => Some(Asked {
                number: hart.regs[17],
                first: hart.regs[10],
                second: hart.regs[11],
                third: hart.regs[12],
            }),
        }
    }

    /// A register has another value.
    pub fn set_register(&mut self, t: u8, register: Register, value: u64)
        ensures { self.new ≡ change (set_register register value) self.old t }
    {
        if let Some(hart) = self.harts.get_mut(t as usize) {
            hart.set_register(register, value);
        }
    }

    /// The pc is another.
    pub fn set_pc(&mut self, t: u8, pc: u64)
        ensures { self.new ≡ change (set_pc pc) self.old t }
    {
        if let Some(hart) = self.harts.get_mut(t as usize) {
            hart.pc = pc;
        }
    }

    /// The pc goes on to the next word.
    pub fn advance(&mut self, t: u8)
        ensures { self.new ≡ change advance self.old t }
    {
        if let Some(hart) = self.harts.get_mut(t as usize) {
            hart.pc = hart.pc.wrapping_add(4);
        }
    }

    /// A register has another value, and the pc goes on.
    pub fn write_and_advance(&mut self, t: u8, register: Register, value: u64)
        ensures { self.new ≡ change (λ hart. advance (set_register register value hart)) self.old t }
    {
        if let Some(hart) = self.harts.get_mut(t as usize) {
            hart.set_register(register, value);
            hart.pc = hart.pc.wrapping_add(4);
        }
    }

    /// A register has another value, and the pc is another.
    pub fn write_and_jump(&mut self, t: u8, register: Register, value: u64, pc: u64)
        ensures { self.new ≡ change (λ hart. set_pc pc (set_register register value hart)) self.old t }
    {
        if let Some(hart) = self.harts.get_mut(t as usize) {
            hart.set_register(register, value);
            hart.pc = pc;
        }
    }

    /// a0 has another value.
    pub fn set_a0(&mut self, t: u8, value: u64)
        ensures { self.new ≡ change (set_register A0 value) self.old t }
    {
        if let Some(a0) = Register::new(10) {
            self.set_register(t, a0, value);
        }
    }

    /// A call is answered: a0 has the value, and the pc goes on.
    pub fn answer(&mut self, t: u8, value: u64)
        ensures { self.new ≡ change (answer value) self.old t }
    {
        if let Some(a0) = Register::new(10) {
            self.write_and_advance(t, a0, value);
        }
    }
}
