ghost use Rattle.std.specs.Prelude.{◌≡◌, slice_index};

use evm_isa::Register;

/// How many integer registers there are, x0 among them.
pub const REGISTERS: u8 = 32;

/// The same number, for arrays with an entry for each register.
pub const REGISTER_COUNT: usize = REGISTERS as usize;

/// A hardware thread: the integer registers and the address of the next instruction (RISC-V
/// Unprivileged ISA 20191213, section 2.1). Register x0 reads 0 whatever stands in its place.
#[derive(Clone, Copy, Debug, PartialEq, Eq)]
pub struct Hart {
    pub regs: [u64; REGISTER_COUNT],
    pub pc: u64,
}

impl Hart {
    ghost use Rattle.evm_exec.specs.Registers.{register_of, with_register};

    /// What the register reads.
    #[inline(always)]
    pub fn register(&self, register: Register) -> u64
        ensures { result ≡ register_of self.now.regs register }
    {
        let number = register.number();
        if number == 0 {
            0
        } else {
            self.regs[number as usize]
        }
    }

    /// Writes the register; a write to x0 is lost.
    #[inline(always)]
    pub fn set_register(&mut self, register: Register, value: u64)
        ensures x0 { slice_index self.new.regs 0 ≡ slice_index self.old.regs 0 }
        ensures written { self.new ≡ record self.old { regs = with_register self.old.regs register value } }
    {
        let number = register.number();
        if number != 0 {
            self.regs[number as usize] = value;
        }
    }
}

impl Default for Hart {
    /// All registers and the pc are 0.
    fn default() -> Self {
        Hart {
            regs: [0; REGISTER_COUNT],
            pc: 0,
        }
    }
}
