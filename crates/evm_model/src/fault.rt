ghost use Rattle.std.specs.Prelude.{◌≡◌};
ghost use Rattle.evm_model.specs.Faults.{fault_number};

/// Why an instruction can't be done.
#[derive(Clone, Copy, Debug, PartialEq, Eq)]
pub enum Fault {
    /// A jump or a taken branch to an address that is no multiple of 4.
    Misaligned,
    /// The pc is outside RAM.
    Fetch,
    /// The word at the pc is no instruction.
    Illegal,
    /// A load from outside memory.
    Load,
    /// A store to outside memory.
    Store,
}

impl Fault {
    /// Its number: 0, 1, 2, 5 or 7, as the RISC-V privileged architecture numbers its exceptions.
    pub fn number(self) -> u8
        ensures { result ≡ fault_number self }
    {
        match self {
            Fault::Misaligned => 0,
            Fault::Fetch => 1,
            Fault::Illegal => 2,
            Fault::Load => 5,
            Fault::Store => 7,
        }
    }
}
