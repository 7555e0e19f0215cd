ghost use Rattle.std.specs.Prelude.{◌≡◌};
ghost use Rattle.evm_model.specs.Refusals.{number_of};

/// Why the machine refuses; of several that apply, the one of least number is answered.
#[derive(Clone, Copy, Debug, PartialEq, Eq)]
pub enum Refusal {
    /// The journal is at its capacity.
    Full,
    /// No processor has this number.
    NoSuchCpu,
    /// No interrupt line has this number.
    NoSuchLine,
    /// The command wants a stopped processor.
    NotStopped,
    /// The processor has no current task, or no task has this number.
    NoTask,
    /// Bytes outside RAM, none or more than 64 of them, or a pc or a breakpoint that can't be one.
    BadAddress,
    /// Register 0, or above 31.
    BadRegister,
    /// No room for another breakpoint or device, or no device of this number.
    NoSlot,
    /// No breakpoint is set at this address.
    NoBreakpoint,
    /// A number outside its limits.
    BadSize,
    /// Memory was refused.
    NoMemory,
    /// The machine has had an event.
    Started,
    /// Not all ports were handed in.
    PortsOut,
    /// Not all seats were handed in.
    SeatsOut,
}

impl Refusal {
    /// Its number, 1 to 14.
    pub fn number(self) -> u8
        ensures { result ≡ number_of self }
    {
        match self {
            Refusal::Full => 1,
            Refusal::NoSuchCpu => 2,
            Refusal::NoSuchLine => 3,
            Refusal::NotStopped => 4,
            Refusal::NoTask => 5,
            Refusal::BadAddress => 6,
            Refusal::BadRegister => 7,
            Refusal::NoSlot => 8,
            Refusal::NoBreakpoint => 9,
            Refusal::BadSize => 10,
            Refusal::NoMemory => 11,
            Refusal::Started => 12,
            Refusal::PortsOut => 13,
            Refusal::SeatsOut => 14,
        }
    }
}
