//! What a caller may rest on, whatever the machine and the events. The functions do nothing: their contracts are the
//! laws.

ghost use Rattle.evm_core.specs.Laws.{BellRefusals, BootedProcessors, KeepsBoot, KeepsProcessors, StepRefusals, TickRefusals};

/// A Step is refused as Full on a full journal, and as NoSuchCpu where there is no such processor, and for no other
/// reason.
pub fn step_refusals()
    ensures { StepRefusals }
{}

/// A Bell of one of the profile's lines, of one of the processors, is refused as Full on a full journal, and for no other reason.
pub fn bell_refusals()
    ensures { BellRefusals }
{}

/// A Tick is refused as Full on a full journal, and for no other reason.
pub fn tick_refusals()
    ensures { TickRefusals }
{}

/// No event changes the numbers of the boot.
pub fn same_boot()
    ensures { KeepsBoot }
{}

/// No event changes how many processors there are.
pub fn same_processors()
    ensures { KeepsProcessors }
{}

/// There are as many processors as the machine was booted with.
pub fn booted_processors()
    ensures { BootedProcessors }
{}
