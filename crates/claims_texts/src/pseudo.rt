//! What the pseudo instructions that load a number leave in a hart. The functions do nothing: their contracts are
//! the laws.

ghost use Rattle.claims_texts.specs.Pseudo.{LiLeavesItsNumber, LaLeavesItsAddress, WhatIsLoadedIsRead, EachLiLoads, EachLaLoads, OperandsAreInRange};

use evm_elf::{la_loads, li_loads};
use evm_exec::registers_hold;

/// The instructions of `li rd,n`, done one after the other, leave n in rd, as a signed number in 64 bits, and the
/// pc behind them. Nothing else of the hart changes, and for x0 only the pc does.
pub(crate) fn li_leaves_its_number()
    ensures { LiLeavesItsNumber }
{
    li_loads();
}

/// The instructions of `la rd,l`, done one after the other from the pc on, leave the address of l in rd, and the pc
/// behind them. Nothing else of the hart changes, and for x0 only the pc does.
pub(crate) fn la_leaves_its_address()
    ensures { LaLeavesItsAddress }
{
    la_loads();
}

/// What is loaded into a register other than x0 is what that register reads, and the others read what they did.
pub fn what_is_loaded_is_read()
    ensures { WhatIsLoadedIsRead }
{
    registers_hold();
}

/// The register of each `li` and each `la` of a source is one of the 32, and the number of `li` has 32 bits.
pub(crate) fn operands_are_in_range()
    ensures { OperandsAreInRange }
{}

/// The instructions of each `li` of a source leave the number that the line says.
pub fn each_li_loads()
    ensures { EachLiLoads }
{
    li_loads();
}

/// The label of each `la` of a source, if there is one, is near enough, so its instructions leave the label's
/// address, done where they stand.
pub fn each_la_loads()
    ensures { EachLaLoads }
{
    la_loads();
}
