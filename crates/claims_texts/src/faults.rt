//! Which fault of a source is reported. The functions do nothing: their contracts are the laws.

ghost use Rattle.claims_texts.specs.FirstFault.{RefusedWithTheFirst};
ghost use Rattle.claims_texts.specs.HasFault.{RefusedWithTheLeast};
ghost use Rattle.claims_texts.specs.Least.{RefusesTheLeast, MeansWithoutFaults, NoFaultIsIgnored};
ghost use Rattle.claims_texts.specs.Wording.{RefusedAsMeant};

/// A source becomes a program if and only if no line has a fault, and else the least fault of the first line that has
/// any is reported.
pub fn refused_with_the_first()
    ensures { RefusedWithTheFirst }
{}

/// The fault that is reported is the least of those of which a sentence says that the line has it, and the line is the
/// first of which any does.
pub fn refused_with_the_least()
    ensures { RefusedWithTheLeast }
{}

/// A source that means nothing is refused with the least fault of its first line that has any, and only so.
pub(crate) fn refuses_the_least()
    ensures { RefusesTheLeast }
{}

/// A source means something if and only if no line has a fault.
pub(crate) fn means_without_faults()
    ensures { MeansWithoutFaults }
{}

/// A source that means something has no line with a fault, those that a label causes included.
pub(crate) fn no_fault_is_ignored()
    ensures { NoFaultIsIgnored }
{}

/// A source has a program if and only if it means something, and else the fault of its meaning.
pub fn refused_as_meant()
    ensures { RefusedAsMeant }
{}
