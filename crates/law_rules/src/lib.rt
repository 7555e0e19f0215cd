//! The rules that hold after every event. Every event is a walk of a few moves of pipes and of tasks: what each keeps, where settling changes
//! nothing, how much a count grows.
#![tactic(auto)]

ghost use Rattle.law_rules.specs.Devices.{RegistersAreFound};
ghost use Rattle.law_rules.specs.Ranking.{RoundsBoost, RoundsKeepOwn, RoundsSettle, SettledIsOne, WalksEnd, WalksNeverReturn};
ghost use Rattle.law_rules.specs.Rules.{PassedRowsSettleNothing, PrivateRowsChangeOneHart, RowsSettleNothing, RulesHold, RulesHoldLoaded, StopsSettleNothing};

/// After every boot whose numbers are inside their limits, with whichever devices there may be, with an image loaded or
/// none, and every list of events the rules of the machine hold.
pub fn rules_hold()
    ensures booted { RulesHold }
    ensures loaded { RulesHoldLoaded }
{}

/// Where the rules hold, a processor that runs a task and has nothing on its wire settles nothing after a change of
/// registers, whether its skip bit was on or it is stopped by it.
pub fn rows_settle_nothing()
    ensures registers { RowsSettleNothing }
    ensures passes { PassedRowsSettleNothing }
    ensures stops { StopsSettleNothing }
{}

/// A Step of an instruction that only gives a register a value changes that register, the pc and the skip bit, and
/// nothing else but the journal.
pub fn private_rows_change_one_hart()
    ensures { PrivateRowsChangeOneHart }
{}

/// Where some height falls along each link of who boosts whom, rounds of boosts end in the only ranks that another round
/// leaves; a task ranks no lower than each that boosts it, nor than its own rank.
pub fn ranks_settle()
    ensures settle { RoundsSettle }
    ensures one { SettledIsOne }
    ensures boost { RoundsBoost }
    ensures own { RoundsKeepOwn }
{}

/// Likewise: a walk along these links has no more of them than there are heights, and never returns to its start.
pub fn walks_end()
    ensures ends { WalksEnd }
    ensures returns { WalksNeverReturn }
{}

/// A register of a device is found at an address if and only if it is there.
pub fn registers_are_found()
    ensures { RegistersAreFound }
{}
