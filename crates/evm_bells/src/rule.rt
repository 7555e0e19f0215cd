//! The rule of the bells, and what each atomic step tells the seat that makes it.

use atomic_table::{Join, Play, Split, TableRule};
use std::collections::LinkedList;

/// What a seat knows: its weight, what it has rung fresh or found standing, and what it has taken. It has no value at run time.
pub struct SeatView {
    pub weight: u64,
    pub fresh: LinkedList<(u8, u64)>,
    pub stood: LinkedList<(u8, u64)>,
    pub taken: LinkedList<(u8, u64)>,
}

/// Between any two steps each line that was rung fresh was taken or stands in its word.
pub struct BellsRule;

impl TableRule<(), SeatView, u8> for BellsRule {
    ghost use Rattle.evm_bells.specs.Rule.{AreAccounted, first_view};

    ghost holds = { λ cpus s. AreAccounted cpus s.words s.views };

    ghost first = { first_view };
}

pub struct Rings;

impl Play<(), SeatView> for Rings {
    ghost use Rattle.evm_bells.specs.Rule as rule;

    ghost then = { rule.Rings };
}

pub struct Takes;

impl Play<(), SeatView> for Takes {
    ghost use Rattle.evm_bells.specs.Rule as rule;

    ghost then = { rule.Takes };
}

pub struct Weighs;

impl Play<(), SeatView> for Weighs {
    ghost use Rattle.evm_bells.specs.Rule as rule;

    ghost then = { rule.Weighs };
}

pub struct Halves;

impl Split<SeatView> for Halves {
    ghost use Rattle.evm_bells.specs.Rule.{half_kept, half_given};

    ghost left = { half_kept };

    ghost right = { half_given };
}

pub struct One;

impl Split<SeatView> for One {
    ghost use Rattle.evm_bells.specs.Rule.{one_kept, one_given};

    ghost left = { one_kept };

    ghost right = { one_given };
}

pub struct Both;

impl Join<SeatView> for Both {
    ghost use Rattle.evm_bells.specs.Rule.{joined, spent};

    ghost both = { joined };

    ghost spent = { spent };
}
