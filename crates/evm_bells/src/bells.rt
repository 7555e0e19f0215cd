ghost use Rattle.std.specs.Prelude.{◌≡◌, ◌↔◌, ◌⊎◌, ℕ, ◌+◌, ◌/◌, ◌<◌, ◌≤◌, ◌^◌, [], ◌∷◌, ◌++◌, length, All, Err, IfOk, MatchBool, MatchOption};
ghost use Rattle.evm_bells.specs.Rule.{first_view};
ghost use Rattle.evm_bells.specs.Seats.{IsNewRinger, IsNewTaker};
ghost use Rattle.evm_bells.specs.declared.bells.BellsRefusal.TheVariants.{BadSize, NoMemory};
ghost use Rattle.evm_room.specs.Growth.{RefusedWithin};

use crate::counts::{LineCounts, PROCESSOR_LIMIT};
use crate::rule::{BellsRule, Both, Halves, One, Rings, SeatView, Takes, Weighs};
use atomic_table::{Seat, Table};
use evm_lines::LINES;
use evm_room::with_room;
use std::alloc::Global;
use std::marker::Model;

/// The weight of the first ringer. A taker has 1.
pub const RINGER_WEIGHT: u64 = 1 << 32;

/// Why there are no bells.
#[derive(Clone, Copy, Debug, PartialEq, Eq)]
pub enum BellsRefusal {
    /// A number of processors outside 1 to 8.
    BadSize,
    /// Memory was refused.
    NoMemory,
}

/// A word for each processor, with a bit for each line that was rung there and not taken since.
#[derive(Drop)]
pub struct Bells {
    pub(crate) table: Table<(), SeatView, u8, BellsRule, Global>,
    pub(crate) cpus: u8,
}

impl Model for Bells {
    ghost use Rattle.evm_bells.specs.Seats.{BellsValue, AreBells};

    ghost Value = { BellsValue };

    ghost invariant = { λ b. AreBells b.cpus b.table.shared.key b.table.shared.table_id };

    ghost view = { λ b. record { cpus = b.cpus; id = b.table.shared.table_id } };
}

/// A seat that rings. It counts the lines that it has rung fresh.
#[derive(Drop)]
pub struct Ringer {
    pub(crate) seat: Seat<(), SeatView>,
    pub(crate) weight: u64,
    pub(crate) counts: LineCounts,
}

impl Model for Ringer {
    ghost use Rattle.evm_bells.specs.Seats.{RingerValue, IsRinger};

    ghost Value = { RingerValue };

    ghost invariant = { λ r. IsRinger r.seat.me r.weight r.counts.rows };

    ghost view = { λ r. record { bells = r.seat.table_id; weight = r.weight; fresh = r.seat.me.0.fresh; stood = r.seat.me.0.stood } };
}

/// A seat that takes. It counts the lines that it has taken.
#[derive(Drop)]
pub struct Taker {
    pub(crate) seat: Seat<(), SeatView>,
    pub(crate) counts: LineCounts,
}

impl Model for Taker {
    ghost use Rattle.evm_bells.specs.Seats.{TakerValue, IsTaker};

    ghost Value = { TakerValue };

    ghost invariant = { λ t. IsTaker t.seat.me t.counts.rows };

    ghost view = { λ t. record { bells = t.seat.table_id; taken = t.seat.me.0.taken } };
}

impl Bells {
    /// Bells of 1 to 8 processors where no line stands, the first ringer, and a taker for each processor.
    pub fn new(alloc: Global, cpus: u8) -> Result<(Bells, Ringer, Vec<Taker>), BellsRefusal>
        ensures size { (result ≡ Err BadSize) ↔ ((cpus ≡ 0) ⊎ (PROCESSOR_LIMIT < cpus)) }
        ensures cpus { IfOk result (λ made. made.0.cpus ≡ cpus) }
        ensures ringer { IfOk result (λ made. IsNewRinger made.0.id RINGER_WEIGHT made.1) }
        ensures takers { IfOk result (λ made. (length made.2.items ≡ cpus) × All (IsNewTaker made.0.id) made.2.items) }
    {
        if cpus == 0 || cpus as usize > PROCESSOR_LIMIT {
            return Err(BellsRefusal::BadSize);
        }
        let words = [0u64; PROCESSOR_LIMIT];
        let Ok((table, seat)) = Table::of_words(alloc, &words[..cpus as usize], &cpus) else {
            return Err(BellsRefusal::NoMemory);
        };
        let bells = Bells { table, cpus };
        bells.seated(alloc, seat)
    }

    // The takers' seats are split from the first one.
    fn seated(
        self,
        alloc: Global,
        mut seat: Seat<(), SeatView>,
    ) -> Result<(Bells, Ringer, Vec<Taker>), BellsRefusal>
        requires bells { seat.table_id ≡ self.id }
        requires first { seat.me ≡ (first_view self.cpus, []) }
        ensures sized { (result ≡ Err BadSize) → ⊥ }
        ensures refused { (result ≡ Err NoMemory) → RefusedWithin self.cpus }
        ensures bells { IfOk result (λ made. made.0 ≡ self) }
        ensures ringer { IfOk result (λ made. IsNewRinger self.id RINGER_WEIGHT made.1) }
        ensures takers { IfOk result (λ made. (length made.2.items ≡ self.cpus) × All (IsNewTaker self.id) made.2.items) }
    {
        let mut takers = match with_room(alloc, self.cpus as usize) {
            Ok(takers) => takers,
            Err(refused) => {
                refused.within();
                return Err(BellsRefusal::NoMemory);
            }
        };
        for _ in 0..self.cpus {
            takers.push_reserved(Taker {
                seat: self.table.shared.split_seat::<One>(&mut seat),
                counts: LineCounts::new(),
            });
        }
        let ringer = Ringer {
            seat,
            weight: RINGER_WEIGHT,
            counts: LineCounts::new(),
        };
        Ok((self, ringer, takers))
    }

    /// How many processors have a word, 1 to 8.
    pub fn cpus(&self) -> u8
        ensures { result ≡ self.now.cpus }
    {
        self.cpus
    }

    /// Rings a line of a processor. Returns whether it is fresh: it is unless the line stands already.
    pub fn ring(&self, ringer: &mut Ringer, cpu: u8, line: u8) -> bool
        requires place { (cpu < self.now.cpus) × (line < LINES) }
        requires bells { ringer.old.bells ≡ self.now.id }
        ensures fresh { MatchBool result (ringer.new.fresh ≡ ringer.old.fresh ++ (cpu, 2 ^ line) ∷ []) (ringer.new.fresh ≡ ringer.old.fresh) }
        ensures stood { MatchBool result (ringer.new.stood ≡ ringer.old.stood) (ringer.new.stood ≡ ringer.old.stood ++ (cpu, 2 ^ line) ∷ []) }
        ensures same { (ringer.new.bells ≡ ringer.old.bells) × (ringer.new.weight ≡ ringer.old.weight) }
    {
        let bit = 1u64 << line;
        let found = self
            .table
            .shared
            .fetch_or::<Rings>(&mut ringer.seat, cpu as usize, bit);
        let fresh = found & bit == 0;
        if fresh {
            ringer.counts.add(cpu, bit);
        }
        fresh
    }

    /// Takes all lines that stand in a processor's word.
    pub fn take(&self, taker: &mut Taker, cpu: u8) -> u64
        requires place { cpu < self.now.cpus }
        requires bells { taker.old.bells ≡ self.now.id }
        ensures taken { taker.new.taken ≡ taker.old.taken ++ (cpu, result) ∷ [] }
        ensures same { taker.new.bells ≡ taker.old.bells }
    {
        let found = self
            .table
            .shared
            .swap::<Takes>(&mut taker.seat, cpu as usize, 0);
        taker.counts.add(cpu, found);
        found
    }

    /// The lines that stand in a processor's word at this moment. A load without a seat tells nothing, so no clause speaks of it.
    pub fn peek(&self, cpu: u8) -> u64
        requires { cpu < self.now.cpus }
    {
        self.table.shared.peek(cpu as usize)
    }

    /// Gives away half of a ringer's weight, rounded down. A weight of 1 can't be split.
    pub fn split(&self, ringer: &mut Ringer) -> Option<Ringer>
        requires { ringer.old.bells ≡ self.now.id }
        ensures given { MatchOption result (ringer.old.weight ≡ 1) (IsNewRinger self.now.id (ringer.old.weight / 2)) }
        ensures weight { MatchOption result (ringer.new.weight ≡ ringer.old.weight) (λ given. ringer.new.weight + given.weight ≡ ringer.old.weight) }
        ensures same { (ringer.new.bells ≡ ringer.old.bells) × (ringer.new.fresh ≡ ringer.old.fresh) × (ringer.new.stood ≡ ringer.old.stood) }
    {
        let half = ringer.weight / 2;
        if half == 0 {
            return None;
        }
        let given = self.table.shared.split_seat::<Halves>(&mut ringer.seat);
        ringer.weight -= half;
        Some(Ringer {
            seat: given,
            weight: half,
            counts: LineCounts::new(),
        })
    }

    /// Adds another ringer to this one.
    pub fn join(&self, ringer: &mut Ringer, other: Ringer)
        requires { (ringer.old.bells ≡ self.now.id) × (other.bells ≡ self.now.id) }
        ensures weight { ringer.new.weight ≡ ringer.old.weight + other.weight }
        ensures rung { (ringer.new.fresh ≡ ringer.old.fresh ++ other.fresh) × (ringer.new.stood ≡ ringer.old.stood ++ other.stood) }
        ensures same { ringer.new.bells ≡ ringer.old.bells }
    {
        let Ringer {
            seat,
            weight,
            counts,
        } = other;
        self.table.shared.join_seat::<Both>(&mut ringer.seat, seat);
        // Only the table knows that no seat weighs more than all of them, so that the sum fits.
        self.table.shared.load::<Weighs>(&mut ringer.seat, 0);
        ringer.weight += weight;
        ringer.counts.add_all(&counts);
    }
}
