//! How the bells end.

ghost use Rattle.std.specs.Prelude.{◌≡◌, ◌↔◌, ◌+◌, ◌<◌, [], length, All, IsOk, IfOk, IfErr};
ghost use Rattle.evm_bells.specs.Batches.{HaveCounted};
ghost use Rattle.evm_bells.specs.Rule.{whole_weight};
ghost use Rattle.evm_bells.specs.Seats.{TakerValue, AddsUp, AreAnswered, taken_by};

use crate::bells::{Bells, RINGER_WEIGHT, Ringer, Taker};
use crate::counts::{LineCounts, PROCESSOR_LIMIT};
use crate::rule::{Both, SeatView};
use atomic_table::Seat;

/// How often each line was rung fresh and was taken, and the words with the lines that were left.
#[derive(Debug, Drop)]
pub struct Closed {
    pub fresh: LineCounts,
    pub taken: LineCounts,
    pub left: [u64; PROCESSOR_LIMIT],
}

/// Not all seats were handed in: what was handed in.
#[derive(Drop)]
pub struct SeatsOut {
    pub bells: Bells,
    pub ringer: Ringer,
    pub takers: Vec<Taker>,
}

impl Bells {
    /// Ends the bells, if and only if all seats are here.
    pub fn close(self, ringer: Ringer, takers: Vec<Taker>) -> Result<Closed, SeatsOut>
        requires ringer { ringer.bells ≡ self.id }
        requires takers { All (λ (t : TakerValue). t.bells ≡ self.id) takers.items }
        ensures all { IsOk result ↔ (ringer.weight + length takers.items ≡ whole_weight self.cpus) }
        ensures balance { IfOk result (λ closed. AddsUp ringer.fresh (taken_by takers.items) closed.left) }
        ensures answered { IfOk result (λ closed. AreAnswered ringer.stood (taken_by takers.items) closed.left) }
        ensures fresh { IfOk result (λ closed. HaveCounted closed.fresh.rows ringer.fresh) }
        ensures taken { IfOk result (λ closed. HaveCounted closed.taken.rows (taken_by takers.items)) }
        ensures back { IfErr result (λ out. (out.bells ≡ self) × (out.ringer ≡ ringer) × (out.takers.items ≡ takers.items)) }
    {
        if ringer.weight + takers.len() as u64 != RINGER_WEIGHT + u64::from(self.cpus) {
            return Err(SeatsOut {
                bells: self,
                ringer,
                takers,
            });
        }
        let Ringer {
            mut seat,
            counts,
            ..
        } = ringer;
        let taken = self.gather(&mut seat, takers);
        Ok(Closed {
            fresh: counts,
            taken,
            left: self.left(seat),
        })
    }

    // The takers' seats are joined to this one; the counters are the sums of theirs.
    fn gather(&self, seat: &mut Seat<(), SeatView>, mut takers: Vec<Taker>) -> LineCounts
        requires bells { seat.old.table_id ≡ self.now.id }
        requires takers { All (λ (t : TakerValue). t.bells ≡ self.now.id) takers.items }
        requires weight { 0 < seat.old.me.0.weight }
        requires untaken { seat.old.me.0.taken ≡ [] }
        ensures bells { seat.new.table_id ≡ seat.old.table_id }
        ensures weight { seat.new.me.0.weight ≡ seat.old.me.0.weight + length takers.items }
        ensures rung { (seat.new.me.0.fresh ≡ seat.old.me.0.fresh) × (seat.new.me.0.stood ≡ seat.old.me.0.stood) }
        ensures taken { seat.new.me.0.taken ≡ taken_by takers.items }
        ensures counted { HaveCounted result.rows (taken_by takers.items) }
    {
        let mut taken = LineCounts::new();
        while let Some(taker) = takers.pop() {
            let Taker {
                seat: other,
                counts,
            } = taker;
            self.table.shared.join_seat::<Both>(seat, other);
            taken.add_all(&counts);
        }
        taken
    }

    // The words at the end, read by a seat of all the weight.
    fn left(self, seat: Seat<(), SeatView>) -> [u64; PROCESSOR_LIMIT]
        requires bells { seat.table_id ≡ self.id }
        requires all { seat.me.0.weight ≡ whole_weight self.cpus }
        ensures balance { AddsUp seat.me.0.fresh seat.me.0.taken result }
        ensures answered { AreAnswered seat.me.0.stood seat.me.0.taken result }
    {
        let Bells { table, cpus } = self;
        let closed = table.close_with(seat);
        let mut left = [0u64; PROCESSOR_LIMIT];
        for cpu in 0..cpus as usize {
            left[cpu] = closed.word(cpu);
        }
        closed.free();
        left
    }
}
