ghost use Rattle.std.specs.Prelude.{◌≡◌, ℕ, ◌+◌, ◌<◌, ◌≤◌, []};
ghost use Rattle.evm_shared.specs.EventCounts.{AtMost, none, plus};
ghost use Rattle.evm_shared.specs.Ports.{shares_of};

use crate::event_counts::EventCounts;
use crate::history::{BlankHistory, History};
use crate::locked::Origin;
use std::marker::Model;
use std::sync::ledger::{Blank, Book, Ledger, Share};

/// The three ledgers, not opened yet: of Steps, of Bells and of other events. Beside them a history with no call.
#[derive(Drop)]
pub struct Blanks {
    pub steps: Blank,
    pub bells: Blank,
    pub others: Blank,
    pub history: BlankHistory,
}

/// What all shares have counted.
#[derive(Drop)]
pub(crate) struct Books<S: Ledger, B: Ledger, T: Ledger> {
    steps: Book<S>,
    bells: Book<B>,
    others: Book<T>,
}

impl<S: Ledger, B: Ledger, T: Ledger> Model for Books<S, B, T> {
    ghost use Rattle.evm_shared.specs.declared.event_counts.EventCounts as declared;

    ghost Value = { declared.EventCounts };

    ghost view = { λ b. record { steps = b.steps.total; bells = b.bells.total; others = b.others.total } };
}

/// Some parts of the ledgers, as many of each, and what was counted in them.
#[derive(Drop)]
pub(crate) struct Shares<S: Ledger, B: Ledger, T: Ledger> {
    steps: Share<S>,
    bells: Share<B>,
    others: Share<T>,
}

impl<S: Ledger, B: Ledger, T: Ledger> Model for Shares<S, B, T> {
    ghost use Rattle.std.specs.Prelude.{◌≡◌};
    ghost use Rattle.evm_shared.specs.Ports.{SharesValue};

    ghost Value = { SharesValue };

    ghost invariant = { λ s. (s.bells.parts ≡ s.steps.parts) × (s.others.parts ≡ s.steps.parts) };

    ghost view = { λ s. record { parts = s.steps.parts; amount = record { steps = s.steps.amount; bells = s.bells.amount; others = s.others.amount } } };
}

impl Blanks {
    /// The books, all shares in one, and the history.
    pub(crate) fn open<O: Origin, S: Ledger, B: Ledger, T: Ledger>(
        self,
    ) -> (Books<S, B, T>, Shares<S, B, T>, History<O>)
        requires steps { (self.steps.name ≡ S.name) × (self.steps.parts ≡ S.parts) }
        requires bells { (self.bells.name ≡ B.name) × (self.bells.parts ≡ B.parts) }
        requires others { (self.others.name ≡ T.name) × (self.others.parts ≡ T.parts) }
        requires history { self.history ≡ O.book }
        requires alike { (B.parts ≡ S.parts) × (T.parts ≡ S.parts) }
        ensures book { result.0 ≡ none }
        ensures shares { result.1 ≡ shares_of S.parts none }
        ensures history { result.2 ≡ [] }
    {
        let (steps, steps_share) = self.steps.open::<S>();
        let (bells, bells_share) = self.bells.open::<B>();
        let (others, others_share) = self.others.open::<T>();
        (
            Books {
                steps,
                bells,
                others,
            },
            Shares {
                steps: steps_share,
                bells: bells_share,
                others: others_share,
            },
            self.history.open::<O>(),
        )
    }
}

impl<S: Ledger, B: Ledger, T: Ledger> Books<S, B, T> {
    /// Counts events for a share.
    pub(crate) fn add(&mut self, shares: &mut Shares<S, B, T>, more: EventCounts)
        requires { 0 < shares.old.parts }
        ensures book { self.new ≡ plus self.old more }
        ensures share { shares.new ≡ shares_of shares.old.parts (plus shares.old.amount more) }
    {
        self.steps.add(&mut shares.steps, more.steps);
        self.bells.add(&mut shares.bells, more.bells);
        self.others.add(&mut shares.others, more.others);
    }

    /// A share has no more than the books, and all parts have just that.
    pub(crate) fn audit(&mut self, shares: &mut Shares<S, B, T>)
        ensures same { (self.new ≡ self.old) × (shares.new ≡ shares.old) }
        ensures within { AtMost shares.old.amount self.old }
        ensures whole { shares.old.parts ≡ S.parts → shares.old.parts ≡ B.parts → shares.old.parts ≡ T.parts → shares.old.amount ≡ self.old }
    {
        self.steps.audit(&mut shares.steps);
        self.bells.audit(&mut shares.bells);
        self.others.audit(&mut shares.others);
    }
}

impl<S: Ledger, B: Ledger, T: Ledger> Shares<S, B, T> {
    /// One part, which has counted nothing.
    pub(crate) fn one(&mut self) -> Shares<S, B, T>
        requires some { 0 < self.old.parts }
        requires unused { self.old.amount ≡ none }
        ensures one { result ≡ shares_of 1 none }
        ensures left { (self.new.parts + 1 ≡ self.old.parts) × (self.new.amount ≡ none) }
    {
        Shares {
            steps: self.steps.split_off(1, 0),
            bells: self.bells.split_off(1, 0),
            others: self.others.split_off(1, 0),
        }
    }

    /// Lends its one part.
    pub(crate) fn lend(&mut self, to: &mut Shares<S, B, T>, amount: EventCounts)
        requires mine { self.old ≡ shares_of 1 amount }
        ensures mine { self.new ≡ shares_of 0 none }
        ensures given { to.new ≡ shares_of (to.old.parts + 1) (plus to.old.amount amount) }
    {
        self.steps.give(&mut to.steps, 1, amount.steps);
        self.bells.give(&mut to.bells, 1, amount.bells);
        self.others.give(&mut to.others, 1, amount.others);
    }

    /// Gives one part to one that has none: what was lent goes back.
    pub(crate) fn give_back(&mut self, to: &mut Shares<S, B, T>, amount: EventCounts)
        requires more { 1 < self.old.parts }
        requires enough { AtMost amount self.old.amount }
        requires empty { to.old ≡ shares_of 0 none }
        ensures back { to.new ≡ shares_of 1 amount }
        ensures left { (self.new.parts + 1 ≡ self.old.parts) × (plus self.new.amount amount ≡ self.old.amount) }
    {
        self.steps.give(&mut to.steps, 1, amount.steps);
        self.bells.give(&mut to.bells, 1, amount.bells);
        self.others.give(&mut to.others, 1, amount.others);
    }
}
