ghost use Rattle.std.specs.Prelude.{◌≡◌, ◌+◌, ◌<◌, ◌≤◌, [], ◌∷◌, ◌++◌, length, MatchResult, IfErr, Result};
ghost use Rattle.evm_lines.specs.declared.TheConstants.{LINES};
ghost use Rattle.evm_model.specs.Event.{event_lent};
ghost use Rattle.evm_model.specs.Replay.{IsReplayOf};
ghost use Rattle.evm_model.specs.State.{State};
ghost use Rattle.evm_model.specs.declared.limits.TheConstants.{WIDE_PROFILE};
ghost use Rattle.evm_shared.specs.Ports.{HasBellRoom, MakesBells, MakesOne, MakesSteps, RefusesCpu, RefusesEither, with_room};
ghost use Rattle.evm_shared.specs.Receipts.{made_events};

use crate::event_counts::EventCounts;
use crate::history::History;
use crate::ledgers::Books;
use crate::port::Port;
use crate::receipt::Made;
use evm_bells::{Bells, Taker};
use evm_core::{Committed, Machine};
use evm_dev::Device;
use evm_exec::Burst;
use evm_lines::LINES;
use evm_model::{Answer, Block, Event, Refusal};
use std::marker::{Brand, Model};
use std::sync::Wait;
use std::sync::ledger::Ledger;

/// Where a machine began to be shared: the state that its journal is replayed from, how many events it had, the machine as
/// it came under the lock, and the history of the calls since then.
pub trait Origin {
    ghost use Rattle.evm_model.specs.State as model;
    ghost use Rattle.evm_shared.specs.declared.event_counts.EventCounts as declared;
    ghost use Rattle.logbook.specs.Pages as logbook;

    ghost start: { model.State };

    ghost base: { declared.EventCounts };

    ghost machine: { model.State };

    ghost book: { logbook.Book };
}

impl Origin for Brand {
    ghost use Rattle.evm_shared.specs.EventCounts.{none};
    ghost use Rattle.evm_shared.specs.Ports.{no_machine};

    ghost start = { no_machine };

    ghost base = { none };

    ghost machine = { no_machine };

    ghost book = { record { number = 0; log_name = 0; cells_name = 0 } };
}

/// What lies under the lock.
#[derive(Drop)]
pub(crate) struct Locked<D: Device, O: Origin, S: Ledger, B: Ledger, T: Ledger> {
    pub(crate) machine: Machine<D>,
    pub(crate) books: Books<S, B, T>,
    pub(crate) history: History<O>,
}

impl<D: Device, O: Origin, S: Ledger, B: Ledger, T: Ledger> Model for Locked<D, O, S, B, T> {
    ghost use Rattle.evm_shared.specs.Ports.{IsAccounted, LockedValue};

    ghost Value = { LockedValue };

    ghost invariant = { λ l. IsAccounted O.start O.machine O.base l.machine l.books l.history };

    ghost view = { λ l. record { machine = l.machine; book = l.books; log = l.history } };
}

// A Bell of a processor for each line of a word, in rising order. Returns how many.
fn ring_all<D: Device>(machine: &mut Machine<D>, cpu: u8, word: u64) -> u32
    requires profile { WIDE_PROFILE ≤ machine.old.boot.profile }
    requires cpu { cpu < length machine.old.board.parts.processors }
    requires room { HasBellRoom machine.old }
    ensures count { result ≡ length (made_events (Made.Bells cpu word)) }
    ensures journaled { machine.new.journal ≡ machine.old.journal ++ made_events (Made.Bells cpu word) }
    ensures replays { (first : State) → IsReplayOf first machine.old → IsReplayOf first machine.new }
{
    let mut count = 0;
    for line in 0..LINES {
        machine.rules();
        if (word >> line) & 1 == 1 {
            let Ok(_) = machine.apply(Event::Bell(cpu, line)) else {
                unreachable!()
            };
            count += 1;
        }
    }
    count
}

impl<D: Device, O: Origin, S: Ledger, B: Ledger, T: Ledger> Locked<D, O, S, B, T> {
    // Takes the lines of a processor, and makes a Bell of each.
    pub(crate) fn deliver<R: Wait>(
        &mut self,
        rt: &R,
        port: &mut Port<O, S, B, T>,
        bells: &Bells,
        taker: &mut Taker,
        cpu: u8,
    ) -> Result<u64, Refusal>
        requires { taker.old.bells ≡ bells.now.id }
        ensures taken { MatchResult result (λ word. taker.new.taken ≡ taker.old.taken ++ (cpu, word) ∷ []) (λ why. taker.new ≡ taker.old) }
        ensures seat { taker.new.bells ≡ taker.old.bells }
        ensures call { MakesBells O.machine bells.now.cpus cpu result port.old port.new }
        ensures refused { IfErr result (λ why. RefusesEither O.machine bells.now.cpus cpu why) }
    {
        self.machine.rules();
        port.see(rt, &self.history);
        if self.machine.room() < u64::from(LINES) {
            port.mark_short();
            return Err(Refusal::Full);
        }
        if cpu >= self.machine.cpu_count() || cpu >= bells.cpus() {
            return Err(Refusal::NoSuchCpu);
        }
        let word = bells.take(taker, cpu);
        if word != 0 {
            let position = self.machine.event_count();
            let count = ring_all(&mut self.machine, cpu, word);
            let _count = self.machine.event_count();
            port.count(&mut self.books, EventCounts::bells(count));
            port.append(rt, &mut self.history, &Made::Bells(cpu, word));
            port.record(position, Made::Bells(cpu, word));
        }
        Ok(word)
    }

    // The Steps of a burst, and one more.
    pub(crate) fn commit_into<R: Wait>(
        &mut self,
        rt: &R,
        port: &mut Port<O, S, B, T>,
        cpu: u8,
        burst: &Burst,
        done: &mut Committed,
    ) -> Result<(), Refusal>
        ensures call { MakesSteps O.machine cpu burst.now (with_room result done.new) port.old port.new }
        ensures refused { IfErr result (λ why. RefusesCpu O.machine cpu why) }
    {
        self.machine.rules();
        port.see(rt, &self.history);
        let position = self.machine.event_count();
        match self.machine.commit_into(cpu, burst, done) {
            Err(refusal) => {
                port.mark(refusal);
                Err(refusal)
            }
            Ok(()) => {
                let _count = self.machine.event_count();
                port.count(&mut self.books, EventCounts::steps(done.steps));
                port.append(rt, &mut self.history, &Made::Steps(cpu, done.steps));
                port.record(position, Made::Steps(cpu, done.steps));
                Ok(())
            }
        }
    }

    // A tick.
    pub(crate) fn tick<R: Wait>(
        &mut self,
        rt: &R,
        port: &mut Port<O, S, B, T>,
    ) -> Result<Answer, Refusal>
        ensures call { MakesOne O.machine Event.Tick result port.old port.new }
        ensures full { IfErr result (λ why. why ≡ Refusal.Full) }
    {
        self.one(rt, port, &Event::Tick)
    }

    // One event.
    pub(crate) fn one<R: Wait>(
        &mut self,
        rt: &R,
        port: &mut Port<O, S, B, T>,
        event: &Event<&Block>,
    ) -> Result<Answer, Refusal>
        ensures { MakesOne O.machine (event_lent event.now) result port.old port.new }
    {
        port.see(rt, &self.history);
        let position = self.machine.event_count();
        match self.machine.apply(*event) {
            Err(why) => {
                port.mark(why);
                Err(why)
            }
            Ok(answer) => {
                let _count = self.machine.event_count();
                port.count(&mut self.books, EventCounts::one(event));
                let made = Made::One(event.copied());
                port.append(rt, &mut self.history, &made);
                port.record(position, made);
                Ok(answer)
            }
        }
    }
}
