ghost use Rattle.std.specs.Prelude.{◌≡◌, ◌≢◌, ◌+◌, ◌<◌, ◌≤◌, [], ◌∷◌, ◌++◌, false, All, length, replicate, IfErr, IfOk, MatchResult};
ghost use mathlib.Core.List.{IsPrefix};
ghost use Rattle.evm_model.specs.Replay.{IsReplayOf};
ghost use Rattle.evm_shared.specs.EventCounts.{BeginsWith, FitWords, kind_counts, none, plus};
ghost use Rattle.evm_shared.specs.Ports.{EndsHistory, PortValue, MakesBells, MakesOne, MakesSteps, RefusesCpu, RefusesEither, RefusesPorts, bad_ports, fresh_port, lacks_lines, made_by, shares_of, with_room};

use crate::event_counts::EventCounts;
use crate::history::{History, Sight};
use crate::ledgers::{Blanks, Books, Shares};
use crate::locked::{Locked, Origin};
use crate::port::Port;
use evm_bells::{Bells, Taker};
use evm_core::{Committed, Machine};
use evm_dev::Device;
use evm_exec::Burst;
use evm_model::{Answer, Event, Refusal, WIDE_PROFILE};
use evm_room::with_room;
use std::alloc::Global;
use std::hint::spin_loop;
use std::marker::Model;
use std::sync::ledger::Ledger;
use std::sync::{Mutex, MutexGuard, Wait};

/// How many ports a machine has at most.
pub const PORT_LIMIT: u8 = 16;

// How often a thread tries to take the lock before it waits for it.
const TRIES: u32 = 200;

/// A machine under a lock. `O` names where it began to be shared, and `S`, `B` and `T` name the ledgers of Steps, of
/// Bells and of other events.
#[derive(Drop)]
pub struct Shared<D: Device, O: Origin, S: Ledger, B: Ledger, T: Ledger> {
    locked: Mutex<Locked<D, O, S, B, T>>,
    ports: u8,
}

impl<D: Device, O: Origin, S: Ledger, B: Ledger, T: Ledger> Model for Shared<D, O, S, B, T> {
    ghost use Rattle.std.specs.Prelude.{ℕ, ◌≡◌, ◌<◌};

    ghost Value = { ℕ };

    // there is a port for each part of the ledgers, and there are some
    ghost invariant = { λ s. (0 < s.ports) × (S.parts ≡ s.ports) × (B.parts ≡ s.ports) × (T.parts ≡ s.ports) };

    ghost view = { λ s. s.ports };
}

/// Why a machine is not shared, and that machine.
#[derive(Drop)]
pub struct Refused<D: Device> {
    pub refusal: Refusal,
    pub machine: Machine<D>,
}

/// The machine, all ports, and how many events were made through them.
#[derive(Drop)]
pub struct Finished<D: Device, O: Origin, S: Ledger, B: Ledger, T: Ledger> {
    pub machine: Machine<D>,
    pub ports: Vec<Port<O, S, B, T>>,
    pub totals: EventCounts,
}

/// Not all ports were handed in (`PortsOut`): what was handed in.
#[derive(Drop)]
pub struct Unfinished<D: Device, O: Origin, S: Ledger, B: Ledger, T: Ledger> {
    pub shared: Shared<D, O, S, B, T>,
    pub ports: Vec<Port<O, S, B, T>>,
}

// Whether a machine has fewer lines than bells have, by its profile.
fn lacks_lines<D: Device>(machine: &Machine<D>) -> bool
    ensures { result ≡ lacks_lines machine.now.boot }
{
    machine.boot_numbers().profile < u64::from(WIDE_PROFILE)
}

// New ports, each with one part of the ledgers and room for `receipts` receipts.
fn new_ports<O: Origin, S: Ledger, B: Ledger, T: Ledger>(
    alloc: Global,
    mut all: Shares<S, B, T>,
    history: &History<O>,
    ports: u8,
    receipts: u32,
    since: u64,
) -> Result<Vec<Port<O, S, B, T>>, evm_room::Refused>
    requires shares { all ≡ shares_of ports none }
    requires history { history.now ≡ [] }
    ensures made { IfOk result (λ made. made.items ≡ replicate ports (fresh_port receipts since)) }
    ensures refused { IfErr result (λ asked. asked ≤ ports + receipts) }
{
    let mut made = with_room(alloc, ports as usize)?;
    for _ in 0..ports {
        made.push_reserved(Port {
            shares: all.one(),
            share: EventCounts::none(),
            log: history.log(),
            receipts: with_room(alloc, receipts as usize)?,
            room: receipts as usize,
            since,
            full: false,
            short: false,
        });
    }
    Ok(made)
}

impl<D: Device, O: Origin, S: Ledger, B: Ledger, T: Ledger> Shared<D, O, S, B, T> {
    /// A machine of a profile with all lines under a lock, and 1 to 16 ports.
    ///
    /// # Errors
    ///
    /// `BadSize` for a machine of another profile or another number of ports, else `NoMemory` if memory for the ports was
    /// refused. The machine is handed back.
    pub fn new(
        alloc: Global,
        machine: Machine<D>,
        ports: u8,
        receipts: u32,
        blanks: Blanks,
    ) -> Result<(Shared<D, O, S, B, T>, Vec<Port<O, S, B, T>>), Refused<D>>
        requires replays { IsReplayOf O.start machine }
        requires base { kind_counts machine.journal ≡ O.base }
        requires machine { machine ≡ O.machine }
        requires history { blanks.history ≡ O.book }
        requires steps { (blanks.steps.name ≡ S.name) × (blanks.steps.parts ≡ S.parts) × (S.parts ≡ ports) }
        requires bells { (blanks.bells.name ≡ B.name) × (blanks.bells.parts ≡ B.parts) × (B.parts ≡ ports) }
        requires others { (blanks.others.name ≡ T.name) × (blanks.others.parts ≡ T.parts) × (T.parts ≡ ports) }
        ensures ok { IfOk result (λ made. (made.0 ≡ ports) × (made.1.items ≡ replicate ports (fresh_port receipts (length machine.journal)))) }
        ensures back { IfErr result (λ refused. refused.machine ≡ machine) }
        ensures refused { IfErr result (λ refused. RefusesPorts machine.boot ports receipts refused.refusal) }
        ensures lines { IfOk result (λ made. lacks_lines machine.boot ≡ false) }
        ensures ports { IfOk result (λ made. bad_ports ports ≡ false) }
    {
        if lacks_lines(&machine) || ports == 0 || ports > PORT_LIMIT {
            return Err(Refused {
                refusal: Refusal::BadSize,
                machine,
            });
        }
        let since = machine.event_count();
        let (books, all, history) = blanks.open::<O, S, B, T>();
        let made = match new_ports(alloc, all, &history, ports, receipts, since) {
            Ok(made) => made,
            Err(refused) => {
                refused.within();
                return Err(Refused {
                    refusal: Refusal::NoMemory,
                    machine,
                });
            }
        };
        let locked = Mutex::new(Locked {
            machine,
            books,
            history,
        });
        Ok((Shared { locked, ports }, made))
    }

    // Takes the lock. A hold lasts a fraction of a microsecond, far less than it takes to put a thread to sleep and to wake it, so a
    // thread tries for a few holds first.
    #[inline]
    fn hold<R: Wait>(&self, rt: &R) -> MutexGuard<'_, Locked<D, O, S, B, T>> {
        for _ in 0..TRIES {
            if let Some(held) = self.locked.try_lock() {
                return held;
            }
            spin_loop();
        }
        self.locked.lock(rt)
    }

    /// Makes the Steps of a burst and one more, at least one, in one hold of the lock. Takes no memory. What it did is put
    /// into the room that the caller lends.
    ///
    /// # Errors
    ///
    /// As [`Machine::commit`]: `Full`, or `NoSuchCpu` if there is no such processor.
    pub fn commit_into<R: Wait>(
        &self,
        rt: &R,
        port: &mut Port<O, S, B, T>,
        cpu: u8,
        burst: &Burst,
        done: &mut Committed,
    ) -> Result<(), Refusal>
        ensures call { MakesSteps O.machine cpu burst.now (with_room result done.new) port.old port.new }
        ensures refused { IfErr result (λ why. RefusesCpu O.machine cpu why) }
    {
        self.hold(rt).commit_into(rt, port, cpu, burst, done)
    }

    /// As `commit_into`, with what it did as the answer.
    ///
    /// # Errors
    ///
    /// As of `commit_into`.
    pub fn commit<R: Wait>(
        &self,
        rt: &R,
        port: &mut Port<O, S, B, T>,
        cpu: u8,
        burst: &Burst,
    ) -> Result<Committed, Refusal>
        ensures call { MakesSteps O.machine cpu burst.now result port.old port.new }
        ensures refused { IfErr result (λ why. RefusesCpu O.machine cpu why) }
    {
        let mut done = Committed::none();
        self.commit_into(rt, port, cpu, burst, &mut done)?;
        Ok(done)
    }

    /// Takes all lines that were rung of a processor, and makes a Bell of each in rising order, in one hold of the lock.
    /// Returns the lines, each as a bit of a word. Takes no memory.
    ///
    /// # Errors
    ///
    /// `Full` if the journal has room for fewer events than there are lines, `NoSuchCpu` if the machine or the bells
    /// have no such processor. Nothing is taken then.
    pub fn deliver<R: Wait>(
        &self,
        rt: &R,
        port: &mut Port<O, S, B, T>,
        bells: &Bells,
        taker: &mut Taker,
        cpu: u8,
    ) -> Result<u64, Refusal>
        requires { taker.old.bells ≡ bells.now.id }
        ensures taken { MatchResult result (λ word. taker.new.taken ≡ taker.old.taken ++ (cpu, word) ∷ []) (λ why. taker.new ≡ taker.old) }
        ensures seat { taker.new.bells ≡ taker.old.bells }
        ensures call { MakesBells O.machine bells.now.cpus cpu result port.old port.new }
        ensures refused { IfErr result (λ why. RefusesEither O.machine bells.now.cpus cpu why) }
    {
        self.hold(rt).deliver(rt, port, bells, taker, cpu)
    }

    /// Makes one Tick. Takes no memory.
    ///
    /// # Errors
    ///
    /// `Full`.
    pub fn tick<R: Wait>(&self, rt: &R, port: &mut Port<O, S, B, T>) -> Result<Answer, Refusal>
        ensures call { MakesOne O.machine Event.Tick result port.old port.new }
        ensures refused { IfErr result (λ why. why ≡ Refusal.Full) }
    {
        self.hold(rt).tick(rt, port)
    }

    /// Makes one event of any kind. Takes no memory.
    ///
    /// # Errors
    ///
    /// As [`Machine::apply`].
    pub fn command<R: Wait>(
        &self,
        rt: &R,
        port: &mut Port<O, S, B, T>,
        event: &Event,
    ) -> Result<Answer, Refusal>
        ensures { MakesOne O.machine event.now result port.old port.new }
    {
        self.hold(rt).one(rt, port, &event.lend())
    }

    // The machine and its ports, which are all of them, with the totals. It is never inlined into `finish`: LLVM splits a machine
    // into its bytes, which are many, and doesn't end, where one body both opens the lock and hands it back.
    #[inline(never)]
    fn open(self, mut ports: Vec<Port<O, S, B, T>>) -> Finished<D, O, S, B, T>
        requires all { length ports.items ≡ self }
        ensures machine { IsReplayOf O.start result.machine × (kind_counts result.machine.journal ≡ plus O.base result.totals) }
        ensures begins { BeginsWith O.base result.machine.journal }
        ensures totals { result.totals ≡ made_by ports.items }
        ensures ports { result.ports.items ≡ ports.items }
        ensures history { EndsHistory O.machine result.machine ports.items }
    {
        let Shared { locked, ports: _ } = self;
        let Locked {
            machine,
            mut books,
            history,
        } = locked.into_inner();
        let mut sight = history.sight();
        see_all(&mut sight, ports.as_slice());
        let _count = machine.event_count();
        let totals = sum_all(&mut books, ports.as_mut_slice());
        Finished {
            machine,
            ports,
            totals,
        }
    }

    /// Ends the sharing, if and only if these are all ports.
    ///
    /// # Errors
    ///
    /// What was handed in, if a port is missing.
    pub fn finish(
        self,
        ports: Vec<Port<O, S, B, T>>,
    ) -> Result<Finished<D, O, S, B, T>, Unfinished<D, O, S, B, T>>
        ensures machine { IfOk result (λ done. IsReplayOf O.start done.machine × (kind_counts done.machine.journal ≡ plus O.base done.totals)) }
        // the events that it had are the first ones
        ensures begins { IfOk result (λ done. BeginsWith O.base done.machine.journal) }
        ensures totals { IfOk result (λ done. done.totals ≡ made_by ports.items) }
        // the calls that have made it, and those that each port has seen, begin one history
        ensures history { IfOk result (λ done. EndsHistory O.machine done.machine ports.items) }
        ensures ports { MatchResult result (λ done. done.ports.items ≡ ports.items) (λ back. (back.shared ≡ self) × (back.ports.items ≡ ports.items)) }
        ensures all { MatchResult result (λ done. length ports.items ≡ self) (λ back. length ports.items ≢ self) }
    {
        if ports.len() != self.ports as usize {
            return Err(Unfinished {
                shared: self,
                ports,
            });
        }
        Ok(self.open(ports))
    }
}

// All that the ports have seen.
fn see_all<O: Origin, S: Ledger, B: Ledger, T: Ledger>(
    sight: &mut Sight<O>,
    ports: &[Port<O, S, B, T>],
)
    ensures more { IsPrefix sight.old sight.new }
    ensures all { All (λ (p : PortValue). IsPrefix p.log sight.new) ports.now }
{
    for port in ports {
        sight.learn(&port.log);
    }
}

// Made all ports made, which is what the books say.
fn sum_all<O: Origin, S: Ledger, B: Ledger, T: Ledger>(
    books: &mut Books<S, B, T>,
    ports: &mut [Port<O, S, B, T>],
) -> EventCounts
    requires some { 0 < length ports.old }
    requires fits { FitWords books.old }
    requires all { (S.parts ≡ length ports.old) × (B.parts ≡ length ports.old) × (T.parts ≡ length ports.old) }
    ensures sum { result ≡ made_by ports.old }
    ensures book { result ≡ books.old }
    ensures same { ports.new ≡ ports.old }
{
    let (first, rest) = ports.split_at_mut(1);
    let port = &mut first[0];
    let sum = port.share;
    sum_rest(books, rest, &mut port.shares, sum)
}

// Each port lends its share to the first, which then has all parts.
fn sum_rest<O: Origin, S: Ledger, B: Ledger, T: Ledger>(
    books: &mut Books<S, B, T>,
    ports: &mut [Port<O, S, B, T>],
    seen: &mut Shares<S, B, T>,
    sum: EventCounts,
) -> EventCounts
    requires seen { (0 < seen.old.parts) × (seen.old.amount ≡ sum) }
    requires fits { FitWords books.old }
    requires all { (S.parts ≡ seen.old.parts + length ports.old) × (B.parts ≡ seen.old.parts + length ports.old) × (T.parts ≡ seen.old.parts + length ports.old) }
    ensures sum { result ≡ plus sum (made_by ports.old) }
    ensures book { result ≡ books.old }
    ensures same { (ports.new ≡ ports.old) × (seen.new ≡ seen.old) × (books.new ≡ books.old) }
{
    if ports.is_empty() {
        books.audit(seen);
        return sum;
    }
    let (first, rest) = ports.split_at_mut(1);
    let port = &mut first[0];
    let more = port.share;
    port.shares.lend(seen, more);
    books.audit(seen);
    let total = sum_rest(books, rest, seen, sum.plus(more));
    seen.give_back(&mut port.shares, more);
    total
}
