//! A session: a machine at a place of its events, and what GDB has chosen.

ghost use Rattle.gdb_answers.specs.Sessions.{IsMadeFrom};
ghost use Rattle.gdb_tape.specs.Tape.{IsTape, KeepsTape};
ghost use Rattle.gdb_tape.specs.gdb_driving.Kept.{KeepsJournal};
ghost use Rattle.std.specs.Prelude.{◌≡◌, Option, OnErr, OnOk};

use arrayvec::ArrayVec;
use evm_devs::AnyDevice;
use evm_ram::Image;
use gdb_tape::{Machine, Points, Refusal, Round, Tape, TargetHalt, Why, begin, stop_all};
use sh_answers::Names;
use std::alloc::Global;

/// How many turns a schedule may have.
pub const TURN_LIMIT: usize = 32;

/// How many events a continue makes at most, unless the monitor says otherwise.
pub const LIMIT: u32 = 1_000_000;

/// Behind how many rounds of turns the clock ticks, unless the monitor says otherwise.
pub const CLOCK: u32 = 1_000;

/// Whether the machine is to boot anew before the next packet is answered.
#[derive(Clone, Copy, Debug, PartialEq, Eq)]
pub(crate) enum Booting {
    /// It need not.
    Idle,
    /// The packet asks for it.
    Asked,
    /// It has, and the packet is to be answered.
    Done,
    /// It could not, and the packet is to be answered.
    Failed,
}

/// The events of a machine and a place among them, and what GDB has chosen.
#[derive(Drop)]
pub struct GdbSession {
    /// The events, and the machine at the place.
    pub tape: Tape,
    /// The names of what is in the image.
    pub names: Names,
    /// The task whose registers are asked for.
    pub looked: u8,
    /// The task that goes on; None for any.
    pub chosen: Option<u8>,
    /// Each packet is acknowledged.
    pub acknowledges: bool,
    /// GDB has left.
    pub over: bool,
    /// GDB may start the program again, and ends it without leaving.
    pub extended: bool,
    /// Whether the machine is to boot anew.
    pub(crate) booting: Booting,
    /// How many events a continue makes at most.
    pub limit: u32,
    /// How many rounds of turns go from one tick of the clock to the next; 0 for no ticks.
    pub clock: u32,
    /// The processors that step in a continue, one after the other and again from the first.
    pub turns: ArrayVec<u8, TURN_LIMIT>,
    /// How far the turns are.
    pub round: Round,
    /// Where a continue stops.
    pub points: Points,
    /// Why the program is stopped.
    pub halt: TargetHalt,
    /// Events behind a place were dropped, and that was not said yet.
    pub dropped: bool,
    /// It was said that the journal is full.
    pub(crate) told_full: bool,
    /// How many events were made before the session.
    pub begin: u64,
    /// The name under which the session is to be saved; none if it is empty.
    pub save: String,
}

/// Each processor once.
pub(crate) fn each_processor(count: u8) -> ArrayVec<u8, TURN_LIMIT> {
    let mut turns = ArrayVec::new();
    for c in 0..count {
        let _ = turns.try_push(c);
    }
    turns
}

// The current task of the first processor that has one.
fn first_task(machine: &Machine<AnyDevice>) -> u8 {
    for c in 0..machine.cpu_count() {
        if let Some(processor) = machine.cpu(c) {
            if let Some(task) = processor.current {
                return task;
            }
        }
    }
    0
}

impl GdbSession {
    /// A session with a machine that booted with an image of these names. Its processors are stopped.
    #[tactic(auto, using(crate::proofs::Sessions::made_tape))]
    pub fn new(
        alloc: Global,
        image: Image,
        names: Names,
        mut machine: Machine<AnyDevice>,
    ) -> GdbSession
        ensures sound { IsMadeFrom image machine → IsTape result.tape }
        ensures image { result.tape.image ≡ image }
        ensures machine { KeepsJournal machine result.tape.machine }
    {
        let _ = stop_all(&mut machine);
        let looked = first_task(&machine);
        let turns = each_processor(machine.cpu_count());
        let begin = machine.event_count();
        GdbSession {
            tape: Tape::new(image, machine),
            names,
            looked,
            chosen: None,
            acknowledges: true,
            over: false,
            extended: false,
            booting: Booting::Idle,
            limit: LIMIT,
            clock: CLOCK,
            turns,
            round: Round::new(),
            points: Points::new(),
            halt: TargetHalt {
                task: looked,
                why: Why::Asked,
            },
            dropped: false,
            told_full: false,
            begin,
            save: String::new(alloc),
        }
    }

    /// Boots anew with an image of these names, and the same numbers: the session has no events but the stops of the processors,
    /// and no breakpoints and watchpoints, as GDB sets them again.
    ///
    /// # Errors
    ///
    /// `NoMemory`; another where RAM has no room for the image. The machine is left as it is then.
    #[tactic(auto, using(gdb_tape::proofs::Keeping::new_tape))]
    pub fn boot(&mut self, alloc: Global, image: Image, names: Names) -> Result<(), Refusal>
        ensures sound { OnOk result (IsTape self.new.tape) }
        ensures image { OnOk result (self.new.tape.image ≡ image) }
        ensures unchanged { OnErr result (self.new.tape ≡ self.old.tape) }
    {
        let numbers = self.tape.end().boot_numbers();
        let mut machine = match begin(alloc, &image, numbers) {
            Ok(machine) => machine,
            Err(refusal) => {
                self.booting = Booting::Failed;
                return Err(refusal);
            }
        };
        let _ = stop_all(&mut machine);
        self.looked = first_task(&machine);
        self.halt = TargetHalt {
            task: self.looked,
            why: Why::Asked,
        };
        self.chosen = None;
        self.begin = machine.event_count();
        self.round = Round::new();
        self.points = Points::new();
        self.dropped = false;
        self.told_full = false;
        self.names = names;
        self.booting = Booting::Done;
        self.tape = Tape::new(image, machine);
        Ok(())
    }

    /// Keeps the machine, as there is no image that it could boot with.
    pub fn keep(&mut self)
        ensures { self.new.tape ≡ self.old.tape }
    {
        self.booting = Booting::Failed;
    }

    /// Drops the events behind the place.
    pub(crate) fn forget(&mut self)
        ensures machine { self.new.tape.machine ≡ self.old.tape.machine }
        ensures image { self.new.tape.image ≡ self.old.tape.image }
        ensures last { self.new.tape.last ≡ Option.None }
        ensures kept { KeepsTape self.old.tape self.new.tape }
        ensures points { self.new.points ≡ self.old.points }
        ensures others { (self.new.acknowledges ≡ self.old.acknowledges) × (self.new.looked ≡ self.old.looked) × (self.new.extended ≡ self.old.extended) }
    {
        if self.tape.is_back() {
            self.dropped = true;
            self.told_full = false;
        }
        self.tape.forget();
    }
}
