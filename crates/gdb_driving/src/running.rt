//! A program that goes on until something stops it.

ghost use Rattle.std.specs.Prelude.{◌≡◌, IfOk, IfSome, true};
ghost use Rattle.gdb_driving.specs.Interrupts.{HaltsAlone, OnlyIfAsked, IsAlone, lacks_room, room_to_run};
ghost use Rattle.gdb_driving.specs.Kept.{KeepsJournal};

use crate::clock::is_pending;
use crate::driving::{event, go_all, stop_all};
use crate::points::Points;
use crate::seeing::{Next, break_at, halt_after, next_of, watch_at};
use crate::stops::{TargetHalt, Why};
use evm_debug::{Answer, Event, Machine, Refusal};
use evm_dev::Device;
use gdb_packets::Interrupts;

/// How a program goes on.
#[derive(Clone, Copy, Debug)]
pub struct Going<'a> {
    /// The processors that step, one after the other and again from the first.
    pub turns: &'a [u8],
    /// Where it stops.
    pub points: &'a Points,
    /// How many events it makes at most.
    pub limit: u32,
    /// How many rounds of turns go from one tick of the clock to the next, which comes too where nothing else is left; 0 for no ticks.
    pub clock: u32,
    /// Who is looked at. That task passes a breakpoint at its pc.
    pub looked: u8,
    /// The task whose instruction is the last.
    pub until: Option<u8>,
}

/// How far the turns are.
#[derive(Clone, Copy, Debug, PartialEq, Eq)]
pub struct Round {
    /// The next turn.
    pub turn: usize,
    /// How many rounds were made since the clock ticked.
    pub rounds: u32,
    /// Who passes a breakpoint at its pc.
    pub passes: Option<u8>,
}

impl Round {
    /// The first turn.
    pub fn new() -> Round {
        Round {
            turn: 0,
            rounds: 0,
            passes: None,
        }
    }

    // Comes to a turn. Those before it are passed over, maybe to the end of a round.
    fn come(&mut self, at: usize) {
        if at < self.turn {
            self.rounds = self.rounds.saturating_add(1);
        }
        self.turn = at;
    }

    // Goes past the turn. The last one ends a round.
    fn pass(&mut self, turns: usize) {
        self.turn = next_turn(self.turn, turns);
        if self.turn == 0 {
            self.rounds = self.rounds.saturating_add(1);
        }
    }
}

// The turn behind one.
fn next_turn(turn: usize, turns: usize) -> usize {
    if turn < turns && turns - turn > 1 {
        turn + 1
    } else {
        0
    }
}

// The first turn from one on whose processor has something to do, and what.
fn busy_turn<D: Device>(machine: &Machine<D>, turns: &[u8], first: usize) -> Option<(usize, Next)> {
    let mut turn = if first < turns.len() { first } else { 0 };
    'turns: for _ in 0..turns.len() {
        match next_of(machine, turns.get(turn).copied().unwrap_or(0)) {
            Next::Idles => {}
            next => return Some((turn, next)),
        }
        turn = next_turn(turn, turns.len());
    }
    None
}

// A tick of the clock.
#[tactic(auto, using(crate::proofs::Kept::keeps_same))]
fn tick<D: Device>(machine: &mut Machine<D>, round: &mut Round) -> Result<(), Refusal>
    ensures kept { KeepsJournal machine.old machine.new }
{
    round.rounds = 0;
    event(machine, Event::Tick)?;
    Ok(())
}

// What is done where no processor has anything to do: a tick, if something comes of it.
#[tactic(auto, using(crate::proofs::Kept::keeps_same))]
fn rest<D: Device>(
    machine: &mut Machine<D>,
    going: &Going<'_>,
    round: &mut Round,
) -> Result<Option<TargetHalt>, Refusal>
    ensures kept { KeepsJournal machine.old machine.new }
    ensures halts { IfOk result HaltsAlone }
{
    if going.clock == 0 || !is_pending(machine) {
        return Ok(Some(TargetHalt {
            task: going.looked,
            why: Why::Idle,
        }));
    }
    tick(machine, round)?;
    Ok(None)
}

// Who is stopped behind a step of a processor, and why.
fn halt_behind<D: Device>(
    machine: &Machine<D>,
    until: Option<u8>,
    cpu: u8,
    answer: Answer,
    watched: Option<Why>,
) -> Option<TargetHalt>
    requires { IfSome watched IsAlone }
    ensures { HaltsAlone result }
{
    if let Some(halt) = halt_after(machine, cpu, answer) {
        return Some(halt);
    }
    let Answer::Ran(task) = answer else {
        return None;
    };
    match watched {
        Some(why) => Some(TargetHalt { task, why }),
        None if until == Some(task) => Some(TargetHalt {
            task,
            why: Why::Asked,
        }),
        None => None,
    }
}

// Why a task is stopped before its instruction, if it doesn't pass.
fn stop_before<D: Device>(
    machine: &Machine<D>,
    points: &Points,
    passes: Option<u8>,
    task: u8,
) -> Option<TargetHalt>
    ensures { HaltsAlone result }
{
    if passes == Some(task) {
        return None;
    }
    match break_at(machine, points, task) {
        Some(why) => Some(TargetHalt { task, why }),
        None => None,
    }
}

// The step of a processor, of which a task does an instruction.
#[tactic(auto, using(crate::proofs::Kept::keeps_same))]
fn run_task<D: Device>(
    machine: &mut Machine<D>,
    going: &Going<'_>,
    round: &mut Round,
    cpu: u8,
    task: u8,
) -> Result<Option<TargetHalt>, Refusal>
    ensures kept { KeepsJournal machine.old machine.new }
    ensures halts { IfOk result HaltsAlone }
{
    if let Some(halt) = stop_before(machine, going.points, round.passes, task) {
        return Ok(Some(halt));
    }
    if round.passes == Some(task) {
        round.passes = None;
    }
    let watched = watch_at(machine, going.points, task);
    let answer = event(machine, Event::Step(cpu))?;
    Ok(halt_behind(machine, going.until, cpu, answer, watched))
}

// The step of a processor that receives a line, or takes up a task.
#[tactic(auto, using(crate::proofs::Kept::keeps_same))]
fn run_line<D: Device>(machine: &mut Machine<D>, cpu: u8) -> Result<Option<TargetHalt>, Refusal>
    ensures kept { KeepsJournal machine.old machine.new }
    ensures halts { IfOk result HaltsAlone }
{
    let answer = event(machine, Event::Step(cpu))?;
    Ok(halt_after(machine, cpu, answer))
}

// One event: a step of the next turn, or a tick.
#[tactic(auto, using(crate::proofs::Kept::keeps_same))]
fn run_turn<D: Device>(
    machine: &mut Machine<D>,
    going: &Going<'_>,
    round: &mut Round,
) -> Result<Option<TargetHalt>, Refusal>
    ensures kept { KeepsJournal machine.old machine.new }
    ensures halts { IfOk result HaltsAlone }
{
    let Some((at, next)) = busy_turn(machine, going.turns, round.turn) else {
        return rest(machine, going, round);
    };
    round.come(at);
    if going.clock != 0 && round.rounds >= going.clock {
        tick(machine, round)?;
        return Ok(None);
    }
    let cpu = going.turns.get(at).copied().unwrap_or(0);
    let outcome = match next {
        Next::Runs(task) => run_task(machine, going, round, cpu, task),
        Next::Prepares | Next::Idles => run_line(machine, cpu),
    };
    round.pass(going.turns.len());
    outcome
}

/// How many events are made between two looks at whether a stop is asked for.
const PATIENCE: u64 = 1_024;

// A number of events: who is stopped behind them, if somebody is.
#[tactic(auto, using(crate::proofs::Kept::keeps_same, crate::proofs::Kept::keeps_more))]
fn run_some<D: Device>(
    machine: &mut Machine<D>,
    going: &Going<'_>,
    round: &mut Round,
    count: u64,
) -> Result<Option<TargetHalt>, Refusal>
    ensures kept { KeepsJournal machine.old machine.new }
    ensures halts { IfOk result HaltsAlone }
{
    'steps: for _ in 0..count {
        match run_turn(machine, going, round) {
            Ok(None) => {}
            Ok(Some(halt)) => return Ok(Some(halt)),
            Err(refusal) => return Err(refusal),
        }
    }
    Ok(None)
}

// At most `most` events, until a stop is asked for: who is stopped, and why.
#[tactic(auto, using(crate::proofs::Kept::keeps_same, crate::proofs::Kept::keeps_more))]
fn run<D: Device, I: Interrupts>(
    machine: &mut Machine<D>,
    going: &Going<'_>,
    round: &mut Round,
    most: u64,
    interrupts: &I,
) -> Result<TargetHalt, Refusal>
    ensures kept { KeepsJournal machine.old machine.new }
    ensures asked { IfOk result (λ halt. OnlyIfAsked (I.asks interrupts.now true) halt.why) }
{
    let mut left = most;
    'parts: while left > 0 {
        if interrupts.is_asked() {
            return Ok(TargetHalt {
                task: going.looked,
                why: Why::Interrupted,
            });
        }
        let count = left.min(PATIENCE);
        match run_some(machine, going, round, count) {
            Ok(Some(halt)) => return Ok(halt),
            Ok(None) => {}
            Err(refusal) => return Err(refusal),
        }
        left -= count;
    }
    Ok(TargetHalt {
        task: going.looked,
        why: Why::Limit,
    })
}

// How many events the journal has room for, if each processor is first let go and stopped at the end.
fn room_to_run<D: Device>(machine: &Machine<D>) -> u64
    ensures { result ≡ room_to_run machine.now }
{
    machine
        .room()
        .saturating_sub(u64::from(machine.cpu_count()) * 2)
}

/// Whether the journal has no room for a continue.
pub fn lacks_room<D: Device>(machine: &Machine<D>) -> bool
    ensures { result ≡ lacks_room machine.now }
{
    room_to_run(machine) == 0
}

/// Lets all processors go, makes events by turns until one of the processors is stopped or a stop is asked for, and stops all.
///
/// # Errors
///
/// Full, where the journal has no room for an event, and the events around it; nothing is changed then. Another refusal is
/// that of a turn of a processor that isn't there; the events before it were made.
#[tactic(auto, using(crate::proofs::Kept::keeps_same, crate::proofs::Kept::keeps_more))]
pub fn resume<D: Device, I: Interrupts>(
    machine: &mut Machine<D>,
    going: &Going<'_>,
    round: &mut Round,
    interrupts: &I,
) -> Result<TargetHalt, Refusal>
    ensures kept { KeepsJournal machine.old machine.new }
    ensures asked { IfOk result (λ halt. OnlyIfAsked (I.asks interrupts.now true) halt.why) }
{
    let most = room_to_run(machine).min(u64::from(going.limit));
    if most == 0 {
        return Err(Refusal::Full);
    }
    go_all(machine)?;
    round.passes = Some(going.looked);
    let outcome = run(machine, going, round, most, interrupts);
    stop_all(machine)?;
    outcome
}
