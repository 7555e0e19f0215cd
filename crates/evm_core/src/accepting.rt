//! Events on the parts of a machine. Each says that it keeps the journal's room: so no event takes memory for it.

ghost use Rattle.std.specs.Prelude.{◌≡◌, ◌≤◌, ◌<◌, [], ◌∷◌, ◌++◌, IfErr, IfOk, MatchResult, OnErr, OnOk, Option, Result};
ghost use Rattle.evm_history.specs.History.{KeepsRoom};
ghost use Rattle.evm_model.specs.Event.{event_lent};
ghost use Rattle.evm_model.specs.Replay.{apply};
ghost use Rattle.evm_model.specs.declared.event.Event.TheVariants as events;
ghost use Rattle.evm_core.specs.Parts.{AreParts, state_of};
ghost use Rattle.evm_core.specs.Steps.{steps};

use crate::typed::event_fits;
use evm_board::Board;
use evm_dev::Device;
use evm_history::Journal;
use evm_model::{Answer, Block, Boot, Event, Refusal};

/// One Step of a processor: what it answers, or why it is refused. It is `apply_to` of its event, and looks for nothing that a Step
/// can't be refused for.
#[inline(always)]
pub(crate) fn step_to<D: Device>(
    boot: &Boot,
    journal: &mut Journal,
    board: &mut Board<D>,
    c: u8,
) -> Result<Answer, Refusal>
    requires { AreParts boot.now journal.old board.old }
    ensures ok { IfOk result (λ answer. apply (state_of boot.now journal.old board.old) (events.Step c) ≡ Result.Ok (state_of boot.now journal.new board.new, answer)) }
    ensures err { IfErr result (λ refusal. apply (state_of boot.now journal.old board.old) (events.Step c) ≡ Result.Err refusal) }
    ensures unchanged { OnErr result ((journal.new ≡ journal.old) × (board.new ≡ board.old)) }
    ensures journaled { OnOk result (journal.new.events ≡ journal.old.events ++ events.Step c ∷ []) }
    ensures stays { AreParts boot.now journal.new board.new }
    // the journal's memory is what it was, and its room that of one line less, if there is a line more
    ensures keeps { KeepsRoom journal.old journal.new }
{
    if journal.len() >= boot.capacity {
        return Err(Refusal::Full);
    }
    if c >= board.parts.processor_count() {
        return Err(Refusal::NoSuchCpu);
    }
    let answer = board.step(c);
    journal.push_steps(c, 1);
    Ok(answer)
}

/// One event: what it answers, or why it is refused, the first reason by its number. `Machine::apply` is this.
#[inline(always)]
#[tactic(auto, unfolding(evm_model::specs::Replay::apply))]
pub fn apply_to<D: Device>(
    boot: &Boot,
    journal: &mut Journal,
    board: &mut Board<D>,
    event: &Event<&Block>,
) -> Result<Answer, Refusal>
    requires { AreParts boot.now journal.old board.old }
    ensures ok { IfOk result (λ answer. apply (state_of boot.now journal.old board.old) (event_lent event.now) ≡ Result.Ok (state_of boot.now journal.new board.new, answer)) }
    ensures err { IfErr result (λ refusal. apply (state_of boot.now journal.old board.old) (event_lent event.now) ≡ Result.Err refusal) }
    ensures unchanged { OnErr result ((journal.new ≡ journal.old) × (board.new ≡ board.old)) }
    ensures journaled { OnOk result (journal.new.events ≡ journal.old.events ++ event_lent event.now ∷ []) }
    ensures stays { AreParts boot.now journal.new board.new }
    // the journal's memory is what it was, and its room that of one line less, if there is a line more
    ensures keeps { KeepsRoom journal.old journal.new }
{
    if let Event::Step(c) = event {
        return step_to(boot, journal, board, *c);
    }
    if journal.len() >= boot.capacity {
        return Err(Refusal::Full);
    }
    if let Some(refusal) = board.refusal(event) {
        return Err(refusal);
    }
    event_fits(event);
    let answer = board.row(event);
    journal.push(event);
    Ok(answer)
}

// So many, or as many as there is room for.
fn at_most(count: u32, room: u64) -> u32
    ensures count { result ≤ count }
    ensures room { result ≤ room }
    ensures all { result < count → result ≡ room }
{
    if room < u64::from(count) {
        room as u32
    } else {
        count
    }
}

/// At least one of `count` Steps of a processor: how many were made, or why the first is refused. `Machine::steps` is these,
/// one after the other.
#[inline(always)]
#[tactic(auto, using(crate::proofs::Many::step_rules))]
pub fn some_steps_to<D: Device>(
    boot: &Boot,
    journal: &mut Journal,
    board: &mut Board<D>,
    c: u8,
    most: u32,
) -> Result<u32, Refusal>
    requires asked { 0 < most }
    requires parts { AreParts boot.now journal.old board.old }
    ensures made { MatchResult result (λ done. (0 < done) × (done ≤ most) × (steps c done (state_of boot.now journal.old board.old) ≡ (state_of boot.now journal.new board.new, Option.None))) (λ refusal. steps c most (state_of boot.now journal.old board.old) ≡ (state_of boot.now journal.new board.new, Option.Some refusal)) }
    ensures stays { AreParts boot.now journal.new board.new }
    // the journal's memory is what it was, and its room that of one line less, if there is a line more
    ensures keeps { KeepsRoom journal.old journal.new }
{
    let room = boot.capacity - journal.len();
    if room == 0 {
        return Err(Refusal::Full);
    }
    if c >= board.parts.processor_count() {
        return Err(Refusal::NoSuchCpu);
    }
    let made = board.steps(c, at_most(most, room));
    journal.push_steps(c, made.count);
    Ok(made.count)
}
