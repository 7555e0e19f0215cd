//! Whether a state is alike to one that was visited: the path of that one is gone again, and the machines are compared.

ghost use Rattle.std.specs.Prelude.{◌≡◌, true, false, IfOk, OnOk};
ghost use Rattle.evm_model.specs.State.{State};
ghost use Rattle.hunt_space.specs.Going.{ComesOfVisit, IsNumbered, Knows, LeadsTo, BeginsSearch};
ghost use Rattle.hunt_space.specs.Standing.{BeginsAfresh, IsStanding};
ghost use Rattle.hunt_space.specs.Space.{FitsClock, HasAlikeAt, KeepsPlaces};

use crate::frontier::Frontier;
use crate::going::{Going, Position};
use crate::standing::Stand;
use crate::visited::{StatePlace, Visited};
use hunt_schedules::{AnyDevice, HuntStop, Machine};

/// How many states of one hash are compared.
const CANDIDATES: u32 = 8;

/// How a search has come to a state.
#[derive(Clone, Copy, Debug, PartialEq, Eq)]
pub enum Arrival {
    /// None that was visited before is alike, as far as the search has looked.
    First,
    /// One that was visited is alike.
    Again,
    /// There may be no more states, or a time is named where any number of ticks may come.
    Cut,
}

// Whether the state of a place is alike to that of a machine.
fn covers(
    going: &Going<'_>,
    position: &Position<'_>,
    frontier: &Frontier,
    place: StatePlace,
    seen: &mut Stand,
) -> Result<bool, HuntStop>
    requires first { BeginsAfresh going.now }
    requires stands { IsStanding going.now.first.now seen.old }
    requires fits { FitsClock going.now.bounds.ticks position.now.machine.now }
    requires at { LeadsTo going.now position.now.steps position.now.machine.now }
    ensures stands { IfOk result (λ covered. IsStanding going.now.first.now seen.new) }
    ensures alike { IfOk result (λ covered. covered ≡ true → (first : State) → BeginsSearch going.now first → HasAlikeAt going.now.bounds first frontier.now.paths.items place position.now.machine.now) }
{
    let Some(path) = frontier.paths.get(place.path as usize) else {
        return Ok(false);
    };
    match seen.take_to(going.first, path.turns.as_slice(), path.cpu, place.steps) {
        Ok(()) => {}
        Err(stop) => return Err(stop),
    }
    Ok(going.bounds.compare(&seen.machine, position.machine))
}

// Whether a state that was visited is alike to that of a machine: one of its hash.
fn is_covered(
    going: &Going<'_>,
    position: &Position<'_>,
    hash: u64,
    frontier: &Frontier,
    visited: &mut Visited,
) -> Result<bool, HuntStop>
    requires first { BeginsAfresh going.now }
    requires stands { IsStanding going.now.first.now visited.old.seen }
    requires fits { FitsClock going.now.bounds.ticks position.now.machine.now }
    requires at { LeadsTo going.now position.now.steps position.now.machine.now }
    ensures same { visited.new.places.items ≡ visited.old.places.items }
    ensures stands { IfOk result (λ covered. IsStanding going.now.first.now visited.new.seen) }
    ensures known { IfOk result (λ covered. covered ≡ true → Knows going.now frontier.now.paths.items visited.old.places.items position.now.machine.now) }
{
    let mut from = 0;
    'candidates: for _ in 0..CANDIDATES {
        let Some(turn) = visited.find(hash, from) else {
            return Ok(false);
        };
        let Some(place) = visited.found(hash, turn) else {
            return Ok(false);
        };
        match covers(going, position, frontier, place, &mut visited.seen) {
            Ok(true) => return Ok(true),
            Ok(false) => {}
            Err(stop) => return Err(stop),
        }
        from = turn.saturating_add(1);
    }
    Ok(false)
}

// Visits a state, if none that was visited is alike.
fn enter(
    going: &Going<'_>,
    position: &Position<'_>,
    frontier: &Frontier,
    visited: &mut Visited,
) -> Result<Arrival, HuntStop>
    requires first { BeginsAfresh going.now }
    requires stands { IsStanding going.now.first.now visited.old.seen }
    requires there { IsNumbered going.now frontier.now.paths.items }
    requires fits { FitsClock going.now.bounds.ticks position.now.machine.now }
    requires at { LeadsTo going.now position.now.steps position.now.machine.now }
    ensures keeps { KeepsPlaces visited.old.places.items visited.new.places.items }
    ensures stands { IfOk result (λ arrival. IsStanding going.now.first.now visited.new.seen) }
    ensures comes { IfOk result (λ arrival. ComesOfVisit going.now frontier.now.cut frontier.now.paths.items visited.old.places.items visited.new.places.items position.now.steps position.now.machine.now arrival) }
{
    let hash = going.bounds.hash(position.machine, &position.trail);
    match is_covered(going, position, hash, frontier, visited) {
        Ok(true) => return Ok(Arrival::Again),
        Ok(false) => {}
        Err(stop) => return Err(stop),
    }
    position.machine.rules();
    let here = StatePlace {
        path: going.number,
        steps: position.steps,
    };
    match visited.add(hash, here) {
        Ok(()) => Ok(Arrival::First),
        Err(fault) => Err(HuntStop::from(fault)),
    }
}

// Whether a state may be visited: there may be one more, and no time is named where any number of ticks may come.
fn may_visit(going: &Going<'_>, machine: &Machine<AnyDevice>, visited: &Visited) -> bool
    ensures { result ≡ true → FitsClock going.now.bounds.ticks machine.now }
{
    if visited.is_full() {
        return false;
    }
    going.bounds.fits(machine)
}

/// Visits a state, unless one that was visited is alike, or the search is cut there.
///
/// # Errors
///
/// Memory was refused.
pub(crate) fn visit(
    going: &Going<'_>,
    position: &Position<'_>,
    frontier: &mut Frontier,
    visited: &mut Visited,
) -> Result<Arrival, HuntStop>
    requires first { BeginsAfresh going.now }
    requires stands { IsStanding going.now.first.now visited.old.seen }
    requires there { IsNumbered going.now frontier.old.paths.items }
    requires at { LeadsTo going.now position.now.steps position.now.machine.now }
    ensures paths { frontier.new.paths.items ≡ frontier.old.paths.items }
    ensures cut { frontier.new.cut ≡ false → frontier.old.cut ≡ false }
    ensures keeps { KeepsPlaces visited.old.places.items visited.new.places.items }
    ensures stands { IfOk result (λ arrival. IsStanding going.now.first.now visited.new.seen) }
    ensures comes { IfOk result (λ arrival. ComesOfVisit going.now frontier.new.cut frontier.old.paths.items visited.old.places.items visited.new.places.items position.now.steps position.now.machine.now arrival) }
{
    if !may_visit(going, position.machine, visited) {
        frontier.cut = true;
        return Ok(Arrival::Cut);
    }
    match enter(going, position, frontier, visited) {
        Ok(arrival) => Ok(arrival),
        Err(stop) => Err(stop),
    }
}

/// Puts the last state that was visited into the table, if private rows have led to it.
pub(crate) fn mark(going: &Going<'_>, position: &Position<'_>, from: u32, visited: &mut Visited)
    ensures places { visited.new.places.items ≡ visited.old.places.items }
    ensures seen { visited.new.seen ≡ visited.old.seen }
{
    if position.steps == from {
        return;
    }
    visited.mark(going.bounds.hash(position.machine, &position.trail));
}
