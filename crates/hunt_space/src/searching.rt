//! The whole search.

ghost use Rattle.std.specs.Prelude.{◌≡◌, ◌≤◌, ◌<◌, ◌∷◌, [], ℕ, false, true, length, slice_get, IfOk, OnOk, Option};
ghost use Rattle.evm_model.specs.Good.{GoodState};
ghost use Rattle.evm_model.specs.Replay.{IsReplayOf};
ghost use Rattle.evm_model.specs.State.{State};
ghost use Rattle.hunt_schedules.specs.Beginning.{Begins};
ghost use Rattle.hunt_search.specs.Hunts.{AreFound};
ghost use Rattle.hunt_space.specs.Going.{HasGone, IsNumbered, BeginsSearch};
ghost use Rattle.hunt_space.specs.Runs.{NeverFailsAtAll};
ghost use Rattle.hunt_space.specs.Searched.{IsSpaceSearched};
ghost use Rattle.hunt_space.specs.Space.{KeepsPaths, KeepsPlaces};
ghost use Rattle.hunt_space.specs.Standing.{AreStanding, BeginsAfresh, IsStanding};

use crate::bounds::EventBounds;
use crate::frontier::Frontier;
use crate::going::{Going, Tally};
use crate::path::Path;
use crate::reached::ReachedText;
use crate::standing::Stand;
use crate::text::TextSpan;
use crate::turning::go;
use crate::visited::Visited;
use hunt_schedules::{AnyDevice, HuntStop, Machine, begin};
use hunt_search::{HuntRun, Onlooker, Report, Target, note};

/// What bounds a search.
#[derive(Clone, Copy, Debug)]
pub struct SpaceBounds {
    /// How many ticks and raises may come.
    pub events: EventBounds,
    /// The most states that are visited, below 2^31.
    pub states: u32,
}

/// What a search came to.
#[derive(Debug, Drop)]
pub struct SpaceReport {
    /// The failures, and whether the search was cut.
    pub report: Report,
    /// How many states were visited.
    pub states: u64,
    /// How many events were made at them.
    pub events: u64,
    /// At how many of them nothing more can happen.
    pub ends: u64,
    /// Where a call reads the clock or names a time, though any number of ticks may come.
    pub clock: Option<u64>,
    /// What of the program's text was reached.
    pub text: ReachedText,
}

// How many ticks and raises may come, where private rows are taken from, and the machine that has had no event.
#[derive(Clone, Copy)]
struct Scope<'a> {
    bounds: EventBounds,
    text: TextSpan,
    first: &'a Machine<AnyDevice>,
}

// How far a search has come, and the machine on which it goes its paths. A stack has no room for all machines of a search.
#[derive(Debug, Drop)]
struct Search {
    machine: Box<Machine<AnyDevice>>,
    kept: Stand,
    frontier: Frontier,
    visited: Visited,
    tally: Tally,
}

// A search of which some paths were gone.
#[derive(Debug, Drop)]
struct Gone {
    search: Search,
    count: u32,
}

// Whether a path has ended for want of memory. The search is cut then, and what was found before stands.
fn is_starved(stop: HuntStop, frontier: &mut Frontier) -> bool
    ensures paths { frontier.new.paths ≡ frontier.old.paths }
    ensures cut { frontier.new.cut ≡ false → frontier.old.cut ≡ false }
    ensures starved { result ≡ true → frontier.new.cut ≡ true }
{
    match stop {
        HuntStop::NoMemory => {
            frontier.cut = true;
            true
        }
        HuntStop::NoMachine(_) => false,
    }
}

// Goes a path, and adds what it came to; whether there was memory for it.
fn look<O: Onlooker>(
    going: &Going<'_>,
    search: &mut Search,
    report: &mut Report,
    onlooker: &mut O,
) -> Result<bool, HuntStop>
    requires found { AreFound going.now.target.image.now going.now.target.boot.now going.now.target.wanted.now.lines report.old.rows.items }
    requires first { BeginsAfresh going.now }
    requires stands { AreStanding going.now.first.now search.old.kept search.old.visited.seen }
    requires there { IsNumbered going.now search.old.frontier.paths.items }
    ensures found { OnOk result (AreFound going.now.target.image.now going.now.target.boot.now going.now.target.wanted.now.lines report.new.rows.items) }
    ensures stands { IfOk result (λ gone. gone ≡ true → AreStanding going.now.first.now search.new.kept search.new.visited.seen) }
    ensures keeps_paths { KeepsPaths search.old.frontier.paths.items search.new.frontier.paths.items }
    ensures keeps_places { KeepsPlaces search.old.visited.places.items search.new.visited.places.items }
    ensures cut { search.new.frontier.cut ≡ false → search.old.frontier.cut ≡ false }
    ensures starved { IfOk result (λ gone. gone ≡ false → search.new.frontier.cut ≡ true) }
    ensures rows { OnOk result (report.new.rows.items ≡ [] → report.old.rows.items ≡ []) }
    ensures boots { OnOk result ((first : State) × BeginsSearch going.now first × GoodState first) }
    ensures goes { OnOk result (report.new.rows.items ≡ [] → search.new.frontier.cut ≡ false → HasGone going.now search.old.frontier.paths.items search.new.frontier.paths.items search.old.visited.places.items search.new.visited.places.items) }
{
    let target = going.target;
    going.first.rules();
    let outcome = match go(
        going,
        &mut search.machine,
        &mut search.kept,
        &mut search.frontier,
        &mut search.visited,
        &mut search.tally,
    ) {
        Ok(outcome) => outcome,
        Err(stop) => {
            if is_starved(stop, &mut search.frontier) {
                return Ok(false);
            }
            return Err(stop);
        }
    };
    let run = HuntRun {
        seed: u64::from(going.number),
        machine: &search.machine,
        outcome,
    };
    match note(&target, &run, report, onlooker) {
        Ok(()) => Ok(true),
        Err(stop) => Err(stop),
    }
}

// Goes the paths, those that fork from them too; how many were gone.
fn go_paths<O: Onlooker>(
    target: &Target<'_>,
    scope: &Scope<'_>,
    search: &mut Search,
    report: &mut Report,
    onlooker: &mut O,
) -> Result<u32, HuntStop>
    requires begins { Begins target.now.image.now target.now.boot.now scope.now.first.now }
    requires fresh { IsReplayOf scope.now.first.now scope.now.first.now }
    requires stands { AreStanding scope.now.first.now search.old.kept search.old.visited.seen }
    requires guarded { target.now.wanted.now.demotion ≡ true → 0 < scope.now.text.high → target.now.boot.now.watchdog ≡ 0 }
    requires found { AreFound target.now.image.now target.now.boot.now target.now.wanted.now.lines report.old.rows.items }
    requires root { (root : Path) × (search.old.frontier.paths.items ≡ root ∷ []) × (root.turns.items ≡ []) }
    requires none { search.old.visited.places.items ≡ [] }
    ensures found { OnOk result (AreFound target.now.image.now target.now.boot.now target.now.wanted.now.lines report.new.rows.items) }
    ensures searched { IfOk result (λ count. report.new.rows.items ≡ [] → search.new.frontier.cut ≡ false → IsSpaceSearched target.now.image.now target.now.boot.now target.now.wanted.now scope.now.bounds search.new.frontier.paths.items search.new.visited.places.items count) }
{
    'paths: for number in 0..u32::MAX {
        if search.frontier.hit {
            return Ok(number);
        }
        if !onlooker.goes_on(u64::from(number), report.rows.len() as u64) {
            return Ok(number);
        }
        let path = match search.frontier.get(target.alloc, number) {
            Ok(Some(path)) => path,
            Ok(None) => return Ok(number),
            Err(_) => {
                search.frontier.cut = true;
                return Ok(number);
            }
        };
        let going = Going {
            target: *target,
            bounds: scope.bounds,
            text: scope.text,
            path: &path,
            number,
            first: scope.first,
        };
        match look(&going, search, report, onlooker) {
            Ok(true) => {}
            Ok(false) => return Ok(number),
            Err(stop) => return Err(stop),
        }
    }
    Ok(u32::MAX)
}

// Whether there are paths that were not gone.
fn is_cut(frontier: &Frontier, count: u32) -> bool
    ensures { result ≡ false → (frontier.now.cut ≡ false) × (length frontier.now.paths.items ≤ count) }
{
    if frontier.cut {
        return true;
    }
    frontier.paths.len() as u64 > u64::from(count)
}

// What a search came to, of which some paths were gone.
fn told(mut report: Report, gone: Gone) -> SpaceReport
    ensures rows { result.report.rows ≡ report.rows }
    ensures cut { result.report.cut ≡ false → (gone.search.frontier.cut ≡ false) × (length gone.search.frontier.paths.items ≤ gone.count) }
{
    let search = gone.search;
    report.set_cut(is_cut(&search.frontier, gone.count));
    SpaceReport {
        report,
        states: search.visited.places.len() as u64,
        events: search.tally.events,
        ends: search.tally.ends,
        clock: search.frontier.clock,
        text: search.tally.text,
    }
}

// A machine that has had no event.
fn first_machine(target: &Target<'_>) -> Result<Box<Machine<AnyDevice>>, HuntStop>
    ensures begins { IfOk result (λ machine. Begins target.now.image.now target.now.boot.now machine.value) }
    ensures fresh { IfOk result (λ machine. IsReplayOf machine.value machine.value) }
{
    let machine = match begin(target.alloc, target.image, target.boot) {
        Ok(machine) => machine,
        Err(fault) => return Err(HuntStop::from(fault)),
    };
    match Box::new(target.alloc, machine) {
        Ok(machine) => Ok(machine),
        Err(_) => Err(HuntStop::NoMemory),
    }
}

// A machine that stands at the boot.
fn stand(target: &Target<'_>) -> Result<Stand, HuntStop>
    ensures { IfOk result (λ stand. (first : State) → Begins target.now.image.now target.now.boot.now first → IsStanding first stand) }
{
    match first_machine(target) {
        Ok(machine) => Ok(Stand::new(target.alloc, machine)),
        Err(stop) => Err(stop),
    }
}

// A search that begins: the boot is the one path.
fn begun(target: &Target<'_>, states: u32) -> Result<Search, HuntStop>
    ensures stands { IfOk result (λ search. (first : State) → Begins target.now.image.now target.now.boot.now first → AreStanding first search.kept search.visited.seen) }
    ensures root { IfOk result (λ search. (root : Path) × (search.frontier.paths.items ≡ root ∷ []) × (root.turns.items ≡ [])) }
    ensures none { IfOk result (λ search. search.visited.places.items ≡ []) }
{
    let most = u64::from(states) * 4 + 4;
    let frontier = match Frontier::new(target.alloc, most) {
        Ok(frontier) => frontier,
        Err(fault) => return Err(HuntStop::from(fault)),
    };
    let seen = match stand(target) {
        Ok(seen) => seen,
        Err(stop) => return Err(stop),
    };
    let kept = match stand(target) {
        Ok(kept) => kept,
        Err(stop) => return Err(stop),
    };
    let machine = match first_machine(target) {
        Ok(machine) => machine,
        Err(stop) => return Err(stop),
    };
    let visited = match Visited::new(target.alloc, states, seen) {
        Ok(visited) => visited,
        Err(fault) => return Err(HuntStop::from(fault)),
    };
    let text = match ReachedText::new(target.alloc, TextSpan::of_image(target.image)) {
        Ok(text) => text,
        Err(fault) => return Err(HuntStop::from(fault)),
    };
    Ok(Search {
        machine,
        kept,
        frontier,
        visited,
        tally: Tally::new(text),
    })
}

// Searches all, and makes the private rows of a text at once.
fn search_text<O: Onlooker>(
    target: &Target<'_>,
    bounds: &SpaceBounds,
    text: TextSpan,
    report: &mut Report,
    onlooker: &mut O,
) -> Result<Gone, HuntStop>
    requires guarded { target.now.wanted.now.demotion ≡ true → 0 < text.high → target.now.boot.now.watchdog ≡ 0 }
    requires found { AreFound target.now.image.now target.now.boot.now target.now.wanted.now.lines report.old.rows.items }
    ensures found { OnOk result (AreFound target.now.image.now target.now.boot.now target.now.wanted.now.lines report.new.rows.items) }
    ensures searched { IfOk result (λ gone. report.new.rows.items ≡ [] → gone.search.frontier.cut ≡ false → IsSpaceSearched target.now.image.now target.now.boot.now target.now.wanted.now bounds.now.events gone.search.frontier.paths.items gone.search.visited.places.items gone.count) }
{
    let mut search = match begun(target, bounds.states) {
        Ok(search) => search,
        Err(stop) => return Err(stop),
    };
    let first = match first_machine(target) {
        Ok(first) => first,
        Err(stop) => return Err(stop),
    };
    let scope = Scope {
        bounds: bounds.events,
        text,
        first: &first,
    };
    match go_paths(target, &scope, &mut search, report, onlooker) {
        Ok(count) => Ok(Gone { search, count }),
        Err(stop) => Err(stop),
    }
}

// Searches all. Where a program stores to its text, no private row is made at once.
fn search_all<O: Onlooker>(
    target: &Target<'_>,
    bounds: &SpaceBounds,
    report: &mut Report,
    onlooker: &mut O,
) -> Result<Gone, HuntStop>
    requires found { AreFound target.now.image.now target.now.boot.now target.now.wanted.now.lines report.old.rows.items }
    ensures found { OnOk result (AreFound target.now.image.now target.now.boot.now target.now.wanted.now.lines report.new.rows.items) }
    ensures searched { IfOk result (λ gone. report.new.rows.items ≡ [] → gone.search.frontier.cut ≡ false → IsSpaceSearched target.now.image.now target.now.boot.now target.now.wanted.now bounds.now.events gone.search.frontier.paths.items gone.search.visited.places.items gone.count) }
{
    let gone = match search_text(target, bounds, TextSpan::of(target), report, onlooker) {
        Ok(gone) => gone,
        Err(stop) => return Err(stop),
    };
    if !gone.search.frontier.hit {
        return Ok(gone);
    }
    drop(gone);
    match search_text(target, bounds, TextSpan::none(), report, onlooker) {
        Ok(again) => Ok(again),
        Err(stop) => Err(stop),
    }
}

/// Makes each event that may come at each state, up to states that are alike to one that was visited. In place of a seed a failure has the
/// number of its path. Where memory is refused, the search is cut.
///
/// # Errors
///
/// Memory was refused before the first path, or for a failure, or no machine boots with the image.
pub fn hunt_space<O: Onlooker>(
    target: &Target<'_>,
    bounds: &SpaceBounds,
    onlooker: &mut O,
) -> Result<SpaceReport, HuntStop>
    // each failure is one of a machine that was booted with the image
    ensures found { IfOk result (λ found. AreFound target.now.image.now target.now.boot.now target.now.wanted.now.lines found.report.rows.items) }
    // if it has found none and wasn't cut, no schedule fails, however long it is
    ensures complete { IfOk result (λ found. found.report.rows.items ≡ [] → found.report.cut ≡ false → NeverFailsAtAll target.now.image.now target.now.boot.now target.now.wanted.now bounds.now.events) }
{
    let mut report = Report::new(target.alloc, false);
    let gone = match search_all(target, bounds, &mut report, onlooker) {
        Ok(gone) => gone,
        Err(stop) => return Err(stop),
    };
    Ok(told(report, gone))
}
