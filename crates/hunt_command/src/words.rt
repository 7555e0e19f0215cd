//! What stands behind the word `hunt`.

use clap::ArgMatches;
use evm_lines::{LINES, LineSet};
use hunt_search::{Errors, Inversion, Wanted};

/// How schedules are chosen.
#[derive(Clone, Copy, Debug, PartialEq, Eq)]
pub enum Search {
    /// At random and by priorities, by turns of the seed.
    Mixed,
    /// Each step at random.
    Random,
    /// By priorities with this number of change points.
    Pct(u8),
    /// Every schedule with at most this number of switches.
    Switches(u8),
    /// Every schedule.
    All,
}

/// What is to be hunted.
#[derive(Clone, Copy, Debug)]
pub struct Options<'a> {
    /// The file of the program.
    pub image: &'a str,
    /// How many processors there are.
    pub cpus: u64,
    /// Bytes of RAM, if they are named.
    pub ram: Option<u64>,
    /// After how many ticks the watchdog demotes a task; 0 for none.
    pub watchdog: u64,
    /// How many events a schedule has at most.
    pub events: u64,
    /// Which failures are looked for, and which lines are raised.
    pub wanted: Wanted,
    /// How schedules are chosen.
    pub search: Search,
    /// The first seed.
    pub first: u64,
    /// The last seed.
    pub last: u64,
    /// The most schedules, where they are not chosen by seeds.
    pub most: u64,
    /// The most ticks of a schedule, where every schedule is looked at.
    pub ticks: Option<u64>,
    /// The most raises of a schedule, where every schedule is looked at.
    pub raises: Option<u64>,
    /// The most states that are visited then.
    pub states: u32,
    /// After how many seconds no schedule is begun.
    pub seconds: Option<u64>,
    /// Whether the orders of locks are looked at.
    pub orders: bool,
    /// Where the map is.
    pub map: Option<&'a str>,
    /// The name of the files that are written, without an ending.
    pub out: Option<&'a str>,
    /// The file of the test suite.
    pub junit: Option<&'a str>,
}

/// Why there is nothing to be hunted.
#[derive(Clone, Copy, Debug, PartialEq, Eq)]
pub(crate) enum WordFault {
    /// `--time` is no time.
    Time,
    /// The last of `--seeds` is below the first.
    Seeds,
    /// A failure that is counted over a run is looked for in every schedule.
    Counted,
    /// `--ticks`, `--raises` or `--states` stands without `--all`, or beside a number of switches.
    Bounds,
    /// A word is missing.
    Missing,
}

/// For how many seconds a hunt goes on without a bound.
const USUAL_SECONDS: u64 = 5;

/// How many states are visited, if that isn't named.
const USUAL_STATES: u32 = 1_000_000;

/// For how many rounds a task may not run, if they aren't named.
const USUAL_ROUNDS: u32 = 1_000;

// The number of an option, or what it is without.
fn number_of(matches: &ArgMatches<'_>, name: &str, usual: u64) -> u64 {
    match matches.get_one(name) {
        Some(number) => number,
        None => usual,
    }
}

// The lines that a schedule raises.
fn lines_of(matches: &ArgMatches<'_>) -> LineSet {
    let mut lines = LineSet::new();
    if let Some(words) = matches.get_strs("lines") {
        for word in words {
            if let Ok(line) = word.parse::<u8>()
                && line < LINES
            {
                lines.insert(line);
            }
        }
    }
    lines
}

// Looks for one failure more.
fn ask_for(wanted: &mut Wanted, name: &str) {
    let notice = name == "notice";
    wanted.ebreak |= name == "ebreak";
    wanted.fault |= name == "fault";
    wanted.deadlock |= name == "deadlock";
    wanted.demoted_by_call |= notice || name == "notice-1";
    wanted.demoted_by_fault |= notice || name == "notice-2";
    wanted.never_ends |= notice || name == "notice-3";
    wanted.not_owner |= notice || name == "notice-4";
    wanted.watchdog |= notice || name == "notice-5";
    wanted.abandoned |= name == "abandoned";
    wanted.demotion |= name == "demotion";
    wanted.overrun |= name == "overrun";
    wanted.lost |= name == "lost";
    if name == "stuck" {
        wanted.stuck = Some(USUAL_ROUNDS);
    }
}

// Looks for one error more.
fn ask_for_error(errors: &mut Errors, name: &str) {
    errors.eperm |= name == "eperm";
    errors.esrch |= name == "esrch";
    errors.eagain |= name == "eagain";
    errors.enomem |= name == "enomem";
    errors.ebusy |= name == "ebusy";
    errors.einval |= name == "einval";
    errors.edeadlk |= name == "edeadlk";
    errors.enosys |= name == "enosys";
    errors.etimedout |= name == "etimedout";
}

// The errors that are looked for.
fn errors_of(matches: &ArgMatches<'_>) -> Option<Errors> {
    let names = matches.get_strs("errno")?;
    let mut errors = Errors::none();
    for name in names {
        ask_for_error(&mut errors, name);
    }
    Some(errors)
}

// The task that is kept back, if one is looked for.
fn inversion_of(matches: &ArgMatches<'_>) -> Option<Inversion> {
    let Some([rank, steps]) = matches.get_strs("inversion") else {
        return None;
    };
    match (rank.parse::<u32>(), steps.parse()) {
        (Ok(rank), Ok(steps)) => Some(Inversion {
            rank: rank.min(65_535) as u16,
            steps,
        }),
        _ => None,
    }
}

// What is looked for.
fn wanted_of(matches: &ArgMatches<'_>) -> Wanted {
    let lines = lines_of(matches);
    let mut wanted = match matches.get_strs("fail") {
        None => Wanted::usual(lines),
        Some(names) => {
            let mut wanted = Wanted::nothing(lines);
            for name in names {
                ask_for(&mut wanted, name);
            }
            wanted
        }
    };
    wanted.errors = errors_of(matches);
    wanted.held = matches.get_one("held");
    wanted.inversion = inversion_of(matches);
    if let Some(rounds) = matches.get_one("stuck") {
        wanted.stuck = Some(rounds);
    }
    wanted
}

fn search_of(matches: &ArgMatches<'_>) -> Search {
    if matches.contains_id("all") {
        return match matches.get_one::<u8>("all") {
            Some(switches) => Search::Switches(switches),
            None => Search::All,
        };
    }
    if let Some(points) = matches.get_one::<u8>("pct") {
        return Search::Pct(points);
    }
    if matches.get_flag("random") {
        Search::Random
    } else {
        Search::Mixed
    }
}

// The first and the last seed: all, where no number is named.
fn seeds_of(matches: &ArgMatches<'_>) -> (u64, u64) {
    if let Some([from, to]) = matches.get_strs("seeds")
        && let (Ok(from), Ok(to)) = (from.parse(), to.parse())
    {
        return (from, to);
    }
    (0, number_of(matches, "runs", u64::MAX).saturating_sub(1))
}

// The seconds of a time: a number, with `s`, `m` or `h` behind it.
fn seconds_in(word: &str) -> Option<u64> {
    let (number, unit) = match word.strip_suffix('s') {
        Some(number) => (number, 1),
        None => match word.strip_suffix('m') {
            Some(number) => (number, 60),
            None => match word.strip_suffix('h') {
                Some(number) => (number, 3_600),
                None => (word, 1),
            },
        },
    };
    match number.parse::<u64>() {
        Ok(number) if 0 < number => number.checked_mul(unit),
        _ => None,
    }
}

// For how many seconds the hunt goes on; None where the number of schedules alone bounds it.
fn seconds_of(matches: &ArgMatches<'_>) -> Result<Option<u64>, WordFault> {
    if let Some(word) = matches.get_str("time") {
        return match seconds_in(word) {
            Some(seconds) => Ok(Some(seconds)),
            None => Err(WordFault::Time),
        };
    }
    let is_bounded = matches.get_strs("seeds").is_some()
        || matches.get_one::<u64>("runs").is_some();
    if is_bounded || matches.contains_id("all") {
        Ok(None)
    } else {
        Ok(Some(USUAL_SECONDS))
    }
}

// Whether a failure is looked for that one state doesn't show.
fn counts_over_runs(matches: &ArgMatches<'_>, wanted: &Wanted) -> bool {
    wanted.lost || !wanted.looks_at_states() || matches.get_flag("order")
}

// Why these words don't go with the way in which schedules are chosen.
fn fault_of(matches: &ArgMatches<'_>, search: Search, wanted: &Wanted) -> Option<WordFault> {
    if let Search::All = search {
        if counts_over_runs(matches, wanted) {
            return Some(WordFault::Counted);
        }
        return None;
    }
    let names = ["ticks", "raises", "states"];
    if names
        .iter()
        .any(|name| matches.get_one::<u64>(name).is_some())
    {
        return Some(WordFault::Bounds);
    }
    None
}

/// What the words behind `hunt` ask for.
pub(crate) fn options_of<'a>(matches: &ArgMatches<'a>) -> Result<Options<'a>, WordFault> {
    let Some(image) = matches.get_str("IMAGE") else {
        return Err(WordFault::Missing);
    };
    let seconds = seconds_of(matches)?;
    let (first, last) = seeds_of(matches);
    if last < first {
        return Err(WordFault::Seeds);
    }
    let search = search_of(matches);
    let wanted = wanted_of(matches);
    if let Some(fault) = fault_of(matches, search, &wanted) {
        return Err(fault);
    }
    Ok(Options {
        image,
        cpus: number_of(matches, "cpus", 2),
        ram: matches.get_one("ram"),
        watchdog: number_of(matches, "watchdog", 0),
        events: number_of(matches, "events", 10_000),
        wanted,
        search,
        first,
        last,
        most: number_of(matches, "runs", 1_000_000),
        ticks: matches.get_one("ticks"),
        raises: matches.get_one("raises"),
        states: matches.get_one("states").unwrap_or(USUAL_STATES),
        seconds,
        orders: matches.get_flag("order"),
        map: matches.get_str("map"),
        out: matches.get_str("out"),
        junit: matches.get_str("junit"),
    })
}
