//! What stands behind the word `run`.

use clap::ArgMatches;
use evm_lines::LINES;
use run_schedule::{Beat, CAPACITY_LIMIT, Event};
use std::alloc::Global;

/// What ends a run but its tasks.
#[derive(Clone, Copy, Debug, PartialEq, Eq)]
pub(crate) enum Until {
    /// Nothing but the bound of a journal.
    Exit,
    /// That no processor has anything to do.
    Idle,
    /// This number of events.
    Events(u64),
}

/// How a program is run.
#[derive(Clone, Copy, Debug)]
pub(crate) struct Course<'a> {
    pub(crate) cpus: u64,
    pub(crate) ram: Option<u64>,
    /// The ticks of the watchdog; 0 for none.
    pub(crate) watchdog: u64,
    /// How many rounds there are from one tick to the next; 0 where ticks come only when all wait for one.
    pub(crate) ticks: u64,
    pub(crate) seed: Option<u64>,
    pub(crate) until: Until,
    /// The file of a script, in the place of all that.
    pub(crate) script: Option<&'a str>,
}

/// What is to be run.
#[derive(Clone, Copy, Debug)]
pub(crate) struct Job<'a> {
    /// The file of the program.
    pub(crate) image: &'a str,
    pub(crate) course: Course<'a>,
    /// Where the journal is written.
    pub(crate) journal: Option<&'a str>,
    /// Where the map is.
    pub(crate) map: Option<&'a str>,
}

/// Why there is no job.
#[derive(Clone, Copy, Debug, PartialEq, Eq)]
pub(crate) enum WordFault {
    /// `--lines` is no list of lines.
    Lines,
    /// `--until` is no ending.
    Until,
    /// Memory was refused.
    NoMemory,
    /// A word is missing.
    Missing,
}

/// The most rounds from one beat to the next.
const MOST_ROUNDS: u64 = 1_048_576;

/// The rounds from one tick to the next, if they aren't named.
const TICKS: u64 = 1_000;

// A number from 1 to another.
fn number_up_to(word: &str, most: u64) -> Option<u64> {
    match word.parse::<u64>() {
        Ok(number) if 0 < number && number <= most => Some(number),
        _ => None,
    }
}

fn until_of(words: &ArgMatches<'_>) -> Result<Until, WordFault> {
    match words.get_str("until") {
        None | Some("exit") => Ok(Until::Exit),
        Some("idle") => Ok(Until::Idle),
        Some(word) => match number_up_to(word, u64::from(CAPACITY_LIMIT)) {
            Some(events) => Ok(Until::Events(events)),
            None => Err(WordFault::Until),
        },
    }
}

/// How the words ask for a program to be run.
pub(crate) fn course_of<'a>(words: &ArgMatches<'a>) -> Result<Course<'a>, WordFault> {
    let until = until_of(words)?;
    Ok(Course {
        cpus: words.get_one("cpus").unwrap_or(2),
        ram: words.get_one("ram"),
        watchdog: words.get_one("watchdog").unwrap_or(0),
        ticks: words.get_one("ticks").unwrap_or(TICKS),
        seed: words.get_one("seed"),
        until,
        script: words.get_str("script"),
    })
}

/// What the words behind `run` ask for.
pub(crate) fn job_of<'a>(words: &ArgMatches<'a>) -> Result<Job<'a>, WordFault> {
    let Some(image) = words.get_str("IMAGE") else {
        return Err(WordFault::Missing);
    };
    let course = course_of(words)?;
    Ok(Job {
        image,
        course,
        journal: words.get_str("journal"),
        map: words.get_str("map"),
    })
}

// A line that a program may wait for: 0 and 1 are the machine's own.
fn line_of(word: &str) -> Option<u8> {
    match word.parse::<u8>() {
        Ok(line) if 1 < line && line < LINES => Some(line),
        _ => None,
    }
}

// The beat of a line: `L@N` comes every N rounds, `L` with each tick, if ticks come by rounds.
fn beat_of(word: &str, ticks: u64) -> Option<Beat> {
    let (line, every) = match word.split_once('@') {
        None if ticks == 0 => (None, None),
        None => (line_of(word), Some(ticks)),
        Some((line, every)) => (line_of(line), number_up_to(every, MOST_ROUNDS)),
    };
    match (line, every) {
        (Some(line), Some(every)) => Some(Beat {
            event: Event::Raise(0, line),
            every,
        }),
        _ => None,
    }
}

fn push_beat(beats: &mut Vec<Beat>, beat: Beat) -> Result<(), WordFault> {
    match beats.push(beat) {
        Ok(()) => Ok(()),
        Err(_) => Err(WordFault::NoMemory),
    }
}

/// The beats that the words ask for: ticks, and behind a tick of the same round the lines.
pub(crate) fn beats_of(
    alloc: Global,
    words: &ArgMatches<'_>,
    ticks: u64,
) -> Result<Vec<Beat>, WordFault> {
    let mut beats = Vec::new(alloc);
    let tick = Beat {
        event: Event::Tick,
        every: ticks,
    };
    if let Err(fault) = push_beat(&mut beats, tick) {
        return Err(fault);
    }
    let Some(lines) = words.get_strs("lines") else {
        return Ok(beats);
    };
    for word in lines {
        let Some(beat) = beat_of(word, ticks) else {
            return Err(WordFault::Lines);
        };
        if let Err(fault) = push_beat(&mut beats, beat) {
            return Err(fault);
        }
    }
    Ok(beats)
}
