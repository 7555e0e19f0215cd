//! What stands behind the word `trace`.

use crate::clock::Clock;
use clap::ArgMatches;

/// The names of the files of a job.
#[derive(Clone, Copy, Debug)]
pub(crate) struct Job<'a> {
    /// The file of the program.
    pub(crate) image: &'a str,
    /// The file of the journal; of a run, that of the program.
    pub(crate) journal: &'a str,
    /// Whether the program is run, in the place of a journal.
    pub(crate) runs: bool,
    /// The file that the trace is written to; `-` is standard output.
    pub(crate) out: &'a str,
    /// The file of the map; without one it is beside the image.
    pub(crate) map: Option<&'a str>,
    pub(crate) clock: Clock,
}

// The clock that is asked for, one of three words; events without one.
fn clock_of(matches: &ArgMatches<'_>) -> Clock {
    match matches.get_str("clock") {
        Some("steps") => Clock::Steps,
        Some("ticks") => Clock::Ticks,
        _ => Clock::Events,
    }
}

/// The job that the words behind `trace` name; with --run OUT stands in the place of JOURNAL. None if a file is missing, or too many.
pub(crate) fn job_of<'a>(matches: &ArgMatches<'a>) -> Option<Job<'a>> {
    let image = matches.get_str("IMAGE")?;
    let runs = matches.get_flag("run");
    let (journal, out) = match (runs, matches.get_str("JOURNAL"), matches.get_str("OUT")) {
        (true, Some(out), None) => (image, out),
        (false, Some(journal), Some(out)) => (journal, out),
        _ => return None,
    };
    Some(Job {
        image,
        journal,
        runs,
        out,
        map: matches.get_str("map"),
        clock: clock_of(matches),
    })
}
