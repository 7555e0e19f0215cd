//! What stands behind the word `view`.

use crate::bounds::{Bound, Bounds, bound_of};
use clap::ArgMatches;

/// What is to be shown.
#[derive(Clone, Copy)]
pub(crate) struct Job<'a> {
    /// The file of the program.
    pub(crate) image: &'a str,
    /// The file of the journal; of a run, that of the program.
    pub(crate) journal: &'a str,
    /// Whether the program is run, in the place of a journal.
    pub(crate) runs: bool,
    /// The file of the journal that it is compared with.
    pub(crate) other: Option<&'a str>,
    /// Whether it is to be said where the two part; a page of both says it by itself.
    pub(crate) compares: bool,
    /// The file that the picture is written to; `-` is standard output.
    pub(crate) out: Option<&'a str>,
    /// Whether it is written in characters.
    pub(crate) text: bool,
    /// The file of the map; without one it is beside the image.
    pub(crate) map: Option<&'a str>,
    /// Each mutex has a lane.
    pub(crate) mutexes: bool,
    /// Where it begins and ends.
    pub(crate) bounds: Bounds<'a>,
}

/// Words that name no job.
#[derive(Clone, Copy, Debug)]
pub(crate) enum NoJob {
    /// JOURNAL is missing.
    NoJournal,
    /// OUT is missing.
    NoOut,
    /// There is a file too many.
    ManyFiles,
    /// `--from` or `--to` is no place.
    NoPlace,
}

/// The ending of a page's name.
const PAGE: &str = ".html";

impl Job<'_> {
    /// Whether OUT is to be a page.
    pub(crate) fn is_page(&self) -> bool {
        match self.out {
            Some(out) => out.ends_with(PAGE),
            None => false,
        }
    }
}

// The place of an option, or the event that it is without.
fn bound_in<'a>(matches: &ArgMatches<'a>, name: &str, usual: u64) -> Result<Bound<'a>, NoJob> {
    match matches.get_str(name) {
        None => Ok(Bound::Event(usual)),
        Some(word) => match bound_of(word) {
            Some(bound) => Ok(bound),
            None => Err(NoJob::NoPlace),
        },
    }
}

// The journal and OUT: with --run OUT stands at the first place.
fn files_in<'a>(
    matches: &ArgMatches<'a>,
    image: &'a str,
    runs: bool,
) -> Result<(&'a str, Option<&'a str>), NoJob> {
    match (runs, matches.get_str("JOURNAL"), matches.get_str("OUT")) {
        (true, _, Some(_)) => Err(NoJob::ManyFiles),
        (true, out, None) => Ok((image, out)),
        (false, Some(journal), out) => Ok((journal, out)),
        (false, None, _) => Err(NoJob::NoJournal),
    }
}

// What the words of `view` or of its `diff` ask for; `diff` alone has a word OTHER, and doesn't run a program.
fn job_in<'a>(
    matches: &ArgMatches<'a>,
    other: Option<&'a str>,
    runs: bool,
) -> Result<Job<'a>, NoJob> {
    let Some(image) = matches.get_str("IMAGE") else {
        return Err(NoJob::NoJournal);
    };
    let (journal, out) = files_in(matches, image, runs)?;
    Ok(Job {
        image,
        journal,
        runs,
        other,
        compares: false,
        out,
        text: matches.get_flag("text"),
        map: matches.get_str("map"),
        mutexes: matches.get_flag("mutexes"),
        bounds: Bounds {
            from: bound_in(matches, "from", 0)?,
            to: bound_in(matches, "to", u64::MAX)?,
        },
    })
}

// What the words of `view` itself ask for.
fn drawing_of<'a>(matches: &ArgMatches<'a>) -> Result<Job<'a>, NoJob> {
    let job = job_in(matches, matches.get_str("beside"), matches.get_flag("run"))?;
    match (job.text, job.out) {
        (true, Some(_)) => Err(NoJob::ManyFiles),
        (false, None) => Err(NoJob::NoOut),
        _ => Ok(job),
    }
}

/// What the words behind `view` ask for.
pub(crate) fn job_of<'a>(matches: &ArgMatches<'a>) -> Result<Job<'a>, NoJob> {
    match matches.subcommand() {
        None => drawing_of(matches),
        Some((_, words)) => Ok(Job {
            compares: true,
            ..job_in(words, words.get_str("OTHER"), false)?
        }),
    }
}
