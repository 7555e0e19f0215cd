//! The lines of the file INDEX.

/// What a row does, as `evltool` does it.
#[derive(Clone, Copy, Debug)]
pub(crate) enum Job {
    /// Runs a script, with the image of its source, if there is one.
    Run,
    /// Runs a script, or nothing at all, with the image whose bytes are written in hexadecimal digits.
    RunBytes,
    /// Runs a script with each of the images that the lines of a file make of such bytes.
    RunPatched,
    /// Runs each line of a file as a script.
    RunTexts,
    /// Runs a script, and replays what it writes.
    RunAndReplay,
    /// Replays a journal.
    Replay,
    /// Replays each line of a file as a journal.
    ReplayTexts,
    /// Replays a journal cut behind each of its bytes.
    ReplayCuts,
    /// Assembles a source.
    Assemble,
    /// Assembles a source, for the bytes of its file.
    AssembleFile,
}

/// A row: the name of its files, what it does, the status that is wanted, and the source of its image, if it has a name of its own.
#[derive(Debug, Drop)]
pub(crate) struct Row<'a> {
    pub(crate) name: &'a str,
    pub(crate) job: Job,
    pub(crate) status: u8,
    pub(crate) source: Option<&'a str>,
}

// The job of a word.
fn job_named(word: &str) -> Option<Job> {
    match word {
        "image" => Some(Job::RunBytes),
        "patches" => Some(Job::RunPatched),
        "scripts" => Some(Job::RunTexts),
        "saved" => Some(Job::RunAndReplay),
        "replay" => Some(Job::Replay),
        "journals" => Some(Job::ReplayTexts),
        "cuts" => Some(Job::ReplayCuts),
        "asm" => Some(Job::Assemble),
        "file" => Some(Job::AssembleFile),
        _ => None,
    }
}

// The row of a job, from its status and its source.
fn row_with<'a>(name: &'a str, job: Job, words: &[&'a str]) -> Option<Row<'a>> {
    let (status, source) = match *words {
        [status] => (status, None),
        [status, source] => (status, Some(source)),
        _ => return None,
    };
    let status = status.parse().ok()?;
    Some(Row {
        name,
        job,
        status,
        source,
    })
}

/// The row of a line of INDEX; None where it is none.
pub(crate) fn row_of<'a>(words: &[&'a str]) -> Option<Row<'a>> {
    let [name, first, rest @ ..] = words else {
        return None;
    };
    match job_named(*first) {
        Some(job) => row_with(*name, job, rest),
        None => row_with(*name, Job::Run, &words[1..]),
    }
}
