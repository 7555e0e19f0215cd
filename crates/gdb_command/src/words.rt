//! What stands behind the word `gdb`.

use clap::ArgMatches;

/// The names of the files.
#[derive(Clone, Copy, Debug)]
pub(crate) struct Job<'a> {
    /// The image that the machine boots with.
    pub image: &'a str,
    /// The script that is run first.
    pub script: Option<&'a str>,
    /// The map of the image's names, if it is not the one beside it.
    pub map: Option<&'a str>,
}

/// What the words behind `gdb` name.
pub(crate) fn job_of<'a>(matches: &ArgMatches<'a>) -> Option<Job<'a>> {
    let image = matches.get_str("IMAGE")?;
    let script = matches.get_str("SCRIPT");
    let map = matches.get_str("map");
    Some(Job { image, script, map })
}
