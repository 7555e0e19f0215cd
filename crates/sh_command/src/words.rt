//! What stands behind the word `sh`.

ghost use Rattle.std.specs.Prelude.{◌≡◌, IfSome, option_copied};
ghost use Rattle.clap.specs.Words.{first_of, found_of, rows_of};
ghost use Rattle.sh_command.specs.Saved.{AreNamed};

use clap::ArgMatches;

/// The files that the words name.
#[derive(Clone, Copy, Debug)]
pub(crate) struct Job<'a> {
    /// The file of the program.
    pub(crate) image: &'a str,
    /// The lines; standard input if there is none.
    pub(crate) file: Option<&'a str>,
    /// Where the plain lines are written.
    pub(crate) script: Option<&'a str>,
    /// Where the journal is written.
    pub(crate) journal: Option<&'a str>,
    /// Where the test suite is written.
    pub(crate) junit: Option<&'a str>,
    /// Where the lines of sources are.
    pub(crate) map: Option<&'a str>,
}

// The value of an argument.
fn value<'a>(words: &ArgMatches<'a>, id: &str) -> Option<&'a str>
    ensures { option_copied result ≡ first_of id.now (rows_of (found_of words.now)) }
{
    words.get_str(id)
}

/// What the words behind `sh` ask for.
pub(crate) fn job_of<'a>(words: &ArgMatches<'a>) -> Option<Job<'a>>
    ensures { IfSome result (λ job. AreNamed (rows_of (found_of words.now)) job.image.now (option_copied job.script) (option_copied job.journal) (option_copied job.junit)) }
{
    let image = value(words, "IMAGE")?;
    Some(Job {
        image,
        file: value(words, "FILE"),
        script: value(words, "script"),
        journal: value(words, "journal"),
        junit: value(words, "junit"),
        map: value(words, "map"),
    })
}
