//! The lines of standard input.

/// A call, and the answer that is wanted.
#[derive(Debug, Drop)]
pub(crate) struct Line<'a> {
    pub(crate) op: &'a str,
    pub(crate) file: Option<&'a str>,
    pub(crate) argument: &'a str,
    pub(crate) wanted: &'a str,
}

impl<'a> Line<'a> {
    /// The file that holds the answer, where it is one.
    pub(crate) fn wanted_file(&self) -> Option<&'a str> {
        self.wanted.strip_prefix('@')
    }
}

// The file that an argument begins with, and what follows it.
fn file_and_rest(text: &str) -> (Option<&str>, &str) {
    match text.strip_prefix('@') {
        Some(text) => {
            let (name, rest) = text.split_once(' ').unwrap_or((text, ""));
            (Some(name), rest)
        }
        None => (None, text),
    }
}

/// The call of a line; None if it has none.
pub(crate) fn line_of<'a>(text: &'a str) -> Option<Line<'a>> {
    let (call, wanted) = text.split_once(" -> ")?;
    let (op, rest) = call.split_once(' ').unwrap_or((call, ""));
    let (file, argument) = file_and_rest(rest);
    Some(Line {
        op,
        file,
        argument,
        wanted,
    })
}
