//! What a line of a map says of code: the lines of sources that it comes from.

use evm_text::decimal_last;

/// A line of a source.
#[derive(Clone, Copy, Debug, PartialEq, Eq)]
pub struct SourceLine<'a> {
    /// The file, without its folder.
    pub file: &'a str,
    /// The number of the line.
    pub line: u64,
    /// The function that the line is of; empty where the map names none.
    pub function: &'a str,
    /// The function of the kit's library that is called there; empty where none is.
    pub call: &'a str,
}

impl<'a> SourceLine<'a> {
    /// What is called there, or else the function that the line is of.
    pub fn shown(&self) -> &'a str {
        if self.call.is_empty() {
            self.function
        } else {
            self.call
        }
    }
}

/// Where the caller's registers are: the bytes of the frame on the stack, and how far below its end the return address is, or that ra has it.
#[derive(Clone, Copy, Debug, PartialEq, Eq)]
pub(crate) struct Frame {
    pub size: u64,
    pub saved: Option<u64>,
}

/// What a line of a map says of code.
#[derive(Clone, Copy, Debug)]
pub(crate) struct Origin<'a> {
    /// From the innermost line on the first that is the program's own, or where each is the library's the last.
    pub line: SourceLine<'a>,
    /// Whether it is the program's own.
    pub is_own: bool,
    pub frame: Option<Frame>,
}

// The first word of a text, and what is behind it.
fn cut_word(text: &str) -> (&str, &str) {
    match text.split_once(' ') {
        None => (text, ""),
        Some((word, rest)) => (word, rest.trim_start()),
    }
}

// `FILE:LINE`: a file, and a number from 1 to 4294967295.
fn file_and_line(word: &str) -> Option<(&str, u64)> {
    let (file, digits) = word.rsplit_once(':')?;
    match decimal_last(digits.as_bytes()) {
        Some(line) if !file.is_empty() && 0 < line && line <= 0xffff_ffff => Some((file, line)),
        _ => None,
    }
}

// `^N` or `^N-M`: the frame of the function.
fn frame_of(word: &str) -> Option<Frame> {
    let numbers = word.strip_prefix('^')?;
    match numbers.split_once('-') {
        None => Some(Frame {
            size: decimal_last(numbers.as_bytes())?,
            saved: None,
        }),
        Some((size, saved)) => Some(Frame {
            size: decimal_last(size.as_bytes())?,
            saved: Some(decimal_last(saved.as_bytes())?),
        }),
    }
}

// `FILE:LINE` or `FILE:LINE FUNCTION` at the beginning of a text, and what is behind it.
fn line_at(text: &str) -> Option<(SourceLine<'_>, &str)> {
    let (word, rest) = cut_word(text);
    let (file, line) = file_and_line(word)?;
    let (next, behind) = cut_word(rest);
    let (function, rest) = if next.starts_with('^') || file_and_line(next).is_some() {
        ("", rest)
    } else {
        (next, behind)
    };
    let source = SourceLine {
        file,
        line,
        function,
        call: "",
    };
    Some((source, rest))
}

// The name of a file of the library, which is in angle brackets.
fn library_file(file: &str) -> Option<&str> {
    file.strip_prefix('<')?.strip_suffix('>')
}

// The origin that a line gives, which calls a function of the library.
fn outer<'a>(line: SourceLine<'a>, call: &'a str) -> Origin<'a> {
    match library_file(line.file) {
        Some(file) => Origin {
            line: SourceLine { file, ..line },
            is_own: false,
            frame: None,
        },
        None => Origin {
            line: SourceLine { call, ..line },
            is_own: true,
            frame: None,
        },
    }
}

// The origin where the next line out is known too.
fn outward<'a>(inner: Option<Origin<'a>>, next: SourceLine<'a>) -> Origin<'a> {
    match inner {
        None => outer(next, ""),
        Some(inner) if inner.is_own => inner,
        Some(inner) => outer(next, inner.line.function),
    }
}

/// The origin of code of which a line of a map says this; none if that is no list of lines.
pub(crate) fn origin_of(places: &str) -> Option<Origin<'_>> {
    let mut found: Option<Origin<'_>> = None;
    let mut rest = places;
    for _ in 0..places.len() {
        if rest.is_empty() {
            return found;
        }
        if let Some(mut origin) = found
            && rest.starts_with('^')
        {
            origin.frame = Some(frame_of(rest)?);
            return Some(origin);
        }
        let (next, behind) = line_at(rest)?;
        found = Some(outward(found, next));
        rest = behind;
    }
    found
}
