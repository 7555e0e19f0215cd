//! A test suite.

use crate::escape::{push_escaped, push_markup};
use evm_room::{Refused, push_text};
use evm_text::push_decimal;
use std::alloc::Global;

/// What a case came to.
#[derive(Clone, Copy, Debug)]
pub enum CaseEnd<'a> {
    /// It passed.
    Passed,
    /// It failed: in a line, and in lines.
    Failed(&'a str, &'a str),
}

/// The cases of a suite so far. Each text may have any characters.
#[derive(Debug, Drop)]
pub struct Suite {
    name: String,
    cases: Vec<u8>,
    tests: u64,
    failures: u64,
}

// Appends ` NAME="VALUE"`.
fn push_attribute(out: &mut Vec<u8>, name: &str, value: &str) -> Result<(), Refused> {
    push_markup(out, b" ")?;
    push_markup(out, name.as_bytes())?;
    push_markup(out, b"=\"")?;
    push_escaped(out, value)?;
    push_markup(out, b"\"")
}

// Appends ` NAME="NUMBER"`.
fn push_count(alloc: Global, out: &mut Vec<u8>, name: &str, count: u64) -> Result<(), Refused> {
    let mut digits = String::new(alloc);
    push_decimal(&mut digits, count)?;
    push_attribute(out, name, digits.as_str())
}

// Appends lines.
fn push_lines(out: &mut Vec<u8>, text: &str) -> Result<(), Refused> {
    for line in text.lines() {
        push_escaped(out, line)?;
        push_markup(out, b"\n")?;
    }
    Ok(())
}

// Appends what has failed.
fn push_failure(out: &mut Vec<u8>, kind: &str, message: &str, text: &str) -> Result<(), Refused> {
    push_markup(out, b"<failure")?;
    push_attribute(out, "message", message)?;
    push_attribute(out, "type", kind)?;
    push_markup(out, b">")?;
    push_lines(out, text)?;
    push_markup(out, b"</failure>\n")
}

// Appends the files that belong to a case, as the attachments that Jenkins and GitLab read.
fn push_files(out: &mut Vec<u8>, files: &[String]) -> Result<(), Refused> {
    if files.is_empty() {
        return Ok(());
    }
    push_markup(out, b"<system-out>")?;
    for file in files {
        push_markup(out, b"[[ATTACHMENT|")?;
        push_escaped(out, file.as_str())?;
        push_markup(out, b"]]\n")?;
    }
    push_markup(out, b"</system-out>\n")
}

impl Suite {
    /// No case.
    ///
    /// # Errors
    ///
    /// Memory was refused.
    pub fn new(alloc: Global, name: &str) -> Result<Suite, Refused> {
        let mut copy = String::new(alloc);
        push_text(&mut copy, name)?;
        Ok(Suite {
            name: copy,
            cases: Vec::new(alloc),
            tests: 0,
            failures: 0,
        })
    }

    // Adds a case that failed, with its files.
    fn fail(
        &mut self,
        name: &str,
        message: &str,
        text: &str,
        files: &[String],
    ) -> Result<(), Refused> {
        self.failures = self.failures.saturating_add(1);
        push_markup(&mut self.cases, b">\n")?;
        push_failure(&mut self.cases, name, message, text)?;
        push_files(&mut self.cases, files)?;
        push_markup(&mut self.cases, b"</testcase>\n")
    }

    /// Adds a case, with the files that belong to it if it failed.
    ///
    /// # Errors
    ///
    /// Memory was refused.
    pub fn add(&mut self, name: &str, end: CaseEnd<'_>, files: &[String]) -> Result<(), Refused> {
        self.tests = self.tests.saturating_add(1);
        push_markup(&mut self.cases, b"<testcase")?;
        push_attribute(&mut self.cases, "classname", self.name.as_str())?;
        push_attribute(&mut self.cases, "name", name)?;
        match end {
            CaseEnd::Passed => push_markup(&mut self.cases, b"/>\n"),
            CaseEnd::Failed(message, text) => self.fail(name, message, text, files),
        }
    }

    /// The whole file.
    ///
    /// # Errors
    ///
    /// Memory was refused.
    pub fn written(&self, alloc: Global) -> Result<Vec<u8>, Refused> {
        let mut out = Vec::new(alloc);
        push_markup(
            &mut out,
            b"<?xml version=\"1.0\" encoding=\"UTF-8\"?>\n<testsuites>\n<testsuite",
        )?;
        push_attribute(&mut out, "name", self.name.as_str())?;
        push_count(alloc, &mut out, "tests", self.tests)?;
        push_count(alloc, &mut out, "failures", self.failures)?;
        push_count(alloc, &mut out, "errors", 0)?;
        push_markup(&mut out, b">\n")?;
        push_markup(&mut out, self.cases.as_slice())?;
        push_markup(&mut out, b"</testsuite>\n</testsuites>\n")?;
        Ok(out)
    }
}
