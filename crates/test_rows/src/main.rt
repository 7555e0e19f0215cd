//! Runs the worked rows and the examples in its folder, as `evltool` runs them. Each line of the file FOLDERS names a
//! folder, and each line of the file INDEX in it is a row; each line of `examples/LIST` is an example. A line is printed for
//! each that does not give the text and the status that are wanted, and at the end one that counts the rows and the examples.
#![tactic(auto)]

mod engine;
mod example;
mod folder;
mod jobs;
mod row;
mod spelling;
mod trials;

use example::{example_of, is_as_wanted};
use folder::bytes_of;
use jobs::outcome_of;
use row::{Row, row_of};
use std::rt::Files;
use std::{fs, io};

const EXAMPLES: &str = "examples";

/// Reports a row that does not give what is wanted.
fn report_row(
    rt: &(impl Files + Print + AllocGlobal),
    folder: &str,
    row: &Row<'_>,
) -> io::Result<()> {
    let outcome = outcome_of(rt, folder, row)?;
    let wanted = bytes_of(rt, folder, row.name, "out")?;
    let is_its_text = outcome.text.as_slice() == wanted.as_slice();
    if is_its_text && outcome.status == row.status {
        return Ok(());
    }
    let text = if is_its_text { "as wanted" } else { "another" };
    let name = row.name;
    let status = row.status;
    let had = outcome.status;
    println!(rt; "{folder}/{name}: status {status} wanted, {had} had; the text is {text}")
}

/// Runs the row of a line of INDEX, and reports it if it does not give what is wanted.
fn report_line(
    rt: &(impl Files + Print + AllocGlobal),
    folder: &str,
    line: &str,
) -> io::Result<()> {
    let words: Vec<&str> = line.split(' ').collect(rt.alloc())?;
    let Some(row) = row_of(words.as_slice()) else {
        return println!(rt; "{folder}: no row: {line}");
    };
    match report_row(rt, folder, &row) {
        Ok(()) => Ok(()),
        Err(error) => println!(rt; "{folder}: {error}: {line}"),
    }
}

/// Runs the rows of a folder, and returns their number.
fn report_folder(rt: &(impl Files + Print + AllocGlobal), folder: &str) -> io::Result<usize> {
    let index = fs::read_to_string(rt, format!(in rt.alloc(); "{folder}/INDEX")?)?;
    for line in index.lines() {
        report_line(rt, folder, line)?;
    }
    Ok(index.lines().count())
}

/// Runs the example of a line of LIST, and reports it if it does not give what is wanted.
fn report_example(rt: &(impl Files + Print + AllocGlobal), line: &str) -> io::Result<()> {
    let words: Vec<&str> = line.split(' ').collect(rt.alloc())?;
    let Some(example) = example_of(words.as_slice()) else {
        return println!(rt; "{EXAMPLES}: no example: {line}");
    };
    match is_as_wanted(rt, EXAMPLES, &example) {
        Ok(true) => Ok(()),
        Ok(false) => println!(rt; "{EXAMPLES}: not as wanted: {line}"),
        Err(error) => println!(rt; "{EXAMPLES}: {error}: {line}"),
    }
}

/// Runs the examples, and returns their number.
fn report_examples(rt: &(impl Files + Print + AllocGlobal)) -> io::Result<usize> {
    let list = fs::read_to_string(rt, format!(in rt.alloc(); "{EXAMPLES}/LIST")?)?;
    for line in list.lines() {
        report_example(rt, line)?;
    }
    Ok(list.lines().count())
}

fn main(rt: HostRuntime) -> io::Result<()> {
    let list = fs::read_to_string(&rt, "FOLDERS")?;
    let folders: Vec<&str> = list.lines().collect(rt.alloc())?;
    let mut count = 0usize;
    for folder in &folders {
        count = count.saturating_add(report_folder(&rt, folder)?);
    }
    let names = folders.as_slice().join(rt.alloc(), ", ")?;
    let examples = report_examples(&rt)?;
    println!(rt; "{count} rows of {names}; {examples} examples")
}
