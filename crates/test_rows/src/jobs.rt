//! What rows do.

use crate::engine::{
    Outcome, assembled, image_of, imported, replayed_with, saved_with, served, served_with,
};
use crate::folder::{bytes_of, has, spelled_bytes, text_of};
use crate::row::{Job, Row};
use crate::trials::{Kind, try_cuts, try_patches, try_texts};
use evm_ram::Image;
use std::io;
use std::rt::Files;

// The image of a source, or how assembling or reading it ends if it has none.
fn image_at(
    rt: &(impl Files + AllocGlobal),
    folder: &str,
    source: &str,
) -> io::Result<Result<Image, Outcome>> {
    let source = bytes_of(rt, folder, source, "s")?;
    Ok(image_of(rt.alloc(), source.as_slice()))
}

// A script with the image of a source.
fn run_with(
    rt: &(impl Files + AllocGlobal),
    folder: &str,
    name: &str,
    source: &str,
) -> io::Result<Outcome> {
    let script = bytes_of(rt, folder, name, "script")?;
    let image = image_at(rt, folder, source)?;
    Ok(served_with(rt.alloc(), image, script.as_slice()))
}

// A script with the image of the source of its name, if there is one.
fn run(rt: &(impl Files + AllocGlobal), folder: &str, name: &str) -> io::Result<Outcome> {
    if has(rt, folder, name, "s")? {
        return run_with(rt, folder, name, name);
    }
    let script = bytes_of(rt, folder, name, "script")?;
    Ok(served(rt.alloc(), None, script.as_slice()))
}

// The script of a row, empty where there is none.
fn script_of(rt: &(impl Files + AllocGlobal), folder: &str, name: &str) -> io::Result<Vec<u8>> {
    if has(rt, folder, name, "script")? {
        return bytes_of(rt, folder, name, "script");
    }
    Ok(Vec::new(rt.alloc()))
}

// A script with an image that is spelled.
fn run_bytes(rt: &(impl Files + AllocGlobal), folder: &str, name: &str) -> io::Result<Outcome> {
    let script = script_of(rt, folder, name)?;
    let file = spelled_bytes(rt, folder, name)?;
    let image = imported(rt.alloc(), file.as_slice());
    Ok(served_with(rt.alloc(), image, script.as_slice()))
}

fn assemble(rt: &(impl Files + AllocGlobal), folder: &str, name: &str) -> io::Result<Outcome> {
    let source = bytes_of(rt, folder, name, "s")?;
    let (_, report) = assembled(rt.alloc(), source.as_slice());
    Ok(report)
}

fn assemble_file(rt: &(impl Files + AllocGlobal), folder: &str, name: &str) -> io::Result<Outcome> {
    let source = bytes_of(rt, folder, name, "s")?;
    let (text, report) = assembled(rt.alloc(), source.as_slice());
    let status = report.status;
    Ok(Outcome { text, status })
}

fn replay(
    rt: &(impl Files + AllocGlobal),
    folder: &str,
    name: &str,
    source: &str,
) -> io::Result<Outcome> {
    let journal = bytes_of(rt, folder, name, "journal")?;
    let image = image_at(rt, folder, source)?;
    Ok(replayed_with(rt.alloc(), image, journal.as_slice()))
}

// Replays what a script writes.
fn replay_saved(
    rt: &(impl Files + AllocGlobal),
    folder: &str,
    name: &str,
    source: &str,
) -> io::Result<Outcome> {
    let script = bytes_of(rt, folder, name, "script")?;
    let image = image_at(rt, folder, source)?;
    Ok(saved_with(rt.alloc(), image, script.as_slice()))
}

// A page of trials that ended.
fn page(text: Vec<u8>) -> Outcome {
    Outcome { text, status: 0 }
}

fn texts(
    rt: &(impl Files + AllocGlobal),
    folder: &str,
    name: &str,
    kind: Kind,
    source: &str,
) -> io::Result<Outcome> {
    let lines = text_of(rt, folder, name, "texts")?;
    match image_at(rt, folder, source)? {
        Ok(image) => Ok(page(try_texts(rt.alloc(), kind, &image, lines.as_str())?)),
        Err(outcome) => Ok(outcome),
    }
}

fn cuts(
    rt: &(impl Files + AllocGlobal),
    folder: &str,
    name: &str,
    source: &str,
) -> io::Result<Outcome> {
    let journal = bytes_of(rt, folder, name, "journal")?;
    match image_at(rt, folder, source)? {
        Ok(image) => Ok(page(try_cuts(rt.alloc(), &image, journal.as_slice())?)),
        Err(outcome) => Ok(outcome),
    }
}

fn patches(rt: &(impl Files + AllocGlobal), folder: &str, name: &str) -> io::Result<Outcome> {
    let script = script_of(rt, folder, name)?;
    let file = spelled_bytes(rt, folder, name)?;
    let lines = text_of(rt, folder, name, "patches")?;
    let text = try_patches(
        rt.alloc(),
        file.as_slice(),
        lines.as_str(),
        script.as_slice(),
    )?;
    Ok(page(text))
}

// What a row does with its script or its source, if it has one.
fn run_or_assemble(
    rt: &(impl Files + AllocGlobal),
    folder: &str,
    row: &Row<'_>,
) -> io::Result<Outcome> {
    match (row.job, row.source) {
        (Job::RunBytes, _) => run_bytes(rt, folder, row.name),
        (Job::RunPatched, _) => patches(rt, folder, row.name),
        (Job::Assemble, _) => assemble(rt, folder, row.name),
        (Job::AssembleFile, _) => assemble_file(rt, folder, row.name),
        (_, Some(source)) => run_with(rt, folder, row.name, source),
        (_, None) => run(rt, folder, row.name),
    }
}

/// What a row of a folder does.
pub(crate) fn outcome_of(
    rt: &(impl Files + AllocGlobal),
    folder: &str,
    row: &Row<'_>,
) -> io::Result<Outcome> {
    let name = row.name;
    let source = row.source.unwrap_or(name);
    match row.job {
        Job::RunTexts => texts(rt, folder, name, Kind::Script, source),
        Job::RunAndReplay => replay_saved(rt, folder, name, source),
        Job::Replay => replay(rt, folder, name, source),
        Job::ReplayTexts => texts(rt, folder, name, Kind::Journal, source),
        Job::ReplayCuts => cuts(rt, folder, name, source),
        _ => run_or_assemble(rt, folder, row),
    }
}
