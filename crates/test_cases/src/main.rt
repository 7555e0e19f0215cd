//! Runs the command lines of the file CASES one after another, over the files of its folder. It writes each line behind `$`, what the program
//! writes to standard output, each line of standard error behind `2>`, and the status. The line `cat FILE` writes a file.
//! Then it plays the sessions of GDB.
#![tactic(auto)]

mod exchange;
mod exchanges;
mod line;
mod machine;
mod peer;
mod session;
mod world;

use crate::world::world_of;
use evm_command::program_devices;
use std::alloc::{AllocError, Global};
use std::fs::{self, File};
use std::io::{self, Write};
use std::sync::Wait;
use std::thread::Threads;

/// The input of a line without `< FILE`.
const EMPTY: &str = "EMPTY";

/// The end of the name of an input that is taken as typed at a terminal.
const KEYS: &str = ".keys";

// The words of a command line.
fn words_of(alloc: Global, line: &str) -> Result<Vec<String>, AllocError> {
    let mut words = Vec::new(alloc);
    for word in line.split(' ') {
        words.push(String::from_str(alloc, word)?)?;
    }
    Ok(words)
}

// Writes what a program wrote to standard output; `\` ends a last line that has no newline.
fn show_output(rt: &HostRuntime, output: &[u8]) -> io::Result<()> {
    rt.stdout().write_all(output)?;
    match output.last() {
        None | Some(b'\n') => Ok(()),
        Some(_) => println!(rt; "\\"),
    }
}

// Writes what a program wrote to standard error.
fn show_errors(rt: &HostRuntime, errors: &[u8]) -> io::Result<()> {
    let Ok(text) = std::str::from_utf8(errors) else {
        return println!(rt; "2> no UTF-8");
    };
    for line in text.lines() {
        println!(rt; "2> {line}")?;
    }
    Ok(())
}

// Runs a command line with the input of a file.
fn run<R: Threads + Wait + Sync + Copy + Send + Drop + 'static>(
    rt: &HostRuntime,
    threads: R,
    line: &str,
    input: &str,
) -> io::Result<()> {
    let words = words_of(rt.alloc(), line)?;
    let heard = File::open(rt, input)?;
    let mut world = world_of(rt, File::open(rt, input)?);
    let status = if line.starts_with("vardozek") {
        let is_typed = input.ends_with(KEYS);
        vardozek_command::answer(rt, threads, words.as_slice(), is_typed, heard, &mut world)
    } else {
        let Ok(devices) = program_devices(rt.alloc()) else {
            return Err(io::ErrorKind::OutOfMemory.into());
        };
        evm_command::answer(&threads, rt.alloc(), words.as_slice(), devices, &mut world)
    };
    show_output(rt, world.output.as_slice())?;
    show_errors(rt, world.errors.as_slice())?;
    println!(rt; "status {status}")
}

// Does a line.
fn do_line<R: Threads + Wait + Sync + Copy + Send + Drop + 'static>(
    rt: &HostRuntime,
    threads: R,
    line: &str,
) -> io::Result<()> {
    if line.is_empty() || line.starts_with('#') {
        return Ok(());
    }
    println!(rt; "$ {line}")?;
    if let Some(file) = line.strip_prefix("cat ") {
        let text = fs::read_to_string(rt, file)?;
        return show_output(rt, text.as_bytes());
    }
    match line.split_once(" < ") {
        Some((command, input)) => run(rt, threads, command, input),
        None => run(rt, threads, line, EMPTY),
    }
}

fn main(rt: HostRuntime) -> io::Result<()> {
    let cases = fs::read_to_string(&rt, "CASES")?;
    for line in cases.lines() {
        do_line(&rt, rt, line)?;
    }
    exchanges::play_all(&rt)
}
