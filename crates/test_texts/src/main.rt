//! Calls of the libraries on texts, bytes and words, each with the answer that is wanted. A line of standard input is
//! `OP ARGUMENT -> ANSWER`, or `OP @FILE ARGUMENT -> ANSWER`, where FILE lies in the folder that the program runs in; the
//! answer may be `@FILE` too. In an argument `\n`, `\t`, `\r` and `\xNN` are bytes. A line that is empty or begins with `#` is
//! a comment. A line is printed for each whose answer is another, and at the end one that counts the lines.
#![tactic(auto)]

mod call;
mod files;
mod instructions;
mod lexer;
mod lines;
mod ops;
mod packets;
mod places;
mod sources;
mod statements;
mod texts;
mod writing;

use call::{Call, unescaped};
use lines::{Line, line_of};
use ops::answer;
use std::rt::Files;
use std::{fs, io};

/// The answer of a line, and the one that is wanted.
fn answers(rt: &(impl Files + AllocGlobal), line: &Line<'_>) -> io::Result<(String, String)> {
    let alloc = rt.alloc();
    let file = match line.file {
        Some(name) => fs::read(rt, name)?,
        None => Vec::new(alloc),
    };
    let argument = unescaped(alloc, line.argument)?;
    let wanted = match line.wanted_file() {
        Some(name) => fs::read_to_string(rt, name)?,
        None => String::from_str(alloc, line.wanted)?,
    };
    let call = Call {
        alloc,
        file: file.as_slice(),
        argument: argument.as_slice(),
    };
    let mut said = String::new(alloc);
    answer(line.op, &call, &mut said)?;
    Ok((said, wanted))
}

/// Reports a line whose answer is not the one that is wanted.
fn report(rt: &(impl Files + Print + AllocGlobal), number: usize, text: &str) -> io::Result<()> {
    let Some(line) = line_of(text) else {
        return println!(rt; "{number}: no call: {text}");
    };
    match answers(rt, &line) {
        Ok((said, wanted)) => {
            if said.as_str() == wanted.as_str() {
                return Ok(());
            }
            println!(rt; "{number}: {text}\n    {said}")
        }
        Err(error) => println!(rt; "{number}: {error}: {text}"),
    }
}

fn main(rt: HostRuntime) -> io::Result<()> {
    let text = io::read_to_string(rt.alloc(), rt.reader())?;
    let mut count = 0usize;
    for (place, line) in text.lines().enumerate() {
        if !line.is_empty() && !line.starts_with('#') {
            count = count.saturating_add(1);
            report(&rt, place.saturating_add(1), line)?;
        }
    }
    println!(rt; "{count} calls")
}
