//! Plays the recorded sessions of GDB in the folder exchanges. Each line of its file INDEX names a file of sessions. A line is
//! printed for each exchange whose answer is another, and at the end one that counts sessions and exchanges.
//!
//! A file is a list of sessions. A session begins with the line `session NAME`, and has its settings next:
//!
//! - `boot P RAM CAP` boots its machine; `source NAME`, behind it, loads the image of the source NAME.s.
//! - `acknowledged`: packets are acknowledged. `interrupted`: whenever the program goes on GDB asks that it be stopped.
//!   `unwritten`: each write fails. `gone`: the image can't be read again. `map NAME` gives the names of the map NAME.map.
//! - Any other line is a line of a script, and is run before GDB comes.
//!
//! Then come exchanges: some lines `> PAYLOAD` and then lines `< PAYLOAD`, the packets that answer. `>> BYTES` and `<< BYTES` are bytes
//! that are no packet; what is sent so comes a byte at a time. `\xHH` is the byte with these digits. A line that begins with `#` is a comment.

use crate::session::play;
use std::rt::Files;
use std::{fs, io};

// What was run.
#[derive(Drop)]
struct Counts {
    sessions: usize,
    exchanges: usize,
}

// Plays the sessions of a file.
fn play_file(
    rt: &(impl Files + Print + AllocGlobal),
    name: &str,
    counts: &mut Counts,
) -> io::Result<()> {
    let path = format!(in rt.alloc(); "exchanges/{name}")?;
    let text = fs::read_to_string(rt, path.as_str())?;
    let lines: Vec<&str> = text.lines().collect(rt.alloc())?;
    for (i, line) in lines.as_slice().iter().enumerate() {
        if line.starts_with("session ") {
            let exchanges = play(rt, name, lines.as_slice(), i)?;
            counts.sessions = counts.sessions.saturating_add(1);
            counts.exchanges = counts.exchanges.saturating_add(exchanges);
        }
    }
    Ok(())
}

/// Plays the sessions of all files.
pub(crate) fn play_all(rt: &(impl Files + Print + AllocGlobal)) -> io::Result<()> {
    let index = fs::read_to_string(rt, "exchanges/INDEX")?;
    let mut counts = Counts {
        sessions: 0,
        exchanges: 0,
    };
    for name in index.lines() {
        play_file(rt, name, &mut counts)?;
    }
    println!(rt;
        "{} exchanges of {} sessions",
        counts.exchanges, counts.sessions
    )
}
