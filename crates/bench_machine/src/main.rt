//! Does the work that standard input names, and prints how much was done; `bench/run` and `bench/bells` measure it. A work is one of:
//! - a journal: its events are counted;
//! - the lines of a script, the first of them its boot line: they are applied to a machine, without a script's service. Lines behind
//!   one that says `times COUNT` are applied COUNT times;
//! - a line `ring THREADS COUNT`, `take THREADS COUNT`, `commit THREADS COUNT`, `step COUNT`, `hold COUNT`, `events COUNT` or
//!   `deliver COUNT`: this is done COUNT times in all; or `turns WORKERS COUNT`: each worker makes COUNT turns.
//!
//! If standard input begins with a line `==`, such a line stands before each of several works.
#![tactic(auto)]

mod bells;
mod commits;
mod delivers;
mod events;
mod journal;
mod words;
mod workers;

use crate::bells::{ring, take};
use crate::commits::{commit, events, step};
use crate::delivers::deliver;
use crate::events::apply_script;
use crate::journal::print_count;
use crate::words::{Work, read_work};
use crate::workers::{hold, turns};
use std::io;
use std::sync::Wait;
use std::thread::Threads;

/// How a journal begins.
const JOURNAL: &str = "evl-journal";

/// How a script begins.
const SCRIPT: &str = "boot";

/// The line before each of several works.
const MARK: &str = "==\n";

// Prints how many events a script's machine has had.
fn print_events(rt: &(impl Print + AllocGlobal), text: &str) -> io::Result<()> {
    match apply_script(rt.alloc(), text) {
        Some(count) => println!(rt; "events {count}"),
        None => println!(rt; "not done"),
    }
}

// Prints how many Steps each worker made.
fn print_steps(rt: &impl Print, steps: &[u64]) -> io::Result<()> {
    print!(rt; "steps")?;
    for made in steps {
        print!(rt; " {made}")?;
    }
    println!(rt; "")
}

// Prints how often a line's work was done.
fn print_done<R: Threads + Wait + Sync + Print + AllocGlobal>(
    rt: &R,
    text: &str,
) -> io::Result<()> {
    let done = match read_work(text) {
        None => None,
        Some(Work::Ring(threads, count)) => ring(rt, rt.alloc(), threads, count),
        Some(Work::Take(threads, count)) => take(rt, rt.alloc(), threads, count),
        Some(Work::Commit(threads, count)) => commit(rt, rt.alloc(), threads, count),
        Some(Work::Step(count)) => step(rt.alloc(), count),
        Some(Work::Hold(count)) => hold(rt, rt.alloc(), count),
        Some(Work::Events(count)) => events(rt, rt.alloc(), count),
        Some(Work::Deliver(count)) => deliver(rt, rt.alloc(), count),
        Some(Work::Turns(workers, count)) => {
            let Some(steps) = turns(rt, rt.alloc(), workers, count) else {
                return println!(rt; "not done");
            };
            return print_steps(rt, steps.as_slice());
        }
    };
    match done {
        Some(count) => println!(rt; "done {count}"),
        None => println!(rt; "not done"),
    }
}

fn work<R: Threads + Wait + Sync + Print + AllocGlobal>(rt: &R, text: &str) -> io::Result<()> {
    if text.starts_with(JOURNAL) {
        print_count(rt, text)
    } else if text.starts_with(SCRIPT) {
        print_events(rt, text)
    } else {
        print_done(rt, text)
    }
}

fn main(rt: HostRuntime) -> io::Result<()> {
    let text = io::read_to_string(rt.alloc(), rt.reader())?;
    let Some(works) = text.strip_prefix(MARK) else {
        return work(&rt, text.as_str());
    };
    for text in works.split(MARK) {
        work(&rt, text)?;
    }
    Ok(())
}
