//! A journal, read.

use evm_journal::read_history;
use std::io;

/// Prints how many events a journal has, or its fault.
pub fn print_count(rt: &(impl Print + AllocGlobal), text: &str) -> io::Result<()> {
    match read_history(rt.alloc(), text) {
        Ok((_, history)) => {
            let count = history.len();
            println!(rt; "events {count}")
        }
        Err(fault) => {
            let line = fault.line;
            let number = fault.kind.number();
            println!(rt; "journal {line} {number}")
        }
    }
}
