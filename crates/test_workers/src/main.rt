//! Workers, ringers and commands on a machine under its lock, each in a thread of its own. Prints for each case the number of the
//! refusal that ended a worker, 0 for none; what is seen; and what is alike in each run: the Steps, Bells, other events, receipts, and
//! marks full and short of ports, and how many lines were rung fresh, were taken and are left.
#![tactic(auto)]

mod cases;
mod gates;
mod looks;
mod machines;
mod plays;
mod rings;
mod seats;

use cases::{PORT_CASES, PortCase, RING_CASES, RingCase};
use looks::{Row, Seen, Sums};
use plays::run_ports;
use rings::run_rings;
use std::io;
use std::sync::Wait;
use std::thread::Threads;

fn tell_row(rt: &impl Print, place: usize, row: &Row) -> io::Result<()> {
    let [steps, bells, others, receipts, full, short] = *row;
    println!(rt;
        "    port {place}: {steps} {bells} {others}, receipts {receipts}, full {full}, short {short}"
    )
}

// Prints what was seen of a case.
fn tell(rt: &impl Print, seen: &Seen) -> io::Result<()> {
    let (called, counted) = (seen.called, seen.counted);
    let (checked, replayed) = (seen.checked, seen.replayed);
    println!(rt; "    called {called}, counted {counted}, checked {checked}, replayed {replayed}")?;
    match seen.twice {
        Ok(()) => println!(rt; "    no mismatch"),
        Err(found) => {
            let (port, index) = (found.port, found.index);
            println!(rt; "    mismatch of port {port}, receipt {index}")
        }
    }
}

fn tell_sums(rt: &impl Print, sums: Sums) -> io::Result<()> {
    let (fresh, taken, left) = (sums.fresh, sums.taken, sums.left);
    println!(rt; "    fresh {fresh}, taken {taken}, left {left}")
}

// Runs a case beside a thread that rings, and prints it.
fn try_rings<R: Threads + Wait + Sync + Print + AllocGlobal>(
    rt: &R,
    case: &RingCase,
) -> io::Result<()> {
    let Some((seen, sums)) = run_rings(rt, rt.alloc(), case) else {
        return println!(rt; "{}: no end", case.name);
    };
    println!(rt; "{}", case.name)?;
    tell(rt, &seen)?;
    for place in 0..case.shown {
        if let Some(row) = seen.rows.get(place) {
            tell_row(rt, place, row)?;
        }
    }
    if case.has_sums {
        tell_sums(rt, sums)?;
    }
    Ok(())
}

// Runs a case beside a thread with a port, and prints it.
fn try_ports<R: Threads + Wait + Sync + Print + AllocGlobal>(
    rt: &R,
    case: &PortCase,
) -> io::Result<()> {
    let Some((seen, number)) = run_ports(rt, rt.alloc(), case) else {
        return println!(rt; "{}: no end", case.name);
    };
    println!(rt; "{}: {number}", case.name)?;
    tell(rt, &seen)?;
    for place in case.shown {
        if let Some(row) = seen.rows.get(*place) {
            tell_row(rt, *place, row)?;
        }
    }
    Ok(())
}

fn main(rt: HostRuntime) -> io::Result<()> {
    for case in &RING_CASES {
        try_rings(&rt, case)?;
    }
    for case in &PORT_CASES {
        try_ports(&rt, case)?;
    }
    Ok(())
}
