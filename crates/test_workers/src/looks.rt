//! What is seen of a case when the sharing and the bells have ended.

ghost use Rattle.std.specs.Prelude.{◌<◌};
ghost use Rattle.evm_lines.specs.declared.TheConstants.{LINES};

use crate::cases::Plan;
use crate::gates::{Gates, with_steps};
use crate::machines::is_replayed;
use claims_threads::checked_receipts_have_each_bell;
use evm_bells::Closed;
use evm_core::{Event, EventLine, Machine};
use evm_devs::AnyDevice;
use evm_lines::LINES;
use evm_shared::{EventCounts, Finished, Made, Mismatch, Origin, Port, check_receipts};
use std::alloc::Global;
use std::sync::ledger::Ledger;

/// What was made through a port: Steps, Bells and other events, how many receipts it has, and 1 for each mark that is set, full and short.
pub(crate) type Row = [u64; 6];

/// What is seen.
#[derive(Clone, Copy)]
pub(crate) struct Seen {
    /// The rows of the first three ports.
    pub(crate) rows: [Row; 3],
    /// The gate was called around each turn, with the Steps of its receipt, and no thread was missed.
    pub(crate) called: bool,
    /// The journal has as many events and Bells as the ports have made, and of lines that were rung fresh each was taken or is left, and
    /// is a Bell if it was taken.
    pub(crate) counted: bool,
    /// The receipts of the first two ports, or of the only one, are true.
    pub(crate) checked: bool,
    /// What breaks where the first port is checked twice.
    pub(crate) twice: Result<(), Mismatch>,
    /// The journal leads another machine there.
    pub(crate) replayed: bool,
}

fn row<O: Origin, S: Ledger, B: Ledger, T: Ledger>(port: Option<&Port<O, S, B, T>>) -> Row {
    let Some(port) = port else {
        return [0; 6];
    };
    let share = port.share();
    [
        share.steps,
        share.bells,
        share.others,
        port.receipts().len() as u64,
        u64::from(port.is_full()),
        u64::from(port.is_short()),
    ]
}

// The Steps of a port's receipts.
fn steps_of<O: Origin, S: Ledger, B: Ledger, T: Ledger>(port: &Port<O, S, B, T>) -> u64 {
    let mut steps = 0;
    for receipt in port.receipts() {
        if let Made::Steps(_, count) = receipt.made {
            steps = with_steps(steps, count);
        }
    }
    steps
}

fn was_called<O: Origin, S: Ledger, B: Ledger, T: Ledger>(
    ports: &[Port<O, S, B, T>],
    workers: u8,
    gate: &Gates,
) -> bool {
    for cpu in 0..workers {
        let Some(port) = ports.get(cpu as usize) else {
            return false;
        };
        if gate.steps(cpu) != Some(steps_of(port)) {
            return false;
        }
    }
    !gate.was_missed()
}

// How many Bells the journal has.
fn bells_of(machine: &Machine<AnyDevice>) -> u64 {
    let mut bells = 0u64;
    for place in 0..machine.journal_line_count() {
        if let Some(EventLine::One(Event::Bell(_, _))) = machine.journal_line(place) {
            bells = bells.wrapping_add(1);
        }
    }
    bells
}

/// How many lines were rung fresh, were taken and are left.
#[derive(Clone, Copy)]
pub(crate) struct Sums {
    pub(crate) fresh: u64,
    pub(crate) taken: u64,
    pub(crate) left: u64,
}

const NO_LINES: Sums = Sums {
    fresh: 0,
    taken: 0,
    left: 0,
};

fn plus(sums: Sums, more: Sums) -> Sums {
    Sums {
        fresh: sums.fresh.wrapping_add(more.fresh),
        taken: sums.taken.wrapping_add(more.taken),
        left: sums.left.wrapping_add(more.left),
    }
}

// The sums of a line; none if it was rung fresh and was neither taken nor is left.
fn line_sums(closed: &Closed, cpu: u8, line: u8) -> Option<Sums>
    requires { (cpu < 8) × (line < LINES) }
{
    let left = (closed.left[cpu as usize] >> line) & 1;
    let fresh = closed.fresh.get(cpu, line);
    let taken = closed.taken.get(cpu, line);
    if fresh != taken.wrapping_add(left) {
        return None;
    }
    Some(Sums { fresh, taken, left })
}

// The sums of a processor below 8.
fn cpu_sums(closed: &Closed, cpu: u8) -> Sums
    requires { cpu < 8 }
{
    let mut sums = NO_LINES;
    for line in 0..LINES {
        let Some(more) = line_sums(closed, cpu, line) else {
            return NO_LINES;
        };
        sums = plus(sums, more);
    }
    sums
}

/// The sums of the first two processors; zeros of one with a line that was rung fresh and was neither taken nor is left.
pub(crate) fn line_totals(closed: &Closed) -> Sums {
    plus(cpu_sums(closed, 0), cpu_sums(closed, 1))
}

/// Whether each line that was rung fresh was taken or is left, and the ports have made a Bell of each line taken.
pub(crate) fn are_lines_counted(totals: EventCounts, closed: &Closed) -> bool {
    let sums = line_totals(closed);
    totals.bells == sums.taken && sums.fresh == sums.taken.wrapping_add(sums.left)
}

fn are_counted(totals: EventCounts, machine: &Machine<AnyDevice>) -> bool {
    let events = totals
        .steps
        .wrapping_add(totals.bells)
        .wrapping_add(totals.others);
    totals.bells == bells_of(machine) && events == machine.event_count()
}

fn check_two<O: Origin, S: Ledger, B: Ledger, T: Ledger>(
    machine: &Machine<AnyDevice>,
    first: &Port<O, S, B, T>,
    second: &Port<O, S, B, T>,
) -> Result<(), Mismatch> {
    check_receipts(machine, &[first, second])
}

fn have_each_bell<O: Origin, S: Ledger, B: Ledger, T: Ledger>(
    machine: &Machine<AnyDevice>,
    first: &Port<O, S, B, T>,
    second: &Port<O, S, B, T>,
) -> bool {
    checked_receipts_have_each_bell(machine, &[first, second])
}

// Whether the receipts of the only port are true, by both checks.
fn is_one_checked<O: Origin, S: Ledger, B: Ledger, T: Ledger>(
    machine: &Machine<AnyDevice>,
    port: &Port<O, S, B, T>,
) -> bool {
    check_receipts(machine, &[port]).is_ok() && checked_receipts_have_each_bell(machine, &[port])
}

// Whether the receipts of the first two ports are true, by both checks. The end of the sharing has checked all.
fn is_checked<O: Origin, S: Ledger, B: Ledger, T: Ledger>(
    machine: &Machine<AnyDevice>,
    first: &Port<O, S, B, T>,
    second: Option<&Port<O, S, B, T>>,
) -> bool {
    match second {
        None => is_one_checked(machine, first),
        Some(second) => {
            check_two(machine, first, second).is_ok() && have_each_bell(machine, first, second)
        }
    }
}

// All but the replay. None if there is no port.
fn look_at<O: Origin, S: Ledger, B: Ledger, T: Ledger>(
    workers: u8,
    gate: &Gates,
    totals: EventCounts,
    machine: &Machine<AnyDevice>,
    ports: &[Port<O, S, B, T>],
) -> Option<Seen> {
    let first = ports.get(0)?;
    Some(Seen {
        rows: [row(Some(first)), row(ports.get(1)), row(ports.get(2))],
        called: was_called(ports, workers, gate),
        counted: are_counted(totals, machine),
        checked: is_checked(machine, first, ports.get(1)),
        twice: check_two(machine, first, first),
        replayed: false,
    })
}

/// Looks at all. None if there is no port.
pub(crate) fn look<O: Origin, S: Ledger, B: Ledger, T: Ledger>(
    alloc: Global,
    plan: Plan,
    workers: u8,
    gate: &Gates,
    finished: Finished<AnyDevice, O, S, B, T>,
) -> Option<Seen> {
    let Finished {
        machine,
        ports,
        totals,
    } = finished;
    let mut seen = look_at(workers, gate, totals, &machine, ports.as_slice())?;
    seen.replayed = is_replayed(alloc, plan, machine);
    Some(seen)
}
