//! Events that are applied to a machine without a script's service.

use evm_debug::{Boot, Event, Line, Machine, read_line};
use evm_devs::Pins;
use std::alloc::Global;

// The machine of a boot line, with three devices, which are pins.
fn boot(alloc: Global, numbers: &Boot) -> Option<Machine<Pins>> {
    let profile = u8::try_from(numbers.profile).ok()?;
    let watchdog = u32::try_from(numbers.watchdog).ok()?;
    let cpus = u8::try_from(numbers.cpus).ok()?;
    let capacity = u32::try_from(numbers.capacity).ok()?;
    Machine::boot_as(alloc, profile, watchdog, cpus, numbers.ram, capacity).ok()
}

fn attach_pins(machine: &mut Machine<Pins>) {
    for _ in 0..3 {
        let _ = machine.attach(Pins::new());
    }
}

// What is refused changes nothing; the number of events tells.
#[inline(always)]
fn apply(machine: &mut Machine<Pins>, line: &Line) {
    if let Line::Steps(cpu, 1) = line {
        let _ = machine.apply(Event::Step(*cpu));
        return;
    }
    apply_other(machine, line);
}

// Apart, so that a Step has no room for other events to clear.
#[inline(never)]
fn apply_other(machine: &mut Machine<Pins>, line: &Line) {
    match line {
        Line::Steps(cpu, count) => {
            let _ = machine.steps(*cpu, *count);
        }
        Line::One(event) => {
            let _ = machine.apply(event.lend());
        }
        Line::Blank | Line::Boot(_) | Line::Show(_) => {}
    }
}

fn apply_lines(machine: &mut Machine<Pins>, text: &str) {
    for text in text.lines() {
        if let Ok(line) = read_line(text.as_bytes()) {
            apply(machine, &line);
        }
    }
}

fn apply_times(machine: &mut Machine<Pins>, round: &[Line], times: u32) {
    for _ in 0..times {
        for line in round.iter() {
            apply(machine, line);
        }
    }
}

fn lines_of(alloc: Global, text: &str) -> Option<Vec<Line>> {
    let mut lines = Vec::new(alloc);
    for text in text.lines() {
        lines.push(read_line(text.as_bytes()).ok()?).ok()?;
    }
    Some(lines)
}

/// Does what the lines say: how many events the machine has had then.
pub fn apply_script(alloc: Global, text: &str) -> Option<u64> {
    let (first, rest) = text.split_once('\n')?;
    let (head, behind) = rest.split_once("times ").unwrap_or((rest, "0\n"));
    let (times, round) = behind.split_once('\n')?;
    let times = times.parse().ok()?;
    let round = lines_of(alloc, round)?;
    let Ok(Line::Boot(numbers)) = read_line(first.as_bytes()) else {
        return None;
    };
    let mut machine = boot(alloc, &numbers)?;
    attach_pins(&mut machine);
    apply_lines(&mut machine, head);
    apply_times(&mut machine, round.as_slice(), times);
    Some(machine.event_count())
}
