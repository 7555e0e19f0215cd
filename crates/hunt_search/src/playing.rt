//! A schedule that may be shorter is played, up to a failure.

use hunt_failures::{Failure, Monitor, Wanted, awake_processors, is_over};
use hunt_schedules::{AnyDevice, Event, Machine, NoBytes, Stretch, advance, event_count};

// Makes an event, and looks whether it makes the machine fail; None of an event that is refused.
fn make(
    machine: &mut Machine<AnyDevice>,
    event: Event<NoBytes>,
    wanted: &Wanted,
    monitor: &mut Monitor,
) -> Option<Failure> {
    match advance(machine, event, wanted, monitor) {
        Ok(failure) => failure,
        Err(_) => None,
    }
}

// Makes the events of a stretch, up to one that makes the machine fail.
fn take_stretch(
    machine: &mut Machine<AnyDevice>,
    stretch: Stretch,
    wanted: &Wanted,
    monitor: &mut Monitor,
) -> Option<Failure> {
    match stretch {
        Stretch::Steps(cpu, count) => {
            for _ in 0..count {
                match make(machine, Event::Step(cpu), wanted, monitor) {
                    Some(failure) => return Some(failure),
                    None => {}
                }
            }
            None
        }
        Stretch::Tick => make(machine, Event::Tick, wanted, monitor),
        Stretch::Raise(cpu, line) => make(machine, Event::Raise(cpu, line), wanted, monitor),
    }
}

// Makes the first events of a stretch, at most `known`, without a look; what is left of the stretch.
fn repeat_stretch(machine: &mut Machine<AnyDevice>, stretch: Stretch, known: u64) -> Stretch {
    let event: Event<NoBytes> = match stretch {
        Stretch::Steps(cpu, count) => {
            let first = u64::from(count).min(known) as u32;
            let _ = machine.steps(cpu, first);
            return Stretch::Steps(cpu, count - first);
        }
        Stretch::Tick => Event::Tick,
        Stretch::Raise(cpu, line) => Event::Raise(cpu, line),
    };
    if known == 0 {
        return stretch;
    }
    let _ = machine.apply(event.widen());
    Stretch::Steps(0, 0)
}

// What is left of a stretch behind its first events.
fn behind(stretch: Stretch, events: u64) -> Stretch {
    match stretch {
        Stretch::Steps(cpu, count) => Stretch::Steps(
            cpu,
            count - u64::from(count).min(events) as u32,
        ),
        Stretch::Tick | Stretch::Raise(_, _) => {
            if events == 0 {
                stretch
            } else {
                Stretch::Steps(0, 0)
            }
        }
    }
}

/// Makes the events of a schedule on a machine that has had the first of them, until it has had `count` events, without a look.
pub(crate) fn go_on_to(machine: &mut Machine<AnyDevice>, schedule: &[Stretch], count: u64) {
    let mut had = machine.event_count();
    for stretch in schedule {
        let rest = behind(*stretch, had);
        had = had.saturating_sub(event_count(&[*stretch]));
        let left = count.saturating_sub(machine.event_count());
        let _ = repeat_stretch(machine, rest, left);
    }
}

// Makes the events of a schedule on a machine that has had the first of them, up to one that makes it fail.
fn play(
    machine: &mut Machine<AnyDevice>,
    schedule: &[Stretch],
    wanted: &Wanted,
    monitor: &mut Monitor,
) -> Option<Failure> {
    let mut had = machine.event_count();
    for stretch in schedule {
        let rest = behind(*stretch, had);
        had = had.saturating_sub(event_count(&[*stretch]));
        match take_stretch(machine, rest, wanted, monitor) {
            Some(failure) => return Some(failure),
            None => {}
        }
    }
    None
}

// The processor that steps next, where one goes on as long as it can: the next one that is awake.
fn next_cpu(awake: &[u8], cpu: u8) -> u8 {
    for c in awake {
        if *c >= cpu {
            return *c;
        }
    }
    match awake.first() {
        Some(c) => *c,
        None => cpu,
    }
}

/// What comes behind the stretches of a schedule: steps of a processor as long as it can step, then of another, and ticks where none can.
#[derive(Clone, Copy, Debug)]
pub(crate) struct Rest {
    /// The processor that steps first.
    pub(crate) cpu: u8,
    /// The most events of it.
    pub(crate) events: u64,
}

// Makes what comes behind the stretches, up to an event that makes the machine fail.
fn finish(
    machine: &mut Machine<AnyDevice>,
    rest: Rest,
    wanted: &Wanted,
    monitor: &mut Monitor,
) -> Option<Failure> {
    let mut cpu = rest.cpu;
    for _ in 0..rest.events {
        let awake = awake_processors(machine);
        let event = if awake.is_empty() {
            if is_over(machine, wanted.lines) {
                return None;
            }
            Event::Tick
        } else {
            cpu = next_cpu(awake.as_slice(), cpu);
            Event::Step(cpu)
        };
        match make(machine, event, wanted, monitor) {
            Some(failure) => return Some(failure),
            None => {}
        }
    }
    None
}

/// Makes the events of a schedule on a machine that has had the first of them, and what comes behind, up to one that makes it fail.
pub(crate) fn play_all(
    machine: &mut Machine<AnyDevice>,
    schedule: &[Stretch],
    rest: Option<Rest>,
    wanted: &Wanted,
) -> Option<Failure> {
    let mut monitor = Monitor::new();
    match play(machine, schedule, wanted, &mut monitor) {
        Some(failure) => return Some(failure),
        None => {}
    }
    match rest {
        Some(rest) => finish(machine, rest, wanted, &mut monitor),
        None => None,
    }
}
