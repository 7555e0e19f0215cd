//! The word `hunt`, from what stands behind it to the exit status.

use crate::PROGRAM;
use crate::job::HuntJob;
use crate::progress::{HuntClock, HuntProgress};
use crate::results::{Hunted, tell};
use crate::telling::Telling;
use crate::words::{Options, Search, WordFault, options_of};
use clap::ArgMatches;
use evm_host::{FAILED, Message, System, USAGE, World, image_at, memory_refused, names_at, report};
use evm_streams::Numeral;
use hunt_search::{
    BeginFault, Boot, HuntStop, Plan, SearchSpan, SpaceCounts, Switching, Target, Way,
    first_choices, first_length, hunt, hunt_all,
};
use hunt_space::{Bound, EventBounds, SpaceBounds, hunt_space};
use std::alloc::Global;
use text_symbols::{Names, Symbols};

/// The status where the file is no image that can be loaded.
const NO_IMAGE: u8 = 3;

/// The symbol of the end of RAM that an image is linked for.
const RAM_END: &str = "ram_end";

/// Where RAM begins, and how many bytes of it there are where the image says nothing.
const RAM: (u64, u64) = (0x8000_0000, 65_536);

/// How many bytes a state that is visited takes, about.
const STATE_BYTES: u64 = 400;

// Says why there is nothing to be hunted.
fn blame<S: System>(fault: WordFault, world: &mut World<S>) -> u8 {
    let words = match fault {
        WordFault::Missing => return USAGE,
        WordFault::Time => "--time: wanted a number of seconds, or as 90s, 5m or 2h",
        WordFault::Seeds => "--seeds: wanted the first seed and then the last",
        WordFault::Counted => {
            "--all without B looks at states alone: without lost, stuck, --held, --inversion and --order"
        }
        WordFault::Bounds => "--ticks, --raises and --states: wanted beside --all without B",
    };
    report(PROGRAM, Message::Plain(words), &mut world.errors);
    USAGE
}

// Reports why a hunt has ended early.
fn stopped<S: System>(path: &str, stop: HuntStop, world: &mut World<S>) -> u8 {
    match stop {
        HuntStop::NoMemory | HuntStop::NoMachine(BeginFault::NoMemory) => {
            memory_refused(PROGRAM, world)
        }
        HuntStop::NoMachine(BeginFault::PastRam) => {
            let message = Message::Plain("memory of a segment lies past RAM: see --ram");
            report(path, message, &mut world.errors);
            NO_IMAGE
        }
        HuntStop::NoMachine(BeginFault::BadSize) => {
            let message = Message::Plain("--ram is no multiple of 4096");
            report(PROGRAM, message, &mut world.errors);
            USAGE
        }
    }
}

// The bytes of RAM that an image is linked for.
fn linked_ram(symbols: &Symbols) -> u64 {
    let (base, usual) = RAM;
    match symbols.address(RAM_END) {
        Some(end) if base + usual <= end && end <= base + (1 << 24) && end % 4_096 == 0 => {
            end - base
        }
        _ => usual,
    }
}

fn boot_of(options: &Options<'_>, names: &Names) -> Boot {
    let ram = match options.ram {
        Some(ram) => ram,
        None => linked_ram(&names.symbols),
    };
    Boot {
        watchdog: options.watchdog,
        ..Boot::newest(options.cpus, ram, options.events)
    }
}

// How a hunt by seeds chooses.
fn way_of(job: &HuntJob<'_>) -> Result<Way, HuntStop> {
    match job.options.search {
        Search::Random | Search::Switches(_) | Search::All => Ok(Way::Random),
        Search::Pct(points) => Ok(Way::Priorities {
            points,
            length: first_length(&job.target)?,
        }),
        Search::Mixed => Ok(Way::Mixed {
            length: first_choices(&job.target)?,
        }),
    }
}

// Says how much memory the states may take.
fn tell_memory<S: System>(states: u32, world: &mut World<S>) {
    let megabytes = (u64::from(states) * STATE_BYTES).div_ceil(1_000_000);
    let message = Message::WithTwo(
        "at most ",
        Numeral::Decimal(u64::from(states)),
        " states, some ",
        Numeral::Decimal(megabytes),
        " MB",
    );
    report(PROGRAM, message, &mut world.errors);
}

// How many events of a kind a schedule may have.
fn bound_of(most: Option<u64>) -> Bound {
    match most {
        Some(most) => Bound::AtMost(most),
        None => Bound::Free,
    }
}

// Looks at every schedule.
fn hunt_everything<S: System>(
    job: &HuntJob<'_>,
    telling: &mut Telling<'_, S>,
) -> Result<Hunted, HuntStop> {
    let options = job.options;
    let bounds = SpaceBounds {
        events: EventBounds {
            ticks: bound_of(options.ticks),
            raises: bound_of(options.raises),
        },
        states: options.states,
    };
    tell_memory(options.states, telling.world);
    let found = hunt_space(&job.target, &bounds, telling)?;
    let counts = SpaceCounts {
        ticks: options.ticks,
        raises: options.raises,
        states: found.states,
        events: found.events,
        ends: found.ends,
        clock: found.clock,
    };
    Ok(Hunted {
        report: found.report,
        span: SearchSpan::All(counts),
        text: Some(found.text),
    })
}

// Looks at every schedule with at most a number of switches.
fn hunt_switches<S: System>(
    job: &HuntJob<'_>,
    switches: u8,
    telling: &mut Telling<'_, S>,
) -> Result<Hunted, HuntStop> {
    let options = job.options;
    let bounds = Switching {
        switches,
        schedules: options.most,
        orders: options.orders,
    };
    let report = hunt_all(&job.target, &bounds, telling)?;
    Ok(Hunted {
        report,
        span: SearchSpan::Switches(switches),
        text: None,
    })
}

// Looks at the schedules of seeds.
fn hunt_seeds<S: System>(
    job: &HuntJob<'_>,
    telling: &mut Telling<'_, S>,
) -> Result<Hunted, HuntStop> {
    let options = job.options;
    let plan = Plan {
        way: way_of(job)?,
        first: options.first,
        last: options.last,
        orders: options.orders,
    };
    let report = hunt(&job.target, &plan, telling)?;
    Ok(Hunted {
        report,
        span: SearchSpan::Seeds(options.first),
        text: None,
    })
}

// Looks at the schedules of the options.
fn hunt_by<S: System>(job: &HuntJob<'_>, telling: &mut Telling<'_, S>) -> Result<Hunted, HuntStop> {
    match job.options.search {
        Search::All => hunt_everything(job, telling),
        Search::Switches(switches) => hunt_switches(job, switches, telling),
        Search::Mixed | Search::Random | Search::Pct(_) => hunt_seeds(job, telling),
    }
}

// Hunts in an image, and shows each failure when it is found.
fn hunt_in<'a, S: System>(
    job: &HuntJob<'_>,
    names: &'a Names,
    rt: &'a HostRuntime,
    clock: HuntClock,
    world: &'a mut World<S>,
) -> Result<(Hunted, u8), HuntStop> {
    let mut telling = Telling {
        alloc: job.target.alloc,
        names,
        seconds: job.options.seconds,
        rt,
        clock,
        world,
        told: Ok(0),
    };
    let hunted = hunt_by(job, &mut telling);
    telling.clock.clear(telling.rt);
    let hunted = hunted?;
    let status = telling.told?;
    Ok((hunted, status))
}

// Hunts in an image, and shows what it comes to.
fn hunt_and_tell<S: System>(
    job: &HuntJob<'_>,
    names: &Names,
    rt: &HostRuntime,
    clock: HuntClock,
    world: &mut World<S>,
) -> Result<u8, HuntStop> {
    let (hunted, status) = hunt_in(job, names, rt, clock, world)?;
    if status != 0 {
        return Ok(status);
    }
    tell(job, &hunted, world)
}

// Hunts by the options.
fn hunt_with<S: System>(
    alloc: Global,
    options: &Options<'_>,
    progress: HuntProgress<'_>,
    world: &mut World<S>,
) -> u8 {
    let image = match image_at(alloc, options.image, world) {
        Ok(image) => image,
        Err(status) => return status,
    };
    let names = match names_at(alloc, PROGRAM, options.image, options.map, world) {
        Ok(names) => names,
        Err(status) => return status,
    };
    let boot = boot_of(options, &names);
    let job = HuntJob {
        options: &*options,
        target: Target {
            alloc,
            image: &image,
            boot: &boot,
            wanted: &options.wanted,
        },
        names: &names,
    };
    match hunt_and_tell(&job, &names, progress.rt, progress.clock, world) {
        Ok(status) => status,
        Err(stop) => stopped(options.image, stop, world),
    }
}

/// `hunt`: looks for schedules in which a program fails, as the words ask for, and returns the exit status.
pub fn hunt_for<S: System>(
    alloc: Global,
    words: &ArgMatches<'_>,
    progress: &mut HuntProgress<'_>,
    world: &mut World<S>,
) -> u8 {
    let options = match options_of(words) {
        Ok(options) => options,
        Err(fault) => return blame(fault, world),
    };
    if options.seconds.is_some() && progress.clock.taken(progress.rt).is_none() {
        let message = Message::Plain("the clock can't be read: see --runs");
        report(PROGRAM, message, &mut world.errors);
        return FAILED;
    }
    hunt_with(alloc, &options, *progress, world)
}
