//! What a schedule does next.

ghost use Rattle.std.specs.Prelude.{◌<◌, ◌≤◌};

use crate::private::is_private_step;
use crate::random::Random;
use arrayvec::ArrayVec;
use evm_core::Machine;
use evm_devs::AnyDevice;
use evm_lines::LineSet;
use evm_model::{Event, NoBytes, PROCESSOR_LIMIT};
use hunt_failures::{Awake, awake_processors, is_over};

/// The most change points of a schedule.
pub const POINT_LIMIT: usize = 32;

/// One event in 64 comes from outside: a tick, or a line where there are lines.
const OUTSIDE: u64 = 64;

/// How many seeds in a row have each way of a mixed hunt.
const MIX: u64 = 6;

/// How the processor that steps is chosen.
#[derive(Clone, Copy, Debug, PartialEq, Eq)]
pub enum Way {
    /// Each that is awake is as likely.
    Random,
    /// The one of greatest priority. At each of some random points of a schedule of this length the one that would step gets the
    /// least priority (Burckhardt, Kothari, Musuvathi and Nagarakatte, ASPLOS 2010).
    Priorities {
        /// How many change points there are, up to 32.
        points: u8,
        /// Among how many steps they are spread.
        length: u32,
    },
    /// Of six seeds in a row three choose at random, each with its own share of switches, and the others by priorities with one, two and
    /// three change points. A processor goes on as long as no other can see what it does. Each seed has its own share of ticks and lines.
    Mixed {
        /// Among how many choices change points are spread.
        length: u32,
    },
}

/// Priorities of processors, which fall at change points.
#[derive(Debug, Drop)]
struct Priorities {
    of: [u64; PROCESSOR_LIMIT],
    points: ArrayVec<u32, POINT_LIMIT>,
    steps: u32,
}

impl Priorities {
    // Random priorities above those that change points give, and random change points.
    fn new(random: &mut Random, points: u8, length: u32) -> Priorities {
        let mut of = [0u64; PROCESSOR_LIMIT];
        for priority in of.iter_mut() {
            *priority = random.next() | 1 << 63;
        }
        let mut places = ArrayVec::new();
        for _ in 0..points {
            let place = if length == 0 {
                0
            } else {
                random.below(u64::from(length))
            };
            let _ = places.try_push(place as u32);
        }
        Priorities {
            of,
            points: places,
            steps: 0,
        }
    }

    fn priority(&self, c: u8) -> u64 {
        match self.of.get(usize::from(c)) {
            Some(priority) => *priority,
            None => 0,
        }
    }

    // The processor of greatest priority.
    fn greatest(&self, awake: &Awake) -> u8 {
        let mut best = 0;
        let mut most = 0;
        for c in awake.as_slice() {
            let priority = self.priority(*c);
            if priority >= most {
                best = *c;
                most = priority;
            }
        }
        best
    }

    // The number of the change point at this step, if there is one.
    fn point(&self) -> Option<u64> {
        for (i, place) in self.points.as_slice().iter().enumerate() {
            if *place == self.steps {
                return Some(i as u64);
            }
        }
        None
    }

    // The processor that steps: behind a change point another, if one is awake.
    fn next(&mut self, awake: &Awake) -> u8 {
        if let Some(low) = self.point() {
            let falls = self.greatest(awake);
            if let Some(priority) = self.of.get_mut(usize::from(falls)) {
                *priority = low;
            }
        }
        self.steps = self.steps.saturating_add(1);
        self.greatest(awake)
    }
}

/// A schedule that is made while it runs: what a seed does is the same everywhere.
#[derive(Debug, Drop)]
pub struct Chooser {
    random: Random,
    lines: LineSet,
    priorities: Option<Priorities>,
    // one event in so many comes from outside
    outside: u64,
    // one choice in so many is another than the last, if there are no priorities
    switch: u64,
    // whether a processor goes on as long as no other can see what it does
    is_mixed: bool,
    last: u8,
    choices: u32,
}

// How many change points the schedule of a seed has in a mixed hunt.
fn mixed_points(seed: u64) -> u8 {
    match seed % MIX {
        1 => 1,
        3 => 2,
        5 => 3,
        _ => 0,
    }
}

// 1, 4, 16 or 64 with 4 of `count`, as likely.
fn power_of_4(random: &mut Random, count: u64) -> u64
    requires { (0 < count) × (count ≤ 16) }
    ensures { 0 < result }
{
    1 << (2 * random.below(count))
}

impl Chooser {
    // A schedule whose processors are chosen by priorities, or else at random.
    fn plain(random: Random, priorities: Option<Priorities>, lines: LineSet) -> Chooser {
        Chooser {
            random,
            lines,
            priorities,
            outside: OUTSIDE,
            switch: 1,
            is_mixed: false,
            last: 0,
            choices: 0,
        }
    }

    // A schedule of a mixed hunt.
    fn mixed(random: Random, points: u8, length: u32, lines: LineSet) -> Chooser {
        let mut random = random;
        let outside = power_of_4(&mut random, 3).saturating_mul(16);
        let mut switch = 1;
        let mut priorities = None;
        if points == 0 {
            switch = power_of_4(&mut random, 4);
        } else {
            priorities = Some(Priorities::new(&mut random, points, length));
        }
        Chooser {
            outside,
            switch,
            is_mixed: true,
            ..Chooser::plain(random, priorities, lines)
        }
    }

    /// The schedule of a seed, which raises lines of a set.
    pub fn new(seed: u64, way: Way, lines: LineSet) -> Chooser {
        let mut random = Random::of_seed(seed);
        match way {
            Way::Random => Chooser::plain(random, None, lines),
            Way::Priorities { points, length } => {
                let priorities = Priorities::new(&mut random, points, length);
                Chooser::plain(random, Some(priorities), lines)
            }
            Way::Mixed { length } => Chooser::mixed(random, mixed_points(seed), length, lines),
        }
    }

    /// How often the processor that steps was chosen.
    pub fn choices(&self) -> u32 {
        self.choices
    }

    // A line of the set, each as likely.
    fn line(&mut self) -> u8 {
        let mut count = 0u64;
        let mut left = self.lines;
        for _ in 0..64 {
            if left.pop().is_none() {
                break;
            }
            count = count.saturating_add(1);
        }
        if count == 0 {
            return 0;
        }
        let mut skip = self.random.below(count);
        let mut left = self.lines;
        let mut line = 0;
        for _ in 0..64 {
            match left.pop() {
                Some(next) => line = next,
                None => break,
            }
            if skip == 0 {
                break;
            }
            skip -= 1;
        }
        line
    }

    // A line on a processor, each as likely.
    fn raise(&mut self, cpus: u8) -> Event<NoBytes> {
        let cpu = if cpus == 0 {
            0
        } else {
            self.random.below(u64::from(cpus))
        };
        Event::Raise(cpu as u8, self.line())
    }

    // One of the processors that are awake.
    fn choose(&mut self, awake: &Awake) -> u8 {
        if let Some(priorities) = &mut self.priorities {
            return priorities.next(awake);
        }
        let awake = awake.as_slice();
        if self.switch > 1 && awake.contains(&self.last) && self.random.below(self.switch) != 0 {
            return self.last;
        }
        if awake.is_empty() {
            return 0;
        }
        let place = self.random.below(awake.len() as u64);
        awake[place as usize]
    }

    // The processor that steps, of those that are awake.
    fn processor(&mut self, machine: &Machine<AnyDevice>, awake: &Awake) -> u8 {
        if self.is_mixed
            && awake.as_slice().contains(&self.last)
            && is_private_step(machine, self.last)
        {
            return self.last;
        }
        self.choices = self.choices.saturating_add(1);
        self.last = self.choose(awake);
        self.last
    }

    // A tick, or a line where there are lines.
    fn from_outside(&mut self, cpus: u8) -> Event<NoBytes> {
        if !self.lines.is_empty() && self.random.below(2) == 1 {
            self.raise(cpus)
        } else {
            Event::Tick
        }
    }

    /// The next event: a step of a processor that is awake, and now and then a tick or a line. None if nothing more can happen.
    pub fn next(&mut self, machine: &Machine<AnyDevice>) -> Option<Event<NoBytes>> {
        let awake = awake_processors(machine);
        if awake.is_empty() {
            if is_over(machine, self.lines) {
                return None;
            }
            return Some(self.from_outside(machine.cpu_count()));
        }
        if self.outside > 0 && self.random.below(self.outside) == 0 {
            return Some(self.from_outside(machine.cpu_count()));
        }
        Some(Event::Step(self.processor(machine, &awake)))
    }
}
