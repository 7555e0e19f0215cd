//! The cases: what each runs, and which of its ports are told.

/// What task 0 runs.
#[derive(Clone, Copy)]
pub(crate) enum Program {
    /// An endless loop.
    Loop,
    /// A loop, also of a task that is spawned on processor 1: it puts two words into a mailbox over a ring and takes one.
    MailRing,
    /// The same with a mailbox over a list.
    MailList,
}

/// The numbers of a machine, and what it runs.
#[derive(Clone, Copy)]
pub(crate) struct Plan {
    pub(crate) cpus: u8,
    pub(crate) capacity: u64,
    pub(crate) program: Program,
}

/// Lines that a thread rings of each processor, from the first to before the end, and how often.
#[derive(Clone, Copy)]
pub(crate) struct Rings {
    pub(crate) first: u8,
    pub(crate) end: u8,
    pub(crate) times: u32,
}

/// A worker for each processor of a machine makes its turns while a thread rings.
pub(crate) struct RingCase {
    pub(crate) name: &'static str,
    pub(crate) plan: Plan,
    pub(crate) turns: u32,
    /// The turn before which the workers wait until the thread is done.
    pub(crate) held: u32,
    pub(crate) rings: Rings,
    /// How many of the rows are alike in each run.
    pub(crate) shown: usize,
    /// Whether the sums of the lines are.
    pub(crate) has_sums: bool,
}

/// Workers make ten turns of a machine of one processor while a thread comes, with a port of its own.
pub(crate) struct PortCase {
    pub(crate) name: &'static str,
    pub(crate) plan: Plan,
    /// Worker I is of processor I.
    pub(crate) workers: u8,
    /// The turn before which the workers and the thread wait for one another.
    pub(crate) held: u32,
    /// Whether the thread sets a breakpoint at the first instruction before it comes.
    pub(crate) breaks: bool,
    /// Commits of one Step each of processor 0 by its port, once the workers are done.
    pub(crate) commits: u32,
    /// The ports of which the same is told in each run.
    pub(crate) shown: &'static [usize],
}

const NO_RINGS: Rings = Rings {
    first: 0,
    end: 0,
    times: 0,
};

const SMALL: Plan = Plan {
    cpus: 2,
    capacity: 4_096,
    program: Program::Loop,
};

const LARGE: Plan = Plan {
    cpus: 2,
    capacity: 16_384,
    program: Program::Loop,
};

const ALONE: Plan = Plan {
    cpus: 1,
    capacity: 16_384,
    program: Program::Loop,
};

const RING: Plan = Plan {
    cpus: 2,
    capacity: 16_384,
    program: Program::MailRing,
};

const LIST: Plan = Plan {
    cpus: 2,
    capacity: 16_384,
    program: Program::MailList,
};

const FULL: Plan = Plan {
    cpus: 1,
    capacity: 65,
    program: Program::Loop,
};

const SINGLE: Plan = Plan {
    cpus: 1,
    capacity: 4_096,
    program: Program::Loop,
};

pub(crate) const RING_CASES: [RingCase; 7] = [
    RingCase {
        name: "ten turns of two workers",
        plan: SMALL,
        turns: 10,
        held: 0,
        rings: NO_RINGS,
        shown: 2,
        has_sums: true,
    },
    RingCase {
        name: "one turn of two workers",
        plan: SMALL,
        turns: 1,
        held: 0,
        rings: NO_RINGS,
        shown: 2,
        has_sums: true,
    },
    RingCase {
        name: "a thousand rings of a line of the only processor",
        plan: ALONE,
        turns: 100,
        held: 99,
        rings: Rings {
            first: 9,
            end: 10,
            times: 1_000,
        },
        shown: 0,
        has_sums: false,
    },
    RingCase {
        name: "a thousand rings of a line",
        plan: LARGE,
        turns: 100,
        held: 99,
        rings: Rings {
            first: 9,
            end: 10,
            times: 1_000,
        },
        shown: 0,
        has_sums: false,
    },
    RingCase {
        name: "a ring of each line",
        plan: LARGE,
        turns: 20,
        held: 19,
        rings: Rings {
            first: 0,
            end: 64,
            times: 1,
        },
        shown: 0,
        has_sums: true,
    },
    RingCase {
        name: "a mailbox over a ring",
        plan: RING,
        turns: 100,
        // task 0 has spawned the other by then
        held: 50,
        rings: NO_RINGS,
        shown: 0,
        has_sums: true,
    },
    RingCase {
        name: "a mailbox over a list",
        plan: LIST,
        turns: 100,
        // task 0 has spawned the other by then
        held: 50,
        rings: NO_RINGS,
        shown: 0,
        has_sums: true,
    },
];

pub(crate) const PORT_CASES: [PortCase; 3] = [
    PortCase {
        name: "a worker and 64 commits in a journal of 65 events",
        plan: FULL,
        workers: 1,
        held: 0,
        breaks: false,
        commits: 64,
        shown: &[0, 1],
    },
    PortCase {
        name: "the same beside a worker of a processor that is not there",
        plan: FULL,
        workers: 2,
        held: 0,
        breaks: false,
        commits: 64,
        shown: &[0, 2],
    },
    PortCase {
        name: "a breakpoint before the fifth turn",
        plan: SINGLE,
        workers: 1,
        held: 4,
        breaks: true,
        commits: 0,
        shown: &[0, 1],
    },
];
