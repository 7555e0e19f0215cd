//! The words of the command line, with what stands behind each. Help comes from this table, and so do the man page and the completions of
//! shells: `.ci/words --write` writes them.

use crate::help::{DIFF_HELP, GDB_HELP, HUNT_HELP, RUN_HELP, TRACE_HELP, VIEW_HELP};
use sh_command::SHELL_HELP;

/// What an option takes.
#[derive(Clone, Copy)]
pub(crate) enum Value {
    /// Nothing.
    Flag,
    /// A text, which help calls so.
    Text(&'static str),
    /// Texts by commas, of which help calls one so.
    Texts(&'static str),
    /// A number, between two others.
    Number(&'static str, u64, u64),
    /// Nothing, or a number between two others.
    Maybe(&'static str, u64, u64),
    /// Two numbers, between two others.
    Two(&'static [&'static str], u64, u64),
    /// A list of numbers between two others, by commas.
    Numbers(&'static str, u64, u64),
    /// One of these names.
    Name(&'static str, &'static [&'static str]),
    /// A list of these names, by commas.
    Names(&'static str, &'static [&'static str]),
}

/// An option.
#[derive(Clone, Copy)]
pub(crate) struct Choice {
    pub(crate) name: &'static str,
    pub(crate) value: Value,
    pub(crate) help: &'static str,
    /// The options that it excludes.
    pub(crate) excludes: &'static [&'static str],
}

/// Whether a word has to stand at its place.
#[derive(Clone, Copy)]
pub(crate) enum Need {
    Always,
    Never,
    /// If an option is not there, which excludes it.
    Without(&'static str),
    /// The same, and if another option is not there either.
    WithoutBoth(&'static str, &'static str),
    /// Never, and an option excludes it.
    NeverWith(&'static str),
    /// If an option is not there.
    Unless(&'static str),
}

/// A word that stands at its place: a file.
#[derive(Clone, Copy)]
pub(crate) struct Place {
    pub(crate) name: &'static str,
    pub(crate) need: Need,
    pub(crate) help: &'static str,
}

/// A word of the command line.
#[derive(Clone, Copy)]
pub(crate) struct Word {
    pub(crate) name: &'static str,
    pub(crate) about: &'static str,
    pub(crate) places: &'static [Place],
    pub(crate) options: &'static [Choice],
    /// Those that may only stand beside `--run`.
    pub(crate) course: &'static [Choice],
    /// What help teaches behind the options.
    pub(crate) help: &'static str,
}

/// What `--help` says of the program.
pub(crate) const ABOUT: &str =
    "Runs programs on the machine that evltool drives, and draws, traces, debugs and hunts in their runs";

const IMAGE: Place = Place {
    name: "IMAGE",
    need: Need::Always,
    help: "The file of the program",
};

const JOURNAL: Place = Place {
    name: "JOURNAL",
    need: Need::Always,
    help: "The file of the journal",
};

const RUN_JOURNAL: Place = Place {
    name: "JOURNAL",
    need: Need::Unless("run"),
    help: "The file of the journal; with --run it is left out, and OUT is next",
};

const FROM: Choice = Choice {
    name: "from",
    value: Value::Text("PLACE"),
    help: "The first event: its number from 0, tick:N or mark:TEXT",
    excludes: &[],
};

const TO: Choice = Choice {
    name: "to",
    value: Value::Text("PLACE"),
    help: "The event behind the last; of mark:TEXT the last",
    excludes: &[],
};

const TEXT: Choice = Choice {
    name: "text",
    value: Value::Flag,
    help: "Writes it in characters to standard output",
    excludes: &[],
};

const MAP: Choice = Choice {
    name: "map",
    value: Value::Text("FILE"),
    help: "Names and lines of sources, as kit/map writes them [default: beside IMAGE]",
    excludes: &[],
};

const MUTEXES: Choice = Choice {
    name: "mutexes",
    value: Value::Flag,
    help: "Adds a lane for each mutex",
    excludes: &[],
};

const BESIDE: Choice = Choice {
    name: "beside",
    value: Value::Text("OTHER"),
    help: "A journal whose run the page shows beside the other",
    excludes: &["text"],
};

const CPUS: Choice = Choice {
    name: "cpus",
    value: Value::Number("N", 1, 8),
    help: "Processors [default: 2]",
    excludes: &[],
};

const RAM: Choice = Choice {
    name: "ram",
    value: Value::Number("BYTES", 65_536, 16_777_216),
    help: "Bytes of RAM [default: what the image is linked for, or 16777216]",
    excludes: &[],
};

const WATCHDOG: Choice = Choice {
    name: "watchdog",
    value: Value::Number("W", 0, 1_000_000),
    help: "Demotes an out-of-band task that W ticks in a row find running [default: 0, never]",
    excludes: &[],
};

const TICKS: Choice = Choice {
    name: "ticks",
    value: Value::Number("N", 0, 1_048_576),
    help: "The clock ticks every N rounds, with 0 only where all wait for it [default: 1000]",
    excludes: &[],
};

const LINES: Choice = Choice {
    name: "lines",
    value: Value::Texts("L@N,.."),
    help: "Line L is raised on processor 0 every N rounds, without @N with each tick",
    excludes: &[],
};

const SEED: Choice = Choice {
    name: "seed",
    value: Value::Number("S", 0, 18_446_744_073_709_551_614),
    help: "Draws which processor steps next; without it each steps in turn",
    excludes: &[],
};

const UNTIL: Choice = Choice {
    name: "until",
    value: Value::Text("END"),
    help: "exit, idle or a number of events at most [default: exit]",
    excludes: &[],
};

const SCRIPT: Choice = Choice {
    name: "script",
    value: Value::Text("FILE"),
    help: "Runs by the lines of a script, in the place of all that",
    excludes: &["cpus", "ram", "watchdog", "ticks", "lines", "seed", "until"],
};

const BY_RUN: Choice = Choice {
    name: "run",
    value: Value::Flag,
    help: "Runs IMAGE as `vardozek run` does, in the place of a journal",
    excludes: &[],
};

/// `run`.
pub(crate) const RUN: Word = Word {
    name: "run",
    about: "Runs a program until its tasks have ended",
    places: &[IMAGE],
    options: &[
        CPUS,
        RAM,
        WATCHDOG,
        TICKS,
        LINES,
        SEED,
        UNTIL,
        SCRIPT,
        Choice {
            name: "journal",
            value: Value::Text("OUT"),
            help: "Writes the journal",
            excludes: &[],
        },
        MAP,
    ],
    course: &[],
    help: RUN_HELP,
};

/// `view`.
pub(crate) const VIEW: Word = Word {
    name: "view",
    about: "Draws the run of a journal, or of a program",
    places: &[
        IMAGE,
        RUN_JOURNAL,
        Place {
            name: "OUT",
            need: Need::WithoutBoth("text", "run"),
            help: "The file that the picture is written to; of a name that ends in .html, the page",
        },
    ],
    options: &[FROM, TO, TEXT, MUTEXES, BESIDE, MAP, BY_RUN],
    course: &[CPUS, RAM, WATCHDOG, TICKS, LINES, SEED, UNTIL, SCRIPT],
    help: VIEW_HELP,
};

/// `view diff`.
pub(crate) const DIFF: Word = Word {
    name: "diff",
    about: "Shows where two journals part",
    places: &[
        IMAGE,
        JOURNAL,
        Place {
            name: "OTHER",
            need: Need::Always,
            help: "The file of another journal",
        },
        Place {
            name: "OUT",
            need: Need::NeverWith("text"),
            help: "The file that a picture is written to",
        },
    ],
    options: &[FROM, TO, TEXT, MUTEXES, MAP],
    course: &[],
    help: DIFF_HELP,
};

/// `trace`.
pub(crate) const TRACE: Word = Word {
    name: "trace",
    about: "Writes the run of a journal, or of a program, as a trace",
    places: &[
        IMAGE,
        RUN_JOURNAL,
        Place {
            name: "OUT",
            need: Need::Unless("run"),
            help: "The file that the trace is written to",
        },
    ],
    options: &[
        Choice {
            name: "clock",
            value: Value::Name("CLOCK", &["events", "steps", "ticks"]),
            help: "What a microsecond of the trace counts [default: events]",
            excludes: &[],
        },
        MAP,
        BY_RUN,
    ],
    course: &[CPUS, RAM, WATCHDOG, TICKS, LINES, SEED, UNTIL, SCRIPT],
    help: TRACE_HELP,
};

/// `gdb`.
pub(crate) const GDB: Word = Word {
    name: "gdb",
    about: "A machine under GDB, over standard input and output",
    places: &[
        IMAGE,
        Place {
            name: "SCRIPT",
            need: Need::Never,
            help: "The file of a script that is run first",
        },
    ],
    options: &[MAP],
    course: &[],
    help: GDB_HELP,
};

/// `sh`.
pub(crate) const SHELL: Word = Word {
    name: "sh",
    about: "A shell over the machine: scripts with names, and answers in words",
    places: &[
        IMAGE,
        Place {
            name: "FILE",
            need: Need::Never,
            help: "The file of the lines; standard input if none is named",
        },
    ],
    options: &[
        Choice {
            name: "script",
            value: Value::Text("OUT"),
            help: "Writes the lines of a script that were done, which evltool run repeats",
            excludes: &[],
        },
        Choice {
            name: "journal",
            value: Value::Text("OUT"),
            help: "Writes the journal",
            excludes: &[],
        },
        Choice {
            name: "junit",
            value: Value::Text("OUT.xml"),
            help: "Writes a test suite, a case for each line expect, with the files of --journal and --script",
            excludes: &[],
        },
        MAP,
    ],
    course: &[],
    help: SHELL_HELP,
};

/// `hunt`.
pub(crate) const HUNT: Word = Word {
    name: "hunt",
    about: "Looks for a schedule in which a program fails",
    places: &[IMAGE],
    options: &[
        Choice {
            name: "random",
            value: Value::Flag,
            help: "Chooses each step at random; without it, by turns of the seed at random and by priorities",
            excludes: &["pct"],
        },
        Choice {
            name: "pct",
            value: Value::Number("D", 1, 32),
            help: "Chooses by priorities with D change points",
            excludes: &[],
        },
        Choice {
            name: "all",
            value: Value::Maybe("B", 0, 16),
            help: "Looks at every schedule with at most B switches; without B at every schedule",
            excludes: &["pct", "random", "seeds"],
        },
        Choice {
            name: "ticks",
            value: Value::Number("N", 0, 1_000_000),
            help: "Ticks of a schedule at most, with --all without B [default: any number]",
            excludes: &["runs"],
        },
        Choice {
            name: "raises",
            value: Value::Number("N", 0, 1_000_000),
            help: "Raises of a schedule at most, with --all without B [default: any number]",
            excludes: &["runs"],
        },
        Choice {
            name: "states",
            value: Value::Number("N", 1, 100_000_000),
            help: "States at most, with --all without B [default: 1000000]",
            excludes: &["runs"],
        },
        Choice {
            name: "cpus",
            value: Value::Number("N", 1, 8),
            help: "Processors [default: 2]",
            excludes: &[],
        },
        Choice {
            name: "ram",
            value: Value::Number("BYTES", 65_536, 16_777_216),
            help: "Bytes of RAM [default: what the image is linked for, or 65536]",
            excludes: &[],
        },
        Choice {
            name: "watchdog",
            value: Value::Number("W", 0, 1_000_000),
            help: "The watchdog demotes a task after W ticks [default: 0, none]",
            excludes: &[],
        },
        Choice {
            name: "events",
            value: Value::Number("N", 1, 1_048_576),
            help: "Events of a schedule at most [default: 10000]",
            excludes: &[],
        },
        Choice {
            name: "runs",
            value: Value::Number("N", 1, 4_294_967_295),
            help: "Schedules, of the seeds from 0 on",
            excludes: &[],
        },
        Choice {
            name: "time",
            value: Value::Text("TIME"),
            help: "Begins no schedule after this time, as 90s, 5m or 2h [default: 5s, without --runs, --seeds and --all]",
            excludes: &[],
        },
        Choice {
            name: "seeds",
            value: Value::Two(&["FROM", "TO"], 0, 18_446_744_073_709_551_614),
            help: "The first and the last seed",
            excludes: &["runs"],
        },
        Choice {
            name: "lines",
            value: Value::Numbers("L,..", 2, 63),
            help: "Lines that a schedule raises",
            excludes: &[],
        },
        Choice {
            name: "fail",
            value: Value::Names("NAME,..", FAILURES),
            help: "Failures to look for [default: ebreak,fault,deadlock]",
            excludes: &[],
        },
        Choice {
            name: "errno",
            value: Value::Names("NAME,..", ERRNOS),
            help: "Errors of calls to look for",
            excludes: &[],
        },
        Choice {
            name: "order",
            value: Value::Flag,
            help: "Looks for locks whose order closes a cycle over all schedules",
            excludes: &[],
        },
        Choice {
            name: "out",
            value: Value::Text("NAME"),
            help: "Writes NAME.journal and NAME.script of the shortest",
            excludes: &[],
        },
        Choice {
            name: "junit",
            value: Value::Text("OUT.xml"),
            help: "Writes a test suite, a case for each kind of failure, with a journal and a script beside it",
            excludes: &[],
        },
        MAP,
        Choice {
            name: "held",
            value: Value::Number("N", 0, 1_048_576),
            help: "Looks for a mutex that one task has for more than N ticks",
            excludes: &[],
        },
        Choice {
            name: "inversion",
            value: Value::Two(&["R", "N"], 0, 1_048_576),
            help: "Looks for a task of a rank above R that one of a lower rank keeps back for more than N steps",
            excludes: &[],
        },
        Choice {
            name: "stuck",
            value: Value::Number("N", 1, 1_048_576),
            help: "Looks for a task that does not run for more than N rounds while others do",
            excludes: &[],
        },
    ],
    course: &[],
    help: HUNT_HELP,
};

/// The names of failures.
const FAILURES: &[&str] = &[
    "ebreak",
    "fault",
    "deadlock",
    "notice",
    "notice-1",
    "notice-2",
    "notice-3",
    "notice-4",
    "notice-5",
    "abandoned",
    "demotion",
    "overrun",
    "lost",
    "stuck",
];

/// The names of errors.
const ERRNOS: &[&str] = &[
    "eperm",
    "esrch",
    "eagain",
    "enomem",
    "ebusy",
    "einval",
    "edeadlk",
    "enosys",
    "etimedout",
];
