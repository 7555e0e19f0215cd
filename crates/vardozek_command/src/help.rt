//! What help teaches behind the words of the command line.

/// Behind the help of the program.
pub(crate) const PROGRAM_HELP: &str = "\
Standard error says what went wrong, as NAME:LINE: and a message. `vardozek help WORD` describes a
word, and man vardozek all of them.

Example:
  evltool run sum.elf < sum.script > sum.journal
  vardozek view sum.elf sum.journal sum.svg
  vardozek hunt queue.elf --out queue";

/// Behind the help of `run`.
pub(crate) const RUN_HELP: &str = "\
In a round each processor that has something to do makes a step. Where none has, the rounds up to
the next tick or line are skipped. Standard output gets what the program puts to its consoles.
Standard error says how the run ended, and if tasks are left who runs, who waits and who owns.

The run ends when all tasks have ended, at an EBREAK, at a fault, at a deadlock, or when the
journal has no room: after 1048576 events, or those of --until. --until idle ends it where no
processor has anything to do. With --script all lines of a script are done, as evltool run does
them, and then it is said how the machine stands; views go to standard error.

Statuses:
  0  all tasks have ended by exit
  1  the run ended in another way, a line of a script or a map is bad or refused, or memory ran out
  2  the command line is wrong
  3  IMAGE is no image
  4  a file can't be opened, or a read or a write failed

Example:
  vardozek run tutorial_mended.elf --journal tutorial.journal
  vardozek view --run tutorial_mended.elf tutorial.svg";

/// Behind the help of `view`.
pub(crate) const VIEW_HELP: &str = "\
OUT gets an SVG picture, which any browser shows. If OUT is -, the picture goes to standard output.
Of a long run neighbouring events are drawn in one column: cut a window by --from and --to, each an
event's number, tick:N, or mark:TEXT for the first event of which TEXT is told.
If the name of OUT ends in .html, it gets a page in place of the picture: the whole run, which a
browser zooms, searches and explains. It opens at the events of --from and --to. docs/TOOLS.md
describes both.

Statuses:
  0  the picture, the page or the text is written
  1  a journal is bad or refused, or memory ran out; diff: the journals part
  2  the command line is wrong
  3  IMAGE is no image
  4  a file can't be opened, or a read or a write failed

Example:
  evltool run sum.elf < sum.script > sum.journal
  vardozek view sum.elf sum.journal sum.svg
  vardozek view sum.elf sum.journal sum.html
  vardozek view --text --from 20 --to 60 sum.elf sum.journal
  vardozek view diff sum.elf sum.journal other.journal";

/// Behind the help of `view diff`.
pub(crate) const DIFF_HELP: &str = "\
Prints the number of the first event of JOURNAL that OTHER doesn't have there, and both events. OUT
gets a picture of JOURNAL in which it is marked, or a page of both if its name ends in .html; with
--text it is marked in characters.

Statuses:
  0  the journals are alike
  1  they part, a journal is bad or refused, or memory ran out
  2  the command line is wrong
  3  IMAGE is no image
  4  a file can't be opened, or a read or a write failed";

/// Behind the help of `trace`.
pub(crate) const TRACE_HELP: &str = "\
OUT gets Chrome trace events, one a line: open it in https://ui.perfetto.dev. If OUT is -, the trace
goes to standard output. A microsecond of the trace is one event of the journal, a Step (--clock
steps) or a thousandth of a tick (--clock ticks). If the journal is bad, OUT has a part of a trace.
docs/TOOLS.md describes the tracks.

Statuses:
  0  the trace is written
  1  the journal is bad or refused, or memory ran out
  2  the command line is wrong
  3  IMAGE is no image
  4  a file can't be opened, or a read or a write failed

Example:
  evltool run sum.elf < sum.script > sum.journal
  vardozek trace sum.elf sum.journal sum.json";

/// Behind the help of `gdb`.
pub(crate) const GDB_HELP: &str = "\
GDB starts the program and talks to it over its standard streams:

    gdb-multiarch -ex 'target extended-remote | vardozek gdb prog.elf' prog.elf

Each task is a thread: task T is thread T + 1. `run` and `load` boot anew with the
file that IMAGE is now. `monitor help` in GDB lists what the monitor takes.
`monitor journal` prints the journal of all that was done, and `evltool replay
IMAGE JOURNAL` replays it.

SCRIPT has lines of evltool run. Its boot line gives the machine, and its views
go to standard error. Without SCRIPT the machine has 2 processors, 16777216 bytes
of RAM and room for 1048576 events.

Status: 0 when GDB has left; 1 if a line of SCRIPT is bad or refused, or memory
is; 2 for a wrong command line; 3 if IMAGE is no image; 4 for a failed file or
stream.";

/// Behind the help of `hunt`.
pub(crate) const HUNT_HELP: &str = "\
A schedule boots, loads IMAGE and makes events: which processor steps next, when the clock ticks,
which of the lines is raised where. A seed chooses them, the same everywhere. A schedule ends at
the first failure that is looked for, when nothing more can happen, or at its bound of events.

Failures:
  ebreak      a processor stops at EBREAK: a failed assertion
  fault       a task ends by a fault
  deadlock    a task waits without a deadline, and none can run again
  notice      a notice of the health monitor: notice-1 a call demoted a task, notice-2 a fault
              did, notice-3 a lock would never end, notice-4 a task unlocked what it doesn't own,
              notice-5 the watchdog demoted a task
  abandoned   a task ends while it has a mutex, which passes on to another task
  demotion    a task goes in-band other than by a call for that
  overrun     a wait for a timer is answered with more than one expiry
  lost        a line of --lines is played in-band where no task waits for it
  stuck       a task does not run for more than 1000 rounds while others do, or --stuck N

A line is printed for each failure when it is found, once for its kind and place: KIND ADDRESS seed
S. At the end each has its shortest schedule: a comment that says how many events, and the script's
lines. The last line counts the schedules, their events, and the schedules that were cut off at
their bound. With --all B a switch is a step of another processor than the one that stepped last, a
tick or a raise, and a schedule's number takes the place of a seed; --runs bounds the schedules.
With --all alone each event that may come is made at each state, up to states that are alike one
that was visited. If the last line doesn't end with cut, and no failure is printed, no schedule
fails, however long it is, of any number of ticks and raises or of at most --ticks N and --raises N.

Statuses: 0 none found, 1 one found, 2 wrong words, 3 no image, 4 a file can't be read or written

Example:
  vardozek hunt queue.elf --pct 2 --runs 500 --out queue
  evltool replay queue.elf queue.journal";
