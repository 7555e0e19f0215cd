//! What help teaches behind the words of the command line.

/// Behind the help of the program.
pub(crate) const PROGRAM_HELP: &str = "\
Standard error says what went wrong, as NAME:LINE: and a message; a script's name is script.
`evltool help COMMAND` describes a command, docs/FORMATS.md all of them.

Statuses:
  0  all is done
  1  a line, a journal or a source is bad or refused, or memory ran out
  2  the command line is wrong
  3  the file is no image
  4  a file can't be opened, or a read or a write failed

Example:
  evltool asm sum.s sum.elf
  evltool run sum.elf < sum.script";

/// Behind the help of `asm`.
pub(crate) const ASM_HELP: &str = "\
A source has a statement on each line: labels, RV64I instructions, directives, # comments.
If it has a fault, OUT is left empty. If OUT is SRC, the source is lost. Standard error says so.

Statuses: 0 done, 1 a fault of the source, 2 wrong words, 4 a file can't be read or written

Example:
  loop:  addi a0,a0,1
         j loop";

/// Behind the help of `run`.
pub(crate) const RUN_HELP: &str = "\
A script is read from standard input to its end, and then runs. It is ASCII text: one command a
line, one blank between words. C is a processor, L an interrupt line, R a register, T a task, I a
device, all in decimal below 256; N is a count in decimal; A is an address and V a value, in
lower-case hexadecimal without 0x; HEX is 1 to 64 bytes of two digits each. No number has leading
zeros.

The first line:
  boot P RAM CAP  boots P processors (1 to 8), RAM bytes (65536 to 16777216, a multiple of 4096)
                  and a journal of CAP events (1 to 1048576); loads IMAGE
  boot P RAM CAP W
                  the same with a watchdog, which demotes an out-of-band task that a processor runs
                  for W ticks (1 to 1000000; 0 is no watchdog)

RAM begins at 80000000. Task 0 starts on processor 0, in-band and without a class: its pc is the
image's entry (80000000 without an image), x2 is the end of RAM, the other registers are 0.

Commands:
  step C N        N steps of processor C, 1 to 1048576; each is one of the CAP events, also of an
                  idle or a stopped processor
  tick            the clock ticks: line 0 is raised on every processor
  raise C L       raises line L (0 to 63) on processor C
  bell C L        like raise; an interrupt that a worker thread took from its bell
  stop C          stops processor C: its steps do nothing until go, which standard error says
  go C            lets it go on, past a breakpoint at its pc
  stepi C         one step of a stopped processor
  set C R V       sets a register (1 to 31) of the current task of a stopped processor
  setpc C V       sets its pc, a multiple of 4
  poke A HEX      writes bytes into RAM
  break A         sets a breakpoint, which stops a processor before the instruction at A
  unbreak A       takes it away
  # TEXT          a comment; empty lines are skipped too

Views:
  regs C          the registers of the current task
  mem A N         N bytes of RAM, at most 64
  stages C        both stages: what runs, what is stalled, what waits in which log
  tasks           each task: T cpu C CLASS P STATE pc X
                  CLASS none, fifo, rr or weak; P its own priority;
                  STATE in-ready, in-wait L, oob-ready, lock M, semaphore S, event E,
                  flags F, timer N, sleep, exit, or fault with its number
  owners          each mutex, its owner and how often it is locked
  rank T          the rank of a task, with what its mutexes give it
  notices         the notices of the health monitor: the tick, the task, the number
  counts C L      how often a line was raised, merged, received and played
  journal         the journal, for replay
  console         the bytes that programs wrote
  words I         the words of device I: 0 is a console, 1 a mailbox, 2 pins

EBREAK stops the processor behind the instruction. fault 0: the target of a jump is no multiple
of 4; 1: fetch outside RAM; 2: not an RV64I instruction; 5, 7: load, store outside RAM. Standard
error names each line step C N whose processor is stopped, and at the end each task that ended by
a fault.

Statuses: 0 done, 1 a line is bad or refused, 2 wrong words, 3 no image, 4 a failed read or write

Example:
  boot 1 65536 64
  poke 80000000 13055000
  step 0 1
  regs 0";

/// Behind the help of `replay`.
pub(crate) const REPLAY_HELP: &str = "\
A journal is what the view journal of a script prints:
  evl-journal 3
  boot P RAM CAP W
and then a line for each event, in the words of scripts; consecutive steps of one processor are one
line. It has no comments, no views and no empty lines. Shown are the views stages C of each
processor, tasks and owners. Journals of versions 1 and 2 are replayed too: they have no W, lines 0
to 31, and in version 1 no call 55. For the journal of a run without IMAGE, assemble an empty
source.

Statuses: 0 done, 1 a line is bad or refused, 2 wrong words, 3 no image, 4 a failed read or write

Example:
  evltool replay sum.elf sum.journal";

/// Behind the help of `threads`.
pub(crate) const THREADS_HELP: &str = "\
Two processors with 1048576 bytes of RAM run the program, each driven by a thread of its own. In
each of TURNS turns a thread takes the lines that were rung at its processor's bell, puts a bell
event for each into the journal, and makes one step. Line 8 of both processors is rung before the
first turn. Standard output gets the journal, as the view journal of a script prints it; evltool
replay takes it. In which order the threads come differs from run to run.

Statuses: 0 done, 1 the image or memory is refused, 2 wrong words, 3 no image, 4 a failed read or
write

Example:
  evltool threads loop.elf 10 > loop.journal
  evltool replay loop.elf loop.journal";
