//! Help.

/// What the command `help` of the shell prints, and what help teaches behind the word `sh`.
pub const SHELL_HELP: &str = "\
The lines are those of scripts, with names where addresses stand, and these:
  each N                    N rounds: a step of each processor
  until ADDRESS             rounds until a processor is at the address; add `within N` for a bound
  until owner M T           until mutex M is task T's
  until state T S           until task T is in-ready, oob-ready, waits, exit or fault
  until errno T             until a call of task T is answered with an errno
  watch ADDRESS             says each change of the 8 bytes there
  show ADDRESS as s64[4]    numbers of RAM: u8 to u64, s8 to s64
  expect VIEW is TEXT       status 1 if the view shows another text; `has` for a part of it
  mark, diff                what has changed since the mark
  where ADDRESS, symbols    names of addresses

An address is hexadecimal or a name, as in break main+8, mem table 32 and set 0 a0 5.
";
