//! The message of a refused line: the number that is out of range, with its limits.

use crate::fault::refusal_message;
use crate::lookup::{last_interrupt, ram_of};
use evm_debug::{Boot, Event, Line, Refusal, View};
use evm_model::{CAPACITY_LIMIT, POKE_LIMIT, PROCESSOR_LIMIT, RAM_LEAST, RAM_UNIT};
use evm_ram::{BASE, Image, SIZE_LIMIT, Segment};
use evm_streams::{Message, Numeral};

fn bad_cpus(cpus: u64) -> bool {
    cpus == 0 || cpus > PROCESSOR_LIMIT as u64
}

fn bad_ram(ram: u64) -> bool {
    ram < RAM_LEAST || ram > SIZE_LIMIT || ram % RAM_UNIT != 0
}

fn bad_capacity(capacity: u64) -> bool {
    capacity == 0 || capacity > CAPACITY_LIMIT
}

// The first number of a boot line that is outside its limits.
fn boot_detail(boot: &Boot) -> Message {
    if bad_cpus(boot.cpus) {
        Message::WithOne(
            "refused: P is ",
            Numeral::Decimal(boot.cpus),
            ": 1 to 8 processors (BadSize, 10)",
        )
    } else if bad_ram(boot.ram) {
        Message::WithOne(
            "refused: RAM is ",
            Numeral::Decimal(boot.ram),
            ": 65536 to 16777216 bytes in multiples of 4096 (BadSize, 10)",
        )
    } else if bad_capacity(boot.capacity) {
        Message::WithOne(
            "refused: CAP is ",
            Numeral::Decimal(boot.capacity),
            ": 1 to 1048576 events (BadSize, 10)",
        )
    } else {
        Message::WithOne(
            "refused: W is ",
            Numeral::Decimal(boot.watchdog),
            ": 1 to 1000000 ticks, or 0 for no watchdog (BadSize, 10)",
        )
    }
}

fn size_detail(line: Option<&Line>) -> Message {
    match line {
        Some(Line::Boot(boot)) => boot_detail(boot),
        Some(Line::Blank | Line::Steps(_, _) | Line::One(_) | Line::Show(_)) | None => {
            refusal_message(None, Refusal::BadSize)
        }
    }
}

// The address behind the last byte of RAM.
fn ram_end(ram: u64) -> u64 {
    BASE.wrapping_add(ram)
}

// The address behind the last byte of a segment.
fn segment_end(segment: &Segment) -> u64 {
    segment.address().wrapping_add(segment.memsz())
}

fn ends_past(end: u64, segment: &Segment) -> bool {
    segment.memsz() != 0 && end < segment_end(segment)
}

// The end of the first segment that has a byte past RAM.
fn segment_past(end: u64, segments: &[Segment]) -> Option<u64> {
    let mut rest = segments;
    'segments: while let [segment, after @ ..] = rest {
        if ends_past(end, segment) {
            return Some(segment_end(segment));
        }
        rest = after;
    }
    None
}

fn image_past(end: u64, image: Option<&Image>) -> Option<u64> {
    match image {
        Some(image) => segment_past(end, image.segments()),
        None => None,
    }
}

fn past_detail(end: u64, last: Option<u64>) -> Message {
    match last {
        Some(last) => Message::WithTwo(
            "refused: the image ends at ",
            Numeral::Hexadecimal(last),
            ", past the end of RAM, ",
            Numeral::Hexadecimal(end),
            "; boot with more RAM (BadAddress, 6)",
        ),
        None => refusal_message(None, Refusal::BadAddress),
    }
}

fn misaligned(front: &'static str, address: u64) -> Message {
    Message::WithOne(
        front,
        Numeral::Hexadecimal(address),
        " is not a multiple of 4 (BadAddress, 6)",
    )
}

fn outside(front: &'static str, address: u64, end: u64) -> Message {
    Message::WithTwo(
        front,
        Numeral::Hexadecimal(address),
        " is outside RAM, 80000000..",
        Numeral::Hexadecimal(end),
        " (BadAddress, 6)",
    )
}

fn breakpoint_detail(address: u64, end: u64) -> Message {
    if address % 4 == 0 {
        outside("refused: the breakpoint ", address, end)
    } else {
        misaligned("refused: the breakpoint ", address)
    }
}

fn event_detail(end: u64, event: &Event) -> Message {
    match event {
        Event::SetPc(_, pc) => misaligned("refused: the pc ", *pc),
        Event::Break(address) | Event::Unbreak(address) => breakpoint_detail(*address, end),
        Event::Poke(address, _) => outside("refused: a byte of the poke at ", *address, end),
        Event::Step(_)
        | Event::Tick
        | Event::Raise(_, _)
        | Event::Bell(_, _)
        | Event::Stop(_)
        | Event::Go(_)
        | Event::StepI(_)
        | Event::SetReg(_, _, _) => refusal_message(None, Refusal::BadAddress),
    }
}

fn mem_detail(address: u64, count: u64, end: u64) -> Message {
    if count == 0 {
        Message::Plain("refused: mem shows 1 to 64 bytes, and 0 are asked for (BadAddress, 6)")
    } else if count > POKE_LIMIT as u64 {
        Message::WithOne(
            "refused: mem shows 1 to 64 bytes, and ",
            Numeral::Decimal(count),
            " are asked for (BadAddress, 6)",
        )
    } else {
        outside("refused: a byte of the mem at ", address, end)
    }
}

fn view_detail(end: u64, view: &View) -> Message {
    match view {
        View::Mem(address, count) => mem_detail(*address, *count, end),
        View::Regs(_)
        | View::Stages(_)
        | View::Tasks
        | View::Owners
        | View::Rank(_)
        | View::Counts(_, _)
        | View::Journal
        | View::Console
        | View::Notices
        | View::Words(_) => refusal_message(None, Refusal::BadAddress),
    }
}

// What is out of range on a line, where RAM has this many bytes.
fn address_detail(image: Option<&Image>, ram: u64, line: Option<&Line>) -> Message {
    match line {
        Some(Line::Boot(boot)) => {
            let end = ram_end(boot.ram);
            past_detail(end, image_past(end, image))
        }
        Some(Line::One(event)) => event_detail(ram_end(ram), event),
        Some(Line::Show(view)) => view_detail(ram_end(ram), view),
        Some(Line::Blank | Line::Steps(_, _)) | None => {
            refusal_message(None, Refusal::BadAddress)
        }
    }
}

// Where there is no slot: a breakpoint too many, or a device that is not there.
fn slot_detail(line: Option<&Line>) -> Message {
    match line {
        Some(Line::Show(View::Words(i))) => Message::WithOne(
            "refused: there is no device ",
            Numeral::Decimal(u64::from(*i)),
            " (NoSlot, 8)",
        ),
        _ => refusal_message(None, Refusal::NoSlot),
    }
}

// The interrupt line that a line of a text names.
fn interrupt_of(line: Option<&Line>) -> Option<u8> {
    match line {
        Some(Line::One(Event::Raise(_, number) | Event::Bell(_, number))) => Some(*number),
        Some(Line::Show(View::Counts(_, number))) => Some(*number),
        _ => None,
    }
}

// An interrupt line that the machine lacks.
fn interrupt_detail(text: &[u8], line: Option<&Line>) -> Message {
    match interrupt_of(line) {
        Some(number) => Message::WithTwo(
            "refused: there is no interrupt line ",
            Numeral::Decimal(u64::from(number)),
            ", only 0 to ",
            Numeral::Decimal(u64::from(last_interrupt(text))),
            " (NoSuchLine, 3)",
        ),
        None => refusal_message(None, Refusal::NoSuchLine),
    }
}

/// The message of a refused line of a text, whose machine boots with the image, if there is one.
pub(crate) fn refusal_detail(
    image: Option<&Image>,
    text: &[u8],
    line: Option<&Line>,
    cpu: Option<u8>,
    refusal: Refusal,
) -> Message {
    match refusal {
        Refusal::BadSize => size_detail(line),
        Refusal::BadAddress => address_detail(image, ram_of(text), line),
        Refusal::NoSlot => slot_detail(line),
        Refusal::NoSuchLine => interrupt_detail(text, line),
        _ => refusal_message(cpu, refusal),
    }
}
