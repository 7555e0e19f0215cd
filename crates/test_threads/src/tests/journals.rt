//! What `threads_to` writes of an endless loop: the journal is read, replayed, and looked at event by event.

ghost use Rattle.std.specs.Prelude.{◌≡◌, ◌<◌, ◌≤◌, length};

use evm_command::{RunEnding, program_devices, threads_to};
use evm_devs::AnyDevice;
use evm_elf::{read_image, write_bytes};
use evm_journal::{Answer, Devices, Event, EventLine, Journal, Machine, read_history};
use evm_ram::Image;
use evm_shared::{BlankHistory, Blanks};
use evm_streams::{Cause, WriteFault};
use std::alloc::Global;
use std::io::{self, Error, ErrorKind, Write};
use std::process::Abort;
use std::sync::ledger::Blank;
use std::test::Fail;

fn blanks() -> Blanks
    ensures { (result.steps.parts ≡ 2) × (result.bells.parts ≡ 2) × (result.others.parts ≡ 2) }
{
    Blanks {
        steps: Blank::new(2),
        bells: Blank::new(2),
        others: Blank::new(2),
        history: BlankHistory::new(),
    }
}

/// `j .`: jal x0, 0.
const LOOP: [u8; 4] = [0x6f, 0, 0, 0];

// The devices of the program.
fn devices(alloc: Global) -> Result<Devices<AnyDevice>, Fail> {
    match program_devices(alloc) {
        Ok(devices) => Ok(devices),
        Err(_) => Err(Fail::from("no memory for devices")),
    }
}

// An image of these bytes, which begins with the first of them.
fn image(alloc: Global, bytes: &[u8]) -> Result<Image, Fail>
    requires { length bytes.now ≤ 16777216 }
{
    let Ok(file) = write_bytes(alloc, bytes) else {
        return Err(Fail::from("no memory for a file"));
    };
    match read_image(alloc, file.as_slice()) {
        Ok(image) => Ok(image),
        Err(_) => Err(Fail::from("the file is no image")),
    }
}

/// What the journal has of a processor.
#[derive(Clone, Copy, Debug, PartialEq, Eq)]
struct Tally {
    bells: u32,
    received: u32,
    steps: u32,
}

const NOTHING: Tally = Tally {
    bells: 0,
    received: 0,
    steps: 0,
};

// One bell, which was received by the first of these steps.
fn after_steps(steps: u32) -> Tally {
    Tally {
        bells: 1,
        received: 1,
        steps,
    }
}

// Steps of a processor are made once more: its first receives line 8, behind its bell.
fn count_steps(
    rt: &impl Abort,
    machine: &mut Machine<AnyDevice>,
    tally: &mut Tally,
    cpu: u8,
    count: u32,
) {
    let mut left = count;
    if tally.steps == 0 {
        let answer = machine.apply(Event::Step(cpu));
        assert_eq!(rt; answer, Ok(Answer::Received(8)));
        assert_eq!(rt; tally.bells, 1);
        tally.received = 1;
        left = left.saturating_sub(1);
    }
    let made = machine.steps(cpu, left);
    assert_eq!(rt; made, Ok(()));
    tally.steps = tally.steps.saturating_add(count);
}

// The bell of a processor is made once more, before its steps.
fn count_bell(
    rt: &impl Abort,
    machine: &mut Machine<AnyDevice>,
    tally: &mut Tally,
    cpu: u8,
    line: u8,
) {
    assert_eq!(rt; line, 8);
    assert_eq!(rt; *tally, NOTHING);
    let answer = machine.apply(Event::Bell(cpu, line));
    assert_eq!(rt; answer, Ok(Answer::Done));
    tally.bells = 1;
}

// Where the count of a processor stands.
fn place(cpu: u8) -> usize
    ensures { result < 2 }
{
    if cpu == 1 { 1 } else { 0 }
}

// Plays the lines of a journal, and counts their events.
fn replay(rt: &impl Abort, machine: &mut Machine<AnyDevice>, journal: &Journal) -> [Tally; 2] {
    let mut tallies = [NOTHING; 2];
    for i in 0..journal.line_count() {
        match journal.line(i) {
            Some(EventLine::Steps(cpu, count)) => {
                count_steps(rt, machine, &mut tallies[place(cpu)], cpu, count);
            }
            Some(EventLine::One(Event::Bell(cpu, line))) => {
                count_bell(rt, machine, &mut tallies[place(cpu)], cpu, line);
            }
            _ => assert!(rt; false, "no other event is made"),
        }
    }
    tallies
}

// The text is a journal, and each processor made its turns in it.
fn looks_right(rt: &impl Abort, alloc: Global, text: &[u8], turns: u32) -> Result<(), Fail> {
    let Ok(text) = std::str::from_utf8(text) else {
        return Err(Fail::from("the text is no text"));
    };
    let Ok((boot, journal)) = read_history(alloc, text) else {
        return Err(Fail::from("the text is no journal"));
    };
    let Ok(mut machine) = Machine::from_boot(alloc, boot, devices(alloc)?) else {
        return Err(Fail::from("the boot is refused"));
    };
    let Ok(()) = machine.load(&image(alloc, &LOOP)?) else {
        return Err(Fail::from("the image is refused"));
    };
    let tallies = replay(rt, &mut machine, &journal);
    // the first turn makes one Step; each other makes 64 of processor 0 and one more, and one of processor 1, which has no task
    let busy = turns.saturating_sub(1).saturating_mul(65);
    let wanted = [after_steps(busy.saturating_add(1)), after_steps(turns)];
    assert_eq!(rt; tallies, wanted);
    Ok(())
}

#[test]
fn journals_of_loops_are_replayed(rt: HostRuntime) -> Result<(), Fail> {
    let alloc = rt.alloc();
    for turns in [1, 10, 8000] {
        let mut out = Vec::new(alloc);
        let ending = threads_to(
            &rt,
            alloc,
            &image(alloc, &LOOP)?,
            turns,
            devices(alloc)?,
            blanks(),
            &mut out,
        );
        assert_eq!(rt; ending, RunEnding::Written);
        assert_eq!(rt; ending.status(), 0);
        looks_right(&rt, alloc, out.as_slice(), turns)?;
    }
    Ok(())
}

// RAM has 1,048,576 bytes.
#[test]
fn an_image_past_ram_is_refused(rt: HostRuntime) -> Result<(), Fail> {
    let alloc = rt.alloc();
    let bytes = vec![in alloc; 0u8; 1_048_577]?;
    let mut out = Vec::new(alloc);
    let ending = threads_to(
        &rt,
        alloc,
        &image(alloc, bytes.as_slice())?,
        1,
        devices(alloc)?,
        blanks(),
        &mut out,
    );
    assert_eq!(rt; ending, RunEnding::ImageRefused);
    assert_eq!(rt; ending.status(), 1);
    assert_eq!(rt; out.as_slice(), b"refused 2 6\n".as_slice());
    Ok(())
}

/// Takes no byte.
#[derive(Drop)]
struct Broken;

impl Write for Broken {
    fn write(&mut self, _buf: &[u8]) -> io::Result<usize> {
        Err(Error::from(ErrorKind::BrokenPipe))
    }

    fn flush(&mut self) -> io::Result<()> {
        Ok(())
    }
}

#[test]
fn a_failed_write_ends_with_status_4(rt: HostRuntime) -> Result<(), Fail> {
    let alloc = rt.alloc();
    let ending = threads_to(
        &rt,
        alloc,
        &image(alloc, &LOOP)?,
        1,
        devices(alloc)?,
        blanks(),
        &mut Broken,
    );
    let fault = WriteFault {
        cause: Cause::BrokenPipe,
    };
    assert_eq!(rt; ending, RunEnding::WriteFailed(fault));
    assert_eq!(rt; ending.status(), 4);
    Ok(())
}
