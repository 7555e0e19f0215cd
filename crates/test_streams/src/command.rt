//! Command lines over a system that is not there: files that can't be opened or created, and streams that fail.

use evm_command::{answer, program_devices};
use evm_host::{OpenFault, System, World};
use std::alloc::Global;
use std::cell::Cell;
use std::io::{self, Error, ErrorKind, Read, Write};
use std::process::Abort;
use std::sync::Wait;
use std::test::Fail;
use std::thread::Threads;

mod messages;

/// Gives at most seven bytes at a call, and fails after `calls` calls; or gives bytes without an end.
#[derive(Drop)]
struct Reader<'a> {
    rest: &'a [u8],
    calls: usize,
    endless: bool,
}

impl Read for Reader<'_> {
    fn read(&mut self, buf: &mut [u8]) -> io::Result<usize> {
        if self.endless {
            buf.fill(b'#');
            return Ok(buf.len());
        }
        if self.calls == 0 {
            return Err(Error::from(ErrorKind::Interrupted));
        }
        self.calls -= 1;
        let mut part = &self.rest[..self.rest.len().min(7)];
        let count = part.read(buf)?;
        self.rest = &self.rest[count.min(self.rest.len())..];
        Ok(count)
    }
}

/// Counts the bytes that it takes, and fails once it has no room left.
#[derive(Drop)]
struct Writer<'a> {
    taken: &'a Cell<usize>,
    room: usize,
}

impl Write for Writer<'_> {
    fn write(&mut self, buf: &[u8]) -> io::Result<usize> {
        let count = buf.len().min(self.room);
        if count == 0 {
            return Err(Error::from(ErrorKind::Other));
        }
        self.room -= count;
        self.taken.set(self.taken.get().saturating_add(count));
        Ok(count)
    }

    fn flush(&mut self) -> io::Result<()> {
        Ok(())
    }
}

/// The files and the input of a system, and the calls to it: the digits 1 for an opening and 2 for a creation, in their order.
#[derive(Drop)]
struct Setup<'a> {
    files: &'a [(&'a str, &'a [u8])],
    script: &'a [u8],
    /// Whether standard input has no end.
    endless: bool,
    reads: usize,
    room: usize,
    asked: Cell<usize>,
    out: Cell<usize>,
    output: Cell<usize>,
    errors: Cell<usize>,
}

impl Setup<'static> {
    /// The files and the script below. Each is read at most `reads` times, and each output takes `room` bytes.
    fn new(reads: usize, room: usize) -> Self {
        Setup {
            files: FILES.as_slice(),
            script: SCRIPT,
            endless: false,
            reads,
            room,
            asked: Cell::new(0),
            out: Cell::new(0),
            output: Cell::new(0),
            errors: Cell::new(0),
        }
    }
}

#[derive(Drop)]
struct Fake<'a> {
    setup: &'a Setup<'a>,
}

impl Fake<'_> {
    fn note(&self, digit: usize) {
        let asked = self.setup.asked.get();
        self.setup
            .asked
            .set(asked.saturating_mul(10).saturating_add(digit));
    }
}

impl<'a> System for Fake<'a> {
    ghost opens = { λ _ _ _ _. Unit {0} };

    ghost creates = { λ _ _ _ _. Unit {0} };

    type Opened = Reader<'a>;

    type Created = Writer<'a>;

    type Input = Reader<'a>;

    type Output = Writer<'a>;

    type Errors = Writer<'a>;

    fn open(&mut self, path: &str) -> Result<Reader<'a>, OpenFault> {
        self.note(1);
        if path == "endless" {
            return Ok(Reader {
                rest: b"",
                calls: 0,
                endless: true,
            });
        }
        for (name, bytes) in self.setup.files.iter() {
            if *name == path {
                return Ok(Reader {
                    rest: *bytes,
                    calls: self.setup.reads,
                    endless: false,
                });
            }
        }
        Err(OpenFault::Missing)
    }

    fn create(&mut self, path: &str) -> Result<Writer<'a>, OpenFault> {
        self.note(2);
        if path != "out" {
            return Err(OpenFault::Denied);
        }
        Ok(Writer {
            taken: &self.setup.out,
            room: self.setup.room,
        })
    }
}

/// Runs a command line, and answers its status.
fn status_of<'a, R: Threads + Wait + Sync>(
    rt: &R,
    alloc: Global,
    line: &str,
    setup: &'a Setup<'a>,
) -> Result<u8, Fail> {
    let mut world = World {
        files: Fake { setup },
        input: Reader {
            rest: setup.script,
            calls: setup.reads,
            endless: setup.endless,
        },
        output: Writer {
            taken: &setup.output,
            room: setup.room,
        },
        errors: Writer {
            taken: &setup.errors,
            room: 10_000,
        },
    };
    let mut words = Vec::new(alloc);
    for word in line.split(' ') {
        words.push(String::from_str(alloc, word)?)?;
    }
    let Ok(devices) = program_devices(alloc) else {
        return Err("no memory for devices".into());
    };
    Ok(answer(rt, alloc, words.as_slice(), devices, &mut world))
}

/// An image of `loop: j loop`.
const LOOP: &[u8] =
    b"\x7fELF\x02\x01\x01\0\0\0\0\0\0\0\0\0\x02\0\xf3\0\x01\0\0\0\0\0\0\x80\0\0\0\0\x40\0\0\0\0\0\0\0\
    \0\0\0\0\0\0\0\0\0\0\0\0\x40\0\x38\0\x01\0\0\0\0\0\0\0\
    \x01\0\0\0\x07\0\0\0\x78\0\0\0\0\0\0\0\0\0\0\x80\0\0\0\0\0\0\0\x80\0\0\0\0\
    \x04\0\0\0\0\0\0\0\x04\0\0\0\0\0\0\0\x04\0\0\0\0\0\0\0\x6f\0\0\0";

/// A journal of 170 bytes, so that it takes more calls than the image.
const RECORDED: &[u8] = b"evl-journal 2\nboot 1 65536 64\n\
    tick\nstep 0 1\ntick\nstep 0 1\ntick\nstep 0 1\ntick\nstep 0 1\ntick\nstep 0 1\n\
    tick\nstep 0 1\ntick\nstep 0 1\ntick\nstep 0 1\ntick\nstep 0 1\ntick\nstep 0 1\n";

/// A source, a faulty one, one that is no text, a journal that is none, an image, and a journal.
const FILES: [(&str, &[u8]); 6] = [
    ("src", b"nop\n"),
    ("faulty", b"addi a0,a0,2048\n"),
    ("bytes", b"\xff\n"),
    ("journal", b"evl-journal 4\n"),
    ("loop", LOOP),
    ("recorded", RECORDED),
];

/// One view, of 44 bytes.
const SCRIPT: &[u8] = b"boot 1 65536 8\ntasks\n";

/// A line, its status, the calls to the system, and how many bytes go to OUT and to standard output.
const LINES: [(&str, u8, usize, usize, usize); 19] = [
    ("evltool asm src out", 0, 12, 124, 0),
    ("evltool asm faulty out", 1, 12, 0, 8),
    ("evltool asm bytes out", 4, 1, 0, 0),
    ("evltool asm missing out", 4, 1, 0, 0),
    ("evltool asm src missing", 4, 12, 0, 0),
    ("evltool run", 0, 0, 0, 44),
    ("evltool run src", 3, 1, 0, 8),
    ("evltool run missing", 4, 1, 0, 0),
    ("evltool replay missing journal", 4, 1, 0, 0),
    ("evltool replay src journal", 3, 1, 0, 8),
    ("evltool replay loop recorded", 0, 11, 0, 148),
    ("evltool threads missing 1", 4, 1, 0, 0),
    ("evltool threads src 8000", 3, 1, 0, 8),
    ("evltool threads loop 1", 0, 1, 0, 75),
    ("evltool threads src 0", 2, 0, 0, 0),
    ("evltool threads src 8001", 2, 0, 0, 0),
    ("evltool threads src", 2, 0, 0, 0),
    ("evltool asm src", 2, 0, 0, 0),
    ("evltool --version", 0, 0, 0, 14),
];

#[test]
fn lines_have_their_statuses(rt: HostRuntime) -> Result<(), Fail> {
    for (line, status, asked, out, output) in LINES {
        let setup = Setup::new(1000, 10_000);
        let answered = status_of(&rt, rt.alloc(), line, &setup)?;
        assert_eq!(rt; answered, status, "the status of {line}");
        assert_eq!(rt; setup.asked.get(), asked, "what {line} asks for");
        assert_eq!(rt; setup.out.get(), out, "the file of {line}");
        assert_eq!(rt; setup.output.get(), output, "what {line} writes");
    }
    Ok(())
}

// The source is read in two calls, the script in four, the image in 19 and the journal in 26; no file is created after a read that
// failed.
#[test]
fn failed_reads_end_with_status_4(rt: HostRuntime) -> Result<(), Fail> {
    for (line, enough) in [
        ("evltool asm src out", 2),
        ("evltool run", 4),
        ("evltool replay loop recorded", 26),
        ("evltool threads loop 1", 19),
    ] {
        for reads in 0..=enough {
            let setup = Setup::new(reads, 10_000);
            let answered = status_of(&rt, rt.alloc(), line, &setup)?;
            let whole = reads == enough;
            let wanted = if whole { 0 } else { 4 };
            assert_eq!(rt; answered, wanted, "{reads} reads of {line}");
            assert!(rt; whole || setup.output.get() == 0, "{reads} reads of {line}");
            assert!(rt;
                whole || setup.asked.get() % 10 == 1 || setup.asked.get() == 0,
                "{reads} reads of {line}"
            );
        }
    }
    Ok(())
}

// Nothing is written, and no file is created, of a source, a script, an image or a journal without an end.
#[test]
fn readers_without_an_end_end_with_status_4(rt: HostRuntime) -> Result<(), Fail> {
    for (line, asked) in [
        ("evltool asm endless out", 1),
        ("evltool run", 0),
        ("evltool run endless", 1),
        ("evltool replay endless recorded", 1),
        ("evltool replay loop endless", 11),
        ("evltool threads endless 1", 1),
    ] {
        let mut setup = Setup::new(1000, 10_000);
        setup.endless = true;
        let answered = status_of(&rt, rt.alloc(), line, &setup)?;
        assert_eq!(rt; answered, 4, "the status of {line}");
        assert_eq!(rt; setup.asked.get(), asked, "what {line} asks for");
        let written = setup.out.get().saturating_add(setup.output.get());
        assert_eq!(rt; written, 0, "what {line} writes");
        assert!(rt; setup.errors.get() != 0, "what {line} reports");
    }
    Ok(())
}

#[test]
fn failed_writes_end_with_status_4(rt: HostRuntime) -> Result<(), Fail> {
    for (line, bytes) in [
        ("evltool asm src out", 124),
        ("evltool run", 44),
        ("evltool replay loop recorded", 148),
        ("evltool threads loop 1", 75),
        ("evltool --version", 14),
    ] {
        for room in 0..=bytes {
            let setup = Setup::new(1000, room);
            let answered = status_of(&rt, rt.alloc(), line, &setup)?;
            let wanted = if room == bytes { 0 } else { 4 };
            assert_eq!(rt; answered, wanted, "{room} bytes of {line}");
            assert_eq!(rt;
                setup.out.get().saturating_add(setup.output.get()),
                room,
                "{room} bytes of {line}"
            );
            assert_eq!(rt;
                setup.errors.get() == 0,
                room == bytes,
                "{room} bytes of {line}"
            );
        }
    }
    Ok(())
}
