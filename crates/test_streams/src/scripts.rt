//! Scripts whose readers and writers fail, and scripts that are too long.

use crate::fakes::{FAULTS, Sink, Source};
use crate::runs::options;
use evm_serve::serve;
use std::alloc::Global;
use std::io::{self, ErrorKind, Read};
use std::process::Abort;

/// A run that writes several texts, the last of them with a refusal.
const SCRIPT: &str = "boot 2 65536 16\ntick\ntasks\nmem 80000000 4\ncounts 1 0\nstep 2 1\n";

const TEXT: &str = "0 cpu 0 none 0 in-ready pc 0000000080000000\n\
     00000000\n\
     raised 1 merged 0 received 0 oob 0 0 0 in 0 0 0\n\
     refused 6 2\n";

// A run whose reader fails after some calls writes nothing, or all where it didn't come to that.
fn reads(rt: &impl Abort, alloc: Global, kind: ErrorKind, calls: usize) {
    let mut source = Source {
        rest: SCRIPT.as_bytes(),
        most: 7,
        calls,
        fault: Some(kind),
    };
    let mut written = Vec::new(alloc);
    let ending = serve(alloc, &mut source, &mut written, options(rt, alloc, None));
    let (text, status) = if calls < 10 { ("", 4) } else { (TEXT, 1) };
    assert_eq!(rt; ending.status(), status, "after {calls} reads");
    assert_eq!(rt; written.as_slice(), text.as_bytes(), "after {calls} reads");
}

// The script is 62 bytes: nine calls give it, and one more says that it is over.
#[test]
fn failed_reads_end_the_run(rt: HostRuntime) {
    for kind in FAULTS {
        for calls in 0..=10 {
            reads(&rt, rt.alloc(), kind, calls);
        }
    }
}

// However few bytes a call takes, a run that ends early has written a prefix of its text. This many calls are enough for all.
fn writes(
    rt: &impl Abort,
    alloc: Global,
    most: usize,
    calls: usize,
    fault: Option<ErrorKind>,
    enough: usize,
) {
    let mut reader = SCRIPT.as_bytes();
    let mut sink = Sink::new(alloc, most, calls, fault);
    let ending = serve(alloc, &mut reader, &mut sink, options(rt, alloc, None));
    let taken = sink.taken.as_slice();
    let whole = taken == TEXT.as_bytes();
    let status = if whole { 1 } else { 4 };
    assert!(rt;
        TEXT.as_bytes().starts_with(taken),
        "{calls} writes of {most} bytes"
    );
    assert_eq!(rt; ending.status(), status, "{calls} writes of {most} bytes");
    assert!(rt; whole || calls < enough, "{calls} writes of {most} bytes");
}

#[test]
fn failed_writes_leave_a_prefix(rt: HostRuntime) {
    for (most, enough) in [(1, 113), (13, 60), (100, 60)] {
        for fault in [None, Some(ErrorKind::Interrupted), Some(ErrorKind::Other)] {
            for calls in 0..=enough {
                writes(&rt, rt.alloc(), most, calls, fault, enough);
            }
        }
    }
}

// A comment of this many bytes.
fn comment(rt: &impl Abort, alloc: Global, bytes: u64, status: u8) {
    let mut reader = io::repeat(b'#').take(bytes);
    let mut written = Vec::new(alloc);
    let ending = serve(alloc, &mut reader, &mut written, options(rt, alloc, None));
    assert_eq!(rt; ending.status(), status, "a comment of {bytes} bytes");
    assert_eq!(rt; written.len(), 0, "a comment of {bytes} bytes");
}

#[test]
fn long_scripts_are_not_read(rt: HostRuntime) {
    comment(&rt, rt.alloc(), 16_777_216, 0);
    comment(&rt, rt.alloc(), 16_777_217, 4);
    comment(&rt, rt.alloc(), u64::MAX, 4);
}
