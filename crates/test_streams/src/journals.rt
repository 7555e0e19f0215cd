//! Journals whose readers and writers fail, and journals that are too long.

use crate::fakes::{FAULTS, Sink, Source};
use crate::runs::{no_image, options};
use evm_ram::Image;
use evm_serve::replay_to;
use std::alloc::Global;
use std::io::{self, ErrorKind, Read};
use std::process::Abort;
use std::test::Fail;

const JOURNAL: &[u8] = b"evl-journal 1\nboot 1 65536 16\nstep 0 1\n";

const SHOWN: &[u8] =
    b"cpu 0 current none oob 0 0000000000000000 in 0 0000000000000000 task none wire 0000000000000000 stop 0 skip 0\n\
      0 cpu 0 none 0 fault 2 pc 0000000080000000\n";

// Replays the journal from a reader that fails after some calls.
fn reads(rt: &impl Abort, alloc: Global, image: &Image, kind: ErrorKind, calls: usize) {
    let mut source = Source {
        rest: JOURNAL,
        most: 10,
        calls,
        fault: Some(kind),
    };
    let mut written = Vec::new(alloc);
    let options = options(rt, alloc, Some(image));
    let ending = replay_to(alloc, options, &mut source, &mut written);
    let (text, status) = if calls < 5 {
        (b"".as_slice(), 4)
    } else {
        (SHOWN, 0)
    };
    assert_eq!(rt; ending.status(), status, "after {calls} reads");
    assert_eq!(rt; written.as_slice(), text, "after {calls} reads");
}

// 39 bytes: four calls give them, and one more says that they are over
#[test]
fn unread_journals_are_not_replayed(rt: HostRuntime) -> Result<(), Fail> {
    let image = no_image(rt.alloc())?;
    for kind in FAULTS {
        for calls in 0..=5 {
            reads(&rt, rt.alloc(), &image, kind, calls);
        }
    }
    Ok(())
}

#[test]
fn long_journals_are_not_replayed(rt: HostRuntime) -> Result<(), Fail> {
    let image = no_image(rt.alloc())?;
    for bytes in [16_777_217, u64::MAX] {
        let mut long = io::repeat(b'#').take(bytes);
        let mut written = Vec::new(rt.alloc());
        let options = options(&rt, rt.alloc(), Some(&image));
        let ending = replay_to(rt.alloc(), options, &mut long, &mut written);
        assert_eq!(rt; (ending.status(), written.len()), (4, 0), "{bytes} bytes");
    }
    Ok(())
}

/// A journal, what its replay writes, and the status of that.
#[derive(Clone, Copy)]
struct Replay<'a> {
    journal: &'a [u8],
    text: &'a [u8],
    status: u8,
}

// Replays a journal to a writer that fails after some calls.
fn writes(
    rt: &impl Abort,
    alloc: Global,
    image: &Image,
    replay: &Replay<'_>,
    fault: Option<ErrorKind>,
    calls: usize,
) {
    let mut sink = Sink::new(alloc, 7, calls, fault);
    let mut reader = replay.journal;
    let options = options(rt, alloc, Some(image));
    let ending = replay_to(alloc, options, &mut reader, &mut sink);
    let taken = sink.taken.as_slice();
    let size = replay.text.len();
    let status = if taken.len() == size {
        replay.status
    } else {
        4
    };
    assert!(rt; replay.text.starts_with(taken), "{calls} writes");
    assert_eq!(rt;
        taken.len(),
        calls.saturating_mul(7).min(size),
        "{calls} writes"
    );
    assert_eq!(rt; ending.status(), status, "{calls} writes");
}

// Replays a journal to writers that fail after more and more calls.
fn is_cut(rt: &impl Abort, alloc: Global, replay: &Replay<'_>) -> Result<(), Fail> {
    let image = no_image(alloc)?;
    for fault in [None, Some(ErrorKind::Interrupted), Some(ErrorKind::Other)] {
        for calls in 0..=23 {
            writes(rt, alloc, &image, replay, fault, calls);
        }
    }
    Ok(())
}

#[test]
fn unwritten_views_leave_a_prefix(rt: HostRuntime) -> Result<(), Fail> {
    let replay = Replay {
        journal: JOURNAL,
        text: SHOWN,
        status: 0,
    };
    is_cut(&rt, rt.alloc(), &replay)
}

#[test]
fn unwritten_faults_leave_a_prefix(rt: HostRuntime) -> Result<(), Fail> {
    let replay = Replay {
        journal: b"evl-journal 1\n",
        text: b"journal 2 1\n",
        status: 1,
    };
    is_cut(&rt, rt.alloc(), &replay)
}
