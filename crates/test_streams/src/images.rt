//! Images whose readers and writers fail, and files that are too long.

use crate::fakes::{FAULTS, Sink, Source};
use crate::runs::file_of;
use evm_serve::import;
use std::alloc::Global;
use std::io::{self, ErrorKind, Read};
use std::process::Abort;
use std::test::Fail;

// Reads a file whose reader fails after some calls.
fn reads(rt: &impl Abort, alloc: Global, file: &[u8], kind: ErrorKind, calls: usize) {
    let mut source = Source {
        rest: file,
        most: 10,
        calls,
        fault: Some(kind),
    };
    let mut written = Vec::new(alloc);
    let status = match import(alloc, &mut source, &mut written) {
        Ok(_) => 0,
        Err(ending) => ending.status(),
    };
    let wanted = if calls < 15 { 4 } else { 0 };
    assert_eq!(rt; status, wanted, "after {calls} reads");
    assert_eq!(rt; written.len(), 0, "after {calls} reads");
}

// 136 bytes: fourteen calls give them, and one more says that they are over
#[test]
fn unread_files_are_no_images(rt: HostRuntime) -> Result<(), Fail> {
    let file = file_of(rt.alloc(), &[0x13; 16])?;
    for kind in FAULTS {
        for calls in 0..=15 {
            reads(&rt, rt.alloc(), file.as_slice(), kind, calls);
        }
    }
    Ok(())
}

#[test]
fn long_files_are_no_images(rt: HostRuntime) -> Result<(), Fail> {
    let mut long = io::repeat(0).take(16_777_217);
    let mut written = Vec::new(rt.alloc());
    match import(rt.alloc(), &mut long, &mut written) {
        Ok(_) => return Err(Fail::from("a file that is too long")),
        Err(ending) => assert_eq!(rt; ending.status(), 4),
    }
    assert_eq!(rt; written.len(), 0);
    Ok(())
}

// The file of eight bytes, with fewer in memory.
fn faulty(alloc: Global) -> Result<Vec<u8>, Fail> {
    let mut file = file_of(alloc, &[0; 8])?;
    match file.get_mut(104) {
        Some(byte) => *byte = 4,
        None => return Err(Fail::from("past the file")),
    }
    Ok(file)
}

// Reports the fault of a file to a writer that fails after some calls.
fn writes(rt: &impl Abort, alloc: Global, file: &[u8], fault: Option<ErrorKind>, calls: usize) {
    let mut sink = Sink::new(alloc, 2, calls, fault);
    let mut reader = file;
    let status = match import(alloc, &mut reader, &mut sink) {
        Ok(_) => 0,
        Err(ending) => ending.status(),
    };
    let taken = sink.taken.as_slice();
    assert!(rt; b"image 10\n".starts_with(taken), "{calls} writes");
    assert_eq!(rt;
        taken.len(),
        calls.saturating_mul(2).min(9),
        "{calls} writes"
    );
    assert_eq!(rt; status, if calls < 5 { 4 } else { 3 }, "{calls} writes");
}

#[test]
fn unwritten_faults_leave_a_prefix(rt: HostRuntime) -> Result<(), Fail> {
    let file = faulty(rt.alloc())?;
    for fault in [None, Some(ErrorKind::Interrupted), Some(ErrorKind::Other)] {
        for calls in 0..=5 {
            writes(&rt, rt.alloc(), file.as_slice(), fault, calls);
        }
    }
    Ok(())
}
