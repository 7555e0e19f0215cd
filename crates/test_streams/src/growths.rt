//! Calls that take memory, which hold whichever growth is refused: the answer is the one that ample memory gives, or that there is none.
//! `bench/refuse` refuses each growth of the built program in turn.

use crate::sources::Counter;
use evm_bells::{Bells, BellsRefusal};
use evm_burst::Cache;
use evm_debug::{Machine, Refusal, View, ViewRefusal, view, write_journal};
use evm_dev::{Device, Op, Touch};
use evm_devs::{Console, MailList, MailRing, Pins};
use evm_diagnostics::Devices;
use evm_journal::{JournalFaultKind, read_journal};
use evm_room::NoMemory;
use evm_serve::{Ending, RunOptions, Verdict, serve};
use std::alloc::Global;
use std::process::Abort;

const JOURNAL: &str = "evl-journal 3\nboot 1 65536 16 0\n";

const TASKS: &str = "0 cpu 0 none 0 in-ready pc 0000000080000000\n";

// The texts of a machine that has had no event.
fn is_shown(rt: &impl Abort, alloc: Global, machine: &Machine<Pins>) {
    match view(alloc, machine, &View::Tasks) {
        Ok(text) => assert_eq!(rt; text.as_str(), TASKS),
        Err(refusal) => assert!(rt; matches!(refusal, ViewRefusal::NoMemory)),
    }
    if let Ok(text) = write_journal(alloc, machine) {
        assert_eq!(rt; text.as_str(), JOURNAL);
    }
}

#[test]
fn machines_boot_and_are_shown(rt: HostRuntime) {
    match Machine::boot(rt.alloc(), 1, 65_536, 16) {
        Ok(machine) => is_shown(&rt, rt.alloc(), &machine),
        Err(refusal) => assert_eq!(rt; refusal, Refusal::NoMemory),
    }
}

#[test]
fn journals_are_read(rt: HostRuntime) {
    match read_journal(
        rt.alloc(),
        "evl-journal 1\nboot 1 65536 16\nstep 0 3\ntick\n",
    ) {
        Ok((boot, events)) => assert_eq!(rt; (boot.profile, events.len()), (1, 4)),
        Err(fault) => assert_eq!(rt; fault.kind, JournalFaultKind::NoMemory),
    }
}

#[test]
fn scripts_are_served(rt: HostRuntime) {
    let Ok(devices) = Devices::<Pins>::new(rt.alloc()) else {
        return;
    };
    let mut script = b"boot 1 65536 16\ntasks\n".as_slice();
    let mut out = Counter { count: 0 };
    let options = RunOptions {
        image: None,
        devices,
    };
    match serve(rt.alloc(), &mut script, &mut out, options) {
        Ending::Complete(Verdict::Done) => assert_eq!(rt; out.count, 44),
        Ending::NoMemory => assert!(rt; out.count == 7 || out.count == 51),
        _ => panic!(rt; "neither the views nor the line `memory`"),
    }
}

// A device takes 16 words without memory. A register of its own has their number.
fn takes_words(rt: &impl Abort, device: &mut impl Device, count: u8) {
    for word in 0..16u64 {
        let _ = device.touch(Op::Put, 0, word);
    }
    let touch = device.touch(Op::Fetch, count, 0);
    assert_eq!(rt; touch, Touch::answer(16));
}

// A word that is noted is there, or was left out.
fn notes_words(rt: &impl Abort, cache: &mut Cache) {
    cache.note(0x8000_0000, &[0x13, 0x6f]);
    let first = cache.get(0x8000_0000);
    let second = cache.get(0x8000_0004);
    assert!(rt; matches!(first, None | Some(0x13)));
    assert!(rt; matches!(second, None | Some(0x6f)));
    assert_eq!(rt; cache.get(0x8000_0008), None);
}

#[test]
fn devices_and_caches_are_made(rt: HostRuntime) {
    match Console::new(rt.alloc()) {
        Ok(mut console) => takes_words(&rt, &mut console, 0),
        Err(refused) => assert_eq!(rt; refused, NoMemory),
    }
    match MailRing::new(rt.alloc()) {
        Ok(mut mailbox) => takes_words(&rt, &mut mailbox, 1),
        Err(refused) => assert_eq!(rt; refused, NoMemory),
    }
    match MailList::new(rt.alloc()) {
        Ok(mut mailbox) => takes_words(&rt, &mut mailbox, 1),
        Err(refused) => assert_eq!(rt; refused, NoMemory),
    }
    match Cache::new(rt.alloc()) {
        Ok(mut cache) => notes_words(&rt, &mut cache),
        Err(refused) => assert_eq!(rt; refused, NoMemory),
    }
}

#[test]
fn bells_are_made(rt: HostRuntime) {
    match Bells::new(rt.alloc(), 3) {
        Ok((bells, _ringer, takers)) => assert_eq!(rt; (bells.cpus(), takers.len()), (3, 3)),
        Err(refusal) => assert_eq!(rt; refusal, BellsRefusal::NoMemory),
    }
}
