//! Rings and takes of one processor's word by several threads.

ghost use Rattle.std.specs.Prelude.{◌≡◌, ◌<◌, ◌≤◌, All, IfSome, length};
ghost use Rattle.evm_bells.specs.Seats.{RingerValue};

use evm_bells::{Bells, Ringer, Taker};
use evm_lines::LINES;
use std::alloc::Global;
use std::thread;
use std::thread::Threads;

// Rings the lines of processor 0 in turn.
fn ring_many(bells: &Bells, ringer: &mut Ringer, count: u32)
    requires { (ringer.old.bells ≡ bells.now.id) × (0 < bells.now.cpus) }
{
    for ring in 0..count {
        bells.ring(ringer, 0, (ring % u32::from(LINES)) as u8);
    }
}

// Takes the lines of processor 0 again and again.
fn take_many(bells: &Bells, taker: &mut Taker, count: u32)
    requires { (taker.old.bells ≡ bells.now.id) × (0 < bells.now.cpus) }
{
    for _ in 0..count {
        bells.take(taker, 0);
    }
}

// A ringer for each thread, split from the first.
fn ringers_of(alloc: Global, bells: &Bells, mut ringer: Ringer, threads: u8) -> Option<Vec<Ringer>>
    requires { ringer.bells ≡ bells.now.id }
    ensures { IfSome result (λ ringers. All (λ (r : RingerValue). r.bells ≡ bells.now.id) ringers.items) }
{
    let mut ringers = Vec::new(alloc);
    for _ in 1..threads {
        ringers.push(bells.split(&mut ringer)?).ok()?;
    }
    ringers.push(ringer).ok()?;
    Some(ringers)
}

/// Rings by some threads, a number in all: how many were made.
pub fn ring<R: Threads + Sync>(rt: &R, alloc: Global, threads: u8, count: u32) -> Option<u32> {
    let (bells, ringer, _takers) = Bells::new(alloc, 1).ok()?;
    let mut ringers = ringers_of(alloc, &bells, ringer, threads)?;
    let each = count.checked_div(u32::from(threads))?;
    let places = ringers.len();
    if places == 0 {
        return None;
    }
    thread::for_each_mut(
        rt,
        ringers.as_mut_slice(),
        places,
        &|_, ringer: &mut Ringer|
            requires { (ringer.old.bells ≡ bells.id) × (0 < bells.cpus) }
        { ring_many(&bells, ringer, each) },
    );
    each.checked_mul(u32::from(threads))
}

/// Takes by at most 8 threads, a number in all: how many were made.
pub fn take<R: Threads + Sync>(rt: &R, alloc: Global, threads: u8, count: u32) -> Option<u32> {
    let (bells, _ringer, mut takers) = Bells::new(alloc, threads).ok()?;
    let each = count.checked_div(u32::from(threads))?;
    let places = takers.len();
    if places == 0 {
        return None;
    }
    thread::for_each_mut(
        rt,
        takers.as_mut_slice(),
        places,
        &|_, taker: &mut Taker|
            requires { (taker.old.bells ≡ bells.id) × (0 < bells.cpus) }
        { take_many(&bells, taker, each) },
    );
    each.checked_mul(u32::from(threads))
}
