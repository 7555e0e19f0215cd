//! Bells rung and taken, by seats.

ghost use Rattle.std.specs.Prelude.{◌≡◌, ◌<◌, ◌≤◌};
ghost use Rattle.std.specs.Thread.{IsSync};

use evm_bells::{Bells, BellsRefusal, Closed, LineCounts, Ringer, SeatsOut, Taker};
use evm_lines::LINES;
use std::test::Fail;
use std::thread;
use std::thread::Threads;

const ROUNDS: u32 = 1_000;

// Rings a line of each of two processors in each round; answers how many were fresh.
fn ring_both(bells: &Bells, mut ringer: Ringer) -> (Ringer, u64)
    requires { (ringer.bells ≡ bells.now.id) × (2 ≤ bells.now.cpus) }
    ensures { result.0.bells ≡ bells.now.id }
{
    let mut fresh = 0u64;
    for round in 0..ROUNDS {
        let line = (round % u32::from(LINES)) as u8;
        for cpu in 0..2u8 {
            fresh = fresh.wrapping_add(u64::from(bells.ring(&mut ringer, cpu, line)));
        }
    }
    (ringer, fresh)
}

// Takes the lines of each of two processors in each round; answers how many there were.
fn take_both(bells: &Bells, mut taker: Taker) -> (Taker, u64)
    requires { (taker.bells ≡ bells.now.id) × (2 ≤ bells.now.cpus) }
    ensures { result.0.bells ≡ bells.now.id }
{
    let mut lines = 0u64;
    for _ in 0..ROUNDS {
        for cpu in 0..2u8 {
            let word = bells.take(&mut taker, cpu);
            lines = lines.wrapping_add(u64::from(word.count_ones()));
        }
    }
    (taker, lines)
}

// What a thread that rings and a thread that takes bring back.
#[derive(Drop)]
struct Shift {
    ringer: Ringer,
    fresh: u64,
    taker: Taker,
    taken: u64,
}

fn two_threads<R: Threads + Sync>(rt: &R, bells: &Bells, ringer: Ringer, taker: Taker) -> Shift
    requires { (ringer.bells ≡ bells.now.id) × (taker.bells ≡ bells.now.id) × (2 ≤ bells.now.cpus) }
    ensures { (result.ringer.bells ≡ bells.now.id) × (result.taker.bells ≡ bells.now.id) }
{
    let ((ringer, fresh), (taker, taken)) = thread::join(
        rt,
        move || -> (Ringer, u64)
            requires { (ringer.bells ≡ bells.now.id) × (2 ≤ bells.now.cpus) }
            ensures { result.0.bells ≡ bells.entry.now.id }
        { ring_both(bells, ringer) },
        move || -> (Taker, u64)
            requires { (taker.bells ≡ bells.now.id) × (2 ≤ bells.now.cpus) }
            ensures { result.0.bells ≡ bells.entry.now.id }
        { take_both(bells, taker) },
    );
    Shift {
        ringer,
        fresh,
        taker,
        taken,
    }
}

fn four_threads<R: Threads + Sync>(
    rt: &R,
    bells: &Bells,
    ringers: (Ringer, Ringer),
    takers: (Taker, Taker),
) -> (Shift, Shift)
    requires ringers { (ringers.0.bells ≡ bells.now.id) × (ringers.1.bells ≡ bells.now.id) }
    requires takers { (takers.0.bells ≡ bells.now.id) × (takers.1.bells ≡ bells.now.id) }
    requires cpus { 2 ≤ bells.now.cpus }
    ensures first { (result.0.ringer.bells ≡ bells.now.id) × (result.0.taker.bells ≡ bells.now.id) }
    ensures second { (result.1.ringer.bells ≡ bells.now.id) × (result.1.taker.bells ≡ bells.now.id) }
{
    let (first_ringer, second_ringer) = ringers;
    let (first_taker, second_taker) = takers;
    thread::join(
        rt,
        move || -> Shift
            requires { IsSync R.row × (first_ringer.bells ≡ bells.now.id) × (first_taker.bells ≡ bells.now.id) × (2 ≤ bells.now.cpus) }
            ensures { (result.ringer.bells ≡ bells.entry.now.id) × (result.taker.bells ≡ bells.entry.now.id) }
        { two_threads(rt, bells, first_ringer, first_taker) },
        move || -> Shift
            requires { IsSync R.row × (second_ringer.bells ≡ bells.now.id) × (second_taker.bells ≡ bells.now.id) × (2 ≤ bells.now.cpus) }
            ensures { (result.ringer.bells ≡ bells.entry.now.id) × (result.taker.bells ≡ bells.entry.now.id) }
        { two_threads(rt, bells, second_ringer, second_taker) },
    )
}

fn sum(counts: &LineCounts) -> u64 {
    let mut sum = 0u64;
    for cpu in 0..2u8 {
        for line in 0..LINES {
            sum = sum.wrapping_add(counts.get(cpu, line));
        }
    }
    sum
}

// Of each line of two processors, what was rung fresh was taken or is left.
fn is_balanced(closed: &Closed) -> bool {
    for cpu in 0..2u8 {
        for line in 0..LINES {
            let left = u64::from((closed.left[cpu as usize] >> line) & 1);
            if closed.fresh.get(cpu, line) != closed.taken.get(cpu, line).wrapping_add(left) {
                return false;
            }
        }
    }
    true
}

#[test]
fn what_nobody_took_is_left(rt: HostRuntime) {
    let Ok((bells, mut ringer, takers)) = Bells::new(rt.alloc(), 8) else {
        panic!(rt; "no bells")
    };
    assert!(rt; bells.ring(&mut ringer, 7, 63));
    assert!(rt; bells.ring(&mut ringer, 7, 31));
    assert!(rt; bells.ring(&mut ringer, 7, 0));
    assert!(rt; bells.ring(&mut ringer, 0, 0));
    assert_eq!(rt; bells.peek(7), 0x8000_0000_8000_0001);
    assert_eq!(rt; bells.peek(1), 0);
    let Ok(closed) = bells.close(ringer, takers) else {
        panic!(rt; "a seat is out")
    };
    assert_eq!(rt; closed.left, [1, 0, 0, 0, 0, 0, 0, 0x8000_0000_8000_0001]);
    assert_eq!(rt; closed.fresh.get(7, 63), 1);
    assert_eq!(rt; closed.fresh.get(7, 31), 1);
    assert_eq!(rt; closed.taken.get(7, 63), 0);
}

// Takes the lines of processor 0, and once more; answers both words.
fn take_twice(bells: &Bells, mut taker: Taker) -> (Taker, [u64; 2])
    requires { (taker.bells ≡ bells.now.id) × (0 < bells.now.cpus) }
    ensures { result.0.bells ≡ bells.now.id }
{
    let first = bells.take(&mut taker, 0);
    let second = bells.take(&mut taker, 0);
    (taker, [first, second])
}

#[test]
fn a_line_rung_twice_is_taken_once(rt: HostRuntime) -> Result<(), Fail> {
    let Ok((bells, mut ringer, mut takers)) = Bells::new(rt.alloc(), 1) else {
        panic!(rt; "no bells")
    };
    let Some(taker) = takers.pop() else {
        panic!(rt; "no taker")
    };
    assert!(rt; bells.ring(&mut ringer, 0, 3));
    assert!(rt; !bells.ring(&mut ringer, 0, 3));
    // a look takes nothing
    assert_eq!(rt; bells.peek(0), 8);
    let (taker, words) = take_twice(&bells, taker);
    assert_eq!(rt; words, [8, 0]);
    assert_eq!(rt; bells.peek(0), 0);
    let takers = Vec::from_array(rt.alloc(), [taker])?;
    let Ok(closed) = bells.close(ringer, takers) else {
        panic!(rt; "a seat is out")
    };
    assert_eq!(rt; closed.fresh.get(0, 3), 1);
    assert_eq!(rt; closed.taken.get(0, 3), 1);
    assert_eq!(rt; closed.left, [0; 8]);
    Ok(())
}

#[test]
fn bells_close_once_all_seats_are_back(rt: HostRuntime) {
    let Ok((bells, mut ringer, takers)) = Bells::new(rt.alloc(), 2) else {
        panic!(rt; "no bells")
    };
    let Some(mut second) = bells.split(&mut ringer) else {
        panic!(rt; "no half")
    };
    assert!(rt; bells.ring(&mut second, 1, 9));
    let Err(
        SeatsOut {
            bells,
            mut ringer,
            takers,
        },
    ) = bells.close(ringer, takers)
    else {
        panic!(rt; "closed without the second ringer")
    };
    assert_eq!(rt; takers.len(), 2);
    bells.join(&mut ringer, second);
    let Ok(closed) = bells.close(ringer, takers) else {
        panic!(rt; "a seat is out")
    };
    assert_eq!(rt; closed.fresh.get(1, 9), 1);
    assert_eq!(rt; closed.left[1], 512);
}

#[test]
fn there_are_1_to_8_processors(rt: HostRuntime) {
    for cpus in 0..=9u8 {
        match Bells::new(rt.alloc(), cpus) {
            Ok((bells, _ringer, takers)) => {
                assert_eq!(rt; bells.cpus(), cpus);
                assert_eq!(rt; takers.len(), cpus as usize);
            }
            Err(BellsRefusal::BadSize) => assert!(rt; cpus == 0 || cpus == 9, "{cpus} processors"),
            Err(BellsRefusal::NoMemory) => assert!(rt; false, "no memory for {cpus} processors"),
        }
    }
}

#[test]
fn threads_lose_no_line(rt: HostRuntime) -> Result<(), Fail> {
    let Ok((bells, mut ringer, mut takers)) = Bells::new(rt.alloc(), 2) else {
        panic!(rt; "no bells")
    };
    let Some(second) = bells.split(&mut ringer) else {
        panic!(rt; "no half")
    };
    let (Some(other), Some(taker)) = (takers.pop(), takers.pop()) else {
        panic!(rt; "no takers")
    };
    let (first, second) = four_threads(&rt, &bells, (ringer, second), (taker, other));
    let mut ringer = first.ringer;
    bells.join(&mut ringer, second.ringer);
    takers.push(first.taker)?;
    takers.push(second.taker)?;
    let Ok(closed) = bells.close(ringer, takers) else {
        panic!(rt; "a seat is out")
    };
    assert!(rt; is_balanced(&closed));
    let fresh = first.fresh.wrapping_add(second.fresh);
    // the first ring of each line is fresh, whichever ringer it is of
    assert!(rt; 128 <= fresh);
    assert_eq!(rt; sum(&closed.fresh), fresh);
    assert_eq!(rt; sum(&closed.taken), first.taken.wrapping_add(second.taken));
    Ok(())
}
