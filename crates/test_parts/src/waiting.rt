//! Which waiter goes first, where no machine gets: an object whose number has no queue, and the first of those that sleep.

use evm_model::Wait;
use evm_wait::{Waiter, Waiting};
use std::test::Fail;

fn waiter(wait: Wait, stamp: u64) -> Option<Waiter> {
    Some(Waiter { wait, stamp })
}

#[test]
fn what_has_no_queue_has_its_waiters(rt: HostRuntime) -> Result<(), Fail> {
    let mut waiting = Waiting::new(rt.alloc())?;
    waiting.push(waiter(Wait::Timer(31), 4), 110);
    waiting.push(waiter(Wait::Timer(32), 5), 110);
    waiting.push(waiter(Wait::Sleep, 6), 110);
    assert_eq!(rt; waiting.first(Wait::Timer(31)), Some(0));
    assert_eq!(rt; waiting.first(Wait::Timer(32)), Some(1));
    assert_eq!(rt; waiting.first(Wait::Sleep), Some(2));
    Ok(())
}
