//! Which task goes first, where no machine gets: ranks above 199, and processors without queues.

use evm_model::Stage;
use evm_ready::{Place, Ready};
use std::test::Fail;

fn oob(cpu: u8, stamp: u64) -> Option<Place> {
    Some(Place {
        stage: Stage::OutOfBand,
        cpu,
        stamp,
    })
}

fn in_band(cpu: u8, stamp: u64) -> Option<Place> {
    Some(Place {
        stage: Stage::InBand,
        cpu,
        stamp,
    })
}

// Ranks of 199 and above share a level, and go by rank there too. Of equal stamps the lesser number goes first.
#[test]
fn the_first_level_has_the_greatest_ranks(rt: HostRuntime) -> Result<(), Fail> {
    let mut ready = Ready::new(rt.alloc(), 1)?;
    ready.push(oob(0, 1), 199);
    ready.push(oob(0, 2), 200);
    ready.push(oob(0, 3), 65_535);
    ready.push(oob(0, 3), 65_535);
    assert_eq!(rt; ready.best(0), Some(2));
    ready.set(2, None);
    ready.set(3, None);
    assert_eq!(rt; ready.best(0), Some(1));
    ready.set_rank(1, 198);
    assert_eq!(rt; ready.best(0), Some(0));
    Ok(())
}

#[test]
fn processors_without_queues_have_their_tasks_too(rt: HostRuntime) -> Result<(), Fail> {
    let mut ready = Ready::new(rt.alloc(), 1)?;
    ready.push(oob(5, 1), 110);
    ready.push(oob(5, 0), 100);
    ready.push(in_band(200, 3), 0);
    assert_eq!(rt; ready.best(5), Some(0));
    ready.set_rank(1, 120);
    assert_eq!(rt; ready.best(5), Some(1));
    assert_eq!(rt; ready.next_in_band(200), Some(2));
    assert_eq!(rt; ready.best(0), None);
    Ok(())
}
