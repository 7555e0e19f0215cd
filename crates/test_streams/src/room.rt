//! Growths that are given and refused.

use evm_room::{copies, grow, grow_text, push_text, ring, with_room};
use std::test::Fail;

#[test]
fn what_is_asked_for_is_there(rt: HostRuntime) -> Result<(), Fail> {
    let mut items = Vec::new(rt.alloc());
    grow(&mut items, 3)?;
    items.push_reserved(7u8);
    assert_eq!(rt; items.as_slice(), [7u8].as_slice());
    let mut text = String::new(rt.alloc());
    grow_text(&mut text, 8)?;
    push_text(&mut text, "room")?;
    push_text(&mut text, " for 8")?;
    assert_eq!(rt; text.as_str(), "room for 8");
    Ok(())
}

#[test]
fn what_nobody_has_is_refused(rt: HostRuntime) {
    let mut text = String::new(rt.alloc());
    match grow_text(&mut text, usize::MAX) {
        Ok(()) => assert!(rt; false, "room for all bytes"),
        Err(refused) => assert_eq!(rt; refused.asked(), usize::MAX),
    }
}

#[test]
fn what_is_made_at_once_has_its_room(rt: HostRuntime) -> Result<(), Fail> {
    assert_eq!(rt; copies(rt.alloc(), 7u8, 3)?.as_slice(), [7u8; 3].as_slice());
    let mut items = with_room(rt.alloc(), 1)?;
    items.push_reserved(7u8);
    assert_eq!(rt; items.as_slice(), [7u8].as_slice());
    let mut last = ring(rt.alloc(), 2)?;
    for item in 1..=3u8 {
        let _first = last.push_back(item);
    }
    assert_eq!(rt; last.front(), Some(&2));
    Ok(())
}

#[test]
fn what_nobody_has_is_not_made(rt: HostRuntime) {
    let made = copies(rt.alloc(), 0u64, usize::MAX).is_ok();
    assert!(rt; !made, "copies without end");
    let made = with_room::<u64>(rt.alloc(), usize::MAX).is_ok();
    assert!(rt; !made, "room without end");
    let made = ring::<u64>(rt.alloc(), usize::MAX).is_ok();
    assert!(rt; !made, "a ring without end");
}
