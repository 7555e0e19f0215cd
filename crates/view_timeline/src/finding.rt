//! Events that are found by what they did.

use crate::cells::Shown;
use crate::gathering::show_all;
use crate::places::Naming;
use crate::words::push_deed;
use evm_dev::Device;
use evm_room::Refused;
use run_walk::{Event, Item, Walk, WalkStop};
use std::alloc::Global;

/// What an event is found by.
#[derive(Clone, Copy)]
pub enum Landmark<'a> {
    /// It is this tick, counted from 1.
    Tick(u64),
    /// What it did has these words.
    Words(&'a str),
}

/// A search: what is found, and the names in its words.
#[derive(Clone, Copy)]
struct Search<'a> {
    alloc: Global,
    wanted: Landmark<'a>,
    naming: Naming<'a>,
}

impl Search<'_> {
    // Whether something that was done has these words.
    fn says(&self, shown: &[Shown], wanted: &str) -> Result<bool, Refused> {
        let mut words = String::new(self.alloc);
        for one in shown {
            words.clear();
            push_deed(&mut words, one, self.naming)?;
            if words.as_str().contains(wanted) {
                return Ok(true);
            }
        }
        Ok(false)
    }

    // Whether an item is it, behind which there were so many ticks.
    fn finds(&self, item: &Item, ticks: u64, shown: &[Shown]) -> Result<bool, Refused> {
        match self.wanted {
            Landmark::Tick(tick) => Ok(tick == ticks && matches!(item.event, Event::Tick)),
            Landmark::Words(words) => self.says(shown, words),
        }
    }
}

/// The number of the first event of a journal, from where it is walked to, that is found so; None if there is none.
///
/// # Errors
///
/// Why the walk stopped.
pub fn find<D: Device>(
    alloc: Global,
    walk: &mut Walk<D>,
    wanted: Landmark<'_>,
    naming: Naming<'_>,
) -> Result<Option<u64>, WalkStop> {
    let search = Search {
        alloc,
        wanted,
        naming,
    };
    let mut found = Vec::new(alloc);
    let mut shown = Vec::new(alloc);
    for _ in walk.next_event()..walk.event_count() {
        let caller = walk.next_caller();
        let Some(item) = walk.next(&mut found)? else {
            break;
        };
        show_all(&mut shown, found.as_slice(), &item, walk, caller)?;
        let ticks = walk.machine().ticks();
        if search.finds(&item, ticks, shown.as_slice())? {
            return Ok(Some(item.first));
        }
    }
    Ok(None)
}
