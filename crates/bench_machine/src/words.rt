//! What is to be done.

/// A kind of work, how many threads do it, and how often in all; of `Turns` how often each.
#[derive(Clone, Copy, Debug, PartialEq, Eq)]
pub enum Work {
    Ring(u8, u32),
    Take(u8, u32),
    Commit(u8, u32),
    Step(u32),
    Turns(u8, u32),
    Hold(u32),
    Events(u32),
    Deliver(u32),
}

/// A line of a kind of work, a number of threads, and a count; of `step`, `hold`, `events` and `deliver` without threads.
pub fn read_work(text: &str) -> Option<Work> {
    let (kind, rest) = text.trim_end().split_once(' ')?;
    if kind == "step" {
        return Some(Work::Step(rest.parse().ok()?));
    }
    if kind == "hold" {
        return Some(Work::Hold(rest.parse().ok()?));
    }
    if kind == "events" {
        return Some(Work::Events(rest.parse().ok()?));
    }
    if kind == "deliver" {
        return Some(Work::Deliver(rest.parse().ok()?));
    }
    let (threads, count) = rest.split_once(' ')?;
    let threads = threads.parse().ok()?;
    let count = count.parse().ok()?;
    match kind {
        "ring" => Some(Work::Ring(threads, count)),
        "take" => Some(Work::Take(threads, count)),
        "commit" => Some(Work::Commit(threads, count)),
        "turns" => Some(Work::Turns(threads, count)),
        _ => None,
    }
}
