ghost use Rattle.std.specs.Prelude.{◌≡◌};
ghost use Rattle.evm_ready.specs.Queues.{precedes, turn_rank, turn_stamp};

/// Which queue a task is in, and by what it has its place there.
#[derive(Clone, Copy, Debug, Default, PartialEq, Eq)]
pub struct Turn {
    /// The number of the queue; none if the task is in no queue.
    pub queue: Option<u16>,
    /// A task of greater rank goes first.
    pub rank: u16,
    /// Of two tasks of one rank the one with the lesser stamp goes first, and of one stamp the one with the lesser
    /// number.
    pub stamp: u64,
}

// Whether task t has its place before task u.
#[tactic(auto, unfolding(crate::specs::Queues::precedes))]
pub(crate) fn precedes(turns: &[Turn], t: u8, u: u8) -> bool
    ensures { result ≡ precedes turns.now t u }
{
    let (rank, stamp) = key(turns, t);
    let (other_rank, other_stamp) = key(turns, u);
    if other_rank < rank {
        true
    } else if rank < other_rank {
        false
    } else if stamp < other_stamp {
        true
    } else if other_stamp < stamp {
        false
    } else {
        t < u
    }
}

// The rank and the stamp of task t.
fn key(turns: &[Turn], t: u8) -> (u16, u64)
    ensures rank { result.0 ≡ turn_rank turns.now t }
    ensures stamp { result.1 ≡ turn_stamp turns.now t }
{
    match turns.get(t as usize) {
        None => (0, 0),
        Some(turn) => (turn.rank, turn.stamp),
    }
}
