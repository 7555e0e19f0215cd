//! Which of two tasks goes first.

ghost use Rattle.std.specs.Prelude.{◌≡◌};
ghost use Rattle.evm_ready.specs.ListedRanks.{listed_rank, is_before};

/// The rank of a task in `ranks`, 0 if it has none there.
pub fn listed_rank(ranks: &[u16], t: u8) -> u16
    ensures { result ≡ listed_rank ranks.now t }
{
    match ranks.get(t as usize) {
        None => 0,
        Some(rank) => *rank,
    }
}

/// Whether a task of this rank and stamp goes before another: the greater rank, and of one rank the lesser stamp.
pub fn is_before(rank: u16, stamp: u64, other_rank: u16, other_stamp: u64) -> bool
    ensures { result ≡ is_before rank stamp other_rank other_stamp }
{
    if other_rank < rank {
        true
    } else if rank < other_rank {
        false
    } else {
        stamp < other_stamp
    }
}
