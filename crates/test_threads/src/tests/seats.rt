//! The seats of bells of three processors, and what the bells have counted at their end.

ghost use Rattle.std.specs.Prelude.{◌≡◌, All, IfSome};
ghost use Rattle.evm_bells.specs.Seats.{TakerValue};

use evm_bells::{Bells, Closed, Ringer, Taker};
use evm_lines::LINES;
use std::alloc::Global;

/// The three takers.
pub(super) fn three_of(bells: &Bells, mut takers: Vec<Taker>) -> Option<(Taker, Taker, Taker)>
    requires { All (λ (t : TakerValue). t.bells ≡ bells.now.id) takers.items }
    ensures { IfSome result (λ made. (made.0.bells ≡ bells.now.id) × (made.1.bells ≡ bells.now.id) × (made.2.bells ≡ bells.now.id)) }
{
    let _cpus = bells.cpus();
    let third = takers.pop()?;
    let second = takers.pop()?;
    let first = takers.pop()?;
    Some((first, second, third))
}

/// The bells at their end; None if a seat is out or memory is refused.
pub(super) fn closed_of(
    alloc: Global,
    bells: Bells,
    ringer: Ringer,
    takers: (Taker, Taker, Taker),
) -> Option<Closed>
    requires ringer { ringer.bells ≡ bells.id }
    requires takers { (takers.0.bells ≡ bells.id) × (takers.1.bells ≡ bells.id) × (takers.2.bells ≡ bells.id) }
{
    let (first, second, third) = takers;
    let takers = Vec::from_array(alloc, [first, second, third]).ok()?;
    bells.close(ringer, takers).ok()
}

/// How many rings of all lines were fresh, and how many lines were taken; None if some line that was rung fresh was neither taken nor is
/// left, or was taken twice.
pub(super) fn sums(closed: &Closed) -> Option<(u64, u64)> {
    let (mut all_fresh, mut all_taken) = (0u64, 0u64);
    for cpu in 0..3u8 {
        for line in 0..LINES {
            let left = u64::from((closed.left[cpu as usize] >> line) & 1);
            let fresh = closed.fresh.get(cpu, line);
            let taken = closed.taken.get(cpu, line);
            if fresh != taken.wrapping_add(left) {
                return None;
            }
            all_fresh = all_fresh.wrapping_add(fresh);
            all_taken = all_taken.wrapping_add(taken);
        }
    }
    Some((all_fresh, all_taken))
}
