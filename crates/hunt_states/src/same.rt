//! Whether two machines have the same board.

ghost use Rattle.std.specs.Prelude.{◌≡◌, true, map};
ghost use Rattle.evm_model.specs.Devices.{Attached};
ghost use Rattle.hunt_states.specs.Same.{AreSameBeside};

use crate::lists::same_lists;
use crate::memory::same_memories;
use evm_core::Machine;
use evm_dev::Device;

// Whether they have put the same to the console.
fn same_consoles<D: Device>(a: &Machine<D>, b: &Machine<D>) -> bool
    ensures { result ≡ true → a.now.board.parts.console ≡ b.now.board.parts.console }
{
    let (a_older, a_newer) = a.console();
    let (b_older, b_newer) = b.console();
    a_older == b_older && a_newer == b_newer
}

// Whether what is in no list is the same.
fn same_beside<D: Device>(a: &Machine<D>, b: &Machine<D>) -> bool
    ensures { result ≡ true → AreSameBeside a.now.board.parts b.now.board.parts }
{
    if !same_consoles(a, b) {
        return false;
    }
    a.ticks() == b.ticks()
        && a.next_stamp() == b.next_stamp()
        && a.event_object_count() == b.event_object_count()
        && a.notice_total() == b.notice_total()
}

/// Whether two machines have the same board, if their devices are of the same kinds and neither has a breakpoint. It may say no where
/// the boards are the same.
pub fn have_same_boards<D: Device>(a: &Machine<D>, b: &Machine<D>) -> bool
    ensures boot { result ≡ true → a.now.boot ≡ b.now.boot }
    ensures board { result ≡ true → map (λ (device : Attached). device.kind) a.now.board.memory.devices ≡ map (λ (device : Attached). device.kind) b.now.board.memory.devices → a.now.board ≡ b.now.board }
{
    let boot = a.boot_numbers();
    if boot != b.boot_numbers() {
        return false;
    }
    if a.breakpoint_count() != 0 || b.breakpoint_count() != 0 {
        return false;
    }
    if !same_beside(a, b) {
        return false;
    }
    if !same_lists(a, b) {
        return false;
    }
    a.rules();
    b.rules();
    same_memories(a, b)
}
