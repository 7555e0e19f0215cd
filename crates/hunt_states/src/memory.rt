//! Whether two machines have the same in memory.

ghost use Rattle.std.specs.Prelude.{◌≡◌, ◌<◌, ℕ, true, length};
ghost use Rattle.evm_core.specs.Views.{device_word};
ghost use Rattle.hunt_states.specs.Same.{AreSameMemories};

use evm_core::Machine;
use evm_dev::Device;
use evm_model::CONSOLE_LIMIT;

// Whether a device of each has the same words.
fn same_words<D: Device>(a: &Machine<D>, b: &Machine<D>, i: u8) -> bool
    ensures { result ≡ true → (k : ℕ) → device_word i k a.now.board.memory.devices ≡ device_word i k b.now.board.memory.devices }
{
    'words: for k in 0..=CONSOLE_LIMIT {
        let word = a.device_word(i, k);
        if word != b.device_word(i, k) {
            return false;
        }
        if word.is_none() {
            return true;
        }
    }
    false
}

fn same_devices<D: Device>(a: &Machine<D>, b: &Machine<D>) -> bool
    ensures count { result ≡ true → length a.now.board.memory.devices ≡ length b.now.board.memory.devices }
    ensures words { result ≡ true → (i k : ℕ) → i < length a.now.board.memory.devices → device_word i k a.now.board.memory.devices ≡ device_word i k b.now.board.memory.devices }
{
    let count = a.device_count();
    if count != b.device_count() {
        return false;
    }
    'devices: for i in 0..count as u8 {
        if !same_words(a, b, i) {
            return false;
        }
    }
    true
}

/// Whether memory has the same bytes, and as many devices with the same words.
pub(crate) fn same_memories<D: Device>(a: &Machine<D>, b: &Machine<D>) -> bool
    ensures { result ≡ true → AreSameMemories a.now.board.memory b.now.board.memory }
{
    if !same_devices(a, b) {
        return false;
    }
    a.has_same_ram(b)
}
