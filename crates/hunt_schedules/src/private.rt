//! Steps that no other processor can see.

use evm_core::Machine;
use evm_devs::AnyDevice;
use hunt_failures::current;

/// The opcode of loads, in the low seven bits of an instruction.
const LOAD: u8 = 0x03;

/// The opcode of stores.
const STORE: u8 = 0x23;

/// The opcode of ECALL and EBREAK.
const SYSTEM: u8 = 0x73;

// Whether an instruction, by its bytes, reads and writes registers and what sp points to alone.
fn is_private(first: u8, second: u8, third: u8) -> bool {
    let by_sp = second >> 7 == 0 && third & 15 == 1;
    match first & 0x7f {
        LOAD | STORE => by_sp,
        SYSTEM => false,
        _ => true,
    }
}

/// Whether the next step of a processor, which has no line to receive, does an instruction on registers and what sp points to alone: it may
/// as well come before what other processors do.
pub(crate) fn is_private_step(machine: &Machine<AnyDevice>, cpu: u8) -> bool {
    let Some(wire) = machine.wire(cpu) else {
        return false;
    };
    if !wire.is_empty() {
        return false;
    }
    let Some(t) = current(machine, cpu) else {
        return false;
    };
    let Some(hart) = machine.hart(t) else {
        return false;
    };
    match machine.bytes(hart.pc, 4) {
        Some([first, second, third, _]) => is_private(*first, *second, *third),
        _ => false,
    }
}
