//! Files read and written while growths are refused.

mod sum;

use evm_elf::*;
use evm_room::NoMemory;
use std::alloc::Global;
use sum::SUM;

/// The number of the fault, or 0.
fn fault_number(alloc: Global, file: &[u8]) -> u8 {
    match read_image(alloc, file) {
        Ok(_) => 0,
        Err(fault) => fault.number(),
    }
}

/// Holds whichever growth is refused: a fault of the file is reported with or without memory.
#[test]
fn refused_growths_are_no_memory(rt: HostRuntime) {
    let alloc = rt.alloc();
    match read_image(alloc, &SUM) {
        Ok(image) => assert_eq!(rt; image.segments().len(), 2),
        Err(fault) => assert_eq!(rt; fault, ElfFault::NoMemory),
    }
    let mut overlapping = SUM;
    overlapping[80] = 0x10;
    overlapping[81] = 0x10;
    assert_eq!(rt; fault_number(alloc, &overlapping), 9);
    match write_bytes(alloc, &[0x13, 0, 0, 0]) {
        Ok(file) => assert_eq!(rt; file.len(), 124),
        Err(fault) => assert_eq!(rt; fault, NoMemory),
    }
}

/// Holds whichever growth is refused.
#[test]
fn sources_are_assembled_and_written_or_lack_memory(rt: HostRuntime) {
    let alloc = rt.alloc();
    match assemble(alloc, "start: nop\n j start\n") {
        Ok(program) => match write_image(alloc, &program) {
            Ok(file) => assert_eq!(rt; file.len(), 128),
            Err(fault) => assert_eq!(rt; fault, NoMemory),
        },
        Err(fault) => assert_eq!(rt; fault.kind, AsmFaultKind::NoMemory),
    }
}

#[test]
fn no_memory_has_its_message(rt: HostRuntime) {
    assert_eq!(rt; ElfFault::NoMemory.message(), "out of memory");
}
