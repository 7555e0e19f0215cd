//! Images loaded again, which no script can do.

use evm_devs::Pins;
use evm_diagnostics::{Answer, Event, Machine, Refusal};
use evm_elf::read_image;
use evm_ram::{BASE, Image};
use std::alloc::Global;
use std::process::Abort;
use std::test::Fail;

/// The number of RAM's bytes.
const SIZE: u64 = 65_536;

/// An image by the tables of the format: three bytes at 0x8000_0000 that take 16 bytes of memory, and
/// `addi a0,x0,5` at 0x8000_0100, where it begins.
const FILE: [u8; 183] = [
    0x7f, 0x45, 0x4c, 0x46, 2, 1, 1, 0, 0, 0, 0, 0, 0, 0, 0, 0, // e_ident
    2, 0, 0xf3, 0, 1, 0, 0, 0, // e_type, e_machine, e_version
    0, 1, 0, 0x80, 0, 0, 0, 0, // e_entry
    0x40, 0, 0, 0, 0, 0, 0, 0, // e_phoff
    0, 0, 0, 0, 0, 0, 0, 0, // e_shoff
    0, 0, 0, 0, 0x40, 0, 0x38, 0, // e_flags, e_ehsize, e_phentsize
    2, 0, 0, 0, 0, 0, 0, 0, // e_phnum, e_shentsize, e_shnum, e_shstrndx
    1, 0, 0, 0, 6, 0, 0, 0, // p_type, p_flags
    0xb0, 0, 0, 0, 0, 0, 0, 0, // p_offset
    0, 0, 0, 0x80, 0, 0, 0, 0, // p_vaddr
    0, 0, 0, 0x80, 0, 0, 0, 0, // p_paddr
    3, 0, 0, 0, 0, 0, 0, 0, // p_filesz
    16, 0, 0, 0, 0, 0, 0, 0, // p_memsz
    1, 0, 0, 0, 0, 0, 0, 0, // p_align
    1, 0, 0, 0, 5, 0, 0, 0, // p_type, p_flags
    0xb3, 0, 0, 0, 0, 0, 0, 0, // p_offset
    0, 1, 0, 0x80, 0, 0, 0, 0, // p_vaddr
    0, 1, 0, 0x80, 0, 0, 0, 0, // p_paddr
    4, 0, 0, 0, 0, 0, 0, 0, // p_filesz
    4, 0, 0, 0, 0, 0, 0, 0, // p_memsz
    4, 0, 0, 0, 0, 0, 0, 0, // p_align
    7, 8, 9, // the first segment
    0x13, 0x05, 0x50, 0, // the second
];

/// The offsets of e_entry, and of p_vaddr of the second segment.
const ENTRY: usize = 24;

const VADDR: usize = 136;

/// The image of the file with other numbers of eight bytes at some offsets.
fn image_with(alloc: Global, patches: &[(usize, u64)]) -> Result<Image, Fail> {
    let mut file = Vec::from_slice(alloc, &FILE)?;
    for (at, number) in patches {
        for (i, byte) in number.to_le_bytes().iter().enumerate() {
            if let Some(place) = at.checked_add(i)
                && let Some(old) = file.get_mut(place)
            {
                *old = *byte;
            }
        }
    }
    Ok(read_image(alloc, &file)?)
}

fn pc(machine: &Machine<Pins>) -> Result<u64, Fail> {
    Ok(machine.hart(0).ok_or("task 0")?.pc)
}

fn bytes(machine: &Machine<Pins>, address: u64, count: u64) -> Result<&[u8], Fail> {
    Ok(machine.bytes(address, count).ok_or("inside")?)
}

// The image in a machine, or why it is refused.
fn load(rt: &impl Abort, machine: &mut Machine<Pins>, image: &Image, wanted: Result<(), Refusal>) {
    assert_eq!(rt; machine.load(image), wanted);
}

// Bytes of RAM from an address on.
fn holds(
    rt: &impl Abort,
    machine: &Machine<Pins>,
    address: u64,
    wanted: &[u8],
) -> Result<(), Fail> {
    let count = wanted.len() as u64;
    assert_eq!(rt; bytes(machine, address, count)?, wanted, "at {address}");
    Ok(())
}

// The pc of the machine's first task.
fn stands_at(rt: &impl Abort, machine: &Machine<Pins>, wanted: u64) -> Result<(), Fail> {
    assert_eq!(rt; pc(machine)?, wanted);
    Ok(())
}

// Two images before the first event: the second takes the place of the first, and then the first that of the second.
fn is_loaded_again(
    rt: &impl Abort,
    alloc: Global,
    machine: &mut Machine<Pins>,
) -> Result<(), Fail> {
    let first = image_with(alloc, &[])?;
    let moved = image_with(alloc, &[(VADDR, 0x8000_fffc), (ENTRY, 0x80ff_fffc)])?;
    load(rt, machine, &first, Ok(()));
    load(rt, machine, &moved, Ok(()));
    holds(rt, machine, BASE + 0x100, &[0; 4])?;
    holds(rt, machine, BASE + 0xfffc, &[0x13, 0x05, 0x50, 0])?;
    stands_at(rt, machine, 0x80ff_fffc)?;
    load(rt, machine, &first, Ok(()));
    holds(rt, machine, BASE + 0xfffc, &[0; 4])
}

// The first image stands in RAM.
fn has_the_first(rt: &impl Abort, machine: &Machine<Pins>) -> Result<(), Fail> {
    holds(rt, machine, BASE, &[7, 8, 9, 0])?;
    holds(rt, machine, BASE + 0x100, &[0x13, 0x05, 0x50, 0])?;
    holds(rt, machine, BASE + 0x200, &[0; 4])?;
    stands_at(rt, machine, 0x8000_0100)
}

// An image past RAM, and any image behind an event, are refused, and change nothing.
fn is_refused_in(rt: &impl Abort, alloc: Global, machine: &mut Machine<Pins>) -> Result<(), Fail> {
    let large = image_with(alloc, &[(VADDR, 0x8001_0000), (ENTRY, 0x8000_0000)])?;
    let other = image_with(alloc, &[(VADDR, 0x8000_0200), (ENTRY, 0x8000_0000)])?;
    load(rt, machine, &large, Err(Refusal::BadAddress));
    has_the_first(rt, machine)?;
    assert_eq!(rt; machine.apply(Event::Tick), Ok(Answer::Done));
    load(rt, machine, &other, Err(Refusal::Started));
    load(rt, machine, &large, Err(Refusal::BadAddress));
    has_the_first(rt, machine)
}

#[test]
fn images_are_loaded_before_the_first_event(rt: HostRuntime) -> Result<(), Fail> {
    let mut machine = Machine::<Pins>::boot(rt.alloc(), 1, SIZE, 4)?;
    is_loaded_again(&rt, rt.alloc(), &mut machine)?;
    is_refused_in(&rt, rt.alloc(), &mut machine)
}
