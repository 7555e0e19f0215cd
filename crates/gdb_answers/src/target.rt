//! The target as GDB sees it.

ghost use Rattle.std.specs.Prelude.{◌≡◌, ◌++◌, OnOk};
ghost use Rattle.gdb_answers.specs.Answers.{part_text};

use arrayvec::ArrayVec;
use evm_room::Refused;
use gdb_tape::push_bytes;

/// What is supported.
pub(crate) const SUPPORTED: &str = "PacketSize=4000;QStartNoAckMode+;qXfer:features:read+;\
qXfer:memory-map:read+;swbreak+;hwbreak+;vContSupported+;ReverseStep+;ReverseContinue+";

/// The actions of `vCont`.
pub(crate) const ACTIONS: &str = "vCont;c;C;s;S";

/// The target description: RV64I, 32 registers and the pc.
pub(crate) const DESCRIPTION: &str = "<?xml version=\"1.0\"?>
<!DOCTYPE target SYSTEM \"gdb-target.dtd\">
<target version=\"1.0\">
<architecture>riscv:rv64</architecture>
<osabi>none</osabi>
<feature name=\"org.gnu.gdb.riscv.cpu\">
<reg name=\"zero\" bitsize=\"64\" type=\"int\" regnum=\"0\"/>
<reg name=\"ra\" bitsize=\"64\" type=\"code_ptr\"/>
<reg name=\"sp\" bitsize=\"64\" type=\"data_ptr\"/>
<reg name=\"gp\" bitsize=\"64\" type=\"data_ptr\"/>
<reg name=\"tp\" bitsize=\"64\" type=\"data_ptr\"/>
<reg name=\"t0\" bitsize=\"64\" type=\"int\"/>
<reg name=\"t1\" bitsize=\"64\" type=\"int\"/>
<reg name=\"t2\" bitsize=\"64\" type=\"int\"/>
<reg name=\"fp\" bitsize=\"64\" type=\"data_ptr\"/>
<reg name=\"s1\" bitsize=\"64\" type=\"int\"/>
<reg name=\"a0\" bitsize=\"64\" type=\"int\"/>
<reg name=\"a1\" bitsize=\"64\" type=\"int\"/>
<reg name=\"a2\" bitsize=\"64\" type=\"int\"/>
<reg name=\"a3\" bitsize=\"64\" type=\"int\"/>
<reg name=\"a4\" bitsize=\"64\" type=\"int\"/>
<reg name=\"a5\" bitsize=\"64\" type=\"int\"/>
<reg name=\"a6\" bitsize=\"64\" type=\"int\"/>
<reg name=\"a7\" bitsize=\"64\" type=\"int\"/>
<reg name=\"s2\" bitsize=\"64\" type=\"int\"/>
<reg name=\"s3\" bitsize=\"64\" type=\"int\"/>
<reg name=\"s4\" bitsize=\"64\" type=\"int\"/>
<reg name=\"s5\" bitsize=\"64\" type=\"int\"/>
<reg name=\"s6\" bitsize=\"64\" type=\"int\"/>
<reg name=\"s7\" bitsize=\"64\" type=\"int\"/>
<reg name=\"s8\" bitsize=\"64\" type=\"int\"/>
<reg name=\"s9\" bitsize=\"64\" type=\"int\"/>
<reg name=\"s10\" bitsize=\"64\" type=\"int\"/>
<reg name=\"s11\" bitsize=\"64\" type=\"int\"/>
<reg name=\"t3\" bitsize=\"64\" type=\"int\"/>
<reg name=\"t4\" bitsize=\"64\" type=\"int\"/>
<reg name=\"t5\" bitsize=\"64\" type=\"int\"/>
<reg name=\"t6\" bitsize=\"64\" type=\"int\"/>
<reg name=\"pc\" bitsize=\"64\" type=\"code_ptr\"/>
</feature>
</target>
";

/// The memory map of RAM of this size, and of the registers of this number of devices.
pub(crate) fn memory_map(ram: u64, devices: usize) -> MemoryMap {
    let mut map = ArrayVec::new();
    push_map(&mut map, MAP_HEAD);
    for i in 0..devices.min(DEVICE_LIMIT) {
        push_region(&mut map, DEVICES + i as u64 * DEVICE_STRIDE, DEVICE_BYTES);
    }
    push_region(&mut map, RAM, ram);
    push_map(&mut map, MAP_TAIL);
    map
}

/// A memory map.
type MemoryMap = ArrayVec<u8, 1024>;

/// Where RAM begins.
const RAM: u64 = 0x8000_0000;

/// Where the registers of the first device are, how far those of the next are, and how many bytes they take.
const DEVICES: u64 = 0x1000_0000;

const DEVICE_STRIDE: u64 = 0x1000;

const DEVICE_BYTES: u64 = 0x80;

/// How many devices there are at most.
const DEVICE_LIMIT: usize = 8;

const MAP_HEAD: &str = "<?xml version=\"1.0\"?>
<!DOCTYPE memory-map PUBLIC \"+//IDN gnu.org//DTD GDB Memory Map V1.0//EN\" \"http://sourceware.org/gdb/gdb-memory-map.dtd\">
<memory-map>
";

const MAP_TAIL: &str = "</memory-map>\n";

// Appends a text; of one that is too long nothing.
fn push_map(map: &mut MemoryMap, text: &str) {
    let _ = map.try_extend_from_slice(text.as_bytes());
}

// Appends a number of 16 digits.
fn push_number(map: &mut MemoryMap, number: u64) {
    for byte in number.to_be_bytes().as_slice() {
        let _ = map.try_push(digit(*byte / 16));
        let _ = map.try_push(digit(*byte % 16));
    }
}

// Appends memory that may be read and written.
fn push_region(map: &mut MemoryMap, start: u64, length: u64) {
    push_map(map, "<memory type=\"ram\" start=\"0x");
    push_number(map, start);
    push_map(map, "\" length=\"0x");
    push_number(map, length);
    push_map(map, "\"/>\n");
}

// The digit of a number below 16.
fn digit(number: u8) -> u8 {
    if number < 10 {
        b'0'.wrapping_add(number)
    } else {
        b'a'.wrapping_add(number.wrapping_sub(10))
    }
}

/// Appends the part of a document from an offset on, at most `count` bytes, behind `m` or, of its end, `l`.
pub(crate) fn push_part(
    out: &mut Vec<u8>,
    document: &[u8],
    offset: u64,
    count: u64,
) -> Result<(), Refused>
    ensures ok { OnOk result (out.new.items ≡ out.old.items ++ part_text document.now offset count) }
{
    let len = document.len() as u64;
    if offset >= len {
        return push_bytes(out, b"l");
    }
    let rest = &document[offset as usize..];
    if count < rest.len() as u64 {
        push_bytes(out, b"m")?;
        push_bytes(out, &rest[..count as usize])
    } else {
        push_bytes(out, b"l")?;
        push_bytes(out, rest)
    }
}
