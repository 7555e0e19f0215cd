//! The registers of a task as text.

ghost use Rattle.std.specs.Prelude.{◌≡◌, ◌<◌, ◌≤◌, ◌+◌, ◌++◌};
ghost use Rattle.std.specs.String.{string_bytes, string_capacity, string_len};
ghost use Rattle.evm_journal.specs.evm_text.Appending.{Appends};
ghost use Rattle.evm_exec.specs.Registers.{register_of};
ghost use Rattle.evm_debug.specs.Views.{four_registers, register_rows};
ghost use Rattle.evm_debug.specs.Pieces.{one_register};

use evm_exec::{Hart, REGISTERS};
use evm_isa::Register;
use evm_journal::{ascii_text, hexadecimal_word};
use evm_room::{Refused, grow_text};

/// How many bytes a register takes, with the character behind it.
const REGISTER_LENGTH: usize = 21;

/// How many bytes a line of four registers takes.
const LINE_LENGTH: usize = 4 * REGISTER_LENGTH;

/// How many bytes all registers take.
const ROWS_LENGTH: usize = REGISTERS as usize / 4 * LINE_LENGTH;

// A register by its number.
fn value(hart: &Hart, r: u8) -> u64
    requires { r < REGISTERS }
    ensures { result ≡ register_of hart.now.regs r }
{
    match Register::new(r) {
        Some(register) => hart.register(register),
        None => 0,
    }
}

// A register with a character behind it.
#[inline(always)]
fn one_register(r: u8, value: u64, last: u8) -> [u8; REGISTER_LENGTH]
    requires { r < 100 }
    ensures { result ≡ one_register r value last }
{
    let [a, b, c, d, e, f, g, h, i, j, k, l, m, n, o, p] = hexadecimal_word(value);
    let tens = b'0' + r / 10;
    let ones = b'0' + r % 10;
    [
        b'x', tens, ones, b' ', a, b, c, d, e, f, g, h, i, j, k, l, m, n, o, p, last,
    ]
}

// Appends a register, for which there is room.
#[inline(always)]
fn put_register(out: &mut String, r: u8, value: u64, last: u8)
    requires number { r < 100 }
    requires ascii { last < 128 }
    requires room { string_len out.old + REGISTER_LENGTH ≤ string_capacity out.old }
    ensures bytes { string_bytes out.new ≡ string_bytes out.old ++ one_register r value last }
    ensures len { string_len out.new ≡ string_len out.old + REGISTER_LENGTH }
    ensures capacity { string_capacity out.old ≤ string_capacity out.new }
{
    let text = one_register(r, value, last);
    let Ok(()) = out.push_str(ascii_text(&text)) else {
        unreachable!();
    };
}

// Appends a line of four registers, for which there is room.
fn put_register_line(out: &mut String, r: u8, hart: &Hart)
    requires number { r + 3 < REGISTERS }
    requires room { string_len out.old + LINE_LENGTH ≤ string_capacity out.old }
    ensures bytes { string_bytes out.new ≡ string_bytes out.old ++ four_registers r hart.now.regs }
    ensures len { string_len out.new ≡ string_len out.old + LINE_LENGTH }
    ensures capacity { string_capacity out.old ≤ string_capacity out.new }
{
    put_register(out, r, value(hart, r), b' ');
    put_register(out, r + 1, value(hart, r + 1), b' ');
    put_register(out, r + 2, value(hart, r + 2), b' ');
    put_register(out, r + 3, value(hart, r + 3), b'\n');
}

/// Appends all registers, four a line.
pub(crate) fn push_registers(out: &mut String, hart: &Hart) -> Result<(), Refused>
    ensures { Appends (register_rows hart.now.regs) out.old out.new result }
{
    // From here on no line can fail.
    grow_text(out, ROWS_LENGTH)?;
    for line in 0..REGISTERS / 4 {
        put_register_line(out, line * 4, hart);
    }
    Ok(())
}
