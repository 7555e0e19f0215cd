//! `show ADDRESS as TYPE[N]`: what RAM holds, as numbers.

use crate::numbers::{address_of, number_of};
use crate::page::Page;
use crate::words::split_word;
use evm_room::NoMemory;
use evm_serve::{AnyDevice, Machine};
use text_symbols::Names;

/// Numbers of RAM: where they are, how many bytes each has, whether they have a sign, and how many there are.
#[derive(Clone, Copy, Debug)]
pub struct Numbers {
    address: u64,
    size: u8,
    signed: bool,
    count: u8,
}

// The size of a type, and whether it has a sign.
fn type_of(word: &str) -> Option<(u8, bool)> {
    match word {
        "s8" => Some((1, true)),
        "s16" => Some((2, true)),
        "s32" => Some((4, true)),
        "s64" => Some((8, true)),
        "u8" => Some((1, false)),
        "u16" => Some((2, false)),
        "u32" => Some((4, false)),
        "u64" => Some((8, false)),
        _ => None,
    }
}

// A type and how many of it, as in `s64[4]`.
fn shape_of(word: &str) -> Option<(u8, bool, u8)> {
    let Some((name, rest)) = word.split_once('[') else {
        let (size, signed) = type_of(word)?;
        return Some((size, signed, 1));
    };
    let (size, signed) = type_of(name)?;
    let count = number_of(rest.strip_suffix(']')?)?;
    if count == 0 || count > 64 {
        return None;
    }
    Some((size, signed, count as u8))
}

/// What the words `ADDRESS as TYPE[N]` ask for.
pub fn numbers_of(names: &Names, text: &str) -> Option<Numbers> {
    let (place, rest) = split_word(text);
    let (with, rest) = split_word(rest);
    let (shape, rest) = split_word(rest);
    if with != "as" || !rest.is_empty() {
        return None;
    }
    let address = address_of(&names.symbols, place)?;
    let (size, signed, count) = shape_of(shape)?;
    Some(Numbers {
        address,
        size,
        signed,
        count,
    })
}

// The number of some bytes, the lowest first.
fn value_of(bytes: &[u8]) -> u64 {
    let mut value = 0u64;
    for byte in bytes.iter().rev() {
        value = value.wrapping_mul(256).wrapping_add(u64::from(*byte));
    }
    value
}

// Whether a number of so many bytes is negative, if it has a sign.
fn is_negative(value: u64, size: u8) -> bool {
    match size {
        1 => value >= 0x80,
        2 => value >= 0x8000,
        4 => value >= 0x8000_0000,
        _ => value >= 0x8000_0000_0000_0000,
    }
}

fn magnitude(value: u64, size: u8) -> u64 {
    let negated = value.wrapping_neg();
    match size {
        1 => negated % 0x100,
        2 => negated % 0x1_0000,
        4 => negated % 0x1_0000_0000,
        _ => negated,
    }
}

fn put_value(page: &mut Page, bytes: &[u8], numbers: Numbers) -> Result<(), NoMemory> {
    let value = value_of(bytes);
    page.put(" ")?;
    if numbers.signed && is_negative(value, numbers.size) {
        page.put("-")?;
        return page.put_decimal(magnitude(value, numbers.size));
    }
    page.put_decimal(value)
}

/// Shows the numbers, or answers that they are not all in RAM.
pub fn put_numbers(
    page: &mut Page,
    machine: &Machine<AnyDevice>,
    numbers: Numbers,
) -> Result<bool, NoMemory> {
    let mut address = numbers.address;
    for _ in 0..numbers.count {
        let Some(bytes) = machine.bytes(address, u64::from(numbers.size)) else {
            return Ok(false);
        };
        put_value(page, bytes, numbers)?;
        address = address.wrapping_add(u64::from(numbers.size));
    }
    Ok(true)
}
