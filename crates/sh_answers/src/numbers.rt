//! Numbers and names of addresses in the words of a line.

use evm_text::{decimal_last, hexadecimal_last};
use text_symbols::Symbols;

/// A number in decimal, or in hexadecimal behind `0x`.
pub fn number_of(word: &str) -> Option<u64> {
    match word.strip_prefix("0x") {
        Some(digits) => hexadecimal_last(digits.as_bytes()),
        None => decimal_last(word.as_bytes()),
    }
}

/// The address that `NAME`, `NAME+N` or `NAME-N` names.
fn named(symbols: &Symbols, word: &str) -> Option<u64> {
    if let Some(address) = symbols.address(word) {
        return Some(address);
    }
    if let Some((name, offset)) = word.split_once('+') {
        return symbols.address(name)?.checked_add(number_of(offset)?);
    }
    if let Some((name, offset)) = word.split_once('-') {
        return symbols.address(name)?.checked_sub(number_of(offset)?);
    }
    None
}

/// The address that a word is: a hexadecimal number as scripts have it, or a name with an offset. What can be both is a number.
pub fn address_of(symbols: &Symbols, word: &str) -> Option<u64> {
    match hexadecimal_last(word.as_bytes()) {
        Some(address) => Some(address),
        None => named(symbols, word),
    }
}

// Whether a word may be the name of a symbol.
fn is_name(word: &str) -> bool {
    match word.as_bytes() {
        [first, ..] => *first < b'0' || b'9' < *first,
        [] => false,
    }
}

/// The name in a word that would be an address, were it the name of a symbol.
pub fn missing_name<'a>(symbols: &Symbols, word: &'a str) -> Option<&'a str> {
    if address_of(symbols, word).is_some() {
        return None;
    }
    let name = match word.split_once('+') {
        Some((name, _)) => name,
        None => match word.split_once('-') {
            Some((name, _)) => name,
            None => word,
        },
    };
    if is_name(name) && symbols.address(name).is_none() {
        Some(name)
    } else {
        None
    }
}
