//! What a command answers, as text.

ghost use Rattle.std.specs.Prelude.{◌≡◌, ◌++◌, [], OnOk};

use evm_room::{NoMemory, grow};
use std::alloc::Global;
use std::marker::Model;

/// The text of an answer.
#[derive(Drop)]
pub struct Page {
    bytes: Vec<u8>,
}

impl Model for Page {
    ghost use Rattle.std.specs.Prelude.{ℕ, List};

    ghost Value = { List ℕ };

    ghost view = { λ page. page.bytes.items };
}

impl Page {
    /// An empty page.
    pub fn new(alloc: Global) -> Self
        ensures { result ≡ [] }
    {
        Page {
            bytes: Vec::new(alloc),
        }
    }

    /// The text so far.
    pub fn bytes(&self) -> &[u8]
        ensures { result.now ≡ self.now }
    {
        &self.bytes
    }

    /// Takes all of the text away.
    pub fn clear(&mut self)
        ensures { self.new ≡ [] }
    {
        self.bytes.clear();
    }

    /// Where messages are reported.
    pub fn sink(&mut self) -> &mut Vec<u8> {
        &mut self.bytes
    }

    /// Appends bytes.
    pub fn put_bytes(&mut self, bytes: &[u8]) -> Result<(), NoMemory>
        ensures { OnOk result (self.new ≡ self.old ++ bytes.now) }
    {
        let Ok(()) = grow(&mut self.bytes, bytes.len()) else {
            return Err(NoMemory);
        };
        match self.bytes.extend_from_slice(bytes) {
            Ok(()) => Ok(()),
            Err(_) => Err(NoMemory),
        }
    }

    /// Appends a text.
    pub fn put(&mut self, text: &str) -> Result<(), NoMemory>
        ensures { OnOk result (self.new ≡ self.old ++ text.now) }
    {
        self.put_bytes(text.as_bytes())
    }

    /// Appends a number in decimal.
    pub fn put_decimal(&mut self, number: u64) -> Result<(), NoMemory> {
        let mut digits = [b'0'; 20];
        let mut left = number;
        let mut first = 19usize;
        for i in 0..20usize {
            digits[19 - i] = b'0' + (left % 10) as u8;
            first = 19 - i;
            left /= 10;
            if left == 0 {
                break;
            }
        }
        let first = first.min(digits.len() - 1);
        self.put_bytes(&digits[first..])
    }

    /// Appends a number in lower-case hexadecimal, without leading zeros.
    pub fn put_hexadecimal(&mut self, number: u64) -> Result<(), NoMemory> {
        let mut digits = [b'0'; 16];
        let mut left = number;
        let mut first = 15usize;
        for i in 0..16usize {
            digits[15 - i] = hexadecimal_digit((left % 16) as u8);
            first = 15 - i;
            left /= 16;
            if left == 0 {
                break;
            }
        }
        let first = first.min(digits.len() - 1);
        self.put_bytes(&digits[first..])
    }
}

fn hexadecimal_digit(value: u8) -> u8 {
    match value {
        0..=9 => b'0' + value,
        10..=15 => b'a' + (value - 10),
        _ => b'?',
    }
}
