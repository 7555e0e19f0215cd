//! Messages: words, with numbers between them.

use std::fmt;

/// A number in a message.
#[derive(Clone, Copy, Debug, PartialEq, Eq)]
pub enum Numeral {
    /// A count or a size, in decimal.
    Decimal(u64),
    /// An address or a byte, in hexadecimal.
    Hexadecimal(u64),
}

/// A message.
#[derive(Clone, Copy, Debug, PartialEq, Eq)]
pub enum Message {
    /// These words.
    Plain(&'static str),
    /// Words with a number between them.
    WithOne(&'static str, Numeral, &'static str),
    /// Words with two numbers between them.
    WithTwo(&'static str, Numeral, &'static str, Numeral, &'static str),
}

impl fmt::Display for Numeral {
    fn fmt<W: fmt::Write>(&self, f: &mut fmt::Formatter<W>) -> fmt::Result {
        match self {
            Numeral::Decimal(number) => write!(f, "{number}"),
            Numeral::Hexadecimal(number) => write!(f, "{number:x}"),
        }
    }
}

impl fmt::Display for Message {
    fn fmt<W: fmt::Write>(&self, f: &mut fmt::Formatter<W>) -> fmt::Result {
        match self {
            Message::Plain(words) => write!(f, "{words}"),
            Message::WithOne(front, number, back) => write!(f, "{front}{number}{back}"),
            Message::WithTwo(front, first, between, second, back) => {
                write!(f, "{front}{first}{between}{second}{back}")
            }
        }
    }
}
