//! Numbers, bytes and words as ASCII text: written, and read from the front of some bytes. The lines of a text.
#![tactic(auto)]

mod fields;
mod hexadecimal;
mod laws;
mod lines;
mod reading;
mod writing;

pub use fields::{
    count_last, decimal_last, decimal_then, hexadecimal_last, hexadecimal_then, pairs_last,
    u8_last, u8_then,
};
pub use hexadecimal::{ascii_text, hexadecimal_word, push_hexadecimal_padded};
pub use laws::{
    divides_decimals, divides_hexadecimals, pads_to_count, pads_with_zeros, reads_decimal_last,
    reads_decimal_then, reads_decimals, reads_hexadecimal_last, reads_hexadecimal_then,
    reads_hexadecimals, reads_pairs, reads_pairs_last, reads_u8_last, reads_u8_then, reads_values,
    reads_words,
};
pub use lines::{cut_ended, cut_line};
pub use reading::{BLOCK_LIMIT, after_word, decimal_at, hexadecimal_at, pairs_at};
pub use writing::{push_decimal, push_hexadecimal, push_pairs};
