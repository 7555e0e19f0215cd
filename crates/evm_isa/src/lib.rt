//! RV64I instruction words and what they stand for, by one table.
#![tactic(auto)]

mod decoding;
mod encoding;
mod fields;
mod inst;
mod laws;
mod mnemonics;

pub use decoding::decode;
pub use encoding::encode;
pub use inst::{
    BranchOp, ImmediateOp, Inst, LoadOp, Register, RegisterOp, Shift, ShiftOp, StoreOp, WordOp,
};
pub use laws::{
    decode_of_encode, decoded_by_table, encode_of_decode, encoded_by_table, one_instruction,
    one_word,
};
