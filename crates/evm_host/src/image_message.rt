//! The message of a file that is not an image.

use evm_serve::{ElfFault, ImageDetail, image_detail};
use evm_streams::{Message, Numeral};

// A file for another machine, by its number in the header.
fn machine_message(number: u16) -> Message {
    if number == 62 {
        Message::Plain("for x86-64, not for RISC-V; compile with a compiler for riscv64")
    } else {
        Message::WithOne(
            "for machine ",
            Numeral::Decimal(u64::from(number)),
            " by its header, not for RISC-V, which is 243",
        )
    }
}

// A number, or the greatest below 2^64.
fn below_2_64(number: u128) -> u64 {
    if number <= 0xffff_ffff_ffff_ffff {
        number as u64
    } else {
        u64::MAX
    }
}

// Where a segment is outside that begins at this address.
fn outside_words(start: u64) -> &'static str {
    if start < 0x8000_0000 {
        " is outside 80000000..81000000; link with kit/link.ld"
    } else {
        " is outside 80000000..81000000; RAM has at most 16777216 bytes"
    }
}

// The message of a detail of a fault.
fn image_detail_message(fault: ElfFault, detail: ImageDetail) -> Message {
    match detail {
        ImageDetail::Machine(number) => machine_message(number),
        ImageDetail::HeaderSize(size) => Message::WithOne(
            "its program headers have ",
            Numeral::Decimal(u64::from(size)),
            " bytes each; they must have 56",
        ),
        ImageDetail::HeaderCut(index) => Message::WithOne(
            "the file is cut: it ends before program header ",
            Numeral::Decimal(u64::from(index)),
            " does",
        ),
        ImageDetail::Cut { index, end } => Message::WithTwo(
            "the file is cut: segment ",
            Numeral::Decimal(u64::from(index)),
            " ends at byte ",
            Numeral::Decimal(below_2_64(end)),
            ", past the end of the file",
        ),
        ImageDetail::Outside {
            index: _,
            start,
            end,
        } => Message::WithTwo(
            "the segment at ",
            Numeral::Hexadecimal(start),
            "..",
            Numeral::Hexadecimal(below_2_64(end)),
            outside_words(start),
        ),
        ImageDetail::Entry(address) => Message::WithOne(
            "the entry ",
            Numeral::Hexadecimal(address),
            " is outside 80000000..81000000, or is not a multiple of 4",
        ),
        ImageDetail::Compressed => Message::Plain(
            "it has compressed instructions; compile with -march=rv64i -mabi=lp64",
        ),
        _ => Message::Plain(match detail.hint() {
            Some(hint) => hint,
            None => fault.message(),
        }),
    }
}

// The message of the fault of a file that is not a journal.
fn file_message(file: &[u8], fault: ElfFault) -> Message {
    match image_detail(file, fault) {
        Some(detail) => image_detail_message(fault, detail),
        None => Message::Plain(fault.message()),
    }
}

/// The message of the fault of a file: what is wrong there, if more is known than its kind.
pub fn image_message(file: &[u8], fault: ElfFault) -> Message {
    if file.starts_with(b"evl-journal ") {
        Message::Plain("it is a journal, not an image; the order is `replay IMAGE JOURNAL`")
    } else {
        file_message(file, fault)
    }
}
