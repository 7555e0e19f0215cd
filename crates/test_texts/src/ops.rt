//! The names of the calls.

use crate::call::Call;
use crate::{files, instructions, lexer, packets, places, sources, statements, texts};
use std::io::{self, ErrorKind};

fn of_texts(op: &str, call: &Call<'_>, out: &mut String) -> io::Result<()> {
    match op {
        "decimal" => texts::decimal_front(call, out),
        "hexadecimal" => texts::hexadecimal_front(call, out),
        "pairs" => texts::pairs_front(call, out),
        "behind" => texts::behind(call, out),
        "number" => texts::number(call, out),
        "write_pairs" => texts::pairs(call, out),
        "line" => texts::first_line(call, out),
        "ended_line" => texts::ended_line(call, out),
        "json" => texts::json(call, out),
        "xml" => texts::xml(call, out),
        _ => Err(ErrorKind::NotFound.into()),
    }
}

fn of_packets(op: &str, call: &Call<'_>, out: &mut String) -> io::Result<()> {
    match op {
        "framed" => packets::framed(call, out),
        "item" => packets::item(call, out),
        "long_item" => packets::long_item(call, out),
        "digits" => packets::digits(call, out),
        "digits_read" => packets::digits_read(call, out),
        "utf8" => packets::utf8(call, out),
        "symbols" => files::symbols(call, out),
        "name_at" => files::name_at(call, out),
        "address_named" => files::address_named(call, out),
        _ => of_texts(op, call, out),
    }
}

fn of_files(op: &str, call: &Call<'_>, out: &mut String) -> io::Result<()> {
    match op {
        "image" => files::image(call, out),
        "image_fault" => files::image_fault(call, out),
        "image_told" => files::image_told(call, out),
        "image_behind" => files::image_behind(call, out),
        "image_hint" => files::image_hint(call, out),
        "fronts" => files::fronts(call, out),
        "written" => files::written(call, out),
        "written_bytes" => files::written_bytes(call, out),
        _ => of_packets(op, call, out),
    }
}

fn of_lexer(op: &str, call: &Call<'_>, out: &mut String) -> io::Result<()> {
    match op {
        "sound" => lexer::sound(call, out),
        "characters" => lexer::characters(call, out),
        "size" => lexer::number_size(call, out),
        "word" => lexer::word(call, out),
        "cut" => lexer::cut_at_comma(call, out),
        "blanks" => lexer::blanks(call, out),
        "mnemonic" => lexer::mnemonic(call, out),
        "register" => lexer::register(call, out),
        "kind" => lexer::kind(call, out),
        "least" => lexer::least_kind(call, out),
        _ => of_files(op, call, out),
    }
}

fn of_sources(op: &str, call: &Call<'_>, out: &mut String) -> io::Result<()> {
    match op {
        "fault" => sources::fault(call, out),
        "wrong_word" => sources::wrong_word(call, out),
        "detail" => sources::detail(call, out),
        "bytes" => sources::bytes(call, out),
        "words" => sources::words(call, out),
        "coded" => sources::coded(call, out),
        "label" => sources::label(call, out),
        "labels" => sources::labels(call, out),
        _ => of_lexer(op, call, out),
    }
}

fn of_statements(op: &str, call: &Call<'_>, out: &mut String) -> io::Result<()> {
    match op {
        "statement" => statements::statement(call, out),
        "kept" => statements::kept(call, out),
        "datum" => statements::datum(call, out),
        "operands" => statements::operands(call, out),
        _ => of_sources(op, call, out),
    }
}

/// Appends the answer of a call.
pub(crate) fn answer(op: &str, call: &Call<'_>, out: &mut String) -> io::Result<()> {
    match op {
        "decoded" => instructions::decoded(call, out),
        "encoded" => instructions::encoded(call, out),
        "numbers" => instructions::numbers(call, out),
        "set" => instructions::set(call, out),
        "executed" => instructions::executed(call, out),
        "burst" => instructions::burst(call, out),
        "cache" => instructions::cache(call, out),
        "ram" => places::ram(call, out),
        "line_set" => places::line_set(call, out),
        _ => of_statements(op, call, out),
    }
}
