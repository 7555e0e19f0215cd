ghost use Rattle.std.specs.Prelude.{◌≡◌, ◌↔◌, ◌++◌, ◌∷◌, Ok, Some, [], IfSome, option_map};
ghost use Rattle.std.specs.Result.{result_ok};
ghost use Rattle.evm_journal.specs.evm_history.EventLine.{short_line};
ghost use Rattle.evm_journal.specs.evm_text.Rows.{said_at, rows_at, row_as, rows_as};
ghost use Rattle.evm_journal.specs.EventLine.{event_rows, poke_row, poke_said, short_rows};
ghost use Rattle.evm_debug.specs.Line.{mem_row, counts_row, bare_rows, bare_said, view_rows, script_line, is_blank_line, IsSpelled};
ghost use Rattle.evm_debug.specs.LineReading.{script_boot_at, line_at};
ghost use Rattle.evm_debug.specs.declared.line.Line.TheVariants.{Show};

use crate::line::{Bad, Line, View};
use evm_journal::{
    EventLine, after_word, decimal_last, hexadecimal_then, read_event_line, read_poke_line,
    read_short_line, read_unwatched_boot, read_watched_boot, u8_last, u8_then,
};
use evm_model::{Block, Boot, NoBytes, PROFILE_LIMIT};

fn is_blank_line(bytes: &[u8]) -> bool
    ensures { result ≡ is_blank_line bytes.now }
{
    match bytes {
        [] => true,
        [first, ..] => *first == b'#',
    }
}

// The numbers of a boot line: three, or else four.
fn boot_at(bytes: &[u8]) -> Option<Boot>
    ensures { result ≡ script_boot_at bytes.now }
{
    let profile = u64::from(PROFILE_LIMIT);
    match read_unwatched_boot(profile, bytes) {
        Some(boot) => Some(boot),
        None => read_watched_boot(profile, bytes),
    }
}

fn mem_at(bytes: &[u8]) -> Option<Line>
    ensures { result ≡ said_at (row_as Show mem_row) bytes.now }
{
    let (address, rest) = hexadecimal_then(bytes)?;
    Some(Line::Show(View::Mem(address, decimal_last(rest)?)))
}

fn counts_at(bytes: &[u8]) -> Option<Line>
    ensures { result ≡ said_at (row_as Show counts_row) bytes.now }
{
    let (cpu, rest) = u8_then(bytes)?;
    Some(Line::Show(View::Counts(cpu, u8_last(rest)?)))
}

// A view whose keyword is all of its line.
fn bare(view: View, rest: &[u8]) -> Option<Line>
    ensures { result ≡ bare_said view rest.now }
{
    if rest.is_empty() {
        Some(Line::Show(view))
    } else {
        None
    }
}

fn events_at(bytes: &[u8]) -> Option<Line>
    ensures { result ≡ rows_at (rows_as script_line event_rows) bytes.now }
{
    match read_event_line(bytes)? {
        EventLine::Steps(cpu, count) => Some(Line::Steps(cpu, count)),
        EventLine::One(event) => Some(Line::One(event)),
    }
}

fn bare_at(bytes: &[u8]) -> Option<Line>
    ensures { result ≡ rows_at (rows_as Show bare_rows ++ rows_as script_line event_rows) bytes.now }
{
    if let Some(rest) = after_word(b"tasks", bytes) {
        return bare(View::Tasks, rest);
    }
    if let Some(rest) = after_word(b"owners", bytes) {
        return bare(View::Owners, rest);
    }
    if let Some(rest) = after_word(b"notices", bytes) {
        return bare(View::Notices, rest);
    }
    if let Some(rest) = after_word(b"journal", bytes) {
        return bare(View::Journal, rest);
    }
    if let Some(rest) = after_word(b"console", bytes) {
        return bare(View::Console, rest);
    }
    events_at(bytes)
}

fn view_at(bytes: &[u8]) -> Option<Line>
    ensures { result ≡ rows_at (rows_as Show view_rows ++ rows_as script_line event_rows) bytes.now }
{
    if let Some(rest) = after_word(b"regs ", bytes) {
        return Some(Line::Show(View::Regs(u8_last(rest)?)));
    }
    if let Some(rest) = after_word(b"mem ", bytes) {
        return mem_at(rest);
    }
    if let Some(rest) = after_word(b"stages ", bytes) {
        return Some(Line::Show(View::Stages(u8_last(rest)?)));
    }
    if let Some(rest) = after_word(b"rank ", bytes) {
        return Some(Line::Show(View::Rank(u8_last(rest)?)));
    }
    if let Some(rest) = after_word(b"counts ", bytes) {
        return counts_at(rest);
    }
    if let Some(rest) = after_word(b"words ", bytes) {
        return Some(Line::Show(View::Words(u8_last(rest)?)));
    }
    bare_at(bytes)
}

#[tactic(auto, unfolding(crate::specs::LineReading::line_at))]
fn line_at(bytes: &[u8]) -> Option<Line>
    ensures { result ≡ line_at bytes.now }
{
    if is_blank_line(bytes) {
        return Some(Line::Blank);
    }
    if let Some(rest) = after_word(b"boot ", bytes) {
        return Some(Line::Boot(boot_at(rest)?));
    }
    view_at(bytes)
}

/// The line of events without bytes that a line of a script is; most lines of a long script are such. It comes
/// without its newline. `None` for any other line.
#[inline(always)]
#[tactic(auto, using(crate::proofs::Lines::short_read))]
pub fn read_short(bytes: &[u8]) -> Option<EventLine<NoBytes>>
    // It is what the whole grammar reads.
    ensures read { IfSome result (λ short. line_at bytes.now ≡ Some (script_line (short_line short))) }
    // Each that is such a line is read.
    ensures exact { option_map short_line result ≡ rows_at short_rows bytes.now }
{
    read_short_line(bytes)
}

/// The address and the bytes of a line `poke A HEX`, without its newline. `None` for any other line.
#[inline]
#[tactic(auto, using(crate::proofs::Lines::poke_read))]
pub fn read_poke(bytes: &[u8]) -> Option<(u64, Block)>
    // It is what the whole grammar reads.
    ensures read { IfSome result (λ poke. line_at bytes.now ≡ Some (script_line (poke_said poke))) }
    // Each that is such a line is read.
    ensures exact { option_map poke_said result ≡ rows_at (poke_row ∷ []) bytes.now }
{
    read_poke_line(bytes)
}

/// Reads a line of a script, without its newline.
///
/// # Errors
///
/// The line is outside the grammar.
pub fn read_line(bytes: &[u8]) -> Result<Line, Bad>
    // What is read is spelled so, and each line that is spelled so is read.
    ensures spelled { (line : Line) → (result ≡ Ok line) ↔ IsSpelled line bytes.now }
    // It is what the grammar reads from the front on.
    ensures exact { result_ok result ≡ line_at bytes.now }
{
    line_at(bytes).ok_or(Bad)
}
