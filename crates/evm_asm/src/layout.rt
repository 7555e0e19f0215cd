//! The lines of a source, its labels, and where they are.

ghost use Rattle.std.specs.Prelude.{◌≡◌, ◌≤◌, ◌+◌, IfOk, IfErr, OnOk, length, false, [], ◌∷◌, ◌++◌};
ghost use Rattle.std.specs.Option.{option_map};
ghost use Rattle.evm_asm_parser.specs.Kept.{kept_statement};
ghost use Rattle.evm_asm.specs.Sources.{code_of, label_at, behind_labels, with_label, defined, statement_text, outcome, behind_reading, line_laid, first_fault, laid, nothing_laid, source_lines, source_start, IsLaid};
ghost use Rattle.evm_asm.specs.Kept.{AreKept};
ghost use Rattle.evm_asm.specs.Places.{here, statement_in};

use crate::failure::Shortage;
use crate::place::{SectionPlace, here, place_behind, source_start, statement_in};
use evm_asm_parser::{
    KeptLines, Labels, SourceFault, SourceFaultKind, Spot, StatementReading, after, before, cut,
    has_byte, least, name_in,
};
use evm_room::Refused;
use std::alloc::Global;

/// A line without its comment.
#[tactic(auto, unfolding(crate::specs::Sources::code_of))]
pub fn code_of(line: &[u8]) -> &[u8]
    ensures { result.now ≡ code_of line.now }
{
    before(b'#', line)
}

/// The label at the front of a text, and what is behind it.
#[tactic(auto, unfolding(crate::specs::Sources::label_at))]
pub fn label_at(text: &[u8]) -> Option<(&[u8], &[u8])>
    ensures { option_map (λ x. (x.0.now, x.1.now)) result ≡ label_at text.now }
{
    if !has_byte(b':', text) {
        return None;
    }
    match name_in(before(b':', text)) {
        Some(name) => Some((name, after(b':', text))),
        None => None,
    }
}

/// The text behind its labels.
pub fn statement_text(text: &[u8]) -> &[u8]
    ensures { result.now ≡ behind_labels (length text.now) text.now }
{
    let mut rest = text;
    for _ in 0..text.len() {
        match label_at(rest) {
            None => return rest,
            Some((_, tail)) => rest = tail,
        }
    }
    rest
}

/// Adds a label that is new; true where one came twice.
#[tactic(auto, unfolding(crate::specs::Sources::with_label))]
fn add_label(
    alloc: Global,
    labels: &mut Labels,
    spot: Spot,
    name: &[u8],
    twice: bool,
) -> Result<bool, Refused>
    ensures refused { IfErr result (λ asked. asked ≤ length name.now + 1) }
    ensures added { IfOk result (λ after. record { labels = labels.new; twice = after } ≡ with_label spot name.now (record { labels = labels.old; twice = twice })) }
{
    if labels.find(name).is_some() {
        return Ok(true);
    }
    labels.add(alloc, name, spot)?;
    Ok(twice)
}

/// Adds the labels at the front of a text; true where one came twice, and the text behind them.
fn define<'a>(
    alloc: Global,
    labels: &mut Labels,
    spot: Spot,
    text: &'a [u8],
) -> Result<(bool, &'a [u8]), Refused>
    ensures refused { IfErr result (λ asked. asked ≤ length text.now + 1) }
    ensures defined { IfOk result (λ after. record { labels = labels.new; twice = after.0 } ≡ defined (length text.now) spot text.now (record { labels = labels.old; twice = false })) }
    ensures behind { IfOk result (λ after. after.1.now ≡ behind_labels (length text.now) text.now) }
{
    let mut twice = false;
    let mut rest = text;
    for _ in 0..text.len() {
        match label_at(rest) {
            None => return Ok((twice, rest)),
            Some((name, tail)) => {
                twice = add_label(alloc, labels, spot, name, twice)?;
                rest = tail;
            }
        }
    }
    Ok((twice, rest))
}

fn outcome(
    place: SectionPlace,
    twice: bool,
    measured: Result<SectionPlace, SourceFaultKind>,
) -> (SectionPlace, Option<SourceFaultKind>)
    ensures { result ≡ outcome place twice measured }
{
    match measured {
        Ok(next) => {
            if twice {
                (place, Some(SourceFaultKind::LabelTwice))
            } else {
                (next, None)
            }
        }
        Err(kind) => {
            if twice {
                (place, Some(least(SourceFaultKind::LabelTwice, kind)))
            } else {
                (place, Some(kind))
            }
        }
    }
}

/// The place behind what is read.
fn behind_reading(
    place: SectionPlace,
    reading: &StatementReading,
) -> Result<SectionPlace, SourceFaultKind>
    ensures { result ≡ behind_reading place reading.now }
{
    match reading {
        Ok(statement) => place_behind(place, *statement),
        Err(kind) => Err(*kind),
    }
}

#[tactic(auto, unfolding(crate::specs::Sources::line_laid, crate::specs::Sources::measured))]
fn lay_line(
    alloc: Global,
    labels: &mut Labels,
    kept: &mut KeptLines,
    place: SectionPlace,
    code: &[u8],
) -> Result<(SectionPlace, Option<SourceFaultKind>), Refused>
    ensures laid { IfOk result (λ after. (labels.new, after) ≡ line_laid labels.old place code.now) }
    ensures refused { IfErr result (λ asked. asked ≤ length code.now + 1) }
    ensures kept { OnOk result (kept.new ≡ kept.old ++ kept_statement (here place) (statement_in labels.new place (statement_text code.now)) ∷ []) }
{
    let (twice, text) = define(alloc, labels, here(place), code)?;
    let reading = statement_in(labels, place, text);
    kept.keep(here(place), &reading)?;
    let end = behind_reading(place, &reading);
    Ok(outcome(place, twice, end))
}

fn first_fault(
    first: Option<SourceFault>,
    line: u64,
    kind: Option<SourceFaultKind>,
) -> Option<SourceFault>
    ensures { result ≡ first_fault first line kind }
{
    match (first, kind) {
        (Some(fault), _) => Some(fault),
        (None, Some(kind)) => Some(SourceFault { line, kind }),
        (None, None) => None,
    }
}

/// A source, laid out: its labels, the place behind it, and the first of its lines that has a fault, those
/// that a label causes apart.
#[derive(Drop)]
pub struct Layout {
    pub labels: Labels,
    pub place: SectionPlace,
    pub first: Option<SourceFault>,
}

/// Lays out a source, and keeps of its lines what need not be read again.
pub fn lay_out(alloc: Global, source: &[u8]) -> Result<(Layout, KeptLines), Shortage>
    ensures laid { IfOk result (λ r. IsLaid r.0.labels r.0.place r.0.first (laid nothing_laid (source_lines source.now))) }
    ensures kept { IfOk result (λ r. AreKept r.1 (source_lines source.now)) }
    // It gives up only where a growth was refused that is hardly greater than the source.
    ensures refused { IfErr result (λ shortage. shortage.refused ≤ length source.now + 1) }
{
    let mut labels = Labels::new(alloc);
    let mut kept = KeptLines::new(alloc);
    let mut place = source_start();
    let mut first = None;
    let mut lines: u64 = 0;
    let mut rest = source;
    while !rest.is_empty() {
        let (line, behind) = cut(b'\n', rest);
        let code = code_of(line);
        let (next, fault) = match lay_line(alloc, &mut labels, &mut kept, place, code) {
            Ok(laid) => laid,
            Err(refused) => {
                return Err(Shortage {
                    line: lines + 1,
                    refused,
                });
            }
        };
        lines += 1;
        first = first_fault(first, lines, fault);
        place = next;
        rest = behind;
    }
    let layout = Layout {
        labels,
        place,
        first,
    };
    Ok((layout, kept))
}
