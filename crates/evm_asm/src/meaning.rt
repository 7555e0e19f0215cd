//! The items of a source, line by line.

ghost use Rattle.std.specs.Prelude.{◌≡◌, Ok, IfOk, IfErr};
ghost use Rattle.evm_asm.specs.Places.{place_behind, statement_in};
ghost use Rattle.evm_asm.specs.Sources.{IsLaid, source_lines, statement_text};
ghost use Rattle.evm_asm.specs.Kept.{IsKept, AreKept, first_kept, other_kept};
ghost use Rattle.evm_asm.specs.Items.{IsMeant, Gives, unless_stopped, line_or_fault, layout_of, with_item, with_instructions, number_pushed, with_numbers, operands, with_statement, statement_meant, line_meant, least_so_far, stop_at, lines_meant, meaning_of};

use crate::failure::{AssemblyFailure, Shortage};
use crate::item::{Expansion, Placed, SourceItem, TEXT_BASE, expanded, filling, value_in};
use crate::layout::{Layout, code_of, statement_text};
use crate::place::{SectionPlace, here, place_behind, source_start, statement_in};
use evm_asm_parser::{
    DataWidth, Kept, KeptLines, Labels, Section, SourceFault, SourceFaultKind, Statement,
    StatementReading, behind_word, cut, first_operand, least, other_operands, push, skip_blanks,
};
use evm_room::Refused;
use std::alloc::Global;

/// Why a line has no meaning: a growth was refused, or the line has a fault.
#[derive(Drop)]
pub enum LineFailure {
    Memory(Refused),
    Fault(SourceFaultKind),
}

/// A line of a source: its number, where its items stand, and what of its text is still to be read.
#[derive(Clone, Copy)]
struct PlacedLine<'a> {
    number: u64,
    place: SectionPlace,
    text: &'a [u8],
}

fn push_item(items: &mut Vec<Placed>, section: Section, item: SourceItem) -> Result<(), LineFailure>
    ensures { IsMeant (λ _. items.new.items) result (Ok (with_item section item items.old.items)) }
{
    push(items, Placed { section, item }).map_err(LineFailure::Memory)
}

#[tactic(auto, unfolding(crate::specs::Items::with_instructions))]
fn push_instructions(
    items: &mut Vec<Placed>,
    line: u64,
    expansion: Expansion,
) -> Result<(), LineFailure>
    ensures { IsMeant (λ _. items.new.items) result (Ok (with_instructions line expansion items.old.items)) }
{
    match expansion {
        Expansion::Empty => Ok(()),
        Expansion::Single(a) => push_item(items, Section::Text, SourceItem::Instruction(line, a)),
        Expansion::Double(a, b) => {
            push_item(items, Section::Text, SourceItem::Instruction(line, a))?;
            push_item(items, Section::Text, SourceItem::Instruction(line, b))
        }
    }
}

fn operands(text: &[u8]) -> &[u8]
    ensures { result.now ≡ operands text.now }
{
    behind_word(skip_blanks(text))
}

#[tactic(auto, unfolding(crate::specs::Items::number_pushed))]
fn push_number(
    items: &mut Vec<Placed>,
    layout: &Layout,
    section: Section,
    width: DataWidth,
    text: &[u8],
) -> Result<(), LineFailure>
    ensures { IsMeant (λ _. items.new.items) result (number_pushed layout.now.labels layout.now.place.text_size section width text.now items.old.items) }
{
    match value_in(&layout.labels, layout.place.text_size, width, text) {
        Ok(value) => push_item(items, section, SourceItem::Number(width, value)),
        Err(kind) => Err(LineFailure::Fault(kind)),
    }
}

fn push_numbers(
    items: &mut Vec<Placed>,
    layout: &Layout,
    line: &PlacedLine<'_>,
    width: DataWidth,
    count: u64,
) -> Result<(), LineFailure>
    ensures { IsMeant (λ _. items.new.items) result (with_numbers layout.now.labels layout.now.place.text_size line.now.place.section width count (operands line.now.text.now) items.old.items) }
{
    let mut rest = operands(line.text);
    for _ in 0..count {
        push_number(
            items,
            layout,
            line.place.section,
            width,
            first_operand(rest),
        )?;
        rest = other_operands(rest);
    }
    Ok(())
}

#[tactic(auto, unfolding(crate::specs::Items::with_statement))]
fn push_statement(
    items: &mut Vec<Placed>,
    layout: &Layout,
    line: &PlacedLine<'_>,
    statement: &Statement,
) -> Result<(), LineFailure>
    ensures { IsMeant (λ _. items.new.items) result (with_statement layout.now.labels layout.now.place.text_size line.now.number line.now.place line.now.text.now statement.now items.old.items) }
{
    let place = line.place;
    match *statement {
        Statement::Numbers { width, count } => push_numbers(items, layout, line, width, count),
        Statement::Space(size) => push_item(items, place.section, SourceItem::Zeros(size)),
        Statement::Align(power) => push_item(items, place.section, filling(place, power)),
        _ => {
            let from = TEXT_BASE + u64::from(line.place.text_size);
            match expanded(layout.place.text_size, from, *statement) {
                Ok(expansion) => push_instructions(items, line.number, expansion),
                Err(kind) => Err(LineFailure::Fault(kind)),
            }
        }
    }
}

fn next_place(place: SectionPlace, statement: &Statement) -> Result<SectionPlace, LineFailure>
    ensures { IsMeant (λ next. next) result (place_behind place statement.now) }
{
    place_behind(place, *statement).map_err(LineFailure::Fault)
}

/// Adds the items of a statement; the place behind it.
#[tactic(auto, unfolding(crate::specs::Items::statement_meant))]
fn push_placed(
    items: &mut Vec<Placed>,
    layout: &Layout,
    line: &PlacedLine<'_>,
    statement: &Statement,
) -> Result<SectionPlace, LineFailure>
    ensures { IsMeant (λ next. (next, items.new.items)) result (statement_meant layout.now.labels layout.now.place.text_size line.now.number line.now.place line.now.text.now statement.now items.old.items) }
{
    push_statement(items, layout, line, statement)?;
    next_place(line.place, statement)
}

/// What the text behind the labels of a line says, of which this is kept.
fn reading(
    labels: &Labels,
    place: SectionPlace,
    text: &[u8],
    kept: Option<Kept>,
) -> StatementReading
    requires { IsKept kept text.now }
    ensures { result ≡ statement_in labels.now place text.now }
{
    match kept {
        Some(kept) if kept.spot == here(place) => Ok(kept.statement),
        _ => statement_in(labels, place, text),
    }
}

/// Adds the items of a line, of which this is kept; the place behind it.
#[tactic(auto, unfolding(crate::specs::Items::line_meant))]
fn push_line(
    items: &mut Vec<Placed>,
    layout: &Layout,
    line: &PlacedLine<'_>,
    kept: Option<Kept>,
) -> Result<SectionPlace, LineFailure>
    requires { IsKept kept line.now.text.now }
    ensures { IsMeant (λ next. (next, items.new.items)) result (line_meant layout.now.labels layout.now.place.text_size line.now.number line.now.place line.now.text.now items.old.items) }
{
    match reading(&layout.labels, line.place, line.text, kept) {
        Ok(statement) => push_placed(items, layout, line, &statement),
        Err(kind) => Err(LineFailure::Fault(kind)),
    }
}

/// The fault of a line whose labels cause one, beside what was found before.
fn least_so_far(first: Option<SourceFault>, line: u64, kind: SourceFaultKind) -> SourceFault
    ensures { result ≡ least_so_far first line kind }
{
    match first {
        None => SourceFault { line, kind },
        Some(fault) => {
            if fault.line == line {
                SourceFault {
                    line,
                    kind: least(fault.kind, kind),
                }
            } else {
                SourceFault { line, kind }
            }
        }
    }
}

/// The fault that was found in this line before.
fn stop_at(first: Option<SourceFault>, line: u64) -> Option<SourceFault>
    ensures { result ≡ stop_at first line }
{
    match first {
        None => None,
        Some(fault) => {
            if fault.line == line {
                Some(fault)
            } else {
                None
            }
        }
    }
}

fn unless_stopped(
    stop: Option<SourceFault>,
    place: SectionPlace,
) -> Result<SectionPlace, SourceFault>
    ensures { result ≡ unless_stopped stop place }
{
    match stop {
        None => Ok(place),
        Some(fault) => Err(fault),
    }
}

/// Adds the items of a line, of which this is kept; the place behind it, or the least of its faults.
#[tactic(auto, unfolding(crate::specs::Items::line_or_fault))]
fn push_or_fault(
    items: &mut Vec<Placed>,
    layout: &Layout,
    line: &PlacedLine<'_>,
    kept: Option<Kept>,
) -> Result<SectionPlace, AssemblyFailure>
    requires { IsKept kept (statement_text line.now.text.now) }
    ensures { Gives (λ next. (next, items.new.items)) 1 result (line_or_fault layout.now.labels layout.now.place.text_size layout.now.first line.now.number line.now.place line.now.text.now items.old.items) }
{
    let number = line.number;
    let statement = PlacedLine {
        text: statement_text(line.text),
        ..*line
    };
    match push_line(items, layout, &statement, kept) {
        Ok(next) => match unless_stopped(stop_at(layout.first, number), next) {
            Ok(next) => Ok(next),
            Err(fault) => Err(AssemblyFailure::Fault(fault)),
        },
        Err(LineFailure::Memory(refused)) => Err(AssemblyFailure::Memory(Shortage {
            line: number,
            refused,
        })),
        Err(LineFailure::Fault(kind)) => Err(AssemblyFailure::Fault(least_so_far(
            layout.first,
            number,
            kind,
        ))),
    }
}

/// What is kept of the first line.
fn first_kept(kept: &[Option<Kept>]) -> Option<Kept>
    ensures { result ≡ first_kept kept.now }
{
    match kept {
        [] => None,
        [first, ..] => *first,
    }
}

/// What is kept of the lines behind the first.
fn other_kept(kept: &[Option<Kept>]) -> &[Option<Kept>]
    ensures { result.now ≡ other_kept kept.now }
{
    match kept {
        [] => &[],
        [_, others @ ..] => others,
    }
}

/// The items that a source means, of whose lines this is kept.
pub fn meaning(
    alloc: Global,
    source: &[u8],
    layout: &Layout,
    kept: KeptLines,
) -> Result<Vec<Placed>, AssemblyFailure>
    requires laid { IsLaid layout.now.labels layout.now.place layout.now.first (layout_of source.now) }
    requires kept { AreKept kept (source_lines source.now) }
    ensures { Gives (λ v. v.items) 1 result (meaning_of source.now) }
{
    let mut items = Vec::new(alloc);
    let mut place = source_start();
    let mut lines: u64 = 0;
    let mut rest = source;
    let mut known = kept.lines();
    while !rest.is_empty() {
        let (line, behind) = cut(b'\n', rest);
        let line = PlacedLine {
            number: lines + 1,
            place,
            text: code_of(line),
        };
        place = push_or_fault(&mut items, layout, &line, first_kept(known))?;
        lines += 1;
        rest = behind;
        known = other_kept(known);
    }
    Ok(items)
}
