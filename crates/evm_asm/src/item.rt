//! What a source means: its instructions and data in their order.

ghost use Rattle.std.specs.Prelude.{◌≡◌, ◌≤◌, ◌<◌};
ghost use Rattle.evm_asm.specs.Items.{address, data_base, distance, distance_to, load_immediate, load_address_by, load_address, expanded, filling, value_of, value_in};
ghost use Rattle.evm_isa.specs.declared.inst.Inst.TheVariants as inst;

use crate::place::{
    SectionPlace, high_part, is_small, low_part, low_word, needs_low_part, offset, padding,
};
use evm_asm_parser::{
    DataWidth, Datum, Labels, Section, SourceFaultKind, Spot, Statement, datum_in, zero,
};
use evm_isa::{ImmediateOp, Inst, Register, Shift};
use evm_ram::BASE;

/// Where the text begins.
pub const TEXT_BASE: u64 = BASE;

/// What a statement adds to a section.
#[derive(Clone, Copy)]
pub enum SourceItem {
    /// An instruction of a line.
    Instruction(u64, Inst),
    /// A number of a given count of bytes, modulo 2^64.
    Number(DataWidth, u64),
    /// A number of zero bytes.
    Zeros(u64),
    /// A number of nops.
    Nops(u64),
}

/// An item and its section.
#[derive(Clone, Copy)]
pub struct Placed {
    pub section: Section,
    pub item: SourceItem,
}

/// The instructions of one statement.
#[derive(Clone, Copy)]
pub enum Expansion {
    Empty,
    Single(Inst),
    Double(Inst, Inst),
}

/// Where the data begins, behind the given count of bytes of text.
pub fn data_base(text_size: u32) -> u64
    ensures { result ≡ data_base text_size }
{
    TEXT_BASE + (u64::from(text_size) + 4095) / 4096 * 4096
}

/// The address of a spot.
pub fn address(text_size: u32, spot: Spot) -> u64
    ensures value { result ≡ address text_size spot }
    ensures in_range { result < 17179869184 }
{
    match spot.section {
        Section::Text => TEXT_BASE + u64::from(spot.offset),
        Section::Data => data_base(text_size) + u64::from(spot.offset),
    }
}

#[tactic(auto, unfolding(crate::specs::Items::distance))]
fn distance(below: u64, above: u64, from: u64, target: u64) -> Result<i32, SourceFaultKind>
    requires low { below ≤ 2147483648 }
    requires high { above ≤ 2147483647 }
    ensures { result ≡ distance below above from target }
{
    if from <= target {
        if (target - from) % 2 == 0 && target - from <= above {
            Ok((target - from) as i32)
        } else {
            Err(SourceFaultKind::RangeOfImmediate)
        }
    } else if (from - target) % 2 == 0 && from - target <= below {
        Ok(-((from - target) as i64) as i32)
    } else {
        Err(SourceFaultKind::RangeOfImmediate)
    }
}

fn distance_to(
    below: u64,
    above: u64,
    text_size: u32,
    from: u64,
    target: Option<Spot>,
) -> Result<i32, SourceFaultKind>
    requires low { below ≤ 2147483648 }
    requires high { above ≤ 2147483647 }
    ensures { result ≡ distance_to below above text_size from target }
{
    match target {
        Some(spot) => distance(below, above, from, address(text_size, spot)),
        None => Err(SourceFaultKind::LabelMissing),
    }
}

fn plus(op: ImmediateOp, rd: Register, rs1: Register, immediate: i32) -> Inst
    ensures { result ≡ inst.Immediate op rd rs1 immediate }
{
    Inst::Immediate {
        op,
        rd,
        rs1,
        immediate,
    }
}

#[tactic(auto, unfolding(crate::specs::Items::load_immediate))]
fn load_immediate(rd: Register, value: i32) -> Expansion
    ensures { result ≡ load_immediate rd value }
{
    if is_small(value) {
        return Expansion::Single(plus(ImmediateOp::Addi, rd, zero(), value));
    }
    let word = low_word(value);
    let immediate = high_part(word);
    let upper = Inst::Lui { rd, immediate };
    if needs_low_part(word) {
        Expansion::Double(upper, plus(ImmediateOp::Addiw, rd, rd, low_part(word)))
    } else {
        Expansion::Single(upper)
    }
}

fn load_address_by(rd: Register, by: u64) -> Expansion
    requires { by < 4294967296 }
    ensures { result ≡ load_address_by rd by }
{
    let immediate = high_part(by);
    Expansion::Double(
        Inst::Auipc { rd, immediate },
        plus(ImmediateOp::Addi, rd, rd, low_part(by)),
    )
}

#[tactic(auto, unfolding(crate::specs::Items::load_address))]
fn load_address(
    text_size: u32,
    from: u64,
    rd: Register,
    target: Option<Spot>,
) -> Result<Expansion, SourceFaultKind>
    ensures { result ≡ load_address text_size from rd target }
{
    match target {
        Some(spot) => {
            let ahead = address(text_size, spot) + 4294967296;
            Ok(load_address_by(rd, ahead.saturating_sub(from) % 4294967296))
        }
        None => Err(SourceFaultKind::LabelMissing),
    }
}

/// The instructions of a statement that stands at an address.
#[tactic(auto, unfolding(crate::specs::Items::expanded))]
pub fn expanded(
    text_size: u32,
    from: u64,
    statement: Statement,
) -> Result<Expansion, SourceFaultKind>
    ensures { result ≡ expanded text_size from statement }
{
    match statement {
        Statement::One(inst) => Ok(Expansion::Single(inst)),
        Statement::Branch {
            op,
            rs1,
            rs2,
            target,
        } => {
            let offset = distance_to(4096, 4094, text_size, from, target)?;
            Ok(Expansion::Single(Inst::Branch {
                op,
                rs1,
                rs2,
                offset,
            }))
        }
        Statement::Jump { rd, target } => {
            let offset = distance_to(1048576, 1048574, text_size, from, target)?;
            Ok(Expansion::Single(Inst::Jal { rd, offset }))
        }
        Statement::LoadImmediate { rd, value } => Ok(load_immediate(rd, value)),
        Statement::LoadAddress { rd, target } => load_address(text_size, from, rd, target),
        _ => Ok(Expansion::Empty),
    }
}

fn value_of(text_size: u32, datum: Datum) -> Result<u64, SourceFaultKind>
    ensures { result ≡ value_of text_size datum }
{
    match datum {
        Datum::Value(number) => Ok(number),
        Datum::Label(Some(spot)) => Ok(address(text_size, spot)),
        Datum::Label(None) => Err(SourceFaultKind::LabelMissing),
    }
}

/// The value of one number or label of a list.
#[tactic(auto, unfolding(crate::specs::Items::value_in))]
pub fn value_in(
    labels: &Labels,
    text_size: u32,
    width: DataWidth,
    text: &[u8],
) -> Result<u64, SourceFaultKind>
    ensures { result ≡ value_in labels.now text_size width text.now }
{
    let datum = datum_in(labels, width, text)?;
    value_of(text_size, datum)
}

/// What an alignment is filled with.
#[tactic(auto, unfolding(crate::specs::Items::filling))]
pub fn filling(place: SectionPlace, power: Shift) -> SourceItem
    ensures { result ≡ filling place power }
{
    let size = padding(offset(place), power);
    match place.section {
        Section::Text => {
            if place.text_size % 4 == 0 && 2 <= power.amount() {
                SourceItem::Nops(size / 4)
            } else {
                SourceItem::Zeros(size)
            }
        }
        Section::Data => SourceItem::Zeros(size),
    }
}
