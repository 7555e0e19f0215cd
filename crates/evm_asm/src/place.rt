//! Where a label is, how far a program has come, and how many bytes a statement takes.

ghost use Rattle.std.specs.Prelude.{◌≡◌, ◌≤◌, ◌<◌};
ghost use Rattle.evm_asm.specs.Places.{offset, here, farther, grown, is_small, low_word, low_part, high_part, needs_low_part, bytes_in, padding, load_size, size_at, place_behind, is_directive, may_stand, placed, statement_in};
ghost use Rattle.evm_asm_parser.specs.Operands.{upper};
ghost use Rattle.evm_asm.specs.Sources.{source_start};

use evm_asm_parser::{
    DataWidth, Labels, Mnemonic, Section, SourceFaultKind, Spot, Statement, also, cut_word,
    is_sound, mnemonic_named, skip_blanks, starts_with_name, statement_of, upper,
};
use evm_isa::Shift;

/// How far a program has come: the section in force, and the bytes of each so far.
#[derive(Clone, Copy)]
pub struct SectionPlace {
    pub section: Section,
    pub text_size: u32,
    pub data_size: u32,
}

/// The greatest size of a section, in bytes.
const LIMIT: u64 = 8388608;

/// The bytes so far of the section in force.
pub fn offset(place: SectionPlace) -> u64
    ensures { result ≡ offset place }
{
    match place.section {
        Section::Text => u64::from(place.text_size),
        Section::Data => u64::from(place.data_size),
    }
}

/// The place where a program begins.
pub fn source_start() -> SectionPlace
    ensures { result ≡ source_start }
{
    SectionPlace {
        section: Section::Text,
        text_size: 0,
        data_size: 0,
    }
}

/// Where a label here is.
pub fn here(place: SectionPlace) -> Spot
    ensures { result ≡ here place }
{
    Spot {
        section: place.section,
        offset: match place.section {
            Section::Text => place.text_size,
            Section::Data => place.data_size,
        },
    }
}

#[tactic(auto, unfolding(crate::specs::Places::grown))]
fn grown(place: SectionPlace, size: u64) -> Result<SectionPlace, SourceFaultKind>
    ensures { result ≡ grown place size }
{
    if size > LIMIT.saturating_sub(offset(place)) {
        return Err(SourceFaultKind::TooLarge);
    }
    match place.section {
        Section::Text => Ok(SectionPlace {
            text_size: (u64::from(place.text_size) + size) as u32,
            ..place
        }),
        Section::Data => Ok(SectionPlace {
            data_size: (u64::from(place.data_size) + size) as u32,
            ..place
        }),
    }
}

/// Whether addi adds this number.
pub fn is_small(n: i32) -> bool
    ensures { result ≡ is_small n }
{
    -2048 <= n && n <= 2047
}

/// A 32-bit number as it stands in a register's low half.
pub fn low_word(n: i32) -> u64
    ensures value { result ≡ low_word n }
    ensures in_range { result < 4294967296 }
{
    (i64::from(n) + 4294967296) as u64 % 4294967296
}

/// The low 12 bits of a 32-bit number, as a signed number.
pub fn low_part(n: u64) -> i32
    ensures { result ≡ low_part n }
{
    let low = n % 4096;
    if low < 2048 {
        low as i32
    } else {
        -((4096 - low) as i32)
    }
}

/// What lui adds for a 32-bit number, beside its low 12 bits as a signed number.
pub fn high_part(n: u64) -> i32
    requires { n < 4294967296 }
    ensures { result ≡ high_part n }
{
    upper((n + 2048) / 4096 % 1048576)
}

pub fn needs_low_part(n: u64) -> bool
    ensures { result ≡ needs_low_part n }
{
    n % 4096 != 0
}

/// How many bytes a number of this width takes.
pub fn bytes_in(width: DataWidth) -> u64
    ensures { result ≡ bytes_in width }
{
    match width {
        DataWidth::Byte => 1,
        DataWidth::Word => 4,
        DataWidth::Dword => 8,
    }
}

/// How many bytes there are up to a multiple of this power of 2.
pub fn padding(offset: u64, power: Shift) -> u64
    ensures { result ≡ padding offset power }
{
    let alignment = 1u64 << u32::from(power.amount());
    (alignment - offset % alignment) % alignment
}

#[tactic(auto, unfolding(crate::specs::Places::load_size))]
fn load_size(value: i32) -> u64
    ensures { result ≡ load_size value }
{
    if is_small(value) {
        4
    } else if needs_low_part(low_word(value)) {
        8
    } else {
        4
    }
}

#[tactic(auto, unfolding(crate::specs::Places::size_at))]
fn size_at(offset: u64, statement: Statement) -> u64
    ensures { result ≡ size_at offset statement }
{
    match statement {
        Statement::Nothing | Statement::Section(_) => 0,
        Statement::One(_) | Statement::Branch { .. } | Statement::Jump { .. } => 4,
        Statement::LoadImmediate { value, .. } => load_size(value),
        Statement::LoadAddress { .. } => 8,
        Statement::Numbers { width, count } => bytes_in(width).saturating_mul(count),
        Statement::Space(size) => size,
        Statement::Align(power) => padding(offset, power),
    }
}

/// The place behind a statement.
#[tactic(auto, unfolding(crate::specs::Places::place_behind))]
pub fn place_behind(
    place: SectionPlace,
    statement: Statement,
) -> Result<SectionPlace, SourceFaultKind>
    ensures { result ≡ place_behind place statement }
{
    match statement {
        Statement::Section(section) => Ok(SectionPlace { section, ..place }),
        _ => grown(place, size_at(offset(place), statement)),
    }
}

/// Whether a mnemonic is a directive's.
pub fn is_directive(mnemonic: Mnemonic) -> bool
    ensures { result ≡ is_directive mnemonic }
{
    match mnemonic {
        Mnemonic::Section(_)
        | Mnemonic::Numbers(_)
        | Mnemonic::Space
        | Mnemonic::Align
        | Mnemonic::Global => true,
        _ => false,
    }
}

#[tactic(auto, unfolding(crate::specs::Places::may_stand))]
fn may_stand(mnemonic: Mnemonic, place: SectionPlace) -> bool
    ensures { result ≡ may_stand mnemonic place }
{
    if is_directive(mnemonic) {
        return true;
    }
    match place.section {
        Section::Text => place.text_size % 4 == 0,
        Section::Data => false,
    }
}

/// The place, where this mnemonic may stand there.
#[tactic(auto, unfolding(crate::specs::Places::placed))]
fn placed(mnemonic: Mnemonic, place: SectionPlace) -> Result<SectionPlace, SourceFaultKind>
    ensures { result ≡ placed mnemonic place }
{
    if may_stand(mnemonic, place) {
        Ok(place)
    } else {
        Err(SourceFaultKind::BadOperand)
    }
}

/// What the text behind the labels of a line says.
#[tactic(auto, unfolding(crate::specs::Places::statement_in))]
pub fn statement_in(
    labels: &Labels,
    place: SectionPlace,
    text: &[u8],
) -> Result<Statement, SourceFaultKind>
    ensures { result ≡ statement_in labels.now place text.now }
{
    if !is_sound(text) {
        return Err(SourceFaultKind::BadToken);
    }
    let statement = skip_blanks(text);
    if statement.is_empty() {
        return Ok(Statement::Nothing);
    }
    if !starts_with_name(statement) {
        return Err(SourceFaultKind::BadToken);
    }
    let (name, operands) = cut_word(statement);
    match mnemonic_named(name) {
        Some(mnemonic) => {
            let reading = statement_of(labels, mnemonic, operands);
            also(reading, placed(mnemonic, place))
        }
        None => Err(SourceFaultKind::UnknownName),
    }
}
