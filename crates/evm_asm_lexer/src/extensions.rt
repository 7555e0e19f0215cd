//! Mnemonics of the extensions of RV64I, none of which this machine has.

ghost use Rattle.std.specs.Prelude.{◌≡◌};
ghost use Rattle.evm_asm_lexer.specs.Names.{named};
ghost use Rattle.evm_asm_lexer.specs.Extensions.{products, quotients, others, by_beginning, extension_of, extension_name};

/// An extension of RV64I.
#[derive(Clone, Copy, Debug, PartialEq, Eq)]
pub enum Extension {
    /// M: multiplication and division.
    Multiply,
    /// A: atomic instructions.
    Atomic,
    /// F or D: floating point.
    Float,
    /// C: compressed instructions.
    Compressed,
    /// Zicsr: control and status registers.
    Status,
    /// Zifencei: `fence.i`.
    FenceI,
}

impl Extension {
    /// Its name in the RISC-V manual.
    pub fn name(self) -> &'static str
        ensures { result.now ≡ extension_name self }
    {
        match self {
            Extension::Multiply => "M",
            Extension::Atomic => "A",
            Extension::Float => "F or D",
            Extension::Compressed => "C",
            Extension::Status => "Zicsr",
            Extension::FenceI => "Zifencei",
        }
    }
}

#[tactic(auto, unfolding(crate::specs::Extensions::products))]
fn product(name: &[u8]) -> Option<Extension>
    ensures { result ≡ named products name.now }
{
    if name == b"mul".as_slice() {
        Some(Extension::Multiply)
    } else if name == b"mulh".as_slice() {
        Some(Extension::Multiply)
    } else if name == b"mulhsu".as_slice() {
        Some(Extension::Multiply)
    } else if name == b"mulhu".as_slice() {
        Some(Extension::Multiply)
    } else if name == b"mulw".as_slice() {
        Some(Extension::Multiply)
    } else {
        None
    }
}

#[tactic(auto, unfolding(crate::specs::Extensions::quotients))]
fn quotient(name: &[u8]) -> Option<Extension>
    ensures { result ≡ named quotients name.now }
{
    if name == b"div".as_slice() {
        Some(Extension::Multiply)
    } else if name == b"divu".as_slice() {
        Some(Extension::Multiply)
    } else if name == b"divw".as_slice() {
        Some(Extension::Multiply)
    } else if name == b"divuw".as_slice() {
        Some(Extension::Multiply)
    } else if name == b"rem".as_slice() {
        Some(Extension::Multiply)
    } else if name == b"remu".as_slice() {
        Some(Extension::Multiply)
    } else if name == b"remw".as_slice() {
        Some(Extension::Multiply)
    } else if name == b"remuw".as_slice() {
        Some(Extension::Multiply)
    } else {
        None
    }
}

#[tactic(auto, unfolding(crate::specs::Extensions::others))]
fn other(name: &[u8]) -> Option<Extension>
    ensures { result ≡ named others name.now }
{
    if name == b"fence.i".as_slice() {
        Some(Extension::FenceI)
    } else if name == b"rdcycle".as_slice() {
        Some(Extension::Status)
    } else if name == b"rdtime".as_slice() {
        Some(Extension::Status)
    } else if name == b"rdinstret".as_slice() {
        Some(Extension::Status)
    } else if name == b"flw".as_slice() {
        Some(Extension::Float)
    } else if name == b"fsw".as_slice() {
        Some(Extension::Float)
    } else if name == b"fld".as_slice() {
        Some(Extension::Float)
    } else if name == b"fsd".as_slice() {
        Some(Extension::Float)
    } else {
        None
    }
}

#[tactic(auto, unfolding(crate::specs::Extensions::by_beginning))]
fn by_beginning(name: &[u8]) -> Option<Extension>
    ensures { result ≡ by_beginning name.now }
{
    match name {
        [b'c', b's', b'r', ..] => Some(Extension::Status),
        [b'a', b'm', b'o', ..] | [b'l', b'r', b'.', ..] | [b's', b'c', b'.', ..] => {
            Some(Extension::Atomic)
        }
        [b'c', b'.', ..] => Some(Extension::Compressed),
        _ => None,
    }
}

/// The extension whose mnemonic has this name.
pub fn extension_of(name: &[u8]) -> Option<Extension>
    ensures { result ≡ extension_of name.now }
{
    if let Some(extension) = product(name) {
        return Some(extension);
    }
    if let Some(extension) = quotient(name) {
        return Some(extension);
    }
    if let Some(extension) = other(name) {
        return Some(extension);
    }
    by_beginning(name)
}
