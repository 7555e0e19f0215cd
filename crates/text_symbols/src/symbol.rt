//! One symbol.

ghost use Rattle.std.specs.Prelude.{◌≡◌};

use std::marker::Model;

/// What a symbol names (`st_info`, `st_shndx`).
#[derive(Clone, Copy, Debug, PartialEq, Eq)]
pub enum SymbolKind {
    /// A function, `STT_FUNC`.
    Function,
    /// A variable, `STT_OBJECT`.
    Object,
    /// An address of a section, as of a label in assembler.
    Label,
    /// A number that is no address of a section, `SHN_ABS`.
    Absolute,
}

/// A symbol with a name.
#[derive(Debug, Drop)]
pub struct Symbol {
    name: String,
    value: u64,
    size: u64,
    kind: SymbolKind,
}

impl Model for Symbol {
    ghost use Rattle.std.specs.String.{string_bytes};
    ghost use Rattle.text_symbols.specs.Named.{Named};

    ghost Value = { Named };

    ghost view = { λ s. record { name = string_bytes s.name; value = s.value; size = s.size; kind = s.kind } };
}

impl Symbol {
    ghost use Rattle.std.specs.String.{string_bytes};

    /// A symbol of these parts.
    pub(crate) fn new(name: String, value: u64, size: u64, kind: SymbolKind) -> Self
        ensures { result ≡ record { name = string_bytes name; value = value; size = size; kind = kind } }
    {
        Symbol {
            name,
            value,
            size,
            kind,
        }
    }

    /// The name, of 1 to 255 bytes.
    pub fn name(&self) -> &str
        ensures { result.now ≡ self.now.name }
    {
        &self.name
    }

    /// The address that it names, or the number.
    pub fn value(&self) -> u64
        ensures { result ≡ self.now.value }
    {
        self.value
    }

    /// How many bytes it takes, or 0 where that is not known.
    pub fn size(&self) -> u64
        ensures { result ≡ self.now.size }
    {
        self.size
    }

    /// What it names.
    pub fn kind(&self) -> SymbolKind
        ensures { result ≡ self.now.kind }
    {
        self.kind
    }
}
