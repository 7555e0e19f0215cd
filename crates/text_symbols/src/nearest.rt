//! The symbol that an address belongs to.

ghost use Rattle.std.specs.Prelude.{◌≡◌, option_copied};
ghost use Rattle.std.specs.List.{find};
ghost use Rattle.text_symbols.specs.Nearest.{begins, holds, is_typed, is_label, passes, nearer, nearest, place_of, is_named, valued};

use crate::symbol::{Symbol, SymbolKind};

/// Which symbols an address may belong to.
#[derive(Clone, Copy, Debug)]
pub(crate) enum Search {
    /// Functions and objects.
    Typed,
    /// Labels.
    Labels,
}

fn is_typed(kind: SymbolKind) -> bool
    ensures { result ≡ is_typed kind }
{
    matches!(kind, SymbolKind::Function | SymbolKind::Object)
}

fn is_label(kind: SymbolKind) -> bool
    ensures { result ≡ is_label kind }
{
    matches!(kind, SymbolKind::Label)
}

fn begins(symbol: &Symbol, address: u64) -> bool
    ensures { result ≡ begins address symbol.now }
{
    symbol.value() <= address
}

fn holds(symbol: &Symbol, address: u64) -> bool
    ensures { result ≡ holds address symbol.now }
{
    symbol.size() == 0
        || u128::from(address) < u128::from(symbol.value()) + u128::from(symbol.size())
}

fn passes(search: Search, address: u64, symbol: &Symbol) -> bool
    ensures { result ≡ passes search address symbol.now }
{
    match search {
        Search::Typed => {
            begins(symbol, address) && is_typed(symbol.kind()) && holds(symbol, address)
        }
        Search::Labels => begins(symbol, address) && is_label(symbol.kind()),
    }
}

/// The nearer of a symbol and the best of those behind it.
fn nearer<'a>(passes: bool, symbol: &'a Symbol, best: Option<&'a Symbol>) -> Option<&'a Symbol>
    ensures { option_copied result ≡ nearer passes symbol.now (option_copied best.entry) }
{
    if !passes {
        return best;
    }
    match best {
        None => Some(symbol),
        Some(other) => {
            if other.value() <= symbol.value() {
                Some(symbol)
            } else {
                Some(other)
            }
        }
    }
}

/// The symbol of greatest value that passes the search, the first of those.
fn nearest<'a>(search: Search, symbols: &'a [Symbol], address: u64) -> Option<&'a Symbol>
    ensures { option_copied result ≡ nearest (passes search address) symbols.now }
{
    let mut best = None;
    let mut i = symbols.len();
    while i > 0 {
        i -= 1;
        let symbol = &symbols[i];
        best = nearer(passes(search, address, symbol), symbol, best);
    }
    best
}

/// The symbol that an address belongs to: a function or an object that holds it, or else a label.
pub(crate) fn place_of(symbols: &[Symbol], address: u64) -> Option<&Symbol>
    ensures { option_copied result ≡ place_of symbols.now address }
{
    match nearest(Search::Typed, symbols, address) {
        Some(symbol) => Some(symbol),
        None => nearest(Search::Labels, symbols, address),
    }
}

fn is_named(symbol: &Symbol, name: &str) -> bool
    ensures { result ≡ is_named name.now symbol.now }
{
    symbol.name() == name
}

/// The value of the first symbol of a name.
pub(crate) fn value_of(symbols: &[Symbol], name: &str) -> Option<u64>
    ensures { result ≡ valued (find (is_named name.now) symbols.now) }
{
    for symbol in symbols {
        if is_named(symbol, name) {
            return Some(symbol.value());
        }
    }
    None
}
