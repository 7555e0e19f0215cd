//! Laws of the texts: each is a contract that nothing has to be done for.

ghost use Rattle.text_markup.specs.Laws.{ValuesAreJson, ListingsAreJson, DecimalsAreJson};

/// A JSON reader finds in the text of a value this value.
pub fn values_are_json()
    ensures { ValuesAreJson }
{}

/// A JSON reader finds in the listing of some items these items, in their order.
pub fn listings_are_json()
    ensures { ListingsAreJson }
{}

/// Decimal digits are a number of JSON, and need no escape in a string.
pub fn decimals_are_json()
    ensures { DecimalsAreJson }
{}
