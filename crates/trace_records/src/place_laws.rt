//! Laws of traces with places: each is a contract that nothing has to be done for.

ghost use Rattle.trace_records.specs.Placed.{NoSymbolsNoPlaces};

/// Where the image has no symbols and nothing has a name, the text is that of the trace alone.
pub fn no_symbols_no_places()
    ensures { NoSymbolsNoPlaces }
{}
