//! Laws of traces: each is a contract that nothing has to be done for.

ghost use Rattle.trace_records.specs.Laws.{SlicesFollow, NotesAreKept, TracesAreJson, TracesAreWritten};

/// Whatever the tracks show in the order of time, the slices of a track follow one another: none overlaps another.
pub fn slices_follow()
    ensures { SlicesFollow }
{}

/// Each note is a record of the trace, once, and in the order in which they were noted.
pub fn notes_are_kept()
    ensures { NotesAreKept }
{}

/// A JSON reader finds in the text of a trace its records.
pub fn traces_are_json()
    ensures { TracesAreJson }
{}

/// A trace is written as its start, a line for each further record, and its end.
pub fn traces_are_written()
    ensures { TracesAreWritten }
{}
