//! What the tracks show.

ghost use Rattle.std.specs.Prelude.{◌≡◌, ◌++◌, OnOk, OnErr, IfOk, if◌then◌else◌, slice_get, length};
ghost use Rattle.std.specs.String.{string_bytes};
ghost use Rattle.trace_records.specs.Names.{state_code};
ghost use Rattle.trace_records.specs.Entries.{record_lines};
ghost use Rattle.trace_records.specs.Changes.{track_row, is_open, is_shown, records_by, spans_with_change, span_opened, no_spans};

use crate::change::Change;
use crate::entry::push_slice;
use crate::state::State;
use crate::track::Track;
use evm_room::{Refused, copies};
use std::alloc::Global;
use std::boxed::BoxedSlice;
use std::marker::Model;

/// How many rows there are: 512 for each of the three processes of a trace.
const ROWS: usize = 1_536;

/// A state that a track shows, since a tick.
#[derive(Clone, Copy, Debug)]
pub struct Span {
    pub state: State,
    pub from: u64,
}

/// What each track shows.
#[derive(Debug, Drop)]
pub struct Tracks {
    spans: BoxedSlice<Option<Span>>,
}

impl Model for Tracks {
    ghost use Rattle.std.specs.Prelude.{List, Option};
    ghost use Rattle.std.specs.Box.{boxed_slice_items};
    ghost use Rattle.trace_records.specs.declared.tracks.Span.{Span};

    ghost Value = { List (Option Span) };

    ghost view = { λ tracks. boxed_slice_items tracks.spans };
}

// The row of a track: each has its own.
pub(crate) fn row_of(track: Track) -> usize
    ensures { result ≡ track_row track }
{
    match track {
        Track::OutOfBand(cpu) => 2 * cpu as usize + 1,
        Track::InBand(cpu) => 2 * cpu as usize + 2,
        Track::Task(task) => 512 + task as usize + 1,
        Track::Lines(cpu) => 1_024 + cpu as usize + 1,
    }
}

// Whether a track shows this already.
fn is_open(shown: Option<Span>, state: Option<State>) -> bool
    ensures { result ≡ is_open shown state }
{
    match (shown, state) {
        (None, None) => true,
        (Some(span), Some(state)) => span.state.code() == state.code(),
        _ => false,
    }
}

impl Tracks {
    /// Tracks that show nothing.
    ///
    /// # Errors
    ///
    /// Memory was refused.
    pub fn new(alloc: Global) -> Result<Tracks, Refused>
        ensures { IfOk result (λ tracks. tracks ≡ no_spans) }
    {
        let spans = copies(alloc, None, ROWS)?;
        Ok(Tracks { spans })
    }

    /// From a tick on a track shows this: what it showed before, if it was something else, is appended as a slice.
    ///
    /// # Errors
    ///
    /// Memory was refused; a part of the slice's text may have been appended.
    pub fn show(
        &mut self,
        out: &mut String,
        track: Track,
        state: Option<State>,
        at: u64,
    ) -> Result<(), Refused>
        ensures spans { OnOk result (self.new ≡ spans_with_change self.old (Change.Shows track state at)) }
        ensures text { OnOk result (string_bytes out.new ≡ string_bytes out.old ++ record_lines (records_by self.old (Change.Shows track state at))) }
    {
        let row = row_of(track);
        let Some(shown) = self.spans.get(row) else {
            return Ok(());
        };
        let shown = *shown;
        if is_open(shown, state) {
            return Ok(());
        }
        if let Some(span) = shown {
            push_slice(
                out,
                track,
                span.state,
                span.from,
                at.saturating_sub(span.from),
            )?;
        }
        self.spans[row] = span_opened(state, at);
        Ok(())
    }
}

fn span_opened(state: Option<State>, at: u64) -> Option<Span>
    ensures { result ≡ span_opened state at }
{
    match state {
        None => None,
        Some(state) => Some(Span { state, from: at }),
    }
}
