//! Traces whose text was worked out by hand from the description of the Trace Event Format.

use std::alloc::Global;
use std::process::Abort;
use trace_records::*;

const START: &str = "{\"traceEvents\":[\n\
    {\"ph\":\"M\",\"pid\":1,\"tid\":1,\"ts\":0,\"name\":\"process_name\",\"args\":{\"name\":\"processors\"}}";

fn trace_is(rt: &impl Abort, alloc: Global, changes: &[Change], lines: &str) {
    let mut bytes = Vec::new(alloc);
    let Ok(mut trace) = Trace::new(alloc) else {
        panic!(rt; "no memory for a trace")
    };
    assert!(rt; trace.tell(&mut bytes, changes).is_ok());
    assert!(rt; trace.end(&mut bytes).is_ok());
    let Ok(wanted) = format!(in alloc; "{START}{lines}\n]}}") else {
        panic!(rt; "no memory for a text")
    };
    assert_eq!(rt; bytes.as_slice(), wanted.as_bytes());
}

#[test]
fn a_trace_of_nothing_has_its_first_record(rt: HostRuntime) {
    trace_is(&rt, rt.alloc(), &[], "");
}

#[test]
fn a_state_is_a_slice_when_it_ends(rt: HostRuntime) {
    let track = Track::Task(2);
    let changes = [
        Change::Shows(track, Some(State::Running), 3),
        Change::Shows(track, Some(State::Running), 4),
        Change::Shows(track, Some(State::Mutex(7)), 9),
        Change::Shows(track, None, 9),
    ];
    let lines = ",\n{\"ph\":\"X\",\"pid\":2,\"tid\":3,\"ts\":3,\"name\":\"running\",\"dur\":6}\
        ,\n{\"ph\":\"X\",\"pid\":2,\"tid\":3,\"ts\":9,\"name\":\"waiting for mutex 7\",\"dur\":0}";
    trace_is(&rt, rt.alloc(), &changes, lines);
}

#[test]
fn a_change_that_comes_too_late_counts_now(rt: HostRuntime) {
    let changes = [
        Change::Shows(Track::InBand(1), Some(State::Idle), 10),
        Change::Shows(Track::OutOfBand(1), Some(State::Task(0)), 4),
        Change::Shows(Track::OutOfBand(1), None, 12),
    ];
    let lines = ",\n{\"ph\":\"X\",\"pid\":1,\"tid\":3,\"ts\":10,\"name\":\"task 0\",\"dur\":2}";
    trace_is(&rt, rt.alloc(), &changes, lines);
}

fn noted(track: Track, at: u64, detail: Detail) -> Change {
    Change::Noted(Note { track, at, detail })
}

#[test]
fn notes_are_records(rt: HostRuntime) {
    let changes = [
        noted(
            Track::Lines(0),
            5,
            Detail::Interrupt(InterruptPassage::Raised, 31, 2),
        ),
        noted(Track::Task(0), 6, Detail::Rank(99)),
        noted(Track::InBand(0), 6, Detail::FlowStart(Flow::Line(31), 8)),
        noted(Track::Task(1), 7, Detail::FlowEnd(Flow::Mutex(3), 8)),
    ];
    let lines =
        ",\n{\"ph\":\"i\",\"pid\":3,\"tid\":1,\"ts\":5,\"name\":\"raise 31\",\"s\":\"t\",\"args\":{\"times\":2}}\
        ,\n{\"ph\":\"C\",\"pid\":2,\"tid\":1,\"ts\":6,\"name\":\"rank of task 0\",\"args\":{\"rank\":99}}\
        ,\n{\"ph\":\"s\",\"pid\":1,\"tid\":2,\"ts\":6,\"name\":\"line 31\",\"cat\":\"flow\",\"id\":8}\
        ,\n{\"ph\":\"f\",\"pid\":2,\"tid\":2,\"ts\":7,\"name\":\"mutex 3\",\"cat\":\"flow\",\"id\":8,\"bp\":\"e\"}";
    trace_is(&rt, rt.alloc(), &changes, lines);
}

#[test]
fn tracks_have_names(rt: HostRuntime) {
    let changes = [
        noted(Track::Lines(7), 0, Detail::ThreadName),
        noted(Track::OutOfBand(7), 0, Detail::SortIndex),
        noted(Track::Task(0), 0, Detail::ProcessName),
    ];
    let lines =
        ",\n{\"ph\":\"M\",\"pid\":3,\"tid\":8,\"ts\":0,\"name\":\"thread_name\",\"args\":{\"name\":\"lines of processor 7\"}}\
        ,\n{\"ph\":\"M\",\"pid\":1,\"tid\":15,\"ts\":0,\"name\":\"thread_sort_index\",\"args\":{\"sort_index\":15}}\
        ,\n{\"ph\":\"M\",\"pid\":2,\"tid\":1,\"ts\":0,\"name\":\"process_name\",\"args\":{\"name\":\"tasks\"}}";
    trace_is(&rt, rt.alloc(), &changes, lines);
}
