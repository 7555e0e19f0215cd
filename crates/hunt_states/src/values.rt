//! Whether two values of the machine's lists are the same.

ghost use Rattle.std.specs.Prelude.{◌≡◌, true, option_map};
ghost use Rattle.law_runs.specs.Alike.{unstamped};
ghost use Rattle.law_runs.specs.Timeless.{undated};

use evm_core::Stages;
use evm_lines::LineSet;
use evm_model::{Notice, Processor, StageLog, Task};

// Whether two tasks have the same place and rank.
fn same_place(a: &Task, b: &Task) -> bool
    ensures { result ≡ true → (a.now.cpu ≡ b.now.cpu) × (a.now.class ≡ b.now.class) × (a.now.priority ≡ b.now.priority) × (a.now.slice ≡ b.now.slice) }
{
    a.cpu == b.cpu && a.class == b.class && a.priority == b.priority && a.slice == b.slice
}

// Whether they are the same without their stamps.
fn alike_task(a: &Task, b: &Task) -> bool
    ensures { result ≡ true → unstamped a.now ≡ unstamped b.now }
{
    if !same_place(a, b) {
        return false;
    }
    a.mode == b.mode && a.deadline == b.deadline && a.state == b.state
}

pub(crate) fn alike_tasks(a: Option<Task>, b: Option<Task>) -> bool
    ensures { result ≡ true → option_map unstamped a ≡ option_map unstamped b }
{
    match (a, b) {
        (None, None) => true,
        (Some(a), Some(b)) => alike_task(&a, &b),
        _ => false,
    }
}

fn same_task(a: &Task, b: &Task) -> bool
    ensures { result ≡ true → a.now ≡ b.now }
{
    if !same_place(a, b) {
        return false;
    }
    a.mode == b.mode && a.stamp == b.stamp && a.deadline == b.deadline && a.state == b.state
}

pub(crate) fn same_tasks(a: Option<Task>, b: Option<Task>) -> bool
    ensures { result ≡ true → a ≡ b }
{
    match (a, b) {
        (None, None) => true,
        (Some(a), Some(b)) => same_task(&a, &b),
        _ => false,
    }
}

// Whether they are the same without their ticks.
fn alike_notice(a: &Notice, b: &Notice) -> bool
    ensures { result ≡ true → undated a.now ≡ undated b.now }
{
    a.task == b.task && a.kind == b.kind
}

pub(crate) fn alike_notices(a: Option<Notice>, b: Option<Notice>) -> bool
    ensures { result ≡ true → option_map undated a ≡ option_map undated b }
{
    match (a, b) {
        (None, None) => true,
        (Some(a), Some(b)) => alike_notice(&a, &b),
        _ => false,
    }
}

fn same_processor(a: &Processor, b: &Processor) -> bool
    ensures { result ≡ true → a.now ≡ b.now }
{
    a.current == b.current
        && a.in_band_task == b.in_band_task
        && a.stopped == b.stopped
        && a.skip == b.skip
}

pub(crate) fn same_processors(a: Option<Processor>, b: Option<Processor>) -> bool
    ensures { result ≡ true → a ≡ b }
{
    match (a, b) {
        (None, None) => true,
        (Some(a), Some(b)) => same_processor(&a, &b),
        _ => false,
    }
}

fn same_lines(a: LineSet, b: LineSet) -> bool
    ensures { result ≡ true → a ≡ b }
{
    a == b
}

fn same_log(a: &StageLog, b: &StageLog) -> bool
    ensures { result ≡ true → a.now ≡ b.now }
{
    if a.stalled != b.stalled {
        return false;
    }
    same_lines(a.lines, b.lines)
}

fn same_both_logs(a: &Stages, b: &Stages) -> bool
    ensures { result ≡ true → a.now ≡ b.now }
{
    if !same_log(&a.oob, &b.oob) {
        return false;
    }
    if !same_log(&a.in_band, &b.in_band) {
        return false;
    }
    same_lines(a.wire, b.wire)
}

pub(crate) fn same_stages(a: Option<Stages>, b: Option<Stages>) -> bool
    ensures { result ≡ true → a ≡ b }
{
    match (a, b) {
        (None, None) => true,
        (Some(a), Some(b)) => same_both_logs(&a, &b),
        _ => false,
    }
}
