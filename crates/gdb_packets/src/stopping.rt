//! Breakpoints and watchpoints, set and removed.

ghost use Rattle.std.specs.Prelude.{◌≡◌};
ghost use Rattle.gdb_packets.specs.Commands.{address_at, breakpoint_at, insert_said, remove_said, unwatch_said, watch_said, watchpoint_at};

use crate::command::{BreakKind, Command, WatchKind};
use crate::fields::{number_to, span_at};
use evm_text::after_word;

// The address of a breakpoint; what stands behind it is of no use here.
#[tactic(auto, unfolding(crate::specs::Commands::address_at))]
fn address_at(bytes: &[u8]) -> Option<u64>
    ensures { result ≡ address_at bytes.now }
{
    let (address, _) = number_to(b",", bytes)?;
    Some(address)
}

fn insert_said(kind: BreakKind, bytes: &[u8]) -> Option<Command>
    ensures { result ≡ insert_said kind bytes.now }
{
    Some(Command::Insert(kind, address_at(bytes)?))
}

fn remove_said(kind: BreakKind, bytes: &[u8]) -> Option<Command>
    ensures { result ≡ remove_said kind bytes.now }
{
    Some(Command::Remove(kind, address_at(bytes)?))
}

#[tactic(auto, unfolding(crate::specs::Commands::watch_said))]
fn watch_said(kind: WatchKind, bytes: &[u8]) -> Option<Command>
    ensures { result ≡ watch_said kind bytes.now }
{
    let ((address, count), rest) = span_at(bytes)?;
    if rest.is_empty() {
        Some(Command::Watch(kind, address, count))
    } else {
        None
    }
}

#[tactic(auto, unfolding(crate::specs::Commands::unwatch_said))]
fn unwatch_said(kind: WatchKind, bytes: &[u8]) -> Option<Command>
    ensures { result ≡ unwatch_said kind bytes.now }
{
    let ((address, count), rest) = span_at(bytes)?;
    if rest.is_empty() {
        Some(Command::Unwatch(kind, address, count))
    } else {
        None
    }
}

#[tactic(auto, unfolding(crate::specs::Commands::watchpoint_at))]
fn watchpoint_at(bytes: &[u8]) -> Option<Command>
    ensures { result ≡ watchpoint_at bytes.now }
{
    if let Some(rest) = after_word(b"Z2,", bytes) {
        return watch_said(WatchKind::Write, rest);
    }
    if let Some(rest) = after_word(b"Z3,", bytes) {
        return watch_said(WatchKind::Read, rest);
    }
    if let Some(rest) = after_word(b"Z4,", bytes) {
        return watch_said(WatchKind::Access, rest);
    }
    if let Some(rest) = after_word(b"z2,", bytes) {
        return unwatch_said(WatchKind::Write, rest);
    }
    if let Some(rest) = after_word(b"z3,", bytes) {
        return unwatch_said(WatchKind::Read, rest);
    }
    unwatch_said(WatchKind::Access, after_word(b"z4,", bytes)?)
}

/// A breakpoint or a watchpoint: set, or removed.
#[tactic(auto, unfolding(crate::specs::Commands::breakpoint_at))]
pub(crate) fn breakpoint_at(bytes: &[u8]) -> Option<Command>
    ensures { result ≡ breakpoint_at bytes.now }
{
    if let Some(rest) = after_word(b"Z0,", bytes) {
        return insert_said(BreakKind::Software, rest);
    }
    if let Some(rest) = after_word(b"Z1,", bytes) {
        return insert_said(BreakKind::Hardware, rest);
    }
    if let Some(rest) = after_word(b"z0,", bytes) {
        return remove_said(BreakKind::Software, rest);
    }
    if let Some(rest) = after_word(b"z1,", bytes) {
        return remove_said(BreakKind::Hardware, rest);
    }
    watchpoint_at(bytes)
}
