ghost use Rattle.std.specs.Prelude.{◌≡◌, ◌↔◌, ◌<◌, ◌≤◌, true, All, MatchOption, MatchResult, IfSome, length, slice_index_or, take};
ghost use Rattle.evm_shared.specs.Checks.{AreTrueMarks, IsFirstBreak, IsFirstMismatch, PortHolds, PortsHold, lent};
ghost use Rattle.evm_shared.specs.Cursors.{AreApartFrom, AreInTurn, AreRising, IsBehind, IsInTurn, IsWalk, end_with};
ghost use Rattle.evm_shared.specs.Receipts.{AreApart, IsBefore, IsTrueReceipt};
ghost use Rattle.evm_shared.specs.declared.receipt.Receipt.{Receipt as ReceiptValue};

use crate::cursor::Cursor;
use crate::locked::Origin;
use crate::port::Port;
use crate::receipt::Receipt;
use evm_core::Machine;
use evm_dev::Device;
use evm_lines::LINES;
use std::sync::ledger::Ledger;

/// The first place of some ports that is not true.
#[derive(Clone, Copy, Debug, PartialEq, Eq)]
pub struct Mismatch {
    /// Which of the ports.
    pub port: usize,
    /// Which of its receipts, or their number if it is a mark.
    pub index: usize,
}

/// How far a port's receipts were gone over: the line of the journal, and the end of their positions.
#[derive(Clone, Copy, Drop)]
pub(crate) struct Walk {
    pub(crate) cursor: Cursor,
    pub(crate) end: u64,
}

impl Walk {
    // Before the first receipt.
    fn start() -> Walk
        ensures { (result.cursor.line ≡ 0) × (result.cursor.first ≡ 0) × (result.end ≡ 0) }
    {
        Walk {
            cursor: Cursor::start(),
            end: 0,
        }
    }

    // Goes over the next receipt, if it is true and behind the others.
    fn pass<D: Device>(self, machine: &Machine<D>, since: u64, receipt: &Receipt) -> Option<Walk>
        requires { IsWalk machine.now.journal self }
        ensures some { MatchOption result (IsTrueReceipt machine.now.journal since receipt.now → IsBehind self.end receipt.now → ⊥) (λ walk. IsTrueReceipt machine.now.journal since receipt.now × IsBehind self.end receipt.now) }
        ensures walk { IfSome result (λ walk. IsWalk machine.now.journal walk × (walk.end ≡ end_with self.end receipt.now)) }
    {
        if receipt.position < since || !receipt.made.can_be_made() {
            return None;
        }
        let count = u64::from(receipt.made.event_count());
        if count == 0 {
            return Some(self);
        }
        let end = machine.event_count();
        if receipt.position < self.end || end < receipt.position || end - receipt.position < count {
            return None;
        }
        let mut cursor = self.cursor;
        if !cursor.has_events(machine, receipt) {
            return None;
        }
        Some(Walk {
            cursor,
            end: receipt.position + count,
        })
    }
}

// The first receipt of a port that is not true or not behind those before it, or their number.
fn first_untrue<D: Device, O: Origin, S: Ledger, B: Ledger, T: Ledger>(
    machine: &Machine<D>,
    port: &Port<O, S, B, T>,
) -> usize
    ensures within { result ≤ length port.now.receipts }
    ensures turn { AreInTurn machine.now.journal port.now result }
    ensures untrue { result < length port.now.receipts → (d : ReceiptValue) → IsInTurn machine.now.journal port.now result (slice_index_or port.now.receipts result d) → ⊥ }
{
    let receipts = port.receipts();
    let mut walk = Walk::start();
    for index in 0..receipts.len() {
        let Some(next) = walk.pass(machine, port.since(), &receipts[index]) else {
            return index;
        };
        walk = next;
    }
    receipts.len()
}

// The first of some receipts, from a place on, that is not before another, or their number.
fn first_not_before(receipts: &[Receipt], from: usize, later: &Receipt) -> usize
    requires from { from ≤ length receipts.now }
    requires passed { All (λ r. IsBefore r later.now) (take from receipts.now) }
    ensures within { result ≤ length receipts.now }
    ensures passed { All (λ r. IsBefore r later.now) (take result receipts.now) }
    ensures next { result < length receipts.now → (d : ReceiptValue) → IsBefore (slice_index_or receipts.now result d) later.now → ⊥ }
{
    let mut next = from;
    while next < receipts.len() {
        if !receipts[next].is_before(later) {
            return next;
        }
        next += 1;
    }
    next
}

// The first of `limit` receipts that shares a position with one of others, or `limit`. The positions of both rise.
fn first_shared(others: &[Receipt], receipts: &[Receipt], limit: usize) -> usize
    requires limit { limit ≤ length receipts.now }
    requires rising { AreRising others.now (length others.now) × AreRising receipts.now limit }
    ensures within { result ≤ limit }
    ensures apart { AreApartFrom others.now receipts.now result }
    ensures shared { result < limit → (d : ReceiptValue) → All (λ o. AreApart o (slice_index_or receipts.now result d)) others.now → ⊥ }
{
    let mut next = 0;
    for index in 0..limit {
        let receipt = &receipts[index];
        if receipt.made.event_count() != 0 {
            next = first_not_before(others, next, receipt);
            if next < others.len() && !receipt.is_before(&others[next]) {
                return index;
            }
        }
    }
    limit
}

// The first of `limit` receipts that shares a position with one of other ports, or `limit`. The positions of each port rise.
fn first_shared_by_ports<O: Origin, S: Ledger, B: Ledger, T: Ledger>(
    others: &[&Port<O, S, B, T>],
    receipts: &[Receipt],
    limit: usize,
) -> usize
    requires limit { limit ≤ length receipts.now }
    requires rising { AreRising receipts.now limit }
    requires others { All (λ p. AreRising p.receipts (length p.receipts)) (lent others.now) }
    ensures within { result ≤ limit }
    ensures apart { All (λ p. AreApartFrom p.receipts receipts.now result) (lent others.now) }
    ensures shared { result < limit → (d : ReceiptValue) → All (λ p. All (λ o. AreApart o (slice_index_or receipts.now result d)) p.receipts) (lent others.now) → ⊥ }
{
    let mut index = limit;
    for other in others {
        index = first_shared(other.receipts(), receipts, index);
    }
    index
}

// Whether the marks of a port are true.
fn marks_are_true<D: Device, O: Origin, S: Ledger, B: Ledger, T: Ledger>(
    machine: &Machine<D>,
    port: &Port<O, S, B, T>,
) -> bool
    ensures { (result ≡ true) ↔ AreTrueMarks machine.now port.now }
{
    let room = machine.room();
    if port.is_full() && room != 0 {
        return false;
    }
    if port.is_short() && room >= u64::from(LINES) {
        return false;
    }
    true
}

// The first place of a port that does not hold beside other ports, whose positions rise.
fn first_break<D: Device, O: Origin, S: Ledger, B: Ledger, T: Ledger>(
    machine: &Machine<D>,
    others: &[&Port<O, S, B, T>],
    port: &Port<O, S, B, T>,
) -> Option<usize>
    requires { All (λ p. AreRising p.receipts (length p.receipts)) (lent others.now) }
    ensures { MatchOption result (PortHolds machine.now (lent others.now) port.now) (λ index. IsFirstBreak machine.now (lent others.now) port.now index) }
{
    let receipts = port.receipts();
    let untrue = first_untrue(machine, port);
    let index = first_shared_by_ports(others, receipts, untrue);
    if index < receipts.len() {
        return Some(index);
    }
    if marks_are_true(machine, port) {
        None
    } else {
        Some(index)
    }
}

/// Checks the receipts and the marks of some ports against the journal of a machine: that each is true, that the
/// positions of each port's receipts rise, and that no two receipts of any ports share a position. Takes no memory.
/// Goes over the lines of the journal once for each port, and over the receipts of both ports for each two.
///
/// # Errors
///
/// The first receipt or mark, by port and then by index, that breaks this beside those before it.
pub fn check_receipts<D: Device, O: Origin, S: Ledger, B: Ledger, T: Ledger>(
    machine: &Machine<D>,
    ports: &[&Port<O, S, B, T>],
) -> Result<(), Mismatch>
    ensures { MatchResult result (λ _. PortsHold machine.now (lent ports.now) (length ports.now)) (λ mismatch. IsFirstMismatch machine.now (lent ports.now) mismatch) }
{
    for port in 0..ports.len() {
        if let Some(index) = first_break(machine, &ports[..port], ports[port]) {
            return Err(Mismatch { port, index });
        }
    }
    Ok(())
}
