//! The notices of the health monitor.

ghost use Rattle.std.specs.Prelude.{Option, length, slice_get};
ghost use Rattle.evm_journal.specs.evm_text.Appending.{Appends};
ghost use Rattle.evm_debug.specs.Views.{notice_text, notices_below, total_text, notices_text};

use crate::piece::{Piece, push_pieces};
use evm_dev::Device;
use evm_health::number;
use evm_journal::Machine;
use evm_model::Notice;
use evm_room::Refused;

fn push_total(out: &mut String, total: u64) -> Result<(), Refused>
    ensures { Appends (total_text total) out.old out.new result }
{
    let line = [
        Piece::Text("total "),
        Piece::Decimal(total),
        Piece::Text("\n"),
    ];
    push_pieces(out, &line)
}

fn push_notice(out: &mut String, notice: &Notice) -> Result<(), Refused>
    ensures { Appends (notice_text (Option.Some notice.now)) out.old out.new result }
{
    let line = [
        Piece::Decimal(notice.tick),
        Piece::Text(" "),
        Piece::Decimal(u64::from(notice.task)),
        Piece::Text(" "),
        Piece::Decimal(u64::from(number(notice.kind))),
        Piece::Text("\n"),
    ];
    push_pieces(out, &line)
}

// The notice of a number, if there is one; the oldest has number 0.
fn push_numbered_notice<D: Device>(
    out: &mut String,
    i: usize,
    machine: &Machine<D>,
) -> Result<(), Refused>
    ensures { Appends (notice_text (slice_get machine.now.board.parts.notices.kept i)) out.old out.new result }
{
    match machine.notice(i) {
        None => Ok(()),
        Some(notice) => push_notice(out, &notice),
    }
}

#[tactic(auto, using(crate::proofs::Below::notices))]
fn push_kept<D: Device>(out: &mut String, machine: &Machine<D>) -> Result<(), Refused>
    ensures { Appends (notices_below (length machine.now.board.parts.notices.kept) machine.now.board.parts.notices.kept) out.old out.new result }
{
    for i in 0..machine.notice_count() {
        push_numbered_notice(out, i, machine)?;
    }
    Ok(())
}

#[tactic(auto, using(crate::proofs::Below::lengths))]
pub(crate) fn push_notices<D: Device>(out: &mut String, machine: &Machine<D>) -> Result<(), Refused>
    ensures { Appends (notices_text machine.now.board.parts.notices) out.old out.new result }
{
    push_total(out, machine.notice_total())?;
    push_kept(out, machine)
}
