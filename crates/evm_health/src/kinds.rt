ghost use Rattle.std.specs.Prelude.{◌≡◌, Some};
ghost use Rattle.evm_model.specs.Notices.{asks_for, notice_number};

use bitflags::Flags;
use evm_model::{Mode, NoticeKind, Task};

/// The number of a kind.
pub fn number(kind: NoticeKind) -> u8
    ensures { result ≡ notice_number kind }
{
    match kind {
        NoticeKind::DemotedByCall => 1,
        NoticeKind::DemotedByFault => 2,
        NoticeKind::Deadlock => 3,
        NoticeKind::NotOwner => 4,
        NoticeKind::Overran => 5,
    }
}

/// Whether a task gets notices of a kind: it asks for them by its mode bits. It gets those of the watchdog in any mode.
#[tactic(auto, using(crate::proofs::Bits::bits))]
pub fn asks_for(kind: NoticeKind, task: Task) -> bool
    ensures { result ≡ asks_for kind (Some task) }
{
    match kind {
        NoticeKind::DemotedByCall | NoticeKind::DemotedByFault => task.mode.contains(Mode::T_WOSS),
        NoticeKind::Deadlock | NoticeKind::NotOwner => task.mode.contains(Mode::T_WOLI),
        NoticeKind::Overran => true,
    }
}
