//! Why a program is stopped, and how that is told.

ghost use Rattle.std.specs.Prelude.{◌≡◌, ◌++◌, OnOk};
ghost use Rattle.std.specs.Int.{w64, to_be_bytes};
ghost use Rattle.gdb_driving.specs.Shown.{address_text, halt_text, reason_text, signal_of, watch_word};

use crate::bytes::{push_bytes, push_thread};
use evm_model::Fault;
use evm_room::Refused;
use gdb_packets::{WatchKind, push_digits};

/// Why a program is stopped.
#[derive(Clone, Copy, Debug, PartialEq, Eq)]
pub enum Why {
    /// GDB asked for it, or a step was made.
    Asked,
    /// A breakpoint of `Z0` is at its pc.
    SoftwareBreak,
    /// A breakpoint of `Z1` is at its pc.
    HardwareBreak,
    /// It loads or stores a byte of a watchpoint, at this address.
    Watched(WatchKind, u64),
    /// It did an EBREAK.
    Ebreak,
    /// It ended by a fault.
    Faulted(Fault),
    /// GDB asked for it while the program went on.
    Interrupted,
    /// It made as many events as a continue may.
    Limit,
    /// The journal has no room for another event.
    Full,
    /// No processor that has turns has a task or a line, and nothing is due.
    Idle,
    /// The session begins here.
    AtBegin,
    /// What was done ends here.
    AtEnd,
}

/// Who is stopped, and why.
#[derive(Clone, Copy, Debug, PartialEq, Eq)]
pub struct TargetHalt {
    /// The task.
    pub task: u8,
    /// Why it is stopped.
    pub why: Why,
}

// The signal, as GDB numbers them (gdb/include/gdb/signals.def).
fn signal_of(why: Why) -> u8
    ensures { result ≡ signal_of why }
{
    match why {
        Why::Idle => 0,
        Why::Interrupted | Why::Limit | Why::Full => 2,
        Why::Faulted(Fault::Illegal) => 4,
        Why::Faulted(Fault::Misaligned) => 10,
        Why::Faulted(_) => 11,
        Why::Asked
        | Why::SoftwareBreak
        | Why::HardwareBreak
        | Why::Watched(_, _)
        | Why::Ebreak
        | Why::AtBegin
        | Why::AtEnd => 5,
    }
}

// The word of a watchpoint that was met.
fn watch_word(kind: WatchKind) -> &'static [u8]
    ensures { result.now ≡ watch_word kind }
{
    match kind {
        WatchKind::Write => b";watch:",
        WatchKind::Read => b";rwatch:",
        WatchKind::Access => b";awatch:",
    }
}

// Appends an address, its high byte first.
fn push_address(out: &mut Vec<u8>, address: u64) -> Result<(), Refused>
    ensures ok { OnOk result (out.new.items ≡ out.old.items ++ address_text address) }
{
    push_digits(out, &address.to_be_bytes())
}

// Appends what a stop reply says beside signal and thread.
fn push_reason(out: &mut Vec<u8>, why: Why) -> Result<(), Refused>
    ensures ok { OnOk result (out.new.items ≡ out.old.items ++ reason_text why) }
{
    match why {
        Why::SoftwareBreak => push_bytes(out, b";swbreak:;"),
        Why::HardwareBreak => push_bytes(out, b";hwbreak:;"),
        Why::Watched(kind, address) => {
            push_bytes(out, watch_word(kind))?;
            push_address(out, address)?;
            push_bytes(out, b";")
        }
        Why::AtBegin => push_bytes(out, b";replaylog:begin;"),
        Why::AtEnd => push_bytes(out, b";replaylog:end;"),
        _ => push_bytes(out, b";"),
    }
}

/// Appends the stop reply: the signal, the thread, and at which kind of breakpoint or watchpoint, or end of the session, it is.
pub fn push_halt(out: &mut Vec<u8>, halt: &TargetHalt) -> Result<(), Refused>
    ensures ok { OnOk result (out.new.items ≡ out.old.items ++ halt_text halt.now) }
{
    push_bytes(out, b"T")?;
    push_digits(out, &[signal_of(halt.why)])?;
    push_bytes(out, b"thread:")?;
    push_thread(out, halt.task)?;
    push_reason(out, halt.why)
}
