//! Tasks as threads.

ghost use Rattle.std.specs.Prelude.{◌≡◌, ◌++◌, OnOk};
ghost use Rattle.gdb_driving.specs.Shown.{listed_text, threads_text};

use crate::bytes::{push_bytes, push_thread};
use evm_room::Refused;

// Appends the thread of a task, behind a comma if it is not the first.
fn push_listed(out: &mut Vec<u8>, t: u8) -> Result<(), Refused>
    ensures ok { OnOk result (out.new.items ≡ out.old.items ++ listed_text t) }
{
    if t == 0 {
        push_thread(out, t)
    } else {
        push_bytes(out, b",")?;
        push_thread(out, t)
    }
}

/// Appends `m` and the threads of the first `count` tasks, with a comma between them.
#[tactic(auto, using(crate::proofs::Lists::threads_none, crate::proofs::Lists::threads_more))]
pub fn push_threads(out: &mut Vec<u8>, count: u8) -> Result<(), Refused>
    ensures ok { OnOk result (out.new.items ≡ out.old.items ++ threads_text count) }
{
    push_bytes(out, b"m")?;
    for t in 0..count {
        push_listed(out, t)?;
    }
    Ok(())
}
