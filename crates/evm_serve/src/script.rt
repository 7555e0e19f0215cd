//! The text of lines.

ghost use Rattle.std.specs.Prelude.{◌≡◌, ◌++◌, ◌∷◌, [], OnOk, OnErr, IfOk};
ghost use Rattle.evm_serve.specs.Memory.{MemoryRefused};
ghost use Rattle.evm_serve.specs.Scripted.{script_of};

use crate::plain::PlainLine;
use evm_room::{NoMemory, grow};
use std::alloc::Global;

// One line behind the others.
#[tactic(auto, using(crate::proofs::Memory::memory))]
fn push_line(text: &mut Vec<u8>, line: &[u8]) -> Result<(), NoMemory>
    ensures ok { OnOk result (text.new.items ≡ text.old.items ++ (line.now ++ 10 ∷ [])) }
    ensures refused { OnErr result MemoryRefused }
{
    if let Err(refused) = grow(text, line.len() + 1) {
        refused.within();
        return Err(NoMemory);
    }
    let Ok(()) = text.extend_from_slice(line) else {
        unreachable!();
    };
    text.push_reserved(b'\n');
    Ok(())
}

/// The lines as a text, each with a newline.
///
/// # Errors
///
/// Memory was refused.
pub fn script_text(alloc: Global, lines: &[PlainLine]) -> Result<Vec<u8>, NoMemory>
    ensures text { IfOk result (λ text. text.items ≡ script_of lines.now) }
    ensures refused { OnErr result MemoryRefused }
{
    let mut text = Vec::new(alloc);
    for line in lines {
        push_line(&mut text, line.bytes())?;
    }
    Ok(text)
}
