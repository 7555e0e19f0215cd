//! What the assembler puts behind what it has; all its memory is asked for here, and for labels.

ghost use Rattle.std.specs.Prelude.{◌≡◌, ◌∷◌, [], ◌++◌, length, IfOk, IfErr, OnOk};

use evm_room::{Refused, grow};
use std::alloc::Global;

/// Puts one element behind the others.
pub fn push<T: Drop>(v: &mut Vec<T>, element: T) -> Result<(), Refused>
    ensures ok { OnOk result (v.new.items ≡ v.old.items ++ element ∷ []) }
    ensures refused { IfErr result (λ asked. asked ≡ 1) }
{
    grow(v, 1)?;
    v.push_reserved(element);
    Ok(())
}

/// Puts bytes behind the others.
pub fn extend_bytes(v: &mut Vec<u8>, bytes: &[u8]) -> Result<(), Refused>
    ensures ok { OnOk result (v.new.items ≡ v.old.items ++ bytes.now) }
    ensures refused { IfErr result (λ asked. asked ≡ length bytes.now) }
{
    grow(v, bytes.len())?;
    match v.extend_from_slice(bytes) {
        Ok(()) => Ok(()),
        Err(_) => unreachable!(),
    }
}

/// The same bytes once more.
pub(crate) fn copied(alloc: Global, bytes: &[u8]) -> Result<Vec<u8>, Refused>
    ensures ok { IfOk result (λ copy. copy.items ≡ bytes.now) }
    ensures refused { IfErr result (λ asked. asked ≡ length bytes.now) }
{
    let mut copy = Vec::new(alloc);
    extend_bytes(&mut copy, bytes)?;
    Ok(copy)
}
