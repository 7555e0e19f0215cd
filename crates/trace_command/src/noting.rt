//! Single changes.

ghost use Rattle.std.specs.Prelude.{◌≡◌, ◌++◌, ◌∷◌, [], OnOk};
ghost use Rattle.trace_command.specs.Flows.{flows_in, if_flow};
ghost use Rattle.trace_command.specs.Instants.{if_instant, instants_in};

use evm_room::{Refused, grow};
use trace_records::{Change, Detail, Note, State, Track};

fn push(list: &mut Vec<Change>, change: Change) -> Result<(), Refused>
    ensures { OnOk result (list.new.items ≡ list.old.items ++ change ∷ []) }
{
    grow(list, 1)?;
    list.push_reserved(change);
    Ok(())
}

/// A note on a track.
#[tactic(auto, using(crate::proofs::Told::told))]
pub(crate) fn note(
    list: &mut Vec<Change>,
    track: Track,
    at: u64,
    detail: Detail,
) -> Result<(), Refused>
    ensures instants { OnOk result (instants_in list.new.items ≡ instants_in list.old.items ++ if_instant (record { track = track; at = at; detail = detail }) detail) }
    ensures flows { OnOk result (flows_in list.new.items ≡ flows_in list.old.items ++ if_flow (record { track = track; at = at; detail = detail }) detail) }
{
    push(list, Change::Noted(Note { track, at, detail }))?;
    Ok(())
}

/// What a track shows from a time on.
#[tactic(auto, using(crate::proofs::Told::told))]
pub(crate) fn shows(
    list: &mut Vec<Change>,
    track: Track,
    state: Option<State>,
    at: u64,
) -> Result<(), Refused>
    ensures { OnOk result (instants_in list.new.items ≡ instants_in list.old.items) }
{
    push(list, Change::Shows(track, state, at))?;
    Ok(())
}
